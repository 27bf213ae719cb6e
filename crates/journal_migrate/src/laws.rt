//! What holds of the bytes of a journal of format 1, by the definitions alone. Each law is a
//! contract: its function does nothing.

ghost use Rattle.std.specs.Prelude.{ℕ, List};
ghost use Rattle.journal_migrate.specs.Laws.{HasOneReading1};

/// An image is a journal of format 1 in at most one way: no other names, no other entries, and not
/// refused; and a refused one is refused at one place.
pub fn an_image_has_one_reading()
    ensures { (image : List ℕ) → HasOneReading1 image }
{}
