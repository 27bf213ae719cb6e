//! Who is shown the entries of a journal while they are read.

ghost use Rattle.std.specs.Prelude.{◌∷◌, ◌++◌, [], List, OnOk};
ghost use Rattle.pair_entries.specs.declared.entry.Entry.{Entry};

use pair_entries::EntryRef;
use std::alloc::AllocError;

/// Who is shown each entry of a journal, in order, as it is loaded: where it stands among the bytes
/// that were read, since no journal holds them afterwards.
pub trait Reader {
    /// It was shown these entries.
    ghost shown: { Self → List Entry → Type 0 };

    /// Is shown the next entry.
    ///
    /// # Errors
    /// `AllocError` for want of memory.
    fn saw(&mut self, entry: &EntryRef<'_>) -> Result<(), AllocError>
        ensures { OnOk result ((before : List Entry) → shown self.old before →
            shown self.new (before ++ entry.now ∷ [])) };

    /// Is shown them from the first on anew, and forgets what it was shown.
    fn restart(&mut self)
        ensures { shown self.new [] };
}

/// Who keeps nothing of them.
#[derive(Clone, Copy, Debug)]
pub struct NoReader;

impl Reader for NoReader {
    ghost shown = { λ _ _. Unit {0} };

    fn saw(&mut self, _entry: &EntryRef<'_>) -> Result<(), AllocError> {
        Ok(())
    }

    fn restart(&mut self) {}
}
