//! What answers the messages of a life.

ghost use Rattle.std.specs.Prelude.{Bool, List};
ghost use Rattle.std.specs.declared.option.Option.{Option};
ghost use Rattle.pair_entries.specs.declared.entry.Entry.{Entry};
ghost use Rattle.event_decisions.specs.Decide.{Asked, Words};

/// What answers a message of the application.
///
/// The laws hold whatever it is, so it has no clause. It is a trait since a law ranges over it.
pub trait Answering {
    /// Behind these entries, with the venue's session active or not, these words answer what is
    /// asked.
    ghost answers: { List Entry → Bool → Option Asked → Option Words → Type 0 };
}
