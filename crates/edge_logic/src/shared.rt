//! What the wires and the clock tell each other between two calls.

ghost use Rattle.std.specs.Prelude.{◌≡◌, if◌then◌else◌};

use std::cell::Cell;

/// The longest wait of a round, in milliseconds, so that a tick is late by no more than this.
pub const WAIT: u64 = 50;

/// How long a round waits, in milliseconds: not at all behind one in which something came, since
/// more may be there of which no event tells.
pub fn wait_after(arrived: bool) -> u64
    ensures { result ≡ (if arrived then 0 else WAIT) }
{
    if arrived { 0 } else { WAIT }
}

/// What the wires and the clock tell each other: whether the next round waits, and whether an
/// orderly end was asked for.
#[derive(Drop)]
pub struct Shared {
    busy: Cell<bool>,
    ending: Cell<bool>,
}

impl Shared {
    /// Nothing is going on.
    pub fn new() -> Shared {
        Shared {
            busy: Cell::new(false),
            ending: Cell::new(false),
        }
    }

    /// A wire got something, or has something to write: the next round does not wait.
    pub fn note_activity(&self) {
        self.busy.set(true);
    }

    /// Whether [`Shared::note_activity`] was called since this was asked last.
    pub fn take_activity(&self) -> bool {
        self.busy.replace(false)
    }

    /// From now on the wires give nothing and the clock stands still, so that the rounds that are
    /// left go by at once.
    pub fn end(&self) {
        self.ending.set(true);
    }

    /// Whether an orderly end was asked for.
    pub fn is_ending(&self) -> bool {
        self.ending.get()
    }
}
