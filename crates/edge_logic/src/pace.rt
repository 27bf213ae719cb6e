//! What is done once a second at most.

ghost use Rattle.std.specs.Prelude.{◌≡◌, nat_le, if◌then◌else◌};
ghost use Rattle.edge_logic.specs.BackOff.{later};

use std::marker::Model;

/// When something that is done once a second at most may be done again.
#[derive(Debug, Drop)]
pub struct Pace {
    /// In milliseconds of the clock that never goes back.
    next: u64,
}

impl Model for Pace {
    ghost use Rattle.std.specs.Prelude.{ℕ};

    ghost Value = { ℕ };

    ghost view = { λ pace. pace.next };
}

impl Pace {
    /// It may be done at once.
    pub fn new() -> Pace
        ensures { result ≡ 0 }
    {
        Pace { next: 0 }
    }

    /// Whether it may be done now. Where it may, it may not again before a second has passed.
    pub fn take(&mut self, now: u64) -> bool
        ensures due { result ≡ nat_le self.old now }
        ensures next { self.new ≡ (if nat_le self.old now then later now 1_000 else self.old) }
    {
        if self.next > now {
            return false;
        }
        self.next = now.saturating_add(1_000);
        true
    }
}
