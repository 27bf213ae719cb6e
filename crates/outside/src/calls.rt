//! What the forms in memory have in common: their calls are counted, and listed ones fail.

ghost use Rattle.std.specs.Prelude.{◌≡◌, ◌≤◌, ◌↔◌, IsErr};
ghost use Rattle.outside.specs.Causes.{HasCause, next_count, faults_after};
ghost use Rattle.outside.specs.Memory.{CallsState, IsListed, called};

use crate::Failed;
use std::marker::Model;

/// The calls of a form in memory, numbered from 1, and which of them fail.
///
/// Counts stand still at 2^64 - 1.
#[derive(Debug, Drop)]
pub struct Calls {
    made: u64,
    fail: Vec<u64>,
    faults: u64,
}

impl Model for Calls {
    ghost use Rattle.outside.specs.Memory.{CallsState};

    ghost Value = { CallsState };

    ghost view = { λ c. record { made = c.made; fail = c.fail.items; faults = c.faults } };
}

impl Calls {
    /// No call yet; those with the numbers in `fail` are to fail.
    pub fn new(fail: Vec<u64>) -> Calls
        ensures { result ≡ record { made = 0; fail = fail.items; faults = 0 } }
    {
        Calls {
            made: 0,
            fail,
            faults: 0,
        }
    }

    /// Counts a call.
    ///
    /// # Errors
    /// [`Failed`] exactly where the call is listed, and then it is counted as a fault.
    pub fn begin(&mut self) -> Result<(), Failed>
        ensures listed { IsErr result ↔ IsListed self.old }
        ensures counted { self.new ≡ called self.old (faults_after result self.old.faults) }
        ensures cause { HasCause self.old.faults self.new.faults result }
    {
        self.made = self.made.saturating_add(1);
        if self.fail.contains(&self.made) {
            return Err(self.fail());
        }
        Ok(())
    }

    /// Counts a fault.
    pub fn fail(&mut self) -> Failed
        ensures counted { self.new ≡ record self.old { faults = next_count self.old.faults } }
        ensures later { self.old.faults ≤ self.new.faults }
    {
        self.faults = self.faults.saturating_add(1);
        Failed
    }
}
