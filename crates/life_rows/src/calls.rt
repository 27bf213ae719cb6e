//! The calls of rows, by whether they run the program.

use crate::runs::Runs;
use crate::texts::SIGNS;
use crate::world::World;
use row_words::{Answers, Sign};
use std::alloc::{AllocError, Global};

/// What the rows before have left: of the lives, and of the runs of the program.
#[derive(Drop)]
pub(crate) struct Calls {
    world: World,
    runs: Runs,
}

impl Calls {
    /// No life, and no run.
    pub(crate) fn new(alloc: Global) -> Calls {
        Calls {
            world: World::new(alloc),
            runs: Runs::new(alloc),
        }
    }
}

impl Answers for Calls {
    fn answer(&mut self, alloc: Global, call: &str, given: &str) -> Result<Vec<u8>, AllocError> {
        if call == "fixgate" {
            self.runs.answer(alloc, call, given)
        } else {
            self.world.answer(alloc, call, given)
        }
    }

    fn signs(&self) -> &'static [Sign] {
        &SIGNS
    }
}
