//! A walk over the records of a journal.

ghost use Rattle.std.specs.Prelude.{IfOk};
ghost use Rattle.pair_journal.specs.Walks.{BeginsEntries, BeginsOuts};

use gate_log::Chunk;
use kept_entries::{Spot, start};
use std::alloc::{AllocError, Global};

/// Where a walk over a journal has come to, and the bytes of the disk that it read last: at most
/// 65,541.
#[derive(Debug, Drop)]
pub struct Walk {
    pub(crate) spot: Spot,
    pub(crate) chunk: Chunk,
}

impl Walk {
    /// A walk before the first entry.
    pub(crate) fn new(alloc: Global) -> Result<Walk, AllocError>
        ensures entries { IfOk result BeginsEntries }
        ensures outs { IfOk result BeginsOuts }
    {
        Ok(Walk {
            spot: start(),
            chunk: Chunk::new(alloc)?,
        })
    }

    /// Goes back before the first entry, and drops what was read.
    pub(crate) fn restart(&mut self)
        ensures { BeginsOuts self.new }
    {
        self.spot = start();
        self.chunk.clear();
    }
}
