//! How a life ends.

ghost use Rattle.std.specs.Prelude.{◌≡◌};
ghost use Rattle.gateway_life.specs.declared.end.LifeEnd.TheVariants.{NoMemory};
ghost use Rattle.gateway_life.specs.Ended.{end_of, end_by};

use gateway_core::PlanError;
use order_meaning::{Names, Side};
use pair_journal::JournalError;
use std::alloc::AllocError;

/// How a life ends.
#[derive(Clone, Copy)]
pub enum LifeEnd {
    /// After all its rounds.
    Done,
    /// The disk failed, and its count of faults says so too.
    DiskFault,
    /// The disk holds no journal: it is refused at this place.
    JournalRefused {
        /// The place of the gate byte at fault, or of the record.
        at: u64,
    },
    /// The disk holds a journal of other names.
    NamesDiffer {
        /// Those of the journal.
        kept: Names,
        /// Those of the configuration.
        given: Names,
    },
    /// A record would end past the last byte of a disk.
    JournalFull,
    /// An event would take a number of this side past 999,999,999.
    NumbersSpent {
        /// Whose number.
        side: Side,
    },
    /// Want of memory.
    NoMemory,
}

impl From<JournalError> for LifeEnd {
    ghost from_gives = { λ error e. e ≡ end_of error };

    fn from(error: JournalError) -> LifeEnd {
        match error {
            JournalError::DiskFault => LifeEnd::DiskFault,
            JournalError::Refused { at } => LifeEnd::JournalRefused { at },
            JournalError::NamesDiffer { kept, given } => LifeEnd::NamesDiffer { kept, given },
            JournalError::Full => LifeEnd::JournalFull,
            JournalError::NoMemory => LifeEnd::NoMemory,
        }
    }
}

impl From<PlanError> for LifeEnd {
    ghost from_gives = { λ error e. e ≡ end_by error };

    fn from(error: PlanError) -> LifeEnd {
        match error {
            PlanError::NumbersSpent { side } => LifeEnd::NumbersSpent { side },
            PlanError::NoMemory => LifeEnd::NoMemory,
        }
    }
}

impl From<AllocError> for LifeEnd {
    ghost from_gives = { λ _ e. e ≡ NoMemory };

    fn from(_error: AllocError) -> LifeEnd {
        LifeEnd::NoMemory
    }
}
