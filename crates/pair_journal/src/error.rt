//! Why a call of a journal gives up.

ghost use Rattle.std.specs.Prelude.{◌≡◌};
ghost use Rattle.pair_journal.specs.declared.error.JournalError.TheVariants as errors;
ghost use Rattle.pair_journal.specs.Calls.{journal_error};

use gate_log::LogError;
use order_meaning::Names;
use std::alloc::{AllocError, AllocFailed};
use thiserror::Error;

/// Why a call of a journal gives up.
#[derive(Clone, Copy, Debug, Error, PartialEq, Eq)]
pub enum JournalError {
    /// The disk failed, and its count of faults says so too.
    #[error("the disk failed")]
    DiskFault,
    /// The disk holds no journal: it is refused at this place.
    #[error("the disk holds no journal: byte {at}")]
    Refused {
        /// The place of the gate byte at fault, or of the record.
        at: u64,
    },
    /// The disk holds a journal of other names.
    #[error("the journal has other names")]
    NamesDiffer {
        /// Those of the journal.
        kept: Names,
        /// Those that were asked for.
        given: Names,
    },
    /// The record would end past the 1,073,741,824 bytes of a disk.
    #[error("the journal is full")]
    Full,
    /// Memory was refused.
    #[error("out of memory")]
    NoMemory,
}

impl From<LogError> for JournalError {
    ghost from_gives = { λ log e. e ≡ journal_error log };

    fn from(e: LogError) -> JournalError {
        match e {
            LogError::DiskFault => JournalError::DiskFault,
            LogError::Foreign { at } => JournalError::Refused { at },
            LogError::Full => JournalError::Full,
            LogError::NoMemory => JournalError::NoMemory,
        }
    }
}

impl From<AllocError> for JournalError {
    ghost from_gives = { λ _ e. e ≡ errors.NoMemory };

    fn from(_e: AllocError) -> JournalError {
        JournalError::NoMemory
    }
}

impl<T: Drop> From<AllocFailed<T>> for JournalError {
    ghost from_gives = { λ _ e. e ≡ errors.NoMemory };

    fn from(_e: AllocFailed<T>) -> JournalError {
        JournalError::NoMemory
    }
}
