//! Why a call of a log gives up.

ghost use Rattle.std.specs.Prelude.{◌≡◌};
ghost use Rattle.gate_log.specs.declared.error.LogError.TheVariants as errors;

use outside::Failed;
use std::alloc::{AllocError, AllocFailed};
use thiserror::Error;

/// Why a call of a log gives up.
#[derive(Clone, Copy, Debug, Error, PartialEq, Eq)]
pub enum LogError {
    /// The disk failed, and its count of faults says so too.
    #[error("the disk failed")]
    DiskFault,
    /// The disk holds no log: it is refused at this place.
    #[error("the disk holds no log: byte {at}")]
    Foreign {
        /// The place of the gate byte at fault.
        at: u64,
    },
    /// The record would end past the 1,073,741,824 bytes of a disk.
    #[error("the log is full")]
    Full,
    /// Memory was refused.
    #[error("out of memory")]
    NoMemory,
}

impl From<Failed> for LogError {
    ghost from_gives = { λ _ e. e ≡ errors.DiskFault };

    fn from(_e: Failed) -> LogError {
        LogError::DiskFault
    }
}

impl From<AllocError> for LogError {
    ghost from_gives = { λ _ e. e ≡ errors.NoMemory };

    fn from(_e: AllocError) -> LogError {
        LogError::NoMemory
    }
}

impl<T: Drop> From<AllocFailed<T>> for LogError {
    ghost from_gives = { λ _ e. e ≡ errors.NoMemory };

    fn from(_e: AllocFailed<T>) -> LogError {
        LogError::NoMemory
    }
}
