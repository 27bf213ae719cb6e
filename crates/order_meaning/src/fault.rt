//! Why a message is refused.

ghost use Rattle.std.specs.Prelude.{◌≡◌};
ghost use Rattle.order_meaning.specs.declared.fault.Fault.TheVariants as faults;
ghost use Rattle.order_meaning.specs.declared.fault.Lack.TheVariants as lacks;

use std::alloc::{AllocError, AllocFailed};
use thiserror::Error;

/// What is wrong with a message.
#[derive(Clone, Copy, Debug, Error, PartialEq, Eq)]
pub enum Fault {
    /// It is answered by a Reject(3): RefTagID(371), where one is known, and
    /// SessionRejectReason(373).
    #[error("a field is at fault")]
    Session {
        /// The tag of the field, where one is known.
        tag: Option<u32>,
        /// SessionRejectReason(373).
        reason: u8,
    },
    /// It says what the other version cannot say, at this tag.
    #[error("tag {tag} has no counterpart")]
    NoCounterpart {
        /// The tag of the field.
        tag: u32,
    },
    /// Its type is not one of the side's.
    #[error("the type is not supported")]
    NotSupported,
    /// There was no memory to read it.
    #[error("out of memory")]
    NoMemory,
}

impl From<AllocError> for Fault {
    ghost from_gives = { λ _ e. e ≡ faults.NoMemory };

    fn from(_e: AllocError) -> Fault {
        Fault::NoMemory
    }
}

impl<T: Drop> From<AllocFailed<T>> for Fault {
    ghost from_gives = { λ _ e. e ≡ faults.NoMemory };

    fn from(_e: AllocFailed<T>) -> Fault {
        Fault::NoMemory
    }
}

/// Why a message has no translation.
#[derive(Clone, Copy, Debug, Error, PartialEq, Eq)]
pub enum Lack {
    /// The field of this tag says what the other version cannot say.
    #[error("tag {0} has no counterpart")]
    Tag(u32),
    /// There was no memory to translate it.
    #[error("out of memory")]
    NoMemory,
}

impl From<AllocError> for Lack {
    ghost from_gives = { λ _ e. e ≡ lacks.NoMemory };

    fn from(_e: AllocError) -> Lack {
        Lack::NoMemory
    }
}

impl<T: Drop> From<AllocFailed<T>> for Lack {
    ghost from_gives = { λ _ e. e ≡ lacks.NoMemory };

    fn from(_e: AllocFailed<T>) -> Lack {
        Lack::NoMemory
    }
}
