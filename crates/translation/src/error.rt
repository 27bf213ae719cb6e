//! Why a body is not translated.

ghost use Rattle.std.specs.Prelude.{◌≡◌};
ghost use Rattle.translation.specs.Errors.{error_of_fault, error_of_lack};

use order_meaning::{Fault, Lack};
use std::alloc::AllocError;
use thiserror::Error;

/// Why a body is not translated.
#[derive(Clone, Copy, Debug, PartialEq, Eq, Error)]
pub enum TranslateError {
    /// The message has this first fault, or a type that is not translated. It is never
    /// `Fault::NoMemory`.
    #[error("the message is at fault")]
    Faulty(Fault),
    /// The field of this tag says what the version of the reader cannot say.
    #[error("tag {0} has no counterpart")]
    Lacking(u32),
    /// The content has more than 7,936 bytes, or the body more than 8,192.
    #[error("the translation is too long")]
    TooLong,
    /// There is no memory for the translation.
    #[error("out of memory")]
    NoMemory,
}

impl From<AllocError> for TranslateError {
    ghost use Rattle.std.specs.Prelude.{◌≡◌};
    ghost use Rattle.translation.specs.declared.error.TranslateError.TheVariants.{NoMemory};

    ghost from_gives = { λ error result. result ≡ NoMemory };

    fn from(_error: AllocError) -> TranslateError {
        TranslateError::NoMemory
    }
}

/// The fault of a message that was read.
pub fn faulty(fault: Fault) -> TranslateError
    ensures { result ≡ error_of_fault fault }
{
    match fault {
        Fault::NoMemory => TranslateError::NoMemory,
        fault => TranslateError::Faulty(fault),
    }
}

/// The lack of a message that was translated.
pub fn lacking(lack: Lack) -> TranslateError
    ensures { result ≡ error_of_lack lack }
{
    match lack {
        Lack::NoMemory => TranslateError::NoMemory,
        Lack::Tag(tag) => TranslateError::Lacking(tag),
    }
}
