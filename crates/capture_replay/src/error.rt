//! Why the capture of an input was not replayed whole.

ghost use Rattle.std.specs.Prelude.{◌≡◌};
ghost use Rattle.capture_replay.specs.Input.{error_of_input, error_of_capture, error_of_print};

use capture_text::CaptureFault;
use replay_lines::PrintError;
use thiserror::Error;
use whole_input::InputError;

/// Why the capture of an input was not replayed whole.
#[derive(Clone, Copy, Debug, Error, PartialEq, Eq)]
pub enum ReplayError {
    /// The source failed, and its count of faults says so too.
    #[error("input fault")]
    InputFault,
    /// The input has more than 67,108,864 bytes.
    #[error("input too long")]
    InputTooLong,
    /// This is the first line with which no capture goes on, counted from 1.
    #[error("capture line {line}")]
    CaptureRefused {
        /// The line.
        line: u32,
    },
    /// The sink failed, and its count of faults says so too.
    #[error("output fault")]
    OutputFault,
    /// Memory was refused.
    #[error("out of memory")]
    NoMemory,
}

impl From<InputError> for ReplayError {
    ghost from_gives = { λ error e. e ≡ error_of_input error };

    fn from(error: InputError) -> ReplayError {
        match error {
            InputError::Fault => ReplayError::InputFault,
            InputError::TooLong => ReplayError::InputTooLong,
            InputError::NoMemory => ReplayError::NoMemory,
        }
    }
}

impl From<CaptureFault> for ReplayError {
    ghost from_gives = { λ fault e. e ≡ error_of_capture fault };

    fn from(fault: CaptureFault) -> ReplayError {
        match fault {
            CaptureFault::Line(line) => ReplayError::CaptureRefused { line },
            CaptureFault::NoMemory => ReplayError::NoMemory,
        }
    }
}

impl From<PrintError> for ReplayError {
    ghost from_gives = { λ error e. e ≡ error_of_print error };

    fn from(error: PrintError) -> ReplayError {
        match error {
            PrintError::OutputFault => ReplayError::OutputFault,
            PrintError::NoMemory => ReplayError::NoMemory,
        }
    }
}
