//! Why the gateway did not begin to live.

ghost use Rattle.std.specs.Prelude.{◌≡◌};
ghost use Rattle.gateway_top.specs.Serve.{error_of_input, error_of_config};

use gateway_config::{ConfigFault, ConfigKey};
use whole_input::InputError;

/// Why the gateway did not begin to live. Then the disk, the wires, the clock and the taps are as
/// they were.
#[derive(Clone, Copy, Debug)]
pub enum ServeError {
    /// The source failed, and its count of faults says so too.
    InputFault,
    /// The input has more than 67,108,864 bytes.
    InputTooLong,
    /// This key of the configuration is the first that is missing or wrong.
    ConfigRefused {
        /// The key.
        key: ConfigKey,
    },
    /// Memory was refused.
    NoMemory,
}

impl From<InputError> for ServeError {
    ghost from_gives = { λ error e. e ≡ error_of_input error };

    fn from(error: InputError) -> ServeError {
        match error {
            InputError::Fault => ServeError::InputFault,
            InputError::TooLong => ServeError::InputTooLong,
            InputError::NoMemory => ServeError::NoMemory,
        }
    }
}

impl From<ConfigFault> for ServeError {
    ghost from_gives = { λ fault e. e ≡ error_of_config fault };

    fn from(fault: ConfigFault) -> ServeError {
        match fault {
            ConfigFault::Key(key) => ServeError::ConfigRefused { key },
            ConfigFault::NoMemory => ServeError::NoMemory,
        }
    }
}
