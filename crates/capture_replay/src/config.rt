//! How the gateway of a capture is set up.

ghost use Rattle.std.specs.Prelude.{◌≡◌};
ghost use Rattle.capture_replay.specs.Replay.{config_with};

use gateway_config::Config;
use order_meaning::Names;

/// How far SendingTime(52) may be from the present moment, in seconds.
const WINDOW: u32 = 120;

/// The configuration with these names, this HeartBtInt(108) to the venue, in seconds, and the
/// minute of the UTC day at which a session day begins, where one does.
pub(crate) fn config_of(names: Names, heart: u32, reset: Option<u32>) -> Config
    ensures { result ≡ config_with names heart reset }
{
    Config {
        names,
        heart,
        window: WINDOW,
        reset,
    }
}
