//! How long an end by the stop file takes.

ghost use Rattle.std.specs.Prelude.{◌≡◌};
ghost use Rattle.edge_logic.specs.EndTime.{long_end};

/// How many rounds at least go by in a second behind a stop file, as was measured.
pub const ROUNDS_A_SECOND: u64 = 5_000_000;

/// The seconds past which an end is told of at the start.
pub const LONG_END: u64 = 5;

/// How many seconds the rounds that are left take behind a stop file, where they are more than 5.
pub fn long_end(rounds: u64) -> Option<u64>
    ensures { result ≡ long_end rounds }
{
    let seconds = rounds / ROUNDS_A_SECOND;
    if seconds > LONG_END {
        Some(seconds)
    } else {
        None
    }
}
