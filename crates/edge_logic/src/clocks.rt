//! The system's clocks.

use std::rt::Clock;

/// Milliseconds of a clock that never goes back; 0 where the system tells none.
pub fn ticks<R: Clock>(rt: &R) -> u64 {
    match rt.monotonic() {
        Ok(time) => u64::try_from(time.as_millis()).unwrap_or(u64::MAX),
        Err(_) => 0,
    }
}

/// Milliseconds since 1970-01-01 00:00 UTC, where the system tells them.
pub fn moment<R: Clock>(rt: &R) -> Option<u64> {
    match rt.since_1970() {
        Ok(time) => u64::try_from(time.as_millis()).ok(),
        Err(_) => None,
    }
}
