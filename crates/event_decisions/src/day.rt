//! When a session day begins.

ghost use Rattle.std.specs.Prelude.{◌≡◌, ◌≤◌, IfSome};
ghost use Rattle.pair_entries.specs.declared.TheConstants.{MAX_AT};
ghost use Rattle.event_decisions.specs.Days.{session_day, is_due};

/// The milliseconds of a day, and of a minute.
const DAY_MS: u64 = 86_400_000;

const MINUTE_MS: u64 = 60_000;

// The session day of a moment, where days begin at this minute of the UTC day.
fn session_day(minute: u32, now: u64) -> u64
    requires { now ≤ MAX_AT }
    ensures { result ≡ session_day minute now }
{
    (now + DAY_MS).saturating_sub(u64::from(minute) * MINUTE_MS) / DAY_MS
}

/// Whether a new session day is due at a moment: days begin at a minute of the UTC day, and one
/// began since the last moment at which one did.
pub fn is_due(minute: Option<u32>, began: Option<u64>, now: u64) -> bool
    requires began { IfSome began (λ b. b ≤ MAX_AT) }
    requires moment { now ≤ MAX_AT }
    ensures { result ≡ is_due minute began now }
{
    match (minute, began) {
        (Some(minute), Some(began)) => session_day(minute, began) < session_day(minute, now),
        _ => false,
    }
}
