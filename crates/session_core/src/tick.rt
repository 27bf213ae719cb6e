//! What a session does at a moment at which nothing came.

ghost use Rattle.std.specs.Prelude.{◌≡◌};
ghost use Rattle.session_core.specs.Table.{effect_of, is_test_due, is_heartbeat_due, is_unanswered};
ghost use Rattle.session_core.specs.Table.{elapsed, silence_limit, is_ask_due, tick_row, S34};

use crate::session::does;
use crate::{Act, Acts, Admin, Ask, LinkState, Session, Step};

/// How long a Logon is awaited, in milliseconds (own).
const LOGON_WAIT: u64 = 10_000;

/// A second, in milliseconds.
const SECOND: u64 = 1_000;

/// How much silence is too much, in milliseconds for each second of HeartBtInt(108): a fifth more
/// than the second itself, since the standard says "some reasonable transmission time" (own).
const SILENCE: u64 = 1_200;

/// The seconds after which a gap is asked for again where HeartBtInt(108) is 0 (own).
const HEART_OF_NONE: u32 = 30;

// The time since a moment; none where the clock went back.
fn elapsed(now: u64, since: u64) -> u64
    ensures { result ≡ elapsed now since }
{
    now.saturating_sub(since)
}

// The rows of a tick.
impl Session {
    // How much silence is too much, in milliseconds.
    fn silence_limit(&self) -> u64
        ensures { result ≡ silence_limit self.now.heart }
    {
        SILENCE * u64::from(self.heart)
    }

    fn is_test_due(&self, now: u64) -> bool
        ensures { result ≡ is_test_due now self.now }
    {
        self.tested.is_none() && self.heart > 0 && self.silence_limit() < elapsed(now, self.seen)
    }

    fn is_heartbeat_due(&self, now: u64) -> bool
        ensures { result ≡ is_heartbeat_due now self.now }
    {
        let said = if self.is_test_due(now) {
            now
        } else {
            self.said
        };
        self.heart > 0 && SECOND * u64::from(self.heart) <= elapsed(now, said)
    }

    fn is_unanswered(&self, now: u64) -> bool
        ensures { result ≡ is_unanswered self.now.tested now self.now.heart }
    {
        match self.tested {
            Some(since) => self.silence_limit() < elapsed(now, since),
            None => false,
        }
    }

    fn is_ask_due(&self, now: u64) -> bool
        ensures { result ≡ is_ask_due self.now.ask now self.now.heart }
    {
        let heart = if self.heart == 0 {
            HEART_OF_NONE
        } else {
            self.heart
        };
        match self.ask {
            Some(ask) => SECOND * u64::from(heart) < elapsed(now, ask.since),
            None => false,
        }
    }

    fn ticked(&self, now: u64) -> Step
        ensures { result ≡ effect_of S34 0 now self.now }
    {
        let mut acts = Acts::new();
        let mut next = *self;
        if self.is_test_due(now) {
            acts.push(Act::Say(Admin::TestRequest));
            next.tested = Some(now);
        }
        if self.is_heartbeat_due(now) {
            acts.push(Act::Say(Admin::Heartbeat { echo: false }));
        }
        if self.is_ask_due(now) {
            acts.push(self.asking());
            next.ask = self.ask.map(|ask| Ask { since: now, ..ask });
        }
        Step { acts, next }
    }

    // A tick, by the state of the link.
    pub(crate) fn tick(&self, now: u64) -> Step
        ensures { result ≡ effect_of (tick_row self.now.link now self.now) 0 now self.now }
    {
        match self.link {
            LinkState::Down => does(&[], *self),
            LinkState::Wait | LinkState::Asked => {
                if LOGON_WAIT < elapsed(now, self.seen) {
                    self.hung_up()
                } else {
                    does(&[], *self)
                }
            }
            LinkState::Active if self.is_unanswered(now) => self.hung_up(),
            LinkState::Active => self.ticked(now),
        }
    }
}
