//! When the venue is tried again.

ghost use Rattle.std.specs.Prelude.{◌≡◌, ◌+◌, ◌-◌, ◌≤◌, min, nat_le};
ghost use Rattle.edge_logic.specs.BackOff.{pause_after, later, not_before};
ghost use Rattle.edge_logic.specs.BackOff.{failed_behind, pause_behind};

use std::marker::Model;

/// Two tries begin at least so far apart, in milliseconds.
const APART: u64 = 1_000;

/// So many tries that failed in a row have the longest pause behind them.
const LONGEST: u8 = 6;

/// How a connection to the venue ended, as far as the next try goes by it.
#[derive(Clone, Copy, Debug, PartialEq, Eq)]
pub enum LinkEnd {
    /// The session was active, and both sides said Logout.
    InOrder,
    /// The session was active.
    Active,
    /// No session was active, and the venue had said something or closed the connection.
    Refused,
    /// Nothing came from the venue, not even an end: it was reset, or no answer came.
    Unheard,
}

/// When the venue is tried next: at once, then 1, 2, 4 .. 30 s after the last try that failed.
/// After a connection: 1 s after an orderly Logout, at once where the session was active otherwise,
/// 30 s where the venue refused it, and as after a try that failed where nothing came. Two tries
/// begin at least a second apart.
#[derive(Debug, Drop)]
pub struct BackOff {
    /// How many tries failed in a row, up to 6.
    failed: u8,
    /// The moment before which no try begins, in milliseconds of the clock that never goes back.
    next: u64,
}

impl Model for BackOff {
    ghost use Rattle.std.specs.Prelude.{◌≤◌};
    ghost use Rattle.edge_logic.specs.BackOff.{Tries};

    ghost Value = { Tries };

    ghost view = { λ b. record { failed = b.failed; next = b.next } };

    ghost invariant = { λ b. b.failed ≤ 6 };
}

// The pause after so many tries that failed in a row, in milliseconds.
fn pause_after(failed: u8) -> u64
    requires { failed ≤ 6 }
    ensures { result ≡ pause_after failed }
{
    match failed {
        0 => 0,
        1 => 1_000,
        2 => 2_000,
        3 => 4_000,
        4 => 8_000,
        5 => 16_000,
        _ => 30_000,
    }
}

impl BackOff {
    /// Nothing was tried yet.
    pub fn new() -> BackOff
        ensures failed { result.failed ≡ 0 }
        ensures next { result.next ≡ 0 }
    {
        BackOff { failed: 0, next: 0 }
    }

    /// Whether a try may begin now.
    pub fn is_due(&self, now: u64) -> bool
        ensures { result ≡ nat_le self.now.next now }
    {
        self.next <= now
    }

    /// How long it is until then, in milliseconds.
    pub fn left(&self, now: u64) -> u64
        ensures { result ≡ self.now.next - now }
    {
        self.next.saturating_sub(now)
    }

    // Puts the next try off until this pause has passed.
    fn put_off(&mut self, now: u64, pause: u64)
        ensures failed { self.new.failed ≡ self.old.failed }
        ensures next { self.new.next ≡ not_before self.old.next now pause }
    {
        self.next = self.next.max(now.saturating_add(pause));
    }

    /// A try begins.
    pub fn begin(&mut self, now: u64)
        ensures failed { self.new.failed ≡ self.old.failed }
        ensures next { self.new.next ≡ not_before self.old.next now 1_000 }
    {
        self.put_off(now, APART);
    }

    /// A try failed.
    pub fn fail(&mut self, now: u64)
        ensures failed { self.new.failed ≡ min (self.old.failed + 1) 6 }
        ensures next { self.new.next
            ≡ not_before self.old.next now (pause_after (min (self.old.failed + 1) 6)) }
    {
        self.failed = (self.failed + 1).min(LONGEST);
        self.put_off(now, pause_after(self.failed));
    }

    /// A connection ended so.
    pub fn end(&mut self, now: u64, link_end: LinkEnd)
        ensures failed { self.new.failed ≡ failed_behind link_end self.old.failed }
        ensures next { self.new.next
            ≡ not_before self.old.next now (pause_behind link_end self.old.failed) }
    {
        match link_end {
            LinkEnd::InOrder => {
                self.failed = 0;
                self.put_off(now, APART);
            }
            LinkEnd::Active => {
                self.failed = 0;
                self.put_off(now, 0);
            }
            LinkEnd::Refused => {
                self.failed = LONGEST;
                self.put_off(now, pause_after(LONGEST));
            }
            LinkEnd::Unheard => self.fail(now),
        }
    }
}
