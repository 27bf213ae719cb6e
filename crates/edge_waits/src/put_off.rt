//! How long a side with numbers of another day is put off.

ghost use Rattle.std.specs.Prelude.{◌≡◌, ◌+◌, ◌-◌, ◌≤◌, min, nat_le};
ghost use Rattle.edge_logic.specs.BackOff.{later, not_before};
ghost use Rattle.edge_waits.specs.PutOff.{pause_of};

use std::marker::Model;

/// So many times in a row have the longest pause behind them.
const LONGEST: u8 = 6;

/// How long a side that may be in the day before has to begin its own, in milliseconds.
const LATE: u64 = 120_000;

/// How long a side whose number was too low is put off: 30 s, then 60 s and so on, doubled up to 10
/// minutes, from 30 s again once a session of it was active. One that may be in the day before is
/// put off until two minutes have passed.
#[derive(Debug, Drop)]
pub struct PutOff {
    /// How often in a row its number was too low, up to 6.
    times: u8,
    /// Until when, in milliseconds of the clock that never goes back.
    until: u64,
}

impl Model for PutOff {
    ghost use Rattle.std.specs.Prelude.{◌≤◌};
    ghost use Rattle.edge_waits.specs.PutOff.{Delay};

    ghost Value = { Delay };

    ghost view = { λ p. record { times = p.times; until = p.until } };

    ghost invariant = { λ p. p.times ≤ 6 };
}

// The pause behind so many times in a row, in milliseconds.
fn pause_of(times: u8) -> u64
    requires { times ≤ 6 }
    ensures { result ≡ pause_of times }
{
    match times {
        0 => 0,
        1 => 30_000,
        2 => 60_000,
        3 => 120_000,
        4 => 240_000,
        5 => 480_000,
        _ => 600_000,
    }
}

impl PutOff {
    /// The side is not put off.
    pub fn new() -> PutOff
        ensures times { result.times ≡ 0 }
        ensures until { result.until ≡ 0 }
    {
        PutOff { times: 0, until: 0 }
    }

    /// Whether the side may come, or is tried, at this moment.
    pub fn is_over(&self, now: u64) -> bool
        ensures { result ≡ nat_le self.now.until now }
    {
        self.until <= now
    }

    /// How long it is until then, in milliseconds.
    pub fn left(&self, now: u64) -> u64
        ensures { result ≡ self.now.until - now }
    {
        self.until.saturating_sub(now)
    }

    /// A connection ended since the side's number was too low.
    pub fn begin(&mut self, now: u64)
        ensures times { self.new.times ≡ min (self.old.times + 1) 6 }
        ensures until { self.new.until ≡ later now (pause_of (min (self.old.times + 1) 6)) }
    {
        self.times = (self.times + 1).min(LONGEST);
        self.until = now.saturating_add(pause_of(self.times));
    }

    /// The side may have been in the day before, at that moment.
    pub fn hold(&mut self, since: u64)
        ensures times { self.new.times ≡ self.old.times }
        ensures until { self.new.until ≡ not_before self.old.until since 120_000 }
    {
        self.until = self.until.max(since.saturating_add(LATE));
    }

    /// A session of the side was active.
    pub fn forget(&mut self)
        ensures times { self.new.times ≡ 0 }
        ensures until { self.new.until ≡ self.old.until }
    {
        self.times = 0;
    }
}
