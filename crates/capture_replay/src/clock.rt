//! A clock that says the moments of the lines of a life.

ghost use Rattle.std.specs.Prelude.{◌≡◌, ℕ, suc, List, [], ◌∷◌, is_some};
ghost use Rattle.wires.specs.Told.{GrowsBy};
ghost use Rattle.wires.specs.Clock.{moments_told, moment_at};
ghost use Rattle.capture_replay.specs.Rounds.{moments_from};

use crate::rounds::{is_round, now_after};
use capture_text::{Life, Lines};
use std::marker::Model;
use wires::Clock;

/// A clock that says the moment of each round of a life and that of the end, then the last of them
/// again.
#[derive(Debug, Drop)]
pub(crate) struct LifeClock<'a> {
    from: u64,
    life: &'a Life,
    // The lines that are left, and the moment before them.
    lines: Lines<'a>,
    now: u64,
    asked: u64,
}

impl<'a> Model for LifeClock<'a> {
    ghost use Rattle.wires.specs.Clock.{ClockState};
    ghost use Rattle.capture_replay.specs.Rounds.{moments_from};
    ghost use Rattle.capture_replay.specs.LifeClock.{IsAt};

    ghost Value = { ClockState };

    ghost view = { λ c. record { listed = moments_from c.from c.life.now; asked = c.asked } };

    ghost invariant = { λ c. IsAt (moments_from c.from c.life.now) c.asked
        (moments_from c.now c.lines) };
}

/// The moment of the next round, or that of the end; the round is behind then.
fn next_moment(lines: &mut Lines<'_>, now: u64) -> u64
    ensures first { moment_at (moments_from now lines.old) 0 ≡ result }
    ensures rest { (after : ℕ) → moment_at (moments_from now lines.old) (suc after)
        ≡ moment_at (moments_from result lines.new) after }
{
    let mut moment = now;
    while let Some(line) = lines.next() {
        if is_round(line) {
            return moment;
        }
        moment = now_after(moment, line);
    }
    moment
}

impl<'a> LifeClock<'a> {
    /// A clock of the lines of a life, which was not asked yet; it says this moment before the
    /// first that a line tells. It takes no memory.
    pub(crate) fn new(from: u64, life: &'a Life) -> LifeClock<'a>
        ensures { result ≡ record { listed = moments_from from life.now; asked = 0 } }
    {
        LifeClock {
            from,
            life,
            lines: life.lines(),
            now: from,
            asked: 0,
        }
    }

    /// Whether it tells the moments that it gave: it was asked fewer than 2^64 - 1 times.
    pub(crate) fn is_told(&self) -> bool
        ensures { result ≡ is_some (moments_told self.entry.now) }
    {
        self.asked != u64::MAX
    }
}

impl<'a> Clock for LifeClock<'a> {
    ghost moments = { moments_told };

    ghost follows = { λ c listed. c.listed ≡ listed };

    fn now(&mut self) -> u64
        ensures grows { GrowsBy (moments_told self.old) (moments_told self.new) (result ∷ []) }
        ensures follows { (listed : List ℕ) → self.old.listed ≡ listed
            → self.new.listed ≡ listed }
    {
        let moment = next_moment(&mut self.lines, self.now);
        self.now = moment;
        self.asked = self.asked.saturating_add(1);
        moment
    }
}
