//! A clock, and one of listed moments.

ghost use Rattle.std.specs.Prelude.{◌≡◌, ℕ, List, [], ◌∷◌, is_some};
ghost use Rattle.std.specs.declared.option.Option.{Option};
ghost use Rattle.outside.specs.Causes.{next_count};
ghost use Rattle.wires.specs.Told.{GrowsBy, Keeps};
ghost use Rattle.wires.specs.Clock.{moments_told, moment_at};

use std::marker::Model;

/// What says the time.
pub trait Clock {
    /// The moments that it gave, where the clock tells them.
    ghost moments: { Self → Option (List ℕ) };

    /// The moments that it gives one after another, and then the last of them again, where it tells
    /// them before. No call ends that.
    ghost follows: { Self → List ℕ → Type 0 };

    /// The present moment, in milliseconds since 1970-01-01 00:00 UTC.
    ///
    /// It may be any value, also one before the last. One that no timestamp has, above
    /// 4,102,444,799,999, counts as that one: whoever asks takes the lesser of the two.
    fn now(&mut self) -> u64
        ensures grows { GrowsBy (moments self.old) (moments self.new) (result ∷ []) }
        ensures follows { Keeps (follows self.old) (follows self.new) };
}

/// A clock of listed moments, then the last of them again; always 0 where none is listed.
#[derive(Debug, Drop)]
pub struct ListClock {
    moments: Vec<u64>,
    asked: u64,
}

impl Model for ListClock {
    ghost use Rattle.wires.specs.Clock.{ClockState};

    ghost Value = { ClockState };

    ghost view = { λ c. record { listed = c.moments.items; asked = c.asked } };
}

impl ListClock {
    /// A clock of these moments, which was not asked yet. It takes no memory.
    pub fn new(moments: Vec<u64>) -> ListClock
        ensures { result ≡ record { listed = moments.items; asked = 0 } }
    {
        ListClock { moments, asked: 0 }
    }

    /// Whether it tells the moments that it gave: it was asked fewer than 2^64 - 1 times.
    pub fn is_told(&self) -> bool
        ensures { result ≡ is_some (moments_told self.now) }
    {
        self.asked != u64::MAX
    }
}

// The moment after so many.
#[tactic(auto, using(crate::proofs::Moments::moment_is))]
fn moment_after(moments: &[u64], asked: u64) -> u64
    ensures { result ≡ moment_at moments.now asked }
{
    if moments.is_empty() {
        return 0;
    }
    let last = moments.len() - 1;
    moments[asked.min(last as u64) as usize]
}

impl Clock for ListClock {
    ghost moments = { moments_told };

    ghost follows = { λ c listed. c.listed ≡ listed };

    fn now(&mut self) -> u64
        ensures grows { GrowsBy (moments_told self.old) (moments_told self.new) (result ∷ []) }
        ensures follows { (listed : List ℕ) → self.old.listed ≡ listed
            → self.new.listed ≡ listed }
        ensures moment { result ≡ moment_at self.old.listed self.old.asked }
        ensures counted { self.new ≡ record self.old { asked = next_count self.old.asked } }
    {
        let moment = moment_after(&self.moments, self.asked);
        self.asked = self.asked.saturating_add(1);
        moment
    }
}
