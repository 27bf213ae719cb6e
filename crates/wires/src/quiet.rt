//! A source and a wire of which nothing comes.

ghost use Rattle.std.specs.Prelude.{◌≡◌, ◌<◌, ◌∷◌, [], length, true};
ghost use Rattle.std.specs.Prelude.{false, Some, Ok, IfOk, IfSome};
ghost use Rattle.std.specs.Io.{ReadsAtMost};
ghost use Rattle.std.specs.Io.KnownBytes.{ReadConsumes};
ghost use Rattle.outside.specs.Bytes.{TellsEnd};
ghost use Rattle.outside.specs.Causes.{HasCause, next_count};
ghost use Rattle.wires.specs.Told.{GrowsBy};
ghost use Rattle.wires.specs.Wire.{Nothing, Poll, came_of, Fits, is_within, may_come};
ghost use Rattle.wires.specs.Quiet.{quiet};

use crate::{Arrival, Wire};
use outside::{Failed, Source};

/// A source that never fails, and whose input has ended.
#[derive(Debug, Drop)]
pub struct QuietSource {
    ended: bool,
}

impl QuietSource {
    /// A source that was not read yet.
    pub fn new() -> QuietSource
        ensures { result.ended ≡ false }
    {
        QuietSource { ended: false }
    }
}

impl Source for QuietSource {
    ghost left = { λ s. Some [] };

    ghost ended = { λ s. s.ended };

    ghost faults = { λ s. 0 };

    fn read(&mut self, buf: &mut [u8]) -> Result<usize, Failed>
        requires { self.old.ended ≡ false }
        ensures bound { ReadsAtMost result buf.new }
        ensures bytes { ReadConsumes (Some []) (Some []) result buf.new }
        ensures ended { TellsEnd result buf.new self.new.ended }
        ensures cause { HasCause 0 0 result }
        ensures nothing { result ≡ Ok 0 }
    {
        self.ended = !buf.is_empty();
        Ok(0)
    }
}

/// A wire that never fails, and on which no connection is opened.
#[derive(Debug, Drop)]
pub struct QuietWire {
    polls: u64,
}

impl QuietWire {
    /// A wire that was not polled yet.
    pub fn new() -> QuietWire
        ensures { result.polls ≡ 0 }
    {
        QuietWire { polls: 0 }
    }
}

impl Wire for QuietWire {
    ghost recorded = { λ w. quiet w.polls };

    ghost faults = { λ w. 0 };

    ghost polls = { λ w. w.polls };

    ghost plays = { λ w script. ⊥ };

    fn poll(&mut self, buf: &mut [u8]) -> Result<Arrival, Failed>
        requires room { 0 < length buf.old }
        ensures fits { IfOk result (λ arrived. Fits arrived buf.new) }
        ensures grows { GrowsBy
            (quiet self.old.polls) (quiet self.new.polls) (Poll (came_of result buf.new) ∷ []) }
        ensures allowed { IfSome (quiet self.old.polls) (λ r.
            may_come (is_within r) (came_of result buf.new) ≡ true) }
        ensures counted { self.new.polls ≡ next_count self.old.polls }
        ensures cause { HasCause 0 0 result }
        ensures nothing { result ≡ Ok Arrival.Nothing }
    {
        self.polls = self.polls.saturating_add(1);
        Ok(Arrival::Nothing)
    }

    #[tactic(auto, using(crate::proofs::Silence::never_sent))]
    fn send(&mut self, _piece: &[u8]) -> Result<(), Failed> {
        // Where the record is told there is no connection, so no call comes here.
        Ok(())
    }

    #[tactic(auto, using(crate::proofs::Silence::stays_quiet))]
    fn hang_up(&mut self) {}
}
