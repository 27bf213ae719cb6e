//! A peer as a wire: its polls and faults are counted, and it tells nothing of what went over it.

ghost use Rattle.std.specs.Prelude.{◌≡◌, ◌<◌, ◌&&◌, ◌∷◌, [], length, Bool, false, true};
ghost use Rattle.std.specs.Prelude.{is_ok, IfOk, IfSome};
ghost use Rattle.std.specs.Option.{ForSome};
ghost use Rattle.outside.specs.Causes.{HasCause, next_count};
ghost use Rattle.wires.specs.Told.{GrowsBy};
ghost use Rattle.wires.specs.Wire.{Poll, came_of, Fits, is_within, may_come, SendGrows};
ghost use Rattle.wires.specs.Wire.{HangUpGrows};
ghost use Rattle.edge_logic.specs.Order.{InOrder, untold};

use crate::fault::Fault;
use outside::Failed;
use wires::{Arrival, Wire};

/// One peer over sockets, with the reason where a call fails.
pub trait Peer {
    /// Whether there is a connection.
    ghost within: { Self → Bool };

    /// What came.
    ///
    /// # Errors
    /// Where the connection, or an opening, failed.
    fn arrive(&mut self, buf: &mut [u8]) -> Result<Arrival, Fault>
        requires room { 0 < length buf.old }
        ensures fits { IfOk result (λ arrived. Fits arrived buf.new) }
        ensures order { InOrder (within self.old) (within self.new) result buf.new };

    /// Writes a piece.
    ///
    /// # Errors
    /// Where the write failed, or there is no connection. Behind an error there is none.
    fn say(&mut self, piece: &[u8]) -> Result<(), Fault>
        ensures within { within self.new ≡ (within self.old && is_ok result) };

    /// Ends the connection.
    fn hang_up(&mut self)
        ensures within { within self.new ≡ false };

    /// Goes on with what was to be written before a hang up, and answers whether nothing is left.
    fn is_gone(&mut self) -> bool
        ensures within { within self.new ≡ within self.old };
}

/// A peer as a wire.
#[derive(Drop)]
pub struct Counted<P: Peer> {
    peer: P,
    polls: u64,
    faults: u64,
}

impl<P: Peer> Counted<P> {
    /// A wire that was not polled yet.
    pub fn new(peer: P) -> Counted<P>
        ensures peer { result.peer ≡ peer }
        ensures polls { result.polls ≡ 0 }
        ensures faults { result.faults ≡ 0 }
    {
        Counted {
            peer,
            polls: 0,
            faults: 0,
        }
    }

    /// How often a call has failed.
    pub fn faults(&self) -> u64
        ensures { result ≡ self.now.faults }
    {
        self.faults
    }

    /// Goes on with what was to be written before a hang up, and answers whether nothing is left.
    pub fn is_gone(&mut self) -> bool
        ensures polls { self.new.polls ≡ self.old.polls }
        ensures faults { self.new.faults ≡ self.old.faults }
        ensures within { P.within self.new.peer ≡ P.within self.old.peer }
    {
        self.peer.is_gone()
    }
}

impl<P: Peer> Wire for Counted<P> {
    ghost recorded = { λ _. untold };

    ghost faults = { λ wire. wire.faults };

    ghost polls = { λ wire. wire.polls };

    ghost plays = { λ wire script. ⊥ };

    fn poll(&mut self, buf: &mut [u8]) -> Result<Arrival, Failed>
        requires room { 0 < length buf.old }
        ensures fits { IfOk result (λ arrived. Fits arrived buf.new) }
        ensures grows { GrowsBy untold untold (Poll (came_of result buf.new) ∷ []) }
        ensures allowed { IfSome untold (λ r.
            may_come (is_within r) (came_of result buf.new) ≡ true) }
        ensures counted { self.new.polls ≡ next_count self.old.polls }
        ensures cause { HasCause self.old.faults self.new.faults result }
        ensures order { InOrder
            (P.within self.old.peer) (P.within self.new.peer) result buf.new }
    {
        self.polls = self.polls.saturating_add(1);
        match self.peer.arrive(buf) {
            Ok(arrival) => Ok(arrival),
            Err(_) => {
                self.faults = self.faults.saturating_add(1);
                Err(Failed)
            }
        }
    }

    fn send(&mut self, piece: &[u8]) -> Result<(), Failed>
        requires within { ForSome untold (λ r. is_within r ≡ true) }
        ensures grows { SendGrows untold untold piece.now result }
        ensures counted { self.new.polls ≡ self.old.polls }
        ensures cause { HasCause self.old.faults self.new.faults result }
        ensures within { P.within self.new.peer ≡ (P.within self.old.peer && is_ok result) }
    {
        match self.peer.say(piece) {
            Ok(()) => Ok(()),
            Err(_) => {
                self.faults = self.faults.saturating_add(1);
                Err(Failed)
            }
        }
    }

    fn hang_up(&mut self)
        ensures grows { HangUpGrows untold untold }
        ensures counted { self.new.polls ≡ self.old.polls }
        ensures faults { self.new.faults ≡ self.old.faults }
        ensures within { P.within self.new.peer ≡ false }
    {
        self.peer.hang_up();
    }
}
