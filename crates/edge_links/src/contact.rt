//! What the edge keeps of a peer beside its connection: what was said, how long the peer is put
//! off, the lines on it, and its last connection's last words.

ghost use Rattle.std.specs.Prelude.{◌≡◌, ◌⊎◌, ◌-◌, is_some};
ghost use Rattle.edge_waits.specs.Fields.{or_else};
ghost use Rattle.edge_waits.specs.Said.{logout_text};
ghost use Rattle.edge_waits.specs.Talk.{heard_next, began_next, low_said, link_end_of};
ghost use Rattle.edge_links.specs.Contact.{unsaid, is_low, delay_behind, stood};

use crate::hung_up::HungUp;
use crate::link::Link;
use crate::system::System;
use crate::teller::Teller;
use edge_logic::{Ending, Fault, LinkEnd, NextTry, Notice, PeerName, moment, ticks};
use edge_waits::{PutOff, Talk};
use std::io::Write;
use std::marker::Model;
use std::net::SocketAddr;
use std::str;

/// By whom a connection ended; what its line says is an [`Ending`].
#[derive(Clone, Copy)]
pub enum Parting<'a> {
    /// The peer closed it.
    ByPeer,
    /// The gateway hung up.
    ByUs,
    /// It failed.
    Failed(&'a Fault),
}

/// What the edge keeps of a peer beside its connection. Moments are in milliseconds of the clock
/// that never goes back.
#[derive(Drop)]
pub struct Contact<'a, R: System, W: Write + Drop> {
    rt: &'a R,
    peer: PeerName,
    teller: Teller<W>,
    talk: Talk,
    /// How long the peer is put off, since its numbers were of another day.
    put_off: PutOff,
    hung_up: Option<HungUp>,
}

impl<'a, R: System, W: Write + Drop> Model for Contact<'a, R, W> {
    ghost use Rattle.edge_links.specs.Contact.{Dealings};

    ghost Value = { Dealings };

    ghost view = { λ c. record { talk = c.talk; delay = c.put_off } };
}

impl<'a, R: System, W: Write + Drop> Contact<'a, R, W> {
    /// A peer that was not connected yet, with the lines on it to this teller.
    pub fn new(rt: &'a R, peer: PeerName, teller: Teller<W>) -> Contact<'a, R, W>
        ensures { result ≡ record { talk = unsaid; delay = record { times = 0; until = 0 } } }
    {
        Contact {
            rt,
            peer,
            teller,
            talk: Talk::new(rt.alloc()),
            put_off: PutOff::new(),
            hung_up: None,
        }
    }

    /// Writes the line of a notice, or loses it.
    pub fn tell(&mut self, notice: Notice<'_>)
        ensures { self.new ≡ self.old }
    {
        self.teller.tell(self.rt, notice);
    }

    /// A connection with this address begins.
    pub fn connect(&mut self, address: SocketAddr)
        ensures { self.new ≡ record self.old { talk = unsaid } }
    {
        self.talk = Talk::new(self.rt.alloc());
        self.tell(Notice::Connected(self.peer, address));
    }

    /// These bytes came. They are kept before a session stands, as [`Talk::hear`] says, where there
    /// is memory for them.
    pub fn hear(&mut self, bytes: &[u8])
        ensures { (self.new ≡ self.old) ⊎ (self.new ≡ record self.old {
          talk = record self.old.talk { heard = heard_next self.old.talk bytes.now };
        }) }
    {
        let _ = self.talk.hear(bytes); // what there is no memory for is not told
    }

    /// These bytes came where a session stands: maybe a Logout over the gateway's numbers.
    pub fn note(&mut self, bytes: &[u8])
        ensures { self.new ≡ record self.old {
          talk = record self.old.talk {
            own_low = low_said bytes.now;
          };
        } }
    {
        self.talk.note(bytes);
    }

    /// The gateway sends this frame at this moment. The text of a Logout is kept, where there is
    /// memory for it.
    pub fn say(&mut self, frame: &[u8], now: u64)
        ensures began { self.new.talk.began ≡ began_next self.old.talk frame.now now }
        ensures farewell { (self.new.talk.farewell ≡ self.old.talk.farewell)
            ⊎ (self.new.talk.farewell
            ≡ or_else (logout_text frame.now) self.old.talk.farewell) }
        ensures same { self.new ≡ record self.old {
          talk = record self.old.talk {
            farewell = self.new.talk.farewell;
            began = self.new.talk.began;
          };
        } }
    {
        let _ = self.talk.say(frame, now); // what there is no memory for is not told
    }

    /// A session stands.
    pub fn stand(&mut self)
        ensures { self.new ≡ stood self.old }
    {
        if !self.talk.is_active() {
            self.talk.stand();
            self.put_off.forget();
        }
    }

    /// How the connection ended, for the venue's next try. `was_closed` says that the peer closed
    /// it in order.
    pub fn link_end(&self, was_closed: bool) -> LinkEnd
        ensures { result ≡ link_end_of self.now.talk was_closed }
    {
        self.talk.link_end(was_closed)
    }

    /// For how many milliseconds from now on the peer is put off.
    pub fn left(&self, now: u64) -> u64
        ensures { result ≡ self.now.delay.until - now }
    {
        self.put_off.left(now)
    }

    // Whose numbers were too low, if any were.
    fn numbers_low(&self) -> Option<Notice<'static>>
        ensures { is_some result ≡ is_low self.now.talk }
    {
        if let Some(low) = self.talk.too_low() {
            return Some(Notice::NumbersLow(self.peer, low));
        }
        let low = self.talk.own_too_low()?;
        Some(Notice::OwnNumbersLow(self.peer, low))
    }

    /// Puts the peer off behind a connection on which numbers were of another day, and says why.
    /// `was_closed` says that the peer closed it in order.
    pub fn put_off(&mut self, now: u64, was_closed: bool)
        ensures { self.new ≡ record self.old { delay = delay_behind self.old now was_closed } }
    {
        let low = self.numbers_low();
        if low.is_some() {
            self.put_off.begin(now);
        }
        if let Some(since) = self.talk.late_since(was_closed) {
            self.put_off.hold(since);
        }
        if !self.put_off.is_over(now) {
            self.tell(low.unwrap_or(Notice::Late(self.peer)));
        }
    }

    fn tell_ended(&mut self, ending: Ending<'_>, next: NextTry)
        ensures { self.new ≡ self.old }
    {
        self.tell(Notice::Ended(self.peer, ending, next));
    }

    fn tell_failed(&mut self, fault: &Fault, next: NextTry)
        ensures { self.new ≡ self.old }
    {
        match format!(in self.rt.alloc(); "{fault}") {
            Ok(reason) => self.tell_ended(Ending::ByFailure(reason.as_str()), next),
            Err(_) => self.tell_ended(Ending::ByFailure("out of memory"), next),
        }
    }

    // Why a connection ended before a session stood.
    fn why(&self) -> Vec<u8> {
        let mut why = Vec::new(self.rt.alloc());
        let now = moment(self.rt).unwrap_or(0);
        let _ = self.talk.put_why(&mut why, now); // all of it, or nothing for want of memory
        why
    }

    /// Says that the connection ended so, and why where no session had stood.
    pub fn tell_end(&mut self, parting: Parting<'_>, next: NextTry)
        ensures { self.new ≡ self.old }
    {
        let why = self.why();
        let why = str::from_utf8(&why).unwrap_or("");
        let ending = match (parting, self.talk.is_active()) {
            (Parting::ByPeer, true) => Ending::ByPeer,
            (Parting::ByPeer, false) => Ending::ByPeerBehind(why),
            (Parting::ByUs, true) => Ending::ByUs,
            (Parting::ByUs, false) => Ending::ByUsBehind(why),
            (Parting::Failed(fault), _) => return self.tell_failed(fault, next),
        };
        self.tell_ended(ending, next);
    }

    /// The gateway has ended this connection, of which the peer is to have the last words.
    pub fn hang_up(&mut self, link: Link)
        ensures { self.new ≡ self.old }
    {
        self.hung_up = Some(HungUp::new(link, ticks(self.rt)));
        self.is_gone();
    }

    /// Goes on with a connection that was ended, and answers whether nothing of it is left.
    pub fn is_gone(&mut self) -> bool
        ensures { self.new ≡ self.old }
    {
        let over = match &mut self.hung_up {
            Some(hung_up) => hung_up.go_on(ticks(self.rt)),
            None => true,
        };
        if over {
            self.hung_up = None;
        }
        over
    }
}
