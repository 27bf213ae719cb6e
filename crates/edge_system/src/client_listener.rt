//! The client's side: a port that is listened on, those who wait for their Logon, and one
//! connection at a time that holds the client's place.

ghost use Rattle.std.specs.Prelude.{◌≡◌, ◌≢◌, ◌<◌, ◌&&◌, length, false, true, is_ok, is_some};
ghost use Rattle.std.specs.Prelude.{None, Ok, IfOk, IfSome};
ghost use Rattle.frame_grammar.specs.declared.frame.Kind.TheVariants.{Fix42};
ghost use Rattle.wires.specs.Wire.{Fits, may_come, came_of};
ghost use Rattle.wires.specs.declared.wire.Arrival.TheVariants as arrivals;
ghost use Rattle.edge_logic.specs.Order.{InOrder};
ghost use Rattle.edge_links.specs.Contact.{PutOffBehind};
ghost use Rattle.edge_system.specs.Place.{BeginsWithLogon};
ghost use Rattle.edge_system.specs.Tries.{MayCome};

use edge_links::{Contact, Link, Parting, System, Teller, Visitor};
use edge_logic::{
    ClosedNth, Fault, NextTry, Notice, Pace, Peer, PeerName, RefusedNth, Shared, ticks,
};
use edge_waits::{Held, Lobby, Standing, Stranger, put_closing};
use frame_grammar::Framer;
use mio::net::{TcpListener, TcpStream};
use mio::{Interest, Registry, Token};
use std::io::{ErrorKind, Write};
use std::net::SocketAddr;
use std::{io, mem, str};
use wires::Arrival;

/// How many connections are taken in one poll.
const TAKEN: u32 = 16;

/// The client's side.
#[derive(Drop)]
pub struct ClientListener<'a, R: System, W: Write + Drop> {
    rt: &'a R,
    address: SocketAddr,
    registry: Registry,
    shared: &'a Shared,
    contact: Contact<'a, R, W>,
    listener: Option<TcpListener>,
    /// When the port is tried again.
    tries: Pace,
    refused: u64,
    /// When a line says again that a client was refused.
    lines: Pace,
    lobby: Lobby<Visitor>,
    /// Finds the first message of those who wait.
    framer: Framer,
    strangers: u64,
    /// When a line says again that a connection was closed that was no client's.
    stranger_lines: Pace,
    /// What the client said before it had the place.
    held: Held,
    link: Option<Link>,
    ghost of_client: { framer.kind ≡ Fix42 },
}

impl<'a, R: System, W: Write + Drop> ClientListener<'a, R, W> {
    /// The client's side at this address, whose sockets are waited for by the registry's set. The
    /// port is opened at the first poll.
    pub(crate) fn new(
        rt: &'a R,
        address: SocketAddr,
        registry: Registry,
        shared: &'a Shared,
        teller: Teller<W>,
        framer: Framer,
    ) -> ClientListener<'a, R, W>
        requires { framer.kind ≡ Fix42 }
        ensures { result.link ≡ None }
    {
        ClientListener {
            rt,
            address,
            registry,
            shared,
            contact: Contact::new(rt, PeerName::Client, teller),
            listener: None,
            tries: Pace::new(),
            refused: 0,
            lines: Pace::new(),
            lobby: Lobby::new(rt.alloc()),
            framer,
            strangers: 0,
            stranger_lines: Pace::new(),
            held: Held::none(rt.alloc()),
            link: None,
        }
    }

    // The connection has ended so. Where numbers were of another day the port is closed for a
    // while: of a client that has not begun the day each try takes numbers of the gateway, up to
    // its own.
    fn end(&mut self, parting: Parting<'_>)
        ensures link { self.new.link ≡ self.old.link }
        ensures put_off { PutOffBehind self.old.contact self.new.contact false }
    {
        let now = ticks(self.rt);
        self.contact.put_off(now, false);
        let next = match self.contact.left(now) {
            0 => NextTry::Never,
            left => NextTry::OpensAfter(left.div_ceil(1_000)),
        };
        self.contact.tell_end(parting, next);
    }

    fn bind(&self) -> io::Result<TcpListener> {
        let mut listener = TcpListener::bind(self.rt, self.address)?;
        self.registry
            .register(&mut listener, Token(1), Interest::READABLE)?;
        Ok(listener)
    }

    // The port cannot be had.
    fn leave(&mut self, error: io::Error) -> Fault
        ensures { self.new.link ≡ self.old.link }
    {
        self.listener = None;
        match format!(in self.rt.alloc(); "{error}") {
            Ok(reason) => self
                .contact
                .tell(Notice::NotListening(self.address, reason.as_str())),
            Err(_) => self
                .contact
                .tell(Notice::NotListening(self.address, "out of memory")),
        }
        Fault::System(error)
    }

    // Opens the port, where that was not done, with a try a second at most.
    fn listen(&mut self) -> Result<(), Fault>
        ensures { self.new.link ≡ self.old.link }
    {
        if self.listener.is_some() || !self.tries.take(ticks(self.rt)) {
            return Ok(());
        }
        match self.bind() {
            Ok(listener) => {
                self.listener = Some(listener);
                self.contact.tell(Notice::Listening(self.address));
                Ok(())
            }
            Err(error) => Err(self.leave(error)),
        }
    }

    // The next connection that waits, if any does.
    fn accept(&self) -> io::Result<Option<(TcpStream, SocketAddr)>> {
        let Some(listener) = &self.listener else {
            return Ok(None);
        };
        match listener.accept() {
            Ok(taken) => Ok(Some(taken)),
            Err(error) => match error.kind() {
                ErrorKind::WouldBlock | ErrorKind::Interrupted | ErrorKind::ConnectionAborted => {
                    Ok(None)
                }
                _ => Err(error),
            },
        }
    }

    // Says that a client was closed at once: a line a second at most, with the number so far.
    fn refuse(&mut self, from: SocketAddr)
        ensures { self.new.link ≡ self.old.link }
    {
        self.refused = self.refused.saturating_add(1);
        if self.lines.take(ticks(self.rt)) {
            self.contact
                .tell(Notice::Refused(from, RefusedNth(self.refused)));
        }
    }

    // Closes those that come, since one is connected.
    fn refuse_all(&mut self)
        ensures { self.new.link ≡ self.old.link }
    {
        for _ in 0..TAKEN {
            match self.accept() {
                Ok(Some((stream, from))) => {
                    drop(stream);
                    self.refuse(from);
                }
                _ => return,
            }
        }
        self.shared.note_activity(); // more may wait, of which the system does not tell again
    }

    // Closes a connection that is no client's, of which a line a second at most says so, with the
    // number so far.
    fn close(&mut self, visitor: Visitor, why: Stranger)
        ensures { self.new.link ≡ self.old.link }
    {
        self.strangers = self.strangers.saturating_add(1);
        if !self.stranger_lines.take(ticks(self.rt)) {
            return;
        }
        let mut text = Vec::new(self.rt.alloc());
        let _ = put_closing(&mut text, why, &visitor.heard); // all of it, or nothing
        let why = str::from_utf8(&text).unwrap_or("");
        let nth = self.strangers;
        self.contact
            .tell(Notice::Closed(visitor.from, ClosedNth { why, nth }));
    }

    // Lets a connection wait; the one that has waited longest goes where there are too many.
    fn keep(&mut self, visitor: Visitor)
        ensures { self.new.link ≡ self.old.link }
    {
        if let Ok(Some(oldest)) = self.lobby.admit(visitor) {
            self.close(oldest, Stranger::Crowded);
        }
    }

    // Hears a connection that waits. It is given back where its Logon has come.
    fn hear_visitor(&mut self, mut visitor: Visitor) -> Option<Visitor>
        ensures link { self.new.link ≡ self.old.link }
        ensures ready { IfSome result (λ ready. BeginsWithLogon ready.heard.items) }
    {
        let Ok((stands, came)) = visitor.listen(&mut self.framer, ticks(self.rt)) else {
            return None;
        };
        if came {
            self.shared.note_activity();
        }
        match stands {
            Standing::Holds => return Some(visitor),
            Standing::Waits => self.keep(visitor),
            Standing::Goes(why) => self.close(visitor, why),
        }
        None
    }

    // Hears those who wait, up to the first whose Logon has come.
    fn hear_lobby(&mut self) -> Option<Visitor>
        ensures link { self.new.link ≡ self.old.link }
        ensures ready { IfSome result (λ ready. BeginsWithLogon ready.heard.items) }
    {
        for _ in 0..self.lobby.len() {
            let visitor = self.lobby.take_oldest()?;
            let ready = self.hear_visitor(visitor);
            if ready.is_some() {
                return ready;
            }
        }
        None
    }

    fn admit(&self, mut stream: TcpStream, from: SocketAddr) -> Result<Visitor, Fault> {
        self.registry.register(
            &mut stream,
            Token(2),
            Interest::READABLE | Interest::WRITABLE,
        )?;
        Visitor::new(self.rt, stream, from, ticks(self.rt))
    }

    // Takes those who come, up to the first whose Logon has come.
    fn take_all(&mut self) -> Result<Option<Visitor>, Fault>
        ensures link { self.new.link ≡ self.old.link }
        ensures ready { IfOk result (λ found. IfSome found (λ ready.
            BeginsWithLogon ready.heard.items)) }
    {
        for _ in 0..TAKEN {
            let taken = match self.accept() {
                Ok(Some(taken)) => taken,
                Ok(None) => return Ok(None),
                Err(error) => return Err(self.leave(error)),
            };
            if let Ok(visitor) = self.admit(taken.0, taken.1) {
                let ready = self.hear_visitor(visitor);
                if ready.is_some() {
                    return Ok(ready);
                }
            }
        }
        self.shared.note_activity(); // more may wait, of which the system does not tell again
        Ok(None)
    }

    // Gives the client's place to a connection, and closes those that wait.
    fn welcome(&mut self, visitor: Visitor)
        ensures link { is_some self.new.link ≡ true }
        ensures held { self.new.held ≡ visitor.heard.items }
    {
        for _ in 0..self.lobby.len() {
            if let Some(other) = self.lobby.take_oldest() {
                self.refuse(other.from);
            }
        }
        self.contact.connect(visitor.from);
        self.shared.note_activity();
        self.held = Held::new(visitor.heard);
        self.link = Some(visitor.link);
    }

    // Closes the port, and all that wait, while the client is put off.
    fn shut(&mut self)
        ensures { self.new.link ≡ self.old.link }
    {
        self.listener = None;
        self.tries = Pace::new();
        self.lobby = Lobby::new(self.rt.alloc());
    }

    // The next connection that has sent a whole Logon.
    fn next(&mut self) -> Result<Option<Visitor>, Fault>
        ensures link { self.new.link ≡ self.old.link }
        ensures ready { IfOk result (λ found. IfSome found (λ ready.
            BeginsWithLogon ready.heard.items)) }
        ensures over { IfOk result (λ found. IfSome found (λ _. MayCome self.old.contact)) }
    {
        if self.contact.left(ticks(self.rt)) > 0 {
            self.shut();
            return Ok(None);
        }
        self.listen()?;
        let ready = self.hear_lobby();
        if ready.is_some() {
            return Ok(ready);
        }
        self.take_all()
    }

    // Takes the next client.
    fn open(&mut self, buf: &[u8]) -> Result<Arrival, Fault>
        requires { self.old.link ≡ None }
        ensures fits { IfOk result (λ arrived. Fits arrived buf.now) }
        ensures order { InOrder false (is_some self.new.link) result buf.now }
        ensures place { result ≡ Ok arrivals.Opened → BeginsWithLogon self.new.held }
        ensures over { result ≡ Ok arrivals.Opened → MayCome self.old.contact }
    {
        match self.next()? {
            Some(visitor) => {
                self.welcome(visitor);
                Ok(Arrival::Opened)
            }
            None => Ok(Arrival::Nothing),
        }
    }

    // Keeps the connection behind a send. What waits is written at the next poll, without a wait.
    fn hold(&mut self, link: Link)
        ensures { is_some self.new.link ≡ true }
    {
        if link.has_waiting() {
            self.shared.note_activity();
        }
        self.link = Some(link);
    }

    // Hands on what the client said before it had the place.
    #[tactic(auto, using(edge_links::proofs::Come::bytes_come))]
    fn hand_on(&mut self, link: Link, buf: &mut [u8]) -> Result<Arrival, Fault>
        requires link { self.old.link ≡ None }
        requires room { 0 < length buf.old }
        ensures fits { IfOk result (λ arrived. Fits arrived buf.new) }
        ensures order { InOrder true (is_some self.new.link) result buf.new }
        ensures only { result ≢ Ok arrivals.Opened }
    {
        let count = self.held.hand_on(buf);
        self.shared.note_activity();
        self.contact.hear(&buf[..count]);
        self.link = Some(link);
        if count == 0 {
            return Ok(Arrival::Nothing);
        }
        Ok(Arrival::Bytes(count))
    }

    // What came on the connection, which is kept but at its end.
    fn hear(&mut self, mut link: Link, buf: &mut [u8]) -> Result<Arrival, Fault>
        requires link { self.old.link ≡ None }
        requires room { 0 < length buf.old }
        ensures fits { IfOk result (λ arrived. Fits arrived buf.new) }
        ensures order { InOrder true (is_some self.new.link) result buf.new }
        ensures only { result ≢ Ok arrivals.Opened }
    {
        if !self.held.is_empty() {
            return self.hand_on(link, buf);
        }
        self.contact.stand();
        match link.receive(buf, ticks(self.rt)) {
            Ok(Arrival::Closed) => {
                self.end(Parting::ByPeer);
                Ok(Arrival::Closed)
            }
            Ok(Arrival::Bytes(count)) => {
                self.contact.note(&buf[..count]);
                self.shared.note_activity();
                self.link = Some(link);
                Ok(Arrival::Bytes(count))
            }
            Ok(Arrival::Nothing | Arrival::Opened) => {
                self.link = Some(link);
                Ok(Arrival::Nothing)
            }
            Err(fault) => {
                self.end(Parting::Failed(&fault));
                Err(fault)
            }
        }
    }
}

impl<'a, R: System, W: Write + Drop> Peer for ClientListener<'a, R, W> {
    ghost within = { λ client. is_some client.link };

    #[tactic(auto, using(edge_links::proofs::Come::in_order_from))]
    fn arrive(&mut self, buf: &mut [u8]) -> Result<Arrival, Fault>
        requires room { 0 < length buf.old }
        ensures fits { IfOk result (λ arrived. Fits arrived buf.new) }
        ensures order { InOrder (is_some self.old.link) (is_some self.new.link) result buf.new }
        ensures place { result ≡ Ok arrivals.Opened → BeginsWithLogon self.new.held }
        ensures over { result ≡ Ok arrivals.Opened → MayCome self.old.contact }
    {
        if self.shared.is_ending() {
            return Ok(Arrival::Nothing);
        }
        self.contact.is_gone();
        match mem::replace(&mut self.link, None) {
            None => self.open(buf),
            Some(link) => {
                self.refuse_all();
                self.hear(link, buf)
            }
        }
    }

    fn say(&mut self, piece: &[u8]) -> Result<(), Fault> {
        let Some(mut link) = mem::replace(&mut self.link, None) else {
            return Err(Fault::NotConnected);
        };
        let now = ticks(self.rt);
        self.contact.say(piece, now);
        match link.send(piece, now) {
            Ok(()) => {
                self.hold(link);
                Ok(())
            }
            Err(fault) => {
                self.end(Parting::Failed(&fault));
                Err(fault)
            }
        }
    }

    fn hang_up(&mut self)
        ensures within { is_some self.new.link ≡ false }
        ensures put_off { is_some self.old.link ≡ true →
            PutOffBehind self.old.contact self.new.contact false }
    {
        if let Some(link) = mem::replace(&mut self.link, None) {
            self.contact.hang_up(link);
            self.end(Parting::ByUs);
        }
    }

    fn is_gone(&mut self) -> bool {
        self.contact.is_gone()
    }
}
