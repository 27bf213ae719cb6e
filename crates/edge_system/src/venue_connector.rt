//! The venue's side: the gateway connects to it, and again a while after that fails or ends.

ghost use Rattle.std.specs.Prelude.{◌≡◌, ◌<◌, ◌≤◌, ◌-◌, ◌&&◌, length, false, true, is_ok};
ghost use Rattle.std.specs.Prelude.{Ok, Err, IfOk};
ghost use Rattle.wires.specs.Wire.{Fits};
ghost use Rattle.edge_logic.specs.Order.{InOrder};
ghost use Rattle.edge_logic.specs.declared.fault.Fault.TheVariants as faults;
ghost use Rattle.edge_waits.specs.Talk.{link_end_of};
ghost use Rattle.edge_links.specs.Contact.{PutOffBehind};
ghost use Rattle.edge_system.specs.Stage.{is_asked, is_on};
ghost use Rattle.edge_system.specs.Tries.{MayTry, TriesBehind};

use edge_links::{Contact, Link, Parting, System, Teller};
use edge_logic::{
    BackOff, Fault, LogonMark, Missed, NextTry, Notice, Peer, PeerName, Shared, ticks,
};
use mio::net::TcpStream;
use mio::{Interest, Registry, Token};
use std::io::Write;
use std::net::SocketAddr;
use std::{io, mem, str};
use wires::Arrival;

/// How long a connect may take, in milliseconds.
const ANSWER: u64 = 5_000;

/// Where the connection stands.
#[derive(Drop)]
pub(crate) enum Stage {
    /// There is none.
    Off,
    /// A connect was begun at that moment.
    Asked(TcpStream, u64),
    /// There is one.
    On(Link),
}

/// The venue's side.
#[derive(Drop)]
pub struct VenueConnector<'a, R: System, W: Write + Drop> {
    rt: &'a R,
    address: SocketAddr,
    registry: Registry,
    shared: &'a Shared,
    contact: Contact<'a, R, W>,
    back_off: BackOff,
    /// A session stands once a Logon has come and the connection stood at the next poll: a Logon
    /// that is refused is answered by a hang up before that.
    mark: LogonMark,
    stage: Stage,
}

/// Whether a connect has been answered.
///
/// # Errors
/// The system's error, and [`Fault::NoAnswer`] after 5 s.
fn is_answered(stream: &TcpStream, since: u64, now: u64) -> Result<bool, Fault>
    ensures patience { result ≡ Ok false → now - since < ANSWER }
    ensures late { result ≡ Err faults.NoAnswer → ANSWER ≤ now - since }
{
    if let Some(error) = stream.take_error()? {
        return Err(Fault::System(error));
    }
    if stream.peer_addr().is_ok() {
        return Ok(true);
    }
    if now.saturating_sub(since) >= ANSWER {
        return Err(Fault::NoAnswer);
    }
    Ok(false)
}

impl<'a, R: System, W: Write + Drop> VenueConnector<'a, R, W> {
    /// The venue's side towards this address, whose sockets are waited for by the registry's set.
    /// The first connect is begun at the first poll.
    pub(crate) fn new(
        rt: &'a R,
        address: SocketAddr,
        registry: Registry,
        shared: &'a Shared,
        teller: Teller<W>,
    ) -> VenueConnector<'a, R, W>
        ensures { is_on result.stage ≡ false }
    {
        VenueConnector {
            rt,
            address,
            registry,
            shared,
            contact: Contact::new(rt, PeerName::Venue, teller),
            back_off: BackOff::new(),
            mark: LogonMark::new(),
            stage: Stage::Off,
        }
    }

    // When the next try comes, in whole seconds.
    fn next_try(&self) -> NextTry {
        let now = ticks(self.rt);
        match self.back_off.left(now).max(self.contact.left(now)) {
            0 => NextTry::AtOnce,
            left => NextTry::After(left.div_ceil(1_000)),
        }
    }

    // The connection has ended so, in order by the venue or not.
    fn end(&mut self, parting: Parting<'_>, was_closed: bool)
        ensures stage { self.new.stage ≡ self.old.stage }
        ensures put_off { PutOffBehind self.old.contact self.new.contact was_closed }
        ensures tries { TriesBehind self.old.back_off self.new.back_off
            (link_end_of self.old.contact.talk was_closed) }
    {
        let now = ticks(self.rt);
        self.back_off.end(now, self.contact.link_end(was_closed));
        self.contact.put_off(now, was_closed);
        let next = self.next_try();
        self.contact.tell_end(parting, next);
    }

    fn tell_missed(&mut self, reason: &str, next: NextTry)
        ensures { self.new.stage ≡ self.old.stage }
    {
        self.contact
            .tell(Notice::NotReached(self.address, Missed { reason, next }));
    }

    // A try has failed.
    fn miss(&mut self, fault: &Fault)
        ensures { self.new.stage ≡ self.old.stage }
    {
        self.back_off.fail(ticks(self.rt));
        let next = self.next_try();
        match format!(in self.rt.alloc(); "{fault}") {
            Ok(reason) => self.tell_missed(reason.as_str(), next),
            Err(_) => self.tell_missed("out of memory", next),
        }
    }

    // Begins a connect.
    fn begin(&self) -> io::Result<TcpStream> {
        let mut stream = TcpStream::connect(self.rt, self.address)?;
        self.registry.register(
            &mut stream,
            Token(3),
            Interest::READABLE | Interest::WRITABLE,
        )?;
        Ok(stream)
    }

    // Tries the venue, where that is due.
    fn ask(&mut self, buf: &[u8]) -> Result<Arrival, Fault>
        requires off { is_on self.old.stage ≡ false }
        requires unasked { is_asked self.old.stage ≡ false }
        ensures due { is_asked self.new.stage ≡ true →
            MayTry self.old.back_off self.old.contact }
        ensures fits { IfOk result (λ arrived. Fits arrived buf.now) }
        ensures order { InOrder false (is_on self.new.stage) result buf.now }
    {
        let now = ticks(self.rt);
        if !self.back_off.is_due(now) || self.contact.left(now) > 0 {
            return Ok(Arrival::Nothing);
        }
        self.back_off.begin(now);
        match self.begin() {
            Ok(stream) => {
                self.stage = Stage::Asked(stream, now);
                Ok(Arrival::Nothing)
            }
            Err(error) => {
                let fault = Fault::System(error);
                self.miss(&fault);
                Err(fault)
            }
        }
    }

    // The connect has been answered.
    fn open(&mut self, stream: TcpStream, buf: &[u8]) -> Result<Arrival, Fault>
        requires { is_on self.old.stage ≡ false }
        ensures fits { IfOk result (λ arrived. Fits arrived buf.now) }
        ensures order { InOrder false (is_on self.new.stage) result buf.now }
    {
        match Link::new(self.rt, stream) {
            Ok(link) => {
                self.stage = Stage::On(link);
                self.mark = LogonMark::new();
                self.shared.note_activity();
                self.contact.connect(self.address);
                Ok(Arrival::Opened)
            }
            Err(fault) => {
                self.miss(&fault);
                Err(fault)
            }
        }
    }

    // Goes on with a connect.
    fn wait(&mut self, stream: TcpStream, since: u64, buf: &[u8]) -> Result<Arrival, Fault>
        requires { is_on self.old.stage ≡ false }
        ensures fits { IfOk result (λ arrived. Fits arrived buf.now) }
        ensures order { InOrder false (is_on self.new.stage) result buf.now }
    {
        match is_answered(&stream, since, ticks(self.rt)) {
            Ok(true) => self.open(stream, buf),
            Ok(false) => {
                self.stage = Stage::Asked(stream, since);
                Ok(Arrival::Nothing)
            }
            Err(fault) => {
                self.miss(&fault);
                Err(fault)
            }
        }
    }

    // Keeps the connection behind a send. What waits is written at the next poll, without a wait.
    fn hold(&mut self, link: Link)
        ensures { is_on self.new.stage ≡ true }
    {
        if link.has_waiting() {
            self.shared.note_activity();
        }
        self.stage = Stage::On(link);
    }

    // A session stands once a Logon has come.
    fn stand(&mut self)
        ensures { self.new.stage ≡ self.old.stage }
    {
        if self.mark.has_come() {
            self.contact.stand();
        }
    }

    // Notes what came.
    fn note(&mut self, bytes: &[u8])
        ensures { self.new.stage ≡ self.old.stage }
    {
        self.shared.note_activity();
        self.mark.note(bytes);
        self.contact.hear(bytes);
    }

    // What came on the connection, which is kept but at its end.
    fn hear(&mut self, mut link: Link, buf: &mut [u8]) -> Result<Arrival, Fault>
        requires stage { is_on self.old.stage ≡ false }
        requires unasked { is_asked self.old.stage ≡ false }
        requires room { 0 < length buf.old }
        ensures unasked { is_asked self.new.stage ≡ false }
        ensures fits { IfOk result (λ arrived. Fits arrived buf.new) }
        ensures order { InOrder true (is_on self.new.stage) result buf.new }
    {
        self.stand();
        match link.receive(buf, ticks(self.rt)) {
            Ok(Arrival::Closed) => {
                self.end(Parting::ByPeer, !link.was_reset());
                Ok(Arrival::Closed)
            }
            Ok(Arrival::Bytes(count)) => {
                self.note(&buf[..count]);
                self.stage = Stage::On(link);
                Ok(Arrival::Bytes(count))
            }
            Ok(Arrival::Nothing | Arrival::Opened) => {
                self.stage = Stage::On(link);
                Ok(Arrival::Nothing)
            }
            Err(fault) => {
                self.end(Parting::Failed(&fault), false);
                Err(fault)
            }
        }
    }
}

impl<'a, R: System, W: Write + Drop> Peer for VenueConnector<'a, R, W> {
    ghost within = { λ venue. is_on venue.stage };

    #[tactic(auto, using(edge_links::proofs::Come::in_order_from))]
    fn arrive(&mut self, buf: &mut [u8]) -> Result<Arrival, Fault>
        requires room { 0 < length buf.old }
        ensures fits { IfOk result (λ arrived. Fits arrived buf.new) }
        ensures order { InOrder (is_on self.old.stage) (is_on self.new.stage) result buf.new }
        ensures due { is_asked self.new.stage ≡ true → is_asked self.old.stage ≡ false →
            MayTry self.old.back_off self.old.contact }
    {
        if self.shared.is_ending() {
            return Ok(Arrival::Nothing);
        }
        self.contact.is_gone();
        match mem::replace(&mut self.stage, Stage::Off) {
            Stage::Off => self.ask(buf),
            Stage::Asked(stream, since) => self.wait(stream, since, buf),
            Stage::On(link) => self.hear(link, buf),
        }
    }

    fn say(&mut self, piece: &[u8]) -> Result<(), Fault> {
        let now = ticks(self.rt);
        self.contact.say(piece, now);
        match mem::replace(&mut self.stage, Stage::Off) {
            Stage::On(mut link) => match link.send(piece, now) {
                Ok(()) => {
                    self.hold(link);
                    Ok(())
                }
                Err(fault) => {
                    self.end(Parting::Failed(&fault), false);
                    Err(fault)
                }
            },
            stage => {
                self.stage = stage;
                Err(Fault::NotConnected)
            }
        }
    }

    fn hang_up(&mut self)
        ensures within { is_on self.new.stage ≡ false }
        ensures put_off { is_on self.old.stage ≡ true →
            PutOffBehind self.old.contact self.new.contact false }
        ensures tries { is_on self.old.stage ≡ true →
            TriesBehind self.old.back_off self.new.back_off
            (link_end_of self.old.contact.talk false) }
    {
        match mem::replace(&mut self.stage, Stage::Off) {
            Stage::On(link) => {
                self.contact.hang_up(link);
                self.end(Parting::ByUs, false);
            }
            stage => self.stage = stage,
        }
    }

    fn is_gone(&mut self) -> bool {
        self.contact.is_gone()
    }
}
