//! Both wires and the clock over one set of sockets.

use crate::client_listener::ClientListener;
use crate::stop_file::StopFile;
use crate::venue_connector::VenueConnector;
use crate::waiting_clock::WaitingClock;
use edge_links::{System, Teller};
use edge_logic::{Counted, Shared, ticks};
use frame_grammar::{Framer, Kind};
use mio::{Events, Poll, Registry};
use std::io::Write;
use std::net::SocketAddr;
use std::rt::Files;
use std::time::Duration;
use std::{io, thread};

/// How long the last words to both peers may take, in milliseconds.
const FAREWELL: u64 = 1_000;

/// How long a pause within that wait takes, in milliseconds.
const PAUSE: u64 = 5;

/// The client's wire.
pub type ClientWire<'a, R, W> = Counted<ClientListener<'a, R, W>>;

/// The venue's wire.
pub type VenueWire<'a, R, W> = Counted<VenueConnector<'a, R, W>>;

/// Both wires, and the clock that waits for them.
#[derive(Drop)]
pub struct Edge<'a, R: System + Files, W: Write + Copy + Drop> {
    rt: &'a R,
    /// The client's wire.
    pub client: ClientWire<'a, R, W>,
    /// The venue's wire.
    pub venue: VenueWire<'a, R, W>,
    /// The clock, which waits for both.
    pub clock: WaitingClock<'a, R, W>,
}

/// The two addresses, each an IP address and a port.
#[derive(Clone, Copy, Debug)]
pub struct Addresses {
    /// Where the gateway waits for the client.
    pub listen: SocketAddr,
    /// Where the venue is.
    pub connect: SocketAddr,
}

/// The client's side over a set of sockets.
fn client_side<'a, R: System, W: Write + Drop>(
    rt: &'a R,
    sockets: &Registry,
    shared: &'a Shared,
    address: SocketAddr,
    lines: W,
) -> io::Result<ClientListener<'a, R, W>> {
    let teller = Teller::new(rt, lines)?;
    let framer = Framer::new(rt.alloc(), Kind::Fix42)?;
    let registry = sockets.try_clone()?;
    Ok(ClientListener::new(rt, address, registry, shared, teller, framer))
}

/// The venue's side over a set of sockets.
fn venue_side<'a, R: System, W: Write + Drop>(
    rt: &'a R,
    sockets: &Registry,
    shared: &'a Shared,
    address: SocketAddr,
    lines: W,
) -> io::Result<VenueConnector<'a, R, W>> {
    let teller = Teller::new(rt, lines)?;
    let registry = sockets.try_clone()?;
    Ok(VenueConnector::new(rt, address, registry, shared, teller))
}

/// The clock that waits for a set of sockets.
fn clock_over<'a, R: System + Files, W: Write + Drop>(
    rt: &'a R,
    poll: Poll,
    shared: &'a Shared,
    stop: StopFile<'a>,
    lines: W,
) -> io::Result<WaitingClock<'a, R, W>> {
    let events = Events::with_capacity(rt.alloc(), 8)?;
    let teller = Teller::new(rt, lines)?;
    Ok(WaitingClock::new(rt, poll, events, shared, stop, teller))
}

impl<'a, R: System + Files, W: Write + Copy + Drop> Edge<'a, R, W> {
    /// The wires and the clock at these addresses, with lines for the operator to `lines`, which is
    /// standard error. No port is opened and no connect begun before the first polls.
    ///
    /// # Errors
    /// The system's error, and for want of memory.
    pub fn new(
        rt: &'a R,
        shared: &'a Shared,
        addresses: Addresses,
        stop: StopFile<'a>,
        lines: W,
    ) -> io::Result<Edge<'a, R, W>> {
        let poll = Poll::new(rt)?;
        let client = client_side(rt, poll.registry(), shared, addresses.listen, lines)?;
        let venue = venue_side(rt, poll.registry(), shared, addresses.connect, lines)?;
        let clock = clock_over(rt, poll, shared, stop, lines)?;
        Ok(Edge {
            rt,
            client: Counted::new(client),
            venue: Counted::new(venue),
            clock,
        })
    }

    /// Waits, behind the last hang up, until both peers have what was said to them, a second at
    /// most. The program calls it before it ends.
    pub fn wait_for_peers(&mut self) {
        let until = ticks(self.rt).saturating_add(FAREWELL);
        for _ in 0..FAREWELL {
            let client = self.client.is_gone();
            let venue = self.venue.is_gone();
            if client && venue || ticks(self.rt) >= until {
                break;
            }
            thread::sleep(self.rt, Duration::from_millis(PAUSE));
        }
    }
}
