//! The client's side and the venue's, over the loopback.

use crate::lines::Printed;
use edge_logic::{Counted, Peer, Shared};
use edge_system::{Addresses, Edge, StopFile};
use outside::Failed;
use std::io;
use std::io::{ErrorKind, Read, Write};
use std::net::{Ipv4Addr, SocketAddr, TcpListener, TcpStream};
use std::test::Fail;
use wires::{Arrival, Clock, Wire};

/// An address of this machine that was free a moment ago.
fn free(rt: &HostRuntime) -> io::Result<SocketAddr> {
    TcpListener::bind(rt, SocketAddr::from((Ipv4Addr::LOCALHOST, 0)))?.local_addr()
}

/// Two of them: where the client comes, and where the venue is.
pub(crate) fn free_pair(rt: &HostRuntime) -> io::Result<Addresses> {
    let listen = free(rt)?;
    let connect = free(rt)?;
    Ok(Addresses { listen, connect })
}

/// The first answer that is more than `Nothing`, of at most 150 rounds: 3 s where nothing comes.
fn next<P: Peer, K: Clock>(
    wire: &mut Counted<P>,
    clock: &mut K,
    buf: &mut [u8; 64],
) -> Result<Arrival, Failed> {
    for _ in 0..150u32 {
        clock.now();
        match wire.poll(buf) {
            Ok(Arrival::Nothing) => {}
            other => return other,
        }
    }
    Ok(Arrival::Nothing)
}

/// Whether this is the next answer.
fn is_next<P: Peer, K: Clock>(
    wire: &mut Counted<P>,
    clock: &mut K,
    answer: Result<Arrival, Failed>,
) -> bool {
    next(wire, clock, &mut [0u8; 64]) == answer
}

/// Whether bytes of the peer come.
fn hears<P: Peer, K: Clock>(
    wire: &mut Counted<P>,
    clock: &mut K,
    peer: &mut TcpStream,
) -> io::Result<bool> {
    peer.write_all(b"8=FIX")?;
    let mut buf = [0u8; 64];
    let came = next(wire, clock, &mut buf);
    Ok(came == Ok(Arrival::Bytes(5)) && buf[..5] == b"8=FIX"[..])
}

/// Whether the peer gets these bytes and no others, or the end of the connection where there are
/// none.
fn gets(peer: &mut TcpStream, bytes: &[u8]) -> io::Result<bool> {
    let mut got = [0u8; 8];
    let count = peer.read(&mut got)?;
    Ok(got.get(..count) == Some(bytes))
}

/// Whether the peer gets what the gateway sends.
fn says<P: Peer>(wire: &mut Counted<P>, peer: &mut TcpStream) -> io::Result<bool> {
    if wire.send(b"9=5").is_err() {
        return Ok(false);
    }
    gets(peer, b"9=5")
}

/// Whether a second client is closed at once.
fn closes_another<P: Peer>(
    rt: &HostRuntime,
    wire: &mut Counted<P>,
    address: SocketAddr,
) -> io::Result<bool> {
    let mut second = TcpStream::connect(rt, address)?;
    let came = wire.poll(&mut [0u8; 64]);
    Ok(came == Ok(Arrival::Nothing) && gets(&mut second, b"")?)
}

/// Whether a send fails, and counts a fault.
fn cannot_say<P: Peer>(wire: &mut Counted<P>) -> bool {
    let before = wire.faults();
    wire.send(b"9=5") == Err(Failed) && before < wire.faults()
}

/// The least frame that is a Logon.
const LOGON: &[u8; 26] = b"8=FIX.4.2\x019=5\x0135=A\x0110=178\x01";

/// Whether a connection without a Logon is not told.
fn waits_for_a_logon<P: Peer>(
    rt: &HostRuntime,
    client: &mut Counted<P>,
    address: SocketAddr,
) -> io::Result<bool> {
    let _stranger = TcpStream::connect(rt, address)?;
    Ok(client.poll(&mut [0u8; 64]) == Ok(Arrival::Nothing))
}

/// Whether a peer's connection is told, and carries bytes both ways while another is refused.
fn talks_to_a_client<P: Peer, K: Clock>(
    rt: &HostRuntime,
    client: &mut Counted<P>,
    clock: &mut K,
    address: SocketAddr,
) -> io::Result<bool> {
    let mut peer = TcpStream::connect(rt, address)?;
    peer.write_all(LOGON)?;
    Ok(
        is_next(client, clock, Ok(Arrival::Opened))
            && is_next(client, clock, Ok(Arrival::Bytes(LOGON.len())))
            && hears(client, clock, &mut peer)?
            && says(client, &mut peer)?
            && closes_another(rt, client, address)?,
    )
}

/// Whether the client's wire serves a client, from its first poll to behind the client's end.
fn serves_a_client<P: Peer + Drop, K: Clock + Drop>(
    rt: &HostRuntime,
    mut client: Counted<P>,
    mut clock: K,
    address: SocketAddr,
    lines: &Printed,
) -> io::Result<bool> {
    Ok(
        client.poll(&mut [0u8; 64]) == Ok(Arrival::Nothing)
            && waits_for_a_logon(rt, &mut client, address)?
            && talks_to_a_client(rt, &mut client, &mut clock, address)?
            && lines.have(b" refused, since one is connected: number 1\n")
            && is_next(&mut client, &mut clock, Ok(Arrival::Closed))
            && lines.have(b" client connection ended by the peer\n")
            && cannot_say(&mut client),
    )
}

/// The edge of a test, which it hands on whole: what it left of it would be dropped at each
/// return.
type OwnEdge<'a> = Edge<'a, HostRuntime, &'a Printed>;

/// Whether the client's wire of an edge does.
fn edge_serves_a_client(
    rt: &HostRuntime,
    edge: OwnEdge<'_>,
    address: SocketAddr,
    lines: &Printed,
) -> io::Result<bool> {
    serves_a_client(rt, edge.client, edge.clock, address, lines)
}

#[test]
fn a_client_opens_speaks_and_closes(rt: HostRuntime) -> Result<(), Fail> {
    let shared = Shared::new();
    let lines = Printed::new(&rt);
    let at = free_pair(&rt)?;
    let edge = Edge::new(&rt, &shared, at, StopFile::new("no-such-file"), &lines)?;
    assert!(rt; edge_serves_a_client(&rt, edge, at.listen, &lines)?);
    Ok(())
}

/// The connection of a venue that waits for the gateway, where the wire tells it.
fn called<P: Peer, K: Clock>(
    rt: &HostRuntime,
    venue: &mut Counted<P>,
    clock: &mut K,
    address: SocketAddr,
) -> io::Result<TcpStream> {
    let listener = TcpListener::bind(rt, address)?;
    if !is_next(venue, clock, Ok(Arrival::Opened)) {
        return Err(io::Error::from(ErrorKind::NotConnected));
    }
    let (peer, _) = listener.accept()?;
    Ok(peer)
}

/// Whether a hang up is told, with the next try, and ends the connection.
fn hangs_up<P: Peer>(
    venue: &mut Counted<P>,
    peer: &mut TcpStream,
    lines: &Printed,
) -> io::Result<bool> {
    venue.hang_up();
    Ok(
        lines.have(b" venue connection ended by the gateway: no message came; next try in ")
            && gets(peer, b"")?,
    )
}

/// Whether the venue's wire calls a venue, from its first poll to a hang up.
fn calls_a_venue<P: Peer + Drop, K: Clock + Drop>(
    rt: &HostRuntime,
    mut venue: Counted<P>,
    mut clock: K,
    address: SocketAddr,
    lines: &Printed,
) -> io::Result<bool> {
    let mut peer = called(rt, &mut venue, &mut clock, address)?;
    Ok(
        says(&mut venue, &mut peer)?
            && hears(&mut venue, &mut clock, &mut peer)?
            && hangs_up(&mut venue, &mut peer, lines)?,
    )
}

/// Whether the venue's wire of an edge does.
fn edge_calls_a_venue(
    rt: &HostRuntime,
    edge: OwnEdge<'_>,
    address: SocketAddr,
    lines: &Printed,
) -> io::Result<bool> {
    calls_a_venue(rt, edge.venue, edge.clock, address, lines)
}

#[test]
fn a_venue_is_called_and_hung_up(rt: HostRuntime) -> Result<(), Fail> {
    let shared = Shared::new();
    let lines = Printed::new(&rt);
    let at = free_pair(&rt)?;
    let edge = Edge::new(&rt, &shared, at, StopFile::new("no-such-file"), &lines)?;
    assert!(rt; edge_calls_a_venue(&rt, edge, at.connect, &lines)?);
    Ok(())
}

/// Whether a venue that is not there is told, with the next try.
fn misses_a_venue<P: Peer + Drop, K: Clock + Drop>(
    mut venue: Counted<P>,
    mut clock: K,
    lines: &Printed,
) -> bool {
    is_next(&mut venue, &mut clock, Err(Failed))
        && lines.have(b"; next try in 1 s\n")
        && cannot_say(&mut venue)
}

/// Whether the venue's wire of an edge does.
fn edge_misses_a_venue(edge: OwnEdge<'_>, lines: &Printed) -> bool {
    misses_a_venue(edge.venue, edge.clock, lines)
}

#[test]
fn a_venue_that_is_not_there_is_told(rt: HostRuntime) -> Result<(), Fail> {
    let shared = Shared::new();
    let lines = Printed::new(&rt);
    let at = free_pair(&rt)?;
    let edge = Edge::new(&rt, &shared, at, StopFile::new("no-such-file"), &lines)?;
    assert!(rt; edge_misses_a_venue(edge, &lines));
    Ok(())
}
