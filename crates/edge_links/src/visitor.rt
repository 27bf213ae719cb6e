//! A connection that waits for its Logon.

ghost use Rattle.std.specs.Prelude.{◌≡◌, ◌-◌, ◌++◌, ℕ, List, [], length, take, false, IfOk, OnOk};
ghost use Rattle.frame_grammar.specs.Found.{found};
ghost use Rattle.frame_grammar.specs.declared.buffer.TheConstants.{CAPACITY};
ghost use Rattle.edge_waits.specs.Lobby.{first_of, standing_of};

use crate::link::Link;
use crate::system::System;
use edge_logic::Fault;
use edge_waits::{Standing, first_in, standing_of};
use frame_grammar::Framer;
use mio::net::TcpStream;
use std::alloc::AllocError;
use std::net::SocketAddr;
use wires::Arrival;

/// So many bytes are read at a time.
const PIECE: usize = 4_096;

/// A connection that waits for its Logon. Moments are in milliseconds of the clock that never goes
/// back.
#[derive(Drop)]
pub struct Visitor {
    /// The connection.
    pub link: Link,
    /// The address at its other end.
    pub from: SocketAddr,
    /// What it has said, all bytes so far.
    pub heard: Vec<u8>,
    since: u64,
    is_closed: bool,
}

// How a connection stands that has said this, and has waited for so many milliseconds.
fn stands_by(framer: &mut Framer, heard: &[u8], is_closed: bool, waited: u64) -> Standing
    ensures stands { result ≡ standing_of
        (first_of (found framer.old.kind (take CAPACITY heard.now))) (length heard.now)
        is_closed waited }
    ensures kind { framer.new.kind ≡ framer.old.kind }
{
    let first = first_in(framer, heard);
    standing_of(first, heard.len(), is_closed, waited)
}

impl Visitor {
    /// A stream that was accepted now, from this address.
    ///
    /// # Errors
    /// The system's error.
    pub fn new<R: System>(
        rt: &R,
        stream: TcpStream,
        from: SocketAddr,
        now: u64,
    ) -> Result<Visitor, Fault>
        ensures from { IfOk result (λ visitor. visitor.from ≡ from) }
        ensures heard { IfOk result (λ visitor. visitor.heard.items ≡ []) }
        ensures since { IfOk result (λ visitor. visitor.since ≡ now) }
        ensures open { IfOk result (λ visitor. visitor.is_closed ≡ false) }
    {
        Ok(Visitor {
            link: Link::new(rt, stream)?,
            from,
            heard: Vec::new(rt.alloc()),
            since: now,
            is_closed: false,
        })
    }

    // Takes what came, and answers whether something did.
    fn read(&mut self, now: u64) -> Result<bool, AllocError>
        ensures heard { OnOk result ((more : List ℕ)
            × (self.new.heard.items ≡ self.old.heard.items ++ more)) }
        ensures since { self.new.since ≡ self.old.since }
        ensures from { self.new.from ≡ self.old.from }
    {
        let mut buf = [0u8; PIECE];
        match self.link.receive(&mut buf, now) {
            Ok(Arrival::Bytes(count)) => {
                self.heard.extend_from_slice(&buf[..count])?;
                Ok(true)
            }
            Ok(Arrival::Nothing | Arrival::Opened) => Ok(false),
            Ok(Arrival::Closed) | Err(_) => {
                self.is_closed = true;
                Ok(false)
            }
        }
    }

    /// Takes what came, and answers how the connection stands by all that it has said, and whether
    /// something came.
    ///
    /// # Errors
    /// For want of memory alone.
    pub fn listen(&mut self, framer: &mut Framer, now: u64) -> Result<(Standing, bool), AllocError>
        ensures stands { IfOk result (λ told. told.0 ≡ standing_of
            (first_of (found framer.old.kind (take CAPACITY self.new.heard.items)))
            (length self.new.heard.items) self.new.is_closed (now - self.new.since)) }
        ensures heard { OnOk result ((more : List ℕ)
            × (self.new.heard.items ≡ self.old.heard.items ++ more)) }
        ensures since { self.new.since ≡ self.old.since }
        ensures from { self.new.from ≡ self.old.from }
        ensures kind { framer.new.kind ≡ framer.old.kind }
    {
        let came = self.read(now)?;
        let waited = now.saturating_sub(self.since);
        let stands = stands_by(framer, &self.heard, self.is_closed, waited);
        Ok((stands, came))
    }
}
