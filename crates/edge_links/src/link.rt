//! One connection. What the system does not take at once is kept, and goes out later.

ghost use Rattle.std.specs.Prelude.{◌≡◌, ◌<◌, ◌+◌, [], length, not, false, true};
ghost use Rattle.std.specs.Prelude.{Err, IfOk, IfErr, OnOk};
ghost use Rattle.wires.specs.Wire.{Fits, may_come, came_of};
ghost use Rattle.edge_logic.specs.Outbox.{IsSendFault, has_bytes, took_nothing};
ghost use Rattle.edge_logic.specs.declared.fault.Fault.TheVariants as faults;

use crate::system::System;
use edge_logic::{Fault, Outbox};
use mio::net::TcpStream;
use std::io::{ErrorKind, Read};
use std::net::Shutdown;
use wires::Arrival;

/// A connection that does not block. Moments are in milliseconds of the clock that never goes
/// back.
#[derive(Drop)]
pub struct Link {
    stream: TcpStream,
    outbox: Outbox,
}

impl Link {
    /// A stream that is connected, for which nothing waits.
    ///
    /// # Errors
    /// The system's error.
    pub fn new<R: System>(rt: &R, stream: TcpStream) -> Result<Link, Fault>
        ensures { IfOk result (λ link. link.outbox ≡ record { bytes = []; since = 0 }) }
    {
        stream.set_nodelay(true)?;
        Ok(Link {
            stream,
            outbox: Outbox::new(rt.alloc()),
        })
    }

    /// Writes a piece, or keeps what the system does not take now.
    ///
    /// # Errors
    /// The system's error, [`Fault::NoRoom`] only where more than [`ROOM`](edge_logic::ROOM) bytes
    /// would wait, and [`Fault::NoMemory`].
    pub fn send(&mut self, piece: &[u8], now: u64) -> Result<(), Fault>
        ensures { IfErr result (IsSendFault (length self.old.outbox.bytes + length piece.now)) }
    {
        self.outbox.send(&mut &self.stream, piece, now)
    }

    /// Whether something waits to be written.
    pub fn has_waiting(&self) -> bool
        ensures { result ≡ has_bytes self.now.outbox.bytes }
    {
        !self.outbox.is_empty()
    }

    /// Writes what the system takes of what waits, and answers whether nothing is left.
    ///
    /// # Errors
    /// The system's error.
    pub(crate) fn flush(&mut self, now: u64) -> Result<bool, Fault>
        ensures { IfOk result (λ gone. has_bytes self.new.outbox.bytes ≡ not gone) }
    {
        self.outbox.flush(&mut &self.stream, now)?;
        Ok(self.outbox.is_empty())
    }

    /// What came, behind a try to write what waits.
    ///
    /// # Errors
    /// The system's error where what waits is written; then [`Fault::TookNothing`] exactly where
    /// the peer has taken nothing of it for 5 s; then the system's error where what came is read.
    #[tactic(auto, using(crate::proofs::Come::bytes_come))]
    pub fn receive(&mut self, buf: &mut [u8], now: u64) -> Result<Arrival, Fault>
        requires room { 0 < length buf.old }
        ensures fits { IfOk result (λ arrived. Fits arrived buf.new) }
        ensures within { may_come true (came_of result buf.new) ≡ true }
        ensures patience { OnOk result (took_nothing self.new.outbox now ≡ false) }
        ensures late { result ≡ Err faults.TookNothing →
            took_nothing self.new.outbox now ≡ true }
    {
        self.outbox.begin_round();
        self.outbox.flush(&mut &self.stream, now)?;
        if self.outbox.took_nothing(now) {
            return Err(Fault::TookNothing);
        }
        match (&self.stream).read(buf) {
            Ok(0) => Ok(Arrival::Closed),
            Ok(count) => Ok(Arrival::Bytes(count)),
            Err(error) => match error.kind() {
                ErrorKind::WouldBlock | ErrorKind::Interrupted => Ok(Arrival::Nothing),
                _ => Err(Fault::System(error)),
            },
        }
    }

    /// Whether the system tells that the connection was reset.
    pub fn was_reset(&self) -> bool {
        !matches!(self.stream.take_error(), Ok(None))
    }

    /// Says that nothing more comes.
    pub(crate) fn shut(&self) {
        let _ = self.stream.shutdown(Shutdown::Write); // where it fails the connection is gone
    }

    /// Reads off what is there, and answers whether the peer has ended its side.
    pub(crate) fn drain(&self) -> bool {
        let mut buf = [0u8; 4096];
        for _ in 0..64u32 {
            match (&self.stream).read(&mut buf) {
                Ok(0) => return true,
                Ok(_) => {}
                Err(error) => {
                    return !matches!(error.kind(), ErrorKind::WouldBlock | ErrorKind::Interrupted);
                }
            }
        }
        false
    }
}
