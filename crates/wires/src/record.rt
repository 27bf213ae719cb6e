//! The record of a wire, and the connections that it makes.

ghost use Rattle.std.specs.Prelude.{◌≡◌, ◌++◌, [], ◌∷◌, false, true, take, IfOk, OnOk};
ghost use Rattle.wires.specs.Wire.{Poll, Send, HangUp, came_by, came_of, Fits, is_within};
ghost use Rattle.wires.specs.Wire.{connections_after, change_last, add_read, add_written};
ghost use Rattle.wires.specs.Wire.{transcript};
ghost use Rattle.wires.specs.Script.{item_of};
ghost use Rattle.wires.specs.Record.{call_of, calls_of};

use crate::{Arrival, Script};
use outside::Failed;
use std::alloc::{AllocError, Global};
use std::marker::Model;

/// What was read and written on one connection, seen as two lists of bytes.
#[derive(Debug, Drop)]
pub struct Connection {
    /// What was read on it.
    pub read: Vec<u8>,
    /// What was written on it.
    pub written: Vec<u8>,
}

impl Model for Connection {
    ghost use Rattle.wires.specs.Wire.{Connection};

    ghost Value = { Connection };

    ghost view = { λ c. record { read = c.read.items; written = c.written.items } };
}

/// A call on a wire.
#[derive(Debug, Drop)]
pub enum Call {
    /// A poll gave this.
    Poll(Script),
    /// A poll failed.
    FailedPoll,
    /// A piece was sent.
    Send {
        /// The piece.
        piece: Vec<u8>,
        /// So many bytes of it were written, or all where it is shorter.
        wrote: usize,
        /// Whether the send was done.
        done: bool,
    },
}

/// A call that a record has.
#[derive(Debug, Drop)]
pub struct Noted {
    /// The call.
    pub call: Call,
    /// Whether a hang up ended the connection behind it.
    pub hung_up: bool,
}

/// What was done on a wire, seen as its record, with the transcript.
#[derive(Debug, Drop)]
pub(crate) struct Record {
    calls: Vec<Noted>,
    connections: Vec<Connection>,
}

impl Model for Record {
    ghost use Rattle.std.specs.Prelude.{◌≡◌, List};
    ghost use Rattle.wires.specs.Wire.{WireCall, transcript};
    ghost use Rattle.wires.specs.Record.{calls_of};

    ghost Value = { List WireCall };

    ghost view = { λ r. calls_of r.calls.items };

    ghost invariant = { λ r. r.connections.items ≡ transcript (calls_of r.calls.items) };
}

impl Connection {
    // No byte yet.
    fn new(alloc: Global) -> Connection
        ensures { result ≡ record { read = []; written = [] } }
    {
        Connection {
            read: Vec::new(alloc),
            written: Vec::new(alloc),
        }
    }

    // Notes bytes that were read.
    fn add_read(&mut self, bytes: &[u8]) -> Result<(), AllocError>
        ensures { OnOk result (self.new ≡ add_read bytes.now self.old) }
    {
        self.read.extend_from_slice(bytes)?;
        Ok(())
    }

    // Notes bytes that were written.
    fn add_written(&mut self, bytes: &[u8]) -> Result<(), AllocError>
        ensures { OnOk result (self.new ≡ add_written bytes.now self.old) }
    {
        self.written.extend_from_slice(bytes)?;
        Ok(())
    }
}

// The connections after bytes were read on the last of them.
fn after_read(mut all: Vec<Connection>, bytes: &[u8]) -> Result<Vec<Connection>, AllocError>
    ensures { IfOk result (λ v. v.items ≡ change_last (add_read bytes.now) all.items) }
{
    if all.is_empty() {
        return Ok(all);
    }
    let last = all.len() - 1;
    all[last].add_read(bytes)?;
    Ok(all)
}

// The connections after bytes were written on the last of them.
fn after_send(mut all: Vec<Connection>, wrote: &[u8]) -> Result<Vec<Connection>, AllocError>
    ensures { IfOk result (λ v. v.items ≡ change_last (add_written wrote.now) all.items) }
{
    if all.is_empty() {
        return Ok(all);
    }
    let last = all.len() - 1;
    all[last].add_written(wrote)?;
    Ok(all)
}

// The connections after an opening.
fn after_opening(alloc: Global, mut all: Vec<Connection>) -> Result<Vec<Connection>, AllocError>
    ensures { IfOk result (λ v. v.items ≡ all.items ++ record { read = []; written = [] } ∷ []) }
{
    all.push(Connection::new(alloc))?;
    Ok(all)
}

// The connections after a call.
fn after(alloc: Global, all: Vec<Connection>, call: &Call) -> Result<Vec<Connection>, AllocError>
    ensures { IfOk result (λ v. v.items ≡ connections_after all.items (call_of call.now)) }
{
    match call {
        Call::Poll(Script::Opened) => after_opening(alloc, all),
        Call::Poll(Script::Bytes(bytes)) => after_read(all, bytes),
        Call::Send { piece, wrote, .. } => after_send(all, &piece[..piece.len().min(*wrote)]),
        _ => Ok(all),
    }
}

// The call that a poll is by its answer.
fn poll_of(alloc: Global, answer: Result<Arrival, Failed>, buf: &[u8]) -> Result<Call, AllocError>
    requires { IfOk answer (λ arrived. Fits arrived buf.now) }
    ensures { IfOk result (λ call. call_of call ≡ Poll (came_of answer buf.now)) }
{
    match answer {
        Err(_) => Ok(Call::FailedPoll),
        Ok(arrived) => Ok(Call::Poll(item(alloc, arrived, buf)?)),
    }
}

// What came, as an item of a script.
fn item(alloc: Global, arrived: Arrival, buf: &[u8]) -> Result<Script, AllocError>
    requires { Fits arrived buf.now }
    ensures { IfOk result (λ item. item_of item ≡ came_by arrived buf.now) }
{
    match arrived {
        Arrival::Nothing => Ok(Script::Nothing),
        Arrival::Opened => Ok(Script::Opened),
        Arrival::Bytes(count) => Ok(Script::Bytes(buf[..count].to_vec(alloc)?)),
        Arrival::Closed => Ok(Script::Closed),
    }
}

impl Record {
    /// Nothing was done yet. It takes no memory.
    pub(crate) fn new(alloc: Global) -> Record
        ensures { result ≡ [] }
    {
        Record {
            calls: Vec::new(alloc),
            connections: Vec::new(alloc),
        }
    }

    /// The calls so far.
    pub(crate) fn calls(&self) -> &[Noted]
        ensures { calls_of result.now ≡ self.now }
    {
        &self.calls
    }

    /// The connections so far.
    pub(crate) fn connections(&self) -> &[Connection]
        ensures { result.now ≡ transcript self.now }
    {
        &self.connections
    }

    // With one call more.
    fn with(self, alloc: Global, call: Call) -> Result<Record, AllocError>
        ensures { IfOk result (λ r. r ≡ self ++ call_of call ∷ []) }
    {
        let Record {
            mut calls,
            connections,
        } = self;
        let connections = after(alloc, connections, &call)?;
        calls.push(Noted {
            call,
            hung_up: false,
        })?;
        Ok(Record { calls, connections })
    }

    /// With a poll of this answer, whose bytes stand at the front of `buf`.
    ///
    /// # Errors
    /// `AllocError` for want of memory. The record is lost then.
    pub(crate) fn with_poll(
        self,
        alloc: Global,
        answer: Result<Arrival, Failed>,
        buf: &[u8],
    ) -> Result<Record, AllocError>
        requires { IfOk answer (λ arrived. Fits arrived buf.now) }
        ensures { IfOk result (λ r. r ≡ self ++ Poll (came_of answer buf.now) ∷ []) }
    {
        let call = poll_of(alloc, answer, buf)?;
        self.with(alloc, call)
    }

    /// With a send of this piece, of which so many bytes were written.
    ///
    /// # Errors
    /// `AllocError` for want of memory. The record is lost then.
    pub(crate) fn with_send(
        self,
        alloc: Global,
        piece: &[u8],
        wrote: usize,
        done: bool,
    ) -> Result<Record, AllocError>
        ensures { IfOk result (λ r. r ≡ self ++ Send piece.now (take wrote piece.now) done ∷ []) }
    {
        let piece = piece.to_vec(alloc)?;
        self.with(alloc, Call::Send { piece, wrote, done })
    }

    /// Notes a hang up that ends the connection. It takes no memory.
    pub(crate) fn hang_up(&mut self)
        requires { is_within self.old ≡ true }
        ensures { self.new ≡ self.old ++ HangUp ∷ [] }
    {
        if !self.calls.is_empty() {
            let last = self.calls.len() - 1;
            self.calls[last].hung_up = true;
        }
    }
}
