//! What is kept of sends that the system did not take at once.

ghost use Rattle.std.specs.Prelude.{◌≡◌, ◌⊎◌, ◌+◌, ◌≤◌, ◌<◌, ◌++◌, ◌==◌, [], length, drop};
ghost use Rattle.std.specs.Prelude.{◌-◌, nat_le, OnOk, OnErr, IsOk, IfOk, IfErr, not, false, true};
ghost use Rattle.std.specs.Prelude.{if◌then◌else◌};
ghost use Rattle.std.specs.Io.{WritesAtMost};
ghost use Rattle.std.specs.Io.KnownBytes.{WriteAppends};
ghost use Rattle.edge_logic.specs.Outbox.{StaysWhole, GrowsWhole, FrontWent, has_bytes};
ghost use Rattle.edge_logic.specs.Outbox.{took_nothing, IsSendFault, since_behind};

use crate::fault::Fault;
use std::alloc::{AllocError, Global};
use std::io::{ErrorKind, Write};
use std::marker::Model;
use std::{io, mem};

/// The most bytes that wait for a peer. A resend of 100,000 messages of 1,342 bytes fits.
pub const ROOM: usize = 134_217_728;

/// How long a peer may take nothing of what waits for it, in milliseconds.
const PATIENCE: u64 = 5_000;

/// The first sends of a round, up to this many, are each written when they are made. The bytes of
/// later ones are collected first, since a resend may have 100,000.
const AT_ONCE: u32 = 16;

/// Collected bytes are written once this many have come since the last write.
const TOGETHER: usize = 65_536;

/// The bytes that wait for a peer, at most [`ROOM`], and since when it has taken none of them.
#[derive(Drop)]
pub struct Outbox {
    alloc: Global,
    /// What goes out first.
    bytes: Vec<u8>,
    /// So many of these have gone out. They are not moved, and forgotten once all have.
    gone: usize,
    /// What goes out behind them.
    behind: Vec<u8>,
    since: u64,
    /// How many sends of this round were written at once.
    sends: u32,
    /// How many bytes were put together since the last write.
    together: usize,
}

impl Model for Outbox {
    ghost use Rattle.std.specs.Prelude.{◌≤◌, ◌+◌, ◌++◌, drop, vec_len};
    ghost use Rattle.edge_logic.specs.Outbox.{Waiting};
    ghost use Rattle.edge_logic.specs.declared.outbox.TheConstants.{ROOM};

    ghost Value = { Waiting };

    ghost view = { λ o. record {
      bytes = drop o.gone o.bytes.items ++ o.behind.items;
      since = o.since;
    } };

    ghost invariant = { λ o. (o.gone ≤ vec_len o.bytes)
        × (vec_len o.bytes + vec_len o.behind ≤ o.gone + ROOM) };
}

// What stands from a place on.
#[tactic(auto, using(crate::proofs::Kept::rest_is))]
fn rest_of(bytes: &[u8], from: usize) -> &[u8]
    requires { from ≤ length bytes.now }
    ensures { result.now ≡ drop from bytes.now }
{
    &bytes[from..]
}

// Writes a front. `Ok(0)`: the system takes nothing now, or there was nothing to write.
fn write_some<W: Write>(out: &mut W, bytes: &[u8]) -> io::Result<usize>
    ensures bound { WritesAtMost result bytes.now }
    ensures bytes { WriteAppends (W.contents out.old) (W.contents out.new) result bytes.now }
    ensures idle { bytes.now ≡ [] → IsOk result }
{
    if bytes.is_empty() {
        return Ok(0);
    }
    match out.write(bytes) {
        Ok(0) => Err(io::Error::from(ErrorKind::WriteZero)),
        Ok(count) => Ok(count),
        Err(error) => match error.kind() {
            ErrorKind::WouldBlock | ErrorKind::Interrupted => Ok(0),
            _ => Err(error),
        },
    }
}

// Since when a peer has taken nothing, once it took so many bytes now.
fn since_after(count: usize, since: u64, now: u64) -> u64
    ensures { result ≡ (if count == 0 then since else now) }
{
    if count == 0 { since } else { now }
}

impl Outbox {
    /// Nothing waits.
    pub fn new(alloc: Global) -> Outbox
        ensures { result ≡ record { bytes = []; since = 0 } }
    {
        Outbox {
            alloc,
            bytes: Vec::new(alloc),
            gone: 0,
            behind: Vec::new(alloc),
            since: 0,
            sends: 0,
            together: 0,
        }
    }

    // How many bytes wait.
    #[tactic(auto, using(crate::proofs::Kept::of_len))]
    fn len(&self) -> usize
        ensures value { result ≡ length self.now.bytes }
        ensures bounded { result ≤ ROOM }
    {
        self.bytes.len() - self.gone + self.behind.len()
    }

    /// Whether nothing waits.
    #[tactic(auto, using(crate::proofs::Kept::has_len))]
    pub fn is_empty(&self) -> bool
        ensures { has_bytes self.now.bytes ≡ not result }
    {
        self.len() == 0
    }

    // Whether it is 5 s since the peer took a byte.
    fn is_late(&self, now: u64) -> bool
        ensures { result ≡ nat_le 5_000 (now - self.now.since) }
    {
        now.saturating_sub(self.since) >= PATIENCE
    }

    /// Whether the peer has taken nothing for 5 s of what waits for it.
    pub fn took_nothing(&self, now: u64) -> bool
        ensures { result ≡ took_nothing self.now now }
    {
        let is_empty = self.is_empty();
        let is_late = self.is_late(now);
        !is_empty && is_late
    }

    // The peer took so many bytes more.
    #[tactic(auto, using(crate::proofs::Kept::of_pass))]
    fn pass(&mut self, count: usize, now: u64)
        requires { count ≤ length self.old.bytes }
        ensures bytes { self.new.bytes ≡ drop count self.old.bytes }
        ensures since { self.new.since ≡ (if count == 0 then self.old.since else now) }
    {
        self.since = since_after(count, self.since, now);
        let front = self.bytes.len() - self.gone;
        if count < front {
            self.gone += count;
        } else {
            self.bytes = mem::replace(&mut self.behind, Vec::new(self.alloc));
            self.gone = count - front;
        }
    }

    // Moves on to the bytes that were collected, once all before them have gone out.
    fn move_on(&mut self)
        ensures { self.new ≡ self.old }
    {
        self.pass(0, 0);
    }

    // Writes a front of what waits, as far as it comes first.
    #[tactic(auto, using(crate::proofs::Kept::of_front))]
    fn write_front<W: Write>(&self, out: &mut W) -> io::Result<usize>
        ensures bound { WritesAtMost result self.now.bytes }
        ensures bytes { WriteAppends
            (W.contents out.old) (W.contents out.new) result self.now.bytes }
        ensures idle { has_bytes self.now.bytes ≡ false → IsOk result }
        ensures bounded { length self.now.bytes ≤ ROOM }
    {
        write_some(out, rest_of(&self.bytes, self.gone))
    }

    /// Writes what the system takes of what waits.
    ///
    /// # Errors
    /// The system's error, and `WriteZero` where a writer takes nothing without an error; none where
    /// nothing waits.
    #[tactic(auto, using(crate::proofs::Kept::of_flush))]
    pub fn flush<W: Write>(&mut self, out: &mut W, now: u64) -> io::Result<()>
        ensures whole { StaysWhole
            (W.contents out.old) (W.contents out.new) self.old.bytes self.new.bytes }
        ensures front { FrontWent (W.contents out.old) (W.contents out.new) self.old.bytes }
        ensures less { length self.new.bytes ≤ length self.old.bytes }
        ensures bounded { length self.new.bytes ≤ ROOM }
        ensures since { self.new.since ≡ (if length self.new.bytes == length self.old.bytes
            then self.old.since else now) }
        ensures idle { has_bytes self.old.bytes ≡ false → IsOk result }
    {
        self.move_on();
        let count = self.write_front(out)?;
        self.pass(count, now);
        Ok(())
    }

    // Appends a piece for which there is room.
    #[tactic(auto, using(crate::proofs::Kept::of_append))]
    fn append(&mut self, piece: &[u8]) -> Result<(), AllocError>
        requires { length self.old.bytes + length piece.now ≤ ROOM }
        ensures kept { OnOk result (self.new.bytes ≡ self.old.bytes ++ piece.now) }
        ensures same { OnErr result (self.new.bytes ≡ self.old.bytes) }
        ensures since { self.new.since ≡ self.old.since }
    {
        self.behind.extend_from_slice(piece)?;
        Ok(())
    }

    // Notes since when something waits, where nothing did.
    fn begin_wait(&mut self, now: u64)
        ensures bytes { self.new.bytes ≡ self.old.bytes }
        ensures since { has_bytes self.old.bytes ≡ true → self.new.since ≡ self.old.since }
        ensures began { has_bytes self.old.bytes ≡ false → self.new.since ≡ now }
    {
        if self.is_empty() {
            self.since = now;
        }
    }

    // Keeps a piece.
    fn keep(&mut self, piece: &[u8], now: u64) -> Result<(), Fault>
        ensures kept { OnOk result (self.new.bytes ≡ self.old.bytes ++ piece.now) }
        ensures cause { IfErr result (IsSendFault
            (length self.old.bytes + length piece.now)) }
        ensures same { OnErr result (self.new.bytes ≡ self.old.bytes) }
        ensures bounded { length self.new.bytes ≤ ROOM }
        ensures since { has_bytes self.old.bytes ≡ true → self.new.since ≡ self.old.since }
        ensures began { OnOk result (has_bytes self.old.bytes ≡ false → self.new.since ≡ now) }
    {
        let waiting = self.len();
        if waiting > ROOM || piece.len() > ROOM - waiting {
            return Err(Fault::NoRoom);
        }
        self.begin_wait(now);
        match self.append(piece) {
            Ok(()) => Ok(()),
            Err(_) => Err(Fault::NoMemory),
        }
    }

    // Writes a front of a piece where nothing waits, and else nothing of it.
    #[tactic(auto, using(crate::proofs::Kept::nothing_of))]
    fn write_next<W: Write>(&self, out: &mut W, piece: &[u8]) -> io::Result<usize>
        ensures bound { WritesAtMost result piece.now }
        ensures bytes { WriteAppends (W.contents out.old) (W.contents out.new) result piece.now }
        ensures behind { IfOk result (λ count. (count ≡ 0) ⊎ (has_bytes self.now.bytes ≡ false)) }
    {
        if !self.is_empty() {
            return Ok(0); // what waits goes first
        }
        write_some(out, piece)
    }

    // Writes a piece at once, and keeps what the system does not take.
    fn send_at_once<W: Write>(&mut self, out: &mut W, piece: &[u8], now: u64) -> Result<(), Fault>
        ensures sent { OnOk result (GrowsWhole (W.contents out.old) (W.contents out.new)
            self.old.bytes self.new.bytes piece.now) }
        ensures front { FrontWent
            (W.contents out.old) (W.contents out.new) (self.old.bytes ++ piece.now) }
        ensures bounded { length self.new.bytes ≤ ROOM }
        ensures cause { IfErr result (IsSendFault
            (length self.old.bytes + length piece.now)) }
        ensures since { OnOk result (self.new.since
            ≡ since_behind self.old self.new piece.now now) }
    {
        self.flush(out, now)?;
        let count = self.write_next(out, piece)?;
        self.keep(rest_of(piece, count), now)
    }

    // Whether so many bytes more are to be written, with those put together before them.
    fn is_much(&mut self, more: usize) -> bool
        ensures { self.new ≡ self.old }
    {
        self.together = self.together.saturating_add(more);
        if self.together < TOGETHER {
            return false;
        }
        self.together = 0;
        true
    }

    // Puts a piece to what waits, and tries to write that at each 64 KiB.
    #[tactic(auto, using(crate::proofs::Kept::of_together))]
    fn put_together<W: Write>(&mut self, out: &mut W, piece: &[u8], now: u64) -> Result<(), Fault>
        ensures sent { OnOk result (GrowsWhole (W.contents out.old) (W.contents out.new)
            self.old.bytes self.new.bytes piece.now) }
        ensures front { FrontWent
            (W.contents out.old) (W.contents out.new) (self.old.bytes ++ piece.now) }
        ensures bounded { length self.new.bytes ≤ ROOM }
        ensures cause { IfErr result (IsSendFault
            (length self.old.bytes + length piece.now)) }
        ensures since { OnOk result (self.new.since
            ≡ since_behind self.old self.new piece.now now) }
    {
        self.keep(piece, now)?;
        if !self.is_much(piece.len()) {
            return Ok(());
        }
        self.flush(out, now)?;
        Ok(())
    }

    /// A round begins: its first sends are written at once.
    pub fn begin_round(&mut self)
        ensures { self.new ≡ self.old }
    {
        self.sends = 0;
    }

    // Whether one more send of the round is written at once.
    fn take_turn(&mut self) -> bool
        ensures { self.new ≡ self.old }
    {
        if self.sends < AT_ONCE {
            self.sends += 1;
            return true;
        }
        false
    }

    /// Writes a piece behind what waits, or keeps what the system does not take now.
    ///
    /// # Errors
    /// The system's error, [`Fault::NoRoom`] only where more than [`ROOM`] bytes would wait, and
    /// [`Fault::NoMemory`].
    pub fn send<W: Write>(&mut self, out: &mut W, piece: &[u8], now: u64) -> Result<(), Fault>
        ensures sent { OnOk result (GrowsWhole (W.contents out.old) (W.contents out.new)
            self.old.bytes self.new.bytes piece.now) }
        ensures front { FrontWent
            (W.contents out.old) (W.contents out.new) (self.old.bytes ++ piece.now) }
        ensures bounded { length self.new.bytes ≤ ROOM }
        ensures cause { IfErr result (IsSendFault
            (length self.old.bytes + length piece.now)) }
        ensures since { OnOk result (self.new.since
            ≡ since_behind self.old self.new piece.now now) }
    {
        if self.take_turn() {
            self.send_at_once(out, piece, now)
        } else {
            self.put_together(out, piece, now)
        }
    }
}
