//! A wire in memory, which tells its record.

ghost use Rattle.std.specs.Prelude.{◌≡◌, ◌<◌, ◌∷◌, ℕ, List, [], length, take, true, is_some};
ghost use Rattle.std.specs.Prelude.{is_none, IfOk, IfSome, IsErr, OnOk, OnErr};
ghost use Rattle.std.specs.Option.{ForSome};
ghost use Rattle.outside.specs.Causes.{HasCause, next_count};
ghost use Rattle.wires.specs.Told.{GrowsBy, Keeps};
ghost use Rattle.wires.specs.Wire.{Poll, Send, came_by, came_of, Fits, is_within, may_come};
ghost use Rattle.wires.specs.Wire.{within_after, SendGrows, HangUpGrows};
ghost use Rattle.wires.specs.Script.{next_of, rest_of};
ghost use Rattle.wires.specs.MemWire.{fresh, noted, lost, hung_up, connections_told, sent, Answers};
ghost use Rattle.wires.specs.MemWire.{plays, calls_told};
ghost use Rattle.wires.specs.Record.{calls_of};
ghost use Rattle.wires.specs.declared.wire.TheConstants.{POLL_LEN};

use crate::record::{Noted, Record};
use crate::script::Play;
use crate::{Arrival, Connection, Script, Wire};
use outside::{Calls, Failed};
use std::alloc::{AllocError, Global};
use std::marker::Model;

/// How many bytes of its piece a listed send writes: all of a piece that is shorter.
pub const FAILED_SEND_LEN: usize = 10;

/// A wire in memory, which gives what its script says, an item a poll, and then nothing.
///
/// Polls and sends are numbered from 1, together, and the listed ones fail. A poll that fails takes
/// no item.
#[derive(Debug, Drop)]
pub struct MemWire {
    alloc: Global,
    play: Play,
    // None from the first refusal of memory on.
    told: Option<Record>,
    within: bool,
    calls: Calls,
    polls: u64,
}

impl Model for MemWire {
    ghost use Rattle.std.specs.Prelude.{◌≡◌, IfSome};
    ghost use Rattle.wires.specs.Wire.{is_within};
    ghost use Rattle.wires.specs.MemWire.{WireState};

    ghost Value = { WireState };

    ghost view = { λ w. record {
      script = w.play;
      recorded = w.told;
      within = w.within;
      calls = w.calls;
      polls = w.polls;
    } };

    ghost invariant = { λ w. IfSome w.told (λ calls. w.within ≡ is_within calls) };
}

// Whether a wire is within a connection after a poll of this answer.
fn is_within_after(within: bool, answer: Result<Arrival, Failed>) -> bool
    ensures { (buf : List ℕ) → result ≡ within_after within (Poll (came_of answer buf)) }
{
    match answer {
        Err(_) => false,
        Ok(arrived) => match arrived {
            Arrival::Opened => true,
            Arrival::Closed => false,
            Arrival::Nothing | Arrival::Bytes(_) => within,
        },
    }
}

impl MemWire {
    /// A wire of this script, of which the polls and sends with the numbers in `fail` fail.
    ///
    /// It takes no memory yet.
    pub fn new(alloc: Global, script: Vec<Script>, fail: Vec<u64>) -> MemWire
        ensures { result ≡ fresh script.items fail.items }
    {
        MemWire {
            alloc,
            play: Play::new(script),
            told: Some(Record::new(alloc)),
            within: false,
            calls: Calls::new(fail),
            polls: 0,
        }
    }

    /// The calls so far, in order; none where memory was refused.
    pub fn calls(&self) -> &[Noted]
        ensures { calls_of result.now ≡ calls_told self.now.recorded }
    {
        match &self.told {
            Some(record) => record.calls(),
            None => &[],
        }
    }

    /// The connections so far, with the bytes read and written; none where memory was refused.
    pub fn connections(&self) -> &[Connection]
        ensures { result.now ≡ connections_told self.now.recorded }
    {
        match &self.told {
            Some(record) => record.connections(),
            None => &[],
        }
    }

    /// Whether it is within a connection, so that something may be sent.
    pub fn is_within(&self) -> bool
        ensures within { result ≡ self.now.within }
        ensures told { IfSome self.now.recorded (λ r. is_within r ≡ result) }
    {
        self.within
    }

    /// Whether memory was refused to a call, which counts as a fault of it.
    pub fn refused(&self) -> bool
        ensures { result ≡ is_none self.now.recorded }
    {
        self.told.is_none()
    }

    // Notes a poll that answered so.
    fn note_poll(&mut self, answer: Result<Arrival, Failed>, buf: &[u8]) -> Result<(), AllocError>
        requires { IfOk answer (λ arrived. Fits arrived buf.now) }
        ensures ok { OnOk result (self.new ≡ noted (Poll (came_of answer buf.now)) self.old) }
        ensures err { OnErr result (self.new ≡ lost self.old) }
        ensures only { IsErr result → is_some self.old.recorded ≡ true }
    {
        self.within = is_within_after(self.within, answer);
        if let Some(record) = self.told.take() {
            match record.with_poll(self.alloc, answer, buf) {
                Ok(record) => self.told = Some(record),
                Err(error) => {
                    self.within = false;
                    return Err(error);
                }
            }
        }
        Ok(())
    }

    // Notes a send, of whose piece so many bytes were written.
    fn note_send(&mut self, piece: &[u8], wrote: usize, done: bool) -> Result<(), AllocError>
        ensures ok { OnOk result
            (self.new ≡ noted (Send piece.now (take wrote piece.now) done) self.old) }
        ensures err { OnErr result (self.new ≡ lost self.old) }
        ensures only { IsErr result → is_some self.old.recorded ≡ true }
    {
        self.within = self.within && done;
        if let Some(record) = self.told.take() {
            match record.with_send(self.alloc, piece, wrote, done) {
                Ok(record) => self.told = Some(record),
                Err(error) => {
                    self.within = false;
                    return Err(error);
                }
            }
        }
        Ok(())
    }
}

impl Wire for MemWire {
    ghost recorded = { λ w. w.recorded };

    ghost faults = { λ w. w.calls.faults };

    ghost polls = { λ w. w.polls };

    ghost plays = { plays };

    fn poll(&mut self, buf: &mut [u8]) -> Result<Arrival, Failed>
        requires room { 0 < length buf.old }
        ensures fits { IfOk result (λ arrived. Fits arrived buf.new) }
        ensures grows { GrowsBy
            self.old.recorded self.new.recorded (Poll (came_of result buf.new) ∷ []) }
        ensures allowed { IfSome self.old.recorded (λ r.
            may_come (is_within r) (came_of result buf.new) ≡ true) }
        ensures counted { self.new.polls ≡ next_count self.old.polls }
        ensures plays { length buf.old ≡ POLL_LEN → Keeps (plays self.old) (plays self.new) }
        ensures cause { HasCause self.old.calls.faults self.new.calls.faults result }
        ensures answers { Answers (Poll (came_of result buf.new)) self.old self.new result }
        ensures given { IfOk result (λ arrived. came_by arrived buf.new ≡
            next_of self.old.within (length buf.old) self.old.script) }
        ensures taken { OnOk result (self.new.script ≡
            rest_of self.old.within (length buf.old) self.old.script) }
        ensures failed { OnErr result (self.new.script ≡ self.old.script) }
    {
        self.polls = self.polls.saturating_add(1);
        if let Err(failed) = self.calls.begin() {
            let _ = self.note_poll(Err(failed), buf);
            return Err(failed);
        }
        let within = self.within;
        let arrived = self.play.give(within, buf);
        if self.note_poll(Ok(arrived), buf).is_err() {
            return Err(self.calls.fail());
        }
        self.play.advance(within, buf.len());
        Ok(arrived)
    }

    fn send(&mut self, piece: &[u8]) -> Result<(), Failed>
        requires within { ForSome self.old.recorded (λ r. is_within r ≡ true) }
        ensures grows { SendGrows self.old.recorded self.new.recorded piece.now result }
        ensures counted { self.new.polls ≡ self.old.polls }
        ensures plays { Keeps (plays self.old) (plays self.new) }
        ensures cause { HasCause self.old.calls.faults self.new.calls.faults result }
        ensures answers { Answers
            (sent FAILED_SEND_LEN result piece.now) self.old self.new result }
        ensures same { self.new.script ≡ self.old.script }
    {
        if let Err(failed) = self.calls.begin() {
            let _ = self.note_send(piece, FAILED_SEND_LEN, false);
            return Err(failed);
        }
        if self.note_send(piece, piece.len(), true).is_err() {
            return Err(self.calls.fail());
        }
        Ok(())
    }

    fn hang_up(&mut self)
        ensures grows { HangUpGrows self.old.recorded self.new.recorded }
        ensures counted { self.new.polls ≡ self.old.polls }
        ensures plays { Keeps (plays self.old) (plays self.new) }
        ensures faults { self.new.calls.faults ≡ self.old.calls.faults }
        ensures done { self.new ≡ hung_up self.old }
    {
        if !self.within {
            return;
        }
        if let Some(record) = &mut self.told {
            record.hang_up();
        }
        self.within = false;
    }
}
