//! A wire on which the lines of a life come.

ghost use Rattle.std.specs.Prelude.{◌≡◌, ◌<◌, ◌≤◌, [], ◌∷◌, length, drop, filter, All};
ghost use Rattle.std.specs.Prelude.{IfOk, IfSome, IsNone, OnOk, OnErr};
ghost use Rattle.outside.specs.Causes.{next_count};
ghost use Rattle.frame_grammar.specs.Frame.{IsBody, frame_of};
ghost use Rattle.kept_pieces.specs.Pieces.{bytes_of};
ghost use Rattle.capture_text.specs.Capture.{kind_of};
ghost use Rattle.capture_text.specs.Kept.{event_of};
ghost use Rattle.capture_text.specs.Line.{IsBounded};
ghost use Rattle.wires.specs.Wire.{Bytes, Poll, came_by, Fits, within_after};
ghost use Rattle.wires.specs.Script.{next_of};
ghost use Rattle.wires.specs.MemWire.{plays, noted, lost};
ghost use Rattle.replay_lines.specs.CallLog.{call_of};
ghost use Rattle.capture_replay.specs.Rounds.{is_round, arrival};
ghost use Rattle.capture_replay.specs.LifeWire.{unplayed};

use crate::rounds::is_round;
use capture_text::{Life, Line, Lines};
use frame_grammar::{FrameError, Kind, write_frame};
use kept_pieces::Piece;
use order_meaning::Side;
use outside::{Calls, Failed, fill};
use replay_lines::{Call, CallLog};
use std::alloc::{AllocError, Global};
use std::marker::Model;
use wires::{Arrival, Wire};

/// A wire of one side, on which the lines of a life come, a round a poll, and then nothing. It
/// fails for want of memory alone.
#[derive(Drop)]
pub(crate) struct LifeWire<'a> {
    alloc: Global,
    side: Side,
    lines: Lines<'a>,
    // None from the first refusal of memory on.
    told: Option<CallLog>,
    within: bool,
    calls: Calls,
    polls: u64,
}

impl<'a> Model for LifeWire<'a> {
    ghost use Rattle.wires.specs.MemWire.{WireState};
    ghost use Rattle.capture_replay.specs.Rounds.{script_of};
    ghost use Rattle.capture_replay.specs.LifeWire.{IsSound};

    ghost Value = { WireState };

    ghost view = { λ w. record {
      script = script_of w.side w.lines;
      recorded = w.told;
      within = w.within;
      calls = w.calls;
      polls = w.polls;
    } };

    ghost invariant = { λ w. IsSound w.told w.within w.lines };
}

/// The frame of a body that comes from a side.
fn frame(alloc: Global, side: Side, body: Piece<'_>) -> Result<Vec<u8>, AllocError>
    requires { IsBody (bytes_of body) }
    ensures { IfOk result (λ v. v.items ≡ frame_of (kind_of side) (bytes_of body.entry)) }
{
    let kind = match side {
        Side::Client => Kind::Fix42,
        Side::Venue => Kind::Fixt11,
    };
    let body = body.unpacked(alloc)?;
    let mut frame = Vec::new(alloc);
    match write_frame(kind, &body, &mut frame) {
        Ok(()) => Ok(frame),
        Err(FrameError::NoMemory) => Err(AllocError),
        // The body of a capture is never too long.
        Err(FrameError::TooLong) => unreachable!(),
    }
}

/// What comes of these bytes, which are put at the front of the buffer.
fn arrive(within: bool, bytes: &[u8], buf: &mut [u8]) -> Arrival
    requires room { 0 < length buf.old }
    ensures came { came_by result buf.new ≡
        next_of within (length buf.old) (Bytes bytes.now ∷ []) }
    ensures fits { Fits result buf.new }
{
    if !within || bytes.is_empty() {
        return Arrival::Nothing;
    }
    Arrival::Bytes(fill(buf, bytes))
}

/// What a line lets come of a side; its bytes are put at the front of the buffer.
fn give_line(
    alloc: Global,
    side: Side,
    within: bool,
    line: Line<'_>,
    buf: &mut [u8],
) -> Result<Arrival, AllocError>
    requires room { 0 < length buf.old }
    requires bounded { IsBounded (event_of line) }
    ensures came { IfOk result (λ arrived. came_by arrived buf.new ≡
        next_of within (length buf.old) (arrival side (event_of line.entry) ∷ [])) }
    ensures fits { IfOk result (λ arrived. Fits arrived buf.new) }
{
    match line {
        Line::Opened(of) if of == side && !within => Ok(Arrival::Opened),
        Line::Closed(of) if of == side && within => Ok(Arrival::Closed),
        Line::Text(of, bytes) if of == side => Ok(arrive(within, &bytes.unpacked(alloc)?, buf)),
        Line::Frame(of, body) if of == side => {
            Ok(arrive(within, &frame(alloc, side, body)?, buf))
        }
        _ => Ok(Arrival::Nothing),
    }
}

/// The next line that is a round; it is behind then, with those before it.
#[tactic(auto, using(crate::proofs::Coming::looking))]
fn next_round<'a>(lines: &mut Lines<'a>) -> Option<Line<'a>>
    ensures some { IfSome result (λ line. filter is_round lines.old ≡
        event_of line ∷ filter is_round lines.new) }
    ensures none { IsNone result → filter is_round lines.old ≡ [] }
    ensures past { IsNone result → filter is_round lines.new ≡ [] }
    ensures bounded { All IsBounded lines.old → All IsBounded lines.new }
    ensures sound { All IsBounded lines.old →
        IfSome result (λ line. IsBounded (event_of line)) }
{
    while let Some(line) = lines.next() {
        if is_round(line) {
            return Some(line);
        }
    }
    None
}

/// Whether a wire is within a connection after a call.
fn is_within_after(within: bool, call: Call<'_>) -> bool
    ensures { result ≡ within_after within (call_of call.entry) }
{
    match call {
        Call::Opened => true,
        Call::Closed | Call::HungUp => false,
        Call::Nothing | Call::Bytes(_) | Call::Sent(_) => within,
    }
}

/// The call that a poll was, of which the bytes stand at the front of the buffer.
fn poll_of<'a>(arrived: Arrival, buf: &'a [u8]) -> Call<'a>
    requires { Fits arrived buf.now }
    ensures { call_of result ≡ Poll (came_by arrived buf.now) }
{
    match arrived {
        Arrival::Nothing => Call::Nothing,
        Arrival::Opened => Call::Opened,
        Arrival::Bytes(count) => Call::Bytes(&buf[..count]),
        Arrival::Closed => Call::Closed,
    }
}

impl<'a> LifeWire<'a> {
    /// A wire of one side, on which nothing was done yet. It takes no memory yet.
    pub(crate) fn new(alloc: Global, side: Side, life: &'a Life) -> LifeWire<'a>
        requires { All IsBounded life.now }
        ensures { result ≡ unplayed side life.now }
    {
        LifeWire {
            alloc,
            side,
            lines: life.lines(),
            told: Some(CallLog::new(alloc)),
            within: false,
            calls: Calls::new(Vec::new(alloc)),
            polls: 0,
        }
    }

    /// The calls so far; none where memory was refused.
    pub(crate) fn into_calls(self) -> Option<CallLog>
        ensures { result ≡ self.entry.recorded }
    {
        self.told
    }

    // Notes a call.
    fn note(&mut self, call: Call<'_>) -> Result<(), AllocError>
        ensures ok { OnOk result (self.new ≡ noted (call_of call.entry) self.old) }
        ensures err { OnErr result (self.new ≡ lost self.old) }
    {
        self.within = is_within_after(self.within, call);
        if let Some(mut log) = self.told.take() {
            if log.push(call).is_err() {
                self.within = false;
                return Err(AllocError);
            }
            self.told = Some(log);
        }
        Ok(())
    }

    // What comes next, without noting it.
    #[tactic(auto, using(crate::proofs::Coming::giving))]
    fn give(&mut self, buf: &mut [u8]) -> Result<Arrival, AllocError>
        requires room { 0 < length buf.old }
        ensures came { IfOk result (λ arrived. came_by arrived buf.new ≡
            next_of self.old.within (length buf.old) self.old.script) }
        ensures fits { IfOk result (λ arrived. Fits arrived buf.new) }
        ensures left { self.new ≡ record self.old { script = drop 1 self.old.script } }
    {
        match next_round(&mut self.lines) {
            Some(line) => give_line(self.alloc, self.side, self.within, line, buf),
            None => Ok(Arrival::Nothing),
        }
    }

    // Gives what comes next, and notes it.
    fn next(&mut self, buf: &mut [u8]) -> Result<Arrival, AllocError>
        requires room { 0 < length buf.old }
        ensures fits { IfOk result (λ arrived. Fits arrived buf.new) }
        ensures came { IfOk result (λ arrived. came_by arrived buf.new ≡
            next_of self.old.within (length buf.old) self.old.script) }
        ensures ok { IfOk result (λ arrived. self.new ≡ noted (Poll (came_by arrived buf.new))
            (record self.old { script = drop 1 self.old.script })) }
        ensures err { OnErr result (self.new ≡
            record self.old {
              recorded = self.new.recorded;
              within = self.new.within;
              script = drop 1 self.old.script;
            }) }
    {
        let arrived = self.give(buf)?;
        self.note(poll_of(arrived, buf))?;
        Ok(arrived)
    }

    // Loses the record, for want of memory, which counts as a fault.
    fn lose(&mut self) -> Failed
        ensures lost { self.new ≡ lost (record self.old {
          calls = record self.old.calls {
            faults = next_count self.old.calls.faults;
          };
        }) }
        ensures later { self.old.calls.faults ≤ self.new.calls.faults }
    {
        self.told = None;
        self.within = false;
        self.calls.fail()
    }
}

impl<'a> Wire for LifeWire<'a> {
    ghost recorded = { λ w. w.recorded };

    ghost faults = { λ w. w.calls.faults };

    ghost polls = { λ w. w.polls };

    ghost plays = { plays };

    #[tactic(auto, using(crate::proofs::Playing::playing))]
    fn poll(&mut self, buf: &mut [u8]) -> Result<Arrival, Failed> {
        self.polls = self.polls.saturating_add(1);
        match self.next(buf) {
            Ok(arrived) => Ok(arrived),
            Err(_) => Err(self.lose()),
        }
    }

    #[tactic(auto, using(crate::proofs::Playing::playing))]
    fn send(&mut self, piece: &[u8]) -> Result<(), Failed> {
        let _ = &self.within; // brings the invariant into scope
        match self.note(Call::Sent(piece)) {
            Ok(()) => Ok(()),
            Err(_) => Err(self.lose()),
        }
    }

    #[tactic(auto, using(crate::proofs::Playing::playing))]
    fn hang_up(&mut self) {
        if self.within {
            let _ = self.note(Call::HungUp);
        }
    }
}
