//! The calls on a wire, as they are kept until they are printed.

ghost use Rattle.std.specs.Prelude.{◌≡◌, ◌++◌, [], ◌∷◌, OnOk, OnErr};
ghost use Rattle.replay_lines.specs.CallLog.{call_of, kept_line, kept_lines};
ghost use Rattle.replay_lines.specs.Past.{call_with};
ghost use Rattle.replay_lines.specs.ReplayLines.{piece_line};

use crate::kept_text::KeptText;
use crate::lines::{SOH, append_piece};
use crate::past::{Kind, Past, joined, none};
use std::alloc::{AllocError, Global};
use std::marker::Model;

/// A call on a wire.
#[derive(Clone, Copy, Debug)]
pub enum Call<'a> {
    /// A poll gave nothing new.
    Nothing,
    /// A poll gave a connection.
    Opened,
    /// A poll gave these bytes.
    Bytes(&'a [u8]),
    /// A poll gave the peer's end of the connection.
    Closed,
    /// This piece was sent.
    Sent(&'a [u8]),
    /// A hang up ended the connection.
    HungUp,
}

/// The calls on a wire, seen as its record. The lines of those that have one when they are printed
/// are kept, that of an opening as SOH; of the others only clauses know.
#[derive(Drop)]
pub struct CallLog {
    alloc: Global,
    past: Past,
    kept: KeptText,
}

impl Model for CallLog {
    ghost use Rattle.std.specs.Prelude.{◌≡◌, List};
    ghost use Rattle.wires.specs.Wire.{WireCall};
    ghost use Rattle.replay_lines.specs.CallLog.{kept_lines};

    ghost Value = { List WireCall };

    ghost view = { λ l. l.past.calls };

    ghost invariant = { λ l. l.kept ≡ kept_lines l.past.calls };
}

// Keeps the line of a piece that was sent.
fn keep_sent(alloc: Global, kept: &mut KeptText, piece: &[u8]) -> Result<(), AllocError>
    ensures ok { OnOk result (kept.new ≡ kept.old ++ piece_line piece.now) }
    ensures err { OnErr result (kept.new ≡ kept.old) }
{
    let mut line = Vec::with_capacity(alloc, piece.len())?;
    append_piece(piece, &mut line)?;
    kept.push(&line)
}

// Keeps the line of a call, where it has one.
fn keep(alloc: Global, kept: &mut KeptText, call: Call<'_>) -> Result<(), AllocError>
    ensures ok { OnOk result (kept.new ≡ kept.old ++ kept_line (call_of call.entry)) }
    ensures err { OnErr result (kept.new ≡ kept.old) }
{
    match call {
        Call::Opened => kept.push(&[SOH]),
        Call::Sent(piece) => keep_sent(alloc, kept, piece),
        Call::Nothing | Call::Bytes(_) | Call::Closed | Call::HungUp => Ok(()),
    }
}

// What a call is, and its bytes.
fn parts_of<'a>(call: Call<'a>) -> (Kind, &'a [u8])
    ensures { call_with result.0 result.1.now ≡ call_of call.entry }
{
    match call {
        Call::Nothing => (Kind::Nothing, &[]),
        Call::Opened => (Kind::Opened, &[]),
        Call::Bytes(bytes) => (Kind::Bytes, bytes),
        Call::Closed => (Kind::Closed, &[]),
        Call::Sent(piece) => (Kind::Sent, piece),
        Call::HungUp => (Kind::HungUp, &[]),
    }
}

impl CallLog {
    /// Nothing was done yet. It takes no memory.
    pub fn new(alloc: Global) -> CallLog
        ensures { result ≡ [] }
    {
        CallLog {
            alloc,
            past: none(),
            kept: KeptText::new(alloc),
        }
    }

    /// Adds a call.
    ///
    /// # Errors
    /// `AllocError` for want of memory; then the calls are as before.
    #[tactic(auto, using(crate::proofs::Kept::one_more))]
    pub fn push(&mut self, call: Call<'_>) -> Result<(), AllocError>
        ensures ok { OnOk result (self.new ≡ self.old ++ call_of call.entry ∷ []) }
        ensures err { OnErr result (self.new ≡ self.old) }
    {
        keep(self.alloc, &mut self.kept, call)?;
        let (kind, bytes) = parts_of(call);
        self.past = joined(&self.past, kind, bytes);
        Ok(())
    }

    /// The lines that are kept of the calls.
    pub(crate) fn kept(&self) -> &KeptText
        ensures { result.now ≡ kept_lines self.now }
    {
        &self.kept
    }
}
