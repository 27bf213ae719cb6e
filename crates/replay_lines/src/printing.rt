//! The lines, put to a sink.

ghost use Rattle.std.specs.Prelude.{◌≡◌, ◌≢◌, [], Err, IfOk, OnErr};
ghost use Rattle.outside.specs.Bytes.{PutAppends};
ghost use Rattle.outside.specs.Causes.{HasCause, Rose};
ghost use Rattle.replay_lines.specs.CallLog.{opened_in, shown};
ghost use Rattle.replay_lines.specs.Pieces.{pieces_of};
ghost use Rattle.replay_lines.specs.declared.printing.PrintError.TheVariants as errors;
ghost use Rattle.replay_lines.specs.Prints.{Prints};
ghost use Rattle.replay_lines.specs.ReplayLines.{side_lines, life_lines, last_lines, drill_lines};

use crate::kept_text::LONG_TEXT;
use crate::lines::{append_end, append_last, append_numbered, append_shown, append_summary};
use crate::{CallLog, PlayedDrill, PlayedLife};
use outside::Sink;
use std::alloc::{AllocError, Global};
use thiserror::Error;

/// Why lines were not put.
#[derive(Clone, Copy, Debug, Error, PartialEq, Eq)]
pub enum PrintError {
    /// The sink failed, and its count of faults says so too.
    #[error("the output failed")]
    OutputFault,
    /// Memory was refused.
    #[error("out of memory")]
    NoMemory,
}

impl From<AllocError> for PrintError {
    ghost from_gives = { λ _ e. e ≡ errors.NoMemory };

    fn from(_e: AllocError) -> PrintError {
        PrintError::NoMemory
    }
}

/// Puts a text.
fn put_text<O: Sink>(out: &mut O, text: &[u8]) -> Result<(), PrintError>
    ensures text { PutAppends (O.bytes out.old) (O.bytes out.new) result text.now }
    ensures only { OnErr result (result ≡ Err errors.OutputFault) }
    ensures cause { HasCause (O.faults out.old) (O.faults out.new) result }
{
    match out.put(text) {
        Ok(()) => Ok(()),
        Err(_) => Err(PrintError::OutputFault),
    }
}

/// Puts a text that is long, and empties it.
fn put_long<O: Sink>(out: &mut O, text: &mut Vec<u8>) -> Result<(), PrintError>
    ensures prints { Prints (O.bytes out.old) (O.bytes out.new) text.old.items text.new.items
        result [] }
    ensures fault { result ≡ Err errors.OutputFault →
        Rose (O.faults out.old) (O.faults out.new) }
    ensures still { result ≢ Err errors.OutputFault → O.faults out.new ≡ O.faults out.old }
{
    if text.len() < LONG_TEXT {
        return Ok(());
    }
    put_text(out, text)?;
    text.clear();
    Ok(())
}

/// Prints what is kept of calls, behind so many connections. Answers how many there are then.
fn print_kept<O: Sink>(
    out: &mut O,
    side: &[u8],
    connections: u64,
    kept: &[u8],
    text: &mut Vec<u8>,
) -> Result<u64, PrintError>
    ensures count { IfOk result (λ n. n ≡ opened_in connections kept.now) }
    ensures prints { Prints (O.bytes out.old) (O.bytes out.new) text.old.items text.new.items
        result (shown side.now connections kept.now) }
    ensures fault { result ≡ Err errors.OutputFault →
        Rose (O.faults out.old) (O.faults out.new) }
    ensures still { result ≢ Err errors.OutputFault → O.faults out.new ≡ O.faults out.old }
{
    let connections = append_shown(side, connections, kept, text)?;
    put_long(out, text)?;
    Ok(connections)
}

/// Prints the lines of the connections of a side.
fn print_side<O: Sink>(
    alloc: Global,
    out: &mut O,
    side: &[u8],
    log: &CallLog,
    text: &mut Vec<u8>,
) -> Result<(), PrintError>
    ensures prints { Prints (O.bytes out.old) (O.bytes out.new) text.old.items text.new.items
        result (side_lines side.now 1 (pieces_of log.now)) }
    ensures fault { result ≡ Err errors.OutputFault →
        Rose (O.faults out.old) (O.faults out.new) }
    ensures still { result ≢ Err errors.OutputFault → O.faults out.new ≡ O.faults out.old }
{
    let (parts, end) = log.kept().parts();
    let mut kept = Vec::new(alloc);
    let mut connections = 0;
    for packed in parts {
        packed.unpack(&mut kept)?;
        connections = print_kept(out, side, connections, &kept, text)?;
    }
    print_kept(out, side, connections, end, text)?;
    Ok(())
}

/// Puts the lines of a life, at least 65,536 bytes at a time: `life N`; for each connection of the
/// client, and then of the venue, `client N` or `venue N` and below it a line of each piece that
/// was written, `> ` and its bytes with `|` for SOH; and `end ` with the name of its end.
///
/// # Errors
/// `OutputFault` only where the sink's count of faults rose in this call; `NoMemory` for want of
/// memory. What was put is then a front of the lines.
pub fn put_life<O: Sink>(
    alloc: Global,
    out: &mut O,
    life: &PlayedLife<'_>,
) -> Result<(), PrintError>
    ensures lines { PutAppends (O.bytes out.old) (O.bytes out.new) result
        (life_lines life.now.number (pieces_of life.now.client.now)
        (pieces_of life.now.venue.now) life.now.end.now) }
    ensures fault { result ≡ Err errors.OutputFault →
        Rose (O.faults out.old) (O.faults out.new) }
    ensures still { result ≢ Err errors.OutputFault → O.faults out.new ≡ O.faults out.old }
{
    let mut text = Vec::new(alloc);
    append_numbered(b"life", life.number, &mut text)?;
    print_side(alloc, out, b"client", life.client, &mut text)?;
    print_side(alloc, out, b"venue", life.venue, &mut text)?;
    append_end(life.end, &mut text)?;
    put_text(out, &text)
}

/// Puts the last lines, in one put: `entries N` and `next A B C D`, with the next numbers in and
/// out of the client's session and then of the venue's.
///
/// # Errors
/// `OutputFault` only where the sink's count of faults rose in this call; then a front of the lines
/// was put. `NoMemory` for want of memory; then nothing was put.
pub fn put_last<O: Sink>(
    alloc: Global,
    out: &mut O,
    entries: u64,
    next: (u32, u32, u32, u32),
) -> Result<(), PrintError>
    ensures lines { result ≢ Err errors.NoMemory → PutAppends (O.bytes out.old) (O.bytes out.new)
        result (last_lines entries next) }
    ensures nothing { result ≡ Err errors.NoMemory → out.new ≡ out.old }
    ensures cause { result ≢ Err errors.NoMemory →
        HasCause (O.faults out.old) (O.faults out.new) result }
{
    let mut text = Vec::new(alloc);
    append_last(entries, next, &mut text)?;
    put_text(out, &text)
}

/// Puts the lines of a drill, in one put: `drill FIRST COUNT`, `kinds A B C D` with the numbers of
/// orders that were filled, busted, corrected and rejected, `end ` with the name of its life's end,
/// and the last lines as of [`put_last`].
///
/// # Errors
/// As of [`put_last`].
pub fn put_drill<O: Sink>(
    alloc: Global,
    out: &mut O,
    drill: &PlayedDrill<'_>,
) -> Result<(), PrintError>
    ensures lines { result ≢ Err errors.NoMemory → PutAppends (O.bytes out.old) (O.bytes out.new)
        result (drill_lines drill.now.first drill.now.count drill.now.kinds drill.now.end.now
        drill.now.entries drill.now.next) }
    ensures nothing { result ≡ Err errors.NoMemory → out.new ≡ out.old }
    ensures cause { result ≢ Err errors.NoMemory →
        HasCause (O.faults out.old) (O.faults out.new) result }
{
    let mut text = Vec::new(alloc);
    append_summary(drill, &mut text)?;
    put_text(out, &text)
}
