//! Streams of FIX 4.2 and their pieces.

ghost use Rattle.std.specs.Prelude.{IsTrue};
ghost use Rattle.frame_grammar.specs.Frame.{IsWritable};

use crate::texts::tell;
use frame_grammar::{Framer, Garble, Kind, Next, Rest, SOH, write_frame};
use row_words::show;
use std::alloc::{AllocError, Global};

/// Pieces one behind the other that are alike: the place of the first, the length of each, the
/// cause if they are garbled, and how many they are.
#[derive(Clone, Copy)]
struct Run {
    at: u64,
    len: u64,
    cause: Option<Garble>,
    count: u64,
}

/// A piece alone.
fn run_of(piece: Next) -> Option<Run> {
    let (at, len, cause) = match piece {
        Next::Frame { at, len, body: _ } => (at, u64::from(len), None),
        Next::Garbled { at, len, cause } => (at, len, Some(cause)),
        Next::More => return None,
    };
    Some(Run {
        at,
        len,
        cause,
        count: 1,
    })
}

/// Whether a piece goes on with a run.
fn goes_on(run: &Run, piece: &Run) -> bool {
    run.len == piece.len
        && run.cause == piece.cause
        && run.at.wrapping_add(run.len.wrapping_mul(run.count)) == piece.at
}

/// Adds a piece to runs.
fn push(runs: &mut Vec<Run>, piece: Run) -> Result<(), AllocError> {
    if let Some(run) = runs.last_mut() {
        if goes_on(run, &piece) {
            run.count = run.count.saturating_add(1);
            return Ok(());
        }
    }
    runs.push(piece)?;
    Ok(())
}

/// Takes the pieces of a framer, which are so many at most.
fn drain(framer: &mut Framer, most: usize, runs: &mut Vec<Run>) -> Result<(), AllocError> {
    for _ in 0..most {
        match run_of(framer.next()) {
            Some(piece) => push(runs, piece)?,
            None => break,
        }
    }
    Ok(())
}

/// Appends the pieces of a stream that comes in parts of this length to `runs`. It says how the
/// stream ends.
fn cut(alloc: Global, stream: &[u8], part: usize, runs: &mut Vec<Run>) -> Result<Rest, AllocError> {
    let mut framer = Framer::new(alloc, Kind::Fix42)?;
    for bytes in stream.chunks(part.max(1)) {
        framer.feed(bytes);
        drain(&mut framer, bytes.len().saturating_add(1), runs)?;
    }
    Ok(framer.finish())
}

/// Appends a run.
fn show_run(out: &mut String, run: &Run) -> Result<(), AllocError> {
    let Run { at, len, count, .. } = *run;
    match run.cause {
        Some(cause) => write!(out, "[{at} {len} {cause:?} {count}] "),
        None => write!(out, "[{at} {len} Frame {count}] "),
    }
}

/// The pieces of a stream that comes in parts of this length, and how it ends.
fn pieces(alloc: Global, stream: &[u8], part: usize) -> Result<String, AllocError> {
    let mut runs = Vec::new(alloc);
    let rest = cut(alloc, stream, part, &mut runs)?;
    let mut out = String::new(alloc);
    for run in &runs {
        show_run(&mut out, run)?;
    }
    write!(out, "{rest:?}")?;
    Ok(out)
}

/// The parts in which each stream comes.
const PARTS: [usize; 4] = [1, 2, 7, 4096];

/// The pieces of a stream, which are the same whatever the parts in which it comes.
fn framer(out: &mut String, alloc: Global, given: &[u8]) -> Result<(), AllocError> {
    let once = pieces(alloc, given, 5)?;
    out.push_str(once.as_str())?;
    for part in PARTS {
        if pieces(alloc, given, part)?.as_str() != once.as_str() {
            write!(out, ", other pieces in parts of {part}")?;
        }
    }
    Ok(())
}

/// The body of the frame that a stream begins with.
fn part(out: &mut String, alloc: Global, given: &[u8]) -> Result<(), AllocError> {
    let mut framer = Framer::new(alloc, Kind::Fix42)?;
    framer.feed(given);
    match framer.next() {
        Next::Frame { body, .. } => show(out, framer.part(body)),
        _ => Ok(()),
    }
}

/// Whether a frame of these bytes can be written.
fn is_writable(body: &[u8]) -> bool
    ensures { IsTrue result → IsWritable body.now }
{
    match body {
        [b'3', b'5', b'=', first, .., last] => *first != SOH && *last == SOH,
        _ => false,
    }
}

/// The frame of a body.
fn frame(out: &mut String, alloc: Global, given: &[u8]) -> Result<(), AllocError> {
    if !is_writable(given) {
        return Ok(());
    }
    let mut bytes = Vec::new(alloc);
    if let Err(error) = write_frame(Kind::Fix42, given, &mut bytes) {
        write!(out, "{error:?}")?;
    }
    show(out, &bytes)
}

/// How many of these bytes, fed one by one, make no piece whole.
fn waiting(framer: &mut Framer, bytes: &[u8]) -> u32 {
    let mut waiting = 0u32;
    for byte in bytes.chunks(1) {
        framer.feed(byte);
        if framer.next() == Next::More {
            waiting = waiting.saturating_add(1);
        }
    }
    waiting
}

/// The same of a stream, and how it ends.
fn byte_by_byte(out: &mut String, alloc: Global, given: &[u8]) -> Result<(), AllocError> {
    let mut framer = Framer::new(alloc, Kind::Fix42)?;
    let waiting = waiting(&mut framer, given);
    write!(out, "{waiting} {:?}", framer.finish())
}

/// The place and the length of the frame that comes next.
fn next_frame(framer: &mut Framer) -> Option<(u64, u32)> {
    match framer.next() {
        Next::Frame { at, len, body: _ } => Some((at, len)),
        _ => None,
    }
}

/// The frame that comes in a stream of FIXT 1.1 behind garbage, and then alone once the framer has
/// begun again, with how it ended in between.
fn restarted(out: &mut String, alloc: Global, given: &[u8]) -> Result<(), AllocError> {
    let mut framer = Framer::new(alloc, Kind::Fixt11)?;
    framer.feed(b"garbage");
    tell(out, &next_frame(&mut framer))?;
    framer.restart();
    write!(out, " {:?} ", framer.finish())?;
    framer.feed(given);
    tell(out, &next_frame(&mut framer))
}

/// Appends the answer to a call of this crate.
pub(crate) fn answer(
    out: &mut String,
    alloc: Global,
    call: &str,
    given: &[u8],
) -> Result<(), AllocError> {
    match call {
        "Framer" => framer(out, alloc, given),
        "Framer::part" => part(out, alloc, given),
        "Framer::feed" => byte_by_byte(out, alloc, given),
        "Framer::restart" => restarted(out, alloc, given),
        "write_frame" => frame(out, alloc, given),
        _ => Ok(()),
    }
}
