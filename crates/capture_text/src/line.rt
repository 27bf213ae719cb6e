//! The lines of events.

ghost use Rattle.std.specs.Prelude.{◌≡◌, ◌≢◌, ◌↔◌, ◌<◌, ◌≤◌, ◌++◌, codes, IfOk};
ghost use Rattle.std.specs.Prelude.{IfSome, IsNone, IsTrue};
ghost use Rattle.outside.specs.declared.mem_disk.Image.{Image};
ghost use Rattle.frame_grammar.specs.Frame.{IsBody, frame_of};
ghost use Rattle.capture_text.specs.Capture.{written, letter, image_word, kind_of, IsByte, IsRound};
ghost use Rattle.capture_text.specs.Line.{Writes, LineSays};

use crate::Event;
use crate::lines::{BLANK, cut_at};
use crate::number::number;
use frame_grammar::{FrameError, Kind, MAX_BODY, SOH, write_frame};
use order_meaning::{Bytes, Side};
use outside::Image;
use std::alloc::{AllocError, Global};

/// The most bytes of a round.
const MAX_ROUND: usize = 4096;

/// The largest number of a write or sync at which a life stops.
const MAX_STOP: u64 = 1_000_000;

/// The byte that a byte of a line stands for: SOH for `|`, and else itself; none outside 32 to 126.
fn byte_of(byte: u8) -> Option<u8>
    ensures some { IfSome result (λ b. (byte ≡ written b) × IsByte b) }
    ensures none { IsNone result → 32 ≤ byte → 126 < byte }
{
    match byte {
        b'|' => Some(SOH),
        32..=126 => Some(byte),
        _ => None,
    }
}

/// The bytes that a text of a line stands for; none where one of its bytes stands for none.
#[tactic(auto, using(crate::proofs::Written::taken_more))]
fn bytes_of(alloc: Global, text: &[u8]) -> Result<Option<Bytes>, AllocError>
    ensures { IfOk result (Writes text.now) }
{
    let mut bytes = Bytes::new(alloc);
    for byte in text {
        let Some(byte) = byte_of(*byte) else {
            return Ok(None);
        };
        bytes.extend_from_slice(&[byte])?;
    }
    Ok(Some(bytes))
}

/// Whether these bytes are the body of a frame.
fn is_body(body: &[u8]) -> bool
    ensures { IsTrue result ↔ IsBody body.now }
{
    5 <= body.len()
        && body.len() <= MAX_BODY
        && body.starts_with(b"35=")
        && body[3] != SOH
        && body[body.len() - 1] == SOH
}

/// The kind of the frames of a side.
fn kind_of(side: Side) -> Kind
    ensures { result ≡ kind_of side }
{
    match side {
        Side::Client => Kind::Fix42,
        Side::Venue => Kind::Fixt11,
    }
}

/// Whether the frame of this body is a round.
fn is_round_of(alloc: Global, side: Side, body: &[u8]) -> Result<bool, AllocError>
    ensures { IfOk result (λ yes. IsTrue yes ↔
        IsBody body.now × IsRound (frame_of (kind_of side) body.now)) }
{
    if !is_body(body) {
        return Ok(false);
    }
    let mut frame = Vec::new(alloc);
    match write_frame(kind_of(side), body, &mut frame) {
        Ok(()) => Ok(frame.len() <= MAX_ROUND),
        Err(FrameError::TooLong) => Ok(false),
        Err(FrameError::NoMemory) => Err(AllocError),
    }
}

/// What a text of a side says.
#[tactic(auto, using(crate::proofs::EventLines::no_text))]
fn text_of(alloc: Global, side: Side, text: &[u8]) -> Result<Option<Event>, AllocError>
    ensures { IfOk result (LineSays (letter side ++ codes " " ++ text.now)) }
{
    match bytes_of(alloc, text)? {
        Some(bytes) if 1 <= bytes.as_slice().len() && bytes.as_slice().len() <= MAX_ROUND => {
            Ok(Some(Event::Text(side, bytes)))
        }
        _ => Ok(None),
    }
}

/// What a body of a side says.
#[tactic(auto, using(crate::proofs::EventLines::no_frame))]
fn frame_of(alloc: Global, side: Side, text: &[u8]) -> Result<Option<Event>, AllocError>
    ensures { IfOk result (LineSays (letter side ++ codes "f " ++ text.now)) }
{
    let Some(body) = bytes_of(alloc, text)? else {
        return Ok(None);
    };
    if !is_round_of(alloc, side, body.as_slice())? {
        return Ok(None);
    }
    Ok(Some(Event::Frame(side, body)))
}

/// What stands behind the letter of a side.
fn read_behind(alloc: Global, side: Side, behind: &[u8]) -> Result<Option<Event>, AllocError>
    ensures { IfOk result (LineSays (letter side ++ behind.now)) }
{
    match behind {
        b"+" => Ok(Some(Event::Opened(side))),
        b"-" => Ok(Some(Event::Closed(side))),
        [b' ', text @ ..] => text_of(alloc, side, text),
        [b'f', b' ', text @ ..] => frame_of(alloc, side, text),
        _ => Ok(None),
    }
}

/// The image of a word.
fn image_of(word: &[u8]) -> Option<Image>
    ensures some { IfSome result (λ image. word.now ≡ image_word image) }
    ensures none { IsNone result → (image : Image) → word.now ≢ image_word image }
{
    match word {
        b"old" => Some(Image::Old),
        b"new" => Some(Image::New),
        b"torn" => Some(Image::Torn),
        _ => None,
    }
}

/// What stands behind `stop `.
#[tactic(auto, using(crate::proofs::StopLine::what_stops))]
fn stop_of(text: &[u8]) -> Option<Event>
    ensures { LineSays (codes "stop " ++ text.now) result }
{
    let Some((digits, word)) = cut_at(text, BLANK) else {
        return None;
    };
    let Some(call) = number(digits) else {
        return None;
    };
    let Some(image) = image_of(word) else {
        return None;
    };
    if 1 <= call && call <= MAX_STOP {
        Some(Event::Stop(call, image))
    } else {
        None
    }
}

/// The event of a line; none exactly where it is the line of none.
pub(crate) fn read_event(alloc: Global, line: &[u8]) -> Result<Option<Event>, AllocError>
    ensures { IfOk result (LineSays line.now) }
{
    match line {
        b"tick" => Ok(Some(Event::Tick)),
        [b's', b't', b'o', b'p', b' ', text @ ..] => Ok(stop_of(text)),
        [b'a', b't', b' ', digits @ ..] => Ok(number(digits).map(Event::At)),
        [b'c', behind @ ..] => read_behind(alloc, Side::Client, behind),
        [b'v', behind @ ..] => read_behind(alloc, Side::Venue, behind),
        _ => Ok(None),
    }
}
