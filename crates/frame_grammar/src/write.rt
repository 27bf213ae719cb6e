//! Writing a frame.
ghost use Rattle.std.specs.Prelude.{◌≡◌, ◌↔◌, ◌+◌, ◌<◌, ◌≤◌, ◌++◌, ◌∷◌, [], ℕ, List, decimal};
ghost use Rattle.std.specs.Prelude.{drop, length, take, Err, OnOk, OnErr};
ghost use Rattle.frame_grammar.specs.Frame.{IsWritable, IsFrame, frame_of, opening};
ghost use Rattle.frame_grammar.specs.Found.{Whole, found};

use crate::checksum::trailer_of;
use crate::frame::{MAX_BODY, SOH};
use crate::{FrameError, Kind};
use itoa::write_digits;
use std::alloc::AllocError;

// The most bytes before a body: the longest opening, four digits, SOH.
const FRONT: usize = 18;

// Puts a text into a buffer so that it ends at a place, and answers where it begins.
#[inline(always)]
fn put_before(text: &[u8], buffer: &mut [u8], end: usize) -> usize
    requires room { length text.now ≤ end }
    requires within { end ≤ length buffer.old }
    ensures start { result + length text.now ≡ end }
    ensures put { drop result buffer.new ≡ text.now ++ drop end buffer.old }
{
    let start = end - text.len();
    buffer[start..end].copy_from_slice(text);
    start
}

// The same of the opening of a kind. Each text is known where it is copied.
#[inline(always)]
fn put_opening(kind: Kind, buffer: &mut [u8], end: usize) -> usize
    requires room { 13 ≤ end }
    requires within { end ≤ length buffer.old }
    ensures { drop result buffer.new ≡ opening kind ++ drop end buffer.old }
{
    match kind {
        Kind::Fix42 => put_before(b"8=FIX.4.2\x019=", buffer, end),
        Kind::Fix44 => put_before(b"8=FIX.4.4\x019=", buffer, end),
        Kind::Fixt11 => put_before(b"8=FIXT.1.1\x019=", buffer, end),
    }
}

// Appends what stands before a body of this length, in one piece.
#[inline(always)]
fn append_front(kind: Kind, len: usize, out: &mut Vec<u8>) -> Result<(), AllocError>
    requires { len ≤ MAX_BODY }
    ensures ok { OnOk result (out.new.items ≡
        out.old.items ++ opening kind ++ decimal len ++ SOH ∷ []) }
    ensures err { OnErr result (out.new.items ≡ out.old.items) }
{
    let mut front = [SOH; FRONT];
    let digits = write_digits(len as u64, &mut front, FRONT - 1);
    let start = put_opening(kind, &mut front, digits);
    out.extend_from_slice(&front[start..])
}

// Appends the frame of a body. It leaves what was there at the front.
fn append(kind: Kind, body: &[u8], out: &mut Vec<u8>) -> Result<(), AllocError>
    requires { length body.now ≤ MAX_BODY }
    ensures ok { OnOk result (out.new.items ≡ out.old.items ++ frame_of kind body.now) }
    ensures kept { take (length out.old.items) out.new.items ≡ out.old.items }
{
    let start = out.len();
    append_front(kind, body.len(), out)?;
    out.extend_from_slice(body)?;
    let last = trailer_of(&out[start..]);
    out.extend_from_slice(&last)
}

/// Appends the frame of a body ("Message Format"): BeginString(8), BodyLength(9) without zeros in
/// front, the body, and CheckSum(10). The body begins with MsgType(35) and ends with SOH.
///
/// # Errors
///
/// `TooLong` exactly where the body has more than 8,192 bytes; `NoMemory` without memory for the
/// frame, which has at most 8,219 bytes. After an error `out` is as before.
pub fn write_frame(kind: Kind, body: &[u8], out: &mut Vec<u8>) -> Result<(), FrameError>
    requires { IsWritable body.now }
    ensures ok { OnOk result (out.new.items ≡ out.old.items ++ frame_of kind body.now) }
    ensures frame { OnOk result (IsFrame kind body.now (frame_of kind body.now)) }
    // It is read again, whatever follows it.
    ensures found { OnOk result ((after : List ℕ) →
        found kind (frame_of kind body.now ++ after) ≡ Whole body.now after) }
    ensures too_long { (result ≡ Err FrameError.TooLong) ↔ (MAX_BODY < length body.now) }
    ensures err { OnErr result (out.new.items ≡ out.old.items) }
{
    if body.len() > MAX_BODY {
        return Err(FrameError::TooLong);
    }
    let start = out.len();
    if append(kind, body, out).is_err() {
        out.truncate(start);
        return Err(FrameError::NoMemory);
    }
    Ok(())
}
