//! The lines that `check` prints.

ghost use Rattle.std.specs.Prelude.{◌≡◌, ◌==◌, ◌≤◌, ◌++◌, ◌∷◌, [], position, decimal, length, OnOk};
ghost use Rattle.gateway_top.specs.MsgType.{type_in};
ghost use Rattle.gateway_top.specs.Line.{LF, head, tag_words, no_counterpart, finding_words};
ghost use Rattle.gateway_top.specs.Line.{cause_name};
ghost use Rattle.gateway_top.specs.Line.{frame_line, garbled_line, inside_line};

use crate::finding::Finding;
use frame_grammar::{Garble, SOH};
use itoa::{Buffer, write_digits};
use std::alloc::AllocError;

/// The most bytes of what a line begins with: two numbers of 20 digits, nine bytes between them,
/// and one byte behind.
const HEAD: usize = 50;

/// The place of the first SOH.
fn first_soh(bytes: &[u8]) -> Option<usize>
    ensures { result ≡ position (λ byte. byte == SOH) bytes.now }
{
    bytes.iter().position(|byte| *byte == SOH)
}

/// The MsgType of a body: what stands behind `35=`, up to the next SOH.
pub(crate) fn type_in(body: &[u8]) -> &[u8]
    ensures { result.now ≡ type_in body.now }
{
    let behind = &body[body.len().min(3)..];
    match first_soh(behind) {
        Some(end) => &behind[..end],
        None => behind,
    }
}

/// The name of a cause.
fn cause_name(cause: Garble) -> &'static [u8]
    ensures { result.now ≡ cause_name cause }
{
    match cause {
        Garble::BeginString => b"BeginString",
        Garble::LengthField => b"LengthField",
        Garble::TooLong(_) => b"TooLong",
        Garble::TypeField => b"TypeField",
        Garble::Trailer => b"Trailer",
        Garble::Sum => b"Sum",
    }
}

/// Appends a number in decimal digits.
#[inline(always)]
fn append_number(number: u64, out: &mut Vec<u8>) -> Result<(), AllocError>
    ensures { OnOk result (out.new.items ≡ out.old.items ++ decimal number) }
{
    out.extend_from_slice(Buffer::new().format(number).as_bytes())
}

/// Appends what each line begins with, and a byte behind it: the place of a piece, what it is, and
/// its length.
#[inline(always)]
fn append_head(at: u64, what: &[u8], len: u64, end: u8, out: &mut Vec<u8>) -> Result<(), AllocError>
    requires { length what.now ≤ 9 }
    ensures { OnOk result (out.new.items ≡ out.old.items ++ head at what.now len ++ end ∷ []) }
{
    let mut line = [end; HEAD];
    let behind = write_digits(len, &mut line, HEAD - 1);
    let start = behind - what.len();
    line[start..behind].copy_from_slice(what);
    let first = write_digits(at, &mut line, start);
    out.extend_from_slice(&line[first..])
}

/// Appends a text. One byte, as the type of most messages, is put with no call that copies.
#[inline(always)]
fn append_text(text: &[u8], out: &mut Vec<u8>) -> Result<(), AllocError>
    ensures { OnOk result (out.new.items ≡ out.old.items ++ text.now) }
{
    match text {
        [only] => Ok(out.push(*only)?),
        _ => out.extend_from_slice(text),
    }
}

/// Appends the tag at which something is found.
fn append_tag(tag: u32, out: &mut Vec<u8>) -> Result<(), AllocError>
    ensures { OnOk result (out.new.items ≡ out.old.items ++ tag_words tag) }
{
    append_text(b" tag ", out)?;
    append_number(u64::from(tag), out)
}

/// Appends that what stands at a tag has no counterpart, and LF.
#[tactic(auto, unfolding(crate::specs::Line::no_counterpart))]
fn append_no_counterpart(out: &mut Vec<u8>) -> Result<(), AllocError>
    ensures { OnOk result (out.new.items ≡ out.old.items ++ no_counterpart ++ LF ∷ []) }
{
    append_text(b" no counterpart\n", out)
}

/// Appends what is found of a frame, and LF.
fn append_finding(finding: Finding, out: &mut Vec<u8>) -> Result<(), AllocError>
    ensures { OnOk result (out.new.items ≡ out.old.items ++ finding_words finding ++ LF ∷ []) }
{
    match finding {
        Finding::Session => append_text(b" session\n", out),
        Finding::Good => append_text(b" ok\n", out),
        Finding::Reason { tag, reason } => {
            append_tag(tag.unwrap_or(0), out)?;
            append_text(b" reason ", out)?;
            append_number(u64::from(reason), out)?;
            append_text(b"\n", out)
        }
        Finding::NoCounterpart { tag } => {
            append_tag(tag, out)?;
            append_no_counterpart(out)
        }
        Finding::NotSupported => append_text(b" not supported\n", out),
    }
}

/// Appends the line of a frame: its place, its length, its type, and what is found of it.
#[tactic(auto, unfolding(crate::specs::Line::frame_line))]
pub(crate) fn append_frame(
    at: u64,
    len: u64,
    body: &[u8],
    finding: Finding,
    out: &mut Vec<u8>,
) -> Result<(), AllocError>
    ensures { OnOk result (out.new.items ≡ out.old.items ++ frame_line at len body.now finding) }
{
    append_head(at, b" frame ", len, b' ', out)?;
    append_text(type_in(body), out)?;
    append_finding(finding, out)
}

/// Appends the line of a garbled piece: its place, its length and its cause.
#[tactic(auto, unfolding(crate::specs::Line::garbled_line))]
pub(crate) fn append_garbled(
    at: u64,
    len: u64,
    cause: Garble,
    out: &mut Vec<u8>,
) -> Result<(), AllocError>
    ensures { OnOk result (out.new.items ≡ out.old.items ++ garbled_line at len cause) }
{
    append_head(at, b" garbled ", len, b' ', out)?;
    append_text(cause_name(cause), out)?;
    append_text(b"\n", out)
}

/// Appends the line of the input's end inside a frame: where that begins, and how many bytes of it
/// came.
#[tactic(auto, unfolding(crate::specs::Line::inside_line))]
pub(crate) fn append_inside(at: u64, len: u64, out: &mut Vec<u8>) -> Result<(), AllocError>
    ensures { OnOk result (out.new.items ≡ out.old.items ++ inside_line at len) }
{
    append_head(at, b" inside ", len, b'\n', out)
}
