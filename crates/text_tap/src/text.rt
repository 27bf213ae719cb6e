//! The lines of an entry that have a text, an order or a report.

ghost use Rattle.std.specs.Prelude.{◌≡◌, ◌++◌, map, codes, OnOk};
ghost use Rattle.std.specs.List.{flat_map};
ghost use Rattle.std.specs.Option.{option_to_list};
ghost use Rattle.entry_lines.specs.EntryLine.{side_name};
ghost use Rattle.text_tap.specs.Shown.{shown};
ghost use Rattle.text_tap.specs.OrderLines.{order_words};
ghost use Rattle.text_tap.specs.TextLines.{is_told, is_told_body, took_line, out_line};
ghost use Rattle.text_tap.specs.TextLines.{place_words, text_lines};

use crate::orders::{is_named, letter, letter_in, put_order};
use itoa::Buffer;
use order_meaning::Side;
use pair_entries::{Entry, Out, Took};
use std::alloc::AllocError;

/// The byte that ends a field.
const SOH: u8 = 1;

/// Whether the messages of a type have a text for the operator: Reject(3), Logout(5) and
/// BusinessMessageReject(j).
fn is_told(msg_type: &[u8]) -> bool
    ensures { result ≡ is_told msg_type.now }
{
    msg_type == b"3".as_slice() || msg_type == b"5".as_slice() || msg_type == b"j".as_slice()
}

/// The same of a body.
fn is_told_body(raw: &[u8]) -> bool
    ensures { result ≡ is_told_body raw.now }
{
    raw.starts_with(b"35=3\x01") || raw.starts_with(b"35=5\x01") || raw.starts_with(b"35=j\x01")
}

/// A byte as it is shown: `|` for SOH, and `?` for what is not from a blank to `~`.
fn shown(byte: u8) -> u8
    ensures { result ≡ shown byte }
{
    match byte {
        SOH => b'|',
        32..=126 => byte,
        _ => b'?',
    }
}

/// Appends bytes as they are shown.
pub(crate) fn put_shown(lines: &mut Vec<u8>, bytes: &[u8]) -> Result<(), AllocError>
    ensures { OnOk result (lines.new.items ≡ lines.old.items ++ map shown bytes.now) }
{
    for byte in bytes {
        lines.push(shown(*byte))?;
    }
    Ok(())
}

fn side_name(side: Side) -> &'static [u8]
    ensures { result.now ≡ side_name side }
{
    match side {
        Side::Client => b"client",
        Side::Venue => b"venue",
    }
}

/// Appends the side and the number of a message.
fn put_place(lines: &mut Vec<u8>, side: Side, number: u32) -> Result<(), AllocError>
    ensures { OnOk result (lines.new.items ≡ lines.old.items ++ place_words side number) }
{
    lines.extend_from_slice(side_name(side))?;
    lines.extend_from_slice(b":")?;
    lines.extend_from_slice(Buffer::new().format(number).as_bytes())?;
    Ok(())
}

/// Appends the line of a message that was taken, if it has one.
fn put_took(lines: &mut Vec<u8>, took: &Took) -> Result<(), AllocError>
    ensures { OnOk result (lines.new.items ≡ lines.old.items ++ took_line took.now) }
{
    let raw = took.raw.as_slice();
    if is_told_body(raw) {
        put_place(lines, took.side, took.number)?;
        lines.extend_from_slice(b" taken ")?;
        put_shown(lines, raw)?;
        lines.extend_from_slice(b"\n")?;
        return Ok(());
    }
    let msg_type = letter_in(raw);
    if !is_named(msg_type) {
        return Ok(());
    }
    put_place(lines, took.side, took.number)?;
    lines.extend_from_slice(b" taken ")?;
    put_order(lines, msg_type, raw)
}

/// Appends the text of a message that was given out.
fn put_said(lines: &mut Vec<u8>, out: &Out) -> Result<(), AllocError>
    ensures { OnOk result (lines.new.items ≡ lines.old.items
        ++ (place_words out.now.side out.now.number ++ codes " said 35=" ++ out.now.msg_type
        ++ codes "|" ++ map shown out.now.content ++ codes "\n")) }
{
    put_place(lines, out.side, out.number)?;
    lines.extend_from_slice(b" said 35=")?;
    lines.extend_from_slice(out.msg_type.as_slice())?;
    lines.extend_from_slice(b"|")?;
    put_shown(lines, out.content.as_slice())?;
    lines.extend_from_slice(b"\n")?;
    Ok(())
}

/// Appends the line of a message that was given out, if it has one.
fn put_out(lines: &mut Vec<u8>, out: &Out) -> Result<(), AllocError>
    ensures { OnOk result (lines.new.items ≡ lines.old.items ++ out_line out.now) }
{
    if is_told(out.msg_type.as_slice()) {
        return put_said(lines, out);
    }
    let msg_type = letter(out.msg_type.as_slice());
    if !is_named(msg_type) {
        return Ok(());
    }
    put_place(lines, out.side, out.number)?;
    lines.extend_from_slice(b" said ")?;
    put_order(lines, msg_type, out.content.as_slice())
}

/// Appends the lines of messages that were given out.
fn put_outs(lines: &mut Vec<u8>, outs: &[Out]) -> Result<(), AllocError>
    ensures { OnOk result (lines.new.items
        ≡ lines.old.items ++ flat_map (λ out. out_line out) outs.now) }
{
    match outs {
        [] => Ok(()),
        [out, rest @ ..] => {
            put_out(lines, out)?;
            put_outs(lines, rest)
        }
    }
}

/// Appends the lines of an entry.
pub(crate) fn put_text_lines(lines: &mut Vec<u8>, entry: &Entry) -> Result<(), AllocError>
    ensures { OnOk result (lines.new.items ≡ lines.old.items ++ text_lines entry.now) }
{
    if let Some(took) = &entry.took {
        put_took(lines, took)?;
    }
    put_outs(lines, entry.outs.as_slice())
}
