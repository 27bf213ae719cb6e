//! The line of an order or a report, by which it is found.

ghost use Rattle.std.specs.Prelude.{◌≡◌, ◌≤◌, ◌<◌, ◌==◌, ◌++◌, ◌∷◌, [], length, codes};
ghost use Rattle.std.specs.Prelude.{map, OnOk, MatchOption};
ghost use Rattle.std.specs.Prelude.{if◌then◌else◌};
ghost use Rattle.std.specs.List.{position_or_len};
ghost use Rattle.text_tap.specs.OrderLines.{Said, said_by, said_in, first_said, value_of, letter};
ghost use Rattle.text_tap.specs.OrderLines.{is_named, exec_name, report_name, message_name};
ghost use Rattle.text_tap.specs.OrderLines.{id_words, order_words, letter_in, nothing_said};
ghost use Rattle.text_tap.specs.OrderLines.{letter_before, fields_of};

use crate::text::put_shown;
use std::alloc::AllocError;
use std::marker::Model;

/// The byte that ends a field.
const SOH: u8 = 1;

/// What an order or a report says at the tags that its line needs, each the first that is not
/// empty: ClOrdID(11), ExecID(17), ExecTransType(20), ExecType(150) and OrdStatus(39).
#[derive(Debug, Drop)]
struct Values<'a> {
    order: &'a [u8],
    execution: &'a [u8],
    transaction: &'a [u8],
    exec_type: &'a [u8],
    status: &'a [u8],
}

impl<'a> Model for Values<'a> {
    ghost use Rattle.text_tap.specs.OrderLines.{Said};

    ghost Value = { Said };

    ghost view = { λ v. record {
      order = v.order.now;
      execution = v.execution.now;
      transaction = v.transaction.now;
      exec_type = v.exec_type.now;
      status = v.status.now;
    } };
}

/// What a field says, where its tag and `=` are these; else nothing.
fn value_of<'a>(tag: &[u8], field: &'a [u8]) -> &'a [u8]
    ensures { result.now ≡ value_of tag.now field.now }
{
    match field.strip_prefix(tag) {
        Some(value) => value,
        None => &[],
    }
}

/// The first of two values that says something.
fn first_said<'a>(first: &'a [u8], second: &'a [u8]) -> &'a [u8]
    ensures { result.now ≡ first_said first.now second.now }
{
    if first.is_empty() { second } else { first }
}

impl<'a> Values<'a> {
    /// Nothing was said yet.
    fn new() -> Values<'a>
        ensures { result ≡ nothing_said }
    {
        Values {
            order: &[],
            execution: &[],
            transaction: &[],
            exec_type: &[],
            status: &[],
        }
    }

    /// With what one field more says.
    fn with(self, field: &'a [u8]) -> Values<'a>
        ensures { result ≡ said_by self.entry field.now }
    {
        Values {
            order: first_said(self.order, value_of(b"11=", field)),
            execution: first_said(self.execution, value_of(b"17=", field)),
            transaction: first_said(self.transaction, value_of(b"20=", field)),
            exec_type: first_said(self.exec_type, value_of(b"150=", field)),
            status: first_said(self.status, value_of(b"39=", field)),
        }
    }
}

/// The place of the first SOH, or behind the last byte where there is none.
fn soh_at(bytes: &[u8]) -> usize
    ensures value { result ≡ position_or_len (λ byte. byte == 1) bytes.now }
    ensures within { result ≤ length bytes.now }
{
    bytes.iter().take_while(|byte| **byte != SOH).count()
}

/// The first field and what stands behind its SOH; none where no SOH ends it.
#[tactic(auto, using(crate::proofs::Fields::parts_are, crate::proofs::Fields::one))]
fn first_field(bytes: &[u8]) -> Option<(&[u8], &[u8])>
    ensures { MatchOption result (fields_of bytes.now ≡ bytes.now ∷ [])
        (λ parts. (fields_of bytes.now ≡ parts.0.now ∷ fields_of parts.1.now)
        × (length parts.1.now < length bytes.now)) }
{
    let end = soh_at(bytes);
    if end == bytes.len() {
        return None;
    }
    Some((&bytes[..end], &bytes[end + 1..]))
}

/// What the fields of a body or a content say.
fn values_in(bytes: &[u8]) -> Values<'_>
    ensures { result ≡ said_in bytes.now }
{
    let mut values = Values::new();
    let mut rest = bytes;
    while let Some((field, behind)) = first_field(rest) {
        values = values.with(field);
        rest = behind;
    }
    values.with(rest)
}

/// The byte of a value of one byte, and else 0.
pub(crate) fn letter(value: &[u8]) -> u8
    ensures { result ≡ letter value.now }
{
    match value {
        [byte] => *byte,
        _ => 0,
    }
}

/// The type of a body of one letter, and else 0. The body begins with it.
pub(crate) fn letter_in(body: &[u8]) -> u8
    ensures { result ≡ letter_in body.now }
{
    match body.strip_prefix(b"35=") {
        Some(behind) => letter_before(behind),
        None => 0,
    }
}

/// The byte before an SOH at the second place, and else 0.
fn letter_before(bytes: &[u8]) -> u8
    ensures { result ≡ letter_before bytes.now }
{
    if bytes.len() > 1 && bytes[1] == SOH {
        bytes[0]
    } else {
        0
    }
}

/// Whether the messages of a type are orders or reports.
pub(crate) fn is_named(msg_type: u8) -> bool
    ensures { result ≡ is_named msg_type }
{
    msg_type == b'8'
        || msg_type == b'9'
        || msg_type == b'D'
        || msg_type == b'F'
        || msg_type == b'G'
        || msg_type == b'H'
}

/// What a report of an ExecType(150) and an OrdStatus(39) tells.
fn exec_name(exec_type: u8, status: u8) -> &'static [u8]
    ensures { result.now ≡ exec_name exec_type status }
{
    match exec_type {
        b'0' => b"new",
        b'1' => b"partial fill",
        b'2' => b"fill",
        b'3' => b"done for day",
        b'4' => b"canceled",
        b'5' => b"replaced",
        b'6' => b"pending cancel",
        b'7' => b"stopped",
        b'8' => b"rejected",
        b'9' => b"suspended",
        b'A' => b"pending new",
        b'B' => b"calculated",
        b'C' => b"expired",
        b'D' => b"restated",
        b'E' => b"pending replace",
        b'F' if status == b'2' => b"fill",
        b'F' => b"partial fill",
        b'G' => b"correction",
        b'H' => b"bust",
        b'I' => b"status",
        _ => b"report",
    }
}

/// What a report tells: in FIX 4.2 by its ExecTransType(20) first.
fn report_name(values: &Values<'_>) -> &'static [u8]
    ensures { result.now ≡ report_name values.now }
{
    match letter(values.transaction) {
        b'1' => b"bust",
        b'2' => b"correction",
        b'3' => b"status",
        _ => exec_name(letter(values.exec_type), letter(values.status)),
    }
}

/// What an order or a report is called.
fn message_name(msg_type: u8, values: &Values<'_>) -> &'static [u8]
    ensures { result.now ≡ message_name msg_type values.now }
{
    match msg_type {
        b'D' => b"order",
        b'F' => b"cancel",
        b'G' => b"replace",
        b'H' => b"status request",
        b'9' => b"cancel reject",
        _ => report_name(values),
    }
}

/// Appends an identifier behind its tag, where there is one.
fn put_id(lines: &mut Vec<u8>, tag: &[u8], id: &[u8]) -> Result<(), AllocError>
    ensures { OnOk result (lines.new.items ≡ lines.old.items ++ id_words tag.now id.now) }
{
    if id.is_empty() {
        return Ok(());
    }
    lines.extend_from_slice(tag)?;
    put_shown(lines, id)
}

/// Appends what an order or a report is called, and its identifiers.
pub(crate) fn put_order(lines: &mut Vec<u8>, msg_type: u8, bytes: &[u8]) -> Result<(), AllocError>
    ensures { OnOk result (lines.new.items ≡ lines.old.items ++ order_words msg_type bytes.now) }
{
    let values = values_in(bytes);
    lines.extend_from_slice(message_name(msg_type, &values))?;
    put_id(lines, b" 11=", values.order)?;
    put_id(lines, b" 17=", values.execution)?;
    lines.extend_from_slice(b"\n")?;
    Ok(())
}
