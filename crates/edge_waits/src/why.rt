//! Why a connection ended before a session stood, as a text.

ghost use Rattle.std.specs.Prelude.{◌≡◌, ◌++◌, map, take, decimal, IfOk, OnOk, OnErr};
ghost use Rattle.std.specs.Option.{option_map};
ghost use Rattle.edge_waits.specs.Fields.{value_in};
ghost use Rattle.edge_waits.specs.Why.{shown, named_text, shown_field, off_by, has_number};
ghost use Rattle.edge_waits.specs.Why.{is_fixt, read_moment, wrong_of, wrong_by, words_of};
ghost use Rattle.edge_waits.specs.Why.{seconds_of, seconds_text};
ghost use Rattle.edge_waits.specs.Why.{wrong_text, is_logon, is_new_logon, fault_text, told_text};
ghost use Rattle.edge_waits.specs.Why.{message_text, why_text, came_text, closing_text};

use crate::fields::value_of;
use crate::lobby::{Stranger, stranger_text};
use itoa::Buffer;
use std::alloc::{AllocError, Global};
use typed_fields::{FieldFault, Number, Stamp};

/// A value is shown up to so many bytes.
const SHOWN: usize = 256;

/// The greatest MsgSeqNum(34).
const MAX_NUMBER: u32 = 999_999_999;

/// How far SendingTime(52) may be off where the configuration does not say it, in seconds.
const WINDOW: u128 = 120;

/// What is wrong in a Logon that the gateway answered by a hang up alone.
#[derive(Clone, Copy, Debug, PartialEq, Eq)]
enum Wrong {
    /// MsgSeqNum(34).
    Number,
    /// The form of SendingTime(52).
    Stamp,
    /// SendingTime(52) is so many seconds off.
    Clock(u128),
    /// SenderCompID(49) or TargetCompID(56), or SendingTime(52), which is so many seconds off.
    NameOrClock(u128),
    /// SenderCompID(49) or TargetCompID(56).
    Name,
}

// A byte as it is shown.
fn shown(byte: u8) -> u8
    ensures { result ≡ shown byte }
{
    match byte {
        32..=126 => byte,
        _ => b'?',
    }
}

// The front of a text that is shown.
#[tactic(auto, using(crate::proofs::Parts::front_is))]
fn front(text: &[u8]) -> &[u8]
    ensures { result.now ≡ take 256 text.now }
{
    let count = text.len().min(SHOWN);
    &text[..count]
}

// Appends a text as it is shown.
fn put_shown(out: &mut Vec<u8>, text: &[u8]) -> Result<(), AllocError>
    ensures { OnOk result (out.new.items ≡ out.old.items ++ map shown text.now) }
{
    for byte in text {
        out.push(shown(*byte))?;
    }
    Ok(())
}

// Appends the front of a text as it is shown, behind its name.
fn put_named(out: &mut Vec<u8>, name: &[u8], text: &[u8]) -> Result<(), AllocError>
    ensures { OnOk result (out.new.items ≡ out.old.items ++ named_text name.now text.now) }
{
    out.extend_from_slice(name)?;
    put_shown(out, front(text))
}

// Appends a field as it is shown, where it came.
fn put_field(out: &mut Vec<u8>, name: &[u8], heard: &[u8]) -> Result<(), AllocError>
    ensures { OnOk result (out.new.items
        ≡ out.old.items ++ shown_field name.now (value_in name.now heard.now)) }
{
    if let Some(value) = value_of(name, heard) {
        out.extend_from_slice(b" ")?;
        put_named(out, name, value)?;
    }
    Ok(())
}

fn put_number(out: &mut Vec<u8>, number: u128) -> Result<(), AllocError>
    ensures { OnOk result (out.new.items ≡ out.old.items ++ decimal number) }
{
    out.extend_from_slice(Buffer::new().format(number).as_bytes())?;
    Ok(())
}

// Whether there is a MsgSeqNum(34).
fn has_number(value: Option<&[u8]>) -> bool
    ensures { result ≡ has_number (option_map (λ value. value.now) value.entry) }
{
    match value {
        Some(value) => match Number::read(value) {
            Ok(number) => 1 <= number.value && number.value <= MAX_NUMBER,
            Err(_) => false,
        },
        None => false,
    }
}

// By how many whole seconds a stamp is off.
fn off_by(now: u64, stamp: &Stamp) -> u128
    ensures { result ≡ off_by now stamp.now }
{
    let millis = (i128::from(now) - i128::from(stamp.millis())).unsigned_abs();
    millis / 1_000
}

// What is wrong where the time is so many seconds off.
fn wrong_by(seconds: u128) -> Wrong
    ensures { result ≡ wrong_by seconds }
{
    if seconds >= WINDOW {
        Wrong::Clock(seconds)
    } else if seconds >= 1 {
        Wrong::NameOrClock(seconds)
    } else {
        Wrong::Name
    }
}

// Whether a message of this version may have moments in the fine form.
fn is_fixt(version: Option<&[u8]>) -> bool
    ensures { result ≡ is_fixt (option_map (λ value. value.now) version.entry) }
{
    match version {
        Some(version) => version == b"FIXT.1.1".as_slice(),
        None => false,
    }
}

// A moment, in the fine form or not.
fn read_moment(fixt: bool, value: &[u8]) -> Result<Stamp, FieldFault>
    ensures { result ≡ read_moment fixt value.now }
{
    if fixt {
        Stamp::read_fine(value)
    } else {
        Stamp::read(value)
    }
}

// What is wrong in a Logon with these values.
fn wrong_of(fixt: bool, number: Option<&[u8]>, time: Option<&[u8]>, now: u64) -> Wrong
    ensures { result ≡ wrong_of fixt (option_map (λ value. value.now) number.entry)
        (option_map (λ value. value.now) time.entry) now }
{
    if !has_number(number) {
        return Wrong::Number;
    }
    match time {
        Some(time) => match read_moment(fixt, time) {
            Ok(stamp) => wrong_by(off_by(now, &stamp)),
            Err(_) => Wrong::Stamp,
        },
        None => Wrong::Stamp,
    }
}

// What is said of it, before the seconds.
fn words_of(wrong: Wrong) -> &'static [u8]
    ensures { result.now ≡ words_of wrong }
{
    match wrong {
        Wrong::Number => b"; 34 is missing or no number",
        Wrong::Stamp => b"; 52 is no UTC time in seconds or milliseconds",
        Wrong::Clock(_) => b"; 52 is off by ",
        Wrong::NameOrClock(_) => b"; 49 or 56 is not as agreed, or 52 is off by ",
        Wrong::Name => b"; 49 or 56 is not as agreed",
    }
}

// The seconds.
fn seconds_of(wrong: Wrong) -> Option<u128>
    ensures { result ≡ seconds_of wrong }
{
    match wrong {
        Wrong::Clock(seconds) => Some(seconds),
        Wrong::NameOrClock(seconds) => Some(seconds),
        _ => None,
    }
}

// Appends the seconds.
fn put_seconds(out: &mut Vec<u8>, seconds: Option<u128>) -> Result<(), AllocError>
    ensures { OnOk result (out.new.items ≡ out.old.items ++ seconds_text seconds) }
{
    if let Some(seconds) = seconds {
        put_number(out, seconds)?;
        out.extend_from_slice(b" s")?;
    }
    Ok(())
}

// Appends what is wrong.
fn put_wrong(out: &mut Vec<u8>, wrong: Wrong) -> Result<(), AllocError>
    ensures { OnOk result (out.new.items ≡ out.old.items ++ wrong_text wrong) }
{
    out.extend_from_slice(words_of(wrong))?;
    put_seconds(out, seconds_of(wrong))
}

/// Whether a message of this type is a Logon.
pub(crate) fn is_logon(kind: Option<&[u8]>) -> bool
    ensures { result ≡ is_logon (option_map (λ kind. kind.now) kind.entry) }
{
    match kind {
        Some(b"A") => true,
        _ => false,
    }
}

// Whether a Logon came that is no repeat.
fn is_new_logon(heard: &[u8]) -> bool
    ensures { result ≡ is_new_logon heard.now }
{
    is_logon(value_of(b"35=", heard)) && value_of(b"43=", heard).is_none()
}

// Appends what is wrong in what came, where that is a Logon that is no repeat.
fn put_fault(out: &mut Vec<u8>, heard: &[u8], now: u64) -> Result<(), AllocError>
    ensures { OnOk result (out.new.items ≡ out.old.items ++ fault_text heard.now now) }
{
    if !is_new_logon(heard) {
        return Ok(());
    }
    put_field(out, b"49=", heard)?;
    put_field(out, b"56=", heard)?;
    put_field(out, b"52=", heard)?;
    let fixt = is_fixt(value_of(b"8=", heard));
    let number = value_of(b"34=", heard);
    let time = value_of(b"52=", heard);
    put_wrong(out, wrong_of(fixt, number, time, now))
}

// Appends what the gateway said by a Logout, or what is wrong where it said none.
fn put_told(
    out: &mut Vec<u8>,
    heard: &[u8],
    farewell: Option<&[u8]>,
    now: u64,
) -> Result<(), AllocError>
    ensures { OnOk result (out.new.items ≡ out.old.items
        ++ told_text heard.now (option_map (λ text. text.now) farewell.entry) now) }
{
    match farewell {
        Some(text) => put_named(out, b"; it was told Logout ", text),
        None => put_fault(out, heard, now),
    }
}

// Appends the first message that came, by its fields.
fn put_message(out: &mut Vec<u8>, heard: &[u8]) -> Result<(), AllocError>
    ensures { OnOk result (out.new.items ≡ out.old.items ++ message_text heard.now) }
{
    put_field(out, b"35=", heard)?;
    put_field(out, b"34=", heard)?;
    put_field(out, b"43=", heard)?;
    put_field(out, b"58=", heard)
}

// Why a connection ended on which this came, and this was said last by a Logout.
fn why_text(
    alloc: Global,
    heard: &[u8],
    farewell: Option<&[u8]>,
    now: u64,
) -> Result<Vec<u8>, AllocError>
    ensures { IfOk result (λ text. text.items
        ≡ why_text heard.now (option_map (λ text. text.now) farewell.entry) now) }
{
    let mut text = Vec::new(alloc);
    if value_of(b"35=", heard).is_none() {
        text.extend_from_slice(b"no message came")?;
        return Ok(text);
    }
    text.extend_from_slice(b"it sent")?;
    put_message(&mut text, heard)?;
    put_told(&mut text, heard, farewell, now)?;
    Ok(text)
}

/// Appends why a connection ended before a session stood: what came on it, by the fields of the
/// first message, and what the gateway said to it by a Logout, or which field was wrong. `now` is
/// the moment, in milliseconds since 1970-01-01 00:00 UTC.
///
/// # Errors
/// For want of memory alone; then nothing is appended.
pub(crate) fn put_why(
    out: &mut Vec<u8>,
    heard: &[u8],
    farewell: Option<&[u8]>,
    now: u64,
) -> Result<(), AllocError>
    ensures ok { OnOk result (out.new.items ≡ out.old.items
        ++ why_text heard.now (option_map (λ text. text.now) farewell.entry) now) }
    ensures err { OnErr result (out.new.items ≡ out.old.items) }
{
    let text = why_text(*out.allocator(), heard, farewell, now)?;
    out.extend_from_slice(&text)?;
    Ok(())
}

// Appends the first message that came, with its BeginString(8), where its type came.
fn put_came(out: &mut Vec<u8>, heard: &[u8]) -> Result<(), AllocError>
    ensures { OnOk result (out.new.items ≡ out.old.items ++ came_text heard.now) }
{
    if value_of(b"35=", heard).is_none() {
        return Ok(());
    }
    out.extend_from_slice(b"; it sent")?;
    put_field(out, b"8=", heard)?;
    put_message(out, heard)
}

// Why a connection is closed that is no client's, and what came on it.
fn closing_text(alloc: Global, stranger: Stranger, heard: &[u8]) -> Result<Vec<u8>, AllocError>
    ensures { IfOk result (λ text. text.items ≡ closing_text stranger heard.now) }
{
    let mut text = Vec::new(alloc);
    text.extend_from_slice(stranger_text(stranger))?;
    put_came(&mut text, heard)?;
    Ok(text)
}

/// Appends why a connection is closed that is no client's, and the first message that came on it.
///
/// # Errors
/// For want of memory alone; then nothing is appended.
pub fn put_closing(out: &mut Vec<u8>, stranger: Stranger, heard: &[u8]) -> Result<(), AllocError>
    ensures ok { OnOk result (out.new.items ≡ out.old.items ++ closing_text stranger heard.now) }
    ensures err { OnErr result (out.new.items ≡ out.old.items) }
{
    let text = closing_text(*out.allocator(), stranger, heard)?;
    out.extend_from_slice(&text)?;
    Ok(())
}
