//! The scan of what stands at the front of the unread bytes: rule by rule, as `Found` defines it.
ghost use Rattle.std.specs.List.{list_any};
ghost use Rattle.std.specs.Str.{bytes_eq};
ghost use Rattle.std.specs.Prelude.{◌==◌, ◌≡◌, ◌+◌, ◌≤◌, ◌++◌, ◌∷◌, [], List, ℕ, length, take};
ghost use Rattle.std.specs.Prelude.{drop, if◌then◌else◌, true, codes, IfSome, OnOk, Ok};
ghost use Rattle.frame_grammar.specs.Found.{Found, Whole, found, expect, expect_sum, found_body};
ghost use Rattle.frame_grammar.specs.Found.{found_said, found_trailer};
ghost use Rattle.frame_grammar.specs.Frame.{begin_string, three_digits};
ghost use Rattle.frame_grammar.specs.Scan.{Leads, ReadsLength, IsFound, IsWord};

use crate::buffer::{Buffer, CAPACITY};
use crate::checksum::begin_string_of;
use crate::frame::{MAX_BODY, MAX_LENGTH_DIGITS, MIN_BODY, SOH};
use crate::{Garble, Kind, Span};

/// Why no whole frame stands at the front of a text.
#[derive(Clone, Copy)]
pub(crate) enum Stop {
    /// More bytes are awaited.
    More,
    /// This rule is broken.
    Garbled(Garble),
}

/// A frame at the front of a text: its body, and the place after it.
#[derive(Clone, Copy)]
pub(crate) struct Front {
    pub(crate) body: Span,
    pub(crate) end: usize,
}

/// BodyLength(9) as it was read: how many digits, and what they say.
#[derive(Clone, Copy)]
pub(crate) struct Length {
    pub(crate) digits: usize,
    pub(crate) said: u32,
}

/// The frame at the front of the unread bytes.
///
/// # Errors
///
/// `More` where they are less than a frame, and the first broken rule where no frame goes on from
/// them.
pub(crate) fn scan_front(kind: Kind, buffer: &Buffer) -> Result<Front, Stop>
    ensures { IsFound result buffer.now.unread (found kind buffer.now.unread) }
{
    let bytes = buffer.unread();
    expect_begin(kind, bytes)?;
    let tag = begin_string_of(kind).len();
    expect_text(b"9=", &bytes[tag..], Garble::LengthField)?;
    let start = tag + 2;
    let field = read_length(&bytes[start..])?;
    scan_said(buffer, start, field)
}

// The BeginString of a kind has to come. Each kind is compared by itself, as a text of known
// length.
#[inline(always)]
fn expect_begin(kind: Kind, bytes: &[u8]) -> Result<(), Stop>
    ensures leads { (go : List ℕ → Found) → Leads result
        (expect (begin_string kind) Garble.BeginString go bytes.now)
        (go (drop (length (begin_string kind)) bytes.now)) }
    ensures came { OnOk result
        (take (length (begin_string kind)) bytes.now ≡ begin_string kind) }
{
    match kind {
        Kind::Fix42 => expect_text(begin_string_of(Kind::Fix42), bytes, Garble::BeginString),
        Kind::Fix44 => expect_text(begin_string_of(Kind::Fix44), bytes, Garble::BeginString),
        Kind::Fixt11 => expect_text(begin_string_of(Kind::Fixt11), bytes, Garble::BeginString),
    }
}

// BodyLength has ended, and is judged.
fn scan_said(buffer: &Buffer, start: usize, field: Length) -> Result<Front, Stop>
    requires digits { ReadsLength (Ok field) (drop start buffer.now.unread) }
    requires start { start ≤ length buffer.now.unread }
    requires most { length buffer.now.unread ≤ CAPACITY }
    ensures { IsFound result buffer.now.unread (found_said (take start buffer.now.unread)
        (take field.digits (drop start buffer.now.unread)) field.said
        (drop (field.digits + 1) (drop start buffer.now.unread))) }
{
    let said = field.said as usize;
    if field.digits == 0 {
        return Err(Stop::Garbled(Garble::LengthField));
    }
    if said > MAX_BODY {
        return Err(Stop::Garbled(Garble::TooLong(field.said)));
    }
    // A shorter body holds no type.
    if said < MIN_BODY {
        return Err(Stop::Garbled(Garble::TypeField));
    }
    scan_body(buffer, start + field.digits + 1, said)
}

// A body of this length behind the first unread bytes, and its trailer.
fn scan_body(buffer: &Buffer, start: usize, said: usize) -> Result<Front, Stop>
    requires start { start ≤ length buffer.now.unread }
    requires least { MIN_BODY ≤ said }
    requires most { said ≤ MAX_BODY }
    ensures { IsFound result buffer.now.unread
        (found_body (take start buffer.now.unread) said (drop start buffer.now.unread)) }
{
    let rest = &buffer.unread()[start..];
    expect_text(b"35=", rest, Garble::TypeField)?;
    if rest.len() < 4 {
        return Err(Stop::More);
    }
    if rest[3] == SOH {
        return Err(Stop::Garbled(Garble::TypeField));
    }
    if rest.len() < said {
        return Err(Stop::More);
    }
    if rest[said - 1] != SOH {
        return Err(Stop::Garbled(open_body(&rest[4..said])));
    }
    scan_trailer(buffer, start + said)?;
    Ok(Front {
        body: Span { start, len: said },
        end: start + said + 7,
    })
}

// The rule that the last byte of a body breaks that is no SOH: the type's where no SOH ended that.
fn open_body(behind: &[u8]) -> Garble
    ensures { result ≡
        (if list_any (λ b. b == SOH) behind.now then Garble.Trailer else Garble.TypeField) }
{
    if behind.contains(&SOH) {
        Garble::Trailer
    } else {
        Garble::TypeField
    }
}

// The trailer behind the first unread bytes.
fn scan_trailer(buffer: &Buffer, end: usize) -> Result<(), Stop>
    requires within { end ≤ length buffer.now.unread }
    ensures leads { (before body : List ℕ) → before ++ body ≡ take end buffer.now.unread →
        Leads result (found_trailer before body (drop end buffer.now.unread))
        (Whole body (drop (end + 7) buffer.now.unread)) }
    ensures came { OnOk result (end + 7 ≤ length buffer.now.unread) }
{
    let behind = &buffer.unread()[end..];
    if is_trailer(buffer.sum(end), behind) {
        return Ok(());
    }
    other_trailer(buffer, end)
}

// Whether the trailer of this sum comes, as most do.
#[inline(always)]
fn is_trailer(total: u8, bytes: &[u8]) -> bool
    ensures comes { result ≡ true →
        take 7 bytes.now ≡ codes "10=" ++ three_digits total ++ SOH ∷ [] }
    ensures within { result ≡ true → 7 ≤ length bytes.now }
{
    if bytes.len() < 7 || bytes[6] != SOH {
        return false;
    }
    if bytes[0] != b'1' || bytes[1] != b'0' || bytes[2] != b'=' {
        return false;
    }
    are_digits_of(total, bytes[3], bytes[4], bytes[5])
}

// Whether three bytes are the digits of this number.
#[inline(always)]
fn are_digits_of(total: u8, first: u8, second: u8, third: u8) -> bool
    ensures { result ≡ true → first ∷ second ∷ third ∷ [] ≡ three_digits total }
{
    if !first.is_ascii_digit() || !second.is_ascii_digit() || !third.is_ascii_digit() {
        return false;
    }
    let tens = 10 * (first as u32 - 48) + (second as u32 - 48);
    10 * tens + (third as u32 - 48) == total as u32
}

// The trailer behind the first unread bytes, where it is looked at byte by byte.
#[inline(never)]
fn other_trailer(buffer: &Buffer, end: usize) -> Result<(), Stop>
    requires within { end ≤ length buffer.now.unread }
    ensures leads { (before body : List ℕ) → before ++ body ≡ take end buffer.now.unread →
        Leads result (found_trailer before body (drop end buffer.now.unread))
        (Whole body (drop (end + 7) buffer.now.unread)) }
    ensures came { OnOk result (end + 7 ≤ length buffer.now.unread) }
{
    let bytes = buffer.unread();
    let trailer = buffer.trailer(end);
    expect_text(&trailer[..3], &bytes[end..], Garble::Trailer)?;
    expect_sum(&trailer[3..6], &bytes[end + 3..])?;
    expect_text(&trailer[6..], &bytes[end + 6..], Garble::Trailer)
}

// Whether bytes begin with a text. Of a longer text the first eight bytes are compared as one
// number.
#[inline(always)]
fn begins(text: &[u8], bytes: &[u8]) -> bool
    ensures { result ≡ bytes_eq text.now (take (length text.now) bytes.now) }
{
    match (front_word(text), front_word(bytes)) {
        (Some(want), Some(word)) => want == word && begins_with(&text[8..], &bytes[8..]),
        _ => begins_with(text, bytes),
    }
}

// The first eight bytes as a number; `None` where there are fewer.
#[inline(always)]
fn front_word(bytes: &[u8]) -> Option<u64>
    ensures { IfSome result (IsWord bytes.now) }
{
    match bytes {
        [a, b, c, d, e, f, g, h, ..] => {
            Some(u64::from_le_bytes([*a, *b, *c, *d, *e, *f, *g, *h]))
        }
        _ => None,
    }
}

// The same, byte by byte.
#[inline(always)]
fn begins_with(text: &[u8], bytes: &[u8]) -> bool
    ensures { result ≡ bytes_eq text.now (take (length text.now) bytes.now) }
{
    bytes.len() >= text.len() && text == &bytes[..text.len()]
}

// This text has to come, or this rule is broken.
#[inline(always)]
fn expect_text(text: &[u8], bytes: &[u8], rule: Garble) -> Result<(), Stop>
    ensures leads { (go : List ℕ → Found) →
        Leads result (expect text.now rule go bytes.now) (go (drop (length text.now) bytes.now)) }
    ensures came { OnOk result (take (length text.now) bytes.now ≡ text.now) }
{
    if begins(text, bytes) {
        Ok(())
    } else if text.starts_with(bytes) {
        Err(Stop::More)
    } else {
        Err(Stop::Garbled(rule))
    }
}

// These digits of CheckSum have to come.
fn expect_sum(digits: &[u8], bytes: &[u8]) -> Result<(), Stop>
    ensures leads { (go : List ℕ → Found) →
        Leads result (expect_sum digits.now go bytes.now)
        (go (drop (length digits.now) bytes.now)) }
    ensures came { OnOk result (length digits.now ≤ length bytes.now) }
{
    for (place, want) in digits.iter().enumerate() {
        if place >= bytes.len() {
            return Err(Stop::More);
        }
        if !bytes[place].is_ascii_digit() {
            return Err(Stop::Garbled(Garble::Trailer));
        }
        if bytes[place] != *want {
            return Err(Stop::Garbled(Garble::Sum));
        }
    }
    Ok(())
}

// The digits of BodyLength, up to the SOH that ends them.
fn read_length(bytes: &[u8]) -> Result<Length, Stop>
    ensures { ReadsLength result bytes.now }
{
    let mut said: u32 = 0;
    for (digits, byte) in bytes.iter().enumerate() {
        if *byte == SOH {
            return Ok(Length { digits, said });
        }
        if !byte.is_ascii_digit() || digits >= MAX_LENGTH_DIGITS {
            return Err(Stop::Garbled(Garble::LengthField));
        }
        said = 10 * said + (*byte - b'0') as u32;
    }
    Err(Stop::More)
}
