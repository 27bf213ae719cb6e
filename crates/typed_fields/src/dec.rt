//! Decimal numbers.

ghost use Rattle.std.specs.Prelude.{◌≡◌, ◌+◌, ◌/◌, ◌^◌, ◌<◌, ◌≤◌, ◌++◌, unsigned_abs, length};
ghost use Rattle.std.specs.Prelude.{◌*◌, ◌-◌, IsTrue, OnOk, IfErr, IfOk, IfSome, Ok, drop, take};
ghost use Rattle.std.specs.Prelude.{◌%◌, ℕ, List, vec_capacity, vec_len};
ghost use Rattle.std.specs.Io.{StartsWith};
ghost use Rattle.std.specs.List.{before_first, after_first, position};
ghost use Rattle.typed_fields.specs.Digits.{are_digits, number_of, without_trailing_zeros};
ghost use Rattle.typed_fields.specs.Digits.{or_zero, without_leading_zeros, zero_padded};
ghost use Rattle.typed_fields.specs.Dec.{read_dec, dec_text, IsDec, has_minus, without_minus};
ghost use Rattle.typed_fields.specs.Dec.{is_point, units_of, signed, sign_text, with_point};
ghost use Rattle.typed_fields.specs.Dec.{SpellsItself, ReadsPlain, Respells, SpellsNone};
ghost use Rattle.std.specs.Fmt.{decimal};

use crate::digits::{
    MAX_DIGITS, are_digits, eight_digits, four_digits, front_digits, number, without_leading_zeros,
    without_trailing_zeros,
};
use crate::fault::FieldFault;
use crate::value::MAX_SPELLING;
use itoa::Buffer;

/// The units of one.
const ONE: u128 = 100_000_000;

/// The most bytes of a spelling.
const MAX_BYTES: usize = 32;

/// The most of them behind the point.
const MAX_PLACES: usize = 8;

/// An exact decimal number, as the data types float, Price and Qty of FIX 4.2.
///
/// Its form is an optional `-`, digits and an optional `.` with digits before or behind it, in at
/// most 32 bytes. Without needless zeros it has at most 15 digits, of which at most 8 stand behind
/// the point.
#[derive(Clone, Copy, Debug, PartialEq, Eq, PartialOrd, Ord, Hash)]
pub struct Dec {
    /// The units of 10^-8.
    pub units: i128,
}

/// Whether the bytes begin with a minus sign.
#[inline(always)]
pub fn has_minus(bytes: &[u8]) -> bool
    ensures { result ≡ has_minus bytes.now }
{
    bytes.first() == Some(&b'-')
}

/// What stands behind the minus sign, if there is one.
#[inline(always)]
fn without_minus(bytes: &[u8]) -> &[u8]
    ensures { result.now ≡ without_minus bytes.now }
{
    if has_minus(bytes) { &bytes[1..] } else { bytes }
}

/// The place of the first point (`.`).
#[inline(always)]
pub fn point_in(bytes: &[u8]) -> Option<usize>
    ensures { result ≡ position is_point bytes.now }
{
    bytes.iter().position(|byte| *byte == b'.')
}

/// What stands before the point, or all where there is none; and what stands behind it.
#[inline(always)]
fn parts(bytes: &[u8]) -> (&[u8], &[u8])
    ensures whole { result.0.now ≡ before_first is_point bytes.now }
    ensures fraction { result.1.now ≡ after_first is_point bytes.now }
{
    match point_in(bytes) {
        Some(point) => (&bytes[..point], &bytes[point + 1..]),
        None => (bytes, &[]),
    }
}

/// A power of ten.
#[inline(always)]
fn ten_to(power: usize) -> u64
    requires { power ≤ 8 }
    ensures { result ≡ 10 ^ power }
{
    match power {
        0 => 1,
        1 => 10,
        2 => 100,
        3 => 1000,
        4 => 10_000,
        5 => 100_000,
        6 => 1_000_000,
        7 => 10_000_000,
        _ => 100_000_000,
    }
}

/// The units of a whole part and a fraction.
#[inline(always)]
fn units_of(whole: &[u8], fraction: &[u8]) -> u128
    requires whole { IsTrue (are_digits whole.now) }
    requires fraction { IsTrue (are_digits fraction.now) }
    requires few { length whole.now + length fraction.now ≤ MAX_DIGITS }
    requires places { length fraction.now ≤ MAX_PLACES }
    ensures value { result ≡ units_of whole.now fraction.now }
    ensures bound { result < 10 ^ 23 }
{
    let behind = number(fraction) * ten_to(MAX_PLACES - fraction.len());
    u128::from(number(whole)) * ONE + u128::from(behind)
}

/// A magnitude with its sign.
#[inline(always)]
fn signed(minus: bool, magnitude: u128) -> i128
    requires { magnitude < 10 ^ 23 }
    ensures { result ≡ signed minus magnitude }
{
    let magnitude = magnitude as i128;
    if minus { -magnitude } else { magnitude }
}

/// A point, and at most eight digits behind it: how many there are, and their units.
#[inline(always)]
fn units_behind(bytes: &[u8]) -> Option<(usize, u64)>
    ensures point { IfSome result (λ behind. bytes.now ≡ with_point (drop 1 bytes.now)) }
    ensures digits { IfSome result (λ behind. IsTrue (are_digits (drop 1 bytes.now))) }
    ensures places { IfSome result (λ behind. behind.0 ≡ length (drop 1 bytes.now)) }
    ensures few { IfSome result (λ behind. behind.0 ≤ MAX_PLACES) }
    ensures units { IfSome result (λ behind.
        behind.1 ≡ number_of (drop 1 bytes.now) * 10 ^ (MAX_PLACES - behind.0)) }
    ensures small { IfSome result (λ behind. behind.1 < 10 ^ 8) }
{
    if bytes.first() != Some(&b'.') {
        return None;
    }
    let (places, fraction) = front_digits(&bytes[1..]);
    if places == 0 || places > MAX_PLACES || bytes.len() != places + 1 {
        return None;
    }
    Some((places, fraction * ten_to(MAX_PLACES - places)))
}

/// The units of 10^-8 of digits, of which at most eight stand behind a point, as most numbers are
/// spelled; `None` where the bytes are more than that.
#[inline(always)]
pub fn plain_units(bytes: &[u8]) -> Option<u128>
    ensures { IfSome result (ReadsPlain bytes.now) }
{
    let (len, whole) = front_digits(bytes);
    if len == 0 {
        return None;
    }
    let units = u128::from(whole) * ONE;
    if len == bytes.len() {
        return Some(units);
    }
    let (places, behind) = units_behind(&bytes[len..])?;
    if len + places > MAX_DIGITS {
        return None;
    }
    Some(units + u128::from(behind))
}

/// Whether digits, of which there are some, have no zero in front that does not count.
#[inline(always)]
fn is_plain_whole(digits: &[u8]) -> bool
    ensures { IsTrue result → or_zero (without_leading_zeros digits.now) ≡ digits.now }
{
    match digits {
        [] => false,
        [_] => true,
        _ => digits[0] != b'0',
    }
}

/// Appends the digits that stand at the front, of more than 15 the first 15, and tells how many.
#[inline(always)]
fn push_front(bytes: &[u8], out: &mut Vec<u8>) -> usize
    requires { vec_len out.old + MAX_DIGITS ≤ vec_capacity out.old }
    ensures within { result ≤ length bytes.now }
    ensures few { result ≤ MAX_DIGITS }
    ensures digits { IsTrue (are_digits (take result bytes.now)) }
    ensures items { out.new.items ≡ out.old.items ++ take result bytes.now }
    ensures len { vec_len out.new ≡ vec_len out.old + result }
    ensures capacity { vec_capacity out.old ≤ vec_capacity out.new }
{
    let mut len = 0;
    while len < bytes.len() && len < MAX_DIGITS && bytes[len].is_ascii_digit() {
        out.push_reserved(bytes[len]);
        len += 1;
    }
    len
}

/// Appends a point and at most eight digits behind it, of which the last is no zero, and tells how
/// many. Where the bytes are something else, a part of them may be appended.
#[inline(always)]
fn push_point(bytes: &[u8], out: &mut Vec<u8>) -> Option<usize>
    requires { vec_len out.old + 1 + MAX_DIGITS ≤ vec_capacity out.old }
    ensures point { IfSome result (λ places. bytes.now ≡ with_point (drop 1 bytes.now)) }
    ensures digits { IfSome result (λ places. IsTrue (are_digits (drop 1 bytes.now))) }
    ensures places { IfSome result (λ places. places ≡ length (drop 1 bytes.now)) }
    ensures few { IfSome result (λ places. places ≤ MAX_PLACES) }
    ensures trail { IfSome result (λ places.
        without_trailing_zeros (drop 1 bytes.now) ≡ drop 1 bytes.now) }
    ensures items { IfSome result (λ places. out.new.items ≡ out.old.items ++ bytes.now) }
    ensures kept { (more : List ℕ) × (out.new.items ≡ out.old.items ++ more) }
    ensures len { vec_len out.new ≤ vec_len out.old + 1 + MAX_DIGITS }
    ensures capacity { vec_capacity out.old ≤ vec_capacity out.new }
{
    if bytes.first() != Some(&b'.') {
        return None;
    }
    out.push_reserved(b'.');
    let places = push_front(&bytes[1..], out);
    if places == 0 || places > MAX_PLACES || bytes.len() != places + 1 {
        return None;
    }
    if bytes[places] == b'0' {
        return None;
    }
    Some(places)
}

/// Appends the bytes where they are the canonical spelling of a number without a sign, and tells
/// whether they are. Where they are not, a part of them may be appended.
#[inline(always)]
fn push_plain(bytes: &[u8], out: &mut Vec<u8>) -> bool
    requires { vec_len out.old + MAX_SPELLING ≤ vec_capacity out.old }
    ensures own { IsTrue result → SpellsItself bytes.now }
    ensures items { IsTrue result → out.new.items ≡ out.old.items ++ bytes.now }
    ensures kept { StartsWith out.new.items out.old.items }
    ensures len { vec_len out.new ≤ vec_len out.old + MAX_SPELLING }
    ensures capacity { vec_capacity out.old ≤ vec_capacity out.new }
{
    let len = push_front(bytes, out);
    if len == 0 || !is_plain_whole(&bytes[..len]) {
        return false;
    }
    if len == bytes.len() {
        return true;
    }
    match push_point(&bytes[len..], out) {
        None => false,
        Some(places) => len + places <= MAX_DIGITS,
    }
}

impl Dec {
    /// Reads a decimal number.
    ///
    /// # Errors
    ///
    /// `Empty` for no bytes, `Form` for anything but the form, and `Range` for a number with more
    /// digits than the bound has.
    #[inline(always)]
    pub fn read(value: &[u8]) -> Result<Dec, FieldFault>
        ensures value { result ≡ read_dec value.now }
        ensures bound { IfOk result IsDec }
    {
        match plain_units(value) {
            Some(units) => Ok(Dec {
                units: signed(false, units),
            }),
            None => Dec::read_any(value),
        }
    }

    /// Reads a decimal number that may have a sign, and zeros that do not count.
    #[inline(never)]
    fn read_any(value: &[u8]) -> Result<Dec, FieldFault>
        ensures value { result ≡ read_dec value.now }
        ensures bound { IfOk result IsDec }
    {
        if value.is_empty() {
            return Err(FieldFault::Empty);
        }
        let minus = has_minus(value);
        let (whole, fraction) = parts(without_minus(value));
        if value.len() > MAX_BYTES
            || !are_digits(whole)
            || !are_digits(fraction)
            || whole.len() + fraction.len() == 0
        {
            return Err(FieldFault::Form);
        }
        let whole = without_leading_zeros(whole);
        let fraction = without_trailing_zeros(fraction);
        if whole.len() + fraction.len() > MAX_DIGITS || fraction.len() > MAX_PLACES {
            return Err(FieldFault::Range);
        }
        Ok(Dec {
            units: signed(minus, units_of(whole, fraction)),
        })
    }

    /// Appends the canonical spelling of the number that bytes spell, where there is room for any.
    /// Most numbers are spelled so already, and stand as they are.
    ///
    /// # Errors
    ///
    /// As `read`; then `out` is unchanged.
    pub fn respell(value: &[u8], out: &mut Vec<u8>) -> Result<(), FieldFault>
        requires room { vec_len out.old + MAX_SPELLING ≤ vec_capacity out.old }
        ensures ok { OnOk result (Respells value.now out.old.items out.new.items) }
        ensures err { IfErr result (SpellsNone value.now out.old.items out.new.items) }
        ensures len { vec_len out.new ≤ vec_len out.old + MAX_SPELLING }
        ensures capacity { vec_capacity out.old ≤ vec_capacity out.new }
    {
        let start = out.len();
        if push_plain(value, out) {
            return Ok(());
        }
        out.truncate(start);
        Dec::read(value)?.push(out);
        Ok(())
    }

    /// Appends the canonical spelling where there is room for any: no needless zeros, no minus sign
    /// of zero, a digit before the point, and no point without a digit behind it.
    #[inline(always)]
    pub(crate) fn push(&self, out: &mut Vec<u8>)
        requires value { IsDec self.now }
        requires room { vec_len out.old + MAX_SPELLING ≤ vec_capacity out.old }
        ensures items { out.new.items ≡ out.old.items ++ dec_text self.now }
        ensures len { vec_len out.new ≤ vec_len out.old + MAX_SPELLING }
        ensures capacity { vec_capacity out.old ≤ vec_capacity out.new }
    {
        let (whole, fraction) = whole_and_fraction(self.units.unsigned_abs());
        push_whole(out, self.units < 0, whole);
        push_fraction(out, fraction);
    }
}

/// The whole part of a magnitude, and its units behind the point. Most magnitudes have 64 bits,
/// which are divided at once.
#[inline(always)]
fn whole_and_fraction(magnitude: u128) -> (u64, u32)
    requires { magnitude < 10 ^ 23 }
    ensures whole { result.0 ≡ magnitude / 10 ^ 8 }
    ensures fraction { result.1 ≡ magnitude % 10 ^ 8 }
{
    if magnitude <= 0xffff_ffff_ffff_ffff {
        let units = magnitude as u64;
        (units / 100_000_000, (units % 100_000_000) as u32)
    } else {
        ((magnitude / ONE) as u64, (magnitude % ONE) as u32)
    }
}

/// Appends the minus sign of a negative number and the whole part, where there is room.
#[inline(always)]
fn push_whole(out: &mut Vec<u8>, minus: bool, whole: u64)
    requires { vec_len out.old + 21 ≤ vec_capacity out.old }
    ensures items { out.new.items ≡ out.old.items ++ sign_text minus ++ decimal whole }
    ensures len { vec_len out.new ≤ vec_len out.old + 21 }
    ensures capacity { vec_capacity out.old ≤ vec_capacity out.new }
{
    if minus {
        out.push_reserved(b'-');
    }
    out.extend_from_slice(Buffer::new().format(whole).as_bytes())
        .unwrap();
}

/// Appends the digits of a fraction behind a point, where there are any and room for them. Most
/// fractions have no more than four.
#[inline(never)]
#[tactic(auto, using(crate::proofs::DecLemmas::four_places))]
fn push_fraction(out: &mut Vec<u8>, fraction: u32)
    requires small { fraction < 10 ^ 8 }
    requires room { vec_len out.old + 9 ≤ vec_capacity out.old }
    ensures items { out.new.items
        ≡ out.old.items ++ with_point (without_trailing_zeros (zero_padded 8 fraction)) }
    ensures len { vec_len out.new ≤ vec_len out.old + 9 }
    ensures capacity { vec_capacity out.old ≤ vec_capacity out.new }
{
    if fraction % 10_000 == 0 {
        push_digits(out, &four_digits((fraction / 10_000) as u16));
    } else {
        push_digits(out, &eight_digits(fraction));
    }
}

/// Appends a point and the digits behind it, without the zeros at their end.
#[inline(always)]
fn push_digits(out: &mut Vec<u8>, digits: &[u8])
    requires { vec_len out.old + length digits.now < vec_capacity out.old }
    ensures items { out.new.items
        ≡ out.old.items ++ with_point (without_trailing_zeros digits.now) }
    ensures len { vec_len out.new ≤ vec_len out.old + 1 + length digits.now }
    ensures capacity { vec_capacity out.old ≤ vec_capacity out.new }
{
    let places = without_trailing_zeros(digits);
    match places {
        [] => {}
        _ => {
            out.push_reserved(b'.');
            out.extend_from_slice(places).unwrap();
        }
    }
}
