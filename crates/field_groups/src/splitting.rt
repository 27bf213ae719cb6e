//! The fields of a body, from the front.

ghost use Rattle.std.specs.Prelude.{◌≡◌, ◌-◌, ◌+◌, ◌<◌, ◌≤◌, ◌++◌, ◌∷◌, [], ◌==◌, ◌&&◌};
ghost use Rattle.std.specs.Prelude.{false, true, Option, None, Some, length, take, slice_index};
ghost use Rattle.std.specs.Prelude.{IsTrue, IfOk, IfErr, IfNone, IfSome, OnOk};
ghost use Rattle.std.specs.List.{list_all, list_any};
ghost use Rattle.std.specs.Char.{is_ascii_digit};
ghost use Rattle.std.specs.Fmt.{decimal};
ghost use Rattle.std.specs.Str.Parse.{digits_value};
ghost use Rattle.memchr.specs.Find.{IsFirstByte, Nowhere, Passes};
ghost use Rattle.field_groups.specs.Field.{Field, IsField, field_bytes, is_data, is_soh};
ghost use Rattle.field_groups.specs.Field.{said_length, says};
ghost use Rattle.field_groups.specs.HeadValues.{number_in};
ghost use Rattle.field_groups.specs.Index.{last_field};
ghost use Rattle.field_groups.specs.Fields.{NoField, SplitsInto, after_tag, front_tag, has_tag};
ghost use Rattle.field_groups.specs.Fields.{is_tag_good, digit_count, has_soh, has_soh_after};

use crate::data::{LEAST_DATA, is_data_pair};
use crate::fault::SplitFault;
use crate::fields::{Field, SOH, Split};
use crate::head_values::number_in;
use std::alloc::{AllocError, Global};
use std::simd::prelude::*;

/// The most fields of one body.
pub(crate) const MAX_FIELDS: usize = 256;

/// The most digits of a tag.
const MAX_DIGITS: usize = 9;

/// How many bytes are compared at once for the end of a value: most values have fewer.
const CHUNK: usize = 16;

/// How many digits stand at the front.
fn digit_count(bytes: &[u8]) -> usize
    ensures value { result ≡ digit_count bytes.now }
    ensures within { result ≤ length bytes.now }
{
    bytes
        .iter()
        .take_while(|byte| byte.is_ascii_digit())
        .count()
}

/// The number of a digit; `None` of any other byte.
#[inline(always)]
fn digit_of(byte: u8) -> Option<u32>
    ensures none { IfNone result (is_ascii_digit byte ≡ false) }
    ensures some { IfSome result (λ digit. is_ascii_digit byte ≡ true) }
    ensures digit { IfSome result (λ digit. digit ≡ byte - 48) }
    ensures small { IfSome result (λ digit. digit ≤ 9) }
{
    if byte.is_ascii_digit() {
        Some(byte as u32 - 48)
    } else {
        None
    }
}

/// The digit at a place; `None` where none stands there.
#[inline(always)]
fn digit_at(bytes: &[u8], place: usize) -> Option<u32>
    ensures none { IfNone result (is_ascii_digit (slice_index bytes.now place) ≡ false) }
    ensures some { IfSome result (λ digit. is_ascii_digit (slice_index bytes.now place) ≡ true) }
    ensures digit { IfSome result (λ digit. digit ≡ slice_index bytes.now place - 48) }
    ensures small { IfSome result (λ digit. digit ≤ 9) }
{
    digit_of(*bytes.get(place)?)
}

/// The digit at the front, where one stands there that is not 0.
#[inline(always)]
fn lead_digit(bytes: &[u8]) -> Option<u32>
    ensures some { IfSome result (λ digit. is_ascii_digit (slice_index bytes.now 0) ≡ true) }
    ensures digit { IfSome result (λ digit. digit ≡ slice_index bytes.now 0 - 48) }
    ensures small { IfSome result (λ digit. digit ≤ 9) }
    ensures lead { IfSome result (λ digit. 49 ≤ slice_index bytes.now 0) }
{
    match bytes.get(0) {
        Some(byte @ b'1'..=b'9') => digit_of(*byte),
        _ => None,
    }
}

/// Whether `=` stands at a place.
#[inline(always)]
fn is_equals_at(bytes: &[u8], place: usize) -> bool
    ensures { result ≡ (slice_index bytes.now place == 61) }
{
    bytes.get(place) == Some(&b'=')
}

/// How many digits stand at the front, and the number that they write; of more than nine, the first
/// nine.
#[inline(always)]
fn front_number(bytes: &[u8]) -> (usize, u32)
    ensures digits { IsTrue (list_all is_ascii_digit (take result.0 bytes.now)) }
    ensures within { result.0 ≤ length bytes.now }
    ensures few { result.0 ≤ MAX_DIGITS }
    ensures all { result.0 < MAX_DIGITS → result.0 ≡ digit_count bytes.now }
    ensures value { result.1 ≡ digits_value 10 (take result.0 bytes.now) }
{
    let mut len = 0;
    let mut number = 0;
    while len < MAX_DIGITS {
        match digit_at(bytes, len) {
            None => return (len, number),
            Some(digit) => {
                number = 10 * number + digit;
                len += 1;
            }
        }
    }
    (len, number)
}

/// A good tag at the front, and what is left after its `=`, by one pass over its digits; `None`
/// where there is none.
#[inline(always)]
fn good_tag(bytes: &[u8]) -> Option<(u32, &[u8])>
    ensures good { IfSome result
        (λ tag. (has_tag bytes.now ≡ true) × (is_tag_good bytes.now ≡ true)) }
    ensures tag { IfSome result (λ tag. tag.0 ≡ front_tag bytes.now) }
    ensures rest { IfSome result (λ tag. tag.1.now ≡ after_tag bytes.now) }
    ensures none { IfNone result ((has_tag bytes.now && is_tag_good bytes.now) ≡ false) }
{
    let (len, tag) = front_number(bytes);
    if len == 0 || bytes[0] == b'0' || !is_equals_at(bytes, len) {
        return None;
    }
    Some((tag, &bytes[len + 1..]))
}

/// The number of the two digits at the front, of which the first is not 0, where `=` stands behind
/// them.
#[inline(always)]
fn two_digits(bytes: &[u8]) -> Option<u32>
    ensures digits { IfSome result (λ number. IsTrue (list_all is_ascii_digit (take 2 bytes.now))) }
    ensures within { IfSome result (λ number. 2 ≤ length bytes.now) }
    ensures all { IfSome result (λ number. 2 ≡ digit_count bytes.now) }
    ensures value { IfSome result (λ number. number ≡ digits_value 10 (take 2 bytes.now)) }
    ensures equals { IfSome result (λ number. slice_index bytes.now 2 ≡ 61) }
    ensures lead { IfSome result (λ number. 49 ≤ slice_index bytes.now 0) }
{
    if !is_equals_at(bytes, 2) {
        return None;
    }
    let ten = lead_digit(bytes)?;
    let one = digit_at(bytes, 1)?;
    Some(10 * ten + one)
}

/// A good tag of two digits at the front, as most have, and what is left after its `=`.
#[inline(always)]
fn short_tag(bytes: &[u8]) -> Option<(u32, &[u8])>
    ensures good { IfSome result
        (λ tag. (has_tag bytes.now ≡ true) × (is_tag_good bytes.now ≡ true)) }
    ensures tag { IfSome result (λ tag. tag.0 ≡ front_tag bytes.now) }
    ensures rest { IfSome result (λ tag. tag.1.now ≡ after_tag bytes.now) }
{
    let tag = two_digits(bytes)?;
    Some((tag, &bytes[3..]))
}

/// The number of the three digits at the front, likewise.
#[inline(always)]
fn three_digits(bytes: &[u8]) -> Option<u32>
    ensures digits { IfSome result (λ number. IsTrue (list_all is_ascii_digit (take 3 bytes.now))) }
    ensures within { IfSome result (λ number. 3 ≤ length bytes.now) }
    ensures all { IfSome result (λ number. 3 ≡ digit_count bytes.now) }
    ensures value { IfSome result (λ number. number ≡ digits_value 10 (take 3 bytes.now)) }
    ensures equals { IfSome result (λ number. slice_index bytes.now 3 ≡ 61) }
    ensures lead { IfSome result (λ number. 49 ≤ slice_index bytes.now 0) }
{
    if !is_equals_at(bytes, 3) {
        return None;
    }
    let hundred = lead_digit(bytes)?;
    let ten = digit_at(bytes, 1)?;
    let one = digit_at(bytes, 2)?;
    Some(100 * hundred + 10 * ten + one)
}

/// A good tag of three digits at the front, and what is left after its `=`.
#[inline(always)]
fn longer_tag(bytes: &[u8]) -> Option<(u32, &[u8])>
    ensures good { IfSome result
        (λ tag. (has_tag bytes.now ≡ true) × (is_tag_good bytes.now ≡ true)) }
    ensures tag { IfSome result (λ tag. tag.0 ≡ front_tag bytes.now) }
    ensures rest { IfSome result (λ tag. tag.1.now ≡ after_tag bytes.now) }
{
    let tag = three_digits(bytes)?;
    Some((tag, &bytes[4..]))
}

/// Why there is no good tag at the front. The field begins at this place of the body.
#[tactic(auto, unfolding(crate::specs::Fields::has_tag, crate::specs::Fields::is_tag_good))]
fn tag_fault(place: usize, bytes: &[u8]) -> SplitFault
    requires { (has_tag bytes.now && is_tag_good bytes.now) ≡ false }
    ensures { (before : Option Field) → NoField place before bytes.now result }
{
    let len = digit_count(bytes);
    if len == 0 || !is_equals_at(bytes, len) {
        SplitFault::NoTag { at: place }
    } else {
        SplitFault::BadTag { at: place }
    }
}

/// The tag at the front, and what is left after its `=`. The field begins at this place of the
/// body.
#[inline(always)]
#[tactic(auto, using(crate::proofs::Reading::tag_written, crate::proofs::Reading::tag_range))]
fn tag_at(place: usize, bytes: &[u8]) -> Result<(u32, &[u8]), SplitFault>
    ensures good { OnOk result ((has_tag bytes.now ≡ true) × (is_tag_good bytes.now ≡ true)) }
    ensures tag { IfOk result (λ tag. tag.0 ≡ front_tag bytes.now) }
    ensures range { IfOk result (λ tag. (1 ≤ tag.0) × (tag.0 ≤ 999_999_999)) }
    ensures written { IfOk result (λ tag. bytes.now ≡ decimal tag.0 ++ 61 ∷ tag.1.now) }
    ensures rest { IfOk result (λ tag. tag.1.now ≡ after_tag bytes.now) }
    ensures fault { IfErr result (λ e. (before : Option Field) → NoField place before bytes.now e) }
{
    if let Some(tag) = short_tag(bytes) {
        return Ok(tag);
    }
    if let Some(tag) = longer_tag(bytes) {
        return Ok(tag);
    }
    match good_tag(bytes) {
        Some(tag) => Ok(tag),
        None => Err(tag_fault(place, bytes)),
    }
}

/// The place of the first SOH, byte by byte.
#[inline(always)]
fn short_soh(bytes: &[u8]) -> Option<usize>
    ensures { IsFirstByte is_soh bytes.now result }
{
    bytes.iter().position(|byte| *byte == SOH)
}

/// The place of the first SOH, which is not before this place; `None` where there is none.
#[inline(always)]
fn soh_from(bytes: &[u8], from: usize) -> Option<usize>
    requires within { from ≤ length bytes.now }
    requires before { Nowhere (Passes is_soh bytes.now) 0 from }
    ensures { IsFirstByte is_soh bytes.now result }
{
    match short_soh(&bytes[from..]) {
        None => None,
        Some(end) => Some(from + end),
    }
}

/// The place of the first SOH among bytes that are compared at once; `None` where there is none.
#[inline(always)]
fn chunk_soh(bytes: &[u8]) -> Option<usize>
    requires { length bytes.now ≡ CHUNK }
    ensures { IsFirstByte is_soh bytes.now result }
{
    let marks = u8x16::from_slice(bytes)
        .simd_eq(u8x16::splat(SOH))
        .to_bitmask();
    if marks == 0 {
        None
    } else {
        Some(marks.trailing_zeros() as usize)
    }
}

/// The place of the first SOH, which is not before this place, where it is among the sixteen bytes
/// from there on.
#[inline(always)]
fn soh_in_chunk(bytes: &[u8], from: usize) -> Option<usize>
    requires within { from + CHUNK ≤ length bytes.now }
    requires before { Nowhere (Passes is_soh bytes.now) 0 from }
    ensures some { IfSome result (λ end. IsFirstByte is_soh bytes.now (Some end)) }
    ensures none { IfNone result (Nowhere (Passes is_soh bytes.now) 0 (from + CHUNK)) }
{
    match chunk_soh(&bytes[from..from + CHUNK]) {
        None => None,
        Some(end) => Some(from + end),
    }
}

/// The place of the first SOH, which is not among the first sixteen bytes; `None` where there is
/// none.
fn later_soh(bytes: &[u8]) -> Option<usize>
    requires within { CHUNK ≤ length bytes.now }
    requires before { Nowhere (Passes is_soh bytes.now) 0 CHUNK }
    ensures { IsFirstByte is_soh bytes.now result }
{
    let mut from = CHUNK;
    while bytes.len() - from >= CHUNK {
        if let Some(end) = soh_in_chunk(bytes, from) {
            return Some(end);
        }
        from += CHUNK;
    }
    soh_from(bytes, from)
}

/// The place of the first SOH; `None` where there is none. Most values end in the first chunk.
#[inline(always)]
fn first_soh(bytes: &[u8]) -> Option<usize>
    ensures { IsFirstByte is_soh bytes.now result }
{
    if bytes.len() < CHUNK {
        return short_soh(bytes);
    }
    match soh_in_chunk(bytes, 0) {
        Some(end) => Some(end),
        None => later_soh(bytes),
    }
}

/// The value before the first SOH, and what is left after that SOH; `None` where there is no SOH.
#[inline(always)]
fn value_at(bytes: &[u8]) -> Option<(&[u8], &[u8])>
    ensures no_soh { IfSome result (λ value. list_any is_soh value.0.now ≡ false) }
    ensures written { IfSome result (λ value. bytes.now ≡ value.0.now ++ 1 ∷ value.1.now) }
    ensures none { IfNone result (has_soh bytes.now ≡ false) }
{
    match first_soh(bytes) {
        None => None,
        Some(end) => Some((&bytes[..end], &bytes[end + 1..])),
    }
}

/// The value of as many bytes as a length field says, and what is left after the SOH behind it;
/// `None` where no number is said or no SOH stands there.
fn data_at<'a>(said: &[u8], bytes: &'a [u8]) -> Option<(&'a [u8], &'a [u8])>
    ensures len { IfSome result (λ value. says (number_in said.now) (length value.0.now) ≡ true) }
    ensures written { IfSome result (λ value. bytes.now ≡ value.0.now ++ 1 ∷ value.1.now) }
    ensures none { IfNone result (has_soh_after (number_in said.now) bytes.now ≡ false) }
{
    let end = number_in(said)? as usize;
    if bytes.get(end) != Some(&SOH) {
        return None;
    }
    Some((&bytes[..end], &bytes[end + 1..]))
}

/// What the last of the fields before says of the length of a field of this tag; `None` where that
/// is no raw data. The field before is looked at for few tags.
#[inline(always)]
fn said_of<'f>(before: &'f [Field<'_>], tag: u32) -> Option<&'f [u8]>
    ensures data { IfSome result (λ said. is_data (last_field before.now) tag ≡ true) }
    ensures len { IfSome result (λ said.
        said_length (last_field before.now) ≡ number_in said.now) }
    ensures none { IfNone result (is_data (last_field before.now) tag ≡ false) }
{
    if tag < LEAST_DATA {
        return None;
    }
    match before.last() {
        Some(field) if is_data_pair(field.0, tag) => Some(field.1),
        _ => None,
    }
}

/// The tag and the value of the field at the front, and what is left after it. The field begins at
/// this place of the body, directly behind the last of the fields before.
#[inline(always)]
#[tactic(auto, unfolding(crate::specs::Field::field_bytes))]
pub(crate) fn field_at<'a>(
    place: usize,
    before: &[Field<'_>],
    bytes: &'a [u8],
) -> Result<(u32, &'a [u8], &'a [u8]), SplitFault>
    ensures good { IfOk result (λ field.
        IsField (last_field before.now) (field.0, field.1.now)) }
    ensures written { IfOk result (λ field.
        bytes.now ≡ field_bytes (field.0, field.1.now) ++ field.2.now) }
    ensures fault { IfErr result
        (NoField place (last_field before.now) bytes.now) }
{
    let (tag, rest) = tag_at(place, bytes)?;
    match said_of(before, tag) {
        Some(said) => match data_at(said, rest) {
            None => Err(SplitFault::DataLength { tag }),
            Some((value, after)) => Ok((tag, value, after)),
        },
        None => match value_at(rest) {
            None => Err(SplitFault::NoEnd { at: place }),
            Some((value, after)) => Ok((tag, value, after)),
        },
    }
}

/// The longest list of whole fields from the front of a body, at most 256, and the fault that
/// stopped it.
///
/// An empty value is a value, and a body with no bytes has no fields and no fault. A field of raw
/// bytes directly behind its length field has as many bytes as that says, which may be SOH;
/// anywhere else its tag is like any other.
///
/// # Errors
///
/// `AllocError` where there is no memory for the list.
pub fn split(alloc: Global, body: &[u8]) -> Result<Split<'_>, AllocError>
    ensures { IfOk result (λ split. SplitsInto body.now split.fields split.fault) }
{
    let mut split = Split::new(alloc);
    split_into(body, &mut split)?;
    Ok(split)
}

/// The same, in a place of the caller that has no fields yet: the list is not moved.
///
/// # Errors
///
/// As [`split`]; what was taken before is then there.
pub fn split_into<'a>(body: &'a [u8], split: &mut Split<'a>) -> Result<(), AllocError>
    requires { split.old.fields ≡ [] }
    ensures { OnOk result (SplitsInto body.now split.new.fields split.new.fault) }
{
    split.fields.make_room()?;
    let mut rest = body;
    while !rest.is_empty() {
        if split.fields.len() == MAX_FIELDS {
            split.fault = Some(SplitFault::TooMany);
            return Ok(());
        }
        match field_at(body.len() - rest.len(), split.fields.as_slice(), rest) {
            Ok((tag, value, after)) => {
                split.fields.push(tag, value)?;
                rest = after;
            }
            Err(fault) => {
                split.fault = Some(fault);
                return Ok(());
            }
        }
    }
    split.fault = None;
    Ok(())
}
