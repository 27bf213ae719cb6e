//! Fields as they are written.

ghost use Rattle.std.specs.Prelude.{◌≡◌, ◌+◌, ◌<◌, ◌≤◌, ◌++◌, ◌∷◌, [], IsTrue, OnOk, length};
ghost use Rattle.std.specs.Prelude.{vec_capacity, vec_len};
ghost use Rattle.std.specs.Fmt.{decimal};
ghost use Rattle.std.specs.Io.{StartsWith};
ghost use Rattle.field_groups.specs.Field.{field_bytes};

use crate::fields::SOH;
use itoa::Buffer;
use std::alloc::AllocError;

/// The most digits of a number.
const DIGITS: usize = 10;

/// The most bytes of a field besides its value: a tag, `=` and SOH.
pub const AROUND: usize = DIGITS + 2;

/// Appends a number of any length.
#[inline(never)]
fn push_any(out: &mut Vec<u8>, number: u32)
    requires room { vec_len out.old + DIGITS ≤ vec_capacity out.old }
    ensures items { out.new.items ≡ out.old.items ++ decimal number }
    ensures len { vec_len out.new ≤ vec_len out.old + DIGITS }
    ensures capacity { vec_capacity out.old ≤ vec_capacity out.new }
{
    out.extend_from_slice(Buffer::new().format(number).as_bytes())
        .unwrap();
}

/// Appends a number in digits, where there is room. Those of most tags are written one by one.
#[inline(always)]
#[tactic(auto, using(
    crate::proofs::NumberDigits::one_pushed,
    crate::proofs::NumberDigits::two_pushed,
    crate::proofs::NumberDigits::three_pushed,
))]
#[rattlefmt::skip]
fn push_number(out: &mut Vec<u8>, number: u32)
    requires room { vec_len out.old + DIGITS ≤ vec_capacity out.old }
    ensures items { out.new.items ≡ out.old.items ++ decimal number }
    ensures len { vec_len out.new ≤ vec_len out.old + DIGITS }
    ensures capacity { vec_capacity out.old ≤ vec_capacity out.new }
{
    if number < 10 {
        out.push_reserved(b'0' + number as u8);
    } else if number < 100 {
        out.push_reserved(b'0' + (number / 10) as u8);
        out.push_reserved(b'0' + (number % 10) as u8);
    } else if number < 1000 {
        out.push_reserved(b'0' + (number / 100) as u8);
        out.push_reserved(b'0' + (number / 10 % 10) as u8);
        out.push_reserved(b'0' + (number % 10) as u8);
    } else {
        push_any(out, number)
    }
}

/// Begins a field where there is room for one with no value: its tag in digits, `=`. Room for SOH
/// is left.
#[inline(always)]
pub fn push_tag(out: &mut Vec<u8>, tag: u32)
    requires { vec_len out.old + AROUND ≤ vec_capacity out.old }
    ensures items { out.new.items ≡ out.old.items ++ decimal tag ++ 61 ∷ [] }
    ensures len { vec_len out.new < vec_len out.old + AROUND }
    ensures capacity { vec_capacity out.old ≤ vec_capacity out.new }
{
    push_number(out, tag);
    out.push_reserved(b'=');
}

/// Begins a field: its tag in digits, `=`.
///
/// # Errors
///
/// `AllocError` for want of memory; what stood in `out` stays, and a part may stand behind it.
#[inline(always)]
pub fn put_tag(out: &mut Vec<u8>, tag: u32) -> Result<(), AllocError>
    ensures done { OnOk result (out.new.items ≡ out.old.items ++ decimal tag ++ 61 ∷ []) }
    ensures kept { StartsWith out.new.items out.old.items }
{
    out.reserve(AROUND)?;
    push_tag(out, tag);
    Ok(())
}

/// Whether there is room for so many bytes more.
#[inline(always)]
pub fn has_room(out: &Vec<u8>, count: usize) -> bool
    ensures { IsTrue result → vec_len out.now + count ≤ vec_capacity out.now }
{
    count <= out.capacity() - out.len()
}

/// Appends a long value and SOH, where there is room for both.
#[inline(never)]
fn push_copied(out: &mut Vec<u8>, value: &[u8])
    requires { vec_len out.old + length value.now < vec_capacity out.old }
    ensures { out.new.items ≡ out.old.items ++ (value.now ++ SOH ∷ []) }
{
    out.extend_from_slice(value).unwrap();
    out.push_reserved(SOH);
}

/// Appends a value and SOH, where there is room for both: a short one with no call that copies.
#[inline(never)]
fn push_value(out: &mut Vec<u8>, value: &[u8])
    requires { vec_len out.old + length value.now < vec_capacity out.old }
    ensures { out.new.items ≡ out.old.items ++ (value.now ++ SOH ∷ []) }
{
    if value.len() < 8 {
        for byte in value {
            out.push_reserved(*byte);
        }
        out.push_reserved(SOH);
    } else {
        push_copied(out, value);
    }
}

/// Appends a field where there is room for it.
#[inline(always)]
#[tactic(auto, unfolding(crate::specs::Field::field_bytes))]
fn push_field(out: &mut Vec<u8>, tag: u32, value: &[u8])
    requires { vec_len out.old + (AROUND + length value.now) ≤ vec_capacity out.old }
    ensures { out.new.items ≡ out.old.items ++ field_bytes (tag, value.now) }
{
    push_tag(out, tag);
    push_value(out, value);
}

/// Appends a field, for which room is made.
#[inline(never)]
fn put_grown(out: &mut Vec<u8>, tag: u32, value: &[u8]) -> Result<(), AllocError>
    ensures done { OnOk result (out.new.items ≡ out.old.items ++ field_bytes (tag, value.now)) }
    ensures kept { StartsWith out.new.items out.old.items }
{
    out.reserve(AROUND + value.len())?;
    push_field(out, tag, value);
    Ok(())
}

/// Appends a field as it is written: its tag in digits, `=`, its value, SOH. (FIX 4.2, "Field
/// Delimiter".)
///
/// # Errors
///
/// As [`put_tag`].
#[inline(never)]
pub fn put_field(out: &mut Vec<u8>, tag: u32, value: &[u8]) -> Result<(), AllocError>
    ensures done { OnOk result (out.new.items ≡ out.old.items ++ field_bytes (tag, value.now)) }
    ensures kept { StartsWith out.new.items out.old.items }
{
    put_known(out, tag, value)
}

/// Appends a field whose tag the caller knows: its digits are then known as well. Where there is
/// room already, and the tag is no longer than most, no call but that for the value is made.
///
/// # Errors
///
/// As [`put_tag`].
#[inline(always)]
pub fn put_known(out: &mut Vec<u8>, tag: u32, value: &[u8]) -> Result<(), AllocError>
    ensures done { OnOk result (out.new.items ≡ out.old.items ++ field_bytes (tag, value.now)) }
    ensures kept { StartsWith out.new.items out.old.items }
{
    if tag < 1000 && has_room(out, AROUND + value.len()) {
        push_field(out, tag, value);
        Ok(())
    } else {
        put_grown(out, tag, value)
    }
}

/// Appends a field whose value is one byte.
///
/// # Errors
///
/// As [`put_tag`].
#[inline(always)]
#[tactic(auto, unfolding(crate::specs::Field::field_bytes))]
pub fn put_byte(out: &mut Vec<u8>, tag: u32, byte: u8) -> Result<(), AllocError>
    ensures done { OnOk result (out.new.items ≡ out.old.items ++ field_bytes (tag, byte ∷ [])) }
    ensures kept { StartsWith out.new.items out.old.items }
{
    if tag < 1000 && has_room(out, AROUND + 1) {
        push_tag(out, tag);
        out.push_reserved(byte);
        out.push_reserved(SOH);
        Ok(())
    } else {
        put_grown(out, tag, &[byte])
    }
}

/// Appends a field whose value is a number in digits. Most have one.
///
/// # Errors
///
/// As [`put_tag`].
#[inline(always)]
#[tactic(auto, using(crate::proofs::NumberDigits::one_digit))]
pub fn put_number(out: &mut Vec<u8>, tag: u32, number: u32) -> Result<(), AllocError>
    ensures done { OnOk result (out.new.items
        ≡ out.old.items ++ field_bytes (tag, decimal number)) }
    ensures kept { StartsWith out.new.items out.old.items }
{
    if number < 10 {
        put_byte(out, tag, b'0' + number as u8)
    } else {
        put_grown(out, tag, Buffer::new().format(number).as_bytes())
    }
}
