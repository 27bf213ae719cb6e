//! Moments.

ghost use Rattle.std.specs.Prelude.{◌≡◌, ◌^◌, ◌<◌, ◌≤◌, ◌++◌, codes, length, take, IsTrue};
ghost use Rattle.std.specs.Prelude.{◌+◌, vec_capacity, vec_len};
ghost use Rattle.std.specs.Prelude.{OnOk, OnErr, IfOk, Some, None, ◌∷◌, if◌then◌else◌};
ghost use Rattle.typed_fields.specs.Digits.{are_digits, has_pattern, is_point, number_of};
ghost use Rattle.typed_fields.specs.Digits.{zero_padded};
ghost use Rattle.typed_fields.specs.Stamp.{behind_point, fraction_of, fraction_text, number_in};
ghost use Rattle.typed_fields.specs.Stamp.{cut, cut_fraction, is_fine_form, read_fine, read_stamp};
ghost use Rattle.typed_fields.specs.Stamp.{spells_moment, stamp_in};
ghost use Rattle.typed_fields.specs.Stamp.{seconds_text, stamp_text, millis_of_day, stamp_millis};
ghost use Rattle.typed_fields.specs.Stamp.{cut_text, stamp_at, width, IsFine, IsStamp};

use crate::day::{day_digits, day_number};
use crate::digits::{are_digits, number, number_at, three_digits, two_digits};
use crate::fault::FieldFault;
use crate::value::MAX_SPELLING;
use std::alloc::AllocError;
use std::simd::prelude::*;

/// The last moment before the year 2100, in milliseconds since 1 January 1970, 00:00.
pub const MAX_MILLIS: u64 = 4_102_444_799_999;

/// The digits of a second behind its point, as the number that they spell.
#[derive(Clone, Copy, Debug, PartialEq, Eq, Hash)]
pub enum Fraction {
    /// None: a whole second.
    Whole,
    /// Milliseconds, from 0 to 999.
    Three(u16),
    /// Microseconds, from 0 to 999,999.
    Six(u32),
    /// Nanoseconds, from 0 to 999,999,999.
    Nine(u32),
}

/// The text of a moment without the digits behind the milliseconds.
#[inline(always)]
pub fn cut_text(text: &[u8]) -> &[u8]
    ensures { result.now ≡ cut_text text.now }
{
    if text.len() > 21 { &text[..21] } else { text }
}

impl Fraction {
    /// The milliseconds.
    fn millis(&self) -> u32
        ensures { result ≡ number_in (cut_fraction self.now) }
    {
        match *self {
            Fraction::Whole => 0,
            Fraction::Three(millis) => u32::from(millis),
            Fraction::Six(micros) => micros / 1000,
            Fraction::Nine(nanos) => nanos / 1_000_000,
        }
    }

    /// The fraction without the digits behind the third.
    fn cut(&self) -> Fraction
        requires { number_in self.now < 10 ^ width self.now }
        ensures { result ≡ cut_fraction self.now }
    {
        match *self {
            Fraction::Six(micros) => Fraction::Three((micros / 1000) as u16),
            Fraction::Nine(nanos) => Fraction::Three((nanos / 1_000_000) as u16),
            other => other,
        }
    }
}

/// A moment of universal time, as the data type UTCTimestamp of FIX 4.2 and of FIX 5.0 SP2.
///
/// Its form is `YYYYMMDD-HH:MM:SS` or `YYYYMMDD-HH:MM:SS.sss`, which is also its spelling; the fine
/// form of FIX 5.0 SP2 may have six or nine digits of the second. A second of 60 is a leap second.
#[derive(Clone, Copy, Debug, PartialEq, Eq, Hash)]
pub struct Stamp {
    /// The days since 1 January 1970.
    pub day: i32,
    /// The hour, from 0 to 23.
    pub hour: u8,
    /// The minute, from 0 to 59.
    pub minute: u8,
    /// The second, from 0 to 60.
    pub second: u8,
    /// The fraction of the second, as the spelling has it.
    pub frac: Fraction,
}

/// Whether bytes have the form of whole seconds: with a zero for each digit, the first sixteen are
/// one text.
#[inline(always)]
fn has_seconds(bytes: &[u8]) -> bool
    ensures { result ≡ has_pattern (codes "YYYYMMDD-HH:MM:SS") bytes.now }
{
    if bytes.len() != 17 {
        return false;
    }
    let lanes = u8x16::from_slice(bytes);
    let digits = lanes.simd_ge(u8x16::splat(b'0')) & lanes.simd_le(u8x16::splat(b'9'));
    let zeros = digits.select(u8x16::splat(b'0'), lanes);
    zeros.simd_eq(u8x16::from_array(*b"00000000-00:00:0")).all() && bytes[16].is_ascii_digit()
}

/// Whether bytes have a pattern of a point and letters: a point, and digits behind it.
#[inline(always)]
fn has_point(pattern: &[u8], bytes: &[u8]) -> bool
    requires pattern { IsTrue (is_point pattern.now) }
    requires len { length bytes.now ≡ length pattern.now }
    ensures { result ≡ has_pattern pattern.now bytes.now }
{
    bytes[0] == b'.' && are_digits(&bytes[1..])
}

/// Whether bytes have the form of whole seconds and a fraction of this pattern.
#[inline(always)]
fn has_fraction(pattern: &[u8], bytes: &[u8]) -> bool
    requires { IsTrue (is_point pattern.now) }
    ensures { result ≡ has_pattern (codes "YYYYMMDD-HH:MM:SS" ++ pattern.now) bytes.now }
{
    bytes.len() == 17 + pattern.len()
        && (has_seconds(&bytes[..17]) && has_point(pattern, &bytes[17..]))
}

/// The number that at most nine digits behind a point spell.
#[inline(always)]
fn behind(bytes: &[u8]) -> u32
    requires long { 18 ≤ length bytes.now }
    requires digits { IsTrue (are_digits (behind_point bytes.now)) }
    requires few { length (behind_point bytes.now) ≤ 9 }
    ensures { result ≡ number_of (behind_point bytes.now) }
{
    number(&bytes[18..]) as u32
}

/// The fraction of the second, where bytes have one of the forms.
#[inline(always)]
fn fraction_in(bytes: &[u8]) -> Option<Fraction>
    ensures { result ≡ (if is_fine_form bytes.now
        then Some (fraction_of (behind_point bytes.now)) else None) }
{
    if has_seconds(bytes) {
        Some(Fraction::Whole)
    } else if has_fraction(b".sss", bytes) {
        Some(Fraction::Three(behind(bytes) as u16))
    } else if has_fraction(b".ssssss", bytes) {
        Some(Fraction::Six(behind(bytes)))
    } else if has_fraction(b".sssssssss", bytes) {
        Some(Fraction::Nine(behind(bytes)))
    } else {
        None
    }
}

/// The moment that bytes of one of the forms spell, if it is within the bound.
#[inline(always)]
fn read_moment(bytes: &[u8], frac: Fraction) -> Result<Stamp, FieldFault>
    requires form { IsTrue (has_pattern (codes "YYYYMMDD-HH:MM:SS") (take 17 bytes.now)) }
    requires frac { frac ≡ fraction_of (behind_point bytes.now) }
    ensures { result
        ≡ (if spells_moment bytes.now then Ok (stamp_in bytes.now) else Err FieldFault.Range) }
{
    let hour = number_at(bytes, 9, 11) as u8;
    let minute = number_at(bytes, 12, 14) as u8;
    let second = number_at(bytes, 15, 17) as u8;
    match day_number(bytes) {
        Some(day) if hour <= 23 && minute <= 59 && second <= 60 => Ok(Stamp {
            day,
            hour,
            minute,
            second,
            frac,
        }),
        _ => Err(FieldFault::Range),
    }
}

impl Stamp {
    /// Reads a moment with at most three digits of the second.
    ///
    /// # Errors
    ///
    /// `Empty` for no bytes, `Form` for anything but the two forms, and `Range` for a date that the
    /// calendar lacks or a time past hour 23, minute 59 or second 60.
    #[inline(always)]
    pub fn read(value: &[u8]) -> Result<Stamp, FieldFault>
        ensures value { result ≡ read_stamp value.now }
        ensures bound { IfOk result IsStamp }
    {
        if value.len() > 21 {
            return Err(FieldFault::Form);
        }
        Stamp::read_fine(value)
    }

    /// Reads a moment with no, three, six or nine digits of the second.
    ///
    /// # Errors
    ///
    /// As [`Stamp::read`], with the two fine forms besides.
    #[inline(always)]
    pub fn read_fine(value: &[u8]) -> Result<Stamp, FieldFault>
        ensures value { result ≡ read_fine value.now }
        ensures bound { IfOk result IsFine }
    {
        if value.is_empty() {
            return Err(FieldFault::Empty);
        }
        match fraction_in(value) {
            Some(frac) => read_moment(value, frac),
            None => Err(FieldFault::Form),
        }
    }

    /// The stamp without the digits behind the milliseconds.
    pub fn cut(&self) -> Stamp
        requires { IsFine self.now }
        ensures value { result ≡ cut self.now }
        ensures bound { IsStamp result }
    {
        Stamp {
            frac: self.frac.cut(),
            ..*self
        }
    }

    /// Appends the spelling, with the digits of the second that the stamp has.
    ///
    /// # Errors
    ///
    /// `AllocError` where memory is wanting; then `out` is unchanged.
    pub fn write(&self, out: &mut Vec<u8>) -> Result<(), AllocError>
        requires { IsFine self.now }
        ensures ok { OnOk result (out.new.items ≡ out.old.items ++ stamp_text self.now) }
        ensures err { OnErr result (out.new.items ≡ out.old.items) }
    {
        out.reserve(MAX_SPELLING)?;
        self.push(out);
        Ok(())
    }

    /// Appends it where there is room for any spelling.
    #[inline(always)]
    pub(crate) fn push(&self, out: &mut Vec<u8>)
        requires value { IsFine self.now }
        requires room { vec_len out.old + MAX_SPELLING ≤ vec_capacity out.old }
        ensures items { out.new.items ≡ out.old.items ++ stamp_text self.now }
        ensures len { vec_len out.new ≤ vec_len out.old + MAX_SPELLING }
        ensures capacity { vec_capacity out.old ≤ vec_capacity out.new }
    {
        match self.frac {
            Fraction::Whole => out.extend_from_slice(&self.seconds_text()).unwrap(),
            Fraction::Three(millis) => out.extend_from_slice(&self.millis_text(millis)).unwrap(),
            Fraction::Six(micros) => {
                out.extend_from_slice(&self.millis_text((micros / 1000) as u16))
                    .unwrap();
                out.extend_from_slice(&three_digits((micros % 1000) as u16))
                    .unwrap();
            }
            Fraction::Nine(nanos) => {
                out.extend_from_slice(&self.millis_text((nanos / 1_000_000) as u16))
                    .unwrap();
                out.extend_from_slice(&three_digits((nanos / 1000 % 1000) as u16))
                    .unwrap();
                out.extend_from_slice(&three_digits((nanos % 1000) as u16))
                    .unwrap();
            }
        }
    }

    /// The time of day as `HH:MM:SS`.
    #[inline(always)]
    fn time_digits(&self) -> [u8; 8]
        ensures { result ≡ zero_padded 2 self.now.hour ++ 58 ∷ zero_padded 2 self.now.minute
            ++ 58 ∷ zero_padded 2 self.now.second }
    {
        let [h1, h2] = two_digits(self.hour);
        let [m1, m2] = two_digits(self.minute);
        let [s1, s2] = two_digits(self.second);
        [h1, h2, b':', m1, m2, b':', s1, s2]
    }

    /// The spelling without the fraction.
    #[inline(always)]
    fn seconds_text(&self) -> [u8; 17]
        requires { IsFine self.now }
        ensures { result ≡ seconds_text self.now }
    {
        let [y1, y2, y3, y4, m1, m2, d1, d2] = day_digits(self.day);
        let [t1, t2, t3, t4, t5, t6, t7, t8] = self.time_digits();
        [
            y1, y2, y3, y4, m1, m2, d1, d2, b'-', t1, t2, t3, t4, t5, t6, t7, t8,
        ]
    }

    /// The spelling with these milliseconds.
    #[inline(always)]
    fn millis_text(&self, millis: u16) -> [u8; 21]
        requires { IsFine self.now }
        ensures { result ≡ seconds_text self.now ++ fraction_text (Fraction.Three millis) }
    {
        let [y1, y2, y3, y4, m1, m2, d1, d2] = day_digits(self.day);
        let [t1, t2, t3, t4, t5, t6, t7, t8] = self.time_digits();
        let [k1, k2, k3] = three_digits(millis);
        [
            y1, y2, y3, y4, m1, m2, d1, d2, b'-', t1, t2, t3, t4, t5, t6, t7, t8, b'.', k1, k2, k3,
        ]
    }

    /// The milliseconds of the time of day.
    fn millis_of_day(&self) -> u32
        ensures value { result ≡ millis_of_day self.now }
        ensures bound { result < 10 ^ 9 }
    {
        3_600_000 * u32::from(self.hour)
            + 60_000 * u32::from(self.minute)
            + 1000 * u32::from(self.second)
            + self.frac.millis()
    }

    /// The milliseconds from 1 January 1970, 00:00, to the moment: its day, hour, minute, second
    /// and milliseconds added up.
    pub fn millis(&self) -> i64
        ensures { result ≡ stamp_millis self.now }
    {
        i64::from(self.day) * 86_400_000 + i64::from(self.millis_of_day())
    }

    /// The stamp of a moment, with three digits of the second. `millis` is the time since 1 January
    /// 1970, 00:00, in milliseconds, before the year 2100.
    pub fn of_millis(millis: u64) -> Stamp
        requires { millis ≤ MAX_MILLIS }
        ensures value { result ≡ stamp_at millis }
        ensures bound { IsStamp result }
    {
        Stamp {
            day: (millis / 86_400_000) as i32,
            hour: (millis / 3_600_000 % 24) as u8,
            minute: (millis / 60_000 % 60) as u8,
            second: (millis / 1000 % 60) as u8,
            frac: Fraction::Three((millis % 1000) as u16),
        }
    }

    /// The spelling of a moment, with three digits of the second, as [`Stamp::of_millis`] has it.
    /// It takes no memory.
    pub fn text_of_millis(millis: u64) -> [u8; 21]
        requires { millis ≤ MAX_MILLIS }
        ensures { result ≡ stamp_text (stamp_at millis) }
    {
        Stamp::of_millis(millis).millis_text((millis % 1000) as u16)
    }
}
