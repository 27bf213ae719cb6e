//! Days.

ghost use Rattle.std.specs.Prelude.{◌≡◌, ◌≤◌, ◌<◌, ◌++◌, ◌+◌, codes, take, length, IsTrue, IfOk};
ghost use Rattle.std.specs.Prelude.{vec_capacity, vec_len, if◌then◌else◌};
ghost use Rattle.typed_fields.specs.Digits.{are_digits, has_pattern};
ghost use Rattle.typed_fields.specs.Day.{read_day, spells_date, day_number, day_digits, day_text};
ghost use Rattle.typed_fields.specs.Day.{IsDayNumber, IsDay};

use crate::digits::{four_digits, has_pattern, number_at, two_digits};
use crate::fault::FieldFault;
use crate::value::MAX_SPELLING;
use jiff::civil::Date;

/// A day from 1 January 0000 to 31 December 9999 of the Gregorian calendar, as the data types
/// LocalMktDate and UTCDate of FIX 4.2.
///
/// Its form is `YYYYMMDD`, which is also its spelling.
#[derive(Clone, Copy, Debug, PartialEq, Eq, PartialOrd, Ord, Hash)]
pub struct Day {
    /// The days since 1 January 1970.
    pub day: i32,
}

/// Whether bytes have the form of a day. It stands once, so that its loop over a pattern of known
/// length is unrolled.
#[inline(never)]
fn has_day(bytes: &[u8]) -> bool
    ensures { result ≡ has_pattern (codes "YYYYMMDD") bytes.now }
{
    has_pattern(b"YYYYMMDD", bytes)
}

/// The number of the day that `YYYYMMDD..` spells, if the calendar has it.
#[inline(always)]
pub(crate) fn day_number(bytes: &[u8]) -> Option<i32>
    requires long { 8 ≤ length bytes.now }
    requires digits { IsTrue (are_digits (take 8 bytes.now)) }
    ensures { result ≡ (if spells_date bytes.now then Some (day_number bytes.now) else None) }
{
    let year = number_at(bytes, 0, 4) as i16;
    let month = number_at(bytes, 4, 6) as i8;
    let day = number_at(bytes, 6, 8) as i8;
    match Date::new(year, month, day) {
        Ok(date) => Some(date.to_plain().to_unix_epoch_day()),
        Err(_) => None,
    }
}

/// The spelling of a day.
pub(crate) fn day_digits(day: i32) -> [u8; 8]
    requires { IsDayNumber day }
    ensures { result ≡ day_digits day }
{
    let date = jiff_core::civil::Date::from_unix_epoch_day(i64::from(day)).unwrap();
    let [y1, y2, y3, y4] = four_digits(date.year as u16);
    let [m1, m2] = two_digits(date.month);
    let [d1, d2] = two_digits(date.day);
    [y1, y2, y3, y4, m1, m2, d1, d2]
}

impl Day {
    /// Reads a day.
    ///
    /// # Errors
    ///
    /// `Empty` for no bytes, `Form` for anything but eight digits, and `Range` for a date that the
    /// calendar lacks.
    #[inline(always)]
    pub fn read(value: &[u8]) -> Result<Day, FieldFault>
        ensures value { result ≡ read_day value.now }
        ensures bound { IfOk result IsDay }
    {
        if value.is_empty() {
            return Err(FieldFault::Empty);
        }
        if !has_day(value) {
            return Err(FieldFault::Form);
        }
        match day_number(value) {
            Some(day) => Ok(Day { day }),
            None => Err(FieldFault::Range),
        }
    }

    /// Appends the eight digits where there is room for any spelling.
    #[inline(always)]
    pub(crate) fn push(&self, out: &mut Vec<u8>)
        requires value { IsDay self.now }
        requires room { vec_len out.old + MAX_SPELLING ≤ vec_capacity out.old }
        ensures items { out.new.items ≡ out.old.items ++ day_text self.now }
        ensures len { vec_len out.new ≤ vec_len out.old + MAX_SPELLING }
        ensures capacity { vec_capacity out.old ≤ vec_capacity out.new }
    {
        out.extend_from_slice(&day_digits(self.day)).unwrap();
    }
}
