//! Months of years.

ghost use Rattle.std.specs.Prelude.{◌≡◌, ◌++◌, ◌+◌, ◌≤◌, IfOk, vec_capacity, vec_len};
ghost use Rattle.typed_fields.specs.MonthYear.{read_month_year, month_year_text, IsMonthYear};

use crate::digits::{four_digits, has_pattern, number_at, two_digits};
use crate::fault::FieldFault;
use crate::value::MAX_SPELLING;

/// A month of a year from 0000 to 9999, as the data type month-year of FIX 4.2.
///
/// Its form is `YYYYMM`, which is also its spelling. The month is 1 to 12.
#[derive(Clone, Copy, Debug, PartialEq, Eq, PartialOrd, Ord, Hash)]
pub struct MonthYear {
    /// The year, from 0000 to 9999.
    pub year: u16,
    /// The month, from 1 to 12.
    pub month: u8,
}

impl MonthYear {
    /// Reads a month.
    ///
    /// # Errors
    ///
    /// `Empty` for no bytes, `Form` for anything but six digits, and `Range` for a month that is
    /// not 01 to 12.
    pub fn read(value: &[u8]) -> Result<MonthYear, FieldFault>
        ensures value { result ≡ read_month_year value.now }
        ensures bound { IfOk result IsMonthYear }
    {
        if value.is_empty() {
            return Err(FieldFault::Empty);
        }
        if !has_pattern(b"YYYYMM", value) {
            return Err(FieldFault::Form);
        }
        let year = number_at(value, 0, 4);
        let month = number_at(value, 4, 6) as u8;
        if month < 1 || month > 12 {
            return Err(FieldFault::Range);
        }
        Ok(MonthYear { year, month })
    }

    /// Appends the six digits where there is room for any spelling.
    #[inline(always)]
    pub(crate) fn push(&self, out: &mut Vec<u8>)
        requires value { IsMonthYear self.now }
        requires room { vec_len out.old + MAX_SPELLING ≤ vec_capacity out.old }
        ensures items { out.new.items ≡ out.old.items ++ month_year_text self.now }
        ensures len { vec_len out.new ≤ vec_len out.old + MAX_SPELLING }
        ensures capacity { vec_capacity out.old ≤ vec_capacity out.new }
    {
        let [y1, y2, y3, y4] = four_digits(self.year);
        let [m1, m2] = two_digits(self.month);
        out.extend_from_slice(&[y1, y2, y3, y4, m1, m2]).unwrap();
    }
}
