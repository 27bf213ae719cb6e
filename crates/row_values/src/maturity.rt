//! Reading maturities as FIX 4.2 has them: a month, and a day of it.

ghost use Rattle.std.specs.Prelude.{◌≡◌, ◌≤◌, Some, None, IfSome, if◌then◌else◌};
ghost use Rattle.std.specs.Option.{option_map};
ghost use Rattle.typed_fields.specs.Day.{is_date};
ghost use Rattle.typed_fields.specs.MonthYear.{IsMonthYear};
ghost use Rattle.value_kinds.specs.ValueKind.{two_digit_text};
ghost use Rattle.row_values.specs.Kinds.{DayOf, month_at, said};
ghost use Rattle.row_values.specs.Lines.{IsReadableMaturity};
ghost use Rattle.row_values.specs.Maturity.{IsMaturity};

use crate::lines::Maturity;
use crate::values::month;
use field_groups::Fields;
use message_tables::Lookup;
use typed_fields::MonthYear;
use value_kinds::{day_of_month, has_day};

/// The day, where the month has it.
fn day_in(month: &MonthYear, day: u8) -> Option<u8>
    requires month { IsMonthYear month.now }
    requires day { day ≤ 99 }
    ensures { result ≡ (if is_date month.now.year month.now.month day then Some day else None) }
{
    if has_day(month, day) { Some(day) } else { None }
}

/// MaturityDay(205), a day that this month has.
fn month_day(fields: &Fields<'_>, month: &MonthYear) -> Option<u8>
    requires month { Some month.now ≡ month_at 200 fields.now }
    requires bound { IsMonthYear month.now }
    ensures { option_map two_digit_text result ≡ said fields.now 205 (DayOf 200) }
{
    match fields.value(205) {
        Some(bytes) => match day_of_month(bytes) {
            Some(day) => day_in(month, day),
            None => None,
        },
        None => None,
    }
}

/// MaturityMonthYear(200), and MaturityDay(205) where it stands.
pub fn month_and_day(fields: &Fields<'_>) -> Option<Maturity>
    ensures says { IsMaturity fields.now result }
    ensures bound { IfSome result IsReadableMaturity }
{
    match month(fields, 200) {
        Some(month) => Some(Maturity {
            month,
            day: month_day(fields, &month),
        }),
        None => None,
    }
}
