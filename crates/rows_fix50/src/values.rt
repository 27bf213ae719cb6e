//! What the fields of a message of FIX 5.0 SP2 say beside other fields.

ghost use Rattle.std.specs.Prelude.{◌≡◌, Some, option_and_then, IfSome};
ghost use Rattle.std.specs.Option.{option_map};
ghost use Rattle.value_kinds.specs.ValueKind as kinds;
ghost use Rattle.value_kinds.specs.ValueKind.{spelled, code_text};
ghost use Rattle.row_values.specs.Kinds.{TimeBeside, Value, month_in_date, said};
ghost use Rattle.row_values.specs.Lines.{IsReadableMaturity, month_text, date_text};
ghost use Rattle.rows_fix50.specs.Maturity.{IsDate, IsMaturity};

use field_groups::Fields;
use message_tables::Lookup;
use row_values::{AT_CLOSE, Maturity, code, may_close, month};
use value_kinds::ValueKind::Code;

/// TimeInForce(59), of which 7, at the close, counts only beside a market or limit order.
#[tactic(auto, using(crate::proofs::Times::time_said))]
pub fn time_in_force(fields: &Fields<'_>) -> Option<u8>
    ensures { option_map code_text result ≡ said fields.now 59 (TimeBeside 40) }
{
    match code(fields, 59, &Code(b"01234567")) {
        Some(time) => {
            if time != AT_CLOSE || may_close(fields, 40) {
                Some(time)
            } else {
                None
            }
        }
        None => None,
    }
}

/// The month and the day of a date.
fn month_and_day(date: &[u8]) -> Option<Maturity>
    requires { IsDate date.now }
    ensures month { option_map month_text result ≡ Some (month_in_date date.now) }
    ensures date { option_and_then date_text result ≡ Some date.now }
    ensures bound { IfSome result IsReadableMaturity }
{
    match value_kinds::month_year(&date[..6]) {
        Some(month) => Some(Maturity {
            month,
            day: value_kinds::day_of_month(&date[6..]),
        }),
        None => None,
    }
}

/// The month and the day of a date, if it is one.
#[tactic(auto, using(crate::proofs::Dates::is_date))]
fn date_of(date: &[u8]) -> Option<Maturity>
    ensures month { option_map month_text result
        ≡ option_map month_in_date (spelled kinds.Day date.now) }
    ensures date { option_and_then date_text result ≡ spelled kinds.Day date.now }
    ensures bound { IfSome result IsReadableMaturity }
{
    match value_kinds::day(date) {
        Some(_) => month_and_day(date),
        None => None,
    }
}

/// MaturityDate(541).
#[tactic(auto, using(row_values::proofs::Texts::at_tag))]
fn maturity_date(fields: &Fields<'_>) -> Option<Maturity>
    ensures month { option_map month_text result
        ≡ option_map month_in_date (said fields.now 541 (Value kinds.Day)) }
    ensures date { option_and_then date_text result
        ≡ said fields.now 541 (Value kinds.Day) }
    ensures bound { IfSome result IsReadableMaturity }
{
    match fields.value(541) {
        Some(date) => date_of(date),
        None => None,
    }
}

/// MaturityDate(541), and where it says none MaturityMonthYear(200).
#[tactic(auto, using(crate::proofs::Dates::month_alone))]
pub fn maturity(fields: &Fields<'_>) -> Option<Maturity>
    ensures says { IsMaturity fields.now result }
    ensures bound { IfSome result IsReadableMaturity }
{
    match maturity_date(fields) {
        Some(maturity) => Some(maturity),
        None => match month(fields, 200) {
            Some(month) => Some(Maturity { month, day: None }),
            None => None,
        },
    }
}
