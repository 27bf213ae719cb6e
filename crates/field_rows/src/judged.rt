//! Values of a kind. Of the kinds that list something, `Code` and `Known` are here those of the
//! bytes `12`, `Codes` that of `1G`, and `Word` that of `CS` and `FUT`.

use crate::texts::{halves, tell};
use row_words::show;
use std::alloc::AllocError;
use value_kinds::{ValueKind, code, day, day_of_month, has_day, month_year, text};

/// The kind of a name, of those that list something.
fn listing(name: &str) -> Option<ValueKind> {
    Some(match name {
        "Code" => ValueKind::Code(b"12"),
        "Known" => ValueKind::Known(b"12"),
        "Codes" => ValueKind::Codes(b"1G"),
        "Word" => ValueKind::Word(&[b"CS", b"FUT"]),
        _ => return None,
    })
}

/// The kind of a name, of those of text.
fn of_text(name: &str) -> Option<ValueKind> {
    Some(match name {
        "Filled" => ValueKind::Filled,
        "Id" => ValueKind::Id,
        "Text" => ValueKind::Text,
        "OneByte" => ValueKind::OneByte,
        "Currency" => ValueKind::Currency,
        "Flag" => ValueKind::Flag,
        _ => return None,
    })
}

/// The kind of a name, of those of numbers and times.
fn of_number(name: &str) -> Option<ValueKind> {
    Some(match name {
        "Number" => ValueKind::Number,
        "Reason" => ValueKind::Reason,
        "Qty" => ValueKind::Qty,
        "Price" => ValueKind::Price,
        "Stamp" => ValueKind::Stamp,
        "FineStamp" => ValueKind::FineStamp,
        "Day" => ValueKind::Day,
        "MonthYear" => ValueKind::MonthYear,
        "DayOfMonth" => ValueKind::DayOfMonth,
        _ => return None,
    })
}

/// The kind of a name.
fn kind_of(name: &str) -> Option<ValueKind> {
    listing(name).or(of_text(name)).or(of_number(name))
}

/// Whether a value is one of the profile to the kind whose name comes first, or its fault.
fn judge(out: &mut String, given: &[u8]) -> Result<(), AllocError> {
    let Some((name, value)) = halves(given) else {
        return Ok(());
    };
    match kind_of(name).map(|kind| kind.judge(value)) {
        Some(Ok(answer)) => tell(out, &answer),
        Some(Err(fault)) => tell(out, &fault),
        None => Ok(()),
    }
}

/// A text of some of the bytes `1G`.
fn read_text(out: &mut String, given: &[u8]) -> Result<(), AllocError> {
    match text(&ValueKind::Codes(b"1G"), given) {
        Some(text) => show(out, text),
        None => out.push_str("None"),
    }
}

/// A code of the bytes `12`.
fn read_code(out: &mut String, given: &[u8]) -> Result<(), AllocError> {
    match code(&ValueKind::Known(b"12"), given) {
        Some(code) => show(out, &[code]),
        None => out.push_str("None"),
    }
}

/// Whether a month has a day.
fn has(given: &[u8]) -> Option<bool> {
    let (month, day) = halves(given)?;
    let month = month_year(month.as_bytes())?;
    let day = day_of_month(day)?;
    Some(has_day(&month, day))
}

/// Appends the answer to a call of this crate.
pub(crate) fn answer(out: &mut String, call: &str, given: &[u8]) -> Result<(), AllocError> {
    match call {
        "ValueKind::judge" => judge(out, given),
        "text" => read_text(out, given),
        "code" => read_code(out, given),
        "day" => tell(out, &day(given)),
        "month_year" => tell(out, &month_year(given)),
        "day_of_month" => tell(out, &day_of_month(given)),
        "has_day" => tell(out, &has(given)),
        _ => Ok(()),
    }
}
