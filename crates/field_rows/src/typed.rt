//! Values of fields.

ghost use Rattle.typed_fields.specs.Stamp.{IsFine};

use crate::texts::{halves, tell};
use row_words::show;
use std::alloc::{AllocError, Global};
use typed_fields::{
    Day, Dec, FieldValue, Flag, MAX_MILLIS, MAX_SPELLING, MonthYear, Number, Stamp, are_digits,
    point_in,
};

/// Appends the canonical spelling of a value.
fn spell<T: FieldValue>(out: &mut String, alloc: Global, value: &T) -> Result<(), AllocError>
    requires { T.can_be value.now }
{
    let mut text = Vec::new(alloc);
    value.write(&mut text)?;
    show(out, &text)
}

fn dec(out: &mut String, alloc: Global, given: &[u8]) -> Result<(), AllocError> {
    match Dec::read(given) {
        Ok(dec) => {
            let units = dec.units;
            write!(out, "{units} ")?;
            spell(out, alloc, &dec)
        }
        Err(fault) => tell(out, &fault),
    }
}

/// The canonical spelling of a number that is spelled in some way.
fn respelled(out: &mut String, alloc: Global, given: &[u8]) -> Result<(), AllocError> {
    let mut text = Vec::new(alloc);
    text.reserve(MAX_SPELLING)?;
    match Dec::respell(given, &mut text) {
        Ok(()) => show(out, &text),
        Err(fault) => tell(out, &fault),
    }
}

fn number(out: &mut String, alloc: Global, given: &[u8]) -> Result<(), AllocError> {
    match Number::read(given) {
        Ok(number) => {
            let value = number.value;
            write!(out, "{value} ")?;
            spell(out, alloc, &number)
        }
        Err(fault) => tell(out, &fault),
    }
}

fn flag(out: &mut String, alloc: Global, given: &[u8]) -> Result<(), AllocError> {
    match Flag::read(given) {
        Ok(flag) => {
            let yes = flag.yes;
            write!(out, "{yes} ")?;
            spell(out, alloc, &flag)
        }
        Err(fault) => tell(out, &fault),
    }
}

fn month_year(out: &mut String, alloc: Global, given: &[u8]) -> Result<(), AllocError> {
    match MonthYear::read(given) {
        Ok(month) => {
            let (year, number) = (month.year, month.month);
            write!(out, "{year} {number} ")?;
            spell(out, alloc, &month)
        }
        Err(fault) => tell(out, &fault),
    }
}

fn day(out: &mut String, alloc: Global, given: &[u8]) -> Result<(), AllocError> {
    match Day::read(given) {
        Ok(day) => {
            let number = day.day;
            write!(out, "{number} ")?;
            spell(out, alloc, &day)
        }
        Err(fault) => tell(out, &fault),
    }
}

/// The time of day of a stamp, and its spelling.
fn stamp_is(out: &mut String, alloc: Global, stamp: &Stamp) -> Result<(), AllocError>
    requires { IsFine stamp.now }
{
    let (hour, minute, second, frac) = (stamp.hour, stamp.minute, stamp.second, stamp.frac);
    write!(out, "{hour} {minute} {second} {frac:?} ")?;
    let mut text = Vec::new(alloc);
    stamp.write(&mut text)?;
    show(out, &text)
}

fn stamp(out: &mut String, alloc: Global, given: &[u8]) -> Result<(), AllocError> {
    match Stamp::read(given) {
        Ok(stamp) => stamp_is(out, alloc, &stamp),
        Err(fault) => tell(out, &fault),
    }
}

/// A stamp in the fine form, what is left of it where it is cut, and its moment.
fn fine_stamp(out: &mut String, alloc: Global, given: &[u8]) -> Result<(), AllocError> {
    match Stamp::read_fine(given) {
        Ok(stamp) => {
            stamp_is(out, alloc, &stamp)?;
            write!(out, " ")?;
            spell(out, alloc, &stamp.cut())?;
            let millis = stamp.millis();
            write!(out, " {millis}")
        }
        Err(fault) => tell(out, &fault),
    }
}

/// The number of digits.
fn u64_in(given: &[u8]) -> Option<u64> {
    std::str::from_utf8(given).ok()?.parse::<u64>().ok()
}

/// The stamp of a moment, and the moment of that stamp.
fn of_millis(out: &mut String, alloc: Global, given: &[u8]) -> Result<(), AllocError> {
    let millis = u64_in(given).unwrap_or(u64::MAX);
    if millis > MAX_MILLIS {
        return Ok(());
    }
    let stamp = Stamp::of_millis(millis);
    spell(out, alloc, &stamp)?;
    let millis = stamp.millis();
    write!(out, " {millis}")
}

/// The moment of a stamp.
fn millis(out: &mut String, given: &[u8]) -> Result<(), AllocError> {
    match Stamp::read(given) {
        Ok(stamp) => {
            let millis = stamp.millis();
            write!(out, "{millis}")
        }
        Err(fault) => tell(out, &fault),
    }
}

/// The canonical spelling of a value of any type; nothing where the bytes are none.
fn spelled<T: FieldValue + Drop>(
    out: &mut String,
    alloc: Global,
    given: &[u8],
) -> Result<(), AllocError> {
    T::laws();
    match T::read(given) {
        Ok(value) => spell(out, alloc, &value),
        Err(_) => Ok(()),
    }
}

/// The same of the type that comes first.
fn of_type(out: &mut String, alloc: Global, given: &[u8]) -> Result<(), AllocError> {
    match halves(given) {
        Some(("Dec", value)) => spelled::<Dec>(out, alloc, value),
        Some(("Number", value)) => spelled::<Number>(out, alloc, value),
        Some(("Flag", value)) => spelled::<Flag>(out, alloc, value),
        Some(("Day", value)) => spelled::<Day>(out, alloc, value),
        Some(("MonthYear", value)) => spelled::<MonthYear>(out, alloc, value),
        Some((_, value)) => spelled::<Stamp>(out, alloc, value),
        None => Ok(()),
    }
}

/// Appends the answer to a call of this crate.
pub(crate) fn answer(
    out: &mut String,
    alloc: Global,
    call: &str,
    given: &[u8],
) -> Result<(), AllocError> {
    match call {
        "Dec" => dec(out, alloc, given),
        "Dec::respell" => respelled(out, alloc, given),
        "Number" => number(out, alloc, given),
        "Flag" => flag(out, alloc, given),
        "MonthYear" => month_year(out, alloc, given),
        "Day" => day(out, alloc, given),
        "Stamp" => stamp(out, alloc, given),
        "Stamp::read_fine" => fine_stamp(out, alloc, given),
        "Stamp::of_millis" => of_millis(out, alloc, given),
        "Stamp::millis" => millis(out, given),
        "are_digits" => tell(out, &are_digits(given)),
        "point_in" => tell(out, &point_in(given)),
        "FieldValue" => of_type(out, alloc, given),
        _ => Ok(()),
    }
}
