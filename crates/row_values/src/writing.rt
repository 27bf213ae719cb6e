//! Writing contents: each row of a table is a part.

ghost use Rattle.std.specs.Prelude.{◌≡◌, ◌+◌, ◌<◌, ◌≤◌, ◌++◌, ◌∷◌, [], map, take, IfOk, IfSome};
ghost use Rattle.std.specs.Prelude.{OnErr, OnOk, option_and_then, vec_capacity, vec_len};
ghost use Rattle.std.specs.List.{AllByRecursion, flat_map};
ghost use Rattle.std.specs.Option.{option_map};
ghost use Rattle.std.specs.Io.{StartsWith};
ghost use Rattle.std.specs.Result.{result_ok};
ghost use Rattle.typed_fields.specs.Dec.{dec_text, read_dec};
ghost use Rattle.typed_fields.specs.Digits.{zero_padded};
ghost use Rattle.typed_fields.specs.MonthYear.{IsMonthYear, month_year_text};
ghost use Rattle.field_groups.specs.Field.{body_of, field_bytes};
ghost use Rattle.message_tables.specs.Tables.{Tag};
ghost use Rattle.message_tables.specs.Content.{cell_fields, group_fields};
ghost use Rattle.value_kinds.specs.ValueKind.{two_digit_text};
ghost use Rattle.row_values.specs.Lines.{IsReadableMaturity, month_text, date_text, month_day_text};
ghost use Rattle.row_values.specs.Writing.{IsPart, IsValue, count_fields};
ghost use Rattle.row_values.specs.Writing.{part_fields, value_text};

use crate::contras::Contras;
use crate::lines::{Allocs, GroupLine, Maturity, Sessions};
use field_groups::{AROUND, SOH, has_room, push_tag, put_byte, put_field, put_number, put_tag};
use order_meaning::{Bytes, GroupLines, Lines};
use std::alloc::AllocError;
use typed_fields::{Day, Dec, FieldValue, Flag, MAX_SPELLING, MonthYear, Number, Stamp};

/// What a row says, if it says anything. A content is written from an array of these, so that they
/// are small.
#[derive(Clone, Copy)]
pub enum Value<'a> {
    /// The bytes of a text.
    Text(&'a Bytes),
    /// These bytes, if there are any.
    TextIf(&'a Option<Bytes>),
    /// A code.
    Code(u8),
    /// A code, if there is one.
    CodeIf(Option<u8>),
    /// A decimal number.
    Dec(&'a Dec),
    /// A decimal number, if there is one.
    DecIf(&'a Option<Dec>),
    /// A day, if there is one.
    DayIf(&'a Option<Day>),
    /// A moment.
    Stamp(&'a Stamp),
    /// A moment, if there is one.
    StampIf(&'a Option<Stamp>),
    /// Yes or no, if it is said.
    FlagIf(&'a Option<Flag>),
    /// A number.
    Number(Number),
    /// A number, if there is one.
    NumberIf(Option<Number>),
    /// The month of a maturity, if there is one.
    Month(&'a Option<Maturity>),
    /// The day of a maturity, if it has one.
    MonthDay(&'a Option<Maturity>),
    /// The date of a maturity, if it has a day.
    Date(&'a Option<Maturity>),
}

/// A part of a content, in the order of its table.
#[derive(Clone, Copy)]
pub enum Part<'a> {
    /// The row of a tag.
    Row(u32, Value<'a>),
    /// Parties(453).
    Parties(&'a Lines),
    /// The accounts of an order, (78).
    Allocs(&'a Allocs),
    /// The sessions in which an order may trade, (386).
    Sessions(&'a Sessions),
    /// The brokers on the other side of a trade, (382).
    Contras(&'a Contras),
}

/// What a call answers that appends: an error only for want of memory.
type Appended = Result<(), AllocError>;

/// Appends a field of a value.
#[inline(never)]
#[tactic(auto, unfolding(field_groups::specs::Field::field_bytes))]
fn put_value<T: FieldValue>(out: &mut Vec<u8>, tag: u32, value: &T) -> Appended
    requires { T.can_be value.now }
    ensures done { OnOk result (out.new.items
        ≡ out.old.items ++ field_bytes (tag, T.spelling value.now)) }
    ensures kept { StartsWith out.new.items out.old.items }
{
    out.reserve(AROUND + MAX_SPELLING)?;
    push_tag(out, tag);
    value.push(out);
    out.push_reserved(SOH);
    Ok(())
}

/// Appends a field of a value, if there is one.
#[inline(always)]
pub(crate) fn put_if<T: FieldValue>(out: &mut Vec<u8>, tag: u32, value: &Option<T>) -> Appended
    requires { IfSome value.now T.can_be }
    ensures done { OnOk result (out.new.items
        ≡ out.old.items ++ body_of (cell_fields (Tag tag, option_map T.spelling value.now))) }
    ensures kept { StartsWith out.new.items out.old.items }
{
    match value {
        None => Ok(()),
        Some(value) => put_value(out, tag, value),
    }
}

/// Appends the field of a text, if there is one.
#[inline(always)]
pub(crate) fn put_text_if(out: &mut Vec<u8>, tag: u32, text: &Option<Bytes>) -> Appended
    ensures done { OnOk result (out.new.items
        ≡ out.old.items ++ body_of (cell_fields (Tag tag, text.now))) }
    ensures kept { StartsWith out.new.items out.old.items }
{
    match text {
        None => Ok(()),
        Some(text) => put_field(out, tag, text.as_slice()),
    }
}

/// Appends the field of a month, if there is one.
#[inline(always)]
fn put_month(out: &mut Vec<u8>, tag: u32, maturity: &Option<Maturity>) -> Appended
    requires { IfSome maturity.now IsReadableMaturity }
    ensures done { OnOk result (out.new.items
        ≡ out.old.items ++ body_of (cell_fields (Tag tag, option_map month_text maturity.now))) }
    ensures kept { StartsWith out.new.items out.old.items }
{
    match maturity {
        None => Ok(()),
        Some(maturity) => put_value(out, tag, &maturity.month),
    }
}

/// Appends the field of a date.
#[inline(never)]
#[tactic(auto, unfolding(field_groups::specs::Field::field_bytes))]
fn put_day(out: &mut Vec<u8>, tag: u32, month: MonthYear, day: u8) -> Appended
    requires { IsMonthYear month }
    ensures done { OnOk result (out.new.items ≡ out.old.items
        ++ field_bytes (tag, month_year_text month ++ zero_padded 2 day)) }
    ensures kept { StartsWith out.new.items out.old.items }
{
    put_tag(out, tag)?;
    month.write(out)?;
    out.extend_from_slice(&typed_fields::two_digits(day))?;
    out.push(SOH)?;
    Ok(())
}

/// A number of two digits.
fn two_digits(number: u8) -> [u8; 2]
    ensures { result ≡ two_digit_text number }
{
    [b'0' + number / 10, b'0' + number % 10]
}

/// Appends the field of a number of two digits.
#[inline(never)]
fn put_two_digits(out: &mut Vec<u8>, tag: u32, number: u8) -> Appended
    ensures done { OnOk result (out.new.items
        ≡ out.old.items ++ field_bytes (tag, two_digit_text number)) }
    ensures kept { StartsWith out.new.items out.old.items }
{
    put_field(out, tag, &two_digits(number))
}

/// Appends the field of a day of a month, if there is one.
#[inline(always)]
fn put_month_day(out: &mut Vec<u8>, tag: u32, maturity: &Option<Maturity>) -> Appended
    ensures done { OnOk result (out.new.items ≡ out.old.items
        ++ body_of (cell_fields (Tag tag, option_and_then month_day_text maturity.now))) }
    ensures kept { StartsWith out.new.items out.old.items }
{
    match maturity {
        Some(Maturity { day: Some(day), .. }) => put_two_digits(out, tag, *day),
        _ => Ok(()),
    }
}

/// Appends the field of a date, if there is one.
#[inline(always)]
fn put_date(out: &mut Vec<u8>, tag: u32, maturity: &Option<Maturity>) -> Appended
    requires { IfSome maturity.now IsReadableMaturity }
    ensures done { OnOk result (out.new.items
        ≡ out.old.items
        ++ body_of (cell_fields (Tag tag, option_and_then date_text maturity.now))) }
    ensures kept { StartsWith out.new.items out.old.items }
{
    match maturity {
        Some(
            Maturity {
                month,
                day: Some(day),
            },
        ) => put_day(out, tag, *month, *day),
        _ => Ok(()),
    }
}

/// Appends what a row says. A row that says nothing costs a look at it and no call.
#[inline(always)]
fn put_row(out: &mut Vec<u8>, tag: u32, value: &Value<'_>) -> Appended
    requires { IsValue value.now }
    ensures done { OnOk result (out.new.items
        ≡ out.old.items ++ body_of (cell_fields (Tag tag, value_text value.now))) }
    ensures kept { StartsWith out.new.items out.old.items }
{
    match value {
        Value::Text(text) => put_field(out, tag, text.as_slice()),
        Value::TextIf(text) => put_text_if(out, tag, text),
        Value::Code(code) => put_byte(out, tag, *code),
        Value::CodeIf(None) => Ok(()),
        Value::CodeIf(Some(code)) => put_byte(out, tag, *code),
        Value::Dec(dec) => put_value(out, tag, *dec),
        Value::DecIf(dec) => put_if(out, tag, *dec),
        Value::DayIf(day) => put_if(out, tag, *day),
        Value::Stamp(stamp) => put_value(out, tag, *stamp),
        Value::StampIf(stamp) => put_if(out, tag, *stamp),
        Value::FlagIf(flag) => put_if(out, tag, *flag),
        Value::Number(number) => put_number(out, tag, number.value),
        Value::NumberIf(number) => put_if(out, tag, number),
        Value::Month(maturity) => put_month(out, tag, maturity),
        Value::MonthDay(maturity) => put_month_day(out, tag, maturity),
        Value::Date(maturity) => put_date(out, tag, maturity),
    }
}

/// Ends a field by the decimal number that a value spells, where there is room for it. If it spells
/// none, the field is cut off, which begins at this place.
#[inline(never)]
fn end_dec(out: &mut Vec<u8>, start: usize, value: &[u8])
    requires room { vec_len out.old + MAX_SPELLING < vec_capacity out.old }
    ensures ok { IfOk (read_dec value.now)
        (λ dec. out.new.items ≡ (out.old.items ++ dec_text dec) ++ SOH ∷ []) }
    ensures err { OnErr (read_dec value.now) (out.new.items ≡ take start out.old.items) }
{
    match Dec::respell(value, out) {
        Ok(()) => out.push_reserved(SOH),
        Err(_) => out.truncate(start),
    }
}

/// Appends a field of the decimal number that a value spells, if it spells one, where there is
/// room.
#[inline(always)]
fn push_dec(out: &mut Vec<u8>, tag: u32, value: &[u8])
    requires { vec_len out.old + (AROUND + MAX_SPELLING) ≤ vec_capacity out.old }
    ensures { out.new.items ≡ out.old.items
        ++ body_of (cell_fields (Tag tag, option_map dec_text (result_ok (read_dec value.now)))) }
{
    let start = out.len();
    push_tag(out, tag);
    end_dec(out, start, value)
}

/// Appends a field of the decimal number that a value spells, if it spells one. Room is made.
#[inline(never)]
fn put_grown(out: &mut Vec<u8>, tag: u32, value: &[u8]) -> Appended
    ensures done { OnOk result (out.new.items ≡ out.old.items
        ++ body_of (cell_fields (Tag tag, option_map dec_text (result_ok (read_dec value.now))))) }
    ensures kept { StartsWith out.new.items out.old.items }
{
    out.reserve(AROUND + MAX_SPELLING)?;
    push_dec(out, tag, value);
    Ok(())
}

/// Appends a field of the decimal number that a value spells, if it spells one.
///
/// # Errors
///
/// `AllocError` for want of memory; what stood in `out` stays, and a part may stand behind it.
#[inline(always)]
pub fn put_dec(out: &mut Vec<u8>, tag: u32, value: &[u8]) -> Result<(), AllocError>
    ensures done { OnOk result (out.new.items ≡ out.old.items
        ++ body_of (cell_fields (Tag tag, option_map dec_text (result_ok (read_dec value.now))))) }
    ensures kept { StartsWith out.new.items out.old.items }
{
    if has_room(out, AROUND + MAX_SPELLING) && tag < 1000 {
        push_dec(out, tag, value);
        Ok(())
    } else {
        put_grown(out, tag, value)
    }
}

/// Appends the count of a group that has lines.
fn put_count(out: &mut Vec<u8>, tag: u32, count: usize) -> Appended
    requires { count ≤ 32 }
    ensures done { OnOk result (out.new.items
        ≡ out.old.items ++ body_of (count_fields tag count)) }
    ensures kept { StartsWith out.new.items out.old.items }
{
    if count == 0 {
        Ok(())
    } else {
        put_number(out, tag, count as u32)
    }
}

/// Appends a group that has lines.
#[inline(never)]
#[tactic(auto, using(crate::proofs::Contents::still_kept))]
fn put_lines<L: GroupLine>(out: &mut Vec<u8>, tag: u32, lines: &GroupLines<L>) -> Appended
    requires { AllByRecursion L.is_readable lines.now }
    ensures done { OnOk result (out.new.items
        ≡ out.old.items ++ body_of (group_fields tag (map L.cells lines.now))) }
    ensures kept { StartsWith out.new.items out.old.items }
{
    let lines = lines.as_slice();
    put_count(out, tag, lines.len())?;
    for line in lines {
        line.write(out)?;
    }
    Ok(())
}

/// Appends a group, if it has lines.
#[inline(always)]
fn put_group<L: GroupLine>(out: &mut Vec<u8>, tag: u32, lines: &GroupLines<L>) -> Appended
    requires { AllByRecursion L.is_readable lines.now }
    ensures done { OnOk result (out.new.items
        ≡ out.old.items ++ body_of (group_fields tag (map L.cells lines.now))) }
    ensures kept { StartsWith out.new.items out.old.items }
{
    match lines.as_slice() {
        [] => Ok(()),
        _ => put_lines(out, tag, lines),
    }
}

/// Appends a part of a content.
#[inline(always)]
fn put_part(out: &mut Vec<u8>, part: &Part<'_>) -> Appended
    requires { IsPart part.now }
    ensures done { OnOk result (out.new.items ≡ out.old.items ++ body_of (part_fields part.now)) }
    ensures kept { StartsWith out.new.items out.old.items }
{
    match part {
        Part::Row(tag, value) => put_row(out, *tag, value),
        Part::Parties(lines) => put_group(out, 453, lines),
        Part::Allocs(lines) => put_group(out, 78, lines),
        Part::Sessions(lines) => put_group(out, 386, lines),
        Part::Contras(lines) => put_group(out, 382, lines),
    }
}

/// Appends the parts of a content.
#[inline(always)]
#[tactic(auto, using(crate::proofs::Contents::still_kept))]
fn put_parts(out: &mut Vec<u8>, parts: &[Part<'_>]) -> Appended
    requires { AllByRecursion IsPart parts.now }
    ensures done { OnOk result (out.new.items
        ≡ out.old.items ++ body_of (flat_map part_fields parts.now)) }
    ensures kept { StartsWith out.new.items out.old.items }
{
    for part in parts {
        put_part(out, part)?;
    }
    Ok(())
}

/// Appends the parts of a content, all or none.
///
/// # Errors
///
/// `AllocError` for want of memory; then `out` is unchanged.
pub fn put_content(out: &mut Vec<u8>, parts: &[Part<'_>]) -> Result<(), AllocError>
    requires { AllByRecursion IsPart parts.now }
    ensures ok { OnOk result (out.new.items
        ≡ out.old.items ++ body_of (flat_map part_fields parts.now)) }
    ensures err { OnErr result (out.new.items ≡ out.old.items) }
{
    let start = out.len();
    if put_parts(out, parts).is_err() {
        out.truncate(start);
        return Err(AllocError);
    }
    Ok(())
}
