//! What is written of groups, and of a value of each variant.

ghost use Rattle.std.specs.Prelude.{IfSome};
ghost use Rattle.row_values.specs.Lines.{IsReadableMaturity};

use field_groups::split;
use message_tables::Line;
use order_meaning::{Bytes, Lines, PartyLine};
use row_values::{
    AllocLine, Allocs, Maturity, Part, SessionLine, Sessions, Value, code, day, flag, month,
    number_or_zero, put_content, qty, qty_or_zero, stamp, stamp_or_epoch,
};
use row_words::show;
use std::alloc::{AllocError, Global};
use value_kinds::ValueKind::OneByte;

/// Appends a group of two parties.
fn put_parties(alloc: Global, out: &mut Vec<u8>) -> Result<(), AllocError> {
    let mut parties = Lines::new(alloc);
    parties.push(PartyLine {
        id: Bytes::copy(alloc, b"FUND")?,
        role: 3,
    })?;
    parties.push(PartyLine {
        id: Bytes::copy(alloc, b"EX")?,
        role: 1,
    })?;
    put_content(out, &[Part::Parties(&parties)])
}

/// Appends a group of one account.
fn put_allocs(alloc: Global, out: &mut Vec<u8>) -> Result<(), AllocError> {
    let mut allocs = Allocs::new(alloc);
    allocs.push(AllocLine {
        account: Bytes::copy(alloc, b"X")?,
        qty: None,
    })?;
    put_content(out, &[Part::Allocs(&allocs)])
}

/// Appends a group of one session.
fn put_sessions(alloc: Global, out: &mut Vec<u8>) -> Result<(), AllocError> {
    let mut sessions = Sessions::new(alloc);
    sessions.push(SessionLine {
        id: Bytes::copy(alloc, b"S")?,
    })?;
    put_content(out, &[Part::Sessions(&sessions)])
}

/// Appends texts.
fn put_texts(alloc: Global, out: &mut Vec<u8>) -> Result<(), AllocError> {
    let id = Bytes::copy(alloc, b"A1")?;
    let note = Some(Bytes::copy(alloc, b"note")?);
    put_content(out, &[Part::Row(448, Value::Text(&id))])?;
    put_content(out, &[Part::Row(58, Value::TextIf(&note))])
}

/// Appends codes, a flag and a number.
fn put_codes(line: &Line<'_>, out: &mut Vec<u8>) -> Result<(), AllocError> {
    let side = code(line, 54, &OneByte);
    let locate = flag(line, 114);
    let role = number_or_zero(line, 452);
    put_content(
        out,
        &[
            Part::Row(40, Value::Code(b'2')),
            Part::Row(54, Value::CodeIf(side)),
            Part::Row(59, Value::CodeIf(None)),
            Part::Row(114, Value::FlagIf(&locate)),
            Part::Row(452, Value::Number(role)),
        ],
    )
}

/// Appends decimal numbers.
fn put_decimals(line: &Line<'_>, out: &mut Vec<u8>) -> Result<(), AllocError> {
    let cum = qty_or_zero(line, 38);
    let order_qty = qty(line, 38);
    let stop_px = None;
    put_content(
        out,
        &[
            Part::Row(14, Value::Dec(&cum)),
            Part::Row(38, Value::DecIf(&order_qty)),
            Part::Row(99, Value::DecIf(&stop_px)),
        ],
    )
}

/// Appends a day and moments.
fn put_moments(line: &Line<'_>, out: &mut Vec<u8>) -> Result<(), AllocError> {
    let settl_date = day(line, 64);
    let effective = stamp_or_epoch(line, 60);
    let transacted = stamp(line, 60);
    put_content(
        out,
        &[
            Part::Row(64, Value::DayIf(&settl_date)),
            Part::Row(168, Value::Stamp(&effective)),
            Part::Row(60, Value::StampIf(&transacted)),
        ],
    )
}

/// The month of MaturityMonthYear(200), with its third day.
fn third_day(line: &Line<'_>) -> Option<Maturity>
    ensures { IfSome result IsReadableMaturity }
{
    match month(line, 200) {
        Some(month) => Some(Maturity {
            month,
            day: Some(3),
        }),
        None => None,
    }
}

/// Appends a month, its day and its date.
fn put_maturity(line: &Line<'_>, out: &mut Vec<u8>) -> Result<(), AllocError> {
    let maturity = third_day(line);
    put_content(
        out,
        &[
            Part::Row(200, Value::Month(&maturity)),
            Part::Row(205, Value::MonthDay(&maturity)),
            Part::Row(541, Value::Date(&maturity)),
        ],
    )
}

/// Appends values that the fields of a line say.
fn put_said(line: &Line<'_>, out: &mut Vec<u8>) -> Result<(), AllocError> {
    put_codes(line, out)?;
    put_decimals(line, out)?;
    put_moments(line, out)?;
    put_maturity(line, out)
}

/// The values that the fields of a body say, as they are written.
fn said(out: &mut String, alloc: Global, body: &[u8]) -> Result<(), AllocError> {
    let split = split(alloc, body)?;
    let mut bytes = Vec::new(alloc);
    let line = Line {
        fields: split.fields.as_slice(),
    };
    put_said(&line, &mut bytes)?;
    show(out, &bytes)
}

/// A group of each kind, and texts, as they are written.
fn groups(out: &mut String, alloc: Global) -> Result<(), AllocError> {
    let mut bytes = Vec::new(alloc);
    put_parties(alloc, &mut bytes)?;
    put_allocs(alloc, &mut bytes)?;
    put_sessions(alloc, &mut bytes)?;
    put_texts(alloc, &mut bytes)?;
    show(out, &bytes)
}

/// Appends the answer to a call of this crate.
pub(crate) fn answer(
    out: &mut String,
    alloc: Global,
    call: &str,
    given: &[u8],
) -> Result<(), AllocError> {
    match call {
        "put_groups" => groups(out, alloc),
        "put_said" => said(out, alloc, given),
        _ => Ok(()),
    }
}
