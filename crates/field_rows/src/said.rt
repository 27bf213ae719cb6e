//! What the fields of a message say, their first fault beside a small table, texts that are owned,
//! and the lines of each group.

use crate::texts::{halves, numbered, tell};
use field_groups::{Field, split};
use first_faults::good_fields;
use message_tables::Need::{Lenient, Optional, Required};
use message_tables::{Item, Line, Row, Table};
use order_meaning::{Fault, PartyLine};
use row_values::{
    ALLOCS, AllocLine, ContraLine, GroupLine, Kind, SessionLine, TEXTS, all_owned, bytes_of, code,
    day, flag, may_close, month, number_or_zero, or_empty, owned, price, qty, qty_or_zero, resend,
    stamp, stamp_or_epoch, text,
};
use row_words::show;
use std::alloc::{AllocError, Global};
use value_kinds::ValueKind::{self, Code, Filled, Id};

/// What fields say under a tag to the call of this name.
fn say(out: &mut String, line: &Line<'_>, call: &str, tag: u32) -> Result<(), AllocError> {
    match call {
        "text" => show(out, text(line, tag, &Id).unwrap_or(b"none".as_slice())),
        "code" => tell(out, &code(line, tag, &Code(b"12345"))),
        "qty" => tell(out, &qty(line, tag)),
        "qty_or_zero" => tell(out, &qty_or_zero(line, tag)),
        "price" => tell(out, &price(line, tag)),
        "day" => tell(out, &day(line, tag)),
        "stamp" => tell(out, &stamp(line, tag)),
        "stamp_or_epoch" => tell(out, &stamp_or_epoch(line, tag)),
        "month" => tell(out, &month(line, tag)),
        "flag" => tell(out, &flag(line, tag)),
        "number_or_zero" => tell(out, &number_or_zero(line, tag)),
        "may_close" => tell(out, &may_close(line, tag)),
        _ => tell(out, &resend(line)),
    }
}

/// The same, of the call, the tag and the body that are given.
fn said(out: &mut String, alloc: Global, given: &[u8]) -> Result<(), AllocError> {
    let Some((call, rest)) = halves(given) else {
        return Ok(());
    };
    let Some((tag, body)) = numbered(rest) else {
        return Ok(());
    };
    let split = split(alloc, body)?;
    let line = Line {
        fields: split.fields.as_slice(),
    };
    say(out, &line, call, tag)
}

/// Whether a text is owned as it is, and as these bytes where it may be none.
fn is_owned(alloc: Global, text: Option<&[u8]>, bytes: &[u8]) -> Result<bool, AllocError> {
    let owned = owned(alloc, text)?;
    let is_same = bytes_of(&owned) == text;
    let owned = or_empty(alloc, owned);
    Ok(is_same && owned.as_slice() == bytes)
}

/// Whether texts are owned as they are.
fn are_owned(alloc: Global, text: Option<&[u8]>) -> Result<bool, AllocError> {
    let mut all = true;
    for copy in all_owned(alloc, [text; TEXTS])? {
        all = all && bytes_of(&copy) == text;
    }
    Ok(all)
}

/// Whether a text is owned, alone and among others; none where it has no byte.
fn owned_text(out: &mut String, alloc: Global, given: &[u8]) -> Result<(), AllocError> {
    let text = if given.is_empty() { None } else { Some(given) };
    let alone = is_owned(alloc, text, given)?;
    let among = are_owned(alloc, text)?;
    write!(out, "{alone} {among}")
}

/// A row of the small table.
macro_rules! row {
    ($tag:literal, $kind:expr, $need:expr) => {
        Row {
            tag: $tag,
            kind: $kind,
            need: $need,
        }
    };
}

/// A row of each kind, and a group.
#[rattlefmt::skip]
const ITEMS: &[Item<Kind>] = &[
    Item::One(row!(1128, Kind::Version, Optional)), // ApplVerID
    Item::One(row!(11, Kind::Value(Id), Required)), // ClOrdID
    Item::Lines(ALLOCS),
    Item::One(row!(541, Kind::Value(ValueKind::Day), Optional)), // MaturityDate
    Item::One(row!(200, Kind::MonthBeside(541), Optional)), // MaturityMonthYear
    Item::One(row!(205, Kind::DayOf(200), Optional)), // MaturityDay
    Item::One(row!(40, Kind::Value(Code(b"123")), Required)), // OrdType
    Item::One(row!(59, Kind::TimeBeside(40), Optional)), // TimeInForce
    Item::One(row!(22, Kind::Value(Code(b"1")), Lenient)), // SecurityIDSource
    Item::One(row!(528, Kind::Byte(b"AIP"), Optional)), // OrderCapacity
];

static TABLE: Table<Kind> = Table {
    letter: b'D',
    header: &[row!(35, Kind::Value(Filled), Optional)],
    items: ITEMS,
    strict: true,
};

/// How many fields a body has, or its first fault.
fn found(alloc: Global, body: &[u8]) -> Result<Result<usize, Fault>, AllocError> {
    let split = split(alloc, body)?;
    match good_fields(&TABLE, &split) {
        Ok(fields) => Ok(Ok(fields.len())),
        Err(fault) => Ok(Err(fault)),
    }
}

/// A line of a party: its id and its role.
fn party(out: &mut String, alloc: Global, fields: &[Field<'_>]) -> Result<(), AllocError> {
    let party = PartyLine::read(alloc, fields)?;
    show(out, party.id.as_slice())?;
    write!(out, " {}", party.role)
}

/// A line of an account: its name and its quantity.
fn account(out: &mut String, alloc: Global, fields: &[Field<'_>]) -> Result<(), AllocError> {
    let line = AllocLine::read(alloc, fields)?;
    show(out, line.account.as_slice())?;
    write!(out, " {:?}", line.qty)
}

/// A line of a trading session: its id.
fn session(out: &mut String, alloc: Global, fields: &[Field<'_>]) -> Result<(), AllocError> {
    let session = SessionLine::read(alloc, fields)?;
    show(out, session.id.as_slice())
}

/// A line of the other side of a trade: its broker, its quantity, and whether it has a time and a
/// trader.
fn contra(out: &mut String, alloc: Global, fields: &[Field<'_>]) -> Result<(), AllocError> {
    let contra = ContraLine::read(alloc, fields)?;
    show(out, contra.broker.as_slice())?;
    let (has_time, has_trader) = (contra.time.is_some(), contra.trader.is_some());
    write!(out, " {:?} {has_time} {has_trader}", contra.qty)
}

/// A line of the group of this name.
fn line(out: &mut String, alloc: Global, group: &str, body: &[u8]) -> Result<(), AllocError> {
    let split = split(alloc, body)?;
    let fields = split.fields.as_slice();
    match group {
        "party" => party(out, alloc, fields),
        "alloc" => account(out, alloc, fields),
        "session" => session(out, alloc, fields),
        _ => contra(out, alloc, fields),
    }
}

/// Appends the answer to a call of this crate.
pub(crate) fn answer(
    out: &mut String,
    alloc: Global,
    call: &str,
    given: &[u8],
) -> Result<(), AllocError> {
    match (call, halves(given)) {
        ("said", _) => said(out, alloc, given),
        ("owned", _) => owned_text(out, alloc, given),
        ("good_fields", _) => tell(out, &found(alloc, given)?),
        ("line", Some((group, body))) => line(out, alloc, group, body),
        _ => Ok(()),
    }
}
