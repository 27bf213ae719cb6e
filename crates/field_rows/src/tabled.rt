//! Fields beside a table with a header, rows of each need and a group.

use crate::grouped::show_tagged;
use crate::texts::{halves, tell};
use Need::{Fixed, Lenient, Optional, Required, When};
use field_groups::{Field, Fields, split};
use message_tables::{
    Found, Item, Mark, Need, RepeatingGroup, Row, Table, TableFault, Test, field_at, line,
    line_end, stands, value,
};
use row_words::number;
use std::alloc::{AllocError, Global};

/// A row, whose kind is the most bytes of its values.
macro_rules! row {
    ($tag:literal, $most:literal, $need:expr) => {
        Row {
            tag: $tag,
            kind: $most,
            need: $need,
        }
    };
}

/// The header, of which MsgSeqNum(34) is enough.
const HEADER: &[Row<u8>] = &[row!(34, 9, Optional)];

/// The rows of NoPartyIDs(453).
#[rattlefmt::skip]
const PARTY_ROWS: &[Row<u8>] = &[
    row!(448, 4, Required), // PartyID
    row!(447, 1, Optional), // PartyIDSource
    row!(452, 2, Required), // PartyRole
];

/// NoPartyIDs(453), with the sub-ids, which say nothing.
const PARTIES: RepeatingGroup<u8> = RepeatingGroup {
    count: 453,
    rows: PARTY_ROWS,
    skipped: &[802, 523, 803],
};

static GROUP: RepeatingGroup<u8> = PARTIES;

/// What asks for an ExpireTime(126): an OrderQty2(192) with the TimeInForce(59) 6, or any 7.
const EXPIRES: &[&[Test]] = &[
    &[Test::Stands(192), Test::Is(59, b"6")],
    &[Test::Is(59, b"7")],
];

/// The items of an order, with a row of each need.
#[rattlefmt::skip]
const ITEMS: &[Item<u8>] = &[
    Item::One(row!(11, 3, Required)), // ClOrdID
    Item::One(row!(1128, 0, Optional)), // ApplVerID
    Item::One(row!(40, 2, Required)), // OrdType
    Item::One(row!(192, 4, Optional)), // OrderQty2
    Item::One(row!(59, 2, Optional)), // TimeInForce
    Item::One(row!(126, 9, When(EXPIRES))), // ExpireTime
    Item::One(row!(58, 9, Lenient)), // Text
    Item::One(row!(100, 4, Fixed(b"XNYS"))), // ExDestination
    Item::Party(3),
    Item::Lines(PARTIES),
];

static STRICT: Table<u8> = Table {
    letter: b'D',
    header: HEADER,
    items: ITEMS,
    strict: true,
};

static OPEN: Table<u8> = Table {
    letter: b'D',
    header: HEADER,
    items: ITEMS,
    strict: false,
};

/// What a value is to a kind: `?` is outside the profile, and no version is spoken.
fn judge(most: u8, value: &[u8]) -> Mark {
    match value {
        [] => Mark::Wrong(4),
        [b'?'] => Mark::Outside,
        _ => if most == 0 {
            Mark::Wrong(18)
        } else if value.len() > usize::from(most) {
            Mark::Wrong(5)
        } else {
            Mark::Good
        },
    }
}

/// The first fault of fields, with what is found of each value.
fn first_fault(table: &Table<u8>, fields: &Fields<'_>) -> Option<TableFault> {
    let mut found = Found::new();
    for (tag, value) in fields {
        let mark = match table.row(*tag) {
            Some(row) => row.need.allows(judge(row.kind, value)),
            None => table.without_row(*tag, value),
        };
        found = found.with(*tag, mark);
    }
    table.first_fault(fields, &found)
}

/// The first fault of the fields of a body beside a table.
fn fault(
    out: &mut String,
    alloc: Global,
    body: &[u8],
    table: &Table<u8>,
) -> Result<(), AllocError> {
    let split = split(alloc, body)?;
    tell(out, &first_fault(table, &split.fields))
}

/// Whether a tag stands in a body, and its value.
fn looked_up(out: &mut String, alloc: Global, tag: u32, body: &[u8]) -> Result<(), AllocError> {
    let split = split(alloc, body)?;
    let fields = split.fields.as_slice();
    tell(out, &stands(fields, tag))?;
    show_tagged(out, tag, value(fields, tag).unwrap_or(b"none".as_slice()))
}

/// The field of a place.
fn placed(out: &mut String, alloc: Global, place: u32, body: &[u8]) -> Result<(), AllocError> {
    let split = split(alloc, body)?;
    let fields = split.fields.as_slice();
    let place = place as usize;
    if place >= fields.len() {
        return Ok(());
    }
    let (tag, value) = field_at(fields, place);
    show_tagged(out, tag, value)
}

/// The first of some lines, and where the second one ends.
fn first_line<'f, 'a>(lines: &'f [Field<'a>]) -> Option<(&'f [Field<'a>], usize)> {
    if lines.is_empty() {
        return None;
    }
    let end = line_end(lines, 0, 448);
    if end >= lines.len() {
        return None;
    }
    Some((line(lines, 0, end), line_end(lines, end, 448)))
}

/// Appends fields.
fn show_all(out: &mut String, fields: &[Field<'_>]) -> Result<(), AllocError> {
    for (tag, value) in fields {
        show_tagged(out, *tag, value)?;
    }
    Ok(())
}

/// The lines of the group of a body, the first of them, and where the second one ends.
fn lines(out: &mut String, alloc: Global, body: &[u8]) -> Result<(), AllocError> {
    let split = split(alloc, body)?;
    let lines = GROUP.lines(split.fields.as_slice());
    show_all(out, lines)?;
    match first_line(lines) {
        Some((line, end)) => {
            out.push(' ')?;
            show_all(out, line)?;
            write!(out, " {end}")
        }
        None => Ok(()),
    }
}

/// The answer to a call with a number.
fn with_number(
    out: &mut String,
    alloc: Global,
    call: &str,
    number: u32,
    body: &[u8],
) -> Result<(), AllocError> {
    match call {
        "value" => looked_up(out, alloc, number, body),
        "field_at" => placed(out, alloc, number, body),
        "Table::row" => tell(out, &STRICT.row(number).map(|row| row.kind)),
        _ => Ok(()),
    }
}

/// Appends the answer to a call of this crate; `Table::first_fault` is given the table before the
/// body.
pub(crate) fn answer(
    out: &mut String,
    alloc: Global,
    call: &str,
    given: &[u8],
) -> Result<(), AllocError> {
    match (call, halves(given)) {
        ("Table::first_fault", Some(("strict", body))) => fault(out, alloc, body, &STRICT),
        ("Table::first_fault", Some(("open", body))) => fault(out, alloc, body, &OPEN),
        ("RepeatingGroup::lines", _) => lines(out, alloc, given),
        (_, Some((word, body))) => match number(word) {
            Some(number) => with_number(out, alloc, call, number, body),
            None => Ok(()),
        },
        _ => Ok(()),
    }
}
