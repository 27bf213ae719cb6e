//! The lines of a group, written as fields say them.

ghost use Rattle.std.specs.Prelude.{◌≡◌, ◌≤◌, ◌++◌, ◌∷◌, [], IsTrue, OnOk, length, map};
ghost use Rattle.std.specs.List.{flat_map};
ghost use Rattle.std.specs.Option.{option_map};
ghost use Rattle.std.specs.Io.{StartsWith};
ghost use Rattle.field_groups.specs.Field.{body_of};
ghost use Rattle.message_tables.specs.CodeTables.{group_of, item_of, need_of, own_tags, row_of};
ghost use Rattle.message_tables.specs.CodeTables.{seen, table_of as code_table};
ghost use Rattle.message_tables.specs.FirstFault.{message_in};
ghost use Rattle.message_tables.specs.Tables.{Tag, group_says, in_lines, line_fields_in, lines_of};
ghost use Rattle.message_tables.specs.Content.{cell_fields, group_fields};
ghost use Rattle.row_values.specs.CodeKinds.{kind_of};
ghost use Rattle.row_values.specs.Kinds.{Value as values, judge, said};
ghost use Rattle.row_values.specs.Writing.{IsPart, count_fields, part_fields};
ghost use Rattle.rule_rows.specs.Rows.{AreWritten, IsWritten, fixed_text, group_at};
ghost use Rattle.rule_rows.specs.Rows.{have_written_lines, is_written, line_by, row_fields};
ghost use Rattle.value_kinds.specs.CodeKinds.{value_kind_of};

use field_groups::{Field, Fields, put_field, put_known, put_number};
use message_tables::{Item, Line, Lookup, Need, RepeatingGroup, Row, Table, line, line_end};
use row_values::{
    Kind, Part, Value, code, day, fine_stamp, flag, number, price, put_content, qty, reason, stamp,
    text,
};
use std::alloc::AllocError;
use value_kinds::ValueKind;

/// Appends one part of a content.
///
/// # Errors
///
/// As [`put_lines`].
#[tactic(auto, using(crate::proofs::Parts::of_parts))]
pub fn put_one(out: &mut Vec<u8>, part: Part<'_>) -> Result<(), AllocError>
    requires { IsPart part }
    ensures done { OnOk result (out.new.items ≡ out.old.items ++ body_of (part_fields part.entry)) }
    ensures kept { StartsWith out.new.items out.old.items }
{
    put_content(out, &[part])
}

/// Appends the field of a text, if there is one.
///
/// # Errors
///
/// As [`put_lines`].
#[inline(always)]
pub fn put_text(out: &mut Vec<u8>, tag: u32, text: Option<&[u8]>) -> Result<(), AllocError>
    ensures done { OnOk result (out.new.items
        ≡ out.old.items ++ body_of (cell_fields (Tag tag, option_map (λ t. t.now) text.entry))) }
    ensures kept { StartsWith out.new.items out.old.items }
{
    match text {
        None => Ok(()),
        Some(text) => put_known(out, tag, text),
    }
}

/// Appends what fields say at a tag as a value of a kind, in its canonical spelling, as a field of
/// that tag. A value outside the profile says nothing.
fn put_value<F: Lookup>(
    out: &mut Vec<u8>,
    fields: &F,
    kind: &ValueKind,
    tag: u32,
) -> Result<(), AllocError>
    requires { IsTrue (is_written (value_kind_of kind.now)) }
    ensures done { OnOk result (out.new.items ≡ out.old.items ++ body_of
        (cell_fields (Tag tag, said (F.fields fields.now) tag (values (value_kind_of kind.now))))) }
    ensures kept { StartsWith out.new.items out.old.items }
{
    match kind {
        ValueKind::Number => put_one(out, Part::Row(tag, Value::NumberIf(number(fields, tag)))),
        ValueKind::Reason => put_one(out, Part::Row(tag, Value::NumberIf(reason(fields, tag)))),
        ValueKind::Qty => {
            let dec = qty(fields, tag);
            put_one(out, Part::Row(tag, Value::DecIf(&dec)))
        }
        ValueKind::Price => {
            let dec = price(fields, tag);
            put_one(out, Part::Row(tag, Value::DecIf(&dec)))
        }
        ValueKind::Flag => {
            let flag = flag(fields, tag);
            put_one(out, Part::Row(tag, Value::FlagIf(&flag)))
        }
        ValueKind::Stamp => {
            let stamp = stamp(fields, tag);
            put_one(out, Part::Row(tag, Value::StampIf(&stamp)))
        }
        ValueKind::FineStamp => {
            let stamp = fine_stamp(fields, tag);
            put_one(out, Part::Row(tag, Value::StampIf(&stamp)))
        }
        ValueKind::Day => {
            let day = day(fields, tag);
            put_one(out, Part::Row(tag, Value::DayIf(&day)))
        }
        ValueKind::OneByte | ValueKind::Code(_) | ValueKind::Known(_) => {
            put_one(out, Part::Row(tag, Value::CodeIf(code(fields, tag, kind))))
        }
        ValueKind::Filled
        | ValueKind::Id
        | ValueKind::Text
        | ValueKind::Codes(_)
        | ValueKind::Word(_)
        | ValueKind::Currency => put_text(out, tag, text(fields, tag, kind)),
        ValueKind::MonthYear | ValueKind::DayOfMonth => Ok(()),
    }
}

/// What a row always says, whatever stands there.
fn fixed_text(need: &Need) -> Option<&'static [u8]>
    ensures { option_map (λ text. text.now) result ≡ fixed_text (need_of need.now) }
{
    match need {
        Need::Fixed(text) => Some(text),
        _ => None,
    }
}

/// Appends what fields say by a row.
#[tactic(auto, using(crate::proofs::LinesSaid::of_row))]
fn put_row<F: Lookup>(out: &mut Vec<u8>, fields: &F, row: &Row<Kind>) -> Result<(), AllocError>
    requires { IsWritten row.now }
    ensures done { OnOk result (out.new.items ≡ out.old.items
        ++ body_of (row_fields (F.fields fields.now) (row_of kind_of row.now))) }
    ensures kept { StartsWith out.new.items out.old.items }
{
    match fixed_text(&row.need) {
        Some(text) => put_field(out, row.tag, text),
        None => match &row.kind {
            Kind::Value(kind) => put_value(out, fields, kind, row.tag),
            _ => Ok(()),
        },
    }
}

/// Appends what fields say by rows, in their order.
#[tactic(auto, using(row_values::proofs::Contents::still_kept))]
fn put_rows<F: Lookup>(out: &mut Vec<u8>, fields: &F, rows: &[Row<Kind>]) -> Result<(), AllocError>
    requires { AreWritten rows.now }
    ensures done { OnOk result (out.new.items
        ≡ out.old.items ++ body_of (line_by rows.now (F.fields fields.now))) }
    ensures kept { StartsWith out.new.items out.old.items }
{
    for row in rows {
        put_row(out, fields, row)?;
    }
    Ok(())
}

/// The fields of the lines of a group; none where its count does not stand.
fn members<'f, 'a>(group: &RepeatingGroup<Kind>, fields: &'f Fields<'a>) -> &'f [Field<'a>]
    ensures { seen result.now ≡ line_fields_in (own_tags group.now) fields.now }
{
    match fields.find(group.count) {
        None => &[],
        Some(_) => group.lines(fields.as_slice()),
    }
}

/// How many lines begin among fields, of which the first begins one.
fn count_lines(members: &[Field<'_>], first: u32) -> usize
    ensures value { result ≡ length (in_lines first (seen members.now)) }
    ensures few { result ≤ length members.now }
{
    let mut from = 0;
    let mut count = 0;
    while from < members.len() {
        from = line_end(members, from, first);
        count += 1;
    }
    count
}

/// Appends the count of a group, at most 256, where it has lines.
///
/// # Errors
///
/// As [`put_lines`].
#[inline(always)]
pub fn put_count(out: &mut Vec<u8>, tag: u32, count: usize) -> Result<(), AllocError>
    requires { count ≤ 256 }
    ensures done { OnOk result (out.new.items
        ≡ out.old.items ++ body_of (count_fields tag count)) }
    ensures kept { StartsWith out.new.items out.old.items }
{
    if count == 0 {
        Ok(())
    } else {
        put_number(out, tag, count as u32)
    }
}

/// Appends the lines of which fields are.
#[tactic(auto, using(row_values::proofs::Contents::still_kept))]
fn put_members(
    out: &mut Vec<u8>,
    members: &[Field<'_>],
    first: u32,
    rows: &[Row<Kind>],
) -> Result<(), AllocError>
    requires { AreWritten rows.now }
    ensures done { OnOk result (out.new.items ≡ out.old.items
        ++ body_of (flat_map (line_by rows.now) (in_lines first (seen members.now)))) }
    ensures kept { StartsWith out.new.items out.old.items }
{
    let mut from = 0;
    while from < members.len() {
        let end = line_end(members, from, first);
        put_rows(
            out,
            &Line {
                fields: line(members, from, end),
            },
            rows,
        )?;
        from = end;
    }
    Ok(())
}

/// Appends the lines that fields say by a group, behind their count.
#[tactic(auto, using(row_values::proofs::Contents::still_kept))]
fn put_group(
    out: &mut Vec<u8>,
    fields: &Fields<'_>,
    group: &RepeatingGroup<Kind>,
) -> Result<(), AllocError>
    requires { AreWritten group.now.rows.now }
    ensures done { OnOk result (out.new.items ≡ out.old.items ++ body_of (group_fields
        group.now.count (group_says judge fields.now (group_of kind_of group.now)).1)) }
    ensures kept { StartsWith out.new.items out.old.items }
{
    let most = fields.len();
    let members = members(group, fields);
    let first = group.first();
    let count = count_lines(members, first);
    let _ = most; // at most 256, and so is the count
    put_count(out, group.count, count)?;
    put_members(out, members, first, group.rows)
}

/// The group of an item, where it has this count.
fn own_group(item: &Item<Kind>, count: u32) -> Option<&RepeatingGroup<Kind>>
    ensures { option_map (λ group. group_of kind_of group.now) result
        ≡ group_at count (item_of kind_of item.now ∷ []) }
{
    match item {
        Item::Lines(group) => if group.count == count {
            Some(group)
        } else {
            None
        },
        _ => None,
    }
}

/// The group of a count.
fn group_at(items: &[Item<Kind>], count: u32) -> Option<&RepeatingGroup<Kind>>
    ensures { option_map (λ group. group_of kind_of group.now) result
        ≡ group_at count (map (item_of kind_of) items.now) }
{
    for item in items {
        if let Some(group) = own_group(item, count) {
            return Some(group);
        }
    }
    None
}

/// Appends the lines of the group of a count, where a table has it.
#[inline(never)]
fn put_found(
    out: &mut Vec<u8>,
    fields: &Fields<'_>,
    table: &Table<Kind>,
    count: u32,
) -> Result<(), AllocError>
    requires { IsTrue (have_written_lines (code_table kind_of table.now).items) }
    ensures done { OnOk result (out.new.items ≡ out.old.items ++ body_of (group_fields count
        (lines_of count (message_in judge (code_table kind_of table.now) fields.now).groups))) }
    ensures kept { StartsWith out.new.items out.old.items }
{
    match group_at(table.items, count) {
        None => Ok(()),
        Some(group) => put_group(out, fields, group),
    }
}

/// Appends the lines of the group of a count, as a message says them that is read by a table. Of a
/// count that no field has there is nothing to write, and no call is made.
///
/// # Errors
///
/// `AllocError` for want of memory; what stood in `out` stays, and a part may stand behind it.
#[inline(always)]
pub fn put_lines(
    out: &mut Vec<u8>,
    fields: &Fields<'_>,
    table: &Table<Kind>,
    count: u32,
) -> Result<(), AllocError>
    requires { IsTrue (have_written_lines (code_table kind_of table.now).items) }
    ensures done { OnOk result (out.new.items ≡ out.old.items ++ body_of (group_fields count
        (lines_of count (message_in judge (code_table kind_of table.now) fields.now).groups))) }
    ensures kept { StartsWith out.new.items out.old.items }
{
    match fields.find(count) {
        None => Ok(()),
        Some(_) => put_found(out, fields, table, count),
    }
}
