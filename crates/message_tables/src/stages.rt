//! The first fault of a message's fields, stage by stage.

ghost use Rattle.std.specs.Prelude.{◌≡◌, ◌-◌, ◌<◌, ◌++◌, ◌∷◌, [], IsTrue, List, length, map};
ghost use Rattle.field_groups.specs.Field.{Field};
ghost use Rattle.message_tables.specs.Tables.{first_of, or_else};
ghost use Rattle.message_tables.specs.FirstFault.{once_in, twice, placed_from, fault_if, missing};
ghost use Rattle.message_tables.specs.FirstFault.{missing_of, in_groups, wrong_version, wrong};
ghost use Rattle.message_tables.specs.FirstFault.{beyond};
ghost use Rattle.message_tables.specs.Tables.{lines_in};
ghost use Rattle.message_tables.specs.FirstFault.{Marked, group_tags_in};
ghost use Rattle.message_tables.specs.Plain.{IsApart, IsWhole, placed_at};
ghost use Rattle.message_tables.specs.Stages.{IsFound};
ghost use Rattle.message_tables.specs.TagMarks.{AreOnceMarked};
ghost use Rattle.message_tables.specs.CodeTables.{seen, row_of, group_of, own_tags};
ghost use Rattle.message_tables.specs.CodeTables.{item_of, table_of};

use crate::group_lines::{line, line_end};
use crate::group_stage::first_misplaced;
use crate::lookup::{Line, Lookup, field_at, rest, stands_before, stands_in};
use crate::table::{Item, RepeatingGroup, Row, Table};
use crate::table_fault::{Mark, TableFault};
use crate::tag_marks::TagMarks;
use field_groups::{Field, Fields};

/// SessionRejectReason(373): tag appears more than once.
const TWICE: u8 = 13;

/// SessionRejectReason(373): required tag missing.
const MISSING: u8 = 1;

/// SessionRejectReason(373): the application version is not supported.
const VERSION: u8 = 18;

/// The fault, where there is one.
pub(crate) fn fault_if(is_there: bool, fault: TableFault) -> Option<TableFault>
    ensures { result ≡ fault_if is_there fault }
{
    if is_there { Some(fault) } else { None }
}

/// The fault of a tag of the profile that stands again at a place. The tags that stand at most once
/// are marked.
fn twice_at<K>(
    table: &Table<K>,
    once: &TagMarks,
    fields: &Fields<'_>,
    place: usize,
) -> Option<TableFault>
    requires marks { AreOnceMarked (table_of (λ k. k) table.now) once.now }
    requires within { place < length fields.now }
    ensures { result
        ≡ twice (once_in (table_of (λ k. k) table.now)) (placed_at fields.now place) }
{
    let (tag, _) = field_at(fields.as_slice(), place);
    if !stands_before(fields, tag, place) {
        return None;
    }
    fault_if(
        table.is_once_marked(once, tag),
        TableFault::Reason { tag, reason: TWICE },
    )
}

/// The first tag of the profile that stands again.
fn first_twice<K>(table: &Table<K>, fields: &Fields<'_>) -> Option<TableFault>
    ensures { result ≡ first_of
        (twice (once_in (table_of (λ k. k) table.now))) (placed_from [] fields.now) }
{
    let once = table.once_marks();
    for place in 0..fields.len() {
        if let Some(fault) = twice_at(table, &once, fields, place) {
            return Some(fault);
        }
    }
    None
}

/// The fault of a row that has to be said and is not.
fn missing_row<K, L: Lookup>(row: &Row<K>, fields: &L) -> Option<TableFault>
    ensures { result ≡ missing (L.fields fields.now) (row_of (λ k. k) row.now) }
{
    if row.need.is_needed(fields) && !stands_in(fields, row.tag) {
        Some(TableFault::Reason {
            tag: row.tag,
            reason: MISSING,
        })
    } else {
        None
    }
}

/// The first of these rows that a line has to say and does not.
fn missing_in<K>(rows: &[Row<K>], line: &[Field<'_>]) -> Option<TableFault>
    ensures { result ≡ first_of (missing (seen line.now)) (map (row_of (λ k. k)) rows.now) }
{
    for row in rows {
        if let Some(fault) = missing_row(row, &Line { fields: &*line }) {
            return Some(fault);
        }
    }
    None
}

/// The first line of a group that does not say what it has to.
fn missing_line<K>(group: &RepeatingGroup<K>, fields: &[Field<'_>]) -> Option<TableFault>
    ensures { result ≡ first_of (λ line. first_of (missing line) (group_of (λ k. k) group.now).rows)
        (lines_in (own_tags group.now) (seen fields.now)) }
{
    let fields = group.lines(fields);
    let mut from = 0;
    while from < fields.len() {
        let end = line_end(fields, from, group.first());
        if let Some(fault) = missing_in(group.rows, line(fields, from, end)) {
            return Some(fault);
        }
        from = end;
    }
    None
}

impl<K> RepeatingGroup<K> {
    /// Whether no field of the group stands at a wrong place, and each of its lines says what it
    /// has to.
    pub fn is_whole(&self, fields: &Fields<'_>) -> bool
        ensures { IsTrue result → IsWhole fields.now (group_of (λ k. k) self.now) }
    {
        self.is_whole_between(fields, 0, fields.len())
    }

    /// The same of a group whose fields stand between two places, the first of which may be one of
    /// them.
    pub fn is_whole_between(&self, fields: &Fields<'_>, from: usize, to: usize) -> bool
        requires apart { IsApart fields.now (own_tags self.now) from to }
        ensures { IsTrue result → IsWhole fields.now (group_of (λ k. k) self.now) }
    {
        self.is_whole_in(fields.as_slice(), from, to)
    }

    /// The same of fields as a slice.
    fn is_whole_in(&self, fields: &[Field<'_>], from: usize, to: usize) -> bool
        requires apart { IsApart (seen fields.now) (own_tags self.now) from to }
        ensures { IsTrue result → IsWhole (seen fields.now) (group_of (λ k. k) self.now) }
    {
        if !self.is_placed(fields, from, to) {
            return false;
        }
        match missing_line(self, rest(fields, from)) {
            Some(_) => false,
            None => true,
        }
    }
}

/// The fault of an item that has to be said and is not.
fn missing_item<K>(item: &Item<K>, fields: &Fields<'_>) -> Option<TableFault>
    ensures { result ≡ missing_of fields.now (item_of (λ k. k) item.now) }
{
    match item {
        Item::One(row) => missing_row(row, fields),
        Item::Party(_) => None,
        Item::Lines(group) => missing_line(group, fields.as_slice()),
    }
}

/// The first item that has to be said and is not.
fn first_missing<K>(table: &Table<K>, fields: &Fields<'_>) -> Option<TableFault>
    ensures { result ≡ first_of (missing_of fields.now) (table_of (λ k. k) table.now).items }
{
    for item in table.items {
        if let Some(fault) = missing_item(item, fields) {
            return Some(fault);
        }
    }
    None
}

/// The first faults of the values of fields, by their kinds.
#[derive(Clone, Copy, Debug, PartialEq, Eq)]
pub struct Found {
    /// A version that is not spoken.
    pub(crate) version: Option<TableFault>,
    /// A value of wrong form or out of range.
    pub(crate) wrong: Option<TableFault>,
    /// A tag or a value outside the profile.
    pub(crate) outside: Option<TableFault>,
}

impl Found {
    /// Nothing yet.
    pub fn new() -> Found
        ensures { IsFound [] result }
    {
        Found {
            version: None,
            wrong: None,
            outside: None,
        }
    }

    /// With one more field, of this tag and mark, behind those that it has.
    pub fn with(self, tag: u32, mark: Mark) -> Found
        ensures { (marks : List Marked)
            → IsFound marks self → IsFound (marks ++ (tag, mark) ∷ []) result }
    {
        Found {
            version: first(self.version, wrong_version(tag, mark)),
            wrong: first(self.wrong, wrong(tag, mark)),
            outside: first(self.outside, beyond(tag, mark)),
        }
    }
}

/// The first of two faults.
fn first(one: Option<TableFault>, other: Option<TableFault>) -> Option<TableFault>
    ensures { result ≡ or_else one other }
{
    match one {
        Some(fault) => Some(fault),
        None => other,
    }
}

/// The fault of a version that is not spoken.
fn wrong_version(tag: u32, mark: Mark) -> Option<TableFault>
    ensures { result ≡ wrong_version (tag, mark) }
{
    match mark {
        Mark::Wrong(reason) => if reason == VERSION {
            Some(TableFault::Reason { tag, reason })
        } else {
            None
        },
        _ => None,
    }
}

/// The fault of a value of wrong form or out of range.
fn wrong(tag: u32, mark: Mark) -> Option<TableFault>
    ensures { result ≡ wrong (tag, mark) }
{
    match mark {
        Mark::Wrong(reason) => Some(TableFault::Reason { tag, reason }),
        _ => None,
    }
}

/// The fault of a tag or a value outside the profile.
fn beyond(tag: u32, mark: Mark) -> Option<TableFault>
    ensures { result ≡ beyond (tag, mark) }
{
    match mark {
        Mark::Outside => Some(TableFault::Outside { tag }),
        _ => None,
    }
}

impl<K> Table<K> {
    /// The first fault of these fields, by stage and place, with what was found of their values.
    pub fn first_fault(&self, fields: &Fields<'_>, found: &Found) -> Option<TableFault>
        ensures { result ≡
            or_else (first_of (twice (once_in (table_of (λ k. k) self.now)))
            (placed_from [] fields.now))
            (or_else found.now.version
            (or_else (first_of (in_groups (group_tags_in (table_of (λ k. k) self.now)))
            (placed_from [] fields.now))
            (or_else found.now.wrong
            (or_else (first_of (missing_of fields.now) (table_of (λ k. k) self.now).items)
            found.now.outside)))) }
    {
        if let Some(fault) = first_twice(self, fields) {
            return Some(fault);
        }
        if let Some(fault) = found.version {
            return Some(fault);
        }
        if let Some(fault) = first_misplaced(self, fields) {
            return Some(fault);
        }
        if let Some(fault) = found.wrong {
            return Some(fault);
        }
        first(first_missing(self, fields), found.outside)
    }
}
