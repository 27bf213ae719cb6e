//! A table whose rows are found by their tags, and one pass over the fields of a message by it.

ghost use Rattle.std.specs.Prelude.{◌≡◌, ◌<◌, ◌+◌, ◌&&◌, List, IfSome, IsTrue, None};
ghost use Rattle.std.specs.Prelude.{IfNone, Some, false, map, slice_get, take, true};
ghost use Rattle.std.specs.Int.{bit_at};
ghost use Rattle.std.specs.List.{AllByRecursion, flat_map, list_all};
ghost use Rattle.message_tables.specs.declared.table.Item.{Item as CodeItem};
ghost use Rattle.message_tables.specs.declared.table.Table.{Table as CodeTable};
ghost use Rattle.message_tables.specs.CodeTables.{group_of, item_of, need_of, row_of};
ghost use Rattle.message_tables.specs.CodeTables.{table_of as code_table};
ghost use Rattle.message_tables.specs.Tables.{has_tag, is_one_of, tags_in};
ghost use Rattle.message_tables.specs.FirstFault.{first_fault, marked, once_in};
ghost use Rattle.message_tables.specs.Plain.{IsApart, IsLoose, IsWhole};
ghost use Rattle.message_tables.specs.Stages.{IsFound};
ghost use Rattle.message_tables.specs.TagMarks.{AreGroupsMarked};
ghost use Rattle.row_values.specs.declared.kinds.Kind.{Kind as CodeKind};
ghost use Rattle.row_values.specs.CodeKinds.{kind_of};
ghost use Rattle.row_values.specs.Kinds.{judge};
ghost use Rattle.first_faults.specs.Indexed.{AreGoodTo, AreNeeded, AreSaid, AreTagRows, HaveCome};
ghost use Rattle.first_faults.specs.Indexed.{IsOneMore, IsPlaceOf, front_place, front_row, own_row};
ghost use Rattle.first_faults.specs.Indexed.{IsWithBit};
ghost use Rattle.first_faults.specs.Indexed.{IsApartItem, IsGoodField, IsRowOf, IsTagRow};
ghost use Rattle.first_faults.specs.Indexed.{IsWholeItem};
ghost use Rattle.first_faults.specs.Indexed.{is_said, may_be_needed, needed_of, of_tag};
ghost use Rattle.first_faults.specs.Indexed.{own, row_in};
ghost use Rattle.first_faults.specs.Indexed.{with_place};

use crate::faults::{is_first, is_good, mark, value_fits};
use arrayvec::ArrayVec;
use field_groups::{Field, Fields};
use message_tables::{Found, Item, Mark, Need, RepeatingGroup, Row, Table, TableFault, TagMarks};
use row_values::Kind;
use std::marker::Model;

/// How many remainders of tags there are.
const REMAINDERS: usize = 512;

/// The most rows of a table that are found by their tags; further ones are searched. It is a power
/// of two, so that a place among them is known to be one without a test.
const MAX_ROWS: usize = 128;

/// The rows at the front, each of which has a bit of a `u64`. Rows of no group come first.
const FRONT: usize = 64;

/// The most rows that a message may have to say.
const MAX_NEEDED: usize = 32;

/// The first row of a tag in a table.
#[derive(Clone, Copy)]
enum TagRow {
    /// It is not known.
    Absent,
    /// It and its tag are in no group.
    Own(&'static Row<Kind>),
    /// Its tag may stand again and again, as those of the members of groups.
    Member(&'static Row<Kind>),
    /// There is none of this tag, which is of a group, as that of a count.
    Passed(u32),
}

impl TagRow {
    /// The row, where it is that of a tag.
    #[inline(always)]
    fn of(self, tag: u32) -> TagRow
        ensures { result ≡ of_tag tag self }
    {
        match self {
            TagRow::Absent => TagRow::Absent,
            TagRow::Own(row) => if row.tag == tag {
                TagRow::Own(row)
            } else {
                TagRow::Absent
            },
            TagRow::Member(row) => if row.tag == tag {
                TagRow::Member(row)
            } else {
                TagRow::Absent
            },
            TagRow::Passed(one) => if one == tag {
                TagRow::Passed(one)
            } else {
                TagRow::Absent
            },
        }
    }

    /// The row, where it is that of a tag and in no group.
    #[inline(always)]
    fn own(self, tag: u32) -> Option<&'static Row<Kind>>
        ensures { result ≡ own_row tag self }
    {
        match self {
            TagRow::Own(row) => if row.tag == tag { Some(row) } else { None },
            _ => None,
        }
    }
}

/// Rows that are found by their tags.
#[derive(Drop)]
struct TagRows {
    // For each remainder of tags by 512 the place of the last row whose tag has it.
    places: [u8; REMAINDERS],
    rows: [TagRow; MAX_ROWS],
    count: usize,
}

/// The first row of a tag. The tags of groups are marked.
fn tag_row(table: &'static Table<Kind>, groups: &TagMarks, tag: u32) -> TagRow
    requires { AreGroupsMarked (own table.now) groups.now }
    ensures { IsTagRow table.now result }
{
    match table.row(tag) {
        None => if table.is_in_groups_marked(groups, tag) {
            TagRow::Passed(tag)
        } else {
            TagRow::Absent
        },
        Some(row) => if !table.is_in_groups_marked(groups, tag) {
            TagRow::Own(row)
        } else if !table.is_once(tag) {
            TagRow::Member(row)
        } else {
            TagRow::Absent
        },
    }
}

impl TagRows {
    /// No rows.
    fn new() -> TagRows
        ensures { (table : CodeTable CodeKind) → AreTagRows table result.rows }
    {
        TagRows {
            places: [0; REMAINDERS],
            rows: [TagRow::Absent; MAX_ROWS],
            count: 0,
        }
    }

    /// Keeps the row of a tag, where there is room for it.
    fn keep(&mut self, table: &'static Table<Kind>, groups: &TagMarks, tag: u32)
        requires rows { AreTagRows table.now self.old.rows }
        requires groups { AreGroupsMarked (own table.now) groups.now }
        ensures { AreTagRows table.now self.new.rows }
    {
        let place = self.count;
        if place < MAX_ROWS {
            self.rows[place] = tag_row(table, groups, tag);
            self.places[tag as usize % REMAINDERS] = place as u8;
            self.count = place + 1;
        }
    }

    /// Keeps the rows of these tags.
    fn keep_all(&mut self, table: &'static Table<Kind>, groups: &TagMarks, rows: &[Row<Kind>])
        requires rows { AreTagRows table.now self.old.rows }
        requires groups { AreGroupsMarked (own table.now) groups.now }
        ensures { AreTagRows table.now self.new.rows }
    {
        for row in rows {
            self.keep(table, groups, row.tag);
        }
    }

    /// Keeps the row of an item.
    fn keep_one(&mut self, table: &'static Table<Kind>, groups: &TagMarks, item: &Item<Kind>)
        requires rows { AreTagRows table.now self.old.rows }
        requires groups { AreGroupsMarked (own table.now) groups.now }
        ensures { AreTagRows table.now self.new.rows }
    {
        if let Item::One(row) = item {
            self.keep(table, groups, row.tag);
        }
    }

    /// Keeps the rows of an item's group.
    fn keep_group(&mut self, table: &'static Table<Kind>, groups: &TagMarks, item: &Item<Kind>)
        requires rows { AreTagRows table.now self.old.rows }
        requires groups { AreGroupsMarked (own table.now) groups.now }
        ensures { AreTagRows table.now self.new.rows }
    {
        if let Item::Lines(group) = item {
            self.keep(table, groups, group.count);
            self.keep_all(table, groups, group.rows);
        }
    }

    /// The rows of a table.
    fn of(table: &'static Table<Kind>) -> TagRows
        ensures { AreTagRows table.now result.rows }
    {
        let mut rows = TagRows::new();
        let groups = table.group_marks();
        rows.keep_all(table, &groups, table.header);
        for item in table.items {
            rows.keep_one(table, &groups, item);
        }
        for item in table.items {
            rows.keep_group(table, &groups, item);
        }
        rows
    }

    /// The first row of a tag, where it is found.
    #[inline(always)]
    fn get(&self, table: &'static Table<Kind>, tag: u32) -> TagRow
        requires { AreTagRows table.now self.now.rows }
        ensures { IsRowOf table.now tag result }
    {
        let place = self.places[tag as usize % REMAINDERS];
        self.rows[place as usize % MAX_ROWS].of(tag)
    }

    /// The place at the front at which the row of a tag stands, if it stands there.
    #[inline(always)]
    fn front_place(&self, tag: u32) -> usize
        ensures place { result ≡ front_place self.now tag }
        ensures front { result < FRONT }
    {
        self.places[tag as usize % REMAINDERS] as usize % FRONT
    }

    /// The first row of a tag, where it is found at the front and is in no group.
    #[inline(always)]
    fn front_row(&self, table: &'static Table<Kind>, tag: u32) -> Option<&'static Row<Kind>>
        requires { AreTagRows table.now self.now.rows }
        ensures row { result ≡ front_row self.now tag }
        ensures first { IfSome result (λ row. IsRowOf table.now tag (TagRow.Own row)) }
    {
        self.rows[self.front_place(tag)].own(tag)
    }

    /// The place at the front of a row of a tag that is in no group, if one stands there.
    fn own_place(&self, tag: u32) -> Option<usize>
        ensures { IfSome result (IsPlaceOf self.now tag) }
    {
        let place = self.front_place(tag);
        match self.rows[place].own(tag) {
            Some(_) => Some(place),
            None => None,
        }
    }

    /// The place at the front of a row that each message says, where it is in no group.
    fn required_place(&self, row: &Row<Kind>) -> Option<usize>
        ensures { IfSome result (IsPlaceOf self.now row.now.tag) }
    {
        match row.need {
            Need::Required => self.own_place(row.tag),
            _ => None,
        }
    }

    /// Whether a field is good and the first one of a row at the front that is in no group, as most
    /// are. The rows of the fields that came are marked.
    #[inline(always)]
    fn is_own(
        &self,
        table: &'static Table<Kind>,
        fields: &Fields<'_>,
        place: usize,
        field: Field<'_>,
        come: &mut u64,
    ) -> bool
        requires rows { AreTagRows table.now self.now.rows }
        requires at { Some (field.0, field.1.now) ≡ slice_get fields.now place }
        requires come { HaveCome self.now (take place fields.now) come.old }
        ensures good { IsTrue result
            → IsGoodField (code_table kind_of table.now) fields.now place true }
        ensures come { HaveCome self.now (take (place + 1) fields.now) come.new }
    {
        let (tag, value) = field;
        match self.front_row(table, tag) {
            Some(row) => is_new(come, self.front_place(tag)) && row.kind.accepts(fields, value),
            None => false,
        }
    }
}

/// Rows that a message may have to say.
type Needed = ArrayVec<Option<&'static Row<Kind>>, MAX_NEEDED>;

/// Whether fields may have to say a row with this need.
fn may_be_needed(need: &Need) -> bool
    ensures { result ≡ may_be_needed (need_of need.now) }
{
    match need {
        Need::Required | Need::When(_) => true,
        _ => false,
    }
}

/// The row of an item, where a message may have to say it.
fn needed_row(item: &'static Item<Kind>) -> Option<&'static Row<Kind>>
    ensures { row_in result ≡ needed_of (item_of kind_of item.now) }
{
    match item {
        Item::One(row) => if may_be_needed(&row.need) {
            Some(row)
        } else {
            None
        },
        _ => None,
    }
}

/// The rows that a message may have to say.
#[derive(Drop)]
struct Needs {
    // The bits of those at the front that each message says.
    required: u64,
    others: Needed,
}

impl Needs {
    /// Keeps one more row; `false` where there is no room for it.
    fn keep(&mut self, place: Option<usize>, row: &'static Row<Kind>) -> bool
        requires { IfSome place (λ at. at < FRONT) }
        ensures { IsTrue result → IsOneMore self.old self.new place row.now }
    {
        match place {
            Some(at) => {
                self.required |= 1 << at;
                true
            }
            None => self.others.try_push(Some(row)).is_ok(),
        }
    }

    /// The rows of a table, of which those that are required are found at the front; `None` where
    /// there are more than 32 others.
    fn of(table: &'static Table<Kind>, rows: &TagRows) -> Option<Needs>
        ensures { IfSome result (AreNeeded table.now.items.now rows.now) }
    {
        let mut needs = Needs {
            required: 0,
            others: ArrayVec::new(),
        };
        for item in table.items {
            if let Some(row) = needed_row(item) {
                if !needs.keep(rows.required_place(row), row) {
                    return None;
                }
            }
        }
        Some(needs)
    }

    /// Whether each row has a field, or needs none, where the rows of these fields are marked.
    #[inline(always)]
    fn are_said(&self, fields: &Fields<'_>, come: u64) -> bool
        ensures { IsTrue result → (rows : TagRows) → HaveCome rows fields.now come
            → (items : List (CodeItem CodeKind)) → AreNeeded items rows self.now
            → AreSaid fields.now (map (item_of kind_of) items) }
    {
        self.required & come == self.required && are_said(self.others.as_slice(), fields)
    }
}

/// Whether a row has a field, or needs none.
#[inline(always)]
fn is_said(row: &Row<Kind>, fields: &Fields<'_>) -> bool
    ensures { result ≡ is_said fields.now (row_of kind_of row.now) }
{
    match fields.find(row.tag) {
        Some(_) => true,
        None => !row.need.is_needed(fields),
    }
}

/// The same of a row that there may be.
#[inline(always)]
fn is_said_if(row: &Option<&'static Row<Kind>>, fields: &Fields<'_>) -> bool
    ensures { IsTrue result → list_all (is_said fields.now) (row_in row.now) ≡ true }
{
    match row {
        None => true,
        Some(row) => is_said(row, fields),
    }
}

/// Whether each of these rows has a field, or needs none.
fn are_said(rows: &[Option<&'static Row<Kind>>], fields: &Fields<'_>) -> bool
    ensures { IsTrue result → list_all (is_said fields.now) (flat_map row_in rows.now) ≡ true }
{
    for row in rows {
        if !is_said_if(row, fields) {
            return false;
        }
    }
    true
}

/// The places of fields from the first to the last one that may be of a group.
#[derive(Clone, Copy)]
struct Span {
    /// The first place.
    from: usize,
    /// The place behind the last one; 0 where there is none.
    to: usize,
}

impl Span {
    /// With one more place behind it, whose field is in no group or may be of one.
    #[inline(always)]
    fn with(self, place: usize, alone: bool) -> Span
        requires { place < 256 }
        ensures { result ≡ with_place self place alone }
    {
        if alone {
            return self;
        }
        Span {
            from: if self.to == 0 { place } else { self.from },
            to: place + 1,
        }
    }
}

/// Whether a group has no field, or is whole. Its fields stand within a span.
fn is_whole(group: &RepeatingGroup<Kind>, fields: &Fields<'_>, span: Span) -> bool
    requires { IsApart fields.now (tags_in (group_of kind_of group.now)) span.from span.to }
    ensures { IsTrue result → IsWhole fields.now (group_of kind_of group.now) }
{
    group.is_absent(fields) || group.is_whole_between(fields, span.from, span.to)
}

/// Whether an item is no group, or a group that has no field or is whole.
fn is_whole_item(item: &Item<Kind>, fields: &Fields<'_>, span: Span) -> bool
    requires { IsApartItem fields.now span (item_of kind_of item.now) }
    ensures { IsTrue result → IsWholeItem fields.now (item_of kind_of item.now) }
{
    match item {
        Item::Lines(group) => is_whole(group, fields, span),
        _ => true,
    }
}

/// Whether each group has no field, or is whole.
#[inline(never)]
fn are_whole(items: &[Item<Kind>], fields: &Fields<'_>, span: Span) -> bool
    requires { AllByRecursion (IsApartItem fields.now span) (map (item_of kind_of) items.now) }
    ensures { IsTrue result
        → AllByRecursion (IsWholeItem fields.now) (map (item_of kind_of) items.now) }
{
    for item in items {
        if !is_whole_item(item, fields, span) {
            return false;
        }
    }
    true
}

/// Whether the field at a place is the first of its tag, or the tag may stand again.
fn stands_once(table: &Table<Kind>, fields: &Fields<'_>, tag: u32, place: usize) -> bool
    ensures { IsTrue result → (is_one_of (once_in (code_table (λ k. k) table.now)) tag
        && has_tag tag (take place fields.now)) ≡ false }
{
    is_first(fields, tag, place) || !table.is_once(tag)
}

/// Whether a field is good, whose row is searched in the table. Such fields are few: counts of
/// groups, and those without a row.
#[inline(never)]
fn is_loose(table: &Table<Kind>, fields: &Fields<'_>, place: usize) -> bool
    ensures { IsTrue result → IsLoose judge fields.now (code_table kind_of table.now) place }
{
    match fields.at(place) {
        None => false,
        Some((tag, value)) => stands_once(table, fields, tag, place)
            && is_good(mark(table, fields, tag, value)),
    }
}

/// Whether a bit was not set yet. It is set.
#[inline(always)]
fn is_new(come: &mut u64, place: usize) -> bool
    requires { place < FRONT }
    ensures new { IsTrue result → bit_at come.old place ≡ 0 }
    ensures come { IsWithBit come.old place come.new }
{
    let came = *come >> place & 1;
    *come |= 1 << place;
    came == 0
}

/// Whether each row that is needed has a field, where the rows of these fields are marked.
#[inline(always)]
fn are_said_by(needs: &Option<Needs>, fields: &Fields<'_>, come: u64) -> bool
    ensures { IsTrue result → (rows : TagRows) → HaveCome rows fields.now come
        → (items : List (CodeItem CodeKind)) → IfSome needs.now (AreNeeded items rows)
        → AreSaid fields.now (map (item_of kind_of) items) }
{
    match needs {
        None => false,
        Some(needs) => needs.are_said(fields, come),
    }
}

/// A table whose rows are found by their tags.
#[derive(Drop)]
pub struct Indexed {
    table: &'static Table<Kind>,
    rows: TagRows,
    needs: Option<Needs>,
}

impl Model for Indexed {
    ghost use Rattle.std.specs.Prelude.{IfSome};
    ghost use Rattle.message_tables.specs.Tables.{Table};
    ghost use Rattle.message_tables.specs.CodeTables.{table_of};
    ghost use Rattle.row_values.specs.CodeKinds.{kind_of};
    ghost use Rattle.row_values.specs.Kinds.{Kind};
    ghost use Rattle.first_faults.specs.Indexed.{AreNeeded, AreTagRows};

    ghost Value = { Table Kind };

    ghost view = { λ i. table_of kind_of i.table.now };

    ghost invariant = { λ i. AreTagRows i.table.now i.rows.rows
        × IfSome i.needs (AreNeeded i.table.now.items.now i.rows) };
}

impl Indexed {
    /// A table with its rows by their tags.
    pub fn new(table: &'static Table<Kind>) -> Indexed
        ensures { result ≡ code_table kind_of table.now }
    {
        let rows = TagRows::of(table);
        let needs = Needs::of(table, &rows);
        Indexed { table, rows, needs }
    }

    /// The table.
    #[inline(always)]
    pub fn table(&self) -> &'static Table<Kind>
        ensures { code_table kind_of result.now ≡ self.now }
    {
        self.table
    }

    /// Whether the field at a place is in no group; `None` where it is not good.
    #[inline(never)]
    fn judge_any(&self, fields: &Fields<'_>, place: usize) -> Option<bool>
        ensures { IfSome result (IsGoodField self.now fields.now place) }
    {
        let (tag, value) = fields.at(place)?;
        match self.rows.get(self.table, tag) {
            TagRow::Own(row) => if is_first(fields, tag, place) && value_fits(row, fields, value) {
                Some(true)
            } else {
                None
            },
            TagRow::Member(row) => if value_fits(row, fields, value) {
                Some(false)
            } else {
                None
            },
            TagRow::Passed(_) => if is_first(fields, tag, place) && !value.is_empty() {
                Some(false)
            } else {
                None
            },
            TagRow::Absent => if is_loose(self.table, fields, place) {
                Some(false)
            } else {
                None
            },
        }
    }

    /// How many fields at the front one pass finds good; `None` where it shows that all fields are
    /// at no fault.
    #[inline(always)]
    fn good_len(&self, fields: &Fields<'_>) -> Option<usize>
        ensures none { IfNone result (first_fault judge self.now fields.now ≡ None) }
        ensures good { IfSome result (AreGoodTo self.now fields.now) }
    {
        let parts = fields.as_slice();
        let rows = &self.rows;
        let mut come = 0;
        let mut span = Span { from: 0, to: 0 };
        for place in 0..fields.len() {
            if !rows.is_own(self.table, fields, place, parts[place], &mut come) {
                match self.judge_any(fields, place) {
                    None => return Some(place),
                    Some(alone) => span = span.with(place, alone),
                }
            }
        }
        if !are_said_by(&self.needs, fields, come) {
            return Some(parts.len());
        }
        if span.to == 0 {
            return None;
        }
        if are_whole(self.table.items, fields, span) {
            None
        } else {
            Some(parts.len())
        }
    }

    /// What a field is beside its row.
    fn mark(&self, fields: &Fields<'_>, tag: u32, value: &[u8]) -> Mark
        ensures { (tag, result) ≡ marked judge self.now fields.now (tag, value.now) }
    {
        match self.rows.get(self.table, tag) {
            TagRow::Own(row) => row.need.allows(row.kind.judge(fields, value)),
            TagRow::Member(row) => row.need.allows(row.kind.judge(fields, value)),
            TagRow::Passed(_) => self.table.without_row(tag, value),
            TagRow::Absent => mark(self.table, fields, tag, value),
        }
    }

    /// The first faults of the values of these fields, of which so many at the front are good.
    #[inline(never)]
    fn found(&self, fields: &Fields<'_>, good: usize) -> Found
        requires { AreGoodTo self.now fields.now good }
        ensures { IsFound (map (marked judge self.now fields.now) fields.now) result }
    {
        let parts = fields.as_slice();
        let mut found = Found::new();
        for place in good..parts.len() {
            let (tag, value) = parts[place];
            found = found.with(tag, self.mark(fields, tag, value));
        }
        found
    }

    /// The first fault of these fields.
    pub(crate) fn first_fault(&self, fields: &Fields<'_>) -> Option<TableFault>
        ensures { result ≡ first_fault judge self.now fields.now }
    {
        match self.good_len(fields) {
            None => None,
            Some(good) => self.table.first_fault(fields, &self.found(fields, good)),
        }
    }
}
