//! The first fault of a message's fields beside their table.

ghost use Rattle.std.specs.Prelude.{◌≡◌, ◌==◌, ◌&&◌, IsTrue, None, Some, false, map, position};
ghost use Rattle.std.specs.Prelude.{◌≤◌, IfNone, IfSome, take};
ghost use Rattle.std.specs.List.{list_all};
ghost use Rattle.message_tables.specs.Tables.{Lines, has_tag, is_one_of};
ghost use Rattle.message_tables.specs.CodeTables.{group_of, item_of, row_of};
ghost use Rattle.message_tables.specs.CodeTables.{table_of as code_table};
ghost use Rattle.message_tables.specs.Plain.{IsLoose, fits, fits_at, is_good, member_fits};
ghost use Rattle.message_tables.specs.Plain.{with_place};
ghost use Rattle.first_faults.specs.OnePass.{AreGoodPlaces, Fit, ItemFit, ItemsFit, MembersFit};
ghost use Rattle.message_tables.specs.FirstFault.{first_fault, marked, once_in};
ghost use Rattle.message_tables.specs.Stages.{IsFound};
ghost use Rattle.message_tables.specs.TagMarks.{AreOnceMarked};
ghost use Rattle.row_values.specs.CodeKinds.{kind_of};
ghost use Rattle.row_values.specs.Kinds.{judge};
ghost use Rattle.first_faults.specs.Faults.{of_split, of_table};
ghost use Rattle.first_faults.specs.Gives.{IsClean};

use crate::indexed::Indexed;
use field_groups::{Fields, Split, SplitFault};
use message_tables::{
    Found, Item, Mark, RepeatingGroup, Row, Standing, Table, TableFault, TagMarks,
};
use order_meaning::Fault;
use row_values::Kind;

/// SessionRejectReason(373): invalid tag number.
const BAD_TAG: u8 = 0;

/// SessionRejectReason(373): value is incorrect (out of range) for this tag.
const RANGE: u8 = 5;

/// SessionRejectReason(373): incorrect data format for value.
const FORM: u8 = 6;

/// The most fields of a body.
const MAX_FIELDS: usize = 256;

/// The places of fields that have a row.
type Rowed = [bool; MAX_FIELDS];

/// What stopped the fields of a body, as a fault of the message.
fn of_split(fault: SplitFault) -> Fault
    ensures { result ≡ of_split fault }
{
    let (tag, reason) = match fault {
        SplitFault::NoTag { at: _ } | SplitFault::BadTag { at: _ } => (None, BAD_TAG),
        SplitFault::NoEnd { at: _ } => (None, FORM),
        SplitFault::DataLength { tag } => (Some(tag), FORM),
        SplitFault::TooMany => (None, RANGE),
    };
    Fault::Session { tag, reason }
}

/// A fault of the fields, as a fault of the message.
fn of_table(fault: TableFault) -> Fault
    ensures { result ≡ of_table fault }
{
    match fault {
        TableFault::Reason { tag, reason } => Fault::Session {
            tag: Some(tag),
            reason,
        },
        TableFault::Outside { tag } => Fault::NoCounterpart { tag },
    }
}

/// What a field is beside its row.
pub(crate) fn mark(table: &Table<Kind>, fields: &Fields<'_>, tag: u32, value: &[u8]) -> Mark
    ensures { (tag, result)
        ≡ marked judge (code_table kind_of table.now) fields.now (tag, value.now) }
{
    match table.row(tag) {
        Some(row) => row.need.allows(row.kind.judge(fields, value)),
        None => table.without_row(tag, value),
    }
}

/// The first faults of the values of these fields.
fn found(table: &Table<Kind>, fields: &Fields<'_>) -> Found
    ensures { IsFound
        (map (marked judge (code_table kind_of table.now) fields.now) fields.now) result }
{
    let mut found = Found::new();
    let parts = fields.as_slice();
    for (tag, value) in parts {
        found = found.with(*tag, mark(table, fields, *tag, value));
    }
    found
}

/// Whether a field is good.
#[inline(always)]
pub(crate) fn is_good(mark: Mark) -> bool
    ensures { result ≡ is_good mark }
{
    match mark {
        Mark::Good => true,
        _ => false,
    }
}

/// Whether a value is good beside its row.
#[inline(always)]
pub(crate) fn value_fits(row: &Row<Kind>, fields: &Fields<'_>, value: &[u8]) -> bool
    ensures { result ≡ fits_at judge fields.now (row_of kind_of row.now) (Some value.now) }
{
    match row.kind.judge(fields, value) {
        Mark::Good => true,
        mark => is_good(row.need.allows(mark)),
    }
}

/// Whether the first field of a row's tag has a good value; `None` where no field has the tag. The
/// field's place is marked.
#[inline(always)]
fn first_fits(row: &Row<Kind>, fields: &Fields<'_>, rowed: &mut Rowed) -> Option<bool>
    ensures none { IfNone result (None ≡ position (λ f. f.0 == row.now.tag) fields.now) }
    ensures row { IfSome result (λ good. good ≡ fits judge fields.now (row_of kind_of row.now)) }
    ensures member { IfSome result (λ good.
        good ≡ member_fits judge fields.now (row_of kind_of row.now)) }
    ensures places { rowed.new
        ≡ with_place rowed.old (position (λ f. f.0 == row.now.tag) fields.now) }
{
    let place = fields.find(row.tag)?;
    rowed[place] = true;
    match fields.at(place) {
        None => Some(false),
        Some((_, value)) => Some(value_fits(row, fields, value)),
    }
}

/// Whether the field of a row has a good value, or none is needed. The field's place is marked.
#[inline(always)]
fn row_fits(row: &Row<Kind>, fields: &Fields<'_>, rowed: &mut Rowed) -> bool
    ensures fits { result ≡ fits judge fields.now (row_of kind_of row.now) }
    ensures places { rowed.new
        ≡ with_place rowed.old (position (λ f. f.0 == row.now.tag) fields.now) }
{
    match first_fits(row, fields, rowed) {
        None => !row.need.is_needed(fields),
        Some(good) => good,
    }
}

/// Whether rows fit.
fn rows_fit(rows: &[Row<Kind>], fields: &Fields<'_>, rowed: &mut Rowed) -> bool
    ensures { IsTrue result → Fit fields.now (map (row_of kind_of) rows.now) rowed.old rowed.new }
{
    for row in rows {
        if !row_fits(row, fields, rowed) {
            return false;
        }
    }
    true
}

/// Whether the field of a row of a group, the first that has its tag, has a good value. The field's
/// place is marked.
#[inline(always)]
fn member_fits(row: &Row<Kind>, fields: &Fields<'_>, rowed: &mut Rowed) -> bool
    ensures fits { result ≡ member_fits judge fields.now (row_of kind_of row.now) }
    ensures places { rowed.new
        ≡ with_place rowed.old (position (λ f. f.0 == row.now.tag) fields.now) }
{
    match first_fits(row, fields, rowed) {
        None => true,
        Some(good) => good,
    }
}

/// Whether the rows of a group fit.
fn members_fit(rows: &[Row<Kind>], fields: &Fields<'_>, rowed: &mut Rowed) -> bool
    ensures { IsTrue result
        → MembersFit fields.now (map (row_of kind_of) rows.now) rowed.old rowed.new }
{
    for row in rows {
        if !member_fits(row, fields, rowed) {
            return false;
        }
    }
    true
}

/// Whether a group of which a field stands is whole, and its rows fit.
#[inline(never)]
fn group_fits(group: &RepeatingGroup<Kind>, fields: &Fields<'_>, rowed: &mut Rowed) -> bool
    ensures { IsTrue result
        → ItemFit fields.now (Lines (group_of kind_of group.now)) rowed.old rowed.new }
{
    if !group.is_whole(fields) {
        return false;
    }
    members_fit(group.rows, fields, rowed)
}

/// Whether a group has no field, or fits.
#[inline(always)]
fn lines_fit(group: &RepeatingGroup<Kind>, fields: &Fields<'_>, rowed: &mut Rowed) -> bool
    ensures { IsTrue result
        → ItemFit fields.now (Lines (group_of kind_of group.now)) rowed.old rowed.new }
{
    if group.is_absent(fields) {
        return true;
    }
    group_fits(group, fields, rowed)
}

/// Whether an item fits, whatever it is: its row, or a group of which no field stands, or which is
/// whole.
#[inline(never)]
fn any_fits(item: &Item<Kind>, fields: &Fields<'_>, rowed: &mut Rowed) -> bool
    ensures { IsTrue result
        → ItemFit fields.now (item_of kind_of item.now) rowed.old rowed.new }
{
    match item {
        Item::One(row) => row_fits(row, fields, rowed),
        Item::Party(_) => true,
        Item::Lines(group) => lines_fit(group, fields, rowed),
    }
}

/// Whether an item fits. Most are rows.
#[inline(always)]
fn item_fits(item: &Item<Kind>, fields: &Fields<'_>, rowed: &mut Rowed) -> bool
    ensures { IsTrue result
        → ItemFit fields.now (item_of kind_of item.now) rowed.old rowed.new }
{
    match item {
        Item::One(row) => row_fits(row, fields, rowed),
        _ => any_fits(item, fields, rowed),
    }
}

/// Whether items fit.
fn items_fit(items: &[Item<Kind>], fields: &Fields<'_>, rowed: &mut Rowed) -> bool
    ensures { IsTrue result
        → ItemsFit fields.now (map (item_of kind_of) items.now) rowed.old rowed.new }
{
    for item in items {
        if !item_fits(item, fields, rowed) {
            return false;
        }
    }
    true
}

/// Whether the first places are all marked.
fn are_marked(rowed: &Rowed, count: usize) -> bool
    requires { count ≤ MAX_FIELDS }
    ensures { result ≡ list_all (λ one. one) (take count rowed.now) }
{
    rowed[..count].iter().all(|one| *one)
}

/// Whether the field at a place is the first one of its tag.
#[inline(always)]
pub(crate) fn is_first(fields: &Fields<'_>, tag: u32, place: usize) -> bool
    ensures { IsTrue result → Some place ≡ position (λ f. f.0 == tag) fields.now }
{
    match fields.find(tag) {
        None => false,
        Some(first) => first == place,
    }
}

/// Whether the field at a place is good where it is not the first one of a row. Most such fields
/// are those of the further lines of a group, and those without a row.
fn is_loose(table: &Table<Kind>, once: &TagMarks, fields: &Fields<'_>, place: usize) -> bool
    requires { AreOnceMarked (code_table (λ k. k) table.now) once.now }
    ensures { IsTrue result → IsLoose judge fields.now (code_table kind_of table.now) place }
{
    match fields.at(place) {
        None => false,
        Some((tag, value)) => match table.standing(once, tag) {
            Standing::Again(row) => value_fits(row, fields, value),
            Standing::WithoutRow => is_good(table.without_row(tag, value)),
            Standing::Once => {
                is_first(fields, tag, place) && is_good(mark(table, fields, tag, value))
            }
        },
    }
}

/// Whether each field is marked, or good without a mark.
#[inline(never)]
fn are_good(table: &Table<Kind>, fields: &Fields<'_>, rowed: &Rowed) -> bool
    ensures { IsTrue result → AreGoodPlaces (code_table kind_of table.now) fields.now rowed.now }
{
    let once = table.once_marks();
    for place in 0..fields.len() {
        if !rowed[place] && !is_loose(table, &once, fields, place) {
            return false;
        }
    }
    true
}

/// Whether each field is marked, as most are, or else good without a mark.
#[inline(always)]
fn all_good(table: &Table<Kind>, fields: &Fields<'_>, rowed: &Rowed) -> bool
    ensures { IsTrue result → AreGoodPlaces (code_table kind_of table.now) fields.now rowed.now }
{
    if are_marked(rowed, fields.len()) {
        return true;
    }
    are_good(table, fields, rowed)
}

/// Whether one pass over the rows shows that these fields are at no fault.
fn is_plain(table: &Table<Kind>, fields: &Fields<'_>) -> bool
    ensures { IsTrue result
        → first_fault judge (code_table kind_of table.now) fields.now ≡ None }
{
    let mut rowed = [false; MAX_FIELDS];
    rows_fit(table.header, fields, &mut rowed)
        && (items_fit(table.items, fields, &mut rowed) && all_good(table, fields, &rowed))
}

/// The first fault of these fields.
fn first_fault(table: &Table<Kind>, fields: &Fields<'_>) -> Option<TableFault>
    ensures { result ≡ first_fault judge (code_table kind_of table.now) fields.now }
{
    if is_plain(table, fields) {
        return None;
    }
    table.first_fault(fields, &found(table, fields))
}

/// The fields of a body, where they are whole and at no fault beside their table. It takes no
/// memory.
///
/// # Errors
///
/// `Session` and `NoCounterpart` for the first fault: what stopped the fields; a tag of the profile
/// twice; a version that is not spoken; a count, an order or a length of a group; a value that is
/// empty, of wrong form or out of range; a required field that is missing; a tag or a value outside
/// the profile.
pub fn good_fields<'s, 'a>(
    table: &Table<Kind>,
    split: &'s Split<'a>,
) -> Result<&'s Fields<'a>, Fault>
    ensures { IsClean (code_table kind_of table.now) split.now.fields split.now.fault result }
{
    match split.fault {
        Some(fault) => Err(of_split(fault)),
        None => {
            let fields = &split.fields;
            match first_fault(table, fields) {
                Some(fault) => Err(of_table(fault)),
                None => Ok(fields),
            }
        }
    }
}

/// The same beside a table whose rows are found by their tags, in less time.
///
/// # Errors
///
/// As [`good_fields`] has them.
pub fn good_fields_by<'s, 'a>(
    table: &Indexed,
    split: &'s Split<'a>,
) -> Result<&'s Fields<'a>, Fault>
    ensures { IsClean table.now split.now.fields split.now.fault result }
{
    match split.fault {
        Some(fault) => Err(of_split(fault)),
        None => {
            let fields = &split.fields;
            match table.first_fault(fields) {
                Some(fault) => Err(of_table(fault)),
                None => Ok(fields),
            }
        }
    }
}
