//! Tables of messages, as the code has them.

ghost use Rattle.std.specs.Prelude.{◌≡◌, ◌==◌};
ghost use Rattle.message_tables.specs.TagMarks.{AreOnceMarked};
ghost use Rattle.message_tables.specs.TagStanding.{IsStanding};
ghost use Rattle.std.specs.Option.{option_map};
ghost use Rattle.std.specs.List.{find, list_all, list_any};
ghost use Rattle.message_tables.specs.Tables.{passes, is_one_of, is_needed, is_inside, row_at};
ghost use Rattle.message_tables.specs.Tables.{rows_of, all_rows};
ghost use Rattle.message_tables.specs.FirstFault.{allowed, group_tags_in, group_tags_of};
ghost use Rattle.message_tables.specs.FirstFault.{once_in, once_of};
ghost use Rattle.message_tables.specs.FirstFault.{is_of_group, is_passed, without_row};
ghost use Rattle.message_tables.specs.CodeTables.{seen, test_of, need_of, row_of, own_tags};
ghost use Rattle.message_tables.specs.CodeTables.{item_of, table_of};
ghost use Rattle.message_tables.specs.Plain.{lacks, lacks_group};

use crate::lookup::{Lookup, is_among, lacks, stands_in};
use crate::table_fault::Mark;
use crate::tag_marks::TagMarks;
use field_groups::{Field, Fields};

/// SessionRejectReason(373): tag specified without a value.
const EMPTY: u8 = 4;

/// What a condition looks at.
#[derive(Clone, Copy, Debug)]
pub enum Test {
    /// A field of the tag stands.
    Stands(u32),
    /// The field of the tag has one of these bytes.
    Is(u32, &'static [u8]),
}

/// Whether each message says a row.
#[derive(Clone, Copy, Debug)]
pub enum Need {
    /// A message may say it.
    Optional,
    /// A message may say it; a value outside the profile says nothing.
    Lenient,
    /// It always says this, whatever stands there.
    Fixed(&'static [u8]),
    /// Each message says it.
    Required,
    /// A message in which all tests of one of these lists hold says it; another may.
    When(&'static [&'static [Test]]),
}

/// A row of a table.
#[derive(Clone, Copy, Debug)]
pub struct Row<K: 'static> {
    /// The tag of its field.
    pub tag: u32,
    /// The kind of its values.
    pub kind: K,
    /// Whether each message says it.
    pub need: Need,
}

/// A repeating group of a table.
pub struct RepeatingGroup<K: 'static> {
    /// The tag of its count.
    pub count: u32,
    /// The rows of a line; the first begins it.
    pub rows: &'static [Row<K>],
    /// The tags that stand in its lines and say nothing.
    pub skipped: &'static [u32],
}

/// What stands in a table.
pub enum Item<K: 'static> {
    /// A row.
    One(Row<K>),
    /// The id of the first party of a role.
    Party(u32),
    /// The lines of a group.
    Lines(RepeatingGroup<K>),
}

/// The table of a message.
pub struct Table<K: 'static> {
    /// The letter of its type.
    pub letter: u8,
    /// The rows of the header.
    pub header: &'static [Row<K>],
    /// The items of the message, in the order of writing.
    pub items: &'static [Item<K>],
    /// Whether a field that has no row is outside the profile, or passed over.
    pub strict: bool,
}

impl Test {
    /// Whether it holds of these fields.
    pub(crate) fn passes<L: Lookup>(&self, fields: &L) -> bool
        ensures { result ≡ passes (L.fields fields.now) (test_of self.now) }
    {
        match self {
            Test::Stands(tag) => stands_in(fields, *tag),
            Test::Is(tag, listed) => match fields.value(*tag) {
                Some([byte]) => is_byte(listed, *byte),
                _ => false,
            },
        }
    }
}

/// Whether a byte is among these.
fn is_byte(listed: &[u8], byte: u8) -> bool
    ensures { result ≡ is_one_of listed.now byte }
{
    listed.iter().any(|one| *one == byte)
}

/// Whether all these tests hold.
fn all_pass<L: Lookup>(tests: &[Test], fields: &L) -> bool
    ensures { result
        ≡ list_all (λ test. passes (L.fields fields.now) (test_of test)) tests.now }
{
    tests.iter().all(|test| test.passes(fields))
}

/// Whether all tests of one of these lists hold.
fn any_holds<L: Lookup>(condition: &[&[Test]], fields: &L) -> bool
    ensures { result ≡ list_any (λ tests. list_all
        (λ test. passes (L.fields fields.now) (test_of test)) tests.now) condition.now }
{
    condition.iter().any(|tests| all_pass(tests, fields))
}

/// The row of a tag.
fn find_row<K>(rows: &[Row<K>], tag: u32) -> Option<&Row<K>>
    ensures { option_map (λ row. row.now) result ≡ find (λ row. row.tag == tag) rows.now }
{
    rows.iter().find(|row| row.tag == tag)
}

/// Whether a row has a tag.
fn has_row<K>(rows: &[Row<K>], tag: u32) -> bool
    ensures { result ≡ list_any (λ row. row.tag == tag) rows.now }
{
    rows.iter().any(|row| row.tag == tag)
}

/// Whether no field has the tag of one of these rows.
fn rows_lack<K>(rows: &[Row<K>], fields: &Fields<'_>) -> bool
    ensures { result ≡ list_all (λ row. lacks fields.now row.tag) rows.now }
{
    rows.iter().all(|row| lacks(fields, row.tag))
}

/// Whether no field has one of these tags.
fn all_lack(tags: &[u32], fields: &Fields<'_>) -> bool
    ensures { result ≡ list_all (lacks fields.now) tags.now }
{
    tags.iter().all(|tag| lacks(fields, *tag))
}

impl Need {
    /// Whether these fields have to say a row with this need.
    #[inline(always)]
    #[tactic(auto, using(crate::proofs::Seen::condition_seen))]
    pub fn is_needed<L: Lookup>(&self, fields: &L) -> bool
        ensures { result ≡ is_needed (need_of self.now) (L.fields fields.now) }
    {
        match self {
            Need::Required => true,
            Need::When(condition) => any_holds(condition, fields),
            _ => false,
        }
    }

    /// What a field with this mark is beside a row with this need.
    #[inline(always)]
    pub fn allows(&self, mark: Mark) -> Mark
        ensures { result ≡ allowed (need_of self.now) mark }
    {
        match (self, mark) {
            (Need::Lenient | Need::Fixed(_), Mark::Outside) => Mark::Good,
            _ => mark,
        }
    }
}

impl<K> RepeatingGroup<K> {
    /// The tag that begins a line.
    pub fn first(&self) -> u32
        ensures { result ≡ (own_tags self.now).first }
    {
        match self.rows {
            [] => 0,
            [row, ..] => row.tag,
        }
    }

    /// Whether no field is of the group: neither its count, nor a member, nor one that says
    /// nothing.
    #[tactic(auto, using(crate::proofs::Seen::all_tags_seen))]
    pub fn is_absent(&self, fields: &Fields<'_>) -> bool
        ensures { result ≡ lacks_group fields.now (own_tags self.now) }
    {
        lacks(fields, self.count)
            && (rows_lack(self.rows, fields) && all_lack(self.skipped, fields))
    }

    /// Whether a tag is inside the group, as a member or as one that says nothing.
    #[tactic(auto, using(crate::proofs::Seen::tags_seen))]
    pub(crate) fn has(&self, tag: u32) -> bool
        ensures { result ≡ is_inside (own_tags self.now) tag }
    {
        has_row(self.rows, tag) || is_among(self.skipped, tag)
    }
}

impl<K> Item<K> {
    /// Whether a tag stands at most once by this item.
    fn is_once(&self, tag: u32) -> bool
        ensures { result ≡ is_one_of (once_of (item_of (λ k. k) self.now)) tag }
    {
        match self {
            Item::One(row) => row.tag == tag,
            Item::Party(_) => false,
            Item::Lines(group) => group.count == tag,
        }
    }

    /// Whether a tag is that of a group's count, or inside the group.
    fn is_in_group(&self, tag: u32) -> bool
        ensures { result ≡ list_any (is_of_group tag) (group_tags_of (item_of (λ k. k) self.now)) }
    {
        match self {
            Item::Lines(group) => group.count == tag || group.has(tag),
            _ => false,
        }
    }

    /// The row of a tag.
    #[tactic(auto, using(crate::proofs::Seen::row_seen))]
    fn row(&self, tag: u32) -> Option<&Row<K>>
        ensures { option_map (λ row. row_of (λ k. k) row.now) result
            ≡ row_at tag (rows_of (item_of (λ k. k) self.now)) }
    {
        match self {
            Item::One(row) => if row.tag == tag { Some(row) } else { None },
            Item::Party(_) => None,
            Item::Lines(group) => find_row(group.rows, tag),
        }
    }
}

/// How a tag may stand in a message.
#[derive(Debug)]
pub enum Standing<'t, K: 'static> {
    /// At most once: it has a row that is in no group, or is that of a group's count.
    Once,
    /// Again and again: this is its row, that of a member of a group.
    Again(&'t Row<K>),
    /// Again and again, and it has no row.
    WithoutRow,
}

/// Whether a tag stands at most once by one of these items.
fn is_once_in<K>(items: &[Item<K>], tag: u32) -> bool
    ensures { result ≡ list_any
        (λ item. is_one_of (once_of (item_of (λ k. k) item)) tag) items.now }
{
    for item in items {
        if item.is_once(tag) {
            return true;
        }
    }
    false
}

impl<K> Table<K> {
    /// The row of a tag.
    pub fn row(&self, tag: u32) -> Option<&Row<K>>
        ensures { option_map (λ row. row_of (λ k. k) row.now) result
            ≡ row_at tag (all_rows (table_of (λ k. k) self.now)) }
    {
        if let Some(row) = find_row(self.header, tag) {
            return Some(row);
        }
        for item in self.items {
            if let Some(row) = item.row(tag) {
                return Some(row);
            }
        }
        None
    }

    /// How a tag may stand in a message, where the tags that stand at most once are marked.
    pub fn standing(&self, once: &TagMarks, tag: u32) -> Standing<'_, K>
        requires { AreOnceMarked (table_of (λ k. k) self.now) once.now }
        ensures { IsStanding self.now tag result }
    {
        if self.is_once_marked(once, tag) {
            return Standing::Once;
        }
        match self.row(tag) {
            Some(row) => Standing::Again(row),
            None => Standing::WithoutRow,
        }
    }

    /// Whether a tag is of a group of the table: that of its count, or inside it.
    pub fn is_in_groups(&self, tag: u32) -> bool
        ensures { result
            ≡ list_any (is_of_group tag) (group_tags_in (table_of (λ k. k) self.now)) }
    {
        for item in self.items {
            if item.is_in_group(tag) {
                return true;
            }
        }
        false
    }

    /// Whether a field without a row may be passed over: in a table that is not strict, and where
    /// it is of a group: its count, or a tag that says nothing.
    pub(crate) fn is_passed(&self, tag: u32) -> bool
        ensures { result ≡ is_passed (table_of (λ k. k) self.now) tag }
    {
        !self.strict || self.is_in_groups(tag)
    }

    /// What a field without a row is.
    pub fn without_row(&self, tag: u32, value: &[u8]) -> Mark
        ensures { result ≡ without_row (is_passed (table_of (λ k. k) self.now) tag) value.now }
    {
        if value.is_empty() {
            Mark::Wrong(EMPTY)
        } else if self.is_passed(tag) {
            Mark::Good
        } else {
            Mark::Outside
        }
    }

    /// Whether a tag stands at most once in a message.
    pub fn is_once(&self, tag: u32) -> bool
        ensures { result ≡ is_one_of (once_in (table_of (λ k. k) self.now)) tag }
    {
        has_row(self.header, tag) || is_once_in(self.items, tag)
    }
}
