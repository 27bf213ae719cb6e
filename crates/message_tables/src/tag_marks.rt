//! Marks of the tags that stand once in a message, or that are of its groups, which tell of most
//! other tags that they do not or are not.

ghost use Rattle.std.specs.Prelude.{◌≡◌, [], ◌∷◌, map};
ghost use Rattle.std.specs.List.{flat_map, list_any};
ghost use Rattle.message_tables.specs.Tables.{is_one_of};
ghost use Rattle.message_tables.specs.FirstFault.{group_tags_in, is_of_group, once_in, once_of};
ghost use Rattle.message_tables.specs.CodeTables.{item_of, table_of};
ghost use Rattle.message_tables.specs.TagMarks.{AreGroupsMarked, AreOnceMarked, grouped};
ghost use Rattle.message_tables.specs.TagMarks.{is_marked, with_tags};

use crate::table::{Item, Row, Table};

/// How many remainders there are.
const REMAINDERS: usize = 512;

/// Marks of tags, by their remainders by 512: a tag whose remainder is not marked is none of those
/// marked.
pub type TagMarks = [bool; REMAINDERS];

/// Marks a tag.
#[inline(always)]
fn mark(marks: &mut TagMarks, tag: u32)
    ensures { marks.new ≡ with_tags (tag ∷ []) marks.old }
{
    marks[tag as usize % REMAINDERS] = true;
}

/// Marks the tags of rows.
#[inline(always)]
fn mark_rows<K>(rows: &[Row<K>], marks: &mut TagMarks)
    ensures { marks.new ≡ with_tags (map (λ row. row.tag) rows.now) marks.old }
{
    for row in rows {
        mark(marks, row.tag);
    }
}

/// Marks the tag that stands at most once by an item, if there is one.
fn mark_item<K>(item: &Item<K>, marks: &mut TagMarks)
    ensures { marks.new ≡ with_tags (once_of (item_of (λ k. k) item.now)) marks.old }
{
    match item {
        Item::One(row) => mark(marks, row.tag),
        Item::Party(_) => {}
        Item::Lines(group) => mark(marks, group.count),
    }
}

/// Marks the tags that stand at most once by items.
fn mark_items<K>(items: &[Item<K>], marks: &mut TagMarks)
    ensures { marks.new
        ≡ with_tags (flat_map (λ item. once_of (item_of (λ k. k) item)) items.now) marks.old }
{
    for item in items {
        mark_item(item, marks);
    }
}

/// Marks these tags.
fn mark_tags(tags: &[u32], marks: &mut TagMarks)
    ensures { marks.new ≡ with_tags tags.now marks.old }
{
    for tag in tags {
        mark(marks, *tag);
    }
}

/// Marks the tags of an item's group, if there is one: its count, and those inside it.
fn mark_group<K>(item: &Item<K>, marks: &mut TagMarks)
    ensures { marks.new ≡ with_tags (grouped (item_of (λ k. k) item.now)) marks.old }
{
    match item {
        Item::One(_) => {}
        Item::Party(_) => {}
        Item::Lines(group) => {
            mark(marks, group.count);
            mark_rows(group.rows, marks);
            mark_tags(group.skipped, marks);
        }
    }
}

/// Marks the tags of the groups of items.
fn mark_groups<K>(items: &[Item<K>], marks: &mut TagMarks)
    ensures { marks.new
        ≡ with_tags (flat_map (λ item. grouped (item_of (λ k. k) item)) items.now) marks.old }
{
    for item in items {
        mark_group(item, marks);
    }
}

/// Whether the remainder of a tag is marked.
#[inline(always)]
fn is_marked(marks: &TagMarks, tag: u32) -> bool
    ensures { result ≡ is_marked marks.now tag }
{
    marks[tag as usize % REMAINDERS]
}

impl<K> Table<K> {
    /// The marks of the tags that stand at most once in a message.
    pub fn once_marks(&self) -> TagMarks
        ensures { AreOnceMarked (table_of (λ k. k) self.now) result }
    {
        let mut marks = [false; REMAINDERS];
        mark_rows(self.header, &mut marks);
        mark_items(self.items, &mut marks);
        marks
    }

    /// The marks of the tags of groups.
    pub fn group_marks(&self) -> TagMarks
        ensures { AreGroupsMarked (table_of (λ k. k) self.now) result }
    {
        let mut marks = [false; REMAINDERS];
        mark_groups(self.items, &mut marks);
        marks
    }

    /// Whether a tag is of a group of the table, where those that are are marked.
    pub fn is_in_groups_marked(&self, groups: &TagMarks, tag: u32) -> bool
        requires { AreGroupsMarked (table_of (λ k. k) self.now) groups.now }
        ensures { result
            ≡ list_any (is_of_group tag) (group_tags_in (table_of (λ k. k) self.now)) }
    {
        is_marked(groups, tag) && self.is_in_groups(tag)
    }

    /// Whether a tag stands at most once in a message, where those that do are marked.
    #[inline(always)]
    pub(crate) fn is_once_marked(&self, once: &TagMarks, tag: u32) -> bool
        requires { AreOnceMarked (table_of (λ k. k) self.now) once.now }
        ensures { result ≡ is_one_of (once_in (table_of (λ k. k) self.now)) tag }
    {
        is_marked(once, tag) && self.is_once(tag)
    }
}
