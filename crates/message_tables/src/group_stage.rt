//! The faults of groups: counts, members that stand elsewhere, and too many lines.

ghost use Rattle.std.specs.Prelude.{◌≡◌, ◌==◌, ◌+◌, ◌^◌, ◌<◌, ◌≤◌, ℕ, [], None, IsTrue, length};
ghost use Rattle.std.specs.Prelude.{take, reverse, count_by, false, true, if◌then◌else◌};
ghost use Rattle.message_tables.specs.Tables.{has_tag, first_of, is_inside};
ghost use Rattle.message_tables.specs.FirstFault.{group_tags_of, group_tags_in, placed_from};
ghost use Rattle.message_tables.specs.FirstFault.{in_groups, misplaced, misplaced_member, place_in};
ghost use Rattle.message_tables.specs.FirstFault.{lines_begun, line_before, is_opened, is_count};
ghost use Rattle.message_tables.specs.Plain.{IsApart, placed_at};
ghost use Rattle.field_groups.specs.HeadValues.{number_in};
ghost use Rattle.message_tables.specs.CodeTables.{seen, seen_at, own_tags, item_of, table_of};

use crate::lookup::{field_at, front, is_among, rest};
use crate::stages::fault_if;
use crate::table::{Item, RepeatingGroup, Table};
use crate::table_fault::TableFault;
use field_groups::{Field, Fields, number_in};

/// The most lines of a group.
const MAX_LINES: usize = field_groups::MAX_LINES;

/// SessionRejectReason(373): incorrect NumInGroup count for repeating group.
const COUNT: u8 = 16;

/// SessionRejectReason(373): repeating group fields out of order.
const ORDER: u8 = 15;

/// SessionRejectReason(373): value is incorrect (out of range) for this tag.
const RANGE: u8 = 5;

/// How many fields have this tag.
#[tactic(auto, using(crate::proofs::Seen::count_seen))]
fn count_of(fields: &[Field<'_>], tag: u32) -> usize
    ensures { result ≡ count_by (λ field. field.0 == tag) (seen fields.now) }
{
    count_in(fields, tag)
}

/// How many fields have this tag.
fn count_in(fields: &[Field<'_>], tag: u32) -> usize
    ensures { result ≡ count_by (λ field. field.0 == tag) fields.now }
{
    fields.iter().filter(|field| field.0 == tag).count()
}

/// Whether a value says so many lines.
fn is_count(value: &[u8], lines: usize) -> bool
    ensures { result ≡ is_count (number_in value.now) lines }
{
    match number_in(value) {
        Some(said) => said as usize == lines,
        None => false,
    }
}

/// What fields, from the last backwards, say of a group.
#[derive(Clone, Copy)]
struct Before {
    /// Whether they are of the group after its count, or the count.
    opened: bool,
    /// How many of them begin a line, as far as they are inside the group.
    lines: usize,
}

impl<K> RepeatingGroup<K> {
    /// Whether the last of these fields are of the group after its count, or the count.
    fn is_opened(&self, before: &[Field<'_>]) -> bool
        ensures { result ≡ is_opened (own_tags self.now) (reverse (seen before.now)) }
    {
        let mut place = before.len();
        while place > 0 {
            place -= 1;
            let (tag, _) = field_at(before, place);
            if tag == self.count {
                return true;
            }
            if !self.has(tag) {
                return false;
            }
        }
        false
    }

    /// The number of lines that begin in the run of the group's fields at the end of `before`.
    fn lines_before(&self, before: &[Field<'_>]) -> usize
        ensures { result ≡ lines_begun (own_tags self.now) (reverse (seen before.now)) }
    {
        let mut lines = 0;
        let mut place = before.len();
        while place > 0 {
            place -= 1;
            let (tag, _) = field_at(before, place);
            if !self.has(tag) {
                return lines;
            }
            if tag == self.first() {
                lines += 1;
            }
        }
        lines
    }

    /// Whether a tag stands in the last line of these fields, past the field that begins it.
    fn is_again(&self, before: &[Field<'_>], tag: u32) -> bool
        ensures { result
            ≡ has_tag tag (line_before (own_tags self.now) (reverse (seen before.now))) }
    {
        let mut place = before.len();
        while place > 0 {
            place -= 1;
            let (other, _) = field_at(before, place);
            if other == self.first() {
                return false;
            }
            if other == tag {
                return true;
            }
        }
        false
    }

    /// What these fields say of the group.
    fn before(&self, fields: &[Field<'_>]) -> Before
        ensures opened { result.opened
            ≡ is_opened (own_tags self.now) (reverse (seen fields.now)) }
        ensures lines { result.lines
            ≡ lines_begun (own_tags self.now) (reverse (seen fields.now)) }
    {
        Before {
            opened: self.is_opened(fields),
            lines: self.lines_before(fields),
        }
    }

    /// What they say with one field more, which is inside the group or not.
    #[inline(always)]
    fn with(&self, said: Before, tag: u32, inside: bool) -> Before
        requires { said.lines + 1 < 2 ^ 64 }
        ensures opened { result.opened ≡ (if tag == (own_tags self.now).count then true
            else (if inside then said.opened else false)) }
        ensures lines { result.lines ≡ (if inside
            then (if tag == (own_tags self.now).first then 1 else 0) + said.lines else 0) }
    {
        let begun = if tag == self.first() { 1 } else { 0 };
        Before {
            opened: tag == self.count || (inside && said.opened),
            lines: if inside { begun + said.lines } else { 0 },
        }
    }

    /// The fault of a tag inside the group, with the fields before it and what they say of the
    /// group. One that says nothing may stand anywhere.
    fn misplaced_member(&self, before: &[Field<'_>], said: Before, tag: u32) -> Option<TableFault>
        requires opened { said.opened
            ≡ is_opened (own_tags self.now) (reverse (seen before.now)) }
        requires lines { said.lines
            ≡ lines_begun (own_tags self.now) (reverse (seen before.now)) }
        ensures { result ≡ misplaced_member (own_tags self.now) (reverse (seen before.now)) tag }
    {
        if is_among(self.skipped, tag) {
            return None;
        }
        if !said.opened {
            return Some(TableFault::Reason { tag, reason: ORDER });
        }
        if tag == self.first() {
            if said.lines >= MAX_LINES {
                return Some(TableFault::Reason {
                    tag: self.count,
                    reason: RANGE,
                });
            }
            return None;
        }
        if said.lines == 0 || self.is_again(before, tag) {
            return Some(TableFault::Reason { tag, reason: ORDER });
        }
        None
    }

    /// The fault that the group has at a place, whose field is inside the group or not, by what the
    /// fields before it say.
    #[inline(always)]
    fn misplaced_by(
        &self,
        fields: &[Field<'_>],
        place: usize,
        inside: bool,
        said: Before,
    ) -> Option<TableFault>
        requires within { place < length fields.now }
        requires inside { inside ≡ is_inside (own_tags self.now) (seen_at fields.now place).0 }
        requires opened { said.opened
            ≡ is_opened (own_tags self.now) (reverse (take place (seen fields.now))) }
        requires lines { said.lines
            ≡ lines_begun (own_tags self.now) (reverse (take place (seen fields.now))) }
        ensures { result ≡ misplaced
            (place_in (seen fields.now) place (seen_at fields.now place)) (own_tags self.now) }
    {
        let (tag, value) = field_at(fields, place);
        if tag == self.count {
            let lines = count_of(self.run(rest(fields, place + 1)), self.first());
            fault_if(
                !is_count(value, lines),
                TableFault::Reason { tag, reason: COUNT },
            )
        } else if inside {
            self.misplaced_member(front(fields, place), said, tag)
        } else {
            None
        }
    }

    /// The fault that the group has at a place.
    fn misplaced(&self, fields: &[Field<'_>], place: usize) -> Option<TableFault>
        requires { place < length fields.now }
        ensures { result ≡ misplaced
            (place_in (seen fields.now) place (seen_at fields.now place)) (own_tags self.now) }
    {
        let (tag, _) = field_at(fields, place);
        let said = self.before(front(fields, place));
        self.misplaced_by(fields, place, self.has(tag), said)
    }

    /// How many fields stand at the front before the first at which the group has a fault. Its
    /// fields stand between two places.
    fn placed_between(&self, fields: &[Field<'_>], from: usize, to: usize) -> usize
        requires apart { IsApart (seen fields.now) (own_tags self.now) from to }
        ensures within { result ≤ length fields.now }
        ensures placed { (place : ℕ) → place < result → misplaced
            (place_in (seen fields.now) place (seen_at fields.now place)) (own_tags self.now)
            ≡ None }
    {
        let mut said = Before {
            opened: false,
            lines: 0,
        };
        for place in from..to {
            let (tag, _) = field_at(fields, place);
            let inside = self.has(tag);
            if let Some(_) = self.misplaced_by(fields, place, inside, said) {
                return place;
            }
            said = self.with(said, tag, inside);
        }
        fields.len()
    }

    /// Whether the group has no fault at any place. Its fields stand between two places.
    pub(crate) fn is_placed(&self, fields: &[Field<'_>], from: usize, to: usize) -> bool
        requires apart { IsApart (seen fields.now) (own_tags self.now) from to }
        ensures { IsTrue result → (place : ℕ) → place < length fields.now → misplaced
            (place_in (seen fields.now) place (seen_at fields.now place)) (own_tags self.now)
            ≡ None }
    {
        self.placed_between(fields, from, to) == fields.len()
    }

    /// How many fields stand at the front before the first at which the group has a fault.
    fn placed_len(&self, fields: &Fields<'_>) -> usize
        ensures within { result ≤ length fields.now }
        ensures placed { (place : ℕ) → place < result
            → misplaced (placed_at fields.now place) (own_tags self.now) ≡ None }
    {
        if self.is_absent(fields) {
            return fields.len();
        }
        self.placed_between(fields.as_slice(), 0, fields.len())
    }
}

impl<K> Item<K> {
    /// The fault that the item's group, if it has one, has at a place.
    fn misplaced(&self, fields: &[Field<'_>], place: usize) -> Option<TableFault>
        requires { place < length fields.now }
        ensures { result ≡ in_groups (group_tags_of (item_of (λ k. k) self.now))
            (place_in (seen fields.now) place (seen_at fields.now place)) }
    {
        match self {
            Item::One(_) => None,
            Item::Party(_) => None,
            Item::Lines(group) => group.misplaced(fields, place),
        }
    }

    /// How many fields stand at the front before the first at which the item's group, if it has
    /// one, has a fault.
    fn placed_len(&self, fields: &Fields<'_>) -> usize
        ensures within { result ≤ length fields.now }
        ensures placed { (place : ℕ) → place < result
            → in_groups (group_tags_of (item_of (λ k. k) self.now)) (placed_at fields.now place)
            ≡ None }
    {
        match self {
            Item::One(_) => fields.len(),
            Item::Party(_) => fields.len(),
            Item::Lines(group) => group.placed_len(fields),
        }
    }
}

/// How many fields stand at the front before the first at which a group of the table has a fault.
fn placed_len<K>(table: &Table<K>, fields: &Fields<'_>) -> usize
    ensures within { result ≤ length fields.now }
    ensures placed { (place : ℕ) → place < result
        → in_groups (group_tags_in (table_of (λ k. k) table.now)) (placed_at fields.now place)
        ≡ None }
{
    let mut len = fields.len();
    for item in table.items {
        len = len.min(item.placed_len(fields));
    }
    len
}

/// The fault of a group of the table at a place.
fn misplaced_at<K>(table: &Table<K>, fields: &[Field<'_>], place: usize) -> Option<TableFault>
    requires { place < length fields.now }
    ensures { result ≡ in_groups (group_tags_in (table_of (λ k. k) table.now))
        (place_in (seen fields.now) place (seen_at fields.now place)) }
{
    for item in table.items {
        if let Some(fault) = item.misplaced(fields, place) {
            return Some(fault);
        }
    }
    None
}

/// The first fault of a group of the table, where none has one so far at the front.
fn misplaced_from<K>(table: &Table<K>, fields: &[Field<'_>], from: usize) -> Option<TableFault>
    requires within { from ≤ length fields.now }
    requires placed { (place : ℕ) → place < from
        → in_groups (group_tags_in (table_of (λ k. k) table.now))
        (place_in (seen fields.now) place (seen_at fields.now place)) ≡ None }
    ensures { result ≡ first_of (in_groups (group_tags_in (table_of (λ k. k) table.now)))
        (placed_from [] (seen fields.now)) }
{
    for place in from..fields.len() {
        if let Some(fault) = misplaced_at(table, fields, place) {
            return Some(fault);
        }
    }
    None
}

/// The first fault of a group of the table.
pub(crate) fn first_misplaced<K>(table: &Table<K>, fields: &Fields<'_>) -> Option<TableFault>
    ensures { result ≡ first_of (in_groups (group_tags_in (table_of (λ k. k) table.now)))
        (placed_from [] fields.now) }
{
    misplaced_from(table, fields.as_slice(), placed_len(table, fields))
}
