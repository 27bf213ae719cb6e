//! The lines of a repeating group.

ghost use Rattle.std.specs.Prelude.{◌≡◌, ◌==◌, ◌+◌, ◌-◌, ◌^◌, ◌<◌, ◌≤◌, ◌++◌, ◌∷◌, [], List};
ghost use Rattle.std.specs.Prelude.{Some, None, length, map, count_by, slice_get, option_and_then};
ghost use Rattle.std.specs.Prelude.{IfOk, IfErr, OnOk};
ghost use Rattle.std.specs.List.{prefix_len, last_or, slice_set, slice_index_or};
ghost use Rattle.field_groups.specs.HeadValues.{number_in};
ghost use Rattle.field_groups.specs.Field.{says};
ghost use Rattle.field_groups.specs.Group.{Member, placed, run, members_of, first_misplaced};
ghost use Rattle.field_groups.specs.Group.{tags_of, is_inside, is_skipped, lines_of};
ghost use Rattle.field_groups.specs.Group.{has_member, is_astray, misplaced, group_fault};
ghost use Rattle.field_groups.specs.Group.{group_lines, TellsFault};

use crate::fields::{Field, Fields};
use crate::head_values::number_in;
use smallvec::SmallVec;
use std::alloc::{AllocError, Global};
use std::marker::Model;
use thiserror::Error;

/// The most lines of a group. The standard has no bound; this one is own.
pub const MAX_LINES: usize = 32;

/// The tags of a repeating group.
#[derive(Clone, Copy, Debug)]
pub struct Shape {
    /// The tag of the field that says how many lines follow (NumInGroup).
    pub count: u32,
    /// The tag of the member that begins each line.
    pub first: u32,
    /// The tags of the other members of a line.
    pub members: &'static [u32],
    /// Tags that may stand in the group and say nothing.
    pub skip: &'static [u32],
}

impl Shape {
    /// Whether the tag is one of the group's.
    fn is_inside(&self, tag: u32) -> bool
        ensures { result ≡ is_inside (tags_of self.now) tag }
    {
        tag == self.first || self.members.contains(&tag) || self.skip.contains(&tag)
    }

    /// Whether the tag is passed over.
    fn is_skipped(&self, tag: u32) -> bool
        ensures { result ≡ is_skipped (tags_of self.now) tag }
    {
        tag != self.first && self.skip.contains(&tag)
    }
}

/// Why a group cannot be read. The fault with the earliest place is told.
#[derive(Clone, Copy, Debug, PartialEq, Eq, Error)]
pub enum GroupFault {
    /// The count is no number, or not the number of lines. Its place is that of the count field.
    #[error("the count of tag {tag} is not the number of lines")]
    Count { tag: u32 },
    /// A member stands before the first line, or twice in a line. The place is the member's.
    #[error("tag {tag} is out of order in its group")]
    Order { tag: u32 },
    /// A group has more than [`MAX_LINES`] lines. The place is where the first too many begins.
    #[error("more than 32 lines in a group")]
    TooMany,
    /// There is no memory for the lines.
    #[error("out of memory")]
    NoMemory,
}

/// The members of one line.
#[derive(Debug, Drop)]
struct Line {
    members: SmallVec<(u32, usize), 4>,
}

/// The lines of a group, each seen as the list of its members (tag, place among the fields), and
/// the place of the first field after it.
#[derive(Debug, Drop)]
pub struct Group {
    lines: Vec<Line>,
    end: usize,
}

impl Model for Group {
    ghost use Rattle.std.specs.Prelude.{map};
    ghost use Rattle.field_groups.specs.Group.{Lines};

    ghost Value = { Lines };

    ghost view = { λ g. record {
      lines = map (λ line. line.members.items) g.lines.items;
      end = g.end;
    } };
}

impl Group {
    ghost use Rattle.std.specs.Option.{option_map};

    /// How many lines the group has: at most 32.
    pub fn len(&self) -> usize
        ensures { result ≡ length self.now.lines }
    {
        self.lines.len()
    }

    /// Whether the group has no line.
    pub fn is_empty(&self) -> bool
        ensures { result ≡ (length self.now.lines == 0) }
    {
        self.lines.is_empty()
    }

    /// The members of a line, counted from 0, as their tags and their places among the fields;
    /// `None` past the last.
    pub fn line(&self, index: usize) -> Option<&[(u32, usize)]>
        ensures { option_map (λ line. line.now) result ≡ slice_get self.now.lines index }
    {
        match self.lines.get(index) {
            Some(line) => Some(line.members.as_slice()),
            None => None,
        }
    }

    /// The place of the first field after the group; the number of fields where none follows.
    pub fn end(&self) -> usize
        ensures { result ≡ self.now.end }
    {
        self.end
    }

    /// No line yet, in a group that ends here.
    fn with_end(alloc: Global, end: usize) -> Group
        ensures { result ≡ record { lines = []; end = end } }
    {
        Group {
            lines: Vec::new(alloc),
            end,
        }
    }

    /// Begins a line with its first member.
    fn begin(&mut self, alloc: Global, tag: u32, place: usize) -> Result<(), GroupFault>
        ensures ok { OnOk result (self.new.lines ≡ self.old.lines ++ ((tag, place) ∷ []) ∷ []) }
        ensures err { IfErr result (λ e. e ≡ GroupFault.NoMemory) }
        ensures end { self.new.end ≡ self.old.end }
    {
        let Ok(line) = Line::of(alloc, tag, place) else {
            return Err(GroupFault::NoMemory);
        };
        match self.lines.push(line) {
            Ok(()) => Ok(()),
            Err(_) => Err(GroupFault::NoMemory),
        }
    }

    /// Takes a member into the line that stands last.
    fn extend(&mut self, tag: u32, place: usize) -> Result<(), GroupFault>
        requires { 0 < length self.old.lines }
        ensures ok { OnOk result (self.new.lines ≡ slice_set
            self.old.lines (length self.old.lines - 1)
            (slice_index_or self.old.lines (length self.old.lines - 1) [] ++ (tag, place) ∷ [])) }
        ensures err { IfErr result (λ e. e ≡ GroupFault.NoMemory) }
        ensures end { self.new.end ≡ self.old.end }
    {
        let last = self.len() - 1;
        self.lines[last].push(tag, place)
    }

    /// Whether a member of this tag is out of order: no line has begun, or the last one has it.
    fn is_astray(&self, tag: u32) -> bool
        ensures { result ≡ is_astray tag (last_or None self.now.lines) }
    {
        match self.lines.last() {
            Some(line) => line.has(tag),
            None => true,
        }
    }

    /// Takes a member behind those that it has.
    fn add(
        &mut self,
        alloc: Global,
        shape: &Shape,
        tag: u32,
        place: usize,
    ) -> Result<(), GroupFault>
        ensures ok { OnOk result ((before : List Member)
            → self.old.lines ≡ lines_of shape.now.first before
            → self.new.lines ≡ lines_of shape.now.first (before ++ (tag, place) ∷ [])) }
        ensures in_order { OnOk result ((before : List Member)
            → self.old.lines ≡ lines_of shape.now.first before
            → misplaced (tags_of shape.now) before (tag, place) ≡ None) }
        ensures fault { IfErr result (λ e. (before : List Member)
            → self.old.lines ≡ lines_of shape.now.first before
            → TellsFault e (misplaced (tags_of shape.now) before (tag, place))) }
        ensures end { self.new.end ≡ self.old.end }
    {
        if tag == shape.first {
            if self.lines.len() >= MAX_LINES {
                return Err(GroupFault::TooMany);
            }
            return self.begin(alloc, tag, place);
        }
        if self.is_astray(tag) {
            return Err(GroupFault::Order { tag });
        }
        self.extend(tag, place)
    }
}

impl Line {
    /// A line of its first member.
    fn of(alloc: Global, tag: u32, place: usize) -> Result<Line, AllocError>
        ensures { IfOk result (λ line. line.members.items ≡ (tag, place) ∷ []) }
    {
        Ok(Line {
            members: SmallVec::from_slice(alloc, &[(tag, place)])?,
        })
    }

    /// Whether a member has this tag.
    fn has(&self, tag: u32) -> bool
        ensures { result ≡ has_member tag self.now.members.items }
    {
        self.members.iter().any(|member| member.0 == tag)
    }

    /// One more member at the end.
    fn push(&mut self, tag: u32, place: usize) -> Result<(), GroupFault>
        ensures ok { OnOk result
            (self.new.members.items ≡ self.old.members.items ++ (tag, place) ∷ []) }
        ensures err { IfErr result (λ e. e ≡ GroupFault.NoMemory) }
    {
        match self.members.push((tag, place)) {
            Ok(()) => Ok(()),
            Err(_) => Err(GroupFault::NoMemory),
        }
    }
}

/// How many fields from the front on belong to the group.
fn run_len(fields: &[Field<'_>], shape: &Shape) -> usize
    ensures value { result
        ≡ prefix_len (λ field. is_inside (tags_of shape.now) field.0) fields.now }
    ensures within { result ≤ length fields.now }
{
    fields
        .iter()
        .take_while(|field| shape.is_inside(field.0))
        .count()
}

/// The fields of the group behind its count field.
fn run_of<'f, 'a>(fields: &'f Fields<'a>, from: usize, shape: &Shape) -> &'f [Field<'a>]
    requires { from < length fields.now }
    ensures run { placed (from + 1) (map (λ field. (field.0, field.1.now)) result.now)
        ≡ run (tags_of shape.now) from fields.now }
    ensures within { from + 1 + length result.now ≤ length fields.now }
    ensures bound { length fields.now < 2 ^ 63 }
{
    let after = &fields.as_slice()[from + 1..];
    &after[..run_len(after, shape)]
}

/// How many fields have this tag.
fn count_of(fields: &[Field<'_>], tag: u32) -> usize
    ensures { result ≡ count_by (λ field. field.0 == tag) fields.now }
{
    fields.iter().filter(|field| field.0 == tag).count()
}

/// The number that the field at a place says, if it says one.
fn count_said(fields: &Fields<'_>, place: usize) -> Option<u32>
    ensures { result ≡ option_and_then (λ field. number_in field.1) (slice_get fields.now place) }
{
    number_in(fields.at(place)?.1)
}

/// Whether the number is said.
fn says(said: Option<u32>, number: usize) -> bool
    ensures { result ≡ says said number }
{
    match said {
        Some(said) => said as usize == number,
        None => false,
    }
}

/// The lines of fields of a group, the first of them at this place.
fn read_lines(
    alloc: Global,
    run: &[Field<'_>],
    place: usize,
    shape: &Shape,
) -> Result<Group, GroupFault>
    requires { place + length run.now < 2 ^ 63 }
    ensures in_order { OnOk result (first_misplaced (tags_of shape.now) []
        (members_of (tags_of shape.now)
        (placed place (map (λ field. (field.0, field.1.now)) run.now))) ≡ None) }
    ensures lines { IfOk result (λ group. group.lines ≡ lines_of shape.now.first
        (members_of
        (tags_of shape.now) (placed place (map (λ field. (field.0, field.1.now)) run.now)))) }
    ensures end { IfOk result (λ group. group.end ≡ place + length run.now) }
    ensures fault { IfErr result (λ e. TellsFault e (first_misplaced (tags_of shape.now) []
        (members_of
        (tags_of shape.now) (placed place (map (λ field. (field.0, field.1.now)) run.now))))) }
{
    let mut group = Group::with_end(alloc, place + run.len());
    for (i, field) in run.iter().enumerate() {
        if !shape.is_skipped(field.0) {
            group.add(alloc, shape, field.0, place + i)?;
        }
    }
    Ok(group)
}

/// Reads the group whose count field stands at a place among the fields, counted from 0.
///
/// Behind it each line begins with the shape's `first`; other members follow in any order, each at
/// most once; tags of `skip` are passed over; the first other tag ends the group.
///
/// # Errors
///
/// The fault with the earliest place: `Count` where the count is no number or not the number of
/// lines, `Order` for a member before the first line or twice in a line, `TooMany` for more than 32
/// lines. `NoMemory` where there is no memory for the lines.
pub fn read_group(
    alloc: Global,
    fields: &Fields<'_>,
    from: usize,
    shape: &Shape,
) -> Result<Group, GroupFault>
    requires { from < length fields.now }
    ensures in_order { OnOk result (group_fault (tags_of shape.now) from fields.now ≡ None) }
    ensures lines { IfOk result (λ group. group ≡ group_lines (tags_of shape.now) from fields.now) }
    ensures fault { IfErr result
        (λ e. TellsFault e (group_fault (tags_of shape.now) from fields.now)) }
{
    let run = run_of(fields, from, shape);
    if !says(count_said(fields, from), count_of(run, shape.first)) {
        return Err(GroupFault::Count { tag: shape.count });
    }
    read_lines(alloc, run, from + 1, shape)
}
