//! The fields of a body, in order.

ghost use Rattle.std.specs.Prelude.{◌≡◌, ◌==◌, ◌<◌, length, map, position};
ghost use Rattle.std.specs.Slice.Iter.{iter_rest};
ghost use Rattle.field_groups.specs.Index.{counted_place, slot_of, slots, with_place};

use crate::fault::SplitFault;
use std::alloc::{AllocError, Global};
use std::marker::Model;
use std::slice::Iter;

/// The byte that ends a field.
pub const SOH: u8 = 1;

/// The tags below this one have a slot each in the index of fields.
const OWN: u32 = 448;

/// The slots that all other tags share. Few of one message have the same.
const SHARED: u32 = 64;

/// The fields that the list first has room for: most messages have no more.
const FIRST_ROOM: usize = 32;

/// The slots of the index of fields.
const SLOTS: usize = 512;

/// A field: its tag and its value, a part of the body.
pub type Field<'a> = (u32, &'a [u8]);

/// The fields of a body in order, seen as the list of their tags and values.
#[derive(Debug, Drop)]
pub struct Fields<'a> {
    parts: Vec<Field<'a>>,
    // For each slot the place of the first field whose tag has it, from 1 on; 0 where none has.
    first: [u16; SLOTS],
}

impl<'a> Model for Fields<'a> {
    ghost use Rattle.std.specs.Prelude.{List, map};
    ghost use Rattle.field_groups.specs.Field.{Field};
    ghost use Rattle.field_groups.specs.Index.{IsIndexed};

    ghost Value = { List Field };

    ghost view = { λ f. map (λ p. (p.0, p.1.now)) f.parts.items };

    ghost invariant = { λ f. IsIndexed f.parts.items f.first };
}

impl<'a> Fields<'a> {
    ghost use Rattle.std.specs.Prelude.{◌≡◌, ◌==◌, ◌<◌, ◌≤◌, ◌++◌, ◌∷◌, [], None, length};
    ghost use Rattle.std.specs.Prelude.{map, slice_get, IfSome, Some};
    ghost use Rattle.std.specs.Prelude.{IfOk, OnOk, OnErr, position};
    ghost use Rattle.std.specs.Option.{option_map};
    ghost use Rattle.std.specs.Slice.Iter.{iter_rest};
    ghost use Rattle.field_groups.specs.Index.{slot_of};

    /// No fields, and no memory for any.
    #[inline(always)]
    pub(crate) fn new(alloc: Global) -> Fields<'a>
        ensures { result ≡ [] }
    {
        Fields {
            parts: Vec::new(alloc),
            first: [0; SLOTS],
        }
    }

    /// Takes the memory for the first fields.
    #[inline(always)]
    pub(crate) fn make_room(&mut self) -> Result<(), AllocError>
        requires { self.old ≡ [] }
        ensures { self.new ≡ [] }
    {
        self.parts = Vec::with_capacity(*self.parts.allocator(), FIRST_ROOM)?;
        Ok(())
    }

    /// One more field at the end.
    #[inline(always)]
    pub(crate) fn push(&mut self, tag: u32, value: &'a [u8]) -> Result<(), AllocError>
        requires { length self.old < 256 }
        ensures ok { OnOk result (self.new ≡ self.old ++ (tag, value.now) ∷ []) }
        ensures err { OnErr result (self.new ≡ self.old) }
    {
        if tag < OWN {
            self.push_in(tag as usize, tag, value)
        } else {
            self.push_shared(tag, value)
        }
    }

    // The same of a tag that shares its slot, as few of a message do: what looks for it is kept out
    // of the loop over the fields.
    #[inline(never)]
    fn push_shared(&mut self, tag: u32, value: &'a [u8]) -> Result<(), AllocError>
        requires { length self.old < 256 }
        ensures ok { OnOk result (self.new ≡ self.old ++ (tag, value.now) ∷ []) }
        ensures err { OnErr result (self.new ≡ self.old) }
    {
        self.push_in(slot_of(tag), tag, value)
    }

    // One more field at the end, whose tag has this slot.
    #[inline(always)]
    fn push_in(&mut self, slot: usize, tag: u32, value: &'a [u8]) -> Result<(), AllocError>
        requires slot { slot ≡ slot_of tag }
        requires within { slot < SLOTS }
        requires few { length self.old < 256 }
        ensures ok { OnOk result (self.new ≡ self.old ++ (tag, value.now) ∷ []) }
        ensures err { OnErr result (self.new ≡ self.old) }
    {
        let place = self.len();
        self.parts.push((tag, value))?;
        index_place(&mut self.first, slot, place);
        Ok(())
    }

    /// How many fields there are: at most 256.
    #[inline(always)]
    pub fn len(&self) -> usize
        ensures value { result ≡ length self.now }
        ensures few { result ≤ 256 }
    {
        self.parts.len()
    }

    /// Whether there is no field.
    pub fn is_empty(&self) -> bool
        ensures { result ≡ (length self.now == 0) }
    {
        self.parts.is_empty()
    }

    /// The tag and the value of the field at a place, counted from 0; `None` past the last. The
    /// value is a part of the body.
    #[inline(always)]
    pub fn at(&self, place: usize) -> Option<Field<'a>>
        ensures { option_map (λ field. (field.0, field.1.now)) result ≡ slice_get self.now place }
    {
        self.parts.get(place).copied()
    }

    /// The tag and the value of the field at a place, where one stands.
    #[inline(always)]
    pub fn field(&self, place: usize) -> Field<'a>
        requires { place < length self.now }
        ensures { Some (result.0, result.1.now) ≡ slice_get self.now place }
    {
        self.parts[place]
    }

    /// The place of the first field with this tag; `None` where no field has it.
    #[inline(always)]
    pub fn find(&self, tag: u32) -> Option<usize>
        ensures place { result ≡ position (λ field. field.0 == tag) self.now }
        ensures within { IfSome result (λ place. place < length self.now) }
        ensures few { IfSome result (λ place. place < 256) }
    {
        if tag < OWN {
            counted_place(self.first[tag as usize])
        } else {
            self.find_shared(tag)
        }
    }

    // The place of the first field with this tag, which may share its slot.
    #[inline(never)]
    fn find_shared(&self, tag: u32) -> Option<usize>
        ensures place { result ≡ position (λ field. field.0 == tag) self.now }
        ensures few { IfSome result (λ place. place < 256) }
    {
        let place = counted_place(self.first[slot_of(tag)])?;
        if self.parts[place].0 == tag {
            return Some(place);
        }
        first_place(&self.parts, tag)
    }

    /// All fields, in order.
    #[inline(always)]
    pub fn as_slice(&self) -> &[Field<'a>]
        ensures { map (λ field. (field.0, field.1.now)) result.now ≡ self.now }
    {
        &self.parts
    }

    /// The fields one after another.
    pub fn iter(&self) -> Iter<'_, Field<'a>>
        ensures { map (λ field. (field.0, field.1.now)) (iter_rest result) ≡ self.now }
    {
        self.parts.iter()
    }
}

impl<'f, 'a> IntoIterator for &'f Fields<'a> {
    type Item = &'f Field<'a>;

    type IntoIter = Iter<'f, Field<'a>>;

    ghost into_iter_gives = { λ fields iter.
        map (λ field. (field.0, field.1.now)) (iter_rest iter) ≡ fields.now };

    fn into_iter(self) -> Iter<'f, Field<'a>> {
        self.iter()
    }
}

/// The slot of a tag.
#[inline(always)]
fn slot_of(tag: u32) -> usize
    ensures value { result ≡ slot_of tag }
    ensures within { result < SLOTS }
{
    if tag < OWN {
        tag as usize
    } else {
        (OWN + tag % SHARED) as usize
    }
}

/// Indexes the place of a field whose tag has this slot, if it is the first of them.
#[inline(always)]
fn index_place(first: &mut [u16; SLOTS], slot: usize, place: usize)
    requires whole { length first.old ≡ slots }
    requires slot { slot < SLOTS }
    requires place { place < 256 }
    ensures { first.new ≡ with_place first.old slot place }
{
    if first[slot] == 0 {
        first[slot] = place as u16 + 1;
    }
}

/// A place that is counted from 1, or 0 for none.
#[inline(always)]
fn counted_place(counted: u16) -> Option<usize>
    ensures { result ≡ counted_place counted }
{
    if counted == 0 {
        None
    } else {
        Some(counted as usize - 1)
    }
}

/// The place of the first part with this tag.
fn first_place(parts: &[Field<'_>], tag: u32) -> Option<usize>
    ensures { result ≡ position (λ part. part.0 == tag) parts.now }
{
    parts.iter().position(|part| part.0 == tag)
}

/// The fields of a body, and the fault that stopped them, if any.
#[derive(Debug, Drop)]
pub struct Split<'a> {
    /// The fields before the fault.
    pub fields: Fields<'a>,
    /// Why there are no more; `None` where the fields are the whole body.
    pub fault: Option<SplitFault>,
}

impl<'a> Split<'a> {
    ghost use Rattle.std.specs.Prelude.{◌≡◌, []};

    /// No fields and no fault, as of no body. It takes no memory.
    #[inline(always)]
    pub fn new(alloc: Global) -> Split<'a>
        ensures { result.fields ≡ [] }
    {
        Split {
            fields: Fields::new(alloc),
            fault: None,
        }
    }
}
