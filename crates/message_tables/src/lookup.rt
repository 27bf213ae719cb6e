//! What fields say.

ghost use Rattle.std.specs.Prelude.{◌≡◌, ◌==◌, ◌<◌, ◌≤◌, List, length, take, drop};
ghost use Rattle.std.specs.Option.{option_map};
ghost use Rattle.std.specs.List.{find, list_any};
ghost use Rattle.message_tables.specs.Tables.{value_at, has_tag, is_one_of};
ghost use Rattle.message_tables.specs.CodeTables.{seen, seen_at};
ghost use Rattle.message_tables.specs.Plain.{lacks};
ghost use Rattle.field_groups.specs.Field.{Field as ReadField};

use field_groups::{Field, Fields};

/// The first field with this tag.
fn first_with<'f, 'a>(fields: &'f [Field<'a>], tag: u32) -> Option<&'f Field<'a>>
    ensures { option_map (λ field. field.now) result ≡ find (λ field. field.0 == tag) fields.now }
{
    fields.iter().find(|field| field.0 == tag)
}

/// Whether a field has this tag.
fn any_with(fields: &[Field<'_>], tag: u32) -> bool
    ensures { result ≡ list_any (λ field. field.0 == tag) fields.now }
{
    fields.iter().any(|field| field.0 == tag)
}

/// The value of the first field with this tag; `None` where no field has it.
#[tactic(auto, using(crate::proofs::Seen::value_at_seen))]
pub fn value<'a>(fields: &[Field<'a>], tag: u32) -> Option<&'a [u8]>
    ensures { option_map (λ v. v.now) result ≡ value_at tag (seen fields.now) }
{
    match first_with(fields, tag) {
        Some(field) => Some(field.1),
        None => None,
    }
}

/// Whether a field has this tag.
#[tactic(auto, using(crate::proofs::Seen::has_tag_seen))]
pub fn stands(fields: &[Field<'_>], tag: u32) -> bool
    ensures { result ≡ has_tag tag (seen fields.now) }
{
    any_with(fields, tag)
}

/// Fields whose values are looked up by tag: those of a message, which are indexed, or those of a
/// line.
pub trait Lookup {
    /// The fields.
    ghost fields: { Self → List ReadField };

    /// The value of the first field with this tag; `None` where no field has it.
    fn value(&self, tag: u32) -> Option<&[u8]>
        ensures { option_map (λ v. v.now) result ≡ value_at tag (fields self.now) };
}

impl<'a> Lookup for Fields<'a> {
    ghost fields = { λ fields. fields };

    #[inline(always)]
    fn value(&self, tag: u32) -> Option<&[u8]> {
        match self.find(tag) {
            None => None,
            Some(place) => Some(self.field(place).1),
        }
    }
}

/// Whether a field has this tag.
#[inline(always)]
#[tactic(auto, using(crate::proofs::Seen::stands_by_value))]
pub(crate) fn stands_in<L: Lookup>(fields: &L, tag: u32) -> bool
    ensures { result ≡ has_tag tag (L.fields fields.now) }
{
    fields.value(tag).is_some()
}

/// The fields of a line of a group.
#[derive(Clone, Copy, Debug)]
pub struct Line<'a> {
    /// The fields, in their order.
    pub fields: &'a [Field<'a>],
}

impl<'a> Lookup for Line<'a> {
    ghost fields = { λ line. seen line.fields.now };

    fn value(&self, tag: u32) -> Option<&[u8]> {
        value(self.fields, tag)
    }
}

/// Whether no field has this tag.
#[inline(always)]
pub(crate) fn lacks(fields: &Fields<'_>, tag: u32) -> bool
    ensures { result ≡ lacks fields.now tag }
{
    match fields.find(tag) {
        None => true,
        Some(_) => false,
    }
}

/// Whether a field before a place has this tag.
#[inline(always)]
pub(crate) fn stands_before(fields: &Fields<'_>, tag: u32, place: usize) -> bool
    ensures { result ≡ has_tag tag (take place fields.now) }
{
    match fields.find(tag) {
        None => false,
        Some(first) => first < place,
    }
}

/// Whether a tag is among these.
pub(crate) fn is_among(tags: &[u32], tag: u32) -> bool
    ensures { result ≡ is_one_of tags.now tag }
{
    tags.iter().any(|one| *one == tag)
}

/// The field at a place, counted from 0.
#[tactic(auto, using(crate::proofs::Seen::seen_at_is))]
pub fn field_at<'a>(fields: &[Field<'a>], place: usize) -> Field<'a>
    requires { place < length fields.now }
    ensures { (result.0, result.1.now) ≡ seen_at fields.now place }
{
    fields[place]
}

/// So many fields from the front.
#[tactic(auto, using(crate::proofs::Seen::front_seen))]
pub(crate) fn front<'f, 'a>(fields: &'f [Field<'a>], to: usize) -> &'f [Field<'a>]
    requires { to ≤ length fields.now }
    ensures { seen result.now ≡ take to (seen fields.now) }
{
    &fields[..to]
}

/// The fields from a place on.
fn cut<'f, 'a>(fields: &'f [Field<'a>], from: usize) -> &'f [Field<'a>]
    requires { from ≤ length fields.now }
    ensures { result.now ≡ drop from fields.now }
{
    &fields[from..]
}

/// The fields from a place on.
#[tactic(auto, using(crate::proofs::Seen::rest_seen))]
pub(crate) fn rest<'f, 'a>(fields: &'f [Field<'a>], from: usize) -> &'f [Field<'a>]
    requires { from ≤ length fields.now }
    ensures fields { result.now ≡ drop from fields.now }
    ensures seen { seen result.now ≡ drop from (seen fields.now) }
{
    cut(fields, from)
}
