//! The lines of a repeating group.

ghost use Rattle.std.specs.Prelude.{◌≡◌, ◌==◌, ◌-◌, ◌<◌, ◌≤◌, ◌∷◌, not, length, drop, take};
ghost use Rattle.std.specs.List.{prefix_len};
ghost use Rattle.message_tables.specs.Tables.{is_inside, run, after_tag, from_tag, line_fields_in};
ghost use Rattle.message_tables.specs.Tables.{in_lines};
ghost use Rattle.message_tables.specs.CodeTables.{seen, own_tags};

use crate::lookup::{field_at, front, rest};
use crate::table::RepeatingGroup;
use field_groups::Field;

/// How many fields stand before the first one with this tag.
fn before_tag(fields: &[Field<'_>], tag: u32) -> usize
    ensures value { result ≡ prefix_len (λ field. not (field.0 == tag)) fields.now }
    ensures within { result ≤ length fields.now }
{
    fields.iter().take_while(|field| field.0 != tag).count()
}

/// The fields after the first one with this tag.
fn after<'f, 'a>(fields: &'f [Field<'a>], tag: u32) -> &'f [Field<'a>]
    ensures { seen result.now ≡ after_tag tag (seen fields.now) }
{
    let place = before_tag(fields, tag);
    if place < fields.len() {
        rest(fields, place + 1)
    } else {
        rest(fields, place)
    }
}

/// The fields from the first one with this tag on.
fn from<'f, 'a>(fields: &'f [Field<'a>], tag: u32) -> &'f [Field<'a>]
    ensures { seen result.now ≡ from_tag tag (seen fields.now) }
{
    rest(fields, before_tag(fields, tag))
}

impl<K> RepeatingGroup<K> {
    /// How many fields at the front are inside the group.
    fn run_len(&self, fields: &[Field<'_>]) -> usize
        ensures value { result
            ≡ prefix_len (λ field. is_inside (own_tags self.now) field.0) (seen fields.now) }
        ensures within { result ≤ length fields.now }
    {
        for place in 0..fields.len() {
            let (tag, _) = field_at(fields, place);
            if !self.has(tag) {
                return place;
            }
        }
        fields.len()
    }

    /// The fields of the group at the front.
    pub(crate) fn run<'f, 'a>(&self, fields: &'f [Field<'a>]) -> &'f [Field<'a>]
        ensures { seen result.now ≡ run (own_tags self.now) (seen fields.now) }
    {
        front(fields, self.run_len(fields))
    }

    /// The fields of the lines of the group, which stand after its count.
    pub fn lines<'f, 'a>(&self, fields: &'f [Field<'a>]) -> &'f [Field<'a>]
        ensures { seen result.now ≡ line_fields_in (own_tags self.now) (seen fields.now) }
    {
        from(self.run(after(fields, self.count)), self.first())
    }
}

/// The place past the line that begins at a place; the next field with this tag begins another.
pub fn line_end(fields: &[Field<'_>], from: usize, first: u32) -> usize
    requires { from < length fields.now }
    ensures later { from < result }
    ensures within { result ≤ length fields.now }
    ensures line { in_lines first (drop from (seen fields.now)) ≡ take (result - from)
        (drop from (seen fields.now)) ∷ in_lines first (drop result (seen fields.now)) }
{
    from + 1 + before_tag(rest(fields, from + 1), first)
}

/// The fields from one place to another.
pub fn line<'f, 'a>(fields: &'f [Field<'a>], from: usize, end: usize) -> &'f [Field<'a>]
    requires ordered { from ≤ end }
    requires within { end ≤ length fields.now }
    ensures { seen result.now ≡ take (end - from) (drop from (seen fields.now)) }
{
    front(rest(fields, from), end - from)
}
