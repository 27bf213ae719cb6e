//! A field of a body by its tag, without the others.

ghost use Rattle.std.specs.Prelude.{◌≡◌, List, Option};
ghost use Rattle.std.specs.Option.{option_map};
ghost use Rattle.field_groups.specs.Field.{Field};
ghost use Rattle.field_groups.specs.Fields.{SplitsInto, value_of};
ghost use Rattle.field_groups.specs.declared.fault.SplitFault.{SplitFault};

use crate::splitting::{MAX_FIELDS, field_at};

/// The value of the first field with this tag among those into which a body splits; `None` where
/// none of them has it. The fields behind it are not read, and it takes no memory.
pub fn value_of(body: &[u8], tag: u32) -> Option<&[u8]>
    ensures { (fields : List Field) (fault : Option SplitFault) → SplitsInto body.now fields fault →
        option_map (λ value. value.now) result ≡ value_of tag fields }
{
    let mut count = 0;
    let mut before = None;
    let mut rest = body;
    while count < MAX_FIELDS && !rest.is_empty() {
        match field_at(body.len() - rest.len(), before.as_slice(), rest) {
            Err(_) => return None,
            Ok((found, value, after)) => {
                if found == tag {
                    return Some(value);
                }
                before = Some((found, value));
                rest = after;
                count += 1;
            }
        }
    }
    None
}
