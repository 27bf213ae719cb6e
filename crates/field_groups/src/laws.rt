//! Laws of the fields of a body and of its groups. Each stands as the contract of a function that
//! does nothing.

ghost use Rattle.field_groups.specs.Laws.{EveryBodySplits, FieldsAreDetermined, FieldsReadAgain};
ghost use Rattle.field_groups.specs.Laws.{GroupsAreLines, PlainFieldsReadAgain};

/// Each body has a list of fields, with a fault or none.
pub fn every_body_splits()
    ensures { EveryBodySplits }
{}

/// A body splits in one way: two lists of fields with their faults, both of one body, are the same.
pub fn fields_are_determined()
    ensures { FieldsAreDetermined }
{}

/// A body splits with no fault exactly where it is at most 256 fields as they are written, one
/// after another, each with a tag from 1 to 999,999,999 and a value with no SOH or, behind its
/// length field, of so many bytes. So what is written of such fields is read again as just these
/// fields.
pub fn fields_read_again()
    ensures { FieldsReadAgain }
{}

/// At most 256 fields of no raw bytes, each with a tag from 1 to 999,999,999 and a value with no
/// SOH, are read again as they were written, in whatever order they stand.
pub fn plain_fields_read_again()
    ensures { PlainFieldsReadAgain }
{}

/// The lines of a group with no fault have its members in their order. Each begins with the first
/// tag, and no tag stands twice in it. There are at most 32, as many as first tags, and the count
/// says so.
pub fn groups_are_lines()
    ensures { GroupsAreLines }
{}
