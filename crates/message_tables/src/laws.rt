//! Laws of tables of messages, at any kind of values. Each stands as the contract of a function
//! that does nothing.

ghost use Rattle.message_tables.specs.TableLaws.{FieldsAreRead, NeededRowsAreSaid};

/// Fields are a message exactly where they have no first fault, and else exactly that fault.
pub fn fields_are_read<K>()
    ensures { FieldsAreRead K }
{}

/// A row that a message needs is said by fields at no fault, where its tag has no other row.
pub fn needed_rows_are_said<K>()
    ensures { NeededRowsAreSaid K }
{}
