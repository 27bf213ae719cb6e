//! What rules read of a message.

use field_groups::Fields;
use message_tables::Table;
use row_values::Kind;

/// What rules read of a message.
#[derive(Drop)]
pub struct Source<'f, 'a, B> {
    /// The fields of its body.
    pub fields: &'f Fields<'a>,
    /// Its table.
    pub table: &'static Table<Kind>,
    /// What the kinds of the direction's own read besides.
    pub besides: B,
}
