//! The laws of frames, fields and tables, each called once.

use field_groups::laws::{
    every_body_splits, fields_are_determined, fields_read_again, groups_are_lines,
    plain_fields_read_again,
};
use frame_grammar::laws;
use message_tables::laws::{fields_are_read, needed_rows_are_said};
use std::alloc::AllocError;

/// Calls each.
fn call_all() {
    laws::pieces_stay();
    laws::frames_are_found();
    laws::the_first_broken_rule_is_named();
    laws::less_than_a_frame_is_awaited();
    every_body_splits();
    fields_read_again();
    fields_are_determined();
    plain_fields_read_again();
    groups_are_lines();
    fields_are_read::<u8>();
    needed_rows_are_said::<u8>();
}

/// Appends that they were called.
pub(crate) fn answer(out: &mut String, call: &str) -> Result<(), AllocError> {
    if call != "laws" {
        return Ok(());
    }
    call_all();
    out.push_str("called")
}
