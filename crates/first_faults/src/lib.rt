//! The first fault of a message beside its table, as it is told to the side that sent it.
#![tactic(auto)]

mod faults;
mod indexed;

pub use faults::{good_fields, good_fields_by};
pub use indexed::Indexed;
