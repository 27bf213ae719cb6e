//! The fields of a body, `tag=value`, each ended by SOH (byte 1), in order; and the lines of its
//! repeating groups.
//!
//! FIX 4.2, "FIX Message Format and Delivery", "Message Format", "Field Delimiter" and "Repeating
//! Groups"; FIX 5.0 SP2, volume 1, "FIX Tag=Value Syntax", the same parts.
#![tactic(auto)]

mod data;
mod fault;
mod fields;
mod finding;
mod group;
mod head_values;
pub mod laws;
mod splitting;
mod writing;

pub use fault::SplitFault;
pub use fields::{Field, Fields, SOH, Split};
pub use finding::value_of;
pub use group::{Group, GroupFault, MAX_LINES, Shape, read_group};
pub use head_values::{is_type, number_in};
pub use splitting::{split, split_into};
pub use writing::{
    AROUND, has_room, push_tag, put_byte, put_field, put_known, put_number, put_tag,
};
