//! What a refusal says, Reject (3) or Business Message Reject (j), in either version of FIX: how it
//! is read from fields, and the parts in which it is written.
#![tactic(auto)]

mod reading;
mod writing;

pub use reading::{business_reject, session_reject};
pub use writing::{business_reject_parts, session_reject_parts};
