//! What the gateway says of a message that is refused: its own refusals, and those of one side that
//! it tells the other.
//!
//! A refusal is a Reject(3) or a BusinessMessageReject(j). Each call gives the whole message after
//! the header: its type, and its fields in their order, as they are written. What holds of all of
//! them stands in [`laws`].
#![tactic(auto)]

mod content;
pub mod laws;
mod reasons;
mod refusals;
mod renumbering;
mod tag;
mod text;

pub use refusals::{away, refusal, used};
pub use renumbering::renumber;
pub use session_core::Said;
