//! The answer to a message of the application: at most one message, to the side that sent it or to
//! the other one.
//!
//! It is the definition `specs/Answer.antt`: over what is known of a journal, whether the venue's
//! session is active, a side and a message. It speaks of senses, of canonical content and of the
//! tables alone, and names no translator's code.
#![tactic(auto)]

mod answer;
mod asking;
mod joining;
pub mod laws;
mod reading;
mod reports;
mod requests;
mod saying;

pub use answer::{Answer, answer_to};
pub use asking::{Asked, Known, Words};
pub use joining::Joining;
