//! Requests of FIX 4.2 as messages of FIX 5.0 SP2, by one list of rules: `up_message` of
//! `specs/Rules.antt`, what holds of it, in [`laws`], and the code that writes its content.
#![tactic(auto)]

pub mod laws;
mod putting;
mod reading;
mod rules;
mod writing;

pub use putting::{lack_up, put_up};
pub use reading::{Good, good_request, good_request_by};
pub use writing::{is_unlisted, put_parties};
