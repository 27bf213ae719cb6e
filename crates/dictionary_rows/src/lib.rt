//! The calls of rows of the dictionaries of each version, of the translators and of the refusals.
#![tactic(auto)]

mod answers;
mod downward;
mod fix44;
mod refusals;
mod reports42;
mod reports50;
mod requests;
mod upward;
mod wires;
mod words;

pub use answers::Calls;
