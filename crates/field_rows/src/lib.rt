//! The calls of rows of the crates of fields, frames and tables, and of values of rows.
#![tactic(auto)]

mod answers;
mod framed;
mod grouped;
mod judged;
mod laws;
mod said;
mod tabled;
mod texts;
mod typed;
mod written;

pub use answers::Calls;
