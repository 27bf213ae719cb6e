//! An entry of the journal as one line of text, made with no allocation.
#![tactic(auto)]

mod line;

pub use line::{EntryLine, MAX_LINE};
