//! What a journal on a disk says, as lines: one for each entry.
#![tactic(auto)]

mod journal_lines;

pub use journal_lines::{ShowError, show};
