//! Reports of FIX 5.0 SP2 as messages of FIX 4.2, by one list of rules.
#![tactic(auto)]

pub mod laws;
mod mapping;
mod putting;
mod rules;
mod source;
mod writing;

pub use mapping::has_trans_type;
pub use putting::put_down;
pub use source::party;
pub use writing::{put_code_if, put_month, put_told, put_within};
