//! Reports of FIX 5.0 SP2 as reports of FIX 4.2, for a caller that wants structs: each is written,
//! goes down by the rules, and is read again.
#![tactic(auto)]

mod downward;

pub use downward::{down_cancel_reject, down_report};
