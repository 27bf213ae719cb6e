//! Requests of FIX 4.4 as requests of FIX 5.0 SP2, and reports of FIX 5.0 SP2 as reports of FIX
//! 4.4, for a caller that wants structs: each is written, goes by the rules, and is read again.
#![tactic(auto)]

mod downward;
mod upward;

pub use downward::{down_cancel_reject44, down_report44};
pub use upward::up44;
