//! What the requests and the reports of FIX 5.0 SP2 have in common: the header, and the values that
//! count beside other fields.
#![tactic(auto)]

mod header;
mod values;

pub use header::HEADER;
pub use values::{maturity, time_in_force};
