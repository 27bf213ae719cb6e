//! What the requests and the reports of FIX 4.2 have in common: the header, and what their values
//! mean.
#![tactic(auto)]

mod header;

pub use header::{HAS_DAY, HEADER};
