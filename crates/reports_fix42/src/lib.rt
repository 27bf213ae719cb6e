//! The reports of FIX 4.2: Execution Report (8), Order Cancel Reject (9), and the refusals Reject
//! (3) and Business Message Reject (j), read and written by the profile's tables.
#![tactic(auto)]

mod groups;
pub mod laws;
mod message;
mod reading;
mod reports;
mod tables;
mod writing;

pub use message::{
    read_business_reject, read_cancel_reject, read_report, read_session_reject,
    write_business_reject, write_cancel_reject, write_report, write_session_reject,
};
pub use reports::{CancelReject42, Report42};
