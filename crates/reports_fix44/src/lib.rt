//! The reports of FIX 4.4, Execution Report (8) and Order Cancel Reject (9), as structs, and its
//! refusals, Reject (3) and Business Message Reject (j), read and written by the tables of
//! dict_fix44.
#![tactic(auto)]

mod message;
mod reading;
mod reports;
mod tables;
mod writing;

pub use message::{
    read_business_reject, read_cancel_reject, read_report, read_session_reject,
    write_business_reject, write_cancel_reject, write_report, write_session_reject,
};
pub use reports::{CancelReject44, Report44};
