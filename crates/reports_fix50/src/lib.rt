//! The reports of FIX 5.0 SP2, Execution Report (8) and Order Cancel Reject (9), and its refusals,
//! Reject (3) and Business Message Reject (j), read and written by the profile's tables.
#![tactic(auto)]

mod groups;
pub mod laws;
mod message;
mod reading;
mod reports;
mod tables;
mod writing;

pub use groups::{Groups, read_groups};
pub use message::{
    ReportTables, good_report, read_business_reject, read_cancel_reject, read_report,
    read_session_reject, write_business_reject, write_cancel_reject, write_report,
    write_session_reject, write_without_parties,
};
pub use reading::{exec_type, texts_of_order, texts_of_reject, texts_of_report};
pub use reports::{CancelReject50, Report50};
pub use tables::{cancel_reject, execution_report};
