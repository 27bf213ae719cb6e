//! A tap that tells of the messages of an entry what an operator reads: a line for each order and
//! each report, with its kind, its ClOrdID(11) and its ExecID(17), and one for each Reject(3),
//! Logout(5) and BusinessMessageReject(j), with all of its fields.
#![tactic(auto)]

mod orders;
mod tap;
mod text;

pub use tap::TextTap;
