//! The three parties that FIX 4.2 has a field for, as lines of the Parties group of FIX 5.0 SP2.
//!
//! ClientID(109) is the party of role 3, ExecBroker(76) that of role 1 and ClearingFirm(439) that
//! of role 4; their lines stand in this order. What is translated there and back is as before:
//! [`laws`].
#![tactic(auto)]

pub mod laws;
mod parties;

pub use parties::{CLEARING_FIRM, CLIENT_ID, EXECUTING_FIRM, from_parties, to_parties};
