//! Requests of FIX 4.4 as requests of FIX 5.0 SP2, and reports of FIX 5.0 SP2 as reports of FIX
//! 4.4, each by one list of rules.
#![tactic(auto)]

mod asking;
pub mod laws;
mod putting;
mod rules;
mod translate;
mod writing;

pub use translate::{Translator44, Way, check_refusal, put_report, put_request};
