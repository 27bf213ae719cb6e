//! What the gateway does at one event: the one description of it, over the session table and over
//! whatever answers a message of the application.
//!
//! The definition is `decide` of `specs/Decide.antt`. The plan of an event, a lawful journal and
//! the events of a life are stated by it.
#![tactic(auto)]

mod day;
pub mod laws;

pub use day::is_due;
