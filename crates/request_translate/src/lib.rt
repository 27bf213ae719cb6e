//! Requests of FIX 4.2 as requests of FIX 5.0 SP2 that mean the same.
//!
//! What a request means is a `Request` of order_meaning, by the tables of the two dictionaries,
//! which name no translator.
#![tactic(auto)]

mod checking;
pub mod laws;
mod translate;
mod upward;

pub use translate::Translator;
pub use translation::{MAX_CONTENT, TranslateError};
pub use upward::{set_resend, up};
