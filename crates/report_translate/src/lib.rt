//! Reports of FIX 5.0 SP2 as reports of FIX 4.2 that mean the same, body by body; and whether a
//! refusal of either side is good.
//!
//! What a report means is a `Report` of order_meaning, and how it changes a book a step of each
//! version, by the tables of the two versions, which name no translator.
#![tactic(auto)]

mod checking;
pub mod laws;
mod refusals;
mod report;
mod translate;

pub use refusals::check_refusal;
pub use translate::ReportTranslator;
pub use translation::{MAX_CONTENT, TranslateError};
