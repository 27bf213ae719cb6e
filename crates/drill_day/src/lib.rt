//! A drill: a large valid day, made from two numbers, as the one life of a capture.
#![tactic(auto)]

mod body;
mod day;
mod drill;
mod kinds;
pub mod laws;
mod order;
mod report;

pub use drill::{Drill, drill_day};
pub use kinds::Kinds;
