//! An input that is read whole, up to a bound.
#![tactic(auto)]

mod reading;

pub use reading::{InputError, MAX_INPUT, MAX_READ, read_some, read_whole};
