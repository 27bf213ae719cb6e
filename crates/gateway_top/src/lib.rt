//! The top call of the gateway: [`run`] is all that the program `fixgate` does with its words and
//! the outside, and [`End`] is how it ends.
#![tactic(auto)]

mod command;
mod finding;
mod line;
mod pass;
mod program;
mod serve_error;
mod serving;
mod status;
mod stream;
mod task;

pub use program::run;
pub use status::{End, Status, code};
