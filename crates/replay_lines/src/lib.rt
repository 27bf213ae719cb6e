//! The lines that a replay prints: for each life the pieces that were written on each connection,
//! and at the end what the journal has.
#![tactic(auto)]

mod call_log;
mod kept_text;
pub mod laws;
mod lines;
mod past;
mod played;
mod printing;

pub use call_log::{Call, CallLog};
pub use played::{PlayedDrill, PlayedLife};
pub use printing::{PrintError, put_drill, put_last, put_life};
