//! Captures: what the gateway met, as a text of a line for each event, and how it is read.
#![tactic(auto)]

mod capture;
mod header;
mod life;
mod line;
mod lines;
mod number;
mod reading;

pub use capture::{Capture, Event, Life, Line, Lines, Lives};
pub use reading::{CaptureFault, read_capture};
