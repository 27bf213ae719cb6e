//! Replays: the lives of a capture are lived one after another over a disk in memory, and what was
//! written in them is printed. And drills: a large valid day is made from two numbers, lived in the
//! same way, and its summary printed.
#![tactic(auto)]

mod clock;
mod config;
mod disk;
mod drilling;
mod ends;
mod error;
mod input;
mod last;
mod life;
mod replaying;
mod rounds;
mod stops;
mod wire;

pub use drilling::drill;
pub use error::ReplayError;
pub use input::replay_input;
pub use replaying::replay;
