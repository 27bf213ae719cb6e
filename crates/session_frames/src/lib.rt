//! The frames that a session sends, written into a buffer of fixed room: a message that goes out
//! for the first time or again, and the gap fill that stands for messages that are not sent again.
#![tactic(auto)]

mod frames;
pub mod laws;
mod room;

pub use frames::{FrameBuf, fill_out, frame_out};
pub use room::FRAME_ROOM;
