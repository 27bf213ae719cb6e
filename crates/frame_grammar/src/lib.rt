//! Frames of FIX tag=value messages (FIX 4.2, FIX 4.4 and FIXT 1.1): what a frame is, what the
//! pieces of a stream are, cutting a stream, and writing.
#![tactic(auto)]

mod buffer;
mod checksum;
mod frame;
mod framer;
pub mod laws;
mod pieces;
mod scan;
mod write;

pub use checksum::{begin_string_of, trailer_of};
pub use frame::{FrameError, Garble, Kind, MAX_BODY, SOH, Span};
pub use framer::Framer;
pub use pieces::{Next, Rest};
pub use write::write_frame;
