//! A list of records on a disk, which a crash at any moment leaves whole.
//!
//! Each record stands behind a gate byte, and counts once that byte is 1. A record is written
//! behind its closed gate and made stable before the gate is opened, so a crash leaves the list as
//! it was, or with the one record in hand.
#![tactic(auto)]

mod bytes;
mod chunk;
mod commit;
mod error;
mod head;
pub mod laws;
mod log;
mod payload;
mod scan;

pub use bytes::{extend_reserved, u32_front};
pub use chunk::Chunk;
pub use error::LogError;
pub use log::Log;

/// The number of bytes in the payload of the first record.
pub const BIRTH_LEN: usize = 155;

/// The most bytes of a payload.
pub const MAX_PAYLOAD: usize = 65_536;

/// The most bytes of an image that is unborn behind a closed gate: a gate, a length, the payload of
/// the birth record, and the next gate.
pub const UNBORN_LEN: usize = 161;

/// A gate byte that is open. Any other is closed.
pub(crate) const OPEN: u8 = 1;
