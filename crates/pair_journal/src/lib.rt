//! The journal of the gateway: an entry for each event that moved a number, in order, on a disk.
//!
//! Names, entries and their bytes are those of pair_entries. An entry stands on the disk before any
//! of the messages that it gives out is sent, and nowhere else: a journal keeps where every 64th
//! stands, and reads on from there. Whoever needs each of them is a [`Reader`] as the journal is
//! loaded.
#![tactic(auto)]

mod error;
mod journal;
pub mod laws;
mod loading;
mod look;
mod out_buf;
mod reader;
mod walk;

pub use error::JournalError;
pub use journal::Journal;
pub use loading::payload_next;
pub use look::Look;
pub use out_buf::{OUT_ROOM, OutBuf};
pub use reader::{NoReader, Reader};
pub use walk::Walk;
