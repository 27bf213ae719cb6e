//! The payloads of the journal of the gateway: its names, its entries, and the bytes of both.
//!
//! An entry has the message that was taken, if one was, the next numbers after it, and the messages
//! that were given out. Its bytes, the payload of a record, are `entry_bytes` of
//! `specs/Payload.antt`: [`prepare`] writes them, and [`entry_ref`] reads them back where they
//! stand, with no copy; [`front_of`] and [`out_ref`] read a part of them. The names stand in the
//! birth record, by `birth_bytes` of `specs/Birth.antt`.
#![tactic(auto)]

mod birth;
mod borrowed;
mod entry;
mod prepared;
mod reading;
mod writing;

pub use birth::{are_names, read_birth, same_names, write_birth};
pub use borrowed::{EntryRef, OutRef, OutRefs, TookRef};
pub use entry::{Entry, Out, Outs, Took};
pub use prepared::{Dated, Prepared, prepare};
pub use reading::{Front, entry_ref, front_of, out_ref, u8_front};

/// The latest moment of an entry, in milliseconds since 1970-01-01 00:00 UTC: the end of 2099.
pub const MAX_AT: u64 = 4_102_444_799_999;

/// The highest MsgSeqNum(34) of a message.
pub const MAX_NUMBER: u32 = 999_999_999;

/// The highest next number, which says that all are used.
pub const MAX_NEXT: u32 = 1_000_000_000;

/// The most bytes of a body that was taken.
pub const MAX_RAW: usize = 8_192;

/// The most bytes of a MsgType(35).
pub const MAX_TYPE: usize = 8;

/// The most bytes of the content of a message that was given out.
pub const MAX_CONTENT: usize = 7_936;

/// The most messages that one entry gives out.
pub const MAX_OUTS: usize = 4;
