//! What was played.

use crate::CallLog;

/// A life that was played: what was done on its wires, and how it ended.
#[derive(Clone, Copy)]
pub struct PlayedLife<'a> {
    /// Its number, from 1 on.
    pub number: u64,
    /// The calls on the client's wire.
    pub client: &'a CallLog,
    /// The calls on the venue's wire.
    pub venue: &'a CallLog,
    /// The name of its end.
    pub end: &'a [u8],
}

/// A drill that was played: its numbers, how its life ended, and what the journal has then.
#[derive(Clone, Copy, Debug)]
pub struct PlayedDrill<'a> {
    /// The number that it was made from.
    pub first: u64,
    /// How many orders it has.
    pub count: u32,
    /// How many of them were filled, busted, corrected and rejected.
    pub kinds: (u32, u32, u32, u32),
    /// The name of the life's end.
    pub end: &'a [u8],
    /// How many entries the journal has.
    pub entries: u64,
    /// Its next numbers, in and out of the client's session and then of the venue's.
    pub next: (u32, u32, u32, u32),
}
