//! An entry with the bytes of its payload, ready to be committed.

ghost use Rattle.std.specs.Prelude.{◌≡◌, ◌≤◌, ◌++◌, length, drop, IfOk};
ghost use Rattle.std.specs.Int.{w32, to_be_bytes};
ghost use Rattle.pair_entries.specs.Payload.{IsEntry, payload_on};

use crate::Entry;
use crate::writing::write_entry;
use gate_log::MAX_PAYLOAD;
use std::alloc::{AllocError, Global};
use std::marker::Model;

/// An entry and room for the bytes of its payload, seen as the entry.
#[derive(Debug, Drop)]
pub struct Prepared {
    entry: Entry,
    payload: Vec<u8>,
}

impl Model for Prepared {
    ghost use Rattle.pair_entries.specs.declared.entry.Entry.{Entry};

    ghost Value = { Entry };

    ghost view = { λ p. p.entry };

    ghost use Rattle.pair_entries.specs.Prepared.{IsPayload};

    ghost invariant = { λ p. IsPayload 0 p.entry p.payload.items };
}

/// An entry and the bytes of its payload on a day, seen as both.
#[derive(Debug, Drop)]
pub struct Dated {
    day: u32,
    entry: Entry,
    payload: Vec<u8>,
}

impl Model for Dated {
    ghost use Rattle.pair_entries.specs.Prepared.{OnDay, IsPayload};

    ghost Value = { OnDay };

    ghost view = { λ p. record { day = p.day; entry = p.entry } };

    ghost invariant = { λ p. IsPayload p.day p.entry p.payload.items };
}

/// Puts another day in front of a payload.
fn put_day(payload: &mut [u8], day: u32)
    requires { 4 ≤ length payload.old }
    ensures { payload.new ≡ to_be_bytes w32 day ++ drop 4 payload.old }
{
    payload[..4].copy_from_slice(&day.to_be_bytes());
}

/// The bytes of an entry that keeps its bounds, so that its commit takes no memory. Its day is left
/// to the commit.
///
/// # Errors
/// `AllocError` for want of memory.
pub fn prepare(alloc: Global, entry: Entry) -> Result<Prepared, AllocError>
    requires { IsEntry entry }
    ensures { IfOk result (λ prepared. prepared ≡ entry) }
{
    let payload = write_entry(alloc, 0, &entry)?;
    Ok(Prepared { entry, payload })
}

impl Prepared {
    /// The entry.
    pub fn entry(&self) -> &Entry
        ensures entry { result.now ≡ self.now }
        ensures sound { IsEntry self.now }
    {
        &self.entry
    }

    /// The same on a day; it takes no memory.
    pub fn dated(self, day: u32) -> Dated
        ensures dated { result ≡ record { day = day; entry = self } }
        ensures sound { IsEntry self }
    {
        let Prepared { entry, payload } = self;
        let mut payload = payload;
        put_day(&mut payload, day);
        Dated {
            day,
            entry,
            payload,
        }
    }
}

impl Dated {
    /// The payload.
    pub fn payload(&self) -> &[u8]
        ensures bytes { result.now ≡ payload_on self.now.day self.now.entry }
        ensures some { 1 ≤ length result.now }
        ensures short { length result.now ≤ MAX_PAYLOAD }
    {
        &self.payload
    }

    /// The entry, for whoever committed it.
    pub fn into_entry(self) -> Entry
        ensures { result ≡ self.entry }
    {
        let Dated { entry, .. } = self;
        entry
    }
}
