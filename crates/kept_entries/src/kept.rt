//! What a journal keeps of its entries.

ghost use Rattle.std.specs.Prelude.{◌≡◌, ◌+◌, ◌-◌, ◌^◌, ◌≤◌, ◌<◌, [], ◌∷◌, ◌++◌, length};
ghost use Rattle.std.specs.Prelude.{OnOk, OnErr, IfSome};
ghost use Rattle.pair_entries.specs.declared.TheConstants.{MAX_AT};
ghost use Rattle.pair_entries.specs.Payload.{IsEntry};
ghost use Rattle.kept_entries.specs.Numbers.{GoesOn, first_numbers, numbers_before, numbers_after};
ghost use Rattle.kept_entries.specs.Numbers.{next_out};
ghost use Rattle.kept_entries.specs.Days.{last_day, day_at, payload_behind};
ghost use Rattle.kept_entries.specs.Entries.{DaysGoOn};
ghost use Rattle.kept_entries.specs.Given.{source_of};
ghost use Rattle.kept_entries.specs.Spots.{end_of, HoldsOut};

use crate::numbers::{begun_with, next_out};
use crate::reached::{Keeper, Reached};
use crate::sources::{Source, find, note};
use crate::spot::{STRIDE, Spot, mark, mark_of, marks_behind, start};
use order_meaning::Side;
use pair_entries::{EntryRef, MAX_OUTS};
use std::alloc::{AllocError, Global};
use std::marker::Model;

/// What a journal keeps of its entries, seen as their list: where they end and where the last day
/// begins, a mark behind each 64th, and what the outs of the last day to each side translate. It
/// holds no entry.
#[derive(Drop)]
pub struct Kept {
    reached: Reached,
    // Where the last day begins, and when it began.
    begins: Spot,
    at: Option<u64>,
    marks: Vec<Spot>,
    client: Vec<Source>,
    venue: Vec<Source>,
    spare: bool,
}

impl Model for Kept {
    ghost use Rattle.kept_entries.specs.State.{KeptState};

    ghost Value = { KeptState };

    ghost use Rattle.kept_entries.specs.Kept.{state_of, IsKept};

    ghost view = { state_of };

    ghost invariant = { IsKept };
}

impl Kept {
    /// Of no entries; it takes no memory.
    pub fn new(alloc: Global) -> Kept
        ensures { result ≡ record { entries = []; spare = 0 } }
    {
        Kept {
            reached: Reached::new(),
            begins: start(),
            at: None,
            marks: Vec::new(alloc),
            client: Vec::new(alloc),
            venue: Vec::new(alloc),
            spare: false,
        }
    }

    /// When the last day began; none without an entry.
    pub fn day_at(&self) -> Option<u64>
        ensures at { result ≡ day_at self.now.entries }
        ensures bounds { IfSome result (λ at. at ≤ MAX_AT) }
    {
        self.at
    }

    /// Makes room for one entry.
    ///
    /// # Errors
    /// `AllocError` for want of memory; then nothing changed.
    pub fn reserve(&mut self) -> Result<(), AllocError>
        ensures ok { OnOk result (self.new ≡ record self.old { spare = 1 }) }
        ensures err { OnErr result (self.new ≡ self.old) }
        ensures lacks { OnErr result (self.old.spare ≡ 0) }
    {
        if self.spare {
            return Ok(());
        }
        self.marks.reserve(1)?;
        self.client.reserve(MAX_OUTS)?;
        self.venue.reserve(MAX_OUTS)?;
        self.spare = true;
        Ok(())
    }

    /// Adds an entry that was read or committed, for which there is room, by the length of its
    /// payload.
    pub fn add(&mut self, entry: &EntryRef<'_>, len: u64)
        requires spare { 1 ≤ self.old.spare }
        requires sound { IsEntry entry.now }
        requires goes_on { GoesOn (numbers_before
            (numbers_after first_numbers self.old.entries) entry.now) entry.now }
        requires len { len ≡ length (payload_behind self.old.entries entry.now) }
        requires limit { end_of self.old.entries + 5 + len < 2 ^ 32 }
        ensures { self.new ≡ record {
          entries = self.old.entries ++ entry.now ∷ [];
          spare = self.old.spare - 1;
        } }
    {
        note(&mut self.client, Side::Client, entry);
        note(&mut self.venue, Side::Venue, entry);
        self.reached.add(entry, len);
        mark(&mut self.marks, self.reached.spot());
        self.begins = if entry.reset {
            self.reached.end()
        } else {
            self.begins
        };
        self.at = begun_with(self.at, entry);
        self.spare = false;
    }

    /// Where a walk to the entry of the last day that gave out this number begins.
    pub fn holding(&self, side: Side, number: u32) -> Spot
        requires above { 1 ≤ number }
        requires below { number
            < next_out side (numbers_after first_numbers (last_day self.now.entries)) }
        ensures holds { HoldsOut self.now.entries side number result }
        ensures sound { DaysGoOn first_numbers self.now.entries }
    {
        let before = (self.begins.index / STRIDE) as usize;
        let marks = marks_behind(&self.marks, before);
        let count = marks.partition_point(|mark| next_out(side, mark.next) <= number);
        if count == 0 {
            return self.begins;
        }
        mark_of(&self.marks, before + count)
    }

    /// What the out of this side and number of the last day translates.
    pub fn source_of(&self, side: Side, number: u32) -> Option<(u32, u8)>
        ensures { result ≡ source_of side number (last_day self.now.entries) }
    {
        match side {
            Side::Client => find(&self.client, number),
            Side::Venue => find(&self.venue, number),
        }
    }
}

impl Keeper for Kept {
    ghost entries = { λ kept. kept.entries };

    fn end(&self) -> Spot {
        self.reached.end()
    }

    fn day(&self) -> u32 {
        self.reached.day()
    }

    fn keep(&mut self, entry: &EntryRef<'_>, len: u64) -> Result<(), AllocError> {
        self.reserve()?;
        self.add(entry, len);
        Ok(())
    }
}
