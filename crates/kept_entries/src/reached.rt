//! Where the entries that were read end.

ghost use Rattle.std.specs.Prelude.{◌≡◌, ◌+◌, ◌^◌, ◌<◌, [], ◌∷◌, ◌++◌, List, length, OnOk};
ghost use Rattle.pair_entries.specs.declared.entry.Entry.{Entry};
ghost use Rattle.pair_entries.specs.Payload.{IsEntry};
ghost use Rattle.kept_entries.specs.Numbers.{GoesOn, first_numbers, numbers_before, numbers_after};
ghost use Rattle.kept_entries.specs.Days.{day_number, payload_behind};
ghost use Rattle.kept_entries.specs.Entries.{DaysGoOn};
ghost use Rattle.kept_entries.specs.Spots.{behind, end_of};

use crate::numbers::day_after;
use crate::past::{Past, joined, none};
use crate::spot::{Spot, start};
use pair_entries::EntryRef;
use std::alloc::AllocError;
use std::marker::Model;

/// What keeps something of the entries of a journal as they are read.
pub trait Keeper {
    /// Those entries.
    ghost entries: { Self → List Entry };

    /// The place behind the last of them.
    fn end(&self) -> Spot
        ensures end { result ≡ behind (entries self.now) }
        ensures sound { DaysGoOn first_numbers (entries self.now) };

    /// The number of the last day.
    fn day(&self) -> u32
        ensures number { result ≡ day_number (entries self.now) }
        ensures few { result + 1 < 2 ^ 32 }
        ensures sound { DaysGoOn first_numbers (entries self.now) };

    /// Adds an entry, by the length of its payload.
    ///
    /// # Errors
    /// `AllocError` for want of memory.
    fn keep(&mut self, entry: &EntryRef<'_>, len: u64) -> Result<(), AllocError>
        requires sound { IsEntry entry.now }
        requires goes_on { GoesOn (numbers_before
            (numbers_after first_numbers (entries self.old)) entry.now) entry.now }
        requires len { len ≡ length (payload_behind (entries self.old) entry.now) }
        requires limit { end_of (entries self.old) + 5 + len < 2 ^ 32 }
        ensures { OnOk result (entries self.new ≡ entries self.old ++ entry.now ∷ []) };
}

/// Where the entries that were read end, and the number of their last day, seen as their list. It
/// holds none of them, and its memory is the same however many they are.
#[derive(Drop)]
pub struct Reached {
    past: Past,
    end: Spot,
    day: u32,
}

impl Model for Reached {
    ghost use Rattle.std.specs.Prelude.{List};
    ghost use Rattle.pair_entries.specs.declared.entry.Entry.{Entry};

    ghost Value = { List Entry };

    ghost use Rattle.kept_entries.specs.Reached.{IsReached};

    ghost view = { λ reached. reached.past.entries };

    ghost invariant = { IsReached };
}

impl Reached {
    /// No entries; it takes no memory.
    pub fn new() -> Reached
        ensures { result ≡ [] }
    {
        Reached {
            past: none(),
            end: start(),
            day: 0,
        }
    }

    /// The place behind the last of them, not copied: a copy right after it was written would wait
    /// for all that was written before.
    pub(crate) fn spot(&self) -> &Spot
        ensures end { result.now ≡ behind self.now }
        ensures sound { DaysGoOn first_numbers self.now }
    {
        &self.end
    }

    /// Adds an entry, by the length of its payload.
    pub(crate) fn add(&mut self, entry: &EntryRef<'_>, len: u64)
        requires sound { IsEntry entry.now }
        requires goes_on { GoesOn (numbers_before (numbers_after first_numbers self.old) entry.now)
            entry.now }
        requires len { len ≡ length (payload_behind self.old entry.now) }
        requires limit { end_of self.old + 5 + len < 2 ^ 32 }
        ensures { self.new ≡ self.old ++ entry.now ∷ [] }
    {
        self.past = joined(&self.past, entry);
        self.end = self.end.behind(entry, len);
        self.day = day_after(self.day, entry);
    }
}

impl Keeper for Reached {
    ghost entries = { λ reached. reached };

    fn end(&self) -> Spot {
        self.end
    }

    fn day(&self) -> u32 {
        self.day
    }

    fn keep(&mut self, entry: &EntryRef<'_>, len: u64) -> Result<(), AllocError> {
        self.add(entry, len);
        Ok(())
    }
}
