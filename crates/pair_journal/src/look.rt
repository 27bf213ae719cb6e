//! A journal that is only looked at, entry by entry.

ghost use Rattle.std.specs.Prelude.{◌≡◌, ◌+◌, ◌<◌, ℕ, length, Some, Err, IfOk, IfErr};
ghost use Rattle.std.specs.Prelude.{IsOkUnless};
ghost use Rattle.std.specs.Option.{ForSome};
ghost use Rattle.std.specs.List.{slice_get};
ghost use Rattle.gate_log.specs.Log.{OnlyReads, StandsOver};
ghost use Rattle.gate_log.specs.Chunk.{IsOf};
ghost use Rattle.pair_entries.specs.declared.entry.Entry.{Entry};
ghost use Rattle.pair_entries.specs.Payload.{IsEntry};
ghost use Rattle.pair_journal.specs.declared.error.JournalError.TheVariants as errors;
ghost use Rattle.kept_entries.specs.Numbers.{first_numbers, numbers_after};
ghost use Rattle.kept_entries.specs.Days.{last_day};
ghost use Rattle.pair_journal.specs.Journal.{JournalOf, Born};
ghost use Rattle.kept_entries.specs.Spots.{IsSpot, StandsAt};
ghost use Rattle.pair_journal.specs.Walks.{IsUpTo, BeginsEntries};
ghost use Rattle.pair_journal.specs.Calls.{HasDiskCause, OnlyReading, RefusedUntold};
ghost use Rattle.pair_journal.specs.Loading.{Tells, IsMisread};

use crate::loading::{read_log, read_record};
use crate::walk::Walk;
use crate::{JournalError, NoReader};
use gate_log::{Chunk, Log, u32_front};
use kept_entries::{Keeper, Reached, Spot};
use order_meaning::Names;
use outside::Disk;
use pair_entries::{Entry, entry_ref};
use std::alloc::Global;
use std::marker::Model;

/// A journal that is only looked at. It has no marks, so its memory is the same however many
/// entries the journal has; there is no room for a commit.
#[derive(Drop)]
pub struct Look {
    alloc: Global,
    log: Log,
    names: Names,
    reached: Reached,
}

impl Model for Look {
    ghost use Rattle.pair_journal.specs.State.{JournalState};
    ghost use Rattle.pair_journal.specs.Look.{state_of, IsLook};

    ghost Value = { JournalState };

    ghost view = { state_of };

    ghost invariant = { IsLook };
}

impl Look {
    /// The journal of a log.
    pub(crate) fn of_log<D: Disk>(
        alloc: Global,
        disk: &mut D,
        log: Log,
    ) -> Result<Look, JournalError>
        requires stands { ForSome (D.bytes disk.old) (StandsOver log) }
        ensures ok { IfOk result (λ look. Tells (D.bytes disk.old) look.names look.entries) }
        ensures err { IfErr result (IsMisread (D.bytes disk.old)) }
        ensures only_read { OnlyReads D.bytes D.image disk.old disk.new }
        ensures cause { HasDiskCause (D.faults disk.old) (D.faults disk.new) result }
    {
        let (names, reached) = read_log(alloc, &log, disk, &mut NoReader, Reached::new())?;
        Ok(Look {
            alloc,
            log,
            names,
            reached,
        })
    }

    /// How many entries it has.
    pub fn count(&self) -> u64
        ensures { result ≡ length self.now.entries }
    {
        self.reached.end().index
    }

    /// The next numbers after its last entry: client in, client out, venue in, venue out; all ones
    /// without an entry.
    pub fn next(&self) -> (u32, u32, u32, u32)
        ensures { result ≡ numbers_after first_numbers (last_day self.now.entries) }
    {
        self.reached.end().next
    }

    /// A walk over its entries, before the first.
    ///
    /// # Errors
    /// `NoMemory` alone.
    pub fn walk(&self) -> Result<Walk, JournalError>
        ensures entries { IfOk result BeginsEntries }
        ensures only { IsOkUnless result errors.NoMemory }
    {
        Ok(Walk::new(self.alloc)?)
    }

    /// The entry at a spot, and the spot behind it.
    fn entry_at<D: Disk>(
        &self,
        disk: &mut D,
        spot: Spot,
        chunk: &mut Chunk,
    ) -> Result<(Entry, Spot), JournalError>
        requires stands { ForSome (D.bytes disk.old) (λ b.
            JournalOf b (Born self.now.names self.now.entries)) }
        requires of { IsOf (D.bytes disk.old) chunk.old }
        ensures of { IsOf (D.bytes disk.new) chunk.new }
        ensures entry { IfOk result (λ read. ForSome (D.bytes disk.old) (λ b. (entry : Entry) →
            StandsAt self.now.entries spot entry → (read.0 ≡ entry)
            × IsSpot self.now.entries read.1)) }
        ensures index { IfOk result (λ read. read.1.index ≡ spot.index + 1) }
        ensures bounds { IfOk result (λ read. IsEntry read.0) }
        ensures refuses { (at : ℕ) → result ≡ Err (errors.Refused at) →
            ForSome (D.bytes disk.old) (λ b. (entry : Entry) →
            StandsAt self.now.entries spot entry → ⊥) }
        ensures only_read { OnlyReads D.bytes D.image disk.old disk.new }
        ensures cause { HasDiskCause (D.faults disk.old) (D.faults disk.new) result }
        ensures only { OnlyReading result }
    {
        if spot.index >= self.reached.end().index {
            return Err(JournalError::Refused { at: spot.place });
        }
        if spot.place >= self.log.end() {
            return Err(JournalError::Refused { at: spot.place });
        }
        read_record(chunk, disk, spot.place)?;
        let record = chunk.payload();
        let Some((_, bytes)) = u32_front(record) else {
            return Err(JournalError::Refused { at: spot.place });
        };
        let Some(entry) = entry_ref(bytes) else {
            return Err(JournalError::Refused { at: spot.place });
        };
        let next = spot.behind(&entry, record.len() as u64);
        Ok((entry.to_entry(self.alloc)?, next))
    }

    /// The entry of this index, which counts from 0; the walk goes on to it, and behind it. It
    /// reads 65,541 bytes at once, and no record twice.
    ///
    /// # Errors
    /// `Refused` only over a disk that does not tell its bytes, where a record that was read is no
    /// entry; `DiskFault` only where the disk's count of faults rose; `NoMemory`. Then the walk is
    /// where it was.
    pub fn entry<D: Disk>(
        &self,
        disk: &mut D,
        walk: &mut Walk,
        index: u64,
    ) -> Result<Entry, JournalError>
        requires index { index < length self.now.entries }
        requires stands { ForSome (D.bytes disk.old) (λ b.
            JournalOf b (Born self.now.names self.now.entries)) }
        requires walk { IsUpTo (D.bytes disk.old) self.now.entries index walk.old }
        ensures entry { IfOk result (λ entry. ForSome (D.bytes disk.old) (λ b.
            slice_get self.now.entries index ≡ Some entry)) }
        ensures bounds { IfOk result IsEntry }
        ensures walk { IsUpTo (D.bytes disk.new) self.now.entries (index + 1) walk.new }
        ensures only_read { OnlyReads D.bytes D.image disk.old disk.new }
        ensures cause { HasDiskCause (D.faults disk.old) (D.faults disk.new) result }
        ensures only { RefusedUntold (D.bytes disk.old) result }
    {
        let mut spot = walk.spot;
        'records: while spot.index < index {
            let (_, next) = self.entry_at(disk, spot, &mut walk.chunk)?;
            spot = next;
        }
        let (entry, next) = self.entry_at(disk, spot, &mut walk.chunk)?;
        walk.spot = next;
        Ok(entry)
    }
}
