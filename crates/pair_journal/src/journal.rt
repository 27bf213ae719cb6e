//! A journal: its names and its entries, and the calls that read and lengthen it.

ghost use Rattle.std.specs.Prelude.{◌≡◌, ◌≢◌, ◌⊎◌, ◌+◌, ◌^◌, ◌≤◌, ◌<◌, ℕ, [], length, true, false};
ghost use Rattle.std.specs.Prelude.{Some, None, Ok, Err, IfOk, IfErr};
ghost use Rattle.std.specs.Prelude.{IfSome, OnOk, OnErr, IsOkUnless, is_some};
ghost use Rattle.std.specs.Option.{ForSome};
ghost use Rattle.outside.specs.Disk.{HasOneImage};
ghost use Rattle.order_meaning.specs.declared.names.Names.{Names};
ghost use Rattle.gate_log.specs.Records.{IsUnborn};
ghost use Rattle.gate_log.specs.Log.{OnlyReads, StandsOver};
ghost use Rattle.gate_log.specs.Chunk.{IsOf};
ghost use Rattle.pair_journal.specs.declared.error.JournalError.TheVariants as errors;
ghost use Rattle.kept_entries.specs.declared.spot.Spot.{Spot};
ghost use Rattle.pair_entries.specs.declared.entry.Entry.{Entry};
ghost use Rattle.pair_entries.specs.Payload.{AreNext, IsEntry};
ghost use Rattle.pair_entries.specs.Birth.{AreNames};
ghost use Rattle.kept_entries.specs.Numbers.{GoesOn, first_numbers, numbers_before, numbers_after};
ghost use Rattle.kept_entries.specs.Numbers.{next_out, outs_to};
ghost use Rattle.kept_entries.specs.Entries.{DaysGoOn};
ghost use Rattle.pair_journal.specs.Journal.{JournalOf, Unborn, Born};
ghost use Rattle.kept_entries.specs.Days.{last_day, day_after, day_at};
ghost use Rattle.pair_entries.specs.declared.TheConstants.{MAX_AT};
ghost use Rattle.kept_entries.specs.Given.{numbered, given_in, given, source_of};
ghost use Rattle.kept_entries.specs.Spots.{IsSpot, StandsAt};
ghost use Rattle.pair_journal.specs.Walks.{IsWalk};
ghost use Rattle.pair_journal.specs.OutBuf.{IsGivenAs, IsOutAt, TellsIf};
ghost use Rattle.pair_journal.specs.Buffer.{out_told, IsRoomy};
ghost use Rattle.pair_journal.specs.Calls.{HasDiskCause, ReadsOnly, Looks, Loads, BornOrNot};
ghost use Rattle.pair_journal.specs.Calls.{Commits, KeepsJournal, OnlyReading, RefusedUntold};
ghost use Rattle.pair_journal.specs.Loading.{HasNames, Tells, IsMisread, IsPayload};

use crate::loading::{read_log, read_record, whole_entries};
use crate::out_buf::OutTold;
use crate::{JournalError, Look, OutBuf, Reader};
use gate_log::{Chunk, Log, u32_front};
use kept_entries::{Keeper, Kept, STRIDE, Spot, day_after, later, next_out, out_in};
use order_meaning::{Names, Side};
use outside::Disk;
use pair_entries::{Entry, Prepared, are_names, front_of, read_birth, same_names, write_birth};
use std::alloc::Global;
use std::marker::Model;

/// The names of two sessions and a list of entries, which stand on a disk. It holds none of them:
/// with the bytes of its disk it stands for their list.
#[derive(Drop)]
pub struct Journal {
    log: Log,
    names: Names,
    kept: Kept,
}

impl Model for Journal {
    ghost use Rattle.pair_journal.specs.State.{JournalState};
    ghost use Rattle.pair_journal.specs.Keeping.{state_of, IsKept};

    ghost Value = { JournalState };

    ghost view = { state_of };

    ghost invariant = { IsKept };
}

/// Tells the out of this side and number that a payload has; false, where it has none.
fn tell_out(payload: &[u8], side: Side, number: u32, told: &mut OutTold) -> bool
    requires room { IsRoomy told.old }
    ensures gives { (entry : Entry) → IsEntry entry → IsPayload payload.now entry →
        TellsIf result (numbered number (outs_to side entry.outs)) entry.at (out_told told.new) }
    ensures bounds { result ≡ true → IsOutAt (out_told told.new) }
    ensures room { IsRoomy told.new }
{
    let Some((_, bytes)) = u32_front(payload) else {
        return false;
    };
    let Some(front) = front_of(bytes) else {
        return false;
    };
    let Some(out) = out_in(side, number, &front) else {
        return false;
    };
    told.tell(front.at, out);
    true
}

/// The number of the day of an entry that is to be committed, behind those of this day.
fn day_behind(day: u32, entry: &Entry) -> u32
    requires { day + 1 < 2 ^ 32 }
    ensures { result ≡ day_after day entry.now }
{
    day_after(day, &entry.as_ref())
}

impl Journal {
    /// The journal of a log. Its entries are shown to a reader.
    fn of_log<D: Disk, R: Reader>(
        alloc: Global,
        disk: &mut D,
        log: Log,
        reader: &mut R,
    ) -> Result<Journal, JournalError>
        requires stands { ForSome (D.bytes disk.old) (StandsOver log) }
        ensures ok { IfOk result (λ journal.
            Tells (D.bytes disk.old) journal.names journal.entries) }
        ensures whole { IfOk result (λ journal. journal.broken ≡ log.broken) }
        ensures shown { IfOk result (λ journal.
            R.shown reader.old [] → R.shown reader.new journal.entries) }
        ensures err { IfErr result (IsMisread (D.bytes disk.old)) }
        ensures only_read { OnlyReads D.bytes D.image disk.old disk.new }
        ensures cause { HasDiskCause (D.faults disk.old) (D.faults disk.new) result }
    {
        let (names, kept) = read_log(alloc, &log, disk, reader, Kept::new(alloc))?;
        Ok(Journal { log, names, kept })
    }

    /// The journal of a log, where it has these names. It only reads.
    fn of_names<D: Disk, R: Reader>(
        alloc: Global,
        disk: &mut D,
        log: Log,
        names: &Names,
        reader: &mut R,
    ) -> Result<Journal, JournalError>
        requires stands { ForSome (D.bytes disk.old) (StandsOver log) }
        ensures loads { IfSome (D.bytes disk.old) (λ b.
            Loads names.now b result (D.bytes disk.new)) }
        ensures stands { IfOk result (λ journal. ForSome (D.bytes disk.new) (λ b.
            JournalOf b (Born journal.names journal.entries))) }
        ensures named { IfOk result (λ journal. journal.names ≡ names.now) }
        ensures whole { IfOk result (λ journal. journal.broken ≡ log.broken) }
        ensures shown { IfOk result (λ journal.
            R.shown reader.old [] → R.shown reader.new journal.entries) }
        ensures only_read { OnlyReads D.bytes D.image disk.old disk.new }
        ensures cause { HasDiskCause (D.faults disk.old) (D.faults disk.new) result }
    {
        let journal = Journal::of_log(alloc, disk, log, reader)?;
        journal.if_named(names)
    }

    /// A journal of these names without entries, on a disk that is unborn.
    fn begin<D: Disk>(alloc: Global, disk: &mut D, names: &Names) -> Result<Journal, JournalError>
        requires unborn { ForSome (D.bytes disk.old) IsUnborn }
        ensures ok { IfOk result (λ journal. (journal.names ≡ names.now)
            × (journal.entries ≡ []) × (journal.broken ≡ false)) }
        ensures stands { OnOk result (ForSome (D.bytes disk.new) (λ b.
            JournalOf b (Born names.now []))) }
        ensures images { BornOrNot (D.bytes disk.old)
            (D.image disk.old) (D.image disk.new) names.now }
        ensures durable { OnOk result (HasOneImage (D.bytes disk.new) (D.image disk.new)) }
        ensures told { is_some (D.bytes disk.new) ≡ is_some (D.bytes disk.old) }
        ensures cause { HasDiskCause (D.faults disk.old) (D.faults disk.new) result }
        ensures only { ReadsOnly result }
    {
        are_names(names);
        let birth = write_birth(alloc, names)?;
        let log = Log::begin(alloc, disk, &birth)?;
        Ok(Journal {
            log,
            names: *names,
            kept: Kept::new(alloc),
        })
    }

    /// A look at the journal on a disk; none where the disk is unborn. It only reads, and compares
    /// no names.
    ///
    /// # Errors
    /// `Refused` exactly where the bytes are refused at that place; `DiskFault` only where the
    /// disk's count of faults rose; `NoMemory`.
    pub fn look<D: Disk>(alloc: Global, disk: &mut D) -> Result<Option<Look>, JournalError>
        ensures looks { IfSome (D.bytes disk.old) (λ b. Looks b result) }
        ensures only_read { OnlyReads D.bytes D.image disk.old disk.new }
        ensures cause { HasDiskCause (D.faults disk.old) (D.faults disk.new) result }
    {
        match Log::look(alloc, disk)? {
            Some(log) => Ok(Some(Look::of_log(alloc, disk, log)?)),
            None => Ok(None),
        }
    }

    /// The journal on a disk, where it is whole: it is read once, and its entries are shown to a
    /// reader. None where anything of it is not of the right form, and where the disk is unborn;
    /// then the reader may have been shown some, too.
    fn whole<D: Disk, R: Reader>(
        alloc: Global,
        disk: &mut D,
        reader: &mut R,
    ) -> Result<Option<Journal>, JournalError>
        ensures ok { IfOk result (λ found. IfSome found (λ journal.
            Tells (D.bytes disk.old) journal.names journal.entries)) }
        ensures unbroken { IfOk result (λ found. IfSome found (λ journal.
            journal.broken ≡ false)) }
        ensures shown { IfOk result (λ found. IfSome found (λ journal.
            R.shown reader.old [] → R.shown reader.new journal.entries)) }
        ensures only_read { OnlyReads D.bytes D.image disk.old disk.new }
        ensures cause { HasDiskCause (D.faults disk.old) (D.faults disk.new) result }
        ensures only { ReadsOnly result }
    {
        let mut chunk = Chunk::new(alloc)?;
        if !chunk.seek(disk, 0)? {
            return Ok(None);
        }
        let Some(names) = read_birth(chunk.payload()) else {
            return Ok(None);
        };
        let keeper = Kept::new(alloc);
        let Some(kept) = whole_entries(&names, disk, &mut chunk, reader, keeper)? else {
            return Ok(None);
        };
        let end = kept.end();
        let log = Log::of(alloc, end.index + 1, end.place);
        Ok(Some(Journal { log, names, kept }))
    }

    /// The same, gate by gate and then entry by entry, so that it is told where a disk is refused.
    fn load_judged<D: Disk, R: Reader>(
        alloc: Global,
        disk: &mut D,
        names: &Names,
        reader: &mut R,
    ) -> Result<Journal, JournalError>
        ensures loads { IfSome (D.bytes disk.old) (λ b.
            Loads names.now b result (D.bytes disk.new)) }
        ensures stands { IfOk result (λ journal. ForSome (D.bytes disk.new) (λ b.
            JournalOf b (Born journal.names journal.entries))) }
        ensures images { BornOrNot (D.bytes disk.old)
            (D.image disk.old) (D.image disk.new) names.now }
        ensures durable { OnOk result (HasOneImage (D.bytes disk.old) (D.image disk.old) →
            HasOneImage (D.bytes disk.new) (D.image disk.new)) }
        ensures named { IfOk result (λ journal. journal.names ≡ names.now) }
        ensures whole { IfOk result (λ journal. journal.broken ≡ false) }
        ensures shown { IfOk result (λ journal.
            R.shown reader.old [] → R.shown reader.new journal.entries) }
        ensures only_unborn_is_written { IfSome (D.bytes disk.old) (λ b.
            JournalOf b Unborn ⊎ OnlyReads D.bytes D.image disk.old disk.new) }
        ensures refused_only_reads { (at : ℕ) → result ≡ Err (errors.Refused at) →
            OnlyReads D.bytes D.image disk.old disk.new }
        ensures differ_only_reads { (kept given : Names) →
            result ≡ Err (errors.NamesDiffer kept given) →
            OnlyReads D.bytes D.image disk.old disk.new }
        ensures told { is_some (D.bytes disk.new) ≡ is_some (D.bytes disk.old) }
        ensures cause { HasDiskCause (D.faults disk.old) (D.faults disk.new) result }
    {
        match Log::look(alloc, disk)? {
            Some(log) => Journal::of_names(alloc, disk, log, names, reader),
            None => Journal::begin(alloc, disk, names),
        }
    }

    /// The journal of these names on a disk. An unborn disk becomes one without entries. Each entry
    /// is shown to a reader as it is read.
    ///
    /// # Errors
    /// `Refused` exactly where the bytes are refused at that place; `NamesDiffer` exactly where
    /// they are a journal of other names; `DiskFault` only where the disk's count of faults rose;
    /// `NoMemory`. At `Refused` and `NamesDiffer` the disk was only read; a disk that is not unborn
    /// was only read whatever the answer.
    pub fn load<D: Disk, R: Reader>(
        alloc: Global,
        disk: &mut D,
        names: &Names,
        reader: &mut R,
    ) -> Result<Journal, JournalError>
        ensures loads { IfSome (D.bytes disk.old) (λ b.
            Loads names.now b result (D.bytes disk.new)) }
        ensures stands { IfOk result (λ journal. ForSome (D.bytes disk.new) (λ b.
            JournalOf b (Born journal.names journal.entries))) }
        ensures images { BornOrNot (D.bytes disk.old)
            (D.image disk.old) (D.image disk.new) names.now }
        ensures durable { OnOk result (HasOneImage (D.bytes disk.old) (D.image disk.old) →
            HasOneImage (D.bytes disk.new) (D.image disk.new)) }
        ensures named { IfOk result (λ journal. journal.names ≡ names.now) }
        ensures whole { IfOk result (λ journal. journal.broken ≡ false) }
        ensures shown { IfOk result (λ journal.
            R.shown reader.old [] → R.shown reader.new journal.entries) }
        ensures only_unborn_is_written { IfSome (D.bytes disk.old) (λ b.
            JournalOf b Unborn ⊎ OnlyReads D.bytes D.image disk.old disk.new) }
        ensures refused_only_reads { (at : ℕ) → result ≡ Err (errors.Refused at) →
            OnlyReads D.bytes D.image disk.old disk.new }
        ensures differ_only_reads { (kept given : Names) →
            result ≡ Err (errors.NamesDiffer kept given) →
            OnlyReads D.bytes D.image disk.old disk.new }
        ensures told { is_some (D.bytes disk.new) ≡ is_some (D.bytes disk.old) }
        ensures cause { HasDiskCause (D.faults disk.old) (D.faults disk.new) result }
    {
        // One walk, where nothing is to be refused.
        if let Some(journal) = Journal::whole(alloc, disk, reader)? {
            return journal.if_named(names);
        }
        reader.restart();
        Journal::load_judged(alloc, disk, names, reader)
    }

    /// The journal, where it has these names.
    fn if_named(self, names: &Names) -> Result<Journal, JournalError>
        ensures { HasNames names.now self result }
    {
        if !same_names(&self.names, names) {
            return Err(JournalError::NamesDiffer {
                kept: self.names,
                given: *names,
            });
        }
        Ok(self)
    }

    /// Its names.
    pub fn names(&self) -> Names
        ensures names { result ≡ self.now.names }
        ensures bounds { AreNames result }
    {
        self.names
    }

    /// How many entries it has.
    pub fn count(&self) -> u64
        ensures { result ≡ length self.now.entries }
    {
        self.kept.end().index
    }

    /// The next numbers after its last entry: client in, client out, venue in, venue out, each from
    /// 1 to 1,000,000,000; all ones without an entry.
    pub fn next(&self) -> (u32, u32, u32, u32)
        ensures next { result ≡ numbers_after first_numbers (last_day self.now.entries) }
        ensures bounds { AreNext result }
        ensures sound { DaysGoOn first_numbers self.now.entries }
    {
        self.kept.end().next
    }

    /// When its last day began: with the entry that began it, or with the first one of all; none
    /// without an entry. It takes no memory.
    pub fn day_at(&self) -> Option<u64>
        ensures at { result ≡ day_at self.now.entries }
        ensures bounds { IfSome result (λ at. at ≤ MAX_AT) }
    {
        self.kept.day_at()
    }

    /// Finds the record at a spot, and answers the spot behind it.
    fn read_at<D: Disk>(
        &self,
        disk: &mut D,
        spot: Spot,
        chunk: &mut Chunk,
    ) -> Result<Spot, JournalError>
        requires stands { ForSome (D.bytes disk.old) (λ b.
            JournalOf b (Born self.now.names self.now.entries)) }
        requires of { IsOf (D.bytes disk.old) chunk.old }
        ensures of { IsOf (D.bytes disk.new) chunk.new }
        ensures reads { IfOk result (λ next. ForSome (D.bytes disk.old) (λ b. (entry : Entry) →
            StandsAt self.now.entries spot entry → IsPayload chunk.new.payload entry
            × IsEntry entry × IsSpot self.now.entries next)) }
        ensures sound { DaysGoOn first_numbers self.now.entries }
        ensures index { IfOk result (λ next. next.index ≡ spot.index + 1) }
        ensures refuses { (at : ℕ) → result ≡ Err (errors.Refused at) →
            ForSome (D.bytes disk.old) (λ b. (entry : Entry) →
            StandsAt self.now.entries spot entry → ⊥) }
        ensures only_read { OnlyReads D.bytes D.image disk.old disk.new }
        ensures few { D.reads disk.new ≤ D.reads disk.old + 1 }
        ensures cause { HasDiskCause (D.faults disk.old) (D.faults disk.new) result }
        ensures only { OnlyReading result }
        ensures no_memory { result ≢ Err errors.NoMemory }
    {
        if spot.index >= self.kept.end().index {
            return Err(JournalError::Refused { at: spot.place });
        }
        if spot.place >= self.log.end() {
            return Err(JournalError::Refused { at: spot.place });
        }
        read_record(chunk, disk, spot.place)?;
        let record = chunk.payload();
        let Some((_, bytes)) = u32_front(record) else {
            return Err(JournalError::Refused { at: spot.place });
        };
        let Some(front) = front_of(bytes) else {
            return Err(JournalError::Refused { at: spot.place });
        };
        Ok(Spot {
            index: spot.index + 1,
            place: spot.place + 5 + record.len() as u64,
            next: front.next,
        })
    }

    /// Makes room for one commit.
    ///
    /// # Errors
    /// `NoMemory` alone, and then nothing changed.
    pub fn reserve(&mut self) -> Result<(), JournalError>
        ensures ok { OnOk result (self.new ≡ record self.old { spare = 1 }) }
        ensures err { OnErr result (self.new ≡ self.old) }
        ensures only { IsOkUnless result errors.NoMemory }
    {
        self.log.reserve()?;
        self.kept.reserve()?;
        Ok(())
    }

    /// Appends an entry, and hands it back.
    ///
    /// It takes no memory. A crash at any moment leaves the journal as it was, or with the entry.
    ///
    /// # Errors
    /// `Full` exactly where the record would end past the last byte of a disk, and then nothing was
    /// written; `DiskFault` only where the disk's count of faults rose, and then the journal is
    /// broken.
    pub fn commit<D: Disk>(
        &mut self,
        disk: &mut D,
        prepared: Prepared,
    ) -> Result<Entry, JournalError>
        requires spare { 1 ≤ self.old.spare }
        requires whole { self.old.broken ≡ false }
        requires goes_on { GoesOn (numbers_before
            (numbers_after first_numbers (last_day self.old.entries)) prepared) prepared }
        requires stands { ForSome (D.bytes disk.old) (λ b.
            JournalOf b (Born self.old.names self.old.entries)) }
        ensures commits { Commits prepared self.old self.new result }
        ensures stands { OnOk result (ForSome (D.bytes disk.new) (λ b.
            JournalOf b (Born self.new.names self.new.entries))) }
        ensures durable { OnOk result (HasOneImage (D.bytes disk.new) (D.image disk.new)) }
        ensures images { KeepsJournal (D.bytes disk.old) (D.image disk.old) (D.image disk.new)
            self.old prepared }
        ensures full { result ≡ Err errors.Full → disk.new ≡ disk.old }
        ensures told { is_some (D.bytes disk.new) ≡ is_some (D.bytes disk.old) }
        ensures reads { D.reads disk.new ≡ D.reads disk.old }
        ensures cause { HasDiskCause (D.faults disk.old) (D.faults disk.new) result }
    {
        let day = day_behind(self.kept.day(), prepared.entry());
        let dated = prepared.dated(day);
        let payload = dated.payload();
        let len = payload.len() as u64;
        self.log.append(disk, payload)?;
        let entry = dated.into_entry();
        self.kept.add(&entry.as_ref(), len);
        Ok(entry)
    }

    /// Finds the record at a spot: where it has the out of this side and number, the out is told;
    /// else the spot behind it is answered.
    fn out_at<D: Disk>(
        &self,
        disk: &mut D,
        spot: Spot,
        side: Side,
        number: u32,
        into: &mut OutBuf,
    ) -> Result<Option<Spot>, JournalError>
        requires stands { ForSome (D.bytes disk.old) (λ b.
            JournalOf b (Born self.now.names self.now.entries)) }
        requires of { IsOf (D.bytes disk.old) into.old.walk.chunk }
        ensures of { IsOf (D.bytes disk.new) into.new.walk.chunk }
        ensures held { into.new.walk.spot ≡ into.old.walk.spot }
        ensures gives { result ≡ Ok None → ForSome (D.bytes disk.old) (λ b. (entry : Entry) →
            StandsAt self.now.entries spot entry →
            IsGivenAs (given_in side number entry) into.new.told) }
        ensures bounds { result ≡ Ok None → IsOutAt into.new.told }
        ensures goes_on { (next : Spot) → result ≡ Ok (Some next) → ForSome (D.bytes disk.old)
            (λ b. (entry : Entry) → StandsAt self.now.entries spot entry →
            IsSpot self.now.entries next × (next_out side next.next ≤ number)) }
        ensures index { (next : Spot) → result ≡ Ok (Some next) →
            next.index ≡ spot.index + 1 }
        ensures refuses { (at : ℕ) → result ≡ Err (errors.Refused at) →
            ForSome (D.bytes disk.old) (λ b. (entry : Entry) →
            StandsAt self.now.entries spot entry → next_out side spot.next ≤ number → ⊥) }
        ensures only_read { OnlyReads D.bytes D.image disk.old disk.new }
        ensures few { D.reads disk.new ≤ D.reads disk.old + 1 }
        ensures cause { HasDiskCause (D.faults disk.old) (D.faults disk.new) result }
        ensures only { OnlyReading result }
        ensures no_memory { result ≢ Err errors.NoMemory }
    {
        let next = self.read_at(disk, spot, &mut into.walk.chunk)?;
        if next_out(side, next.next) <= number {
            return Ok(Some(next));
        }
        if tell_out(into.walk.chunk.payload(), side, number, &mut into.told) {
            return Ok(None);
        }
        Err(JournalError::Refused { at: spot.place })
    }

    /// Reads the out of this side and number of the last day, which was given out, and walks on to
    /// it. It finds at most 64 records, in as many calls of the disk where each of them has 65,541
    /// bytes, and takes no memory. Where the numbers rise it begins with the record of the out
    /// before, which may hold this one too and is not read again.
    ///
    /// # Errors
    /// `Refused` only over a disk that does not tell its bytes, where a record that was read is no
    /// entry or does not have the out; `DiskFault` only where the disk's count of faults rose. Then
    /// nothing is said of the out in `into`, and its walk is where it was.
    pub fn out<D: Disk>(
        &self,
        disk: &mut D,
        side: Side,
        number: u32,
        into: &mut OutBuf,
    ) -> Result<(), JournalError>
        requires above { 1 ≤ number }
        requires below { number
            < next_out side (numbers_after first_numbers (last_day self.now.entries)) }
        requires stands { ForSome (D.bytes disk.old) (λ b.
            JournalOf b (Born self.now.names self.now.entries)) }
        requires walk { IsWalk (D.bytes disk.old) self.now.entries side number into.old.walk }
        ensures out { OnOk result (ForSome (D.bytes disk.old) (λ b.
            IsGivenAs (given side number (last_day self.now.entries)) into.new.told)) }
        ensures bounds { OnOk result (IsOutAt into.new.told) }
        ensures walk { (later : ℕ) → number ≤ later →
            IsWalk (D.bytes disk.new) self.now.entries side later into.new.walk }
        ensures only_read { OnlyReads D.bytes D.image disk.old disk.new }
        ensures few { D.reads disk.new ≤ D.reads disk.old + 64 }
        ensures cause { HasDiskCause (D.faults disk.old) (D.faults disk.new) result }
        ensures only { RefusedUntold (D.bytes disk.old) result }
        ensures no_memory { result ≢ Err errors.NoMemory }
    {
        let mark = self.kept.holding(side, number);
        let mut spot = later(mark, into.walk.spot);
        'records: while spot.index - mark.index < STRIDE {
            match self.out_at(disk, spot, side, number, into)? {
                Some(next) => spot = next,
                None => {
                    into.walk.spot = spot;
                    return Ok(());
                }
            }
        }
        // Over a disk that tells its bytes the out was found.
        Err(JournalError::Refused { at: spot.place })
    }

    /// The MsgSeqNum(34) and the type's letter of the message that the out of this side and number
    /// translates; none exactly where there is no such out, or it translates none. It takes no
    /// memory.
    ///
    /// An out was translated where its entry took a message of the other side whose body begins
    /// with MsgType(35) and the out's type, which is D, F, G or H to the venue, and 8 or 9 to the
    /// client.
    pub fn source_of(&self, side: Side, number: u32) -> Option<(u32, u8)>
        ensures { result ≡ source_of side number (last_day self.now.entries) }
    {
        self.kept.source_of(side, number)
    }
}
