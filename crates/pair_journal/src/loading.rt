//! The payloads of a log as the names and the entries of a journal.

ghost use Rattle.std.specs.Prelude.{◌≢◌, ◌+◌, ◌<◌, ◌^◌, Err};
ghost use Rattle.pair_journal.specs.declared.error.JournalError.TheVariants as errors;
ghost use Rattle.std.specs.Prelude.{◌≡◌, ◌≤◌, [], MatchOption, IfOk, IfErr, IfSome, OnOk};
ghost use Rattle.std.specs.Option.{ForSome};
ghost use Rattle.gate_log.specs.Log.{OnlyReads, StandsOver, ReadsPayload};
ghost use Rattle.gate_log.specs.Chunk.{IsOf, BeginsWith};
ghost use Rattle.pair_entries.specs.Birth.{AreNames, birth_bytes};
ghost use Rattle.pair_entries.specs.declared.entry.Entry.{Entry};
ghost use Rattle.pair_journal.specs.Calls.{HasDiskCause, ReadsOnly};
ghost use Rattle.pair_journal.specs.Loading.{Follows, Unread, IsMisread, TellsNames, Tells};
ghost use Rattle.pair_journal.specs.Loading.{HasExtent};
ghost use Rattle.kept_entries.specs.Days.{day_after};
ghost use Rattle.kept_entries.specs.Spots.{end_of};
ghost use Rattle.outside.specs.declared.disk.TheConstants.{MAX_DISK};

use crate::{JournalError, Reader};
use gate_log::{Chunk, Log, u32_front};
use kept_entries::{Keeper, Kept, Next, day_after, goes_on, numbers_before};
use order_meaning::Names;
use outside::{Disk, MAX_DISK};
use pair_entries::{EntryRef, entry_ref, read_birth};
use std::alloc::Global;

/// Finds the payload of the record at this place.
pub(crate) fn read_record<D: Disk>(
    chunk: &mut Chunk,
    disk: &mut D,
    place: u64,
) -> Result<(), JournalError>
    requires place { place ≤ MAX_DISK }
    requires of { IsOf (D.bytes disk.old) chunk.old }
    ensures of { IsOf (D.bytes disk.new) chunk.new }
    ensures payload { OnOk result (ReadsPayload (D.bytes disk.old) place chunk.new.payload) }
    ensures err { IfErr result (Unread (D.bytes disk.old) place) }
    ensures no_memory { result ≢ Err errors.NoMemory }
    ensures few { D.reads disk.new ≤ D.reads disk.old + 1 }
    ensures only_read { OnlyReads D.bytes D.image disk.old disk.new }
    ensures cause { HasDiskCause (D.faults disk.old) (D.faults disk.new) result }
{
    chunk.read(disk, place)?;
    Ok(())
}

/// The names in the birth record of a log.
fn read_names<D: Disk>(log: &Log, disk: &mut D, chunk: &mut Chunk) -> Result<Names, JournalError>
    requires stands { ForSome (D.bytes disk.old) (StandsOver log.now) }
    requires of { IsOf (D.bytes disk.old) chunk.old }
    ensures of { IsOf (D.bytes disk.new) chunk.new }
    ensures named { IfOk result AreNames }
    ensures ok { IfOk result (TellsNames (D.bytes disk.old)) }
    ensures err { IfErr result (IsMisread (D.bytes disk.old)) }
    ensures only_read { OnlyReads D.bytes D.image disk.old disk.new }
    ensures cause { HasDiskCause (D.faults disk.old) (D.faults disk.new) result }
{
    let _ = log.count(); // says that it has a record
    read_record(chunk, disk, 0)?;
    match read_birth(chunk.payload()) {
        Some(names) => Ok(names),
        None => Err(JournalError::Refused { at: 0 }),
    }
}

/// The entry that this payload spells behind this day, where its numbers go on from these.
fn entry_after(day: u32, numbers: Next, payload: &[u8]) -> Option<EntryRef<'_>>
    requires { day + 1 < 2 ^ 32 }
    ensures { MatchOption result
        ((entry : Entry) → Follows day numbers payload.now entry → ⊥)
        (λ entry. Follows day numbers payload.now entry) }
{
    // Its day stands in front of it.
    let Some((on, bytes)) = u32_front(payload) else {
        return None;
    };
    let Some(entry) = entry_ref(bytes) else {
        return None;
    };
    if on != day_after(day, &entry) {
        return None;
    }
    if !goes_on(numbers_before(numbers, &entry), &entry) {
        return None;
    }
    Some(entry)
}

/// The day and the next numbers behind the entry that this payload spells, where it goes on from
/// these; none exactly where it spells none that does. It takes no memory.
pub fn payload_next(payload: &[u8], day: u32, numbers: Next) -> Option<(u32, Next)>
    requires { day + 1 < 2 ^ 32 }
    ensures { MatchOption result
        ((entry : Entry) → Follows day numbers payload.now entry → ⊥)
        (λ x. (entry : Entry) × Follows day numbers payload.now entry
        × (x.0 ≡ day_after day entry) × (x.1 ≡ entry.next)) }
{
    match entry_after(day, numbers, payload) {
        Some(entry) => Some((day_after(day, &entry), entry.next)),
        None => None,
    }
}

/// What a keeper, which has none yet, keeps of the entries in the records of a log behind its birth
/// record. Each is shown to a reader.
fn read_entries<D: Disk, R: Reader, K: Keeper + Drop>(
    log: &Log,
    names: &Names,
    disk: &mut D,
    chunk: &mut Chunk,
    reader: &mut R,
    keeper: K,
) -> Result<K, JournalError>
    requires named { AreNames names.now }
    requires born { TellsNames (D.bytes disk.old) names.now }
    requires stands { ForSome (D.bytes disk.old) (StandsOver log.now) }
    requires none { K.entries keeper ≡ [] }
    requires of { IsOf (D.bytes disk.old) chunk.old }
    ensures ok { IfOk result (λ kept. Tells (D.bytes disk.old) names.now (K.entries kept)) }
    ensures extent { IfOk result (λ kept. HasExtent log.now names.now (K.entries kept)) }
    ensures shown { IfOk result (λ kept.
        R.shown reader.old [] → R.shown reader.new (K.entries kept)) }
    ensures err { IfErr result (IsMisread (D.bytes disk.old)) }
    ensures only_read { OnlyReads D.bytes D.image disk.old disk.new }
    ensures cause { HasDiskCause (D.faults disk.old) (D.faults disk.new) result }
{
    let mut kept = keeper;
    for index in 1..log.count() {
        let end = kept.end();
        if end.place >= log.end() {
            return Err(JournalError::Refused { at: end.place });
        }
        read_record(chunk, disk, end.place)?;
        let payload = chunk.payload();
        let Some(entry) = entry_after(kept.day(), end.next, payload) else {
            return Err(JournalError::Refused { at: end.place });
        };
        reader.saw(&entry)?;
        kept.keep(&entry, payload.len() as u64)?;
    }
    // Over a disk that tells its bytes it is the end.
    let place = kept.end().place;
    if place != log.end() {
        return Err(JournalError::Refused { at: place });
    }
    Ok(kept)
}

/// The names in the birth record of a log, and what a keeper, which has none yet, keeps of its
/// entries. Each is shown to a reader.
pub(crate) fn read_log<D: Disk, R: Reader, K: Keeper + Drop>(
    alloc: Global,
    log: &Log,
    disk: &mut D,
    reader: &mut R,
    keeper: K,
) -> Result<(Names, K), JournalError>
    requires stands { ForSome (D.bytes disk.old) (StandsOver log.now) }
    requires none { K.entries keeper ≡ [] }
    ensures named { IfOk result (λ read. AreNames read.0) }
    ensures ok { IfOk result (λ read. Tells (D.bytes disk.old) read.0 (K.entries read.1)) }
    ensures extent { IfOk result (λ read. HasExtent log.now read.0 (K.entries read.1)) }
    ensures shown { IfOk result (λ read.
        R.shown reader.old [] → R.shown reader.new (K.entries read.1)) }
    ensures err { IfErr result (IsMisread (D.bytes disk.old)) }
    ensures only_read { OnlyReads D.bytes D.image disk.old disk.new }
    ensures cause { HasDiskCause (D.faults disk.old) (D.faults disk.new) result }
{
    let mut chunk = Chunk::new(alloc)?;
    let names = read_names(log, disk, &mut chunk)?;
    let kept = read_entries(log, &names, disk, &mut chunk, reader, keeper)?;
    Ok((names, kept))
}

/// What is kept, where nothing is yet, of the entries behind the birth record of a journal of these
/// names, up to a gate that is shut; none where what stands before it is not all entries. Each is
/// shown to a reader.
pub(crate) fn whole_entries<D: Disk, R: Reader>(
    names: &Names,
    disk: &mut D,
    chunk: &mut Chunk,
    reader: &mut R,
    keeper: Kept,
) -> Result<Option<Kept>, JournalError>
    requires named { AreNames names.now }
    requires born { IfSome (D.bytes disk.old) (λ b. BeginsWith b (birth_bytes names.now)) }
    requires none { keeper.entries ≡ [] }
    requires of { IsOf (D.bytes disk.old) chunk.old }
    ensures ok { IfOk result (λ found. IfSome found (λ kept.
        Tells (D.bytes disk.old) names.now kept.entries)) }
    ensures within { IfOk result (λ found. IfSome found (λ kept.
        end_of kept.entries < MAX_DISK)) }
    ensures shown { IfOk result (λ found. IfSome found (λ kept.
        R.shown reader.old [] → R.shown reader.new kept.entries)) }
    ensures only_read { OnlyReads D.bytes D.image disk.old disk.new }
    ensures cause { HasDiskCause (D.faults disk.old) (D.faults disk.new) result }
    ensures only { ReadsOnly result }
{
    let mut kept = keeper;
    'records: loop {
        let end = kept.end();
        if chunk.is_shut(disk, end.place)? {
            return Ok(Some(kept));
        }
        if !chunk.seek(disk, end.place)? {
            return Ok(None);
        }
        let payload = chunk.payload();
        let Some(entry) = entry_after(kept.day(), end.next, payload) else {
            return Ok(None);
        };
        let len = payload.len() as u64;
        if end.place + 5 + len >= MAX_DISK {
            return Ok(None);
        }
        reader.saw(&entry)?;
        kept.keep(&entry, len)?;
    }
}
