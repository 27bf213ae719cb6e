//! Orders, and days, that are committed to the journal on a disk.

ghost use Rattle.std.specs.Prelude.{◌≡◌, ◌<◌, ◌≤◌, [], ◌∷◌, length, true, false, IfOk};
ghost use Rattle.std.specs.Option.{ForSome};
ghost use Rattle.order_meaning.specs.declared.Side.TheVariants as sides;
ghost use Rattle.kept_entries.specs.Days.{last_day};
ghost use Rattle.pair_journal.specs.Journal.{JournalOf, Born};
ghost use Rattle.kept_entries.specs.Numbers.{GoesOn, first_numbers, numbers_after, numbers_before};
ghost use Rattle.pair_entries.specs.Payload.{AreNext, IsEntry, IsOut, IsTook};

use crate::entries::Next;
use order_meaning::{Bytes, Name, Names, Side};
use outside::Disk;
use pair_entries::{Entry, MAX_CONTENT, MAX_NEXT, MAX_NUMBER, Out, Outs, Took, prepare};
use pair_journal::{Journal, JournalError, NoReader};
use std::alloc::{AllocError, Global};

/// The names of each journal.
pub(crate) fn names() -> Option<Names> {
    Some(Names {
        client_our: Name::new(b"GATE")?,
        client_peer: Name::new(b"CLNT")?,
        venue_our: Name::new(b"GATE")?,
        venue_peer: Name::new(b"VENU")?,
    })
}

// The client's message 2.
fn order_took(alloc: Global) -> Result<Took, AllocError>
    ensures side { IfOk result (λ took. took.side ≡ sides.Client) }
    ensures sound { IfOk result IsTook }
{
    let raw = Bytes::copy(alloc, b"35=D\x01\0")?;
    Ok(Took {
        side: Side::Client,
        number: 2,
        raw,
    })
}

// An order to the venue.
fn order_out(alloc: Global, number: u32, content: &[u8]) -> Result<Out, AllocError>
    requires number { number ≤ MAX_NUMBER }
    requires content { length content.now ≤ MAX_CONTENT }
    ensures side { IfOk result (λ out. out.side ≡ sides.Venue) }
    ensures number { IfOk result (λ out. out.number ≡ number) }
    ensures sound { IfOk result IsOut }
{
    let msg_type = Bytes::copy(alloc, b"D")?;
    let content = Bytes::copy(alloc, content)?;
    Ok(Out {
        side: Side::Venue,
        number,
        admin: false,
        resend: false,
        msg_type,
        content,
    })
}

// One out.
fn one(alloc: Global, out: Out) -> Result<Outs, AllocError>
    ensures { IfOk result (λ outs. outs ≡ out ∷ []) }
{
    let mut outs = Outs::new(alloc);
    outs.push(out)?;
    Ok(outs)
}

// An order that goes on from these next numbers, and is given out as this content.
fn order(alloc: Global, next: Next, content: &[u8]) -> Result<Entry, AllocError>
    requires client { next.0 < MAX_NEXT }
    requires venue { next.3 < MAX_NEXT }
    requires bounds { AreNext next }
    requires content { length content.now ≤ MAX_CONTENT }
    ensures goes_on { IfOk result (λ entry. GoesOn next entry) }
    ensures same_day { IfOk result (λ entry. entry.reset ≡ false) }
    ensures sound { IfOk result IsEntry }
{
    let out = order_out(alloc, next.3, content)?;
    let outs = one(alloc, out)?;
    let took = order_took(alloc)?;
    Ok(Entry {
        at: 258,
        reset: false,
        took: Some(took),
        next: (next.0 + 1, next.1, next.2, next.3 + 1),
        outs,
    })
}

// An entry with which a day begins.
fn new_day(alloc: Global) -> Entry
    ensures sound { IsEntry result }
    ensures goes_on { GoesOn first_numbers result }
    ensures reset { result.reset ≡ true }
{
    Entry {
        at: 86_400_000,
        reset: true,
        took: None,
        next: (1, 1, 1, 1),
        outs: Outs::new(alloc),
    }
}

// Commits an entry behind a journal, as far as the disk lets it.
fn commit<D: Disk>(
    alloc: Global,
    disk: &mut D,
    journal: &mut Journal,
    entry: Entry,
) -> Result<u64, JournalError>
    requires sound { IsEntry entry }
    requires goes_on { GoesOn (numbers_before
        (numbers_after first_numbers (last_day journal.old.entries)) entry) entry }
    requires whole { journal.old.broken ≡ false }
    requires stands { ForSome (D.bytes disk.old) (λ b.
        JournalOf b (Born journal.old.names journal.old.entries)) }
{
    let prepared = prepare(alloc, entry)?;
    journal.reserve()?;
    journal.commit(disk, prepared)?;
    Ok(journal.count())
}

// Commits one order more behind a journal, as far as the disk lets it.
fn commit_order<D: Disk>(
    alloc: Global,
    disk: &mut D,
    journal: &mut Journal,
    content: &[u8],
) -> Result<u64, JournalError>
    requires whole { journal.old.broken ≡ false }
    requires stands { ForSome (D.bytes disk.old) (λ b.
        JournalOf b (Born journal.old.names journal.old.entries)) }
{
    let next = journal.next();
    if next.0 >= MAX_NEXT || next.3 >= MAX_NEXT || content.len() > MAX_CONTENT {
        return Ok(0);
    }
    let entry = order(alloc, next, content)?;
    commit(alloc, disk, journal, entry)
}

/// Loads the journal on a disk and commits one order more, as far as the disk lets it: how many
/// entries it has then.
pub(crate) fn live<D: Disk>(
    alloc: Global,
    disk: &mut D,
    names: &Names,
    content: &[u8],
) -> Result<u64, JournalError> {
    let mut journal = Journal::load(alloc, disk, names, &mut NoReader)?;
    commit_order(alloc, disk, &mut journal, content)
}

/// Loads the journal on a disk and begins a day, as far as the disk lets it: how many entries it
/// has then.
pub(crate) fn begin_day<D: Disk>(
    alloc: Global,
    disk: &mut D,
    names: &Names,
) -> Result<u64, JournalError> {
    let mut journal = Journal::load(alloc, disk, names, &mut NoReader)?;
    commit(alloc, disk, &mut journal, new_day(alloc))
}

/// Commits so many orders, each with its number as its content.
pub(crate) fn live_on<D: Disk>(
    alloc: Global,
    disk: &mut D,
    names: &Names,
    count: u32,
) -> Result<u64, JournalError> {
    let mut entries = 0;
    for number in 1..=count {
        entries = live(alloc, disk, names, &number.to_be_bytes())?;
    }
    Ok(entries)
}
