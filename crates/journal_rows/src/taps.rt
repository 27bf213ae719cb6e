//! Taps that see entries, and the lines of these.

ghost use Rattle.std.specs.Prelude.{IfSome};
ghost use Rattle.pair_entries.specs.Payload.{IsEntry};

use crate::entries::entry_of;
use crate::texts::{numbers, told};
use drop_taps::{KeepTap, LineTap, Tap, TapFailed, TotalsTap};
use entry_lines::{EntryLine, MAX_LINE};
use outside::MemSink;
use pair_entries::Entry;
use row_words::{long_number, shown};
use std::alloc::{AllocError, Global};
use text_tap::TextTap;

// Shows an entry to a tap that works: why it fails then, if it does.
fn show<T: Tap>(tap: &mut T, entry: &Option<Entry>) -> Option<TapFailed>
    requires { IfSome entry.now IsEntry }
{
    match entry {
        Some(entry) => if tap.failed() {
            None
        } else {
            tap.saw(entry).err()
        },
        None => None,
    }
}

// Shows entries to a tap, in order: why it failed, if it did.
fn show_all<T: Tap>(
    alloc: Global,
    tap: &mut T,
    entries: &[Vec<u8>],
) -> Result<Option<TapFailed>, AllocError> {
    let mut failed = None;
    for bytes in entries {
        let entry = entry_of(alloc, bytes)?;
        failed = show(tap, &entry).or(failed);
    }
    Ok(failed)
}

// Why a tap failed behind entries, if it did, and how many entries, requests, reports and refusals
// it counted.
fn seen_by<T: Tap>(alloc: Global, tap: &mut T, entries: &[Vec<u8>]) -> Result<String, AllocError> {
    let why = show_all(alloc, tap, entries)?;
    let failed = if tap.failed() { " failed" } else { "" };
    let seen = tap.seen();
    format!(in alloc;
        "{why:?}{failed} {} {} {} {}",
        seen.entries, seen.requests, seen.reports, seen.refusals
    )
}

// The same, the next numbers of the last entry that a tap keeps, how many outs that has, and the
// next numbers of the entry at which it failed.
fn keeps(alloc: Global, tap: &mut KeepTap, entries: &[Vec<u8>]) -> Result<String, AllocError> {
    let seen = seen_by(alloc, tap, entries)?;
    let last = tap.entries().last();
    let kept = last.map(|last| (last.next, last.outs.as_slice().len()));
    let refused = tap.refused().map(|entry| entry.next);
    format!(in alloc; "{seen} {kept:?} {refused:?}")
}

// The lines that a tap puts, and the same.
fn lines(alloc: Global, entries: &[Vec<u8>], fail: Vec<u64>) -> Result<String, AllocError> {
    let mut tap = LineTap::new(MemSink::new(alloc, fail));
    let seen = seen_by(alloc, &mut tap, entries)?;
    let put = shown(alloc, tap.sink().bytes())?;
    format!(in alloc; "{put}{seen}")
}

// The texts that a tap puts, and the same.
fn texts(alloc: Global, entries: &[Vec<u8>], fail: Vec<u64>) -> Result<String, AllocError> {
    let mut tap = TextTap::new(alloc, MemSink::new(alloc, fail));
    let seen = seen_by(alloc, &mut tap, entries)?;
    let put = shown(alloc, tap.sink().bytes())?;
    format!(in alloc; "{put}{seen}")
}

const _: () = prove!(8_408 <= MAX_LINE);

// The line of an entry of this number.
fn line_of(alloc: Global, number: u64, entry: &Option<Entry>) -> Result<String, AllocError>
    requires { IfSome entry.now IsEntry }
{
    let mut line = EntryLine::new();
    if let Some(entry) = entry {
        line.write(number, entry);
    }
    shown(alloc, line.as_slice())
}

// The line of the first entry.
fn line(alloc: Global, entries: &[Vec<u8>], given: &str) -> Result<String, AllocError> {
    let number = long_number(given).unwrap_or(0);
    match entries.first() {
        Some(bytes) => line_of(alloc, number, &entry_of(alloc, bytes)?),
        None => Ok(String::new(alloc)),
    }
}

/// The answer of a tap that sees these entries, and fails at the calls of a word, or the line of
/// the first entry.
pub(crate) fn answer(
    alloc: Global,
    entries: &[Vec<u8>],
    call: &str,
    given: &str,
) -> Result<String, AllocError> {
    let fail = numbers(alloc, given)?;
    match call {
        "keeps" => keeps(alloc, &mut KeepTap::new(alloc, fail), entries),
        "counts" => seen_by(alloc, &mut TotalsTap::new(), entries),
        "lines" => lines(alloc, entries, fail),
        "texts" => texts(alloc, entries, fail),
        "line" => line(alloc, entries, given),
        _ => told(alloc, &line(alloc, entries, given)?.len()),
    }
}
