//! Calls over the journal on a disk.

use crate::disks::disk;
use crate::entries::{Next, entry_on};
use crate::orders::{live, live_on, names};
use crate::outs::all_told;
use crate::stops::{first_other, refused, stopped};
use crate::texts::told;
use order_meaning::{Name, Names, Side};
use outside::{Image, MemDisk};
use pair_journal::{Journal, JournalError, NoReader};
use row_words::{number, side_of, word};
use std::alloc::{AllocError, Global};

// How many entries the journal on a disk has; none where it is unborn.
fn count_on(alloc: Global, disk: &mut MemDisk) -> Result<Option<u64>, JournalError> {
    match Journal::look(alloc, disk)? {
        Some(look) => Ok(Some(look.count())),
        None => Ok(None),
    }
}

// The next numbers of the entry of this index on a disk.
fn next_of_entry(
    alloc: Global,
    disk: &mut MemDisk,
    index: u64,
) -> Result<Option<Next>, JournalError> {
    let entry = entry_on(alloc, disk, index)?;
    Ok(entry.as_ref().map(|entry| entry.next))
}

// The first of so many entries, each of an order, that is not the one which gave out the number
// behind it.
fn first_unread(
    alloc: Global,
    disk: &mut MemDisk,
    count: u32,
) -> Result<Option<u32>, JournalError> {
    for index in 0..count {
        let next = index.saturating_add(2);
        if next_of_entry(alloc, disk, u64::from(index))? != Some((next, 1, 1, next)) {
            return Ok(Some(index));
        }
    }
    Ok(None)
}

// The first number, from 0 to one past the last of so many orders, of which the out is not said to
// translate message 2 of type D, where it is an order, or nothing.
fn first_unfound(journal: &Journal, count: u32) -> Option<u32> {
    for number in 0..=count.saturating_add(1) {
        let is_order = 1 <= number && number <= count;
        let order: Option<(u32, u8)> = if is_order { Some((2, b'D')) } else { None };
        if journal.source_of(Side::Venue, number) != order {
            return Some(number);
        }
    }
    None
}

// What the out of a side and number translates.
fn source(journal: &Journal, given: &str) -> Option<(u32, u8)> {
    let number = number(word(given, 1))?;
    journal.source_of(side_of(word(given, 0))?, number)
}

// A call on a journal that was loaded.
fn loaded(alloc: Global, journal: &Journal, call: &str, given: &str) -> Result<String, AllocError> {
    match call {
        "unfound" => told(alloc, &first_unfound(journal, number(given).unwrap_or(0))),
        "source" => told(alloc, &source(journal, given)),
        _ => told(alloc, &journal.next()),
    }
}

// The same on the journal on a disk, or why it is not loaded.
fn load(
    alloc: Global,
    disk: &mut MemDisk,
    names: &Names,
    call: &str,
    given: &str,
) -> Result<String, AllocError> {
    match Journal::load(alloc, disk, names, &mut NoReader) {
        Ok(journal) => loaded(alloc, &journal, call, given),
        Err(error) => told(alloc, &error),
    }
}

// Whether the journal on a disk is refused under another name, with both names.
fn tells_names(alloc: Global, disk: &mut MemDisk, names: &Names) -> Option<bool> {
    let other = Names {
        client_peer: Name::new(b"CLN")?,
        ..*names
    };
    let differ = JournalError::NamesDiffer {
        kept: *names,
        given: other,
    };
    let refusal = Journal::load(alloc, disk, &other, &mut NoReader).err();
    Some(refusal == Some(differ))
}

// The answer to a call on a disk.
fn called(
    alloc: Global,
    disk: &mut MemDisk,
    names: &Names,
    call: &str,
    given: &str,
) -> Result<String, AllocError> {
    let count = number(given).unwrap_or(0);
    match call {
        "journal" => told(alloc, &count_on(alloc, disk)),
        "order" => told(alloc, &live(alloc, disk, names, given.as_bytes())),
        "orders" => told(alloc, &live_on(alloc, disk, names, count)),
        "told" => told(alloc, &all_told(alloc, disk, names)),
        "unread" => told(alloc, &first_unread(alloc, disk, count)),
        "next-of" => told(alloc, &next_of_entry(alloc, disk, u64::from(count))),
        "other-names" => told(alloc, &tells_names(alloc, disk, names)),
        _ => load(alloc, disk, names, call, given),
    }
}

// The same on a disk of these bytes, which orders change.
fn over_disk(
    alloc: Global,
    bytes: &mut Vec<u8>,
    names: &Names,
    call: &str,
    given: &str,
) -> Result<String, AllocError> {
    let fails = if call == "load" { given } else { "-" };
    let mut disk = disk(alloc, bytes, fails)?;
    let text = called(alloc, &mut disk, names, call, given)?;
    *bytes = disk.image(Image::New)?;
    Ok(text)
}

// What a stop in an act leaves on a disk of these bytes: given are the act, and which calls fail.
fn stop(alloc: Global, bytes: &[u8], names: &Names, given: &str) -> Result<String, AllocError> {
    let mut disk = disk(alloc, bytes, word(given, 1))?;
    stopped(alloc, &mut disk, names, word(given, 0))
}

/// The answer to a call over these bytes of a disk, which orders change.
pub(crate) fn answer(
    alloc: Global,
    bytes: &mut Vec<u8>,
    call: &str,
    given: &str,
) -> Result<String, AllocError> {
    let Some(names) = names() else {
        return format!(in alloc; "no names");
    };
    match call {
        "stop" => stop(alloc, bytes, &names, given),
        "refuse" => refused(alloc, bytes, &names, given),
        "draw" => told(alloc, &first_other(alloc, bytes, &names, given)),
        _ => over_disk(alloc, bytes, &names, call, given),
    }
}
