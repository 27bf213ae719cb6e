//! What a stop in the commit of an order, or of the entry with which a day begins, leaves.

use crate::disks::disk;
use crate::entries::Next;
use crate::orders::{begin_day, live};
use crate::texts::tell;
use crate::torn::{draw, torn};
use order_meaning::{Names, Side};
use outside::{Image, MemDisk};
use pair_journal::{Journal, JournalError, NoReader};
use row_words::{long_number, number, word};
use std::alloc::{AllocError, Global};

/// What a journal is by its last day: how many entries it has, its next numbers, when the day
/// began, and what the first out to the venue translates.
pub(crate) type Day = (u64, Next, Option<u64>, Option<(u32, u8)>);

// The last day of the journal on a disk, which was born.
fn born_day(alloc: Global, disk: &mut MemDisk, names: &Names) -> Result<Day, JournalError> {
    let journal = Journal::load(alloc, disk, names, &mut NoReader)?;
    let source = journal.source_of(Side::Venue, 1);
    Ok((journal.count(), journal.next(), journal.day_at(), source))
}

/// The last day of the journal on a disk; none where it is unborn.
pub(crate) fn day_on(
    alloc: Global,
    disk: &mut MemDisk,
    names: &Names,
) -> Result<Option<Day>, JournalError> {
    if Journal::look(alloc, disk)?.is_none() {
        return Ok(None);
    }
    Ok(Some(born_day(alloc, disk, names)?))
}

// The last day of the journal of these bytes.
fn day_in(alloc: Global, bytes: Vec<u8>, names: &Names) -> Result<Option<Day>, JournalError> {
    let mut disk = MemDisk::new(alloc, bytes, Vec::new(alloc));
    day_on(alloc, &mut disk, names)
}

// Appends the last day of each image of a disk.
fn tell_left(
    alloc: Global,
    text: &mut String,
    disk: &MemDisk,
    names: &Names,
) -> Result<(), AllocError> {
    for pick in [Image::Old, Image::New, Image::Torn] {
        text.push(' ')?;
        tell(text, &day_in(alloc, disk.image(pick)?, names))?;
    }
    Ok(())
}

// Whether an order is committed to the journal on a disk, or a day begins there.
fn acts(alloc: Global, disk: &mut MemDisk, names: &Names, act: &str, content: &[u8]) -> bool {
    match act {
        "order" => live(alloc, disk, names, content).is_ok(),
        _ => begin_day(alloc, disk, names).is_ok(),
    }
}

/// The same, and the last days of the disk's images then.
pub(crate) fn stopped(
    alloc: Global,
    disk: &mut MemDisk,
    names: &Names,
    act: &str,
) -> Result<String, AllocError> {
    let acts = acts(alloc, disk, names, act, b"11=A");
    let mut text = format!(in alloc; "{acts}")?;
    tell_left(alloc, &mut text, disk, names)?;
    Ok(text)
}

// How many calls of a disk of these bytes it takes.
fn count_calls(alloc: Global, bytes: &[u8], names: &Names, act: &str) -> Result<u64, AllocError> {
    let mut disk = disk(alloc, bytes, "-")?;
    acts(alloc, &mut disk, names, act, b"11=A");
    Ok(disk.calls().len() as u64)
}

/// What is left where one call is refused: given are the act, and the call, of which the last is
/// number 1.
pub(crate) fn refused(
    alloc: Global,
    bytes: &[u8],
    names: &Names,
    given: &str,
) -> Result<String, AllocError> {
    let act = word(given, 0);
    let calls = count_calls(alloc, bytes, names, act)?;
    let back = long_number(word(given, 1)).unwrap_or(0);
    let fail = vec![in alloc; calls.saturating_add(1).saturating_sub(back)]?;
    let mut disk = MemDisk::new(alloc, Vec::from_slice(alloc, bytes)?, fail);
    stopped(alloc, &mut disk, names, act)
}

// The bytes that a stop leaves on a disk, where those that are pending are drawn.
fn left_on(
    alloc: Global,
    disk: &mut MemDisk,
    names: &Names,
    act: &str,
    seed: &mut u32,
) -> Result<Vec<u8>, AllocError> {
    let content = vec![in alloc; b'x'; usize::from(draw(seed))]?;
    if acts(alloc, disk, names, act, &content) {
        return disk.image(Image::New);
    }
    torn(disk, seed)
}

// The last day that a stop after so many writes and syncs leaves on a disk of these bytes.
fn drawn(
    alloc: Global,
    bytes: &[u8],
    names: &Names,
    (act, passes): (&str, u8),
    seed: &mut u32,
) -> Result<Option<Day>, JournalError> {
    let mut disk = MemDisk::fuse(alloc, Vec::from_slice(alloc, bytes)?, u64::from(passes));
    let left = left_on(alloc, &mut disk, names, act, seed)?;
    day_in(alloc, left, names)
}

// Whether a stop after so many writes and syncs may leave this day, by those before and after the
// act: six of them make the birth record, where there is none, and four the entry.
fn may_leave(before: Option<Day>, after: Option<Day>, passes: u8, day: Option<Day>) -> bool {
    let born: Option<Day> = Some((0, (1, 1, 1, 1), None, None));
    match (before, passes) {
        (None, 0..=5) => day.is_none() || day == born,
        (None, 6..=9) => day == born || day == after,
        (Some(_), 0..=3) => day == before || day == after,
        _ => day == after,
    }
}

/// The first round in which a stop leaves another day than it may on a disk of these bytes: given
/// are the act, and how many rounds there are.
pub(crate) fn first_other(
    alloc: Global,
    bytes: &[u8],
    names: &Names,
    given: &str,
) -> Result<Option<u32>, JournalError> {
    let act = word(given, 0);
    let rounds = number(word(given, 1)).unwrap_or(0);
    let mut seed = 1;
    let before = day_in(alloc, Vec::from_slice(alloc, bytes)?, names)?;
    let after = drawn(alloc, bytes, names, (act, 10), &mut seed)?;
    for round in 0..rounds {
        let passes = draw(&mut seed) % 11;
        let day = drawn(alloc, bytes, names, (act, passes), &mut seed)?;
        if !may_leave(before, after, passes, day) {
            return Ok(Some(round));
        }
    }
    Ok(None)
}
