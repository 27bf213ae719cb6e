//! Payloads of a journal, by the layout alone, and whether they are written as they were read.

ghost use Rattle.pair_entries.specs.Payload.{IsEntry};

use crate::entries::entry_on;
use crate::images::{Piece, bytes_of};
use crate::texts::told;
use outside::MemDisk;
use pair_entries::{Entry, prepare};
use pair_journal::JournalError;
use row_words::{behind, number, word};
use std::alloc::{AllocError, Global};

// Whether an entry is written as this payload, on this day.
fn is_written(alloc: Global, entry: Entry, payload: &[u8], day: u32) -> Result<bool, JournalError>
    requires { IsEntry entry }
{
    Ok(prepare(alloc, entry)?.dated(day).payload() == payload)
}

// Whether the first entry on a disk is.
fn is_kept(
    alloc: Global,
    disk: &mut MemDisk,
    payload: &[u8],
    day: u32,
) -> Result<bool, JournalError> {
    match entry_on(alloc, disk, 0)? {
        Some(entry) => is_written(alloc, entry, payload, day),
        None => Ok(false),
    }
}

// Puts a byte into a payload, where both words are numbers.
fn change(payload: &mut [u8], place: &str, byte: &str) {
    if let (Some(place), Ok(byte)) = (number(place), byte.parse::<u8>()) {
        if let Some(old) = payload.get_mut(place as usize) {
            *old = byte;
        }
    }
}

// The bytes of a journal with one record of this payload.
fn image_of(alloc: Global, pieces: &[Piece], payload: &[u8]) -> Result<Vec<u8>, AllocError> {
    let len = u32::try_from(payload.len()).unwrap_or(0);
    let mut bytes = bytes_of(alloc, pieces, "names 1")?;
    bytes.extend_from_slice(&len.to_be_bytes())?;
    bytes.extend_from_slice(payload)?;
    bytes.push(0)?;
    Ok(bytes)
}

/// Whether the entry of a record of a payload is written as that again, or where it is refused:
/// given are the day, the place of a byte that is changed and what it becomes, and the payload.
pub(crate) fn answer(alloc: Global, pieces: &[Piece], given: &str) -> Result<String, AllocError> {
    let day = number(word(given, 0)).unwrap_or(0);
    let mut payload = bytes_of(alloc, pieces, behind(given, 3))?;
    change(&mut payload, word(given, 1), word(given, 2));
    let image = image_of(alloc, pieces, &payload)?;
    let mut disk = MemDisk::new(alloc, image, Vec::new(alloc));
    told(alloc, &is_kept(alloc, &mut disk, &payload, day))
}
