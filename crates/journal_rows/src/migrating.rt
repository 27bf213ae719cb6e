//! What `migrate` makes of journals of format 1.

use crate::images::{Piece, bytes_of};
use journal_migrate::migrate_journal;
use outside::{MemDisk, MemSink};
use std::alloc::{AllocError, Global};

// The answer over the bytes of an old journal, how many were put, and whether they are these.
fn migrated(alloc: Global, disk: &mut MemDisk, new: &[u8]) -> Result<String, AllocError> {
    let mut sink = MemSink::new(alloc, Vec::new(alloc));
    let answer = migrate_journal(alloc, disk, &mut sink);
    let len = sink.bytes().len();
    let is_new = sink.bytes() == new;
    format!(in alloc; "{answer:?} {len} {is_new}")
}

/// The length of the bytes that are given, the answer over them, how many bytes were put, and
/// whether they are those behind ` : `.
pub(crate) fn answer(alloc: Global, pieces: &[Piece], given: &str) -> Result<String, AllocError> {
    let (old, new) = given.split_once(" : ").unwrap_or((given, ""));
    let old = bytes_of(alloc, pieces, old)?;
    let new = bytes_of(alloc, pieces, new)?;
    let len = old.len();
    let mut disk = MemDisk::new(alloc, old, Vec::new(alloc));
    let words = migrated(alloc, &mut disk, &new)?;
    format!(in alloc; "{len} {words}")
}
