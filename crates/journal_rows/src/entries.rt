//! Entries, by the layout of a payload behind its day, and entries that stand on a disk.

ghost use Rattle.std.specs.Prelude.{◌<◌, IfOk, IfSome};
ghost use Rattle.pair_entries.specs.Payload.{IsEntry};

use outside::MemDisk;
use pair_entries::{Entry, entry_ref};
use pair_journal::{Journal, JournalError};
use std::alloc::{AllocError, Global};

/// The next numbers: client in, client out, venue in, venue out.
pub(crate) type Next = (u32, u32, u32, u32);

/// The entry of these bytes; none where they spell none.
pub(crate) fn entry_of(alloc: Global, bytes: &[u8]) -> Result<Option<Entry>, AllocError>
    ensures { IfOk result (λ entry. IfSome entry IsEntry) }
{
    match entry_ref(bytes) {
        Some(entry) => Ok(Some(entry.to_entry(alloc)?)),
        None => Ok(None),
    }
}

/// The entry of this index on a disk; none past the last.
pub(crate) fn entry_on(
    alloc: Global,
    disk: &mut MemDisk,
    index: u64,
) -> Result<Option<Entry>, JournalError>
    ensures { IfOk result (λ entry. IfSome entry IsEntry) }
{
    let Some(look) = Journal::look(alloc, disk)? else {
        return Ok(None);
    };
    if look.count() <= index {
        return Ok(None);
    }
    let mut walk = look.walk()?;
    let entry = look.entry(disk, &mut walk, index)?;
    Ok(Some(entry))
}
