//! What the last life left.

ghost use Rattle.std.specs.Prelude.{◌≡◌, List, length, IfOk};
ghost use Rattle.order_meaning.specs.declared.names.Names.{Names};
ghost use Rattle.pair_entries.specs.declared.entry.Entry.{Entry};
ghost use Rattle.gateway_life.specs.Life.{IsJournal};
ghost use Rattle.capture_replay.specs.Replay.{numbers_left};

use crate::stops::disk_of;
use pair_journal::laws::an_image_has_one_reading;
use pair_journal::{Journal, JournalError};
use std::alloc::{AllocError, Global};

/// How many entries the journal of these bytes has, and the next numbers of its last day. An unborn
/// disk has none.
///
/// # Errors
/// `AllocError` where memory was refused, also to the disk.
pub(crate) fn left_by(
    alloc: Global,
    image: Vec<u8>,
) -> Result<(u64, (u32, u32, u32, u32)), AllocError>
    requires { (names : Names) × (entries : List Entry) × IsJournal names entries image.items }
    ensures { IfOk result (λ left. (names : Names) (entries : List Entry)
        → IsJournal names entries image.items
        → (left.0 ≡ length entries) × (left.1 ≡ numbers_left entries)) }
{
    an_image_has_one_reading();
    let mut disk = disk_of(alloc, None, image);
    match Journal::look(alloc, &mut disk) {
        Ok(Some(journal)) => Ok((journal.count(), journal.next())),
        Ok(None) => Ok((0, (1, 1, 1, 1))),
        Err(JournalError::DiskFault | JournalError::NoMemory) => Err(AllocError),
        // They are the bytes of a journal, or of none yet.
        Err(JournalError::Refused { .. }) => unreachable!(),
        Err(JournalError::NamesDiffer { .. }) => unreachable!(),
        Err(JournalError::Full) => unreachable!(),
    }
}
