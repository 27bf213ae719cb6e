//! The outs to the venue of a journal, read from its disk one after the other.

ghost use Rattle.std.specs.Prelude.{Some};
ghost use Rattle.std.specs.Option.{ForSome};
ghost use Rattle.pair_journal.specs.Journal.{JournalOf, Born};

use order_meaning::{Names, Side};
use outside::{Disk, MemDisk};
use pair_journal::{Journal, JournalError, NoReader, OutBuf};
use std::alloc::Global;

// Whether an out is told as the order that has its number as its content.
fn is_told(buf: &OutBuf, number: u32) -> bool {
    let marks = buf.admin() || buf.resend();
    let content = buf.content() == number.to_be_bytes().as_slice();
    content && buf.msg_type() == b"D".as_slice() && buf.at() == 258 && !marks
}

// The first out that is not told so.
fn first_untold<D: Disk>(
    disk: &mut D,
    journal: &Journal,
    buf: &mut OutBuf,
) -> Result<Option<u32>, JournalError>
    requires stands { ForSome (D.bytes disk.old) (λ b.
        JournalOf b (Born journal.now.names journal.now.entries)) }
{
    buf.restart();
    for number in 1..journal.next().3 {
        journal.out(disk, Side::Venue, number, buf)?;
        if !is_told(buf, number) {
            return Ok(Some(number));
        }
    }
    Ok(None)
}

/// The first out that is not told as it was given, the next number, and how often the disk is read.
type Told = (Option<u32>, u32, usize);

fn told_on(alloc: Global, disk: &mut MemDisk, journal: &Journal) -> Result<Told, JournalError>
    requires stands { ForSome (Some disk.old.bytes) (λ b.
        JournalOf b (Born journal.now.names journal.now.entries)) }
{
    let before = disk.calls().len();
    let mut buf = OutBuf::new(alloc)?;
    let untold = first_untold(disk, journal, &mut buf)?;
    let reads = disk.calls().len().saturating_sub(before);
    Ok((untold, journal.next().3, reads))
}

/// What the outs of orders with their numbers as their contents tell.
pub(crate) fn all_told(
    alloc: Global,
    disk: &mut MemDisk,
    names: &Names,
) -> Result<Told, JournalError> {
    let journal = Journal::load(alloc, disk, names, &mut NoReader)?;
    told_on(alloc, disk, &journal)
}
