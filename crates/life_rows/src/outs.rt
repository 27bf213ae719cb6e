//! What the journal of a life gives out, read from its disk.

ghost use Rattle.std.specs.Prelude.{◌≡◌};
ghost use Rattle.std.specs.Option.{ForSome};
ghost use Rattle.kept_entries.specs.Days.{last_day};
ghost use Rattle.pair_journal.specs.Journal.{JournalOf, Born};
ghost use Rattle.kept_entries.specs.Numbers.{first_numbers, numbers_after, next_out};

use order_meaning::{Name, Names, Side};
use outside::{Disk, MemDisk};
use pair_journal::{Journal, JournalError, NoReader, OutBuf};
use row_words::show;
use std::alloc::{AllocError, Global};

/// The names of each life.
fn names() -> Option<Names> {
    Some(Names {
        client_our: Name::new(b"GATE")?,
        client_peer: Name::new(b"CLNT")?,
        venue_our: Name::new(b"GATE")?,
        venue_peer: Name::new(b"VENU")?,
    })
}

// The next number that is given out to a side.
fn next_out(journal: &Journal, side: Side) -> u32
    ensures { result ≡ next_out side (numbers_after first_numbers (last_day journal.now.entries)) }
{
    match side {
        Side::Client => journal.next().1,
        Side::Venue => journal.next().3,
    }
}

// Appends ` ~ `, the type of an out, `:` and its content.
fn show_out(text: &mut String, out: &OutBuf) -> Result<(), AllocError> {
    text.push_str(" ~ ")?;
    show(text, out.msg_type())?;
    text.push_str(":")?;
    show(text, out.content())
}

// The same of each out to a side, read one after the other.
fn show_outs<D: Disk>(
    disk: &mut D,
    journal: &Journal,
    side: Side,
    out: &mut OutBuf,
    text: &mut String,
) -> Result<(), JournalError>
    requires stands { ForSome (D.bytes disk.old) (λ b.
        JournalOf b (Born journal.now.names journal.now.entries)) }
{
    out.restart();
    for number in 1..next_out(journal, side) {
        journal.out(disk, side, number, out)?;
        show_out(text, out)?;
    }
    Ok(())
}

// The same of the journal on a disk.
fn outs_on(
    alloc: Global,
    disk: &mut MemDisk,
    names: &Names,
    side: Side,
) -> Result<String, JournalError> {
    let mut text = String::new(alloc);
    let mut out = OutBuf::new(alloc)?;
    let journal = Journal::load(alloc, disk, names, &mut NoReader)?;
    show_outs(disk, &journal, side, &mut out, &mut text)?;
    Ok(text)
}

/// What the journal on a disk gives out to a side in its last day: ` ~ `, type, `:` and content
/// each.
pub(crate) fn outs(alloc: Global, disk: &mut MemDisk, word: &str) -> Result<String, AllocError> {
    let side = if word == "client" {
        Side::Client
    } else {
        Side::Venue
    };
    let Some(names) = names() else {
        return format!(in alloc; "no names");
    };
    match outs_on(alloc, disk, &names, side) {
        Ok(text) => format!(in alloc; "Done{text}"),
        Err(error) => format!(in alloc; "{error:?}"),
    }
}
