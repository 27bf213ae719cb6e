//! The lines of a journal: its entries are read one by one, and the line of each is put.

ghost use Rattle.std.specs.Prelude.{◌≡◌, ◌≢◌, ◌+◌, ◌<◌, ◌^◌, ℕ, List, length, Some, Err, IfSome};
ghost use Rattle.std.specs.Prelude.{OnOk, OnErr};
ghost use Rattle.std.specs.List.{slice_get};
ghost use Rattle.std.specs.Option.{ForSome};
ghost use Rattle.outside.specs.Bytes.{PutAppends};
ghost use Rattle.outside.specs.Causes.{HasCause};
ghost use Rattle.gate_log.specs.Log.{OnlyReads};
ghost use Rattle.pair_entries.specs.declared.entry.Entry.{Entry};
ghost use Rattle.pair_journal.specs.Journal.{JournalOf, Born};
ghost use Rattle.pair_journal.specs.Walks.{IsUpTo};
ghost use Rattle.entry_lines.specs.EntryLine.{entry_line};
ghost use Rattle.journal_show.specs.declared.journal_lines.ShowError.TheVariants as errors;
ghost use Rattle.journal_show.specs.JournalLines.{lines_from, Shows, PutsLines, FailsBy, show_error};

use entry_lines::EntryLine;
use outside::{Disk, Sink};
use pair_journal::{Journal, JournalError, Look, Walk};
use std::alloc::Global;
use thiserror::Error;

/// Why the lines of a journal ended early.
#[derive(Clone, Copy, Debug, Error, PartialEq, Eq)]
pub enum ShowError {
    /// The disk failed, and its count of faults says so too.
    #[error("the disk failed")]
    DiskFault,
    /// The disk holds no journal: it is refused at this place.
    #[error("the disk holds no journal: byte {at}")]
    JournalRefused {
        /// The place of the gate byte at fault, or of the record.
        at: u64,
    },
    /// The sink failed, and its count of faults says so too.
    #[error("the output failed")]
    OutputFault,
    /// Memory was refused.
    #[error("out of memory")]
    NoMemory,
}

impl From<JournalError> for ShowError {
    ghost from_gives = { λ e shown. shown ≡ show_error e };

    fn from(e: JournalError) -> ShowError {
        match e {
            JournalError::DiskFault => ShowError::DiskFault,
            JournalError::Refused { at } => ShowError::JournalRefused { at },
            // No journal that is only read is full or compared by its names.
            JournalError::NamesDiffer { .. } | JournalError::Full | JournalError::NoMemory => {
                ShowError::NoMemory
            }
        }
    }
}

/// Puts a line.
fn put_line<O: Sink>(out: &mut O, line: &[u8]) -> Result<(), ShowError>
    ensures line { PutAppends (O.bytes out.old) (O.bytes out.new) result line.now }
    ensures only { OnErr result (result ≡ Err errors.OutputFault) }
    ensures cause { HasCause (O.faults out.old) (O.faults out.new) result }
{
    match out.put(line) {
        Ok(()) => Ok(()),
        Err(_) => Err(ShowError::OutputFault),
    }
}

/// Puts the line of the entry of this index, which counts from 0. It is made in `line`.
fn put_entry<D: Disk, O: Sink>(
    journal: &Look,
    disk: &mut D,
    out: &mut O,
    walk: &mut Walk,
    index: u64,
    line: &mut EntryLine,
) -> Result<(), ShowError>
    requires index { index < length journal.now.entries }
    requires few { length journal.now.entries < 2 ^ 64 }
    requires stands { ForSome (D.bytes disk.old) (λ b.
        JournalOf b (Born journal.now.names journal.now.entries)) }
    requires walk { IsUpTo (D.bytes disk.old) journal.now.entries index walk.old }
    ensures line { (entry : Entry)
        × PutAppends (O.bytes out.old) (O.bytes out.new) result (entry_line (1 + index) entry)
        × ForSome (D.bytes disk.old) (λ b. slice_get journal.now.entries index ≡ Some entry) }
    ensures walk { OnOk result
        (IsUpTo (D.bytes disk.new) journal.now.entries (index + 1) walk.new) }
    ensures reads { ForSome (D.bytes disk.old) (λ b. (at : ℕ) →
        result ≢ Err (errors.JournalRefused at)) }
    ensures only_read { OnlyReads D.bytes D.image disk.old disk.new }
    ensures disk_cause { FailsBy errors.DiskFault (D.faults disk.old) (D.faults disk.new) result }
    ensures output_cause { FailsBy errors.OutputFault (O.faults out.old) (O.faults out.new) result }
{
    let entry = journal.entry(disk, walk, index)?;
    line.write(1 + index, &entry);
    put_line(out, line.as_slice())
}

/// Puts the line of each entry of a journal, in order.
fn put_entries<D: Disk, O: Sink>(journal: &Look, disk: &mut D, out: &mut O) -> Result<(), ShowError>
    requires stands { ForSome (D.bytes disk.old) (λ b.
        JournalOf b (Born journal.now.names journal.now.entries)) }
    ensures lines { (read : List Entry)
        × PutAppends (O.bytes out.old) (O.bytes out.new) result (lines_from 1 read)
        × ForSome (D.bytes disk.old) (λ b. read ≡ journal.now.entries) }
    ensures reads { ForSome (D.bytes disk.old) (λ b. (at : ℕ) →
        result ≢ Err (errors.JournalRefused at)) }
    ensures only_read { OnlyReads D.bytes D.image disk.old disk.new }
    ensures disk_cause { FailsBy errors.DiskFault (D.faults disk.old) (D.faults disk.new) result }
    ensures output_cause { FailsBy errors.OutputFault (O.faults out.old) (O.faults out.new) result }
{
    let mut line = EntryLine::new();
    let mut walk = journal.walk()?;
    for index in 0..journal.count() {
        put_entry(journal, disk, out, &mut walk, index, &mut line)?;
    }
    Ok(())
}

/// Puts the line of each entry of the journal on a disk, numbered from 1, or the line `unborn`
/// where the disk is unborn. Each line is one put, and the disk is only read.
///
/// # Errors
/// `JournalRefused` exactly where the bytes are refused at that place, where the disk tells them,
/// and then nothing was put; `DiskFault` and `OutputFault` only where the count of faults of the
/// disk or of the sink rose in this call; `NoMemory`. What was put is then nothing or a front of
/// the lines. Of a disk that tells nothing, as a file, they are those of the entries that were read.
pub fn show<D: Disk, O: Sink>(alloc: Global, disk: &mut D, out: &mut O) -> Result<(), ShowError>
    ensures shows { IfSome (D.bytes disk.old) (λ b.
        Shows b result (O.bytes out.old) (O.bytes out.new)) }
    ensures puts { PutsLines result (O.bytes out.old) (O.bytes out.new) }
    ensures refused_puts_nothing { ForSome (D.bytes disk.old) (λ b. (at : ℕ) →
        result ≡ Err (errors.JournalRefused at) → out.new ≡ out.old) }
    ensures only_read { OnlyReads D.bytes D.image disk.old disk.new }
    ensures disk_cause { FailsBy errors.DiskFault (D.faults disk.old) (D.faults disk.new) result }
    ensures output_cause { FailsBy errors.OutputFault (O.faults out.old) (O.faults out.new) result }
{
    match Journal::look(alloc, disk) {
        Ok(None) => put_line(out, b"unborn\n"),
        Ok(Some(journal)) => put_entries(&journal, disk, out),
        Err(e) => Err(ShowError::from(e)),
    }
}
