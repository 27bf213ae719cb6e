//! A journal is read twice: to see that each record goes on, and to put each one.

ghost use Rattle.std.specs.Prelude.{◌≡◌, ◌+◌, ◌-◌, ◌*◌, ◌<◌, ◌≤◌, Err, None, OnErr, IfSome};
ghost use Rattle.std.specs.Prelude.{MatchBool};
ghost use Rattle.std.specs.Option.{ForSome};
ghost use Rattle.outside.specs.Bytes.{PutAppends};
ghost use Rattle.outside.specs.Causes.{HasCause};
ghost use Rattle.gate_log.specs.Log.{OnlyReads, StandsOver};
ghost use Rattle.journal_migrate.specs.declared.migrating.MigrateError.TheVariants as errors;
ghost use Rattle.journal_migrate.specs.Migrating.{Migrates, PutsImage, FailsBy};
ghost use Rattle.journal_migrate.specs.Walk.{Walks, migrate_error};

use crate::walk::Walk;
use gate_log::{Log, LogError};
use outside::{Disk, Failed, MAX_DISK, Sink};
use std::alloc::{AllocError, Global};
use thiserror::Error;

/// Why a journal was not migrated.
#[derive(Clone, Copy, Debug, Error, PartialEq, Eq)]
pub enum MigrateError {
    /// The disk failed, and its count of faults says so too.
    #[error("the disk failed")]
    DiskFault,
    /// The sink failed, and its count of faults says so too.
    #[error("the output failed")]
    OutputFault,
    /// The disk holds no journal of format 1: it is refused at this place.
    #[error("the disk holds no journal of format 1: byte {at}")]
    Refused {
        /// The place of the gate byte at fault, or of the record.
        at: u64,
    },
    /// The journal would be longer than a disk.
    #[error("the journal has no room")]
    Full,
    /// Memory was refused.
    #[error("out of memory")]
    NoMemory,
}

impl From<AllocError> for MigrateError {
    ghost from_gives = { λ _ e. e ≡ errors.NoMemory };

    fn from(_e: AllocError) -> MigrateError {
        MigrateError::NoMemory
    }
}

impl From<LogError> for MigrateError {
    ghost from_gives = { λ log e. e ≡ migrate_error log };

    fn from(e: LogError) -> MigrateError {
        match e {
            LogError::DiskFault => MigrateError::DiskFault,
            LogError::Foreign { at } => MigrateError::Refused { at },
            LogError::Full | LogError::NoMemory => MigrateError::NoMemory,
        }
    }
}

/// A sink of which nothing is known and that never fails.
#[derive(Drop)]
struct Nowhere;

impl Sink for Nowhere {
    ghost bytes = { λ _. None };

    ghost faults = { λ _. 0 };

    fn put(&mut self, _piece: &[u8]) -> Result<(), Failed> {
        Ok(())
    }
}

/// Puts bytes.
fn put<O: Sink>(out: &mut O, bytes: &[u8]) -> Result<(), MigrateError>
    ensures bytes { PutAppends (O.bytes out.old) (O.bytes out.new) result bytes.now }
    ensures only { OnErr result (result ≡ Err errors.OutputFault) }
    ensures cause { HasCause (O.faults out.old) (O.faults out.new) result }
{
    match out.put(bytes) {
        Ok(()) => Ok(()),
        Err(_) => Err(MigrateError::OutputFault),
    }
}

/// Reads each record of a log and puts it in format 2, as long as each is of format 1, and then a
/// closed gate.
fn put_all<D: Disk, O: Sink>(
    alloc: Global,
    log: &Log,
    disk: &mut D,
    out: &mut O,
) -> Result<(), MigrateError>
    requires stands { ForSome (D.bytes disk.old) (StandsOver log.now) }
    ensures walks { IfSome (D.bytes disk.old) (λ b.
        Walks b result (O.bytes out.old) (O.bytes out.new)) }
    ensures puts { PutsImage result (O.bytes out.old) (O.bytes out.new) }
    ensures only_read { OnlyReads D.bytes D.image disk.old disk.new }
    ensures disk_cause { FailsBy errors.DiskFault (D.faults disk.old) (D.faults disk.new) result }
    ensures output_cause { FailsBy errors.OutputFault (O.faults out.old) (O.faults out.new) result }
{
    let records = log.count();
    let mut walk = Walk::new(alloc)?;
    walk.read_birth(disk)?;
    put(out, walk.renewed())?;
    for index in 1..records {
        walk.read_entry(log, disk)?;
        put(out, walk.renewed())?;
    }
    put(out, &[0])
}

/// Whether the image of the journal of a log of format 1 is longer than a disk in format 2, where
/// each record but the first has four bytes more.
fn is_too_long(log: &Log) -> bool
    ensures { MatchBool result (MAX_DISK ≤ log.now.end + 4 * (log.now.count - 1))
        (log.now.end + 4 * (log.now.count - 1) < MAX_DISK) }
{
    let more = (log.count() - 1).saturating_mul(4);
    log.end().saturating_add(more) >= MAX_DISK
}

/// Puts the journal of format 1 on a disk as the image of the same journal in format 2, and nothing
/// of an unborn disk. The disk is only read.
///
/// # Errors
/// `Refused` exactly where the bytes are refused as a journal of format 1, at that place, and
/// `Full` exactly where the image would be longer than 1,073,741,824 bytes; then nothing was put.
/// `DiskFault` and `OutputFault` only where the count of faults of the disk or of the sink rose in
/// this call; `NoMemory`. What was put is then nothing or a front of the image. Of a disk that
/// tells nothing, as a file, the image is that of what was read.
pub fn migrate_journal<D: Disk, O: Sink>(
    alloc: Global,
    disk: &mut D,
    out: &mut O,
) -> Result<(), MigrateError>
    ensures migrates { IfSome (D.bytes disk.old) (λ b.
        Migrates b result (O.bytes out.old) (O.bytes out.new)) }
    ensures puts { PutsImage result (O.bytes out.old) (O.bytes out.new) }
    ensures only_read { OnlyReads D.bytes D.image disk.old disk.new }
    ensures disk_cause { FailsBy errors.DiskFault (D.faults disk.old) (D.faults disk.new) result }
    ensures output_cause { FailsBy errors.OutputFault (O.faults out.old) (O.faults out.new) result }
{
    let Some(log) = Log::look(alloc, disk)? else {
        return Ok(());
    };
    put_all(alloc, &log, disk, &mut Nowhere)?;
    if is_too_long(&log) {
        return Err(MigrateError::Full);
    }
    put_all(alloc, &log, disk, out)
}
