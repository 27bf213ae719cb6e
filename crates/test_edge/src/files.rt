//! The journal's file, and the stop file with the clock.

use crate::lines::Printed;
use crate::peers::free_pair;
use edge_logic::Shared;
use edge_system::{Edge, JournalFile, StopFile};
use outside::{Disk, Failed};
use std::alloc::{AllocError, Global};
use std::fs::File;
use std::os::unix::fs::MetadataExt;
use std::rt::Files;
use std::test::Fail;
use std::{env, fs, io, process};
use wires::Clock;

/// A file of this process's own, beside those of other runs.
fn own_path(rt: &HostRuntime, end: &str) -> io::Result<String> {
    let id = process::id(rt.process());
    Ok(format!(in rt.alloc(); "{}/edge-{id}{end}", env::temp_dir(rt)?.as_str())?)
}

/// Whether a new journal is empty, and takes six bytes, of which the first may begin one.
fn takes<R: Files<File = File>>(disk: &mut JournalFile<'_, R>) -> bool {
    disk.len() == Ok(0) && disk.write_at(0, b"\x01bcdef") == Ok(()) && disk.sync() == Ok(())
}

/// Whether a disk has these bytes from a place on, and no more.
fn reads<D: Disk>(disk: &mut D, at: u64, bytes: &[u8]) -> bool {
    let mut buf = [0u8; 8];
    match disk.read_at(at, &mut buf) {
        Ok(count) => buf.get(..count) == Some(bytes),
        Err(_) => false,
    }
}

/// Whether the owner alone may read and write a file.
fn is_private(rt: &HostRuntime, path: &str) -> io::Result<bool> {
    Ok(fs::metadata(rt, path)?.mode() & 0o777 == 0o600)
}

/// Whether a new journal at this path takes six bytes, and its file is the owner's alone.
fn is_made(rt: &HostRuntime, path: &str) -> io::Result<bool> {
    let mut disk = JournalFile::new(rt, path);
    Ok(takes(&mut disk) && is_private(rt, path)?)
}

#[test]
fn a_journal_is_made_for_its_owner_alone(rt: HostRuntime) -> Result<(), Fail> {
    let path = own_path(&rt, ".made")?;
    assert!(rt; is_made(&rt, path.as_str())?);
    fs::remove_file(&rt, path.as_str())?;
    Ok(())
}

/// Whether a journal was refused since its file is in use.
fn was_in_use<R: Files<File = File>>(
    alloc: Global,
    disk: &JournalFile<'_, R>,
    path: &str,
) -> Result<bool, AllocError> {
    let line = format!(in alloc; "fixgate: journal {path} is in use")?;
    match disk.refusal(alloc)? {
        Some(refusal) => Ok(refusal == line),
        None => Ok(false),
    }
}

/// Whether a second journal at this path is refused while a first one has six bytes there.
fn is_locked(
    rt: &HostRuntime,
    path: &str,
    second: &mut JournalFile<'_, HostRuntime>,
) -> Result<bool, AllocError> {
    let mut first = JournalFile::new(rt, path);
    Ok(takes(&mut first) && second.len() == Err(Failed) && was_in_use(rt.alloc(), second, path)?)
}

/// Whether a journal has the six bytes, and is refused no longer.
fn is_kept<R: Files<File = File>>(
    alloc: Global,
    disk: &mut JournalFile<'_, R>,
) -> Result<bool, AllocError> {
    Ok(disk.len() == Ok(6) && reads(disk, 3, b"def") && disk.refusal(alloc)?.is_none())
}

/// Whether a second journal at this path is refused so, and keeps the six bytes then.
fn is_locked_and_kept(rt: &HostRuntime, path: &str) -> Result<bool, AllocError> {
    let mut second = JournalFile::new(rt, path);
    Ok(is_locked(rt, path, &mut second)? && is_kept(rt.alloc(), &mut second)?)
}

#[test]
fn a_journal_is_locked_and_kept(rt: HostRuntime) -> Result<(), Fail> {
    let path = own_path(&rt, ".kept")?;
    assert!(rt; is_locked_and_kept(&rt, path.as_str())?);
    fs::remove_file(&rt, path.as_str())?;
    Ok(())
}

/// Whether a journal that is only read has the six bytes of one that another has locked, and takes
/// no byte.
fn is_only_read(rt: &HostRuntime, path: &str) -> bool {
    let mut first = JournalFile::new(rt, path);
    let mut second = JournalFile::to_read(rt, path);
    takes(&mut first)
        && second.len() == Ok(6)
        && reads(&mut second, 3, b"def")
        && second.write_at(0, b"0") == Err(Failed)
}

#[test]
fn a_locked_journal_is_read(rt: HostRuntime) -> Result<(), Fail> {
    let path = own_path(&rt, ".read")?;
    assert!(rt; is_only_read(&rt, path.as_str()));
    fs::remove_file(&rt, path.as_str())?;
    Ok(())
}

/// Whether a clock whose stop file lies there gives a moment after 2023, tells the stop, and stands
/// still.
fn stands_still<K: Clock>(clock: &mut K, lines: &Printed) -> bool {
    let moment = clock.now();
    moment > 1_700_000_000_000
        && lines.have(b" the stop file asks for an end\n")
        && clock.now() == moment
}

/// Whether the clock of an edge stands still by a stop file that lies there.
fn stops(rt: &HostRuntime, stop: StopFile<'_>) -> io::Result<bool> {
    let shared = Shared::new();
    let lines = Printed::new(rt);
    let mut edge = Edge::new(rt, &shared, free_pair(rt)?, stop, &lines)?;
    Ok(stands_still(&mut edge.clock, &lines))
}

#[test]
fn a_stop_file_stands_the_clock_still(rt: HostRuntime) -> Result<(), Fail> {
    let path = own_path(&rt, ".stop")?;
    fs::write(&rt, path.as_str(), b"")?;
    let stop = StopFile::new(path.as_str());
    assert!(rt; stops(&rt, stop)?);
    assert!(rt; stop.refusal(&rt).is_some());
    stop.remove(&rt)?;
    assert!(rt; stop.refusal(&rt).is_none());
    Ok(())
}
