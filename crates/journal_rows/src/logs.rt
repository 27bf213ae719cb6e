//! Logs, by the layout alone: gate, length of four bytes (the highest first), payload.

ghost use Rattle.gate_log.specs.Records.{IsSized};

use crate::disks::disk;
use crate::images::{Piece, bytes_of};
use crate::texts::{tell, told};
use gate_log::*;
use outside::{Disk, DiskCall, Image, MemDisk};
use std::alloc::{AllocError, Global};

// How many payloads the log on a disk has; none where it is unborn.
fn count_on(alloc: Global, disk: &mut MemDisk) -> Result<Option<u64>, LogError> {
    match Log::look(alloc, disk)? {
        Some(log) => Ok(Some(log.count())),
        None => Ok(None),
    }
}

const BIRTH: [u8; BIRTH_LEN] = [7; BIRTH_LEN];

// Makes a log of a birth record and one more, as far as the disk lets it: how long that is, where
// it is read again.
fn live(alloc: Global, disk: &mut MemDisk) -> Result<u64, LogError> {
    let mut log = Log::load(alloc, disk, &BIRTH)?;
    log.reserve()?;
    let place = log.append(disk, b"abc")?;
    let mut out = Vec::new(alloc);
    log.read(disk, place, &mut out)?;
    Ok(out.len() as u64)
}

// How many records an image of a disk has.
fn count_left(alloc: Global, disk: &MemDisk, pick: Image) -> Result<Option<u64>, LogError> {
    let mut next = MemDisk::new(alloc, disk.image(pick)?, Vec::new(alloc));
    count_on(alloc, &mut next)
}

// What a life on a disk answers, and what each image has then.
fn lived(alloc: Global, disk: &mut MemDisk) -> Result<String, AllocError> {
    let lived = live(alloc, disk);
    let mut text = told(alloc, &lived)?;
    for pick in [Image::Old, Image::New, Image::Torn] {
        text.push(' ')?;
        tell(&mut text, &count_left(alloc, disk, pick))?;
    }
    Ok(text)
}

// The last five calls of a life on a disk.
fn last_calls(alloc: Global, disk: &mut MemDisk) -> Result<String, AllocError> {
    let lived = live(alloc, disk);
    let behind = disk.calls().len().saturating_sub(5);
    let last = disk.calls().get(behind..);
    format!(in alloc; "{lived:?} {last:?}")
}

// The lengths of the payloads of a birth record and of the record behind it, if their bytes are 7
// and 9.
fn two_found(alloc: Global, disk: &mut MemDisk) -> Result<Option<(usize, usize)>, LogError> {
    let mut chunk = Chunk::new(alloc)?;
    chunk.read(disk, 0)?;
    let first = chunk.payload().len();
    let sevens = chunk.payload().iter().all(|byte| *byte == 7);
    chunk.read(disk, 160)?;
    let nines = chunk.payload().iter().all(|byte| *byte == 9);
    if !sevens || !nines {
        return Ok(None);
    }
    Ok(Some((first, chunk.payload().len())))
}

// The same, and what is read of the disk for it.
fn chunks(alloc: Global, disk: &mut MemDisk) -> Result<String, AllocError> {
    let found = two_found(alloc, disk);
    let calls = disk.calls();
    format!(in alloc; "{found:?} {calls:?}")
}

/// The answer to a call over a log: given are its bytes, or which calls of an empty disk fail.
pub(crate) fn answer(
    alloc: Global,
    pieces: &[Piece],
    call: &str,
    given: &str,
) -> Result<String, AllocError> {
    let mut disk = match call {
        "log-life" => disk(alloc, b"", given)?,
        _ => disk(alloc, &bytes_of(alloc, pieces, given)?, "-")?,
    };
    match call {
        "log" => told(alloc, &count_on(alloc, &mut disk)),
        "log-life" => lived(alloc, &mut disk),
        "log-calls" => last_calls(alloc, &mut disk),
        _ => chunks(alloc, &mut disk),
    }
}

// Why the log on a disk refuses a payload, if it does.
fn refusal(alloc: Global, disk: &mut MemDisk, payload: &[u8]) -> Result<Option<LogError>, LogError>
    requires { IsSized payload.now }
{
    let mut log = Log::load(alloc, disk, &BIRTH)?;
    log.reserve()?;
    Ok(log.append(disk, payload).err())
}

// The same as words, whether it wrote anything, and how long the disk is behind that.
fn appended(alloc: Global, disk: &mut MemDisk, payload: &[u8]) -> Result<String, AllocError>
    requires { IsSized payload.now }
{
    let refusal = refusal(alloc, disk, payload);
    let wrote = disk
        .calls()
        .iter()
        .any(|call| matches!(call, DiskCall::Write { .. }));
    let len = disk.len();
    format!(in alloc; "{refusal:?} {wrote} {len:?}")
}

/// What the log of these bytes answers to a payload of 36 or of 35 bytes.
pub(crate) fn last_record(
    alloc: Global,
    bytes: Vec<u8>,
    given: &str,
) -> Result<String, AllocError> {
    let mut disk = MemDisk::new(alloc, bytes, Vec::new(alloc));
    if given == "36" {
        appended(alloc, &mut disk, &[5; 36])
    } else {
        appended(alloc, &mut disk, &[5; 35])
    }
}
