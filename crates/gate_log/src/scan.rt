//! One walk over a disk, from gate to gate: the records that it holds, or where it is refused.

ghost use Rattle.std.specs.Prelude.{◌≡◌, ◌<◌, ◌≤◌, ◌↔◌, ℕ, IsTrue, length, Err, IfOk, IfSome};
ghost use Rattle.outside.specs.Causes.{HasCause};
ghost use Rattle.gate_log.specs.Log.{OnlyReads, HasFaultCause};
ghost use Rattle.gate_log.specs.Scan.{IsFound, IsWithin, IsStep, GoesOn, fits_at};
ghost use Rattle.gate_log.specs.Scan.{found_at};

use crate::chunk::Chunk;
use crate::head::Head;
use crate::{BIRTH_LEN, LogError, MAX_PAYLOAD, UNBORN_LEN};
use outside::{Disk, Failed, MAX_DISK};
use std::alloc::Global;

/// What a disk holds.
#[derive(Clone, Copy, Debug)]
pub(crate) enum Found {
    /// No log yet.
    Unborn,
    /// So many records, and the closing gate at this place.
    Records(u64, u64),
    /// No log, for the gate at this place.
    Refused(u64),
}

/// Whether a payload behind a gate at this place may have this length.
fn may_have(at: u64, len: u32) -> bool
    ensures { result ≡ fits_at at len }
{
    if at == 0 {
        return len == BIRTH_LEN as u32;
    }
    1 <= len && len <= MAX_PAYLOAD as u32
}

/// Whether a payload of this length and the next gate fit behind a gate at this place, on a disk of
/// so many bytes.
fn goes_on(at: u64, len: u32, size: u64) -> bool
    requires { at < MAX_DISK }
    ensures { IsTrue result ↔ GoesOn at len size }
{
    let next = at + 5 + len as u64;
    may_have(at, len) && next < size && next < MAX_DISK
}

/// What a walk does at a gate.
#[derive(Clone, Copy, Debug)]
enum Step {
    /// It ends: the gate is closed.
    End,
    /// It goes on behind a payload of this length.
    On(u32),
    /// It breaks: the gate is open, and no record stands behind it.
    Break,
}

/// What a walk does at this place of a disk of so many bytes.
fn step_at(head: Head, at: u64, size: u64) -> Step
    requires { at < MAX_DISK }
    ensures { IsStep head at size result }
{
    match head {
        Head::Shut => Step::End,
        Head::Open(len) if goes_on(at, len, size) => Step::On(len),
        _ => Step::Break,
    }
}

/// What a disk of so many bytes holds, where a walk over so many records came to a closed gate.
fn ended(count: u64, end: u64, size: u64) -> Found
    ensures { result ≡ found_at count end size }
{
    if count > 0 {
        return Found::Records(count, end);
    }
    if size <= UNBORN_LEN as u64 {
        Found::Unborn
    } else {
        Found::Refused(0)
    }
}

/// The length of a disk that had so many bytes, at a gate where this stands. It is asked again
/// where a record there would pass it: to a file that a gateway lengthens meanwhile each record is
/// written before its gate is opened.
fn size_at<D: Disk>(disk: &mut D, size: u64, head: Head, at: u64) -> Result<u64, Failed>
    requires { at < MAX_DISK }
    ensures told { IfOk result (λ now. IfSome (D.bytes disk.old) (λ b.
        size ≡ length b → now ≡ length b)) }
    ensures longer { IfOk result (λ now. size ≤ now) }
    ensures only_read { OnlyReads D.bytes D.image disk.old disk.new }
    ensures cause { HasCause (D.faults disk.old) (D.faults disk.new) result }
{
    match head {
        Head::Open(len) if size <= at + 5 + len as u64 => Ok(disk.len()?.max(size)),
        _ => Ok(size),
    }
}

/// What a disk holds. It reads many gates at once.
///
/// # Errors
/// `DiskFault` only where the disk's count of faults rose; `NoMemory`.
pub(crate) fn scan<D: Disk>(alloc: Global, disk: &mut D) -> Result<Found, LogError>
    ensures found { IfOk result (λ found. IfSome (D.bytes disk.old) (λ b. IsFound b found)) }
    ensures within { IfOk result IsWithin }
    ensures only_read { OnlyReads D.bytes D.image disk.old disk.new }
    ensures cause { HasFaultCause (D.faults disk.old) (D.faults disk.new) result }
    ensures only { (result ≡ Err LogError.Full) → ⊥ }
    ensures not_foreign { (at : ℕ) → (result ≡ Err (LogError.Foreign at)) → ⊥ }
{
    let mut size = disk.len()?;
    if size <= 1 {
        return Ok(Found::Unborn);
    }
    let mut chunk = Chunk::new(alloc)?;
    let mut count = 0;
    let mut end = 0;
    'gates: loop {
        let head = chunk.head_at(disk, end)?;
        size = size_at(disk, size, head, end)?;
        match step_at(head, end, size) {
            Step::End => return Ok(ended(count, end, size)),
            Step::Break => return Ok(Found::Refused(end)),
            Step::On(len) => {
                count += 1;
                end += 5 + len as u64;
            }
        }
    }
}
