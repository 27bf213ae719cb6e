//! Bytes of a disk that are read at once, and the records among them.

ghost use Rattle.std.specs.Prelude.{◌≡◌, ◌≢◌, ◌+◌, ◌-◌, ◌≤◌, ℕ, List, [], length, drop, min};
ghost use Rattle.std.specs.Prelude.{Ok, Err, IfOk, IfSome, OnOk, OnErr, true, false, vec_capacity};
ghost use Rattle.gate_log.specs.Log.{OnlyReads, HasFaultCause, ReadsPayload, HasNoPayload};
ghost use Rattle.gate_log.specs.Records.{IsShut};
ghost use Rattle.gate_log.specs.Scan.{IsHead};
ghost use Rattle.gate_log.specs.Chunk.{StandsAt, IsFront, IsOf, IsOfAny, BeginsWith};

use crate::head::{HEAD_LEN, Head, head_of};
use crate::payload::payload_len;
use crate::{LogError, MAX_PAYLOAD};
use outside::{Disk, MAX_DISK};
use std::alloc::{AllocError, Global};
use std::marker::Model;

/// The most bytes that are read at once: a head and a payload of the most bytes.
pub(crate) const CHUNK_LEN: usize = HEAD_LEN + MAX_PAYLOAD;

/// Replaces `out` by the bytes from this place on, at most so many; after an error it holds
/// anything.
pub(crate) fn read_front<D: Disk>(
    disk: &mut D,
    at: u64,
    most: usize,
    out: &mut Vec<u8>,
) -> Result<(), LogError>
    ensures front { OnOk result (IfSome (D.bytes disk.old) (IsFront at most out.new.items)) }
    ensures few { OnOk result (length out.new.items ≤ most) }
    ensures capacity { vec_capacity out.old ≤ vec_capacity out.new }
    ensures room { most ≤ vec_capacity out.old → result ≢ Err LogError.NoMemory }
    ensures only_read { OnlyReads D.bytes D.image disk.old disk.new }
    ensures reads { D.reads disk.new ≤ D.reads disk.old + 1 }
    ensures cause { HasFaultCause (D.faults disk.old) (D.faults disk.new) result }
    ensures only { (result ≡ Err LogError.Full) → ⊥ }
    ensures not_foreign { (at : ℕ) → (result ≡ Err (LogError.Foreign at)) → ⊥ }
{
    // Where it is long enough already, nothing is written twice.
    out.resize(most, 0)?;
    let count = disk.read_at(at, out.as_mut_slice())?;
    out.truncate(count);
    Ok(())
}

/// Bytes of a disk that were read at once, from a place on, and the payload that was found last
/// among them. Once made it takes no memory.
#[derive(Debug, Drop)]
pub struct Chunk {
    place: u64,
    bytes: Vec<u8>,
    // Where the payload begins, and its length.
    from: usize,
    len: usize,
}

impl Model for Chunk {
    ghost use Rattle.gate_log.specs.Chunk.{Part, part_of, IsWhole};

    ghost Value = { Part };

    ghost view = { part_of };

    ghost invariant = { IsWhole };
}

impl Chunk {
    /// None yet, with room for 65,541.
    ///
    /// # Errors
    /// `AllocError` for want of memory.
    pub fn new(alloc: Global) -> Result<Chunk, AllocError>
        ensures { IfOk result IsOfAny }
    {
        Ok(Chunk {
            place: 0,
            bytes: Vec::with_capacity(alloc, CHUNK_LEN)?,
            from: 0,
            len: 0,
        })
    }

    /// Drops what was read.
    pub fn clear(&mut self)
        ensures { IsOfAny self.new }
    {
        self.from = 0;
        self.len = 0;
        self.bytes.clear();
    }

    /// The payload that was found last.
    pub fn payload(&self) -> &[u8]
        ensures payload { result.now ≡ self.now.payload }
        ensures sized { length result.now ≤ MAX_PAYLOAD }
    {
        &self.bytes[self.from..self.from + self.len]
    }

    /// Those from this place on; none where it has not that place.
    fn behind(&self, at: u64) -> &[u8]
        ensures stands { (b : List ℕ) → StandsAt b self.now.place self.now.bytes
            → StandsAt b at result.now }
        ensures end { result.now
            ≡ drop (length self.now.bytes - length result.now) self.now.bytes }
        ensures all { at ≡ self.now.place → result.now ≡ self.now.bytes }
    {
        if at < self.place {
            return &[];
        }
        let skipped = (at - self.place) as usize;
        if self.bytes.len() < skipped {
            return &[];
        }
        &self.bytes[skipped..]
    }

    /// Replaces them by those from this place on; after an error there are none.
    fn fill<D: Disk>(&mut self, disk: &mut D, at: u64) -> Result<(), LogError>
        ensures place { OnOk result (self.new.place ≡ at) }
        ensures read { OnOk result (IfSome (D.bytes disk.old)
            (IsFront at CHUNK_LEN self.new.bytes)) }
        ensures refused { OnErr result (IsOfAny self.new) }
        ensures only_read { OnlyReads D.bytes D.image disk.old disk.new }
        ensures reads { D.reads disk.new ≤ D.reads disk.old + 1 }
        ensures cause { HasFaultCause (D.faults disk.old) (D.faults disk.new) result }
        ensures only { OnErr result (result ≡ Err LogError.DiskFault) }
    {
        self.place = at;
        self.from = 0;
        self.len = 0;
        let answer = read_front(disk, at, CHUNK_LEN, &mut self.bytes);
        if answer.is_err() {
            self.bytes.clear();
        }
        answer
    }

    /// Whether all of the record at this place is among them; then its payload is found.
    fn find(&mut self, at: u64) -> bool
        ensures place { self.new.place ≡ self.old.place }
        ensures bytes { self.new.bytes ≡ self.old.bytes }
        ensures found { result ≡ true → (b : List ℕ) → StandsAt b self.old.place self.old.bytes
            → BeginsWith (drop at b) self.new.payload }
        ensures none { result ≡ false → at ≡ self.old.place
            → (payload : List ℕ) → BeginsWith self.old.bytes payload → ⊥ }
    {
        let there = self.behind(at);
        let Some(len) = payload_len(there) else {
            return false;
        };
        let skipped = self.bytes.len() - there.len();
        self.from = skipped + HEAD_LEN;
        self.len = len;
        true
    }

    /// Finds the payload of the record at this place, which is read where not all of it is among
    /// them: 65,541 bytes in one call. False where none stands there.
    ///
    /// # Errors
    /// `DiskFault` only where the disk's count of faults rose.
    pub fn seek<D: Disk>(&mut self, disk: &mut D, place: u64) -> Result<bool, LogError>
        requires place { place ≤ MAX_DISK }
        requires of { IsOf (D.bytes disk.old) self.old }
        ensures of { IsOf (D.bytes disk.new) self.new }
        ensures found { result ≡ Ok true → IfSome (D.bytes disk.old) (λ b.
            BeginsWith (drop place b) self.new.payload) }
        ensures none { result ≡ Ok false → HasNoPayload (D.bytes disk.old) place }
        ensures only_read { OnlyReads D.bytes D.image disk.old disk.new }
        ensures reads { D.reads disk.new ≤ D.reads disk.old + 1 }
        ensures cause { HasFaultCause (D.faults disk.old) (D.faults disk.new) result }
        ensures only { OnErr result (result ≡ Err LogError.DiskFault) }
    {
        if self.find(place) {
            return Ok(true);
        }
        self.fill(disk, place)?;
        Ok(self.find(place))
    }

    /// The same, of a record that has to stand there.
    ///
    /// # Errors
    /// `Foreign` only where no record of the disk stands there; `DiskFault` only where the disk's
    /// count of faults rose.
    pub fn read<D: Disk>(&mut self, disk: &mut D, place: u64) -> Result<(), LogError>
        requires place { place ≤ MAX_DISK }
        requires of { IsOf (D.bytes disk.old) self.old }
        ensures of { IsOf (D.bytes disk.new) self.new }
        ensures payload { OnOk result (ReadsPayload (D.bytes disk.old) place self.new.payload) }
        ensures only_read { OnlyReads D.bytes D.image disk.old disk.new }
        ensures reads { D.reads disk.new ≤ D.reads disk.old + 1 }
        ensures cause { HasFaultCause (D.faults disk.old) (D.faults disk.new) result }
        ensures only { (result ≡ Err LogError.Full) → ⊥ }
        ensures no_memory { (result ≡ Err LogError.NoMemory) → ⊥ }
        ensures foreign { (at : ℕ) → result ≡ Err (LogError.Foreign at) →
            HasNoPayload (D.bytes disk.old) place }
        ensures foreign_at { (at : ℕ) → result ≡ Err (LogError.Foreign at) → at ≡ place }
    {
        if self.seek(disk, place)? {
            return Ok(());
        }
        Err(LogError::Foreign { at: place })
    }

    /// What stands at the gate of this place, which is read where it is not among them.
    ///
    /// # Errors
    /// `DiskFault` only where the disk's count of faults rose.
    pub(crate) fn head_at<D: Disk>(&mut self, disk: &mut D, at: u64) -> Result<Head, LogError>
        requires { IsOf (D.bytes disk.old) self.old }
        ensures of { OnOk result (IsOf (D.bytes disk.old) self.new) }
        ensures head { IfOk result (λ head. IfSome (D.bytes disk.old) (λ b.
            IsHead (drop at b) head)) }
        ensures only_read { OnlyReads D.bytes D.image disk.old disk.new }
        ensures cause { HasFaultCause (D.faults disk.old) (D.faults disk.new) result }
        ensures only { OnErr result (result ≡ Err LogError.DiskFault) }
    {
        let there = self.behind(at);
        if there.len() >= HEAD_LEN {
            return Ok(head_of(there));
        }
        self.fill(disk, at)?;
        Ok(head_of(&self.bytes))
    }

    /// Whether a gate that is not open stands at this place, which is read where it is not among
    /// them.
    ///
    /// # Errors
    /// `DiskFault` only where the disk's count of faults rose.
    pub fn is_shut<D: Disk>(&mut self, disk: &mut D, at: u64) -> Result<bool, LogError>
        requires { IsOf (D.bytes disk.old) self.old }
        ensures of { OnOk result (IsOf (D.bytes disk.new) self.new) }
        ensures shut { result ≡ Ok true → IfSome (D.bytes disk.old) (λ b. IsShut (drop at b)) }
        ensures open { result ≡ Ok false → IfSome (D.bytes disk.old) (λ b.
            IsShut (drop at b) → ⊥) }
        ensures only_read { OnlyReads D.bytes D.image disk.old disk.new }
        ensures cause { HasFaultCause (D.faults disk.old) (D.faults disk.new) result }
        ensures only { OnErr result (result ≡ Err LogError.DiskFault) }
    {
        let head = self.head_at(disk, at)?;
        Ok(matches!(head, Head::Shut))
    }
}
