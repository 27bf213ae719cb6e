//! A disk in memory, which tells its bytes and what a crash may leave of them.

ghost use Rattle.std.specs.Prelude.{◌≡◌, ◌⊎◌, ◌+◌, ◌-◌, ◌≤◌, ◌++◌, min, [], ◌∷◌, length, map};
ghost use Rattle.std.specs.Prelude.{Some, IsTrue};
ghost use Rattle.std.specs.Prelude.{OnOk, OnErr, IfOk, take, drop, refl};
ghost use Rattle.std.specs.Prelude.{true, false};
ghost use Rattle.std.specs.Io.{ReadsAtMost};
ghost use mathlib.Core.Logic.{inl};
ghost use Rattle.outside.specs.Causes.{HasCause, faults_after, next_count};
ghost use Rattle.outside.specs.Disk.{replaced, write, Torn, Follows, AreAmong, HasOneImage};
ghost use Rattle.outside.specs.Disk.{ReadsAt};
ghost use Rattle.outside.specs.Memory.{called};
ghost use Rattle.outside.specs.MemDisk.{Answers, IsDisk, IsImageOf, burnt, fresh, staged, undo};
ghost use Rattle.outside.specs.MemDisk.{undone};
ghost use Rattle.outside.specs.MemDisk.{picked, picked_image, all_written, write_of};

use crate::calls::Calls;
use crate::mem_source::fill;
use crate::{Disk, Failed, MAX_DISK};
use std::alloc::{AllocError, Global};
use std::marker::Model;

/// A call of a disk, with its place and its number of bytes.
#[derive(Clone, Copy, Debug, PartialEq, Eq)]
pub enum DiskCall {
    /// The length was asked.
    Len,
    /// Bytes were read.
    Read {
        /// From this place on.
        at: u64,
        /// At most so many.
        len: usize,
    },
    /// A piece was written.
    Write {
        /// From this place on.
        at: u64,
        /// So many bytes.
        len: usize,
    },
    /// What was written was made stable.
    Sync,
}

/// Which of the images that a crash may leave.
#[derive(Clone, Copy, Debug, PartialEq, Eq)]
pub enum Image {
    /// Each pending range as it was before.
    Old,
    /// Each pending range as it was written, by a failed write too.
    New,
    /// Each byte of a pending range 255, at the new length.
    Torn,
}

/// How many writes and syncs a disk still does.
#[derive(Clone, Copy, Debug, PartialEq, Eq)]
enum Fuse {
    /// There is no limit.
    Unlit,
    /// So many more.
    Lit(u64),
    /// One came too many, and every call fails.
    Blown,
}

/// A write since the last sync.
#[derive(Debug, Drop)]
struct Pending {
    at: u64,
    piece: Vec<u8>,
    // What it wrote over; none where it failed.
    under: Option<Vec<u8>>,
}

/// A disk in memory, which keeps a list of its calls.
///
/// Calls are numbered from 1, and the listed ones fail. A failed write writes nothing.
#[derive(Debug, Drop)]
pub struct MemDisk {
    alloc: Global,
    bytes: Vec<u8>,
    pending: Vec<Pending>,
    made: Vec<DiskCall>,
    calls: Calls,
    reads: u64,
    fuse: Fuse,
    refused: bool,
}

impl Model for MemDisk {
    ghost use Rattle.outside.specs.Memory.{DiskState};

    ghost Value = { DiskState };

    ghost use Rattle.outside.specs.MemDisk.{state_of, IsDisk};

    ghost view = { state_of };

    ghost invariant = { λ d. IsDisk (state_of d) };
}

// The n bytes from a place on give way to a piece, in a copy.
fn with_replaced(
    alloc: Global,
    bytes: &[u8],
    at: usize,
    n: usize,
    piece: &[u8],
) -> Result<Vec<u8>, AllocError>
    ensures { IfOk result (λ v. v.items ≡ replaced at n piece.now bytes.now) }
{
    let mut next = bytes[..at.min(bytes.len())].to_vec(alloc)?;
    next.extend_from_slice(piece)?;
    next.extend_from_slice(bytes.get(at.saturating_add(n)..).unwrap_or(&[]))?;
    Ok(next)
}

// Writes a piece over the bytes from a place on, which may lengthen them.
fn overwrite(bytes: &mut Vec<u8>, at: usize, piece: &[u8]) -> Result<(), AllocError>
    requires { at ≤ length bytes.old.items }
    ensures ok { OnOk result (bytes.new.items ≡ write at piece.now bytes.old.items) }
    ensures err { OnErr result (bytes.new.items ≡ bytes.old.items) }
{
    let over = piece.len().min(bytes.len() - at);
    bytes.extend_from_slice(&piece[over..])?;
    bytes[at..at + over].copy_from_slice(&piece[..over]);
    Ok(())
}

// What a write of n bytes writes over.
fn bytes_under(alloc: Global, bytes: &[u8], at: usize, n: usize) -> Result<Vec<u8>, AllocError>
    requires { at ≤ length bytes.now }
    ensures { IfOk result (λ v. v.items ≡ take n (drop at bytes.now)) }
{
    bytes[at..at + n.min(bytes.len() - at)].to_vec(alloc)
}

// Copies the bytes from a place on, as many as there are and as there is room for.
fn fill_from(buf: &mut [u8], bytes: &[u8], at: usize) -> usize
    ensures count { result ≡ min (length buf.new) (length bytes.now - at) }
    ensures bytes { take result buf.new ≡ take result (drop at bytes.now) }
{
    if at >= bytes.len() {
        return 0;
    }
    fill(buf, &bytes[at..])
}

// The bytes before the pending writes.
fn undo_all(alloc: Global, bytes: &[u8], pending: &[Pending]) -> Result<Vec<u8>, AllocError>
    ensures { IfOk result (λ v. v.items ≡ undone pending.now bytes.now) }
{
    let mut bytes = bytes.to_vec(alloc)?;
    let mut left = pending.len();
    while left > 0 {
        left -= 1;
        bytes = pending[left].off(alloc, bytes)?;
    }
    Ok(bytes)
}

// These bytes after each write, as the pick has it.
fn write_all(
    alloc: Global,
    bytes: Vec<u8>,
    pending: &[Pending],
    pick: Image,
) -> Result<Vec<u8>, AllocError>
    ensures { IfOk result (λ v. v.items ≡ all_written pick bytes.items (map write_of pending.now)) }
{
    let mut image = bytes;
    for write in pending {
        image = write.onto(alloc, &image, pick)?;
    }
    Ok(image)
}

impl MemDisk {
    /// A disk of these bytes, of which the calls with the numbers in `fail` fail.
    ///
    /// It takes no memory yet.
    pub fn new(alloc: Global, content: Vec<u8>, fail: Vec<u64>) -> MemDisk
        ensures { result ≡ fresh content.items fail.items Fuse.Unlit }
    {
        MemDisk {
            alloc,
            bytes: content,
            pending: Vec::new(alloc),
            made: Vec::new(alloc),
            calls: Calls::new(fail),
            reads: 0,
            fuse: Fuse::Unlit,
            refused: false,
        }
    }

    /// A disk of these bytes that does so many writes and syncs.
    ///
    /// The next write or sync and every call after it fail. It takes no memory yet.
    pub fn fuse(alloc: Global, content: Vec<u8>, passes: u64) -> MemDisk
        ensures { result ≡ fresh content.items [] (Fuse.Lit passes) }
    {
        MemDisk {
            fuse: Fuse::Lit(passes),
            ..MemDisk::new(alloc, content, Vec::new(alloc))
        }
    }

    /// The calls that were made, in order.
    pub fn calls(&self) -> &[DiskCall]
        ensures { result.now ≡ self.now.made }
    {
        &self.made
    }

    /// Whether memory was refused to a call, which counts as a fault of it.
    pub fn refused(&self) -> bool
        ensures { result ≡ self.now.refused }
    {
        self.refused
    }

    /// What a crash leaves now.
    ///
    /// # Errors
    /// `AllocError` for want of memory.
    pub fn image(&self, pick: Image) -> Result<Vec<u8>, AllocError>
        ensures value { IfOk result (λ v. v.items ≡ picked_image pick self.now) }
        ensures among { IfOk result (λ v. IsImageOf self.now v.items) }
    {
        let stable = undo_all(self.alloc, &self.bytes, &self.pending)?;
        if pick == Image::Old {
            return Ok(stable);
        }
        write_all(self.alloc, stable, &self.pending, pick)
    }

    /// What a crash leaves now, as [`MemDisk::image`]. Where no write is pending it takes no memory.
    ///
    /// # Errors
    /// `AllocError` for want of memory.
    pub fn into_image(self, pick: Image) -> Result<Vec<u8>, AllocError>
        ensures value { IfOk result (λ v. v.items ≡ picked_image pick self) }
        ensures among { IfOk result (λ v. IsImageOf self v.items) }
    {
        if self.pending.is_empty() {
            return Ok(self.bytes);
        }
        self.image(pick)
    }

    /// Lets go of the list of calls that were made.
    pub fn forget_calls(&mut self)
        ensures { self.new ≡ record self.old { made = [] } }
    {
        self.made.clear();
    }

    // Counts a call. It fails where it is listed or the fuse is blown, or for want of memory.
    fn begin(&mut self, call: DiskCall) -> Result<(), Failed>
        ensures answers { Answers call self.old self.new result }
        ensures same { self.new ≡ record self.old {
          made = self.new.made;
          refused = self.new.refused;
          calls = called self.old.calls (faults_after result self.old.calls.faults);
        } }
        ensures cause { HasCause self.old.calls.faults self.new.calls.faults result }
    {
        let noted = self.made.push(call).is_ok();
        self.refused = self.refused || !noted;
        self.calls.begin()?;
        if !noted || self.fuse == Fuse::Blown {
            return Err(self.calls.fail());
        }
        Ok(())
    }

    // Burns the fuse by one write or sync.
    fn burn(&mut self)
        ensures burnt { self.new ≡ record self.old { fuse = burnt self.old.fuse } }
        ensures is_disk { IsDisk self.old }
    {
        self.fuse = match self.fuse {
            Fuse::Lit(0) => Fuse::Blown,
            Fuse::Lit(passes) => Fuse::Lit(passes - 1),
            other => other,
        };
    }

    // A call that had begun is refused for want of memory.
    fn refuse(&mut self) -> Failed
        ensures counted { self.new ≡ record self.old {
          refused = true;
          calls = record self.old.calls { faults = next_count self.old.calls.faults };
        } }
        ensures later { self.old.calls.faults ≤ self.new.calls.faults }
    {
        self.refused = true;
        self.calls.fail()
    }

    // Keeps a write that failed: what it may have left is pending too.
    fn keep_failed(&mut self, at: u64, piece: &[u8])
        requires { at ≤ length self.old.bytes }
        ensures { (self.new ≡ staged false at piece.now self.old) ⊎
            (self.new ≡ record self.old { refused = true }) }
    {
        if self.push_failed(at, piece).is_err() {
            self.refused = true;
        }
    }

    fn push_failed(&mut self, at: u64, piece: &[u8]) -> Result<(), AllocError>
        requires { at ≤ length self.old.bytes }
        ensures ok { OnOk result (self.new ≡ staged false at piece.now self.old) }
        ensures err { OnErr result (self.new ≡ self.old) }
    {
        let piece = piece.to_vec(self.alloc)?;
        self.pending.push(Pending {
            at,
            piece,
            under: None,
        })?;
        Ok(())
    }

    // Does a write, and keeps it until the next sync.
    fn write_over(&mut self, at: u64, piece: &[u8]) -> Result<(), AllocError>
        requires { at ≤ length self.old.bytes }
        ensures ok { OnOk result (self.new ≡ staged true at piece.now self.old) }
        ensures err { OnErr result (self.new ≡ self.old) }
    {
        let under = bytes_under(self.alloc, &self.bytes, at as usize, piece.len())?;
        let kept = piece.to_vec(self.alloc)?;
        self.pending.push(Pending {
            at,
            piece: kept,
            under: Some(under),
        })?;
        if let Err(error) = overwrite(&mut self.bytes, at as usize, piece) {
            self.pending.pop();
            return Err(error);
        }
        Ok(())
    }
}

impl Pending {
    // The bytes before this write.
    fn off(&self, alloc: Global, bytes: Vec<u8>) -> Result<Vec<u8>, AllocError>
        ensures { IfOk result (λ v. v.items ≡ undo self.now bytes.items) }
    {
        match &self.under {
            Some(under) => with_replaced(alloc, &bytes, self.at as usize, self.piece.len(), under),
            None => Ok(bytes),
        }
    }

    // An image after this write, as the pick has it.
    fn onto(&self, alloc: Global, image: &[u8], pick: Image) -> Result<Vec<u8>, AllocError>
        ensures { IfOk result (λ v.
            v.items ≡ write self.now.at (picked pick self.now.piece.items) image.now) }
    {
        let n = self.piece.len();
        if pick == Image::Torn {
            return with_replaced(alloc, image, self.at as usize, n, &vec![in alloc; 255; n]?);
        }
        with_replaced(alloc, image, self.at as usize, n, &self.piece)
    }
}

impl Disk for MemDisk {
    ghost bytes = { λ d. Some d.bytes };

    ghost image = { IsImageOf };

    ghost faults = { λ d. d.calls.faults };

    ghost reads = { λ d. d.reads };

    ghost as_it_reads = { λ d. inl refl };

    fn len(&mut self) -> Result<u64, Failed>
        ensures value { IfOk result (λ n. n ≡ length self.old.bytes) }
        ensures same { self.new.bytes ≡ self.old.bytes }
        ensures images { AreAmong (IsImageOf self.new) (IsImageOf self.old) }
        ensures kept { AreAmong (IsImageOf self.old) (IsImageOf self.new) }
        ensures counted { self.new.reads ≡ self.old.reads }
        ensures cause { HasCause self.old.calls.faults self.new.calls.faults result }
        ensures answers { Answers DiskCall.Len self.old self.new result }
    {
        self.begin(DiskCall::Len)?;
        Ok(self.bytes.len() as u64)
    }

    fn read_at(&mut self, at: u64, buf: &mut [u8]) -> Result<usize, Failed>
        ensures bound { ReadsAtMost result buf.new }
        ensures value { ReadsAt (Some self.old.bytes) at result buf.new }
        ensures same { self.new.bytes ≡ self.old.bytes }
        ensures images { AreAmong (IsImageOf self.new) (IsImageOf self.old) }
        ensures kept { AreAmong (IsImageOf self.old) (IsImageOf self.new) }
        ensures counted { self.new.reads ≡ next_count self.old.reads }
        ensures cause { HasCause self.old.calls.faults self.new.calls.faults result }
        ensures answers { Answers (DiskCall.Read at (length buf.old)) self.old self.new result }
    {
        self.reads = self.reads.saturating_add(1);
        self.begin(DiskCall::Read { at, len: buf.len() })?;
        Ok(fill_from(buf, &self.bytes, at as usize))
    }

    fn write_at(&mut self, at: u64, piece: &[u8]) -> Result<(), Failed>
        requires within { at ≤ length self.old.bytes }
        requires limit { at + length piece.now ≤ MAX_DISK }
        ensures written { OnOk result (self.new.bytes ≡ write at piece.now self.old.bytes) }
        ensures images { Follows
            (Torn at (length piece.now)) (IsImageOf self.old) (IsImageOf self.new) }
        ensures kept { AreAmong (IsImageOf self.old) (IsImageOf self.new) }
        ensures counted { self.new.reads ≡ self.old.reads }
        ensures cause { HasCause self.old.calls.faults self.new.calls.faults result }
        ensures failed { OnErr result (self.new.bytes ≡ self.old.bytes) }
        ensures stable { self.new.stable ≡ self.old.stable }
        ensures pending { (self.new.pending
            ≡ self.old.pending ++ (record { at = at; piece = piece.now }) ∷ []) ⊎
            IsTrue self.new.refused }
        ensures answers { Answers (DiskCall.Write at (length piece.now))
            (record self.old { fuse = burnt self.old.fuse }) self.new result }
    {
        self.burn();
        let begun = self.begin(DiskCall::Write {
            at,
            len: piece.len(),
        });
        if begun.is_err() {
            self.keep_failed(at, piece);
            return begun;
        }
        match self.write_over(at, piece) {
            Ok(()) => Ok(()),
            Err(_) => Err(self.refuse()),
        }
    }

    fn sync(&mut self) -> Result<(), Failed>
        ensures durable { OnOk result (HasOneImage (Some self.new.bytes) (IsImageOf self.new)) }
        ensures same { self.new.bytes ≡ self.old.bytes }
        ensures images { AreAmong (IsImageOf self.new) (IsImageOf self.old) }
        ensures kept { OnErr result (AreAmong (IsImageOf self.old) (IsImageOf self.new)) }
        ensures counted { self.new.reads ≡ self.old.reads }
        ensures cause { HasCause self.old.calls.faults self.new.calls.faults result }
        ensures emptied { OnOk result (self.new.pending ≡ []) }
        ensures failed { OnErr result (self.new.pending ≡ self.old.pending) }
        ensures answers { Answers DiskCall.Sync
            (record self.old { fuse = burnt self.old.fuse }) self.new result }
    {
        self.burn();
        self.begin(DiskCall::Sync)?;
        self.pending.clear();
        Ok(())
    }
}
