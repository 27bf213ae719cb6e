//! The bytes that a framer holds, with what the sum of any part of them needs.
ghost use Rattle.std.specs.Prelude.{◌≡◌, ◌+◌, ◌-◌, ◌*◌, ◌%◌, ◌≤◌, ◌++◌, [], ℕ, IfOk, length, drop};
ghost use Rattle.std.specs.Prelude.{take, sum, slice_index};
ghost use Rattle.frame_grammar.specs.Frame.{trailer};
ghost use Rattle.frame_grammar.specs.Held.{Window};
ghost use Rattle.frame_grammar.specs.Sums.{AreSums};

use crate::checksum::{sum_of, trailer_by};
use std::alloc::{AllocError, Global};
use std::marker::Model;

/// How many bytes a buffer holds.
pub const CAPACITY: usize = 16384;

/// The sums are kept at each so many bytes, so that no sum looks at more than twice as many,
/// however many frames overlap.
const BLOCK: usize = 256;

/// The number of sums: before each block, and after the last.
const SUMS: usize = 65;

/// Up to 16,384 bytes of a stream: first those that were read, then those that are unread.
#[derive(Drop)]
pub(crate) struct Buffer {
    bytes: Vec<u8>,
    sums: [u8; SUMS],
    start: usize,
}

impl Model for Buffer {
    ghost use Rattle.std.specs.Prelude.{ℕ, ◌≤◌, length, take, drop};
    ghost use Rattle.std.specs.Vec.{vec_capacity};
    ghost use Rattle.frame_grammar.specs.Held.{Window};
    ghost use Rattle.frame_grammar.specs.Sums.{AreSums};

    ghost Value = { Window };

    ghost view = { λ b. record {
      read = take b.start b.bytes.items;
      unread = drop b.start b.bytes.items;
    } };

    ghost invariant = { λ b. (b.start ≤ length b.bytes.items) × (length b.bytes.items ≤ 16384)
        × (16384 ≤ vec_capacity b.bytes) × AreSums b.bytes.items b.sums };
}

impl Buffer {
    /// An empty buffer, which takes all its memory here.
    pub(crate) fn new(alloc: Global) -> Result<Buffer, AllocError>
        ensures { IfOk result (λ buffer. buffer ≡ record { read = []; unread = [] }) }
    {
        Ok(Buffer {
            bytes: Vec::with_capacity(alloc, CAPACITY)?,
            sums: [0; SUMS],
            start: 0,
        })
    }

    /// The bytes that were read, as far as they are still there.
    pub(crate) fn read(&self) -> &[u8]
        ensures value { result.now ≡ self.now.read }
        ensures most { length result.now ≤ CAPACITY }
    {
        &self.bytes[..self.start]
    }

    /// The bytes that are unread.
    pub(crate) fn unread(&self) -> &[u8]
        ensures value { result.now ≡ self.now.unread }
        ensures most { length result.now ≤ CAPACITY }
    {
        &self.bytes[self.start..]
    }

    /// Appends bytes to the unread ones. Where there is no room behind them, these are moved to the
    /// front first, and the bytes that were read are gone.
    pub(crate) fn append(&mut self, more: &[u8])
        requires { length self.old.unread + length more.now ≤ CAPACITY }
        ensures { self.new ≡ record { read = self.new.read; unread = self.old.unread ++ more.now } }
    {
        if CAPACITY - self.bytes.len() < more.len() {
            self.drop_read();
        }
        self.push(more);
    }

    // Moves the unread bytes to the front.
    fn drop_read(&mut self)
        ensures { self.new ≡ record { read = []; unread = self.old.unread } }
    {
        let kept = self.bytes.len() - self.start;
        self.bytes.copy_within(self.start.., 0);
        self.bytes.truncate(kept);
        self.start = 0;
        add_sums(&self.bytes, &mut self.sums, 0);
    }

    fn push(&mut self, more: &[u8])
        requires { length self.old.read + length self.old.unread + length more.now ≤ CAPACITY }
        ensures { self.new ≡ record { read = self.old.read; unread = self.old.unread ++ more.now } }
    {
        let from = self.bytes.len() / BLOCK;
        let _ = self.bytes.extend_from_slice(more); // its memory was taken by `new`
        add_sums(&self.bytes, &mut self.sums, from);
    }

    /// Goes past some of the unread bytes: they are read.
    pub(crate) fn advance(&mut self, count: usize)
        requires { count ≤ length self.old.unread }
        ensures { self.new ≡ record {
          read = self.old.read ++ take count self.old.unread;
          unread = drop count self.old.unread;
        } }
    {
        self.start += count;
    }

    pub(crate) fn clear(&mut self)
        ensures { self.new ≡ record { read = []; unread = [] } }
    {
        self.bytes.clear();
        self.start = 0;
    }

    /// The sum of so many of the unread bytes, modulo 256.
    pub(crate) fn sum(&self, count: usize) -> u8
        requires { count ≤ length self.now.unread }
        ensures { result ≡ sum (take count self.now.unread) % 256 }
    {
        sum_between(&self.bytes, &self.sums, self.start, count)
    }

    /// CheckSum(10) after so many of the unread bytes, with its tag and SOH.
    pub(crate) fn trailer(&self, count: usize) -> [u8; 7]
        requires { count ≤ length self.now.unread }
        ensures { result ≡ trailer (take count self.now.unread) }
    {
        trailer_by(self.sum(count))
    }
}

// The sum of so many bytes from `start` on, modulo 256.
fn sum_between(bytes: &[u8], sums: &[u8], start: usize, count: usize) -> u8
    requires within { start + count ≤ length bytes.now }
    requires most { length bytes.now ≤ CAPACITY }
    requires room { length sums.now ≡ SUMS }
    requires right { AreSums bytes.now sums.now }
    ensures { result ≡ sum (take count (drop start bytes.now)) % 256 }
{
    let end = start + count;
    let first = start / BLOCK + 1;
    let last = end / BLOCK;
    if last <= first {
        return sum_of(&bytes[start..end]);
    }
    let front = sum_of(&bytes[start..first * BLOCK]);
    let back = sum_of(&bytes[last * BLOCK..end]);
    let whole = sums[last].wrapping_sub(sums[first]);
    front.wrapping_add(whole).wrapping_add(back)
}

// Makes the sums right that are past `from`.
fn add_sums(bytes: &[u8], sums: &mut [u8], from: usize)
    requires room { length sums.old ≡ SUMS }
    requires most { length bytes.now ≤ CAPACITY }
    requires within { BLOCK * from ≤ length bytes.now }
    requires right { (k : ℕ) → k ≤ from
        → slice_index sums.old k ≡ sum (take (BLOCK * k) bytes.now) % 256 }
    ensures { AreSums bytes.now sums.new }
{
    for block in from..bytes.len() / BLOCK {
        let sum = sum_of(&bytes[block * BLOCK..(block + 1) * BLOCK]);
        sums[block + 1] = sums[block].wrapping_add(sum);
    }
}
