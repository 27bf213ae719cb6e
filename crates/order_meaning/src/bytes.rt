//! A byte string that a message owns, the short ones in itself.

use smallvec::SmallVec;
use std::alloc::{AllocError, Global};
use std::marker::Model;

/// How many bytes stand in a value itself, with no allocation.
pub(crate) const INLINE: usize = 22;

/// The bytes of a value, seen as their list. Up to 22 of them stand in the value itself.
#[derive(Debug, Drop)]
pub struct Bytes {
    bytes: SmallVec<u8, INLINE>,
}

impl Model for Bytes {
    ghost use Rattle.std.specs.Prelude.{ℕ, List};

    ghost Value = { List ℕ };

    ghost view = { λ b. b.bytes.items };
}

impl Bytes {
    ghost use Rattle.std.specs.Prelude.{◌≡◌, ◌≤◌, ◌++◌, [], length, IfOk, IsOk, OnOk, OnErr};

    /// No bytes; it takes no memory.
    pub fn new(alloc: Global) -> Bytes
        ensures { result ≡ [] }
    {
        Bytes {
            bytes: SmallVec::new(alloc),
        }
    }

    /// A copy, which never fails where there are at most 22 bytes.
    ///
    /// # Errors
    ///
    /// `AllocError` for want of memory.
    pub fn copy(alloc: Global, value: &[u8]) -> Result<Bytes, AllocError>
        ensures ok { IfOk result (λ b. b ≡ value.now) }
        ensures short { length value.now ≤ INLINE → IsOk result }
    {
        Ok(Bytes {
            bytes: SmallVec::from_slice(alloc, value)?,
        })
    }

    /// The bytes; it takes no memory.
    pub fn as_slice(&self) -> &[u8]
        ensures { result.now ≡ self.now }
    {
        self.bytes.as_slice()
    }

    /// Appends a copy of more bytes.
    ///
    /// # Errors
    ///
    /// `AllocError` for want of memory; then the bytes are as before.
    pub fn extend_from_slice(&mut self, more: &[u8]) -> Result<(), AllocError>
        ensures ok { OnOk result (self.new ≡ self.old ++ more.now) }
        ensures err { OnErr result (self.new ≡ self.old) }
    {
        self.bytes.extend_from_slice(more)
    }

    /// A second one with the same bytes.
    ///
    /// # Errors
    ///
    /// `AllocError` for want of memory.
    pub fn duplicate(&self) -> Result<Bytes, AllocError>
        ensures ok { IfOk result (λ b. b ≡ self.now) }
        ensures short { length self.now ≤ INLINE → IsOk result }
    {
        Bytes::copy(*self.bytes.allocator(), self.bytes.as_slice())
    }
}

const _: () = prove!(std::mem::size_of::<Bytes>() == 40);

const _: () = prove!(std::mem::size_of::<Option<Bytes>>() == 48);
