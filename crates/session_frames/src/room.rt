//! Room of a fixed size for the bytes of one frame: writing into it takes no memory.

ghost use Rattle.std.specs.Prelude.{◌≡◌, ◌+◌, ◌≤◌, ◌++◌, [], length, IfOk};
ghost use Rattle.std.specs.Fmt.{decimal};
ghost use Rattle.field_groups.specs.Field.{field_bytes};

use field_groups::SOH;
use gate_log::extend_reserved;
use itoa::Buffer;
use std::alloc::{AllocError, Global};
use std::marker::Model;

/// How many bytes there is room for.
pub const FRAME_ROOM: usize = 8_448;

/// Bytes for which there is room, seen as their list.
#[derive(Debug, Drop)]
pub(crate) struct Room {
    bytes: Vec<u8>,
}

impl Model for Room {
    ghost use Rattle.std.specs.Prelude.{ℕ, List, ◌≤◌, vec_capacity};
    ghost use Rattle.session_frames.specs.declared.room.TheConstants.{FRAME_ROOM};

    ghost Value = { List ℕ };

    ghost view = { λ r. r.bytes.items };

    ghost invariant = { λ r. FRAME_ROOM ≤ vec_capacity r.bytes };
}

impl Room {
    /// Room with no bytes in it.
    ///
    /// # Errors
    ///
    /// `AllocError` for want of memory.
    pub(crate) fn new(alloc: Global) -> Result<Room, AllocError>
        ensures { IfOk result (λ room. room ≡ []) }
    {
        Ok(Room {
            bytes: Vec::with_capacity(alloc, FRAME_ROOM)?,
        })
    }

    /// Takes all bytes out.
    pub(crate) fn clear(&mut self)
        ensures { self.new ≡ [] }
    {
        self.bytes.clear();
    }

    /// Appends bytes.
    pub(crate) fn put(&mut self, more: &[u8])
        requires { length self.old + length more.now ≤ FRAME_ROOM }
        ensures bytes { self.new ≡ self.old ++ more.now }
        ensures grown { length self.new ≡ length self.old + length more.now }
    {
        extend_reserved(&mut self.bytes, more);
    }

    /// Appends a number in digits, which are at most ten.
    #[tactic(auto, using(crate::proofs::Bounds::digits_short))]
    pub(crate) fn put_digits(&mut self, number: u32)
        requires { length self.old + 10 ≤ FRAME_ROOM }
        ensures digits { self.new ≡ self.old ++ decimal number }
        ensures grown { length self.new ≤ length self.old + 10 }
    {
        self.put(Buffer::new().format(number).as_bytes());
    }

    /// Appends a field as it is written.
    #[tactic(auto, unfolding(field_groups::specs::Field::field_bytes))]
    pub(crate) fn put_field(&mut self, tag: u32, value: &[u8])
        requires { length self.old + length value.now + 12 ≤ FRAME_ROOM }
        ensures field { self.new ≡ self.old ++ field_bytes (tag, value.now) }
        ensures grown { length self.new ≤ length self.old + length value.now + 12 }
    {
        self.put_digits(tag);
        self.put(b"=");
        self.put(value);
        self.put(&[SOH]);
    }

    /// The bytes.
    pub(crate) fn as_slice(&self) -> &[u8]
        ensures { result.now ≡ self.now }
    {
        &self.bytes
    }
}
