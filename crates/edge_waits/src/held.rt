//! What came of a client before it had the place, to be handed on first.

ghost use Rattle.std.specs.Prelude.{◌≡◌, ◌==◌, length, take, drop, min, []};

use outside::fill;
use std::alloc::Global;
use std::marker::Model;

/// Bytes that are handed on front by front.
#[derive(Drop)]
pub struct Held {
    bytes: Vec<u8>,
    /// So many of them were handed on.
    gone: usize,
}

impl Model for Held {
    ghost use Rattle.std.specs.Prelude.{ℕ, List, drop, ◌≤◌, vec_len};

    ghost Value = { List ℕ };

    ghost view = { λ h. drop h.gone h.bytes.items };

    ghost invariant = { λ h. h.gone ≤ vec_len h.bytes };
}

impl Held {
    /// Nothing.
    pub fn none(alloc: Global) -> Held
        ensures { result ≡ [] }
    {
        Held {
            bytes: Vec::new(alloc),
            gone: 0,
        }
    }

    /// These bytes.
    pub fn new(bytes: Vec<u8>) -> Held
        ensures { result ≡ bytes.items }
    {
        Held { bytes, gone: 0 }
    }

    /// How many bytes are left.
    #[tactic(auto, using(crate::proofs::Parts::of_len))]
    pub fn len(&self) -> usize
        ensures { result ≡ length self.now }
    {
        self.bytes.len() - self.gone
    }

    /// Whether nothing is left.
    pub fn is_empty(&self) -> bool
        ensures { result ≡ (length self.now == 0) }
    {
        self.len() == 0
    }

    /// Hands on a front, as far as the buffer has room, and answers how many bytes it has.
    pub fn hand_on(&mut self, buf: &mut [u8]) -> usize
        ensures count { result ≡ min (length buf.old) (length self.old) }
        ensures given { take result buf.new ≡ take result self.old }
        ensures left { self.new ≡ drop result self.old }
    {
        let count = fill(buf, &self.bytes[self.gone..]);
        self.gone += count;
        count
    }
}
