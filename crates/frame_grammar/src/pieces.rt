//! The pieces of a stream, and how it ends.

use crate::{Garble, Span};

/// The next piece of a stream. Places and lengths are in bytes; one that would pass 2^64 - 1 is
/// given as 2^64 - 1.
#[derive(Clone, Copy, Debug, PartialEq, Eq)]
pub enum Next {
    /// A frame: its place in the stream from the first byte fed, its length, and the part of the
    /// framer that holds its body.
    Frame { at: u64, len: u32, body: Span },
    /// A garbled piece: its place, its length, and the rule that it breaks. It ends before the next
    /// `8=FIX`.
    Garbled { at: u64, len: u64, cause: Garble },
    /// Each piece that has come whole was answered.
    More,
}

/// How a stream ends if nothing follows. Places and lengths are in bytes; one that would pass 2^64
/// - 1 is given as 2^64 - 1.
#[derive(Clone, Copy, Debug, PartialEq, Eq)]
pub enum Rest {
    /// After a whole piece.
    Clean,
    /// Inside a frame: where that begins, and how many bytes of it came.
    Inside { at: u64, len: u32 },
    /// Inside a garbled piece: where that begins, how many bytes of it came, and the rule that it
    /// breaks.
    Garbled { at: u64, len: u64, cause: Garble },
}

/// A garbled piece whose end has not come: its place, the rule that it breaks, and how many bytes
/// of its front were dropped.
#[derive(Clone, Copy, Debug, PartialEq, Eq)]
pub(crate) struct Lost {
    pub(crate) at: u64,
    pub(crate) cause: Garble,
    pub(crate) dropped: u64,
}
