//! The words of frames: kinds, parts, the rules of a frame, and why one is not written.

use thiserror::Error;

/// The greatest length of a body, in bytes.
pub const MAX_BODY: usize = 8192;

/// The least length of a body, in bytes: `35=`, a type of one byte, SOH.
pub const MIN_BODY: usize = 5;

/// The greatest number of digits of BodyLength(9).
pub const MAX_LENGTH_DIGITS: usize = 7;

/// The byte that ends each field.
pub const SOH: u8 = 1;

/// The version that BeginString(8) names: which frames a side of the gateway sends and takes.
#[derive(Clone, Copy, Debug, PartialEq, Eq)]
pub enum Kind {
    /// `8=FIX.4.2`, the client's.
    Fix42,
    /// `8=FIX.4.4`, that of a stream of a client that speaks FIX 4.4.
    Fix44,
    /// `8=FIXT.1.1`, the venue's.
    Fixt11,
}

/// A part of a slice of bytes: where it starts, and how many bytes it has.
#[derive(Clone, Copy, Debug, PartialEq, Eq)]
pub struct Span {
    pub start: usize,
    pub len: usize,
}

/// The rule that a garbled piece breaks ("Data Integrity" of FIX 4.2 and FIXT 1.1), the earliest
/// where one byte breaks two.
#[derive(Clone, Copy, Debug, PartialEq, Eq)]
pub enum Garble {
    /// It begins with `8=`, the BeginString of its kind and SOH.
    BeginString,
    /// Then come `9=`, one to seven digits and SOH.
    LengthField,
    /// BodyLength(9), which is given, is at most 8,192.
    TooLong(u32),
    /// The body begins with `35=`, a type of at least one byte and SOH, and has at least five
    /// bytes.
    TypeField,
    /// The body's last byte is SOH, and then come `10=`, three digits and SOH.
    Trailer,
    /// The digits of CheckSum(10) are those of the sum of all bytes before it, modulo 256.
    Sum,
}

/// Why a frame was not written.
#[derive(Clone, Copy, Debug, PartialEq, Eq, Error)]
pub enum FrameError {
    /// The body has more than 8,192 bytes.
    #[error("the body has more than 8,192 bytes")]
    TooLong,
    /// There is no memory for the frame.
    #[error("out of memory")]
    NoMemory,
}
