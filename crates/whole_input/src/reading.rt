//! How an input is read, some bytes at a time.

ghost use Rattle.std.specs.Prelude.{◌≡◌, ◌≢◌, ◌≤◌, ◌==◌, false, true, List, ℕ, take, length};
ghost use Rattle.std.specs.Prelude.{IfOk, OnOk, OnErr, Err};
ghost use Rattle.std.specs.Io.KnownBytes.{Consumes, Keeps, IsAtEnd};
ghost use Rattle.outside.specs.Causes.{HasCause, Rose};
ghost use Rattle.whole_input.specs.declared.reading.InputError.TheVariants as errors;
ghost use Rattle.whole_input.specs.Input.{IsWhole};

use outside::{Failed, Source};
use std::alloc::{AllocError, Global};
use thiserror::Error;

/// The most bytes that an input may have.
pub const MAX_INPUT: usize = 67_108_864;

/// The most bytes that are read at a time.
pub const MAX_READ: usize = 4096;

/// Why an input was not read whole.
#[derive(Clone, Copy, Debug, Error, PartialEq, Eq)]
pub enum InputError {
    /// A read failed, and the source's count of faults says so too.
    #[error("input fault")]
    Fault,
    /// It has more than 67,108,864 bytes.
    #[error("input too long")]
    TooLong,
    /// Memory was refused.
    #[error("out of memory")]
    NoMemory,
}

impl From<AllocError> for InputError {
    ghost from_gives = { λ _ e. e ≡ errors.NoMemory };

    fn from(_e: AllocError) -> InputError {
        InputError::NoMemory
    }
}

/// Reads at most so many bytes into the front of a buffer, and answers how many; 0 at the end.
///
/// # Errors
/// `Failed` only where the source's count of faults rose. Then nothing was taken.
pub fn read_some<I: Source>(input: &mut I, buf: &mut [u8], most: usize) -> Result<usize, Failed>
    requires some { 1 ≤ most }
    requires within { most ≤ length buf.old }
    requires going { I.ended input.old ≡ false }
    ensures bound { IfOk result (λ count. count ≤ most) }
    ensures bytes { IfOk result (λ count. Consumes (I.left input.old) (I.left input.new)
        (take count buf.new)) }
    ensures end { IfOk result (λ count. count ≡ 0 → IsAtEnd (I.left input.new)) }
    ensures ended { IfOk result (λ count. I.ended input.new ≡ (count == 0)) }
    ensures err { OnErr result (Keeps (I.left input.old) (I.left input.new)) }
    ensures cause { HasCause (I.faults input.old) (I.faults input.new) result }
{
    input.read(&mut buf[..most])
}

/// Reads an input, which has not told its end, to that end. No read follows it.
///
/// # Errors
/// `TooLong` exactly where more than 67,108,864 bytes came, of which one too many was taken;
/// `Fault` only where the source's count of faults rose; `NoMemory` for want of memory.
pub fn read_whole<I: Source>(alloc: Global, input: &mut I) -> Result<Vec<u8>, InputError>
    requires { I.ended input.old ≡ false }
    ensures read { (taken : List ℕ) × Consumes (I.left input.old) (I.left input.new) taken
        × IsWhole (λ bytes. bytes.items) taken (I.left input.new) result }
    ensures ended { OnOk result (I.ended input.new ≡ true) }
    ensures fault { result ≡ Err errors.Fault → Rose (I.faults input.old) (I.faults input.new) }
    ensures still { result ≢ Err errors.Fault → I.faults input.new ≡ I.faults input.old }
{
    let mut bytes = Vec::new(alloc);
    let mut buf = [0u8; MAX_READ];
    loop {
        let room = MAX_INPUT - bytes.len();
        match read_some(input, &mut buf, room.clamp(1, MAX_READ)) {
            Ok(0) => return Ok(bytes),
            Ok(count) if count > room => return Err(InputError::TooLong),
            Ok(count) => bytes.extend_from_slice(&buf[..count])?,
            Err(Failed) => return Err(InputError::Fault),
        }
    }
}
