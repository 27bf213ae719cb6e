//! Copies of texts.

ghost use Rattle.std.specs.Prelude.{◌≡◌, map, IfOk};
ghost use Rattle.std.specs.Option.{option_map};

use order_meaning::Bytes;
use std::alloc::{AllocError, Global};

/// A text of its own.
///
/// # Errors
///
/// `AllocError` for want of memory.
pub fn owned(alloc: Global, text: Option<&[u8]>) -> Result<Option<Bytes>, AllocError>
    ensures { IfOk result (λ copy. copy ≡ option_map (λ text. text.now) text.entry) }
{
    match text {
        None => Ok(None),
        Some(bytes) => Ok(Some(Bytes::copy(alloc, bytes)?)),
    }
}

/// The most texts that a message has.
pub const TEXTS: usize = 13;

/// The texts of a message as texts of their own, in one step.
///
/// # Errors
///
/// `AllocError` for want of memory.
pub fn all_owned(
    alloc: Global,
    texts: [Option<&[u8]>; TEXTS],
) -> Result<[Option<Bytes>; TEXTS], AllocError>
    ensures { IfOk result (λ copies. copies ≡ map (option_map (λ text. text.now)) texts.entry) }
{
    texts.try_map(|text| owned(alloc, text))
}

/// The bytes of a text, if there is one.
pub fn bytes_of(text: &Option<Bytes>) -> Option<&[u8]>
    ensures { option_map (λ bytes. bytes.now) result ≡ text.now }
{
    match text {
        None => None,
        Some(text) => Some(text.as_slice()),
    }
}
