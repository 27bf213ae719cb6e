//! What is given, and how answers are told.

use row_words::number;
use std::alloc::AllocError;
use std::fmt::Debug;

/// What stands before the first space, and what behind it.
pub(crate) fn halves(given: &[u8]) -> Option<(&str, &[u8])> {
    let (front, rest) = std::str::from_utf8(given).ok()?.split_once(' ')?;
    Some((front, rest.as_bytes()))
}

/// The number of digits.
pub(crate) fn u32_in(digits: &[u8]) -> Option<u32> {
    std::str::from_utf8(digits).ok()?.parse::<u32>().ok()
}

/// The number of the digits before the first space, and what stands behind that.
pub(crate) fn numbered(given: &[u8]) -> Option<(u32, &[u8])> {
    let (digits, rest) = halves(given)?;
    Some((number(digits)?, rest))
}

/// Appends a value as it is shown to a programmer.
pub(crate) fn tell<T: Debug>(out: &mut String, value: &T) -> Result<(), AllocError> {
    write!(out, "{value:?}")
}
