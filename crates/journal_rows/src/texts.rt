//! What the texts of rows stand for, and how answers are told.

use row_words::{SOH, Sign, long_number};
use std::alloc::{AllocError, Global};
use std::fmt::Debug;

/// In what is expected `|` stands for SOH, `!` for `|`, `~` for a new line, `%` for the last day of
/// a journal of names alone, `^` for that of one order, and `$` for the day that begins behind it.
pub(crate) const SIGNS: [Sign; 6] = [
    SOH,
    (b'!', b"|"),
    (b'~', b"\n"),
    (b'%', b"(0, (1, 1, 1, 1), None, None)"),
    (b'^', b"(1, (2, 1, 1, 2), Some(258), Some((2, 68)))"),
    (b'$', b"(2, (1, 1, 1, 1), Some(86400000), None)"),
];

/// Appends a value as it is shown to a programmer.
pub(crate) fn tell<T: Debug>(text: &mut String, value: &T) -> Result<(), AllocError> {
    write!(text, "{value:?}")
}

/// A value as it is shown to a programmer.
pub(crate) fn told<T: Debug>(alloc: Global, value: &T) -> Result<String, AllocError> {
    format!(in alloc; "{value:?}")
}

/// The numbers of a word, with `,` between two.
pub(crate) fn numbers(alloc: Global, word: &str) -> Result<Vec<u64>, AllocError> {
    let mut numbers = Vec::new(alloc);
    for digits in word.split(',') {
        if let Some(number) = long_number(digits) {
            numbers.push(number)?;
        }
    }
    Ok(numbers)
}
