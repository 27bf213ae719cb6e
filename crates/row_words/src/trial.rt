//! How rows are tried.

use crate::rows::{Row, row_of};
use crate::texts::{Sign, bytes_of, shown};
use std::alloc::{AllocError, Global};
use std::io;

/// What answers the calls of rows, one after another.
pub trait Answers {
    /// The bytes of the answer to a call, of which this text is given.
    ///
    /// # Errors
    ///
    /// `AllocError` for want of memory.
    fn answer(&mut self, alloc: Global, call: &str, given: &str) -> Result<Vec<u8>, AllocError>;

    /// What the bytes of the answer that is expected stand for.
    fn signs(&self) -> &'static [Sign];
}

/// The answer to a row, where it is another than what is expected.
fn another<A: Answers>(
    alloc: Global,
    answers: &mut A,
    row: &Row<'_>,
) -> Result<Option<String>, AllocError> {
    let answer = answers.answer(alloc, row.call, row.given)?;
    if answer == bytes_of(alloc, answers.signs(), row.expected)? {
        return Ok(None);
    }
    Ok(Some(shown(alloc, &answer)?))
}

/// Tries the rows of standard input. Prints each whose answer is not what is expected, with the
/// answer, and at the end how many rows there were, and how many of them differ.
///
/// # Errors
///
/// Those of the reads and writes, and want of memory.
pub fn try_rows<A: Answers>(rt: &HostRuntime, answers: &mut A) -> io::Result<()> {
    let mut rows: u64 = 0;
    let mut differ: u64 = 0;
    for line in rt.lines(rt.alloc()) {
        let line = line?;
        if let Some(row) = row_of(line.as_str()) {
            rows = rows.saturating_add(1);
            if let Some(answer) = another(rt.alloc(), answers, &row)? {
                differ = differ.saturating_add(1);
                println!(rt; "{line}\n    is {answer}")?;
            }
        }
    }
    println!(rt; "{rows} rows, {differ} differ")
}
