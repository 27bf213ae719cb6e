//! What the programs of rows have alike: rows, their words and their texts, and how they are tried.
//!
//! A row is a line of the input, `call given = expected`, with its name behind ` # `. An empty line
//! says nothing, nor does one that begins with `#`.
#![tactic(auto)]

mod rows;
mod texts;
mod trial;
mod words;

pub use rows::{Row, row_of};
pub use texts::{SOH, Sign, bytes_of, put, show, shown};
pub use trial::{Answers, try_rows};
pub use words::{behind, first_word, long_number, number, number_behind, side_of, word};
