//! The lines of the input.

ghost use Rattle.std.specs.Prelude.{◌≡◌, is_none};
ghost use Rattle.row_words.specs.Words.{is_passed};

use crate::words::first_word;

/// A call, what it is given, and what it must answer.
#[derive(Clone, Copy, Debug, PartialEq, Eq)]
pub struct Row<'a> {
    /// The name of the call.
    pub call: &'a str,
    /// What it is given; nothing where only a call stands there.
    pub given: &'a str,
    /// What it must answer; nothing where no ` = ` stands there.
    pub expected: &'a str,
}

/// The parts of a line: its name behind the first ` # ` is passed over, what must be answered stands
/// behind the first ` = `, and what is given behind the first space.
fn parts_of(line: &str) -> Row<'_> {
    let (row, _) = line.split_once(" # ").unwrap_or((line, ""));
    let (asked, expected) = row.split_once(" = ").unwrap_or((row, ""));
    let (call, given) = first_word(asked);
    Row {
        call,
        given,
        expected,
    }
}

/// The row of a line; none exactly where the line is empty or begins with `#`.
pub fn row_of(line: &str) -> Option<Row<'_>>
    ensures { is_none result ≡ is_passed line.now }
{
    match line.as_bytes() {
        [] => None,
        [b'#', ..] => None,
        _ => Some(parts_of(line)),
    }
}
