//! The lines, as they are appended to a text.

ghost use Rattle.std.specs.Prelude.{◌≡◌, ◌∷◌, ◌++◌, [], codes, decimal, IfOk, OnOk};
ghost use Rattle.replay_lines.specs.CallLog.{opened_by, shown_byte, opened_in, shown};
ghost use Rattle.replay_lines.specs.ReplayLines.{printed, piece_line, numbered};
ghost use Rattle.replay_lines.specs.ReplayLines.{end_line, four_numbered};
ghost use Rattle.replay_lines.specs.ReplayLines.{last_lines, drill_line, drill_lines};

use crate::PlayedDrill;
use itoa::Buffer;
use std::alloc::AllocError;

/// The byte that ends a field.
pub(crate) const SOH: u8 = 1;

/// The byte that stands for it.
fn printed(byte: u8) -> u8
    ensures { result ≡ printed byte }
{
    if byte == SOH { b'|' } else { byte }
}

/// Appends the line of a piece.
#[tactic(auto, using(crate::proofs::OneMore::byte_more))]
pub(crate) fn append_piece(piece: &[u8], text: &mut Vec<u8>) -> Result<(), AllocError>
    ensures { OnOk result (text.new.items ≡ text.old.items ++ piece_line piece.now) }
{
    text.extend_from_slice(b"> ")?;
    for byte in piece {
        text.push(printed(*byte))?;
    }
    text.push(b'\n')?;
    Ok(())
}

/// Appends a number in decimal digits.
fn append_number(number: u64, text: &mut Vec<u8>) -> Result<(), AllocError>
    ensures { OnOk result (text.new.items ≡ text.old.items ++ decimal number) }
{
    text.extend_from_slice(Buffer::new().format(number).as_bytes())
}

/// Appends a line of a word and a number.
pub(crate) fn append_numbered(
    word: &[u8],
    number: u64,
    text: &mut Vec<u8>,
) -> Result<(), AllocError>
    ensures { OnOk result (text.new.items ≡ text.old.items ++ numbered word.now number) }
{
    text.extend_from_slice(word)?;
    text.push(b' ')?;
    append_number(number, text)?;
    text.push(b'\n')?;
    Ok(())
}

/// Appends a byte that is kept, behind so many connections, as it is shown: SOH as the line of the
/// next one, and another byte as itself where there is one. Answers how many there are then.
fn append_byte(
    side: &[u8],
    connections: u64,
    byte: u8,
    text: &mut Vec<u8>,
) -> Result<u64, AllocError>
    ensures count { IfOk result (λ n. n ≡ opened_by connections byte) }
    ensures text { OnOk result (text.new.items ≡
        text.old.items ++ shown_byte side.now connections byte) }
{
    if byte == SOH {
        let next = connections.checked_add(1).ok_or(AllocError)?;
        append_numbered(side, next, text)?;
        return Ok(next);
    }
    if connections > 0 {
        text.push(byte)?;
    }
    Ok(connections)
}

/// Appends what is kept of calls, behind so many connections, as it is shown. Answers how many
/// there are then.
pub(crate) fn append_shown(
    side: &[u8],
    connections: u64,
    kept: &[u8],
    text: &mut Vec<u8>,
) -> Result<u64, AllocError>
    ensures count { IfOk result (λ n. n ≡ opened_in connections kept.now) }
    ensures text { OnOk result (text.new.items ≡
        text.old.items ++ shown side.now connections kept.now) }
{
    let mut connections = connections;
    for byte in kept {
        connections = append_byte(side, connections, *byte, text)?;
    }
    Ok(connections)
}

/// Appends the line of an end.
pub(crate) fn append_end(end: &[u8], text: &mut Vec<u8>) -> Result<(), AllocError>
    ensures { OnOk result (text.new.items ≡ text.old.items ++ end_line end.now) }
{
    text.extend_from_slice(b"end ")?;
    text.extend_from_slice(end)?;
    text.push(b'\n')?;
    Ok(())
}

/// Appends a number and a byte behind it.
fn append_before(number: u32, byte: u8, text: &mut Vec<u8>) -> Result<(), AllocError>
    ensures { OnOk result (text.new.items ≡ text.old.items ++ (decimal number ++ byte ∷ [])) }
{
    append_number(u64::from(number), text)?;
    text.push(byte)?;
    Ok(())
}

/// Appends a line of a word and four numbers.
fn append_four(
    word: &[u8],
    numbers: (u32, u32, u32, u32),
    text: &mut Vec<u8>,
) -> Result<(), AllocError>
    ensures { OnOk result (text.new.items ≡ text.old.items ++ four_numbered word.now numbers) }
{
    text.extend_from_slice(word)?;
    text.push(b' ')?;
    append_before(numbers.0, b' ', text)?;
    append_before(numbers.1, b' ', text)?;
    append_before(numbers.2, b' ', text)?;
    append_before(numbers.3, b'\n', text)
}

/// Appends the last lines.
pub(crate) fn append_last(
    entries: u64,
    next: (u32, u32, u32, u32),
    text: &mut Vec<u8>,
) -> Result<(), AllocError>
    ensures { OnOk result (text.new.items ≡ text.old.items ++ last_lines entries next) }
{
    append_numbered(b"entries", entries, text)?;
    append_four(b"next", next, text)
}

/// Appends the line of the two numbers of a drill.
fn append_drill(first: u64, count: u32, text: &mut Vec<u8>) -> Result<(), AllocError>
    ensures { OnOk result (text.new.items ≡ text.old.items ++ drill_line first count) }
{
    text.extend_from_slice(b"drill ")?;
    append_number(first, text)?;
    text.push(b' ')?;
    append_before(count, b'\n', text)
}

/// Appends the lines of a drill.
pub(crate) fn append_summary(drill: &PlayedDrill<'_>, text: &mut Vec<u8>) -> Result<(), AllocError>
    ensures { OnOk result (text.new.items ≡ text.old.items
        ++ drill_lines drill.now.first drill.now.count drill.now.kinds drill.now.end.now
        drill.now.entries drill.now.next) }
{
    append_drill(drill.first, drill.count, text)?;
    append_four(b"kinds", drill.kinds, text)?;
    append_end(drill.end, text)?;
    append_last(drill.entries, drill.next, text)
}
