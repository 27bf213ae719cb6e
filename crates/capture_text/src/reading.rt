//! How a capture is read.

ghost use Rattle.std.specs.Prelude.{◌≡◌, ◌∷◌, IfOk, IfErr};
ghost use Rattle.capture_text.specs.declared.reading.CaptureFault.TheVariants as faults;
ghost use Rattle.capture_text.specs.Capture.{title};
ghost use Rattle.capture_text.specs.Header.{Faults};
ghost use Rattle.capture_text.specs.Life.{LivesSay};
ghost use Rattle.capture_text.specs.Reading.{parts, Reads};

use crate::header::{TITLE, read_names};
use crate::life::read_life;
use crate::lines::{next_number, split_line};
use crate::{Capture, Lives};
use std::alloc::{AllocError, Global};
use thiserror::Error;

/// Why a text was not read as a capture.
#[derive(Clone, Copy, Debug, Error, PartialEq, Eq)]
pub enum CaptureFault {
    /// The number of the first line outside the grammar, from 1 on; it stays at 2^32 - 1.
    #[error("capture line {0}")]
    Line(u32),
    /// Want of memory, which says nothing of the text.
    #[error("out of memory")]
    NoMemory,
}

impl From<AllocError> for CaptureFault {
    ghost from_gives = { λ _ e. e ≡ faults.NoMemory };

    fn from(_e: AllocError) -> CaptureFault {
        CaptureFault::NoMemory
    }
}

/// The second line, behind the title, and what stands behind it.
#[tactic(auto, using(crate::proofs::Whole::title_lines))]
fn read_title(text: &[u8]) -> Result<(&[u8], &[u8]), CaptureFault>
    ensures ok { IfOk result (λ cut.
        parts text.now ≡ title ∷ cut.0.now ∷ parts cut.1.now) }
    ensures err { IfErr result (Faults text.now) }
{
    let Some((line, behind)) = split_line(text) else {
        return Err(CaptureFault::Line(1));
    };
    if line != TITLE {
        return Err(CaptureFault::Line(1));
    }
    match split_line(behind) {
        Some(cut) => Ok(cut),
        None => Err(CaptureFault::Line(2)),
    }
}

/// The lives behind the first two lines.
#[tactic(auto, using(crate::proofs::Steps::all_lives_pass))]
fn read_lives(alloc: Global, text: &[u8]) -> Result<Lives, CaptureFault>
    ensures { LivesSay text.now result }
{
    let mut lives = Lives::new(alloc);
    let mut rest = text;
    let mut number = 2;
    loop {
        let Some((line, after)) = split_line(rest) else {
            break;
        };
        number = next_number(number);
        if line != b"life".as_slice() {
            return Err(CaptureFault::Line(number));
        }
        let (life, behind, last) = read_life(alloc, after, number)?;
        lives.push(life)?;
        rest = behind;
        number = last;
    }
    if !rest.is_empty() || lives.as_slice().is_empty() {
        return Err(CaptureFault::Line(next_number(number)));
    }
    Ok(lives)
}

/// Reads a capture: the line `fixgate capture 1`; `names A B C D H` with the four CompIDs, each of
/// 1 to 35 bytes from 33 to 126, and HeartBtInt(108) of 0 to 3,600 seconds, or `names A B C D H M`
/// with the minute of the UTC day besides, from 0 to 1,439, at which a session day begins; and at
/// least one life, which is a line `life`, a line for each [`Event`](crate::Event) and a line
/// `end`. LF ends each line. A stop stands first in its life. Bytes may come of a side that is
/// open, and a side closes where it is open and opens where it is not. Numbers have no zero in
/// front.
///
/// # Errors
/// `Line` exactly where this is the first line with which no capture goes on; a text that ends too
/// early has it behind its last line. `NoMemory` for want of memory.
#[tactic(auto, using(crate::proofs::Whole::whole_text))]
pub fn read_capture(alloc: Global, text: &[u8]) -> Result<Capture, CaptureFault>
    ensures { Reads text.now result }
{
    let (line, rest) = read_title(text)?;
    let Some((names, heart, reset)) = read_names(line) else {
        return Err(CaptureFault::Line(2));
    };
    let lives = read_lives(alloc, rest)?;
    Ok(Capture {
        names,
        heart,
        reset,
        lives,
    })
}
