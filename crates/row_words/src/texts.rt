//! Texts of rows as bytes.

ghost use Rattle.std.specs.Prelude.{◌≡◌, ◌++◌, IfOk, OnOk};
ghost use Rattle.std.specs.String.{string_bytes};
ghost use Rattle.row_words.specs.Texts.{meaning, meant, shown, IsPlain};

use crate::words::number;
use std::alloc::{AllocError, Global};

/// A byte of a text, and the bytes that it stands for.
pub type Sign = (u8, &'static [u8]);

/// `|` stands for SOH.
pub const SOH: Sign = (b'|', b"\x01");

/// Appends what a byte stands for: what its first sign says, or the byte itself.
fn put_byte(out: &mut Vec<u8>, signs: &[Sign], byte: u8) -> Result<(), AllocError>
    ensures { OnOk result (out.new.items ≡ out.old.items ++ meaning signs.now byte) }
{
    match signs {
        [] => Ok(out.push(byte)?),
        [(sign, bytes), rest @ ..] => if *sign == byte {
            out.extend_from_slice(bytes)
        } else {
            put_byte(out, rest, byte)
        },
    }
}

/// Appends what the bytes of a text stand for.
///
/// # Errors
///
/// `AllocError` for want of memory, and some of the text is appended.
#[tactic(auto, using(crate::proofs::OneMore::one_more))]
pub fn put(out: &mut Vec<u8>, signs: &[Sign], text: &str) -> Result<(), AllocError>
    ensures { OnOk result (out.new.items ≡ out.old.items ++ meant signs.now text.now) }
{
    for byte in text.as_bytes() {
        put_byte(out, signs, *byte)?;
    }
    Ok(())
}

/// Appends bytes so many times.
fn put_times(out: &mut Vec<u8>, bytes: &[u8], times: u32) -> Result<(), AllocError> {
    for _ in 0..times {
        out.extend_from_slice(bytes)?;
    }
    Ok(())
}

/// Appends what stands behind a `<`: a text, `*`, how often it is to stand there, `>` and the rest.
fn put_run(alloc: Global, out: &mut Vec<u8>, signs: &[Sign], part: &str) -> Result<(), AllocError> {
    let (run, rest) = part.split_once('>').unwrap_or((part, ""));
    let (text, times) = run.split_once('*').unwrap_or((run, ""));
    let mut bytes = Vec::new(alloc);
    put(&mut bytes, signs, text)?;
    put_times(out, &bytes, number(times).unwrap_or(0))?;
    put(out, signs, rest)
}

/// The bytes of a text by these signs, where `<x*3>` stands for `xxx`. What is proved of it is what a
/// text without `<` stands for.
///
/// # Errors
///
/// `AllocError` for want of memory.
#[tactic(auto, using(crate::proofs::Split::cut))]
pub fn bytes_of(alloc: Global, signs: &[Sign], text: &str) -> Result<Vec<u8>, AllocError>
    ensures { IsPlain text.now → IfOk result (λ bytes. bytes.items ≡ meant signs.now text.now) }
{
    let mut bytes = Vec::new(alloc);
    match text.split_once('<') {
        None => put(&mut bytes, signs, text)?,
        Some((plain, runs)) => {
            put(&mut bytes, signs, plain)?;
            for run in runs.split('<') {
                put_run(alloc, &mut bytes, signs, run)?;
            }
        }
    }
    Ok(bytes)
}

/// Appends bytes to a text, with `|` for SOH.
///
/// # Errors
///
/// `AllocError` for want of memory, and some of the bytes are appended.
#[tactic(auto, using(crate::proofs::OneMore::one_more))]
pub fn show(text: &mut String, bytes: &[u8]) -> Result<(), AllocError>
    ensures { OnOk result (string_bytes text.new ≡ string_bytes text.old ++ shown bytes.now) }
{
    for byte in bytes {
        text.push(if *byte == 1 { '|' } else { char::from(*byte) })?;
    }
    Ok(())
}

/// Bytes as a text, with `|` for SOH.
///
/// # Errors
///
/// `AllocError` for want of memory.
pub fn shown(alloc: Global, bytes: &[u8]) -> Result<String, AllocError>
    ensures { IfOk result (λ text. string_bytes text ≡ shown bytes.now) }
{
    let mut text = String::new(alloc);
    show(&mut text, bytes)?;
    Ok(text)
}
