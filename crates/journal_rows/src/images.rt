//! Bytes of rows: words, each a byte, a text behind `'`, or the name of bytes of a row before, and
//! `*3` behind what stands three times.

use row_words::{SOH, behind, number, put, word};
use std::alloc::{AllocError, Global};

/// Bytes of a name.
#[derive(Drop)]
pub(crate) struct Piece {
    name: String,
    bytes: Vec<u8>,
}

impl Piece {
    /// The bytes of the words behind a name.
    pub(crate) fn new(alloc: Global, pieces: &[Piece], given: &str) -> Result<Piece, AllocError> {
        let name = String::from_str(alloc, word(given, 0))?;
        let bytes = bytes_of(alloc, pieces, behind(given, 1))?;
        Ok(Piece { name, bytes })
    }
}

// Appends the bytes of a name.
fn put_piece(out: &mut Vec<u8>, pieces: &[Piece], name: &str) -> Result<(), AllocError> {
    for piece in pieces {
        if piece.name.as_str() == name {
            out.extend_from_slice(&piece.bytes)?;
        }
    }
    Ok(())
}

// Appends what stands once.
fn put_item(out: &mut Vec<u8>, pieces: &[Piece], item: &str) -> Result<(), AllocError> {
    if let Some(text) = item.strip_prefix("'") {
        return put(out, &[SOH], text);
    }
    match item.parse::<u8>() {
        Ok(byte) => Ok(out.push(byte)?),
        Err(_) => put_piece(out, pieces, item),
    }
}

// Appends what a word stands for.
fn put_word(out: &mut Vec<u8>, pieces: &[Piece], word: &str) -> Result<(), AllocError> {
    let (item, times) = word.split_once('*').unwrap_or((word, "1"));
    for _ in 0..number(times).unwrap_or(0) {
        put_item(out, pieces, item)?;
    }
    Ok(())
}

/// The bytes of words.
pub(crate) fn bytes_of(alloc: Global, pieces: &[Piece], text: &str) -> Result<Vec<u8>, AllocError> {
    let mut bytes = Vec::new(alloc);
    for word in text.split(' ') {
        put_word(&mut bytes, pieces, word)?;
    }
    Ok(bytes)
}
