//! Journals, as their bytes. An entry is written `moment took number out number type flags` with
//! the next numbers after it, which are four, and the body that it took, where `-` says that it
//! took or gave out nothing. An out has no content here.

use order_meaning::{Name, Names};
use outside::MemDisk;
use row_words::{SOH, behind, bytes_of, number, word};
use std::alloc::{AllocError, Global};

/// The names of the journal: our own to the client, the client's, our own to the venue, the
/// venue's.
const NAMES: [&[u8]; 4] = [b"GATE", b"CLNT", b"GATE", b"VENU"];

/// The same, as names.
pub(crate) fn names() -> Option<Names> {
    Some(Names {
        client_our: Name::new(b"GATE")?,
        client_peer: Name::new(b"CLNT")?,
        venue_our: Name::new(b"GATE")?,
        venue_peer: Name::new(b"VENU")?,
    })
}

// What stands in place of a side in the entry with which a day begins.
const NEW_DAY: u8 = 3;

// Appends a number, its highest byte first.
fn put_number(out: &mut Vec<u8>, number: u32) -> Result<(), AllocError> {
    out.extend_from_slice(&number.to_be_bytes())
}

// Appends the number of a word.
fn put_number_word(out: &mut Vec<u8>, word: &str) -> Result<(), AllocError> {
    put_number(out, number(word).unwrap_or(0))
}

// The byte of a side in a journal; 0 where there is none.
fn side_byte(word: &str) -> u8 {
    match word {
        "Client" => 1,
        "Venue" => 2,
        _ => 0,
    }
}

// Appends bytes behind their length.
fn put_counted(out: &mut Vec<u8>, bytes: &[u8]) -> Result<(), AllocError> {
    let [_, _, _, _, a, b, c, d] = (bytes.len() as u64).to_be_bytes();
    out.extend_from_slice(&[a, b, c, d])?;
    out.extend_from_slice(bytes)
}

// Appends a record of a journal.
fn put_record(image: &mut Vec<u8>, payload: &[u8]) -> Result<(), AllocError> {
    image.push(1)?;
    put_counted(image, payload)
}

// Appends what an entry took.
fn put_took(alloc: Global, payload: &mut Vec<u8>, text: &str) -> Result<(), AllocError> {
    let side = side_byte(word(text, 1));
    payload.push(side)?;
    if side == 0 {
        return Ok(());
    }
    let body = bytes_of(alloc, &[SOH], behind(text, 11))?;
    put_number_word(payload, word(text, 2))?;
    put_counted(payload, &body)
}

// Appends what an entry gave out.
fn put_out(payload: &mut Vec<u8>, text: &str) -> Result<(), AllocError> {
    let side = side_byte(word(text, 3));
    if side == 0 {
        payload.push(0)?;
        return Ok(());
    }
    payload.extend_from_slice(&[1, side])?;
    put_number_word(payload, word(text, 4))?;
    payload.push(word(text, 6).parse::<u8>().unwrap_or(0))?;
    payload.push(1)?;
    payload.extend_from_slice(word(text, 5).as_bytes())?;
    put_counted(payload, b"")
}

// The payload of an entry up to its moment: the number of its day, and the moment.
fn begun(alloc: Global, day: u32, text: &str) -> Result<Vec<u8>, AllocError> {
    let mut payload = Vec::new(alloc);
    put_number(&mut payload, day)?;
    let moment = word(text, 0).parse::<u64>().unwrap_or(0);
    payload.extend_from_slice(&moment.to_be_bytes())?;
    Ok(payload)
}

/// Appends the record of an entry on a day.
pub(crate) fn put_entry(
    alloc: Global,
    image: &mut Vec<u8>,
    day: u32,
    text: &str,
) -> Result<(), AllocError> {
    let mut payload = begun(alloc, day, text)?;
    put_took(alloc, &mut payload, text)?;
    for place in 7..11 {
        put_number_word(&mut payload, word(text, place))?;
    }
    put_out(&mut payload, text)?;
    put_record(image, &payload)
}

/// Appends the record with which a day begins, at the moment of the text.
pub(crate) fn put_new_day(
    alloc: Global,
    image: &mut Vec<u8>,
    day: u32,
    text: &str,
) -> Result<(), AllocError> {
    let mut payload = begun(alloc, day, text)?;
    payload.push(NEW_DAY)?;
    for _ in 0..4 {
        put_number(&mut payload, 1)?;
    }
    payload.push(0)?;
    put_record(image, &payload)
}

/// Appends the record with the names.
pub(crate) fn put_birth(alloc: Global, image: &mut Vec<u8>) -> Result<(), AllocError> {
    let mut birth = Vec::from_slice(alloc, b"FIXGATEWAY2")?;
    for name in &NAMES {
        birth.push(4)?;
        birth.extend_from_slice(name)?;
        birth.extend_from_slice(&[0; 31])?;
    }
    put_record(image, &birth)
}

/// A disk with the journal of these records.
pub(crate) fn disk_of(alloc: Global, image: &[u8]) -> Result<MemDisk, AllocError> {
    let mut content = Vec::from_slice(alloc, image)?;
    content.push(0)?;
    Ok(MemDisk::new(alloc, content, Vec::new(alloc)))
}
