//! Refusals: those that are checked, and what is said of a message that is refused.

use crate::wires::wire;
use crate::words::{answered, fault_of, fault_words, found_words};
use field_groups::{Split, split};
use order_meaning::Side::{self, Client, Venue};
use order_meaning::{Fault, Refusal};
use reject_rules::{Said, away, refusal, renumber, used};
use report_translate::check_refusal;
use row_words::{first_word, number, side_of};
use std::alloc::{AllocError, Global};

/// What a check of a refusal of a side finds.
pub(crate) fn check(alloc: Global, given: &str) -> Result<Vec<u8>, AllocError> {
    let (side, text) = first_word(given);
    let body = wire(alloc, text)?;
    let found = check_refusal(alloc, side_of(side).unwrap_or(Client), &body);
    found_words(alloc, &found)
}

/// A message that is said, as its type, a space and its content; `+` before it where gap fills
/// stand for it.
fn shown_said(alloc: Global, said: &Said) -> Result<Vec<u8>, AllocError> {
    let mut line = Vec::new(alloc);
    if said.admin {
        line.push(b'+')?;
    }
    line.extend_from_slice(said.msg_type.as_slice())?;
    line.push(b' ')?;
    line.extend_from_slice(said.content.as_slice())?;
    Ok(line)
}

/// What is said, or that there was no memory.
fn said_or_none(alloc: Global, said: &Result<Said, AllocError>) -> Result<Vec<u8>, AllocError> {
    match said {
        Ok(said) => shown_said(alloc, said),
        Err(_) => answered(alloc, "out of memory"),
    }
}

/// What is said to a side of a fault of its message 2 of a type.
pub(crate) fn of_fault(alloc: Global, given: &str) -> Result<Vec<u8>, AllocError> {
    let (side, rest) = first_word(given);
    let (msg_type, words) = first_word(rest);
    let fault = fault_of(words);
    let said = refusal(
        alloc,
        side_of(side).unwrap_or(Client),
        2,
        msg_type.as_bytes(),
        &fault,
    );
    said_or_none(alloc, &said)
}

/// What is said of a request of a number and a type whose id was used before.
pub(crate) fn of_used(alloc: Global, given: &str) -> Result<Vec<u8>, AllocError> {
    let (word, msg_type) = first_word(given);
    let said = used(alloc, number(word).unwrap_or(0), msg_type.as_bytes());
    said_or_none(alloc, &said)
}

/// What is said of a request of a number and a type while the venue is away.
pub(crate) fn of_away(alloc: Global, given: &str) -> Result<Vec<u8>, AllocError> {
    let (word, msg_type) = first_word(given);
    let said = away(alloc, number(word).unwrap_or(0), msg_type.as_bytes());
    said_or_none(alloc, &said)
}

/// A refusal of the other side than the one that is told, by the table of its version.
fn read_other(
    alloc: Global,
    told: Side,
    business: bool,
    split: &Split<'_>,
) -> Result<Refusal, Fault> {
    match (told, business) {
        (Client, false) => reports_fix50::read_session_reject(alloc, split),
        (Client, true) => reports_fix50::read_business_reject(alloc, split),
        (Venue, false) => reports_fix42::read_session_reject(alloc, split),
        (Venue, true) => reports_fix42::read_business_reject(alloc, split),
    }
}

/// What is said to a side of its message 2 of a type, which the other side refused by a message of
/// a type and a content.
pub(crate) fn of_other(alloc: Global, given: &str) -> Result<Vec<u8>, AllocError> {
    let (side, rest) = first_word(given);
    let (far_type, rest) = first_word(rest);
    let (kind, text) = first_word(rest);
    let business = kind == "j";
    let body = wire(alloc, text)?;
    let split = split(alloc, &body)?;
    let refusal = match read_other(alloc, side_of(side).unwrap_or(Client), business, &split) {
        Ok(refusal) => refusal,
        Err(fault) => return fault_words(alloc, &fault),
    };
    let far = far_type.as_bytes();
    let said = renumber(
        alloc,
        side_of(side).unwrap_or(Client),
        business,
        &refusal,
        2,
        far,
    );
    said_or_none(alloc, &said)
}
