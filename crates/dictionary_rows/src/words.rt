//! Faults and lacks in words, as the program `fixgate` writes them.

use order_meaning::{Fault, Lack};
use report_translate::TranslateError;
use row_words::number_behind;
use std::alloc::{AllocError, Global};

/// Words, as an answer.
pub(crate) fn answered(alloc: Global, words: &str) -> Result<Vec<u8>, AllocError> {
    Vec::from_slice(alloc, words.as_bytes())
}

/// Drops a message by a call. In line, each of its fields would be a case of its caller.
pub(crate) fn let_go<M: Drop>(_message: M) {}

/// A fault in words.
pub(crate) fn fault_words(alloc: Global, fault: &Fault) -> Result<Vec<u8>, AllocError> {
    let words = match *fault {
        Fault::Session {
            tag: Some(tag),
            reason,
        } => format!(in alloc; "tag {tag} reason {reason}")?,
        Fault::Session { tag: None, reason } => format!(in alloc; "no tag reason {reason}")?,
        Fault::NoCounterpart { tag } => format!(in alloc; "tag {tag} no counterpart")?,
        Fault::NotSupported => String::from_str(alloc, "not supported")?,
        Fault::NoMemory => String::from_str(alloc, "out of memory")?,
    };
    answered(alloc, words.as_str())
}

/// The tag of what the other version lacks, in words.
fn lacking_words(alloc: Global, tag: u32) -> Result<Vec<u8>, AllocError> {
    let words = format!(in alloc; "lacks tag {tag}")?;
    answered(alloc, words.as_str())
}

/// A lack in words.
pub(crate) fn lack_words(alloc: Global, lack: &Lack) -> Result<Vec<u8>, AllocError> {
    match *lack {
        Lack::Tag(tag) => lacking_words(alloc, tag),
        Lack::NoMemory => answered(alloc, "out of memory"),
    }
}

/// What a check or a translation finds, in words.
pub(crate) fn found_words(
    alloc: Global,
    found: &Result<(), TranslateError>,
) -> Result<Vec<u8>, AllocError> {
    match found {
        Ok(()) => answered(alloc, "ok"),
        Err(TranslateError::Faulty(fault)) => fault_words(alloc, fault),
        Err(TranslateError::Lacking(tag)) => lacking_words(alloc, *tag),
        Err(TranslateError::TooLong) => answered(alloc, "too long"),
        Err(TranslateError::NoMemory) => answered(alloc, "out of memory"),
    }
}

/// The fault of these words.
pub(crate) fn fault_of(words: &str) -> Fault {
    if words == "out of memory" {
        return Fault::NoMemory;
    }
    let tag = number_behind(words, "tag");
    match number_behind(words, "reason") {
        Some(reason) => Fault::Session {
            tag,
            reason: u8::try_from(reason).unwrap_or(0),
        },
        None => match tag {
            Some(tag) => Fault::NoCounterpart { tag },
            None => Fault::NotSupported,
        },
    }
}
