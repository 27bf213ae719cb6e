//! Requests of the client as the venue gets them.

use crate::wires::wire;
use crate::words::found_words;
use request_translate::Translator;
use std::alloc::{AllocError, Global};

/// What a translator that has translated a body makes of it again, behind a `+`: the frame, or what
/// is found of the body where nothing is written.
fn frame_again(alloc: Global, body: &[u8]) -> Result<Vec<u8>, AllocError> {
    let mut translator = Translator::new(alloc);
    let mut out = Vec::new(alloc);
    let _ = translator.translate(body, &mut out); // the second time is looked at
    out.clear();
    out.push(b'+')?;
    let found = translator.translate(body, &mut out);
    if found.is_err() && out.len() == 1 {
        return found_words(alloc, &found);
    }
    Ok(out)
}

/// What a check of a body finds.
fn checked(alloc: Global, body: &[u8]) -> Result<Vec<u8>, AllocError> {
    let found = Translator::new(alloc).check(body);
    found_words(alloc, &found)
}

/// What a check of a body finds, a comma and what a translation makes of it.
pub(crate) fn frame(alloc: Global, given: &str) -> Result<Vec<u8>, AllocError> {
    let body = wire(alloc, given)?;
    let mut answer = checked(alloc, &body)?;
    answer.extend_from_slice(b", ")?;
    answer.extend_from_slice(&frame_again(alloc, &body)?)?;
    Ok(answer)
}
