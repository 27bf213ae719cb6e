//! Requests of both versions.

ghost use Rattle.dict_fix42.specs.Readable.{IsReadable42};
ghost use Rattle.dict_fix50.specs.Readable.{IsReadable50};

use crate::wires::wire;
use crate::words::{fault_words, let_go};
use dict_fix42::{Msg42, read42, type42, write42};
use dict_fix50::{Msg50, read50, type50, write50};
use field_groups::split;
use row_words::first_word;
use std::alloc::{AllocError, Global};

/// What is asked of a request.
#[derive(Clone, Copy)]
pub(crate) enum Asked {
    /// Its type.
    Type,
    /// What is written of it.
    Content,
}

/// What is written of a request of FIX 4.2.
fn written42(alloc: Global, message: &Msg42) -> Result<Vec<u8>, AllocError>
    requires { IsReadable42 message.now }
{
    let mut out = Vec::new(alloc);
    write42(message, &mut out)?;
    Ok(out)
}

/// What is asked of a request of FIX 4.2.
fn told42(alloc: Global, asked: Asked, message: &Msg42) -> Result<Vec<u8>, AllocError>
    requires { IsReadable42 message.now }
{
    match asked {
        Asked::Type => Vec::from_slice(alloc, type42(message)),
        Asked::Content => written42(alloc, message),
    }
}

/// Drops a request of FIX 4.2.
fn let_go42(message: Msg42) {
    match message {
        Msg42::New(new) => let_go(new),
        Msg42::Cancel(cancel) => let_go(cancel),
        Msg42::Replace(replace) => let_go(replace),
        Msg42::Status(status) => let_go(status),
    }
}

/// What is asked of the request of FIX 4.2 that is read, or its first fault.
pub(crate) fn of_42(alloc: Global, asked: Asked, given: &str) -> Result<Vec<u8>, AllocError> {
    let (msg_type, text) = first_word(given);
    let body = wire(alloc, text)?;
    let split = split(alloc, &body)?;
    match read42(alloc, msg_type.as_bytes(), &split) {
        Ok(message) => {
            let told = told42(alloc, asked, &message);
            let_go42(message);
            told
        }
        Err(fault) => fault_words(alloc, &fault),
    }
}

/// What is written of a request of FIX 5.0 SP2.
pub(crate) fn written50(alloc: Global, message: &Msg50) -> Result<Vec<u8>, AllocError>
    requires { IsReadable50 message.now }
{
    let mut out = Vec::new(alloc);
    write50(message, &mut out)?;
    Ok(out)
}

/// What is asked of a request of FIX 5.0 SP2.
fn told50(alloc: Global, asked: Asked, message: &Msg50) -> Result<Vec<u8>, AllocError>
    requires { IsReadable50 message.now }
{
    match asked {
        Asked::Type => Vec::from_slice(alloc, type50(message)),
        Asked::Content => written50(alloc, message),
    }
}

/// Drops a request of FIX 5.0 SP2.
pub(crate) fn let_go50(message: Msg50) {
    match message {
        Msg50::New(new) => let_go(new),
        Msg50::Cancel(cancel) => let_go(cancel),
        Msg50::Replace(replace) => let_go(replace),
        Msg50::Status(status) => let_go(status),
    }
}

/// What is asked of the request of FIX 5.0 SP2 that is read, or its first fault.
pub(crate) fn of_50(alloc: Global, asked: Asked, given: &str) -> Result<Vec<u8>, AllocError> {
    let (msg_type, text) = first_word(given);
    let body = wire(alloc, text)?;
    let split = split(alloc, &body)?;
    match read50(alloc, msg_type.as_bytes(), &split) {
        Ok(message) => {
            let told = told50(alloc, asked, &message);
            let_go50(message);
            told
        }
        Err(fault) => fault_words(alloc, &fault),
    }
}
