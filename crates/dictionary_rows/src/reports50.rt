//! Reports and refusals of FIX 5.0 SP2: what is written of each that is read, or its first fault.

ghost use Rattle.reports_fix50.specs.Readable.{IsReadableReport, IsReadableCancelReject};

use crate::wires::wire;
use crate::words::{fault_words, let_go};
use field_groups::{Split, split};
use order_meaning::Fault;
use reports_fix50::{
    CancelReject50, Report50, read_business_reject, read_cancel_reject, read_report,
    read_session_reject, write_business_reject, write_cancel_reject, write_report,
    write_session_reject,
};
use row_words::first_word;
use std::alloc::{AllocError, Global};

/// What is written of an Execution Report(8).
fn written_report(alloc: Global, message: &Report50) -> Result<Vec<u8>, AllocError>
    requires { IsReadableReport message.now }
{
    let mut out = Vec::new(alloc);
    write_report(message, &mut out)?;
    Ok(out)
}

/// What is written of the fields of an Execution Report(8).
fn report(alloc: Global, split: &Split<'_>) -> Result<Vec<u8>, AllocError> {
    match read_report(alloc, split) {
        Ok(message) => {
            let written = written_report(alloc, &message);
            let_go(message);
            written
        }
        Err(fault) => fault_words(alloc, &fault),
    }
}

/// What is written of an Order Cancel Reject(9).
fn written_cancel_reject(alloc: Global, message: &CancelReject50) -> Result<Vec<u8>, AllocError>
    requires { IsReadableCancelReject message.now }
{
    let mut out = Vec::new(alloc);
    write_cancel_reject(message, &mut out)?;
    Ok(out)
}

/// What is written of the fields of an Order Cancel Reject(9).
fn cancel_reject(alloc: Global, split: &Split<'_>) -> Result<Vec<u8>, AllocError> {
    match read_cancel_reject(alloc, split) {
        Ok(message) => {
            let written = written_cancel_reject(alloc, &message);
            let_go(message);
            written
        }
        Err(fault) => fault_words(alloc, &fault),
    }
}

/// What is written of the fields of a Reject(3).
fn session_reject(alloc: Global, split: &Split<'_>) -> Result<Vec<u8>, Fault> {
    let message = read_session_reject(alloc, split)?;
    let mut out = Vec::new(alloc);
    write_session_reject(&message, &mut out)?;
    Ok(out)
}

/// What is written of the fields of a Business Message Reject(j).
fn business_reject(alloc: Global, split: &Split<'_>) -> Result<Vec<u8>, Fault> {
    let message = read_business_reject(alloc, split)?;
    let mut out = Vec::new(alloc);
    write_business_reject(&message, &mut out)?;
    Ok(out)
}

/// What is written of a refusal, or its first fault.
fn or_fault(alloc: Global, written: Result<Vec<u8>, Fault>) -> Result<Vec<u8>, AllocError> {
    match written {
        Ok(content) => Ok(content),
        Err(fault) => fault_words(alloc, &fault),
    }
}

/// What is written of the message that is read, or its first fault.
pub(crate) fn content(alloc: Global, given: &str) -> Result<Vec<u8>, AllocError> {
    let (msg_type, text) = first_word(given);
    let body = wire(alloc, text)?;
    let split = split(alloc, &body)?;
    match msg_type.as_bytes() {
        b"8" => report(alloc, &split),
        b"9" => cancel_reject(alloc, &split),
        b"3" => or_fault(alloc, session_reject(alloc, &split)),
        b"j" => or_fault(alloc, business_reject(alloc, &split)),
        _ => fault_words(alloc, &Fault::NotSupported),
    }
}
