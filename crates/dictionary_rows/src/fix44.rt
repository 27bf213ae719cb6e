//! Requests of FIX 4.4, these as the venue gets them, and reports as a client of FIX 4.4 gets them.

ghost use Rattle.std.specs.Prelude.{IfSome};
ghost use Rattle.std.specs.Option.{option_map};
ghost use Rattle.reports_fix44.specs.Readable as readable44;
ghost use Rattle.reports_fix50.specs.Message.{cancel_reject_table, report_table};
ghost use Rattle.reports_fix50.specs.Readable.{IsReadableReport, IsReadableCancelReject};
ghost use Rattle.reports_fix50.specs.Said.{cancel_reject_says, report_says};
ghost use Rattle.report_rules.specs.Down.{IsId};
ghost use Rattle.requests_fix44.specs.Readable.{IsReadable44};
ghost use Rattle.sound_laws.specs.Complete.{IsComplete};
ghost use Rattle.structs_fix44.specs.Up.{IsSound44};

use crate::downward::original;
use crate::requests::{Asked, let_go50, written50};
use crate::wires::wire;
use crate::words::{fault_words, lack_words, let_go};
use field_groups::split;
use reports_fix44::{CancelReject44, Report44, write_cancel_reject, write_report};
use reports_fix50::{CancelReject50, Report50, read_cancel_reject, read_report};
use requests_fix44::{Msg44, read44, type44, write44};
use row_words::first_word;
use std::alloc::{AllocError, Global};
use structs_fix44::{down_cancel_reject44, down_report44, up44};

/// What is written of a request of FIX 4.4.
fn written44(alloc: Global, message: &Msg44) -> Result<Vec<u8>, AllocError>
    requires { IsReadable44 message.now }
{
    let mut out = Vec::new(alloc);
    write44(message, &mut out)?;
    Ok(out)
}

/// What is asked of a request of FIX 4.4.
fn told44(alloc: Global, asked: Asked, message: &Msg44) -> Result<Vec<u8>, AllocError>
    requires { IsReadable44 message.now }
{
    match asked {
        Asked::Type => Vec::from_slice(alloc, type44(message)),
        Asked::Content => written44(alloc, message),
    }
}

/// Drops a request of FIX 4.4.
fn let_go44(message: Msg44) {
    match message {
        Msg44::New(new) => let_go(new),
        Msg44::Cancel(cancel) => let_go(cancel),
        Msg44::Replace(replace) => let_go(replace),
        Msg44::Status(status) => let_go(status),
    }
}

/// What is asked of the request of FIX 4.4 that is read, or its first fault.
pub(crate) fn of_44(alloc: Global, asked: Asked, given: &str) -> Result<Vec<u8>, AllocError> {
    let (msg_type, text) = first_word(given);
    let body = wire(alloc, text)?;
    let split = split(alloc, &body)?;
    match read44(alloc, msg_type.as_bytes(), &split) {
        Ok(message) => {
            let told = told44(alloc, asked, &message);
            let_go44(message);
            told
        }
        Err(fault) => fault_words(alloc, &fault),
    }
}

/// What is written of the venue's request of a request, or what FIX 5.0 SP2 lacks.
fn request_up(alloc: Global, client: &Msg44) -> Result<Vec<u8>, AllocError>
    requires sound { IsSound44 client.now }
    requires readable { IsReadable44 client.now }
{
    match up44(alloc, client) {
        Ok(venue) => {
            let written = written50(alloc, &venue);
            let_go50(venue);
            written
        }
        Err(lack) => lack_words(alloc, &lack),
    }
}

/// What is written of the venue's request of the request that is read, or what is found of it.
pub(crate) fn up(alloc: Global, given: &str) -> Result<Vec<u8>, AllocError> {
    let (msg_type, text) = first_word(given);
    let body = wire(alloc, text)?;
    let split = split(alloc, &body)?;
    match read44(alloc, msg_type.as_bytes(), &split) {
        Ok(client) => {
            let up = request_up(alloc, &client);
            let_go44(client);
            up
        }
        Err(fault) => fault_words(alloc, &fault),
    }
}

/// What is written of an execution report of FIX 4.4.
fn written_report(alloc: Global, message: &Report44) -> Result<Vec<u8>, AllocError>
    requires { IsReadableReport message.now }
{
    let mut out = Vec::new(alloc);
    write_report(message, &mut out)?;
    Ok(out)
}

/// What is written of the client's report of a report, or what FIX 4.4 lacks.
fn report_down(alloc: Global, venue: &Report50) -> Result<Vec<u8>, AllocError>
    requires sound { IsComplete report_table (report_says venue.now) }
    requires readable { IsReadableReport venue.now }
{
    match down_report44(alloc, venue) {
        Ok(client) => {
            let written = written_report(alloc, &client);
            let_go(client);
            written
        }
        Err(lack) => lack_words(alloc, &lack),
    }
}

/// What is written of the client's report of the report that is read, or what is found of it.
pub(crate) fn report(alloc: Global, given: &str) -> Result<Vec<u8>, AllocError> {
    let body = wire(alloc, given)?;
    let split = split(alloc, &body)?;
    match read_report(alloc, &split) {
        Ok(venue) => {
            let down = report_down(alloc, &venue);
            let_go(venue);
            down
        }
        Err(fault) => fault_words(alloc, &fault),
    }
}

/// What is written of a cancel reject of FIX 4.4.
fn written_cancel_reject(alloc: Global, message: &CancelReject44) -> Result<Vec<u8>, AllocError>
    requires { readable44.IsReadableCancelReject message.now }
{
    let mut out = Vec::new(alloc);
    write_cancel_reject(message, &mut out)?;
    Ok(out)
}

/// What is written of the client's cancel reject of a cancel reject whose original id is known or
/// not, or what FIX 4.4 lacks.
fn cancel_reject_down(
    alloc: Global,
    venue: &CancelReject50,
    original: Option<&[u8]>,
) -> Result<Vec<u8>, AllocError>
    requires sound { IsComplete cancel_reject_table (cancel_reject_says venue.now) }
    requires readable { IsReadableCancelReject venue.now }
    requires original { IfSome (option_map (λ id. id.now) original) IsId }
{
    match down_cancel_reject44(alloc, venue, original) {
        Ok(client) => {
            let written = written_cancel_reject(alloc, &client);
            let_go(client);
            written
        }
        Err(lack) => lack_words(alloc, &lack),
    }
}

/// What is written of the client's cancel reject of the one that is read, or what is found of it.
pub(crate) fn cancel_reject(alloc: Global, given: &str) -> Result<Vec<u8>, AllocError> {
    let (word, text) = first_word(given);
    let body = wire(alloc, text)?;
    let split = split(alloc, &body)?;
    match read_cancel_reject(alloc, &split) {
        Ok(venue) => {
            let down = cancel_reject_down(alloc, &venue, original(word));
            let_go(venue);
            down
        }
        Err(fault) => fault_words(alloc, &fault),
    }
}
