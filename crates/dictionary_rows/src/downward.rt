//! Reports of the venue as the client gets them.

ghost use Rattle.std.specs.Prelude.{IfSome};
ghost use Rattle.std.specs.Option.{option_map};
ghost use Rattle.reports_fix50.specs.Message.{cancel_reject_table, report_table};
ghost use Rattle.reports_fix50.specs.Readable.{IsReadableReport, IsReadableCancelReject};
ghost use Rattle.reports_fix50.specs.Said.{cancel_reject_says, report_says};
ghost use Rattle.report_rules.specs.Down.{IsId};
ghost use Rattle.sound_laws.specs.Complete.{IsComplete};

use crate::reports42::{written_cancel_reject, written_report};
use crate::wires::wire;
use crate::words::{fault_words, found_words, lack_words, let_go};
use exec_translate::{down_cancel_reject, down_report};
use field_groups::split;
use report_translate::{ReportTranslator, TranslateError};
use reports_fix50::{CancelReject50, Report50, read_cancel_reject, read_report};
use row_words::first_word;
use std::alloc::{AllocError, Global};

/// What is written of the client's report of a report, or what FIX 4.2 lacks.
fn report_down(alloc: Global, venue: &Report50) -> Result<Vec<u8>, AllocError>
    requires sound { IsComplete report_table (report_says venue.now) }
    requires readable { IsReadableReport venue.now }
{
    match down_report(alloc, venue) {
        Ok(client) => {
            let written = written_report(alloc, &client);
            let_go(client);
            written
        }
        Err(lack) => lack_words(alloc, &lack),
    }
}

/// What is written of the client's report of the report that is read, or what is found of it.
pub(crate) fn report(alloc: Global, given: &str) -> Result<Vec<u8>, AllocError> {
    let body = wire(alloc, given)?;
    let split = split(alloc, &body)?;
    match read_report(alloc, &split) {
        Ok(venue) => {
            let down = report_down(alloc, &venue);
            let_go(venue);
            down
        }
        Err(fault) => fault_words(alloc, &fault),
    }
}

/// What is written of the client's cancel reject of a cancel reject whose original id is known or
/// not, or what FIX 4.2 lacks.
fn cancel_reject_down(
    alloc: Global,
    venue: &CancelReject50,
    original: Option<&[u8]>,
) -> Result<Vec<u8>, AllocError>
    requires sound { IsComplete cancel_reject_table (cancel_reject_says venue.now) }
    requires readable { IsReadableCancelReject venue.now }
    requires original { IfSome (option_map (λ id. id.now) original) IsId }
{
    match down_cancel_reject(alloc, venue, original) {
        Ok(client) => {
            let written = written_cancel_reject(alloc, &client);
            let_go(client);
            written
        }
        Err(lack) => lack_words(alloc, &lack),
    }
}

/// The original id that a word says, which is A1 or none.
#[tactic(auto, unfolding(row_values::specs::Kinds::judge, value_kinds::specs::ValueKind::spelling))]
pub(crate) fn original(word: &str) -> Option<&'static [u8]>
    ensures { IfSome (option_map (λ id. id.now) result) IsId }
{
    match word {
        "A1" => Some(b"A1"),
        _ => None,
    }
}

/// What is written of the client's cancel reject of the one that is read, or what is found of it.
pub(crate) fn cancel_reject(alloc: Global, given: &str) -> Result<Vec<u8>, AllocError> {
    let (word, text) = first_word(given);
    let body = wire(alloc, text)?;
    let split = split(alloc, &body)?;
    match read_cancel_reject(alloc, &split) {
        Ok(venue) => {
            let down = cancel_reject_down(alloc, &venue, original(word));
            let_go(venue);
            down
        }
        Err(fault) => fault_words(alloc, &fault),
    }
}

/// What a translator that has translated a body makes of it again, behind a `+`: the frame, or what
/// is found of the body where nothing is written.
fn frame_again(alloc: Global, body: &[u8]) -> Result<Vec<u8>, AllocError> {
    let mut translator = ReportTranslator::new(alloc);
    let mut out = Vec::new(alloc);
    let _ = translator.translate(body, &mut out); // the second time is looked at
    out.clear();
    out.push(b'+')?;
    let found = translator.translate(body, &mut out);
    if found.is_err() && out.len() == 1 {
        return found_words(alloc, &found);
    }
    Ok(out)
}

/// What a check of a body finds.
fn checked(alloc: Global, body: &[u8]) -> Result<Vec<u8>, AllocError> {
    let found = ReportTranslator::new(alloc).check(body);
    found_words(alloc, &found)
}

/// What a check of a body finds, a comma and what a translation makes of it.
pub(crate) fn frame(alloc: Global, given: &str) -> Result<Vec<u8>, AllocError> {
    let body = wire(alloc, given)?;
    let mut answer = checked(alloc, &body)?;
    answer.extend_from_slice(b", ")?;
    answer.extend_from_slice(&frame_again(alloc, &body)?)?;
    Ok(answer)
}

/// What a translation of a body finds; `ok` where it writes something.
fn translated(alloc: Global, body: &[u8]) -> Result<(), TranslateError> {
    let mut out = Vec::new(alloc);
    let found = ReportTranslator::new(alloc).translate(body, &mut out);
    if found.is_ok() == out.is_empty() {
        return Err(TranslateError::NoMemory);
    }
    found
}

/// What a check of a body finds, a comma and what a translation finds.
pub(crate) fn length(alloc: Global, given: &str) -> Result<Vec<u8>, AllocError> {
    let body = wire(alloc, given)?;
    let mut answer = checked(alloc, &body)?;
    answer.extend_from_slice(b", ")?;
    answer.extend_from_slice(&found_words(alloc, &translated(alloc, &body))?)?;
    Ok(answer)
}
