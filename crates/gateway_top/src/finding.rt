//! What `check` finds of a frame.

ghost use Rattle.std.specs.Prelude.{◌≡◌, IfOk};
ghost use Rattle.order_meaning.specs.declared.Side.TheVariants.{Client, Venue};
ghost use Rattle.report_translate.specs.Reading.{refusal_message};
ghost use Rattle.report_translate.specs.Refusals.{IsCheckedRefusal};
ghost use Rattle.gateway_top.specs.Answer.{found_by, fault_finding};
ghost use Rattle.gateway_top.specs.Finding.{is_session, is_refusal, refusal_at};
ghost use Rattle.gateway_top.specs.Finding.{IsRead, IsCheckedMessage, IsFound, IsFound44};

use crate::line::type_in;
use order_meaning::{Fault, Side};
use report_translate::{ReportTranslator, check_refusal};
use request_translate::Translator;
use std::alloc::{AllocError, Global};
use translate_fix44::{Translator44, check_refusal as check_refusal44};
use translation::TranslateError;

/// What is found of a message.
#[derive(Clone, Copy)]
pub(crate) enum Finding {
    /// It is a message of the session.
    Session,
    /// It is well formed, and what it orders or reports has a counterpart in the other version.
    Good,
    /// The field of this tag, where one is known, is at fault for this SessionRejectReason(373).
    Reason { tag: Option<u32>, reason: u8 },
    /// What it says at this tag the other version cannot say.
    NoCounterpart { tag: u32 },
    /// Its type is none that its side sends.
    NotSupported,
}

impl Finding {
    /// Where the frame begins that is refused for it, if it is one that begins here.
    pub(crate) fn refusal_at(self, at: u64) -> Option<u64>
        ensures { result ≡ refusal_at self at }
    {
        match self {
            Finding::Session | Finding::Good => None,
            _ => Some(at),
        }
    }
}

/// Whether a type is one of the session's: Heartbeat, TestRequest, ResendRequest, SequenceReset,
/// Logout and Logon.
fn is_session(msg_type: &[u8]) -> bool
    ensures { result ≡ is_session msg_type.now }
{
    matches!(msg_type, b"0" | b"1" | b"2" | b"4" | b"5" | b"A")
}

/// Whether a type is that of a refusal: Reject and BusinessMessageReject.
fn is_refusal(msg_type: &[u8]) -> bool
    ensures { result ≡ is_refusal msg_type.now }
{
    matches!(msg_type, b"3" | b"j")
}

/// What is found of a fault; none where it is want of memory.
fn of_fault(fault: Fault) -> Option<Finding>
    ensures { result ≡ fault_finding fault }
{
    match fault {
        Fault::Session { tag, reason } => Some(Finding::Reason { tag, reason }),
        Fault::NoCounterpart { tag } => Some(Finding::NoCounterpart { tag }),
        Fault::NotSupported => Some(Finding::NotSupported),
        Fault::NoMemory => None,
    }
}

/// What is found of a message by what its check answered.
fn found_by(answer: Result<(), TranslateError>) -> Result<Finding, AllocError>
    ensures { result ≡ found_by answer }
{
    match answer {
        Ok(()) => Ok(Finding::Good),
        Err(TranslateError::Faulty(fault)) => of_fault(fault).ok_or(AllocError),
        Err(TranslateError::Lacking(tag)) => Ok(Finding::NoCounterpart { tag }),
        Err(_) => Err(AllocError),
    }
}

/// What is found of a refusal by a side.
fn of_refusal(alloc: Global, side: Side, body: &[u8]) -> Result<Finding, AllocError>
    ensures { IfOk result (IsRead (IsCheckedRefusal (refusal_message side) body.now)) }
{
    found_by(check_refusal(alloc, side, body))
}

/// What is found of a request, or of a type that the client does not send.
fn of_request(requests: &Translator, body: &[u8]) -> Result<Finding, AllocError>
    ensures { IfOk result (IsRead (IsCheckedMessage Client body.now)) }
{
    found_by(requests.check(body))
}

/// What is found of a report, or of a type that the venue does not send.
fn of_report(reports: &ReportTranslator, body: &[u8]) -> Result<Finding, AllocError>
    ensures { IfOk result (IsRead (IsCheckedMessage Venue body.now)) }
{
    found_by(reports.check(body))
}

/// What is found of a message of the client's session.
pub(crate) fn of_client(
    alloc: Global,
    requests: &Translator,
    body: &[u8],
) -> Result<Finding, AllocError>
    ensures { IfOk result (IsFound Client body.now) }
{
    let msg_type = type_in(body);
    if is_session(msg_type) {
        return Ok(Finding::Session);
    }
    if is_refusal(msg_type) {
        return of_refusal(alloc, Side::Client, body);
    }
    of_request(requests, body)
}

/// What is found of a message of the session of a client of FIX 4.4.
pub(crate) fn of_client44(
    alloc: Global,
    fix44: &mut Translator44,
    body: &[u8],
) -> Result<Finding, AllocError>
    ensures { IfOk result (IsFound44 body.now) }
{
    let msg_type = type_in(body);
    if is_session(msg_type) {
        return Ok(Finding::Session);
    }
    if is_refusal(msg_type) {
        return found_by(check_refusal44(alloc, body));
    }
    found_by(fix44.check(body))
}

/// What is found of a message of the venue's session.
pub(crate) fn of_venue(
    alloc: Global,
    reports: &ReportTranslator,
    body: &[u8],
) -> Result<Finding, AllocError>
    ensures { IfOk result (IsFound Venue body.now) }
{
    let msg_type = type_in(body);
    if is_session(msg_type) {
        return Ok(Finding::Session);
    }
    if is_refusal(msg_type) {
        return of_refusal(alloc, Side::Venue, body);
    }
    of_report(reports, body)
}
