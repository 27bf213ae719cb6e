//! What the gateway itself refuses.

ghost use Rattle.std.specs.Prelude.{◌≡◌, Some, IfOk};
ghost use Rattle.reject_rules.specs.Refusals.{refusal_of, business_refusal, no_counterpart};
ghost use Rattle.reject_rules.specs.Refusals.{used_refusal, away_refusal};

use crate::content::{business_reject, reject};
use crate::reasons::{APPLICATION_NOT_AVAILABLE, OTHER, UNSUPPORTED_MESSAGE_TYPE, copied};
use itoa::Buffer;
use order_meaning::{Bytes, Fault, Refusal, Side};
use session_core::reason::{session_reason, session_text};
use session_core::tag::MSG_TYPE;
use session_core::{Said, ref_msg_type};
use std::alloc::{AllocError, Global};

/// What is said to a side of its message of this number and type, which has this fault.
///
/// A `Session` fault gives a Reject(3) with RefTagID(371), where a tag is known, and
/// SessionRejectReason(373). FIX 4.2 has the reasons up to 11: to the client one above has no 373
/// and its words in Text(58), where it has any. Any other fault gives a BusinessMessageReject(j)
/// whose Text(58) names the tag that has no counterpart; for a type that is not supported,
/// BusinessRejectReason(380) is 3 and the tag 35, else 380 is 0. RefMsgType(372) has the first 8
/// bytes of the type.
///
/// FIX 4.2, "Reject (session-level)" and "Business Message Reject".
///
/// # Errors
///
/// `AllocError` for want of memory, and always for the fault `NoMemory`.
pub fn refusal(
    alloc: Global,
    side: Side,
    number: u32,
    msg_type: &[u8],
    fault: &Fault,
) -> Result<Said, AllocError>
    ensures { IfOk result (λ said. refusal_of side number msg_type.now fault.now ≡ Some said) }
{
    match *fault {
        Fault::Session { tag, reason } => {
            let refusal = Refusal {
                number: Some(number),
                msg_type: Some(Bytes::copy(alloc, ref_msg_type(msg_type))?),
                id: None,
                tag,
                reason: session_reason(side, reason),
                text: copied(alloc, session_text(side, reason))?,
            };
            reject(alloc, &refusal)
        }
        Fault::NoCounterpart { tag } => {
            let text = no_counterpart(alloc, tag)?;
            business_refusal(alloc, number, msg_type, OTHER, text.as_slice())
        }
        Fault::NotSupported => {
            let text = no_counterpart(alloc, MSG_TYPE)?;
            let reason = UNSUPPORTED_MESSAGE_TYPE;
            business_refusal(alloc, number, msg_type, reason, text.as_slice())
        }
        Fault::NoMemory => Err(AllocError),
    }
}

/// What is said to the client of a request of this number and type whose ClOrdID(11) was used
/// before: a BusinessMessageReject(j) with 380=0 and the text `tag 11 is already used`.
///
/// # Errors
///
/// `AllocError` for want of memory.
pub fn used(alloc: Global, number: u32, msg_type: &[u8]) -> Result<Said, AllocError>
    ensures { IfOk result (λ said. said ≡ used_refusal number msg_type.now) }
{
    business_refusal(alloc, number, msg_type, OTHER, b"tag 11 is already used")
}

/// What is said to the client of a request of this number and type while the venue's session is not
/// active: a BusinessMessageReject(j) with 380=4 and the text `venue is not connected`.
///
/// # Errors
///
/// `AllocError` for want of memory.
pub fn away(alloc: Global, number: u32, msg_type: &[u8]) -> Result<Said, AllocError>
    ensures { IfOk result (λ said. said ≡ away_refusal number msg_type.now) }
{
    let reason = APPLICATION_NOT_AVAILABLE;
    business_refusal(alloc, number, msg_type, reason, b"venue is not connected")
}

/// The BusinessMessageReject(j) of a message, for this BusinessRejectReason(380), with this text.
fn business_refusal(
    alloc: Global,
    number: u32,
    msg_type: &[u8],
    reason: u32,
    text: &[u8],
) -> Result<Said, AllocError>
    ensures { IfOk result (λ said. said ≡ business_refusal number msg_type.now reason text.now) }
{
    let refusal = Refusal {
        number: Some(number),
        msg_type: Some(Bytes::copy(alloc, ref_msg_type(msg_type))?),
        id: None,
        tag: None,
        reason: Some(reason),
        text: Some(Bytes::copy(alloc, text)?),
    };
    business_reject(alloc, &refusal)
}

/// The text that a tag has no counterpart.
#[tactic(auto, unfolding(crate::specs::Refusals::no_counterpart))]
fn no_counterpart(alloc: Global, tag: u32) -> Result<Bytes, AllocError>
    ensures { IfOk result (λ text. text ≡ no_counterpart tag) }
{
    let mut text = Bytes::copy(alloc, b"tag ")?;
    text.extend_from_slice(Buffer::new().format(tag).as_bytes())?;
    text.extend_from_slice(b" has no counterpart")?;
    Ok(text)
}
