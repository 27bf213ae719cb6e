//! What one side refused, told to the other side.

ghost use Rattle.std.specs.Prelude.{◌≡◌, ◌++◌, true, false, IfOk, OnOk};
ghost use Rattle.reject_rules.specs.Renumbered.{renumbered, refuser_of, words_if, quote_if};
ghost use Rattle.reject_rules.specs.Renumbered.{rejected_text};

use crate::content::business_reject;
use crate::reasons::{OTHER, business_reason, business_text};
use crate::text::quoted;
use itoa::Buffer;
use order_meaning::{Bytes, Refusal, Side};
use session_core::{Said, ref_msg_type};
use std::alloc::{AllocError, Global};

/// What is said to a side of its own message of the number `far` and the type `far_type`, which the
/// other side refused: a BusinessMessageReject(j), whichever message the refusal came as.
/// `business` says that it came as a BusinessMessageReject(j), else it was a Reject(3).
///
/// Of a Reject(3), RefTagID(371), SessionRejectReason(373) and Text(58) are told in the text, as
/// far as they stand, as `rejected by venue tag 40 reason 5: text`; BusinessRejectReason(380) is 0.
/// Of a BusinessMessageReject(j), BusinessRejectRefID(379), 380 and 58 are passed on; to the client
/// a 380 above 5, which FIX 4.2 lacks, is 0, and the text ends in ` [380=n]`. Of the text of a
/// refusal the first 512 bytes are passed on.
///
/// FIX 4.2, "Business Message Reject".
///
/// # Errors
///
/// `AllocError` for want of memory.
pub fn renumber(
    alloc: Global,
    side: Side,
    business: bool,
    refusal: &Refusal,
    far: u32,
    far_type: &[u8],
) -> Result<Said, AllocError>
    ensures { IfOk result (λ said. said ≡ renumbered side business refusal.now far far_type.now) }
{
    if business {
        passed_on(alloc, side, refusal, far, far_type)
    } else {
        rejected(alloc, side, refusal, far, far_type)
    }
}

/// What is said where the refusal came as a BusinessMessageReject(j).
fn passed_on(
    alloc: Global,
    side: Side,
    refusal: &Refusal,
    far: u32,
    far_type: &[u8],
) -> Result<Said, AllocError>
    ensures { IfOk result (λ said. said ≡ renumbered side true refusal.now far far_type.now) }
{
    let id = match &refusal.id {
        Some(id) => Some(id.duplicate()?),
        None => None,
    };
    let renumbered = Refusal {
        number: Some(far),
        msg_type: Some(Bytes::copy(alloc, ref_msg_type(far_type))?),
        id,
        tag: None,
        reason: refusal.reason.map(|reason| business_reason(side, reason)),
        text: business_text(alloc, side, refusal.reason, quoted(&refusal.text))?,
    };
    business_reject(alloc, &renumbered)
}

/// What is said where the refusal came as a Reject(3).
fn rejected(
    alloc: Global,
    side: Side,
    refusal: &Refusal,
    far: u32,
    far_type: &[u8],
) -> Result<Said, AllocError>
    ensures { IfOk result (λ said. said ≡ renumbered side false refusal.now far far_type.now) }
{
    let renumbered = Refusal {
        number: Some(far),
        msg_type: Some(Bytes::copy(alloc, ref_msg_type(far_type))?),
        id: None,
        tag: None,
        reason: Some(OTHER),
        text: Some(rejected_text(alloc, side, refusal)?),
    };
    business_reject(alloc, &renumbered)
}

/// What a Reject(3) by the other side said, as a text to this side.
#[tactic(auto, unfolding(crate::specs::Renumbered::rejected_text))]
fn rejected_text(alloc: Global, side: Side, refusal: &Refusal) -> Result<Bytes, AllocError>
    ensures { IfOk result (λ text. text ≡ rejected_text side refusal.now) }
{
    let mut text = Bytes::copy(alloc, b"rejected by ")?;
    text.extend_from_slice(refuser_of(side))?;
    push_number(&mut text, b" tag ", refusal.tag)?;
    push_number(&mut text, b" reason ", refusal.reason)?;
    push_quote(&mut text, &refusal.text)?;
    Ok(text)
}

/// Who refused what came from a side.
fn refuser_of(side: Side) -> &'static [u8]
    ensures { result.now ≡ refuser_of side }
{
    match side {
        Side::Client => b"venue",
        Side::Venue => b"client",
    }
}

/// Appends words and a number, where there is one.
fn push_number(out: &mut Bytes, words: &[u8], number: Option<u32>) -> Result<(), AllocError>
    ensures { OnOk result (out.new ≡ out.old ++ words_if words.now number) }
{
    if let Some(number) = number {
        out.extend_from_slice(words)?;
        out.extend_from_slice(Buffer::new().format(number).as_bytes())?;
    }
    Ok(())
}

/// Appends a text of the other side behind a colon, where there is one.
fn push_quote(out: &mut Bytes, text: &Option<Bytes>) -> Result<(), AllocError>
    ensures { OnOk result (out.new ≡ out.old ++ quote_if text.now) }
{
    if let Some(quote) = quoted(text) {
        out.extend_from_slice(b": ")?;
        out.extend_from_slice(quote)?;
    }
    Ok(())
}
