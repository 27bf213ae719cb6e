//! Reasons, and what is said in place of those that FIX 4.2 lacks.

ghost use Rattle.std.specs.Prelude.{◌≡◌, IfOk};
ghost use Rattle.std.specs.Option.{option_map};
ghost use Rattle.reject_rules.specs.Reasons.{reason_suffix, with_suffix, business_reason};
ghost use Rattle.reject_rules.specs.Reasons.{business_text};

use crate::tag::BUSINESS_REJECT_REASON;
use crate::text::front;
use itoa::Buffer;
use order_meaning::{Bytes, Side};
use std::alloc::{AllocError, Global};

/// BusinessRejectReason(380): any other.
pub(crate) const OTHER: u32 = 0;

/// BusinessRejectReason(380): unsupported message type.
pub(crate) const UNSUPPORTED_MESSAGE_TYPE: u32 = 3;

/// BusinessRejectReason(380): the application is not available at this time.
pub(crate) const APPLICATION_NOT_AVAILABLE: u32 = 4;

/// The highest BusinessRejectReason(380) of FIX 4.2, conditionally required field missing.
const MAX_BUSINESS_REASON: u32 = 5;

/// The most bytes of a text that a reason is added to.
const MAX_TEXT: usize = 2000;

/// A copy of a text, where there is one.
pub(crate) fn copied(alloc: Global, text: Option<&[u8]>) -> Result<Option<Bytes>, AllocError>
    ensures { IfOk result (λ copy. copy ≡ option_map (λ bytes. bytes.now) text.entry) }
{
    match text {
        Some(text) => Ok(Some(Bytes::copy(alloc, text)?)),
        None => Ok(None),
    }
}

/// BusinessRejectReason(380) to a side.
pub(crate) fn business_reason(side: Side, reason: u32) -> u32
    ensures { result ≡ business_reason side reason }
{
    match side {
        Side::Client if reason > MAX_BUSINESS_REASON => OTHER,
        _ => reason,
    }
}

/// Text(58) beside a BusinessRejectReason(380) to a side.
pub(crate) fn business_text(
    alloc: Global,
    side: Side,
    reason: Option<u32>,
    text: Option<&[u8]>,
) -> Result<Option<Bytes>, AllocError>
    ensures { IfOk result (λ whole. whole ≡
        business_text side reason (option_map (λ bytes. bytes.now) text.entry)) }
{
    match (side, reason) {
        (Side::Client, Some(reason)) => {
            let suffix = reason_suffix(alloc, BUSINESS_REJECT_REASON, MAX_BUSINESS_REASON, reason)?;
            with_suffix(alloc, text, suffix.as_slice())
        }
        _ => copied(alloc, text),
    }
}

/// What a text gets at its end for a reason above the highest of FIX 4.2: ` [tag=reason]`.
fn reason_suffix(alloc: Global, tag: u32, highest: u32, reason: u32) -> Result<Bytes, AllocError>
    ensures { IfOk result (λ suffix. suffix ≡ reason_suffix tag highest reason) }
{
    let mut suffix = Bytes::new(alloc);
    if reason > highest {
        suffix.extend_from_slice(b" [")?;
        suffix.extend_from_slice(Buffer::new().format(tag).as_bytes())?;
        suffix.extend_from_slice(b"=")?;
        suffix.extend_from_slice(Buffer::new().format(reason).as_bytes())?;
        suffix.extend_from_slice(b"]")?;
    }
    Ok(suffix)
}

/// A text with this at its end, which begins with a space.
fn with_suffix(
    alloc: Global,
    text: Option<&[u8]>,
    suffix: &[u8],
) -> Result<Option<Bytes>, AllocError>
    ensures { IfOk result (λ whole. whole ≡
        with_suffix (option_map (λ bytes. bytes.now) text.entry) suffix.now) }
{
    match (text, suffix) {
        (text, []) => copied(alloc, text),
        (None, [_, suffix @ ..]) => Ok(Some(Bytes::copy(alloc, suffix)?)),
        (Some(text), suffix) => {
            let mut whole = Bytes::copy(alloc, front(text, MAX_TEXT))?;
            whole.extend_from_slice(suffix)?;
            Ok(Some(whole))
        }
    }
}
