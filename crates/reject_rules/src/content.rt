//! The fields of a Reject(3) and of a BusinessMessageReject(j), as they are written.

ghost use Rattle.std.specs.Prelude.{◌≡◌, ◌++◌, false, IfOk, OnOk};
ghost use Rattle.field_groups.specs.Field.{body_of};
ghost use Rattle.reject_rules.specs.Content.{field_if, number_if, reject, business_reject};

use crate::tag::{BUSINESS_REJECT_REASON, BUSINESS_REJECT_REF_ID};
use field_groups::{put_field, put_number};
use order_meaning::{Bytes, Refusal};
use session_core::Said;
use session_core::tag::{REF_MSG_TYPE, REF_SEQ_NUM, REF_TAG_ID, SESSION_REJECT_REASON, TEXT};
use std::alloc::{AllocError, Global};

/// The Reject(3) of a refusal.
#[tactic(auto, unfolding(crate::specs::Content::reject))]
pub(crate) fn reject(alloc: Global, refusal: &Refusal) -> Result<Said, AllocError>
    ensures { IfOk result (λ said. said ≡ reject refusal.now) }
{
    let mut content = Vec::new(alloc);
    put_number_if(&mut content, REF_SEQ_NUM, refusal.number)?;
    put_number_if(&mut content, REF_TAG_ID, refusal.tag)?;
    put_if(&mut content, REF_MSG_TYPE, &refusal.msg_type)?;
    put_number_if(&mut content, SESSION_REJECT_REASON, refusal.reason)?;
    put_if(&mut content, TEXT, &refusal.text)?;
    said(alloc, b"3", &content)
}

/// The BusinessMessageReject(j) of a refusal.
#[tactic(auto, unfolding(crate::specs::Content::business_reject))]
pub(crate) fn business_reject(alloc: Global, refusal: &Refusal) -> Result<Said, AllocError>
    ensures { IfOk result (λ said. said ≡ business_reject refusal.now) }
{
    let mut content = Vec::new(alloc);
    put_number_if(&mut content, REF_SEQ_NUM, refusal.number)?;
    put_if(&mut content, REF_MSG_TYPE, &refusal.msg_type)?;
    put_if(&mut content, BUSINESS_REJECT_REF_ID, &refusal.id)?;
    put_number_if(&mut content, BUSINESS_REJECT_REASON, refusal.reason)?;
    put_if(&mut content, TEXT, &refusal.text)?;
    said(alloc, b"j", &content)
}

/// The message of this type, with this content.
fn said(alloc: Global, msg_type: &[u8], content: &[u8]) -> Result<Said, AllocError>
    ensures { IfOk result (λ said. said ≡
        record { msg_type = msg_type.now; content = content.now; admin = false }) }
{
    Ok(Said {
        msg_type: Bytes::copy(alloc, msg_type)?,
        content: Bytes::copy(alloc, content)?,
        admin: false,
    })
}

/// Appends the field of a tag, where it has a number.
fn put_number_if(out: &mut Vec<u8>, tag: u32, number: Option<u32>) -> Result<(), AllocError>
    ensures { OnOk result (out.new.items ≡ out.old.items ++ body_of (number_if tag number)) }
{
    match number {
        Some(number) => put_number(out, tag, number),
        None => Ok(()),
    }
}

/// Appends the field of a tag, where it has a value.
fn put_if(out: &mut Vec<u8>, tag: u32, value: &Option<Bytes>) -> Result<(), AllocError>
    ensures { OnOk result (out.new.items ≡ out.old.items ++ body_of (field_if tag value.now)) }
{
    match value {
        Some(value) => put_field(out, tag, value.as_slice()),
        None => Ok(()),
    }
}
