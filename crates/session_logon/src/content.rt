//! What a session says: the type and the content of each of its messages.

ghost use Rattle.std.specs.Prelude.{◌≡◌, ◌++◌, IfOk, OnOk, codes, decimal};
ghost use Rattle.std.specs.Option.{option_map};
ghost use Rattle.field_groups.specs.Field.{body_of};
ghost use Rattle.session_logon.specs.Content.{said, type_of, logon_fields};
ghost use Rattle.session_logon.specs.Content.{logout_text, logout_fields, heartbeat_fields};
ghost use Rattle.session_logon.specs.Content.{test_request_fields, resend_request_fields};
ghost use Rattle.session_logon.specs.Content.{rejected_fields, reason_field, reason_fields};
ghost use Rattle.session_logon.specs.Content.{text_field};

use field_groups::{put_field, put_number};
use itoa::Buffer;
use order_meaning::{Bytes, Side};
use session_core::reason::{session_reason, session_text};
use session_core::tag::{
    BEGIN_SEQ_NO, DEFAULT_APPL_VER_ID, ENCRYPT_METHOD, END_SEQ_NO, HEART_BT_INT, REF_MSG_TYPE,
    REF_SEQ_NUM, REF_TAG_ID, RESET_SEQ_NUM_FLAG, SESSION_REJECT_REASON, TEST_REQ_ID, TEXT,
};
use session_core::{Admin, Said, Why, ref_msg_type};
use std::alloc::{AllocError, Global};

// MsgType(35).
fn type_of(admin: &Admin) -> &'static [u8]
    ensures { result.now ≡ type_of admin.now }
{
    match admin {
        Admin::Logon { .. } => b"A",
        Admin::Logout(_) => b"5",
        Admin::Heartbeat { .. } => b"0",
        Admin::TestRequest => b"1",
        Admin::ResendRequest { .. } => b"2",
        Admin::Reject { .. } => b"3",
    }
}

// Appends a number in decimal digits to a text.
fn push_number(out: &mut Bytes, number: u32) -> Result<(), AllocError>
    ensures { OnOk result (out.new ≡ out.old ++ decimal number) }
{
    out.extend_from_slice(Buffer::new().format(number).as_bytes())
}

fn push_logon(out: &mut Vec<u8>, side: Side, reset: bool, heart: u32) -> Result<(), AllocError>
    ensures { OnOk result (out.new.items
        ≡ out.old.items ++ body_of (logon_fields side reset heart)) }
{
    put_field(out, ENCRYPT_METHOD, b"0")?;
    put_number(out, HEART_BT_INT, heart)?;
    match side {
        Side::Client if reset => put_field(out, RESET_SEQ_NUM_FLAG, b"Y"),
        Side::Client => Ok(()),
        Side::Venue => put_field(out, DEFAULT_APPL_VER_ID, b"9"),
    }
}

// The text of a Logout for a number that is too low.
fn too_low(alloc: Global, expected: u32, got: u32) -> Result<Bytes, AllocError>
    ensures { IfOk result (λ text. text ≡ codes "MsgSeqNum too low, expecting " ++ decimal expected
        ++ codes " but received " ++ decimal got) }
{
    let mut text = Bytes::copy(alloc, b"MsgSeqNum too low, expecting ")?;
    push_number(&mut text, expected)?;
    text.extend_from_slice(b" but received ")?;
    push_number(&mut text, got)?;
    Ok(text)
}

// The text of a Logout for a refused Logon.
fn refused(alloc: Global, tag: u32) -> Result<Bytes, AllocError>
    ensures { IfOk result (λ text. text ≡ codes "Logon refused, tag " ++ decimal tag) }
{
    let mut text = Bytes::copy(alloc, b"Logon refused, tag ")?;
    push_number(&mut text, tag)?;
    Ok(text)
}

// The text of a Logout, which has none as an answer.
fn logout_text(alloc: Global, why: &Why) -> Result<Bytes, AllocError>
    ensures { IfOk result (λ text. text ≡ logout_text why.now) }
{
    match why {
        Why::TooLow { expected, got } => too_low(alloc, *expected, *got),
        Why::NoNumber => Bytes::copy(alloc, b"MsgSeqNum missing"),
        Why::Logon(tag) => refused(alloc, *tag),
        Why::CompId => Bytes::copy(alloc, b"CompID problem"),
        Why::Clock => Bytes::copy(alloc, b"SendingTime accuracy problem"),
        Why::Answer => Ok(Bytes::new(alloc)),
        Why::End => Bytes::copy(alloc, b"session ended"),
    }
}

fn push_logout(out: &mut Vec<u8>, text: &[u8]) -> Result<(), AllocError>
    ensures { OnOk result (out.new.items ≡ out.old.items ++ body_of (logout_fields text.now)) }
{
    if text.is_empty() {
        Ok(())
    } else {
        put_field(out, TEXT, text)
    }
}

fn push_heartbeat(out: &mut Vec<u8>, has_echo: bool, echo: &[u8]) -> Result<(), AllocError>
    ensures { OnOk result (out.new.items
        ≡ out.old.items ++ body_of (heartbeat_fields has_echo echo.now)) }
{
    if has_echo {
        put_field(out, TEST_REQ_ID, echo)
    } else {
        Ok(())
    }
}

fn push_test_request(alloc: Global, out: &mut Vec<u8>, number: u32) -> Result<(), AllocError>
    ensures { OnOk result (out.new.items ≡ out.old.items ++ body_of (test_request_fields number)) }
{
    let mut text = Bytes::copy(alloc, b"T")?;
    push_number(&mut text, number)?;
    put_field(out, TEST_REQ_ID, text.as_slice())
}

fn push_resend_request(out: &mut Vec<u8>, from: u32) -> Result<(), AllocError>
    ensures { OnOk result (out.new.items ≡ out.old.items ++ body_of (resend_request_fields from)) }
{
    put_number(out, BEGIN_SEQ_NO, from)?;
    put_field(out, END_SEQ_NO, b"0")
}

// Appends a text, where there is one.
fn push_text(out: &mut Vec<u8>, text: Option<&[u8]>) -> Result<(), AllocError>
    ensures { OnOk result (out.new.items ≡ out.old.items
        ++ body_of (text_field (option_map (λ text. text.now) text.entry))) }
{
    match text {
        Some(text) => put_field(out, TEXT, text),
        None => Ok(()),
    }
}

// Appends the number of a reason, where there is one.
fn push_number_of(out: &mut Vec<u8>, reason: Option<u32>) -> Result<(), AllocError>
    ensures { OnOk result (out.new.items ≡ out.old.items ++ body_of (reason_field reason)) }
{
    match reason {
        Some(reason) => put_number(out, SESSION_REJECT_REASON, reason),
        None => Ok(()),
    }
}

fn push_reason(out: &mut Vec<u8>, side: Side, reason: u8) -> Result<(), AllocError>
    ensures { OnOk result (out.new.items ≡ out.old.items ++ body_of (reason_fields side reason)) }
{
    push_number_of(out, session_reason(side, reason))?;
    push_text(out, session_text(side, reason))
}

// Names the message that is rejected, and the field.
fn push_rejected(
    out: &mut Vec<u8>,
    tag: u32,
    number: u32,
    msg_type: &[u8],
) -> Result<(), AllocError>
    ensures { OnOk result (out.new.items
        ≡ out.old.items ++ body_of (rejected_fields tag number msg_type.now)) }
{
    put_number(out, REF_SEQ_NUM, number)?;
    put_number(out, REF_TAG_ID, tag)?;
    put_field(out, REF_MSG_TYPE, ref_msg_type(msg_type))
}

/// The message of a session to a side. (FIX 4.2 and FIXT 1.1, "Administrative Messages".)
///
/// `heart` is the session's HeartBtInt(108) in seconds, and `next_out` the message's own
/// MsgSeqNum(34). The message that it answers has the number `number` and the type `msg_type`, and
/// `echo` is its TestReqID(112).
///
/// # Errors
///
/// `AllocError` for want of memory.
pub fn say(
    alloc: Global,
    side: Side,
    admin: &Admin,
    heart: u32,
    next_out: u32,
    number: u32,
    msg_type: &[u8],
    echo: &[u8],
) -> Result<Said, AllocError>
    ensures { IfOk result (λ message. message
        ≡ said side admin.now heart next_out number msg_type.now echo.now) }
{
    let mut content = Vec::new(alloc);
    match admin {
        Admin::Logon { reset } => push_logon(&mut content, side, *reset, heart)?,
        Admin::Logout(why) => push_logout(&mut content, logout_text(alloc, why)?.as_slice())?,
        Admin::Heartbeat { echo: has_echo } => push_heartbeat(&mut content, *has_echo, echo)?,
        Admin::TestRequest => push_test_request(alloc, &mut content, next_out)?,
        Admin::ResendRequest { from } => push_resend_request(&mut content, *from)?,
        Admin::Reject { tag, reason } => {
            push_rejected(&mut content, *tag, number, msg_type)?;
            push_reason(&mut content, side, *reason)?;
        }
    }
    Ok(Said {
        msg_type: Bytes::copy(alloc, type_of(admin))?,
        content: Bytes::copy(alloc, &content)?,
        admin: !matches!(admin, Admin::Reject { .. }),
    })
}
