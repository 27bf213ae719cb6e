//! The header of a translation.

ghost use Rattle.std.specs.Prelude.{◌≡◌, ◌≤◌, ◌+◌, ◌++◌, ℕ, List, length, take};
ghost use Rattle.std.specs.Prelude.{IfSome, OnOk};
ghost use Rattle.field_groups.specs.Field.{body_of, field_bytes};
ghost use Rattle.translation.specs.Header.{carried_down, carried_field, carried_tags, head_down};
ghost use Rattle.translation.specs.Header.{header, type_of};
ghost use Rattle.translation.specs.Writing.{put};

use field_groups::{Fields, put_known};
use message_tables::Lookup;
use std::alloc::AllocError;
use typed_fields::{Stamp, cut_text};

/// MsgType(35), the value of the first field; nothing where there is none.
pub fn msg_type<'a>(fields: &Fields<'a>) -> &'a [u8]
    ensures { result.now ≡ type_of fields.now }
{
    match fields.at(0) {
        Some((_, value)) => value,
        None => b"",
    }
}

/// The most bytes of a moment with no more digits of the second than three.
const MILLIS: usize = 21;

/// What is carried of a value on the way down. One that is no longer than a moment to its
/// milliseconds has nothing to be cut.
#[inline(always)]
#[tactic(auto, using(crate::proofs::CarriedDown::short_stays))]
fn carried_down(tag: u32, value: &[u8]) -> &[u8]
    ensures { result.now ≡ carried_down tag value.now }
{
    if value.len() <= MILLIS {
        return value;
    }
    if (tag == 52 || tag == 122) && Stamp::read_fine(value).is_ok() {
        cut_text(value)
    } else {
        value
    }
}

/// The fields whose header is carried down: SendingTime(52) and OrigSendingTime(122), where they
/// are moments in the fine form, have no more digits of the second than three.
#[derive(Clone, Copy)]
pub struct HeadDown<'f, 'a> {
    /// The fields, as they stand.
    pub fields: &'f Fields<'a>,
}

impl<'f, 'a> HeadDown<'f, 'a> {
    /// MsgType(35), the value of the first field; nothing where there is none.
    pub fn msg_type(&self) -> &[u8]
        ensures { result.now ≡ type_of (head_down self.now.fields.now) }
    {
        match self.fields.at(0) {
            Some((tag, value)) => carried_down(tag, value),
            None => b"",
        }
    }
}

impl<'f, 'a> Lookup for HeadDown<'f, 'a> {
    ghost fields = { λ head. head_down head.fields.now };

    #[inline(always)]
    fn value(&self, tag: u32) -> Option<&[u8]> {
        match self.fields.value(tag) {
            None => None,
            Some(value) => Some(carried_down(tag, value)),
        }
    }
}

/// Appends the first of these fields with a tag, if there is one.
#[inline(always)]
fn write_carried<F: Lookup>(tag: u32, fields: &F, out: &mut Vec<u8>) -> Result<(), AllocError>
    ensures { OnOk result (out.new.items
        ≡ out.old.items ++ body_of (carried_field (F.fields fields.now) tag)) }
{
    match fields.value(tag) {
        None => Ok(()),
        Some(value) => put_known(out, tag, value),
    }
}

/// The front of a body that is five fields of these values, whose tags have two digits.
#[inline(always)]
fn five_fields<'b>(
    body: &'b [u8],
    kind: &[u8],
    sender: &[u8],
    target: &[u8],
    number: &[u8],
    time: &[u8],
) -> &'b [u8]
    requires { length kind.now + length sender.now + length target.now + length number.now
        + length time.now + 20 ≤ length body.now }
    ensures { result.now ≡ take (length kind.now + length sender.now + length target.now
        + length number.now + length time.now + 20) body.now }
{
    &body[..kind.len() + sender.len() + target.len() + number.len() + time.len() + 20]
}

/// The front of the body of these fields, where it is their header as a translation writes it, up
/// or down: MsgType(35), SenderCompID(49), TargetCompID(56), MsgSeqNum(34) and a SendingTime(52)
/// that has nothing to be cut, with no other field that is carried. Most messages begin so.
#[inline(always)]
fn header_at_front<'b>(body: &'b [u8], fields: &Fields<'_>) -> Option<&'b [u8]>
    requires { (left : List ℕ) × (body.now ≡ body_of fields.now ++ left) }
    ensures up { IfSome result (λ front. front.now ≡ body_of (header fields.now)) }
    ensures down { IfSome result (λ front. front.now ≡ body_of (header (head_down fields.now))) }
{
    let [kind, sender, target, number, time, ..] = fields.as_slice() else {
        return None;
    };
    let (None, None, None) = (fields.value(43), fields.value(97), fields.value(122)) else {
        return None;
    };
    if kind.0 == 35
        && sender.0 == 49
        && target.0 == 56
        && number.0 == 34
        && time.0 == 52
        && time.1.len() <= MILLIS
    {
        Some(five_fields(body, kind.1, sender.1, target.1, number.1, time.1))
    } else {
        None
    }
}

/// Appends the header of a translation: MsgType(35), and then SenderCompID(49), TargetCompID(56),
/// MsgSeqNum(34), PossDupFlag(43), PossResend(97), SendingTime(52) and OrigSendingTime(122) where
/// these fields have them.
///
/// # Errors
///
/// `AllocError` for want of memory; then a part of the header may stand at the end of `out`.
#[inline(never)]
fn write_head<F: Lookup>(msg_type: &[u8], fields: &F, out: &mut Vec<u8>) -> Result<(), AllocError>
    ensures { OnOk result (out.new.items ≡ put (carried_field (F.fields fields.now))
        (out.old.items ++ field_bytes (35, msg_type.now)) carried_tags) }
{
    put_known(out, 35, msg_type)?;
    write_carried(49, fields, out)?;
    write_carried(56, fields, out)?;
    write_carried(34, fields, out)?;
    write_carried(43, fields, out)?;
    write_carried(97, fields, out)?;
    write_carried(52, fields, out)?;
    write_carried(122, fields, out)
}

/// Appends the header of a translation up of a body of these fields: MsgType(35) and what is
/// carried, as it stands.
///
/// # Errors
///
/// `AllocError` for want of memory; then a part of the header may stand at the end of `out`.
#[tactic(auto, using(crate::proofs::FrontHeader::put_header))]
pub fn put_head_up(body: &[u8], fields: &Fields<'_>, out: &mut Vec<u8>) -> Result<(), AllocError>
    requires { (left : List ℕ) × (body.now ≡ body_of fields.now ++ left) }
    ensures { OnOk result (out.new.items ≡ put (carried_field fields.now)
        (out.old.items ++ field_bytes (35, type_of fields.now)) carried_tags) }
{
    match header_at_front(body, fields) {
        Some(front) => out.extend_from_slice(front),
        None => write_head(msg_type(fields), fields, out),
    }
}

/// The same of a translation down, where moments are cut.
///
/// # Errors
///
/// As [`put_head_up`].
#[tactic(auto, using(crate::proofs::FrontHeader::put_header))]
pub fn put_head_down(body: &[u8], fields: &Fields<'_>, out: &mut Vec<u8>) -> Result<(), AllocError>
    requires { (left : List ℕ) × (body.now ≡ body_of fields.now ++ left) }
    ensures { OnOk result (out.new.items ≡ put (carried_field (head_down fields.now))
        (out.old.items ++ field_bytes (35, type_of (head_down fields.now))) carried_tags) }
{
    match header_at_front(body, fields) {
        Some(front) => out.extend_from_slice(front),
        None => {
            let head = HeadDown { fields };
            write_head(head.msg_type(), &head, out)
        }
    }
}
