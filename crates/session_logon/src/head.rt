//! What a session has to know of a message.

ghost use Rattle.std.specs.Prelude.{◌≡◌};
ghost use Rattle.std.specs.Option.{option_map};
ghost use Rattle.session_core.specs.Head.{HasNumbers};
ghost use Rattle.message_tables.specs.Tables.{value_at};
ghost use Rattle.session_logon.specs.Head.{wrong_of, wrong_time, time_fault, distance};
ghost use Rattle.session_logon.specs.Head.{read_moment};
ghost use Rattle.session_logon.specs.Head.{peer, our, logon_kind, test_request_kind};
ghost use Rattle.session_logon.specs.Head.{resend_request_kind, sequence_reset_kind, kind_of};
ghost use Rattle.session_logon.specs.Head.{head_of};
ghost use Rattle.session_logon.specs.Logon.{logon_of, is_yes};
ghost use Rattle.session_logon.specs.Reasons.{required, read_between};
ghost use Rattle.session_logon.specs.Reasons.{text_fault};

use crate::logon::{LogonFault, check_logon, is_text, is_yes};
use crate::reasons::{number_between, reason_of, text_fault, zero_or_from};
use field_groups::{Fields, Split};
use message_tables::Lookup;
use order_meaning::{Names, Side};
use session_core::reason::{REQUIRED_TAG_MISSING, SENDING_TIME_ACCURACY_PROBLEM};
use session_core::tag::{
    BEGIN_SEQ_NO, END_SEQ_NO, GAP_FILL_FLAG, MSG_SEQ_NUM, NEW_SEQ_NO, POSS_DUP_FLAG,
    SENDER_COMP_ID, SENDING_TIME, TARGET_COMP_ID, TEST_REQ_ID,
};
use session_core::{ALL_USED, Head, MAX_MSG_SEQ_NUM, What};
use typed_fields::{FieldFault, Stamp};

/// The milliseconds of a second.
const SECOND: u64 = 1_000;

// The first of the two names that is missing or wrong, where the header has these.
fn wrong_name(
    side: Side,
    names: &Names,
    sender: Option<&[u8]>,
    target: Option<&[u8]>,
) -> Option<u32>
    ensures { result ≡ wrong_of side names.now (option_map (λ value. value.now) sender.entry)
        (option_map (λ value. value.now) target.entry) }
{
    let (peer, our) = match side {
        Side::Client => (&names.client_peer, &names.client_our),
        Side::Venue => (&names.venue_peer, &names.venue_our),
    };
    if !is_text(sender, peer.as_slice()) {
        Some(SENDER_COMP_ID)
    } else if !is_text(target, our.as_slice()) {
        Some(TARGET_COMP_ID)
    } else {
        None
    }
}

// A moment; the venue's may be in the fine form.
fn read_moment(side: Side, value: &[u8]) -> Result<Stamp, FieldFault>
    ensures { result ≡ read_moment side value.now }
{
    match side {
        Side::Client => Stamp::read(value),
        Side::Venue => Stamp::read_fine(value),
    }
}

// A required stamp, or the reason for which it is none.
fn stamp(side: Side, value: Option<&[u8]>) -> Result<Stamp, u8>
    ensures { result ≡ required (read_moment side) (option_map (λ value. value.now) value.entry) }
{
    match value {
        None => Err(REQUIRED_TAG_MISSING),
        Some(value) => match read_moment(side, value) {
            Ok(stamp) => Ok(stamp),
            Err(fault) => Err(reason_of(fault)),
        },
    }
}

// How far a stamp is from a moment, in milliseconds.
fn distance(now: u64, stamp: &Stamp) -> u128
    ensures { result ≡ distance now stamp.now }
{
    (i128::from(now) - i128::from(stamp.millis())).unsigned_abs()
}

// Why a SendingTime(52) is wrong, if it is.
fn wrong_time(side: Side, window: u32, now: u64, value: Option<&[u8]>) -> Option<u8>
    ensures { result ≡ time_fault window now
        (required (read_moment side) (option_map (λ value. value.now) value.entry)) }
{
    match stamp(side, value) {
        Ok(stamp) if distance(now, &stamp) <= u128::from(SECOND * u64::from(window)) => None,
        Ok(_) => Some(SENDING_TIME_ACCURACY_PROBLEM),
        Err(reason) => Some(reason),
    }
}

fn logon(side: Side, fields: &Fields<'_>) -> What
    ensures kind { result ≡ logon_kind (logon_of side fields.now) }
    ensures numbers { HasNumbers result }
{
    match check_logon(side, fields) {
        Ok((heart, reset)) => What::Logon { heart, reset },
        Err(LogonFault::Tag(tag)) => What::BadLogon { tag },
    }
}

fn test_request(fields: &Fields<'_>) -> What
    ensures kind { result ≡ test_request_kind (text_fault (value_at TEST_REQ_ID fields.now)) }
    ensures numbers { HasNumbers result }
{
    match text_fault(fields.value(TEST_REQ_ID)) {
        None => What::TestRequest,
        Some(reason) => What::Faulty {
            tag: TEST_REQ_ID,
            reason,
        },
    }
}

fn resend_request(fields: &Fields<'_>) -> What
    ensures kind { result ≡ resend_request_kind (required (read_between 1 MAX_MSG_SEQ_NUM)
        (value_at BEGIN_SEQ_NO fields.now)) fields.now }
    ensures numbers { HasNumbers result }
{
    let from = match number_between(fields.value(BEGIN_SEQ_NO), 1, MAX_MSG_SEQ_NUM) {
        Ok(from) => from,
        Err(reason) => {
            return What::Faulty {
                tag: BEGIN_SEQ_NO,
                reason,
            };
        }
    };
    match zero_or_from(fields.value(END_SEQ_NO), from) {
        Ok(to) => What::ResendRequest { from, to },
        Err(reason) => What::Faulty {
            tag: END_SEQ_NO,
            reason,
        },
    }
}

fn sequence_reset(fields: &Fields<'_>) -> What
    ensures kind { result ≡ sequence_reset_kind (is_yes (value_at GAP_FILL_FLAG fields.now))
        (required (read_between 1 ALL_USED) (value_at NEW_SEQ_NO fields.now)) }
    ensures numbers { HasNumbers result }
{
    let tag = NEW_SEQ_NO;
    let to = number_between(fields.value(NEW_SEQ_NO), 1, ALL_USED);
    match (is_yes(fields.value(GAP_FILL_FLAG)), to) {
        (true, Ok(to)) => What::GapFill { to },
        (true, Err(reason)) => What::Faulty { tag, reason },
        (false, Ok(to)) => What::Reset { to },
        (false, Err(reason)) => What::FaultyReset { tag, reason },
    }
}

// The kind of a message, by its MsgType(35).
fn kind(side: Side, msg_type: &[u8], fields: &Fields<'_>) -> What
    ensures kind { result ≡ kind_of side msg_type.now fields.now }
    ensures numbers { HasNumbers result }
{
    match msg_type {
        b"A" => logon(side, fields),
        b"0" => What::Heartbeat,
        b"1" => test_request(fields),
        b"2" => resend_request(fields),
        b"3" => What::Reject,
        b"4" => sequence_reset(fields),
        b"5" => What::Logout,
        _ => What::App,
    }
}

/// The head of a message that came from this side at `now`, in milliseconds since 1970-01-01 00:00
/// UTC. (FIX 4.2 and FIXT 1.1, "Standard message header" and "Administrative Messages".)
///
/// `window` is how many seconds SendingTime(52) may be off to both sides of now; the venue's may
/// have six or nine digits of the second, of which three count. `msg_type` is the value of
/// MsgType(35). The fields before a fault of the split are read. Where a tag stands twice,
/// the first counts. The call takes no memory.
#[inline(never)]
pub fn read_head(
    side: Side,
    names: &Names,
    window: u32,
    msg_type: &[u8],
    split: &Split<'_>,
    now: u64,
) -> Head
    ensures { result ≡ head_of side names.now window msg_type.now split.now.fields now }
{
    let fields = &split.fields;
    let sender = fields.value(SENDER_COMP_ID);
    let target = fields.value(TARGET_COMP_ID);
    Head {
        number: number_between(fields.value(MSG_SEQ_NUM), 1, MAX_MSG_SEQ_NUM).ok(),
        dup: is_yes(fields.value(POSS_DUP_FLAG)),
        comp: wrong_name(side, names, sender, target),
        time: wrong_time(side, window, now, fields.value(SENDING_TIME)),
        what: kind(side, msg_type, fields),
    }
}
