//! Frames of messages and of gap fills.

use crate::logons::type_and_fields;
use crate::sessions::is_yes;
use order_meaning::{Name, Names, Side};
use pair_entries::{MAX_AT, MAX_CONTENT, MAX_TYPE};
use row_words::{SOH, behind, bytes_of, long_number, number, side_of, word};
use session_core::MAX_MSG_SEQ_NUM;
use session_frames::{FRAME_ROOM, FrameBuf, fill_out, frame_out};
use std::alloc::{AllocError, Global};

/// Who writes, the number, the moments of the first time and of now, whether PossResend(97) is set,
/// and whether the message is sent again.
#[derive(Clone, Copy)]
struct Sending {
    side: Side,
    number: u32,
    first: u64,
    now: u64,
    resend: bool,
    again: bool,
}

fn read_sending(text: &str) -> Option<Sending> {
    Some(Sending {
        side: side_of(word(text, 0))?,
        number: number(word(text, 1))?,
        first: long_number(word(text, 2))?,
        now: long_number(word(text, 3))?,
        resend: is_yes(word(text, 4)),
        again: is_yes(word(text, 5)),
    })
}

// Writes the frame of a message, whose numbers and lengths are within their bounds.
fn send(names: &Names, sending: &Sending, msg_type: &[u8], content: &[u8], buf: &mut FrameBuf) {
    let numbered = 1 <= sending.number && sending.number <= MAX_MSG_SEQ_NUM;
    let typed = !msg_type.is_empty() && msg_type.len() <= MAX_TYPE;
    let timed = sending.first <= MAX_AT && sending.now <= MAX_AT;
    if numbered && typed && timed && content.len() <= MAX_CONTENT {
        frame_out(
            names,
            sending.side,
            sending.number,
            msg_type,
            content,
            sending.resend,
            sending.first,
            sending.now,
            sending.again,
            buf,
        );
    }
}

// A copy of the frame in a buffer; nothing where it takes more room than a frame may.
fn copied(alloc: Global, buf: &FrameBuf) -> Result<Vec<u8>, AllocError> {
    if buf.bytes().len() > FRAME_ROOM {
        return Ok(Vec::new(alloc));
    }
    Vec::from_slice(alloc, buf.bytes())
}

fn frame_of(
    alloc: Global,
    names: &Names,
    sending: &Sending,
    text: &str,
) -> Result<Vec<u8>, AllocError> {
    let Some((msg_type, fields)) = type_and_fields(text) else {
        return Vec::from_slice(alloc, b"no type");
    };
    let content = bytes_of(alloc, &[SOH], fields)?;
    let mut buf = FrameBuf::new(alloc)?;
    send(names, sending, msg_type.as_bytes(), &content, &mut buf);
    copied(alloc, &buf)
}

fn frame_between(alloc: Global, names: Option<Names>, given: &str) -> Result<Vec<u8>, AllocError> {
    match (names, read_sending(given)) {
        (Some(names), Some(sending)) => frame_of(alloc, &names, &sending, behind(given, 6)),
        _ => Vec::from_slice(alloc, b"no message to send"),
    }
}

// The client's names, and these of the session with the venue.
fn names(our: &[u8], peer: &[u8]) -> Option<Names> {
    Some(Names {
        client_our: Name::new(b"GATE")?,
        client_peer: Name::new(b"CLNT")?,
        venue_our: Name::new(our)?,
        venue_peer: Name::new(peer)?,
    })
}

/// The frame of a message: given are the side, the number, the moment of the first time and that of
/// now, PossResend(97), whether it is sent again, and its type and content.
pub(crate) fn frame(alloc: Global, given: &str) -> Result<Vec<u8>, AllocError> {
    frame_between(alloc, names(b"GATE5", b"VENU"), given)
}

/// The same between names that are as long as a name may be.
pub(crate) fn long_frame(alloc: Global, given: &str) -> Result<Vec<u8>, AllocError> {
    frame_between(alloc, names(&[b'O'; 35], &[b'P'; 35]), given)
}

// Writes the frame of a gap fill, whose numbers and moments are within their bounds.
fn fill(names: &Names, sending: &Sending, to: u32, buf: &mut FrameBuf) {
    let from = sending.number;
    let timed = sending.first <= MAX_AT && sending.now <= MAX_AT;
    if from >= 1 && from <= to && to <= MAX_MSG_SEQ_NUM && timed {
        fill_out(
            names,
            sending.side,
            from,
            to,
            sending.first,
            sending.now,
            buf,
        );
    }
}

/// The frame of a gap fill: given are the side, the first number, the moment of the first time and
/// that of now, and the last number.
pub(crate) fn gap_fill(alloc: Global, given: &str) -> Result<Vec<u8>, AllocError> {
    match (
        names(b"GATE5", b"VENU"),
        read_sending(given),
        number(word(given, 4)),
    ) {
        (Some(names), Some(sending), Some(to)) => {
            let mut buf = FrameBuf::new(alloc)?;
            fill(&names, &sending, to, &mut buf);
            copied(alloc, &buf)
        }
        _ => Vec::from_slice(alloc, b"no gap to fill"),
    }
}
