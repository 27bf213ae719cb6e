//! What is read of a message, and what is said. Its type is that of the field 35 which a text
//! begins with.

use crate::entries::names;
use crate::sessions::is_yes;
use field_groups::split;
use order_meaning::Side;
use row_words::{SOH, behind, bytes_of, long_number, number, shown, side_of, word};
use session_core::{Admin, Head, Why};
use session_logon::{check_logon, read_head, say};
use std::alloc::{AllocError, Global};

/// The type of a text that begins with the field 35, and what is behind that.
pub(crate) fn type_and_fields(text: &str) -> Option<(&str, &str)> {
    text.strip_prefix("35=")?.split_once('|')
}

// A message with these fields, as it is read.
fn read(
    alloc: Global,
    side: Side,
    window: u32,
    now: u64,
    msg_type: &str,
    body: &[u8],
) -> Result<Option<Head>, AllocError> {
    let split = split(alloc, body)?;
    let Some(names) = names() else {
        return Ok(None);
    };
    Ok(Some(read_head(side, &names, window, msg_type.as_bytes(), &split, now)))
}

fn head_words(alloc: Global, head: &Head) -> Result<String, AllocError> {
    let Head {
        number,
        dup,
        comp,
        time,
        what,
    } = *head;
    format!(in alloc; "{number:?} {dup} {comp:?} {time:?} {what:?}")
}

fn head_read(
    alloc: Global,
    side: Side,
    window: u32,
    now: u64,
    text: &str,
) -> Result<String, AllocError> {
    let body = bytes_of(alloc, &[SOH], text)?;
    let Some((msg_type, _)) = type_and_fields(text) else {
        return format!(in alloc; "no type");
    };
    match read(alloc, side, window, now, msg_type, &body)? {
        Some(head) => head_words(alloc, &head),
        None => format!(in alloc; "no names"),
    }
}

/// The head of a message: given are the side, the window in seconds, the moment and the body.
pub(crate) fn head(alloc: Global, given: &str) -> Result<String, AllocError> {
    match (
        side_of(word(given, 0)),
        number(word(given, 1)),
        long_number(word(given, 2)),
    ) {
        (Some(side), Some(window), Some(now)) => {
            head_read(alloc, side, window, now, behind(given, 3))
        }
        _ => format!(in alloc; "no side, window and moment"),
    }
}

/// What a Logon says: given are the side and the fields.
pub(crate) fn checked(alloc: Global, given: &str) -> Result<String, AllocError> {
    let fields = bytes_of(alloc, &[SOH], behind(given, 1))?;
    let split = split(alloc, &fields)?;
    match side_of(word(given, 0)) {
        Some(side) => format!(in alloc; "{:?}", check_logon(side, &split.fields)),
        None => format!(in alloc; "no side"),
    }
}

/// How many fields a body has, and whether it has a fault.
pub(crate) fn counted(alloc: Global, text: &str) -> Result<String, AllocError> {
    let body = bytes_of(alloc, &[SOH], text)?;
    let split = split(alloc, &body)?;
    format!(in alloc; "{} {}", split.fields.len(), split.fault.is_some())
}

// Why a Logout is sent: a name and up to two numbers.
fn why(name: &str, a: u32, b: u32) -> Option<Why> {
    match name {
        "TooLow" => Some(Why::TooLow {
            expected: a,
            got: b,
        }),
        "NoNumber" => Some(Why::NoNumber),
        "Logon" => Some(Why::Logon(a)),
        "CompId" => Some(Why::CompId),
        "Clock" => Some(Why::Clock),
        "Answer" => Some(Why::Answer),
        "End" => Some(Why::End),
        _ => None,
    }
}

fn rejected(text: &str) -> Option<Admin> {
    Some(Admin::Reject {
        tag: number(word(text, 1))?,
        reason: word(text, 2).parse::<u8>().ok()?,
    })
}

fn logged_out(text: &str) -> Option<Admin> {
    let a = number(word(text, 2)).unwrap_or(0);
    let b = number(word(text, 3)).unwrap_or(0);
    Some(Admin::Logout(why(word(text, 1), a, b)?))
}

// The message of these words.
fn admin(text: &str) -> Option<Admin> {
    match word(text, 0) {
        "Logon" => Some(Admin::Logon {
            reset: is_yes(word(text, 1)),
        }),
        "Logout" => logged_out(text),
        "Heartbeat" => Some(Admin::Heartbeat {
            echo: is_yes(word(text, 1)),
        }),
        "TestRequest" => Some(Admin::TestRequest),
        "ResendRequest" => Some(Admin::ResendRequest {
            from: number(word(text, 1))?,
        }),
        _ => rejected(text),
    }
}

/// What HeartBtInt(108) is, the message's own number, and the number and the type that it answers.
#[derive(Clone, Copy)]
struct About<'a> {
    heart: u32,
    next_out: u32,
    number: u32,
    msg_type: &'a str,
}

fn read_about(text: &str) -> Option<About<'_>> {
    Some(About {
        heart: number(word(text, 0))?,
        next_out: number(word(text, 1))?,
        number: number(word(text, 2))?,
        msg_type: word(text, 3),
    })
}

// A message as its type, `|` and its content; `+` before it where a gap fill stands for it.
fn said_of(
    alloc: Global,
    side: Side,
    admin: &Admin,
    about: &About<'_>,
) -> Result<String, AllocError> {
    let said = say(
        alloc,
        side,
        admin,
        about.heart,
        about.next_out,
        about.number,
        about.msg_type.as_bytes(),
        b"ping",
    )?;
    let admin = if said.admin { "+" } else { "" };
    let msg_type = shown(alloc, said.msg_type.as_slice())?;
    let content = shown(alloc, said.content.as_slice())?;
    format!(in alloc; "{admin}{msg_type}|{content}")
}

/// What is said: given are the side, HeartBtInt(108), the message's own number, the number and the
/// type that it answers, and the message.
pub(crate) fn said(alloc: Global, given: &str) -> Result<String, AllocError> {
    let about = read_about(behind(given, 1));
    match (side_of(word(given, 0)), about, admin(behind(given, 5))) {
        (Some(side), Some(about), Some(admin)) => said_of(alloc, side, &admin, &about),
        _ => format!(in alloc; "no message to say"),
    }
}
