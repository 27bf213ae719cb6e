//! Sessions and messages as words, and what a session does.
//!
//! A session is written `side link next_in next_out heart seen said tested top since`, with `-` for
//! what there is not; a message `number dup comp time kind a b`, where the kind and its one or two
//! numbers come last.

ghost use Rattle.std.specs.Prelude.{IfSome};
ghost use Rattle.session_core.specs.Head.{HasNumbers};
ghost use Rattle.session_core.specs.Numbers.{IsMsgSeqNum};

use row_words::{behind, long_number, number, side_of, word};
use session_core::{
    ALL_USED, Ask, Head, LinkState, MAX_MSG_SEQ_NUM, Numbers, Session, Spent, Step, What,
};
use std::alloc::{AllocError, Global};

/// Whether a word is `Y`.
pub(crate) fn is_yes(word: &str) -> bool {
    word == "Y"
}

fn link(word: &str) -> Option<LinkState> {
    match word {
        "Down" => Some(LinkState::Down),
        "Wait" => Some(LinkState::Wait),
        "Asked" => Some(LinkState::Asked),
        "Active" => Some(LinkState::Active),
        _ => None,
    }
}

fn numbers(next_in: u32, next_out: u32) -> Option<Numbers> {
    if next_in == 0 || next_in > ALL_USED || next_out == 0 || next_out > ALL_USED {
        return None;
    }
    Some(Numbers { next_in, next_out })
}

fn ask(top: &str, since: &str) -> Option<Ask> {
    Some(Ask {
        top: number(top)?,
        since: long_number(since)?,
    })
}

/// The session of ten words.
pub(crate) fn session(text: &str) -> Option<Session> {
    let next_in = number(word(text, 2))?;
    let next_out = number(word(text, 3))?;
    Some(Session {
        side: side_of(word(text, 0))?,
        link: link(word(text, 1))?,
        numbers: numbers(next_in, next_out)?,
        heart: number(word(text, 4))?,
        seen: long_number(word(text, 5))?,
        said: long_number(word(text, 6))?,
        tested: long_number(word(text, 7)),
        ask: ask(word(text, 8), word(text, 9)),
    })
}

fn reason(number: u32) -> u8 {
    u8::try_from(number).unwrap_or(0)
}

// The kind of a name and of up to two numbers, of which some are bounded.
fn kind(name: &str, a: u32, b: u32) -> Option<What>
    ensures { IfSome result (λ what. HasNumbers what) }
{
    let (reset, reason) = (b == 1, reason(b));
    match name {
        "Logon" => Some(What::Logon { heart: a, reset }),
        "Heartbeat" => Some(What::Heartbeat),
        "TestRequest" => Some(What::TestRequest),
        "Reject" => Some(What::Reject),
        "Logout" => Some(What::Logout),
        "App" => Some(What::App),
        "BadLogon" => Some(What::BadLogon { tag: a }),
        "FaultyReset" => Some(What::FaultyReset { tag: a, reason }),
        "Faulty" => Some(What::Faulty { tag: a, reason }),
        _ if a == 0 || a > ALL_USED => None,
        "GapFill" => Some(What::GapFill { to: a }),
        "Reset" => Some(What::Reset { to: a }),
        "ResendRequest" if a <= MAX_MSG_SEQ_NUM => Some(What::ResendRequest { from: a, to: b }),
        _ => None,
    }
}

fn message_number(word: &str) -> Option<u32>
    ensures { IfSome result (λ n. IsMsgSeqNum n) }
{
    let number = number(word)?;
    if number == 0 || number > MAX_MSG_SEQ_NUM {
        return None;
    }
    Some(number)
}

// The message of these words.
fn head(text: &str) -> Option<Head> {
    let a = number(word(text, 5)).unwrap_or(0);
    let b = number(word(text, 6)).unwrap_or(0);
    let what = kind(word(text, 4), a, b)?;
    Some(Head {
        number: message_number(word(text, 0)),
        dup: is_yes(word(text, 1)),
        comp: number(word(text, 2)),
        time: number(word(text, 3)).map(reason),
        what,
    })
}

// A moment as a word.
fn moment_word(alloc: Global, moment: Option<u64>) -> Result<String, AllocError> {
    match moment {
        Some(moment) => format!(in alloc; "{moment}"),
        None => format!(in alloc; "-"),
    }
}

fn ask_words(alloc: Global, ask: Option<Ask>) -> Result<String, AllocError> {
    match ask {
        Some(Ask { top, since }) => format!(in alloc; "{top} {since}"),
        None => format!(in alloc; "- -"),
    }
}

/// The words of a session.
pub(crate) fn session_words(alloc: Global, session: &Session) -> Result<String, AllocError> {
    let Numbers { next_in, next_out } = session.numbers;
    let first = format!(in alloc;
        "{:?} {:?} {next_in} {next_out}",
        session.side, session.link
    )?;
    let tested = moment_word(alloc, session.tested)?;
    let ask = ask_words(alloc, session.ask)?;
    let (heart, seen, said) = (session.heart, session.seen, session.said);
    format!(in alloc; "{first} {heart} {seen} {said} {tested} {ask}")
}

// The acts and the session after them.
fn stepped(alloc: Global, step: Result<Step, Spent>) -> Result<String, AllocError> {
    match step {
        Ok(step) => { format!(in alloc; "{:?} {}", step.acts, session_words(alloc, &step.next)?) }
        Err(Spent) => format!(in alloc; "Spent"),
    }
}

/// What a session does as the message of these words comes.
pub(crate) fn heard(
    alloc: Global,
    session: &Session,
    now: u64,
    text: &str,
) -> Result<String, AllocError> {
    match head(text) {
        Some(head) => stepped(alloc, session.on_message(&head, now)),
        None => format!(in alloc; "no message"),
    }
}

// A call on a session at a moment. The number of a message that is given out stands before the
// session after it.
fn called(
    alloc: Global,
    call: &str,
    session: &Session,
    now: u64,
    text: &str,
) -> Result<String, AllocError> {
    match call {
        "message" => heard(alloc, session, now, text),
        "tick" => stepped(alloc, session.on_tick(now)),
        "open" => stepped(alloc, session.on_open(now)),
        "end" => stepped(alloc, session.on_end(now)),
        "give" => match session.give(now) {
            Ok((number, after)) => format!(in alloc; "{number} {}", session_words(alloc, &after)?),
            Err(Spent) => format!(in alloc; "Spent"),
        },
        "on-closed" => session_words(alloc, &session.on_closed()),
        "new" => {
            let new = Session::new(session.side, session.numbers, session.heart);
            session_words(alloc, &new)
        }
        _ => format!(in alloc; "no such call"),
    }
}

/// The answer of a session to a call, of which the moment, the session and the message are given.
pub(crate) fn answer(alloc: Global, call: &str, given: &str) -> Result<String, AllocError> {
    match (long_number(word(given, 0)), session(behind(given, 1))) {
        (Some(now), Some(session)) => called(alloc, call, &session, now, behind(given, 11)),
        _ => format!(in alloc; "no session"),
    }
}
