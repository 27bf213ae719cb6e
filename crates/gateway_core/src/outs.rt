//! The messages of an entry, each with its number.

ghost use Rattle.std.specs.Prelude.{◌≡◌, ◌+◌, ◌<◌, ◌≤◌, ◌^◌, ◌++◌, ◌∷◌, [], true, length, IfOk};
ghost use Rattle.std.specs.Prelude.{OnOk, IfSome};
ghost use Rattle.std.specs.Option.{option_to_list};
ghost use Rattle.session_core.specs.Table.{says};
ghost use Rattle.session_logon.specs.Content.{said};
ghost use Rattle.pair_entries.specs.Payload.{IsOut, AreOuts};
ghost use Rattle.event_decisions.specs.Decide.{out_of, says_of};
ghost use Rattle.message_answers.specs.Seen.{IsFit};
ghost use Rattle.gateway_core.specs.Planning.{HasReasonWords, HasWords, IsEcho, echoes};
ghost use Rattle.gateway_core.specs.Planning.{heard_by, silent};

use order_meaning::Side;
use pair_entries::{MAX_OUTS, Out, Outs};
use session_core::{ALL_USED, Act, Admin, Said, Why};
use session_logon::say;
use std::alloc::{AllocError, Global};

/// The message to which a session answers.
#[derive(Drop)]
pub(crate) struct Heard<'a> {
    /// MsgSeqNum(34), or 0 where there is none.
    pub(crate) number: u32,
    /// MsgType(35).
    pub(crate) msg_type: &'a [u8],
    /// TestReqID(112), or nothing where there is none.
    pub(crate) echo: &'a [u8],
}

/// The session that speaks, and what it answers.
#[derive(Drop)]
pub(crate) struct Speaker<'a> {
    /// To whom.
    pub(crate) side: Side,
    /// HeartBtInt(108) of the session, in seconds.
    pub(crate) heart: u32,
    /// What it answers.
    pub(crate) heard: Heard<'a>,
}

impl<'a> Heard<'a> {
    /// No message.
    pub(crate) fn nothing() -> Heard<'a>
        ensures heard { heard_by result ≡ silent }
        ensures echo { result.echo.now ≡ [] }
    {
        Heard {
            number: 0,
            msg_type: b"",
            echo: b"",
        }
    }
}

/// A message under a number.
pub(crate) fn out_of(side: Side, number: u32, resend: bool, said: Said) -> Out
    ensures { result ≡ out_of side number resend said }
{
    Out {
        side,
        number,
        admin: said.admin,
        resend,
        msg_type: said.msg_type,
        content: said.content,
    }
}

/// Adds a message within its bounds behind fewer than four.
///
/// # Errors
///
/// `AllocError` for want of memory.
pub(crate) fn push(outs: &mut Outs, out: Out) -> Result<(), AllocError>
    requires room { length outs.old < MAX_OUTS }
    requires out { IsOut out }
    requires outs { AreOuts outs.old }
    ensures added { OnOk result (outs.new ≡ outs.old ++ out ∷ []) }
    ensures outs { OnOk result (AreOuts outs.new) }
{
    outs.push(out)
}

/// The same of a message, where there is one.
///
/// # Errors
///
/// `AllocError` for want of memory.
pub(crate) fn push_if(outs: &mut Outs, out: Option<Out>) -> Result<(), AllocError>
    requires room { length outs.old < MAX_OUTS }
    requires out { IfSome out IsOut }
    requires outs { AreOuts outs.old }
    ensures added { OnOk result (outs.new ≡ outs.old ++ option_to_list out) }
    ensures outs { OnOk result (AreOuts outs.new) }
{
    match out {
        Some(out) => push(outs, out),
        None => Ok(()),
    }
}

// The numbers of a reason fit their type. It says so to the prover.
fn has_reason_words(why: Why)
    ensures { HasReasonWords why }
{
    match why {
        Why::TooLow { expected, got } => {
            let _ = (expected, got);
        }
        Why::Logon(tag) => {
            let _ = tag;
        }
        _ => {}
    }
}

// The same of a session's message.
fn has_words(admin: Admin)
    ensures { HasWords admin }
{
    match admin {
        Admin::Logout(why) => has_reason_words(why),
        Admin::ResendRequest { from } => {
            let _ = from;
        }
        Admin::Reject { tag, reason } => {
            let _ = (tag, reason);
        }
        _ => {}
    }
}

// And of a number.
fn has_bound(number: u32)
    ensures { number < 2 ^ 32 }
{}

// A message of a session, which may stand in an entry.
fn said_by(
    alloc: Global,
    speaker: &Speaker<'_>,
    number: u32,
    admin: &Admin,
) -> Result<Said, AllocError>
    requires echo { admin.now ≡ Admin.Heartbeat true → IsEcho speaker.now.heard.echo.now }
    ensures said { IfOk result (λ words. words ≡ said speaker.now.side admin.now speaker.now.heart
        number speaker.now.heard.number speaker.now.heard.msg_type.now
        speaker.now.heard.echo.now) }
    ensures fit { IfOk result IsFit }
{
    has_words(*admin);
    let Speaker { side, heart, heard } = speaker;
    has_bound(*heart);
    has_bound(heard.number);
    let words = say(
        alloc,
        *side,
        admin,
        *heart,
        number,
        heard.number,
        heard.msg_type,
        heard.echo,
    )?;
    Ok(words)
}

/// Adds the messages of a session's own among these acts, numbered from this number on.
///
/// # Errors
///
/// `AllocError` for want of memory.
pub(crate) fn say_all(
    alloc: Global,
    speaker: &Speaker<'_>,
    first: u32,
    acts: &[Act],
    outs: &mut Outs,
) -> Result<(), AllocError>
    requires room { length outs.old + says acts.now ≤ MAX_OUTS }
    requires numbers { first + says acts.now ≤ ALL_USED }
    requires echo { echoes acts.now ≡ true → IsEcho speaker.now.heard.echo.now }
    requires outs { AreOuts outs.old }
    ensures added { OnOk result (outs.new ≡ outs.old ++ says_of speaker.now.side
        speaker.now.heart (heard_by speaker.now.heard) first acts.now) }
    ensures outs { OnOk result (AreOuts outs.new) }
{
    match acts {
        [] => Ok(()),
        [Act::Say(admin), rest @ ..] => {
            let said = said_by(alloc, speaker, first, admin)?;
            push(outs, out_of(speaker.side, first, false, said))?;
            say_all(alloc, speaker, first + 1, rest, outs)
        }
        [
            Act::Take | Act::Skip | Act::Resend { .. } | Act::HangUp,
            rest @ ..,
        ] => say_all(alloc, speaker, first, rest, outs),
    }
}
