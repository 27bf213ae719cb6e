//! The answer to a message of the application: at most one message, to the side that sent it or to
//! the other one.

ghost use Rattle.std.specs.Prelude.{◌≡◌, length, IfOk, IfSome, None, true};
ghost use Rattle.reject_rules.specs.Laws.{IsBounded};
ghost use Rattle.message_answers.specs.Answer.{to_near};
ghost use Rattle.message_answers.specs.Known.{named, named_by_id};
ghost use Rattle.message_answers.specs.Message.{is_refusal_type};
ghost use Rattle.message_answers.specs.Seen.{IsSplit, IsAnswer, Joins, IsRefused, IsForwarded};
ghost use Rattle.message_answers.specs.Seen.{IsTold};
ghost use Rattle.message_answers.specs.Seen.{IsLacking};
ghost use Rattle.message_answers.specs.Seen.{IsFit, IsFitAnswer, asked_in, known_in, words_in};

use crate::asking::{Asked, Known, Words, other};
use crate::reading::{is_business_type, is_refusal_type, read_refusal};
use crate::reports::reported;
use crate::requests::requested;
use crate::saying::{say_fault, say_told};
use order_chains::ChainItem;
use order_meaning::{Bytes, Fault, Lack, Refusal, Side};
use pair_entries::MAX_CONTENT;
use session_core::Said;
use std::alloc::{AllocError, Global};

/// BodyLength(9), the tag at which a translation that is too long has no counterpart.
const BODY_LENGTH: u32 = 9;

/// What is answered, and the request that joins the chains by it.
#[derive(Debug, Drop)]
pub struct Answer {
    /// The message that is given out; none where nothing is answered.
    pub words: Option<Words>,
    /// The request that goes on, where its id joins.
    pub item: Option<ChainItem>,
}

impl Answer {
    /// Nothing is given out.
    pub(crate) fn nothing() -> Answer
        ensures words { words_in result ≡ None }
        ensures item { result.item ≡ None }
        ensures fit { IsFitAnswer result }
    {
        Answer {
            words: None,
            item: None,
        }
    }

    /// A message to the side that asked.
    pub(crate) fn near(asked: &Asked<'_>, said: Said) -> Answer
        requires { IsFit said }
        ensures words { words_in result ≡ to_near (asked_in asked.now) said }
        ensures item { result.item ≡ None }
        ensures fit { IsFitAnswer result }
    {
        Answer {
            words: Some(Words {
                to: asked.side,
                said,
                resend: false,
            }),
            item: None,
        }
    }
}

/// The refusal of a message for its fault.
///
/// # Errors
///
/// `AllocError` for want of memory, also where that is the fault.
pub(crate) fn refused(alloc: Global, asked: &Asked<'_>, fault: &Fault) -> Result<Answer, AllocError>
    ensures refused { IfOk result (IsRefused asked.now fault.now) }
    ensures fit { IfOk result IsFitAnswer }
{
    let said = say_fault(alloc, asked.side, asked.number, asked.msg_type, *fault)?;
    Ok(Answer::near(asked, said))
}

/// The refusal of a message that has no counterpart.
///
/// # Errors
///
/// `AllocError` for want of memory, also where that is the lack.
pub(crate) fn lacking(alloc: Global, asked: &Asked<'_>, lack: Lack) -> Result<Answer, AllocError>
    ensures lacking { IfOk result (IsLacking asked.now lack) }
    ensures fit { IfOk result IsFitAnswer }
{
    match lack {
        Lack::Tag(tag) => refused(alloc, asked, &Fault::NoCounterpart { tag }),
        Lack::NoMemory => Err(AllocError),
    }
}

/// A message goes on with this type, its PossResend(97) and this content; one that is too long is
/// refused, by BodyLength(9).
///
/// # Errors
///
/// `AllocError` for want of memory.
pub(crate) fn forwarded(
    alloc: Global,
    asked: &Asked<'_>,
    msg_type: &[u8],
    resend: bool,
    content: &[u8],
    item: Option<ChainItem>,
) -> Result<Answer, AllocError>
    requires { length msg_type.now ≡ 1 }
    ensures forwarded { IfOk result
        (IsForwarded asked.now msg_type.now resend content.now item) }
    ensures fit { IfOk result IsFitAnswer }
{
    if content.len() > MAX_CONTENT {
        return refused(alloc, asked, &Fault::NoCounterpart { tag: BODY_LENGTH });
    }
    let said = Said {
        msg_type: Bytes::copy(alloc, msg_type)?,
        content: Bytes::copy(alloc, content)?,
        admin: false,
    };
    Ok(Answer {
        words: Some(Words {
            to: other(asked.side),
            said,
            resend,
        }),
        item,
    })
}

/// The request that a refusal by a side names by its ClOrdID(11): the client refuses none.
fn named_by_id(known: &Known<'_>, side: Side, id: &Option<Bytes>) -> Option<(u32, u8)>
    ensures { result ≡ named_by_id (known_in known.now) side id.now }
{
    match side {
        Side::Client => None,
        Side::Venue => known.chains.number_of(id.as_ref()?.as_slice()),
    }
}

/// The message of the other side that a refusal names, where it went on: its number and its type.
fn named(known: &Known<'_>, side: Side, refusal: &Refusal) -> Option<(u32, u8)>
    ensures { result ≡ named (known_in known.now) side refusal.now }
{
    match refusal.number {
        Some(number) => known.journal.source_of(side, number),
        None => named_by_id(known, side, &refusal.id),
    }
}

/// A refusal is told to the other side where it names a message of that side that went on.
fn told(
    alloc: Global,
    known: &Known<'_>,
    asked: &Asked<'_>,
    business: bool,
    refusal: &Refusal,
) -> Result<Answer, AllocError>
    requires { IsBounded refusal.now }
    ensures told { IfOk result (IsTold known.now asked.now business refusal.now) }
    ensures fit { IfOk result IsFitAnswer }
{
    let Some((number, letter)) = named(known, asked.side, refusal) else {
        return Ok(Answer::nothing());
    };
    let far = other(asked.side);
    let said = say_told(alloc, far, business, refusal, number, letter)?;
    Ok(Answer {
        words: Some(Words {
            to: far,
            said,
            resend: false,
        }),
        item: None,
    })
}

/// The answer to a message of a refusal's type.
fn refusal_heard(alloc: Global, known: &Known<'_>, asked: &Asked<'_>) -> Result<Answer, AllocError>
    requires split { IsSplit asked.now }
    requires refusal { is_refusal_type asked.now.msg_type.now ≡ true }
    ensures answer { IfOk result (IsAnswer known.now asked.now) }
    ensures fit { IfOk result IsFitAnswer }
    ensures item { IfOk result (Joins known.now asked.now) }
{
    let business = is_business_type(asked.msg_type);
    match read_refusal(alloc, asked.side, business, asked.split) {
        Ok(refusal) => told(alloc, known, asked, business, &refusal),
        Err(fault) => refused(alloc, asked, &fault),
    }
}

/// The answer to a message.
///
/// # Errors
///
/// `AllocError` for want of memory.
pub fn answer_to(alloc: Global, known: &Known<'_>, asked: &Asked<'_>) -> Result<Answer, AllocError>
    requires { IsSplit asked.now }
    ensures answer { IfOk result (IsAnswer known.now asked.now) }
    ensures fit { IfOk result (λ answer. IfSome answer.words (λ w. IsFit w.said)) }
    ensures item { IfOk result (Joins known.now asked.now) }
{
    if is_refusal_type(asked.msg_type) {
        return refusal_heard(alloc, known, asked);
    }
    match asked.side {
        Side::Client => requested(alloc, known, asked),
        Side::Venue => reported(alloc, known, asked),
    }
}
