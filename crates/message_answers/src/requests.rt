//! The answer to a request of the client: the first of five that applies.

ghost use Rattle.std.specs.Prelude.{◌≡◌, ◌&&◌, ◌∷◌, [], None, IfOk, false};
ghost use Rattle.message_tables.specs.Tables.{is_one_of, text_in};
ghost use Rattle.order_chains.specs.Chains.{has_id};
ghost use Rattle.request_rules.specs.Good.{IsGood, IsRead, said};
ghost use Rattle.request_rules.specs.Lack.{lack42};
ghost use Rattle.reject_rules.specs.Refusals.{away_refusal, used_refusal};
ghost use Rattle.message_answers.specs.Answer.{to_near};
ghost use Rattle.message_answers.specs.Chains.{joining};
ghost use Rattle.message_answers.specs.Message.{is_refusal_type};
ghost use Rattle.message_answers.specs.Seen.{IsSplit, IsAnswer, IsFitAnswer, Joins, IsForwarded};
ghost use Rattle.message_answers.specs.Seen.{IsSpelled, asked_in, joined, words_in};

use crate::answer::{Answer, forwarded, lacking, refused};
use crate::asking::{Asked, Known};
use crate::joining::{id, item_said};
use crate::saying::{say_away, say_used};
use order_chains::{ChainItem, Chains};
use order_meaning::Side;
use request_rules::{Good, good_request, put_up};
use row_values::resend;
use std::alloc::{AllocError, Global};

/// Whether requests of a letter join the chains, which a New Order (D), a Cancel (F) and a
/// Cancel/Replace (G) do.
fn joins(letter: u8) -> bool
    ensures { result ≡ is_one_of joining letter }
{
    matches!(letter, b'D' | b'F' | b'G')
}

/// The request of a message with this number, as it joins the chains, where it does.
///
/// # Errors
///
/// `AllocError` for want of memory.
fn item_of(alloc: Global, number: u32, good: &Good<'_, '_>) -> Result<Option<ChainItem>, AllocError>
    requires { IsGood good.now }
    ensures { IfOk result (λ item. item ≡ joined number (said good.now)) }
{
    let letter = good.table.letter;
    if joins(letter) {
        Ok(Some(item_said(number, letter, good.fields).to_item(alloc)?))
    } else {
        Ok(None)
    }
}

/// Whether the ClOrdID(11) of a request is that of one that went on before.
fn is_used(chains: &Chains, good: &Good<'_, '_>) -> bool
    requires { IsGood good.now }
    ensures { result ≡ (is_one_of joining (said good.now).letter
        && has_id chains.now (text_in (said good.now).cells 11)) }
{
    if joins(good.table.letter) {
        chains.has(id(good.fields))
    } else {
        false
    }
}

/// A request goes on in the form of FIX 5.0 SP2, and joins the chains where it does.
fn sent(
    alloc: Global,
    asked: &Asked<'_>,
    good: &Good<'_, '_>,
    content: &[u8],
) -> Result<Answer, AllocError>
    requires typed { asked.now.msg_type.now ≡ (said good.now).letter ∷ [] }
    requires good { IsGood good.now }
    ensures forwarded { IfOk result (IsForwarded asked.now ((said good.now).letter ∷ [])
        (said good.now).resend content.now (joined asked.now.number (said good.now))) }
    ensures fit { IfOk result IsFitAnswer }
{
    let item = item_of(alloc, asked.number, good)?;
    let resend = resend(good.fields);
    forwarded(alloc, asked, asked.msg_type, resend, content, item)
}

/// A request goes on, or has no counterpart.
fn tried(alloc: Global, asked: &Asked<'_>, good: &Good<'_, '_>) -> Result<Answer, AllocError>
    requires split { IsSplit asked.now }
    requires good { IsGood good.now }
    requires read { IsRead asked.now.msg_type.now asked.now.split.now.fields
        asked.now.split.now.fault (said good.now) }
    ensures spelled { IfOk result (IsSpelled asked.now Side.Client None (said good.now)
        (lack42 (said good.now)) (joined asked.now.number (said good.now))) }
    ensures fit { IfOk result IsFitAnswer }
{
    let mut content = Vec::new(alloc);
    match put_up(good, &mut content) {
        Ok(()) => sent(alloc, asked, good, &content),
        Err(lack) => lacking(alloc, asked, lack),
    }
}

/// The refusal of a request whose ClOrdID(11) was used before.
fn near_used(alloc: Global, asked: &Asked<'_>) -> Result<Answer, AllocError>
    ensures words { IfOk result (λ answer. words_in answer ≡ to_near (asked_in asked.now)
        (used_refusal asked.now.number asked.now.msg_type.now)) }
    ensures fit { IfOk result IsFitAnswer }
    ensures item { IfOk result (λ answer. answer.item ≡ None) }
{
    let said = say_used(alloc, asked.number, asked.msg_type)?;
    Ok(Answer::near(asked, said))
}

/// The refusal of a request while the venue is away.
fn near_away(alloc: Global, asked: &Asked<'_>) -> Result<Answer, AllocError>
    ensures words { IfOk result (λ answer. words_in answer ≡ to_near (asked_in asked.now)
        (away_refusal asked.now.number asked.now.msg_type.now)) }
    ensures fit { IfOk result IsFitAnswer }
    ensures item { IfOk result (λ answer. answer.item ≡ None) }
{
    let said = say_away(alloc, asked.number, asked.msg_type)?;
    Ok(Answer::near(asked, said))
}

/// The answer to a request at no fault.
fn request_good(
    alloc: Global,
    known: &Known<'_>,
    asked: &Asked<'_>,
    good: &Good<'_, '_>,
) -> Result<Answer, AllocError>
    requires split { IsSplit asked.now }
    requires side { asked.now.side ≡ Side.Client }
    requires other { is_refusal_type asked.now.msg_type.now ≡ false }
    requires good { IsGood good.now }
    requires read { IsRead asked.now.msg_type.now asked.now.split.now.fields
        asked.now.split.now.fault (said good.now) }
    ensures answer { IfOk result (IsAnswer known.now asked.now) }
    ensures fit { IfOk result IsFitAnswer }
    ensures item { IfOk result (Joins known.now asked.now) }
{
    if is_used(known.chains, good) {
        if resend(good.fields) {
            return Ok(Answer::nothing());
        }
        return near_used(alloc, asked);
    }
    if !known.active {
        return near_away(alloc, asked);
    }
    tried(alloc, asked, good)
}

/// The answer to what is to be a request of the client.
///
/// # Errors
///
/// `AllocError` for want of memory.
pub(crate) fn requested(
    alloc: Global,
    known: &Known<'_>,
    asked: &Asked<'_>,
) -> Result<Answer, AllocError>
    requires split { IsSplit asked.now }
    requires side { asked.now.side ≡ Side.Client }
    requires other { is_refusal_type asked.now.msg_type.now ≡ false }
    ensures answer { IfOk result (IsAnswer known.now asked.now) }
    ensures fit { IfOk result IsFitAnswer }
    ensures item { IfOk result (Joins known.now asked.now) }
{
    match good_request(asked.msg_type, asked.split) {
        Ok(good) => request_good(alloc, known, asked, &good),
        Err(fault) => refused(alloc, asked, &fault),
    }
}
