//! Answers to messages, and the chains of a journal.

ghost use Rattle.field_groups.specs.Fields.{SplitsInto};
ghost use Rattle.frame_grammar.specs.Frame.{IsBody};

use crate::entries::{disk_of, names};
use crate::texts::{is_body, letter};
use field_groups::{Split, split};
use message_answers::{Answer, Asked, Joining, Known, Words, answer_to};
use order_chains::{ChainItem, Chains};
use order_meaning::{Names, Side};
use outside::MemDisk;
use pair_journal::{Journal, JournalError};
use row_words::{SOH, behind, bytes_of, number, shown, side_of, word};
use std::alloc::{AllocError, Global};

// The journal on a disk and its chains.
fn loaded(
    alloc: Global,
    disk: &mut MemDisk,
    names: &Names,
) -> Result<(Journal, Chains), JournalError> {
    let mut joining = Joining::new(alloc)?;
    let journal = Journal::load(alloc, disk, names, &mut joining)?;
    Ok((journal, joining.into_chains()))
}

// The same of the records of a journal; none where they are no journal.
fn stood(alloc: Global, image: &[u8]) -> Result<Option<(Journal, Chains)>, AllocError> {
    let Some(names) = names() else {
        return Ok(None);
    };
    let mut disk = disk_of(alloc, image)?;
    Ok(loaded(alloc, &mut disk, &names).ok())
}

// A message that is given out: the side, the type, whether it has PossResend(97), the content.
fn words_text(alloc: Global, words: &Words) -> Result<String, AllocError> {
    let msg_type = shown(alloc, words.said.msg_type.as_slice())?;
    let content = shown(alloc, words.said.content.as_slice())?;
    let again = if words.resend { " again" } else { "" };
    format!(in alloc; "{} {msg_type}{again} {content}", letter(words.to))
}

// The request that joins, by its id and the id of its order.
fn item_text(alloc: Global, item: &ChainItem) -> Result<String, AllocError> {
    let id = shown(alloc, item.id.as_slice())?;
    let orig = match &item.orig {
        Some(orig) => format!(in alloc; " of {}", shown(alloc, orig.as_slice())?)?,
        None => String::new(alloc),
    };
    format!(in alloc;
        " joins {id}{orig} as {}{}",
        item.number,
        char::from(item.letter)
    )
}

// An answer as a text.
fn answer_text(alloc: Global, answer: &Answer) -> Result<String, AllocError> {
    let Some(words) = &answer.words else {
        return format!(in alloc; "nothing");
    };
    let text = words_text(alloc, words)?;
    match &answer.item {
        Some(item) => format!(in alloc; "{text}{}", item_text(alloc, item)?),
        None => Ok(text),
    }
}

// The answer to a message, whose body splits so, as a text.
fn split_answered(
    alloc: Global,
    known: &Known<'_>,
    side: Side,
    number: u32,
    body: &[u8],
    split: &Split<'_>,
) -> Result<String, AllocError>
    requires body { IsBody body.now }
    requires split { SplitsInto body.now split.now.fields split.now.fault }
{
    let answer = answer_to(alloc, known, &Asked::new(side, number, body, split))?;
    answer_text(alloc, &answer)
}

fn body_answered(
    alloc: Global,
    known: &Known<'_>,
    side: Side,
    number: u32,
    body: &[u8],
) -> Result<String, AllocError> {
    if !is_body(body) {
        return format!(in alloc; "no body");
    }
    let split = split(alloc, body)?;
    split_answered(alloc, known, side, number, body, &split)
}

// The answer to the message of these words.
fn answered(alloc: Global, known: &Known<'_>, given: &str) -> Result<String, AllocError> {
    let body = bytes_of(alloc, &[SOH], behind(given, 3))?;
    match (side_of(word(given, 0)), number(word(given, 1))) {
        (Some(side), Some(number)) => body_answered(alloc, known, side, number, &body),
        _ => format!(in alloc; "no message"),
    }
}

/// The answer to a message: given are the side, the message's number, whether the venue's session
/// is `on` or `away`, and the body.
pub(crate) fn answer(alloc: Global, image: &[u8], given: &str) -> Result<String, AllocError> {
    let Some((journal, chains)) = stood(alloc, image)? else {
        return format!(in alloc; "no journal");
    };
    let known = Known {
        chains: &chains,
        journal: &journal,
        active: word(given, 2) == "on",
    };
    answered(alloc, &known, given)
}

// The number and the type of the request with this id.
fn number_text(alloc: Global, chains: &Chains, id: &str) -> Result<String, AllocError> {
    match chains.number_of(id.as_bytes()) {
        Some((number, letter)) => format!(in alloc; "{number}{}", char::from(letter)),
        None => format!(in alloc; "none"),
    }
}

// The order that the request with this id is of.
fn orig_of_text(alloc: Global, chains: &Chains, id: &str) -> Result<String, AllocError> {
    match chains.orig_of(id.as_bytes()) {
        Some(orig) => shown(alloc, orig),
        None => format!(in alloc; "none"),
    }
}

/// The number and the type, or the order, of the request with this id.
pub(crate) fn chained(
    alloc: Global,
    image: &[u8],
    call: &str,
    id: &str,
) -> Result<String, AllocError> {
    let Some((_, chains)) = stood(alloc, image)? else {
        return format!(in alloc; "no journal");
    };
    if call == "number-of" {
        number_text(alloc, &chains, id)
    } else {
        orig_of_text(alloc, &chains, id)
    }
}
