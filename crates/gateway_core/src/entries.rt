//! The entry of an event, where there is one.

ghost use Rattle.std.specs.Prelude.{◌≡◌, ◌≤◌, ◌++◌, false, length, IfOk, IfSome};
ghost use Rattle.std.specs.Option.{option_to_list};
ghost use Rattle.pair_entries.specs.Payload.{IsTook, IsOut, AreOuts, AreNext, IsEntry};
ghost use Rattle.event_decisions.specs.Decide.{same_numbers, entry_if};
ghost use Rattle.event_decisions.specs.Days.{new_day};
ghost use Rattle.gateway_core.specs.Planning.{with_entry};

use crate::outs::push_if;
use order_chains::ChainItem;
use pair_entries::{Entry, MAX_AT, Out, Outs, Prepared, Took, prepare};
use std::alloc::{AllocError, Global};

/// The next numbers: client in, client out, venue in, venue out.
type Next = (u32, u32, u32, u32);

/// The entry of what is taken and given out: the messages of the event's own session, and behind
/// them the answer, where there is one.
///
/// # Errors
///
/// `AllocError` for want of memory.
pub(crate) fn entry_of(
    at: u64,
    took: Option<Took>,
    own: Outs,
    out: Option<Out>,
    next: Next,
) -> Result<Entry, AllocError>
    requires moment { at ≤ MAX_AT }
    requires took { IfSome took IsTook }
    requires few { length own ≤ 2 }
    requires own { AreOuts own }
    requires out { IfSome out IsOut }
    requires next { AreNext next }
    ensures entry { IfOk result (λ entry. entry ≡ record {
      at = at;
      reset = false;
      took = took;
      next = next;
      outs = own ++ option_to_list out;
    }) }
    ensures bounds { IfOk result IsEntry }
{
    let mut outs = own;
    push_if(&mut outs, out)?;
    Ok(Entry {
        at,
        reset: false,
        took,
        next,
        outs,
    })
}

/// The entry with which a session day begins, ready to be committed.
///
/// # Errors
///
/// `AllocError` for want of memory.
pub(crate) fn new_day(alloc: Global, now: u64) -> Result<Prepared, AllocError>
    requires { now ≤ MAX_AT }
    ensures { IfOk result (λ prepared. prepared ≡ new_day now) }
{
    let entry = Entry {
        at: now,
        reset: true,
        took: None,
        next: (1, 1, 1, 1),
        outs: Outs::new(alloc),
    };
    prepare(alloc, entry)
}

/// Whether no number changes.
pub(crate) fn same_numbers(before: Next, after: Next) -> bool
    ensures { result ≡ same_numbers before after }
{
    before.0 == after.0 && (before.1 == after.1 && (before.2 == after.2 && before.3 == after.3))
}

/// An entry, ready to be committed, exactly where a number changes.
///
/// # Errors
///
/// `AllocError` for want of memory.
pub(crate) fn committed(
    alloc: Global,
    before: Next,
    entry: Entry,
) -> Result<Option<Prepared>, AllocError>
    requires { IsEntry entry }
    ensures { IfOk result (λ prepared. prepared ≡ entry_if before entry) }
{
    if same_numbers(before, entry.next) {
        return Ok(None);
    }
    let prepared = prepare(alloc, entry)?;
    Ok(Some(prepared))
}

/// The request that joins, where there is an entry.
pub(crate) fn with_entry(item: Option<ChainItem>, entry: &Option<Prepared>) -> Option<ChainItem>
    ensures { result ≡ with_entry item entry.now }
{
    match entry {
        Some(_) => item,
        None => None,
    }
}
