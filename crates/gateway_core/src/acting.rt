//! What the acts of a session's step ask for beside its own messages.

ghost use Rattle.std.specs.Prelude.{◌≡◌, ◌≤◌, length, IfOk, IfSome};
ghost use Rattle.pair_entries.specs.Payload.{IsTook};
ghost use Rattle.session_core.specs.Table.{Message};
ghost use Rattle.event_decisions.specs.Decide.{takes, took_if, hangs_up, repeat_of, asks};
ghost use Rattle.event_decisions.specs.Decide.{is_active};
ghost use Rattle.gateway_core.specs.Planning.{repeat_by, is_asked};

use message_answers::Asked;
use order_meaning::{Bytes, Side};
use pair_entries::{MAX_RAW, Took};
use session_core::{Act, Head, LinkState, What};
use std::alloc::{AllocError, Global};

/// Whether a session is logged on.
pub(crate) fn is_active(link: LinkState) -> bool
    ensures { result ≡ is_active link }
{
    matches!(link, LinkState::Active)
}

/// Whether the message is taken by these acts.
pub(crate) fn takes(acts: &[Act]) -> bool
    ensures { result ≡ takes acts.now }
{
    matches!(acts, [Act::Take, ..])
}

/// Whether the connection is hung up by these acts.
pub(crate) fn hangs_up(acts: &[Act]) -> bool
    ensures { result ≡ hangs_up acts.now }
{
    match acts {
        [] => false,
        [Act::HangUp, ..] => true,
        [
            Act::Take | Act::Skip | Act::Say(_) | Act::Resend { .. },
            rest @ ..,
        ] => hangs_up(rest),
    }
}

/// What is sent again to a side by these acts: the first and the last number.
pub(crate) fn repeat_of(side: Side, acts: &[Act]) -> Option<(Side, u32, u32)>
    ensures { repeat_by result ≡ repeat_of side acts.now }
{
    match acts {
        [] => None,
        [Act::Resend { from, to }, ..] => Some((side, *from, *to)),
        [Act::Take | Act::Skip | Act::Say(_) | Act::HangUp, rest @ ..] => repeat_of(side, rest),
    }
}

// Whether a message that has these acts is the application's.
fn asks(head: &Head, acts: &[Act]) -> bool
    ensures { result ≡ asks (Message head.now) acts.now }
{
    match (acts, head.what) {
        ([Act::Take], What::App | What::Reject) => true,
        _ => false,
    }
}

/// Whether the application is asked about a message that has these acts, where this is taken.
pub(crate) fn is_asked(took: &Option<Took>, head: &Head, acts: &[Act]) -> bool
    ensures { result ≡ is_asked took.now (Message head.now) acts.now }
{
    match took {
        Some(_) => asks(head, acts),
        None => false,
    }
}

/// The message that is taken by these acts.
///
/// # Errors
///
/// `AllocError` for want of memory.
pub(crate) fn took_of(
    alloc: Global,
    asked: &Asked<'_>,
    head: &Head,
    acts: &[Act],
) -> Result<Option<Took>, AllocError>
    requires { length asked.now.body.now ≤ MAX_RAW }
    ensures took { IfOk result (λ took. took ≡ took_if (takes acts.now) asked.now.side
        asked.now.body.now head.now.number) }
    ensures bounds { IfOk result (λ took. IfSome took IsTook) }
{
    match head.number {
        Some(number) if takes(acts) => {
            let raw = Bytes::copy(alloc, asked.body)?;
            Ok(Some(Took {
                side: asked.side,
                number,
                raw,
            }))
        }
        _ => Ok(None),
    }
}
