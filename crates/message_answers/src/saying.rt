//! What is said of a message that does not go on. It fits an entry of the journal, however long the
//! message is.

ghost use Rattle.std.specs.Prelude.{◌≡◌, ◌∷◌, [], ℕ, ◌^◌, ◌<◌, IfOk, Some};
ghost use Rattle.reject_rules.specs.Laws.{HasWords, IsBounded};
ghost use Rattle.reject_rules.specs.Refusals.{refusal_of, used_refusal, away_refusal};
ghost use Rattle.reject_rules.specs.Renumbered.{renumbered};
ghost use Rattle.message_answers.specs.Seen.{IsFit};

use order_meaning::{Fault, Refusal, Side};
use reject_rules::laws::refusals_are_short;
use reject_rules::{Said, away, refusal, renumber, used};
use std::alloc::{AllocError, Global};

// The numbers of a fault fit their types. It says so to the prover.
fn has_words(fault: Fault)
    ensures { HasWords fault }
{
    match fault {
        Fault::Session { tag, reason } => {
            let _ = (tag, reason);
        }
        Fault::NoCounterpart { tag } => {
            let _ = tag;
        }
        Fault::NotSupported | Fault::NoMemory => {}
    }
}

// And so does a number.
fn is_word(number: u32)
    ensures { number < 2 ^ 32 }
{
    let _ = number;
}

/// The refusal to a side of its message of this number and type, for its fault.
///
/// # Errors
///
/// `AllocError` for want of memory, also where that is the fault.
pub(crate) fn say_fault(
    alloc: Global,
    side: Side,
    number: u32,
    msg_type: &[u8],
    fault: Fault,
) -> Result<Said, AllocError>
    ensures said { IfOk result (λ said. refusal_of side number msg_type.now fault ≡ Some said) }
    ensures fit { IfOk result IsFit }
{
    refusals_are_short();
    has_words(fault);
    is_word(number);
    refusal(alloc, side, number, msg_type, &fault)
}

/// The refusal to the client of its request of this number and type, whose ClOrdID(11) was used
/// before.
///
/// # Errors
///
/// `AllocError` for want of memory.
pub(crate) fn say_used(alloc: Global, number: u32, msg_type: &[u8]) -> Result<Said, AllocError>
    ensures said { IfOk result (λ said. said ≡ used_refusal number msg_type.now) }
    ensures fit { IfOk result IsFit }
{
    refusals_are_short();
    is_word(number);
    used(alloc, number, msg_type)
}

/// The refusal to the client of its request of this number and type, while the venue is away.
///
/// # Errors
///
/// `AllocError` for want of memory.
pub(crate) fn say_away(alloc: Global, number: u32, msg_type: &[u8]) -> Result<Said, AllocError>
    ensures said { IfOk result (λ said. said ≡ away_refusal number msg_type.now) }
    ensures fit { IfOk result IsFit }
{
    refusals_are_short();
    is_word(number);
    away(alloc, number, msg_type)
}

/// What is told to a side of its own message of this number and letter, which the other side
/// refused.
///
/// # Errors
///
/// `AllocError` for want of memory.
pub(crate) fn say_told(
    alloc: Global,
    side: Side,
    business: bool,
    refusal: &Refusal,
    number: u32,
    letter: u8,
) -> Result<Said, AllocError>
    requires { IsBounded refusal.now }
    ensures said { IfOk result (λ said.
        said ≡ renumbered side business refusal.now number (letter ∷ [])) }
    ensures fit { IfOk result IsFit }
{
    refusals_are_short();
    is_word(number);
    renumber(alloc, side, business, refusal, number, &[letter])
}
