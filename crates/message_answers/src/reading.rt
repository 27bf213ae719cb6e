//! The messages of the application: which types a side may send, and what each says.

ghost use Rattle.std.specs.Prelude.{◌≡◌, codes, IfOk};
ghost use Rattle.std.specs.Str.{bytes_eq};
ghost use Rattle.reject_rules.specs.Laws.{IsBounded};
ghost use Rattle.first_faults.specs.Gives.{Gives};
ghost use Rattle.message_answers.specs.Message.{is_refusal_type, refusal_in, said_by};
ghost use Rattle.message_answers.specs.Seen.{refusal_says, refusal_type};

use field_groups::Split;
use order_meaning::{Fault, Refusal, Side};
use reports_fix42 as fix42;
use reports_fix50 as fix50;
use std::alloc::Global;

/// Whether a type is that of a refusal: Reject(3) or BusinessMessageReject(j).
pub(crate) fn is_refusal_type(msg_type: &[u8]) -> bool
    ensures { result ≡ is_refusal_type msg_type.now }
{
    is_reject_type(msg_type) || is_business_type(msg_type)
}

/// Whether a type is that of a BusinessMessageReject(j).
pub(crate) fn is_business_type(msg_type: &[u8]) -> bool
    ensures { result ≡ bytes_eq msg_type.now (codes "j") }
{
    msg_type == b"j".as_slice()
}

fn is_reject_type(msg_type: &[u8]) -> bool
    ensures { result ≡ bytes_eq msg_type.now (codes "3") }
{
    msg_type == b"3".as_slice()
}

/// What a refusal of FIX 4.2 says, or its first fault.
#[tactic(auto, using(crate::proofs::Back::of), unfolding(reports_fix42::specs::Message::message42))]
fn read42(alloc: Global, business: bool, split: &Split<'_>) -> Result<Refusal, Fault>
    ensures says { Gives (refusal_says business) result
        (said_by Side.Client (refusal_type business) split.now.fields split.now.fault) }
    ensures refusal { IfOk result (λ r. refusal_in (refusal_says business r) ≡ r) }
    ensures bounded { IfOk result IsBounded }
{
    if business {
        fix42::read_business_reject(alloc, split)
    } else {
        fix42::read_session_reject(alloc, split)
    }
}

/// What a refusal of FIX 5.0 SP2 says, or its first fault.
#[tactic(auto, using(crate::proofs::Back::of), unfolding(reports_fix50::specs::Message::message50))]
fn read50(alloc: Global, business: bool, split: &Split<'_>) -> Result<Refusal, Fault>
    ensures says { Gives (refusal_says business) result
        (said_by Side.Venue (refusal_type business) split.now.fields split.now.fault) }
    ensures refusal { IfOk result (λ r. refusal_in (refusal_says business r) ≡ r) }
    ensures bounded { IfOk result IsBounded }
{
    if business {
        fix50::read_business_reject(alloc, split)
    } else {
        fix50::read_session_reject(alloc, split)
    }
}

/// What a refusal of a side says, or its first fault. `business` says that it is a
/// BusinessMessageReject(j), else it is a Reject(3).
pub(crate) fn read_refusal(
    alloc: Global,
    side: Side,
    business: bool,
    split: &Split<'_>,
) -> Result<Refusal, Fault>
    ensures says { Gives (refusal_says business) result
        (said_by side (refusal_type business) split.now.fields split.now.fault) }
    ensures refusal { IfOk result (λ r. refusal_in (refusal_says business r) ≡ r) }
    ensures bounded { IfOk result IsBounded }
{
    match side {
        Side::Client => read42(alloc, business, split),
        Side::Venue => read50(alloc, business, split),
    }
}
