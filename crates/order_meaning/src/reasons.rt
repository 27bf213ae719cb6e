//! SessionRejectReason(373), and what is said in place of a reason that FIX 4.2 lacks.

ghost use Rattle.std.specs.Prelude.{◌≡◌};
ghost use Rattle.std.specs.Option.{option_map};
ghost use Rattle.order_meaning.specs.Reasons.{later_reason_words};

/// The greatest SessionRejectReason(373) of FIX 4.2: invalid MsgType.
pub const MAX_REASON42: u8 = 11;

/// SessionRejectReason(373) of FIXT 1.1: a tag appears more than once.
const TAG_APPEARS_MORE_THAN_ONCE: u8 = 13;

/// SessionRejectReason(373) of FIXT 1.1: the fields of a repeating group are out of order.
const GROUP_FIELDS_OUT_OF_ORDER: u8 = 15;

/// SessionRejectReason(373) of FIXT 1.1: the count of a repeating group is incorrect.
const WRONG_GROUP_COUNT: u8 = 16;

/// The words for a SessionRejectReason(373) that came after FIX 4.2, where a gateway gives it; it
/// takes no memory.
#[tactic(auto, unfolding(crate::specs::Reasons::later_reason_words))]
pub fn later_reason_words(reason: u8) -> Option<&'static [u8]>
    ensures { option_map (λ words. words.now) result ≡ later_reason_words reason }
{
    match reason {
        TAG_APPEARS_MORE_THAN_ONCE => Some(b"tag appears more than once".as_slice()),
        GROUP_FIELDS_OUT_OF_ORDER => Some(b"group fields out of order".as_slice()),
        WRONG_GROUP_COUNT => Some(b"wrong group count".as_slice()),
        _ => None,
    }
}
