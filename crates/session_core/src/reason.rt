//! SessionRejectReason(373): why a message is rejected (FIX 4.2, "Reject (session-level)"), and how
//! it is told to a side.

ghost use Rattle.std.specs.Prelude.{◌≡◌};
ghost use Rattle.std.specs.Option.{option_map};
ghost use Rattle.session_core.specs.Reason.{session_reason, session_text};

use order_meaning::{MAX_REASON42, Side, later_reason_words};

/// Required tag missing.
pub const REQUIRED_TAG_MISSING: u8 = 1;

/// Tag specified without a value.
pub const TAG_WITHOUT_A_VALUE: u8 = 4;

/// Value is incorrect (out of range) for this tag.
pub const VALUE_IS_INCORRECT: u8 = 5;

/// Incorrect data format for value.
pub const INCORRECT_DATA_FORMAT: u8 = 6;

/// CompID problem.
pub const COMP_ID_PROBLEM: u8 = 9;

/// SendingTime accuracy problem.
pub const SENDING_TIME_ACCURACY_PROBLEM: u8 = 10;

/// SessionRejectReason(373) to a side. FIX 4.2 has the reasons up to 11: to the client none stands
/// for one above.
pub fn session_reason(side: Side, reason: u8) -> Option<u32>
    ensures { result ≡ session_reason side reason }
{
    match side {
        Side::Client if reason > MAX_REASON42 => None,
        _ => Some(u32::from(reason)),
    }
}

/// Text(58) beside it: words for a reason that FIX 4.2 lacks, where it has any; it takes no memory.
pub fn session_text(side: Side, reason: u8) -> Option<&'static [u8]>
    ensures { option_map (λ words. words.now) result ≡ session_text side reason }
{
    match side {
        Side::Client if reason > MAX_REASON42 => later_reason_words(reason),
        _ => None,
    }
}
