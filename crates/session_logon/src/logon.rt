//! What a Logon says.

ghost use Rattle.std.specs.Prelude.{◌≡◌};
ghost use Rattle.std.specs.Option.{option_map};
ghost use Rattle.session_logon.specs.Logon.{is_text, is_yes, is_flag_or_none, is_version, logon_of};

use crate::reasons::number_between;
use field_groups::Fields;
use message_tables::Lookup;
use order_meaning::Side;
use session_core::tag::{DEFAULT_APPL_VER_ID, ENCRYPT_METHOD, HEART_BT_INT, RESET_SEQ_NUM_FLAG};
use thiserror::Error;
use typed_fields::Flag;

/// The greatest HeartBtInt(108), in seconds: a day. The standard names none; this bound is own.
pub const MAX_HEART: u32 = 86_400;

/// Why a Logon is refused.
#[derive(Clone, Copy, Debug, PartialEq, Eq, Error)]
pub enum LogonFault {
    /// The field of this tag is missing or wrong.
    #[error("the field {0} of the Logon is missing or wrong")]
    Tag(u32),
}

// The field is there and has just this value.
pub(crate) fn is_text(value: Option<&[u8]>, text: &[u8]) -> bool
    ensures { result ≡ is_text text.now (option_map (λ value. value.now) value.entry) }
{
    match value {
        Some(value) => value == text,
        None => false,
    }
}

// The field is there and is `Y`.
pub(crate) fn is_yes(value: Option<&[u8]>) -> bool
    ensures { result ≡ is_yes (option_map (λ value. value.now) value.entry) }
{
    match value {
        Some(value) => matches!(Flag::read(value), Ok(Flag { yes: true })),
        None => false,
    }
}

// The field is missing, or is `Y` or `N`.
fn is_flag_or_none(value: Option<&[u8]>) -> bool
    ensures { result ≡ is_flag_or_none (option_map (λ value. value.now) value.entry) }
{
    match value {
        Some(value) => Flag::read(value).is_ok(),
        None => true,
    }
}

// The venue's Logon says which version of the application it speaks: 9 is FIX 5.0 SP2.
fn is_version(side: Side, fields: &Fields<'_>) -> bool
    ensures { result ≡ is_version side fields.now }
{
    match side {
        Side::Client => true,
        Side::Venue => is_text(fields.value(DEFAULT_APPL_VER_ID), b"9"),
    }
}

/// What a Logon from this side says: HeartBtInt(108) in seconds, up to [`MAX_HEART`], and whether
/// ResetSeqNumFlag(141) is `Y`. (FIX 4.2 and FIXT 1.1, "Logon".) It takes no memory.
///
/// # Errors
///
/// The first of these tags whose field is wrong, in this order: EncryptMethod(98), which is `0`;
/// HeartBtInt(108); from the venue DefaultApplVerID(1137), which is `9`; ResetSeqNumFlag(141),
/// which may be missing.
pub fn check_logon(side: Side, fields: &Fields<'_>) -> Result<(u32, bool), LogonFault>
    ensures { result ≡ logon_of side fields.now }
{
    if !is_text(fields.value(ENCRYPT_METHOD), b"0") {
        return Err(LogonFault::Tag(ENCRYPT_METHOD));
    }
    let Ok(heart) = number_between(fields.value(HEART_BT_INT), 0, MAX_HEART) else {
        return Err(LogonFault::Tag(HEART_BT_INT));
    };
    if !is_version(side, fields) {
        return Err(LogonFault::Tag(DEFAULT_APPL_VER_ID));
    }
    let reset = fields.value(RESET_SEQ_NUM_FLAG);
    if !is_flag_or_none(reset) {
        return Err(LogonFault::Tag(RESET_SEQ_NUM_FLAG));
    }
    Ok((heart, is_yes(reset)))
}
