//! Why a field that must be there is wrong.

ghost use Rattle.std.specs.Prelude.{◌≡◌, ◌≤◌, IfOk};
ghost use Rattle.std.specs.Option.{option_map};
ghost use Rattle.session_logon.specs.Reasons.{reason_of, required, read_between, read_zero_or_from};
ghost use Rattle.session_logon.specs.Reasons.{text_fault};

use session_core::reason::{
    INCORRECT_DATA_FORMAT, REQUIRED_TAG_MISSING, TAG_WITHOUT_A_VALUE, VALUE_IS_INCORRECT,
};
use typed_fields::{FieldFault, Number};

/// The most bytes of a text.
pub(crate) const MAX_TEXT: usize = 2048;

/// The SessionRejectReason(373) of a fault.
pub(crate) fn reason_of(fault: FieldFault) -> u8
    ensures { result ≡ reason_of fault }
{
    match fault {
        FieldFault::Empty => TAG_WITHOUT_A_VALUE,
        FieldFault::Form => INCORRECT_DATA_FORMAT,
        FieldFault::Range => VALUE_IS_INCORRECT,
    }
}

/// A required number from the least to the greatest, or the reason for which it is none.
pub(crate) fn number_between(value: Option<&[u8]>, least: u32, greatest: u32) -> Result<u32, u8>
    ensures value { result
        ≡ required (read_between least greatest) (option_map (λ value. value.now) value.entry) }
    ensures least { IfOk result (λ number. least ≤ number) }
    ensures greatest { IfOk result (λ number. number ≤ greatest) }
{
    let Some(value) = value else {
        return Err(REQUIRED_TAG_MISSING);
    };
    match Number::read(value) {
        Ok(number) if least <= number.value && number.value <= greatest => Ok(number.value),
        Ok(_) => Err(VALUE_IS_INCORRECT),
        Err(fault) => Err(reason_of(fault)),
    }
}

/// A required number that is 0, or the least or more, or the reason for which it is none.
pub(crate) fn zero_or_from(value: Option<&[u8]>, least: u32) -> Result<u32, u8>
    ensures { result
        ≡ required (read_zero_or_from least) (option_map (λ value. value.now) value.entry) }
{
    let Some(value) = value else {
        return Err(REQUIRED_TAG_MISSING);
    };
    match Number::read(value) {
        Ok(number) if number.value == 0 || least <= number.value => Ok(number.value),
        Ok(_) => Err(VALUE_IS_INCORRECT),
        Err(fault) => Err(reason_of(fault)),
    }
}

/// Why a required text is wrong, if it is.
pub(crate) fn text_fault(value: Option<&[u8]>) -> Option<u8>
    ensures { result ≡ text_fault (option_map (λ value. value.now) value.entry) }
{
    match value {
        None => Some(REQUIRED_TAG_MISSING),
        Some([]) => Some(TAG_WITHOUT_A_VALUE),
        Some(value) if value.len() > MAX_TEXT => Some(VALUE_IS_INCORRECT),
        Some(_) => None,
    }
}
