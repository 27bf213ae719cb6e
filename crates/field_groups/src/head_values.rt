//! What this crate reads of a value: a length or a count, and a type of one letter.

ghost use Rattle.std.specs.Prelude.{◌≡◌, ◌^◌, ◌<◌, ◌≤◌, ◌∷◌, [], IsTrue, bytes_eq, length};
ghost use Rattle.std.specs.List.{list_all};
ghost use Rattle.std.specs.Char.{is_ascii_digit};
ghost use Rattle.std.specs.Str.Parse.{digits_value};
ghost use Rattle.field_groups.specs.HeadValues.{number_in};

/// The greatest length or count.
const MAX_NUMBER: u64 = 1_000_000_000;

/// The most digits of a length or a count.
const MAX_DIGITS: usize = 10;

/// Whether each byte is a digit.
fn are_digits(bytes: &[u8]) -> bool
    ensures { result ≡ list_all is_ascii_digit bytes.now }
{
    bytes.iter().all(|byte| byte.is_ascii_digit())
}

/// The number that at most 18 digits write.
pub(crate) fn value_of(digits: &[u8]) -> u64
    requires digits { IsTrue (list_all is_ascii_digit digits.now) }
    requires few { length digits.now ≤ 18 }
    ensures value { result ≡ digits_value 10 digits.now }
    ensures bound { result < 10 ^ length digits.now }
{
    let mut value = 0;
    for digit in digits {
        value = 10 * value + u64::from(*digit - b'0');
    }
    value
}

/// The number that 1 to 10 digits write, where it is at most 1,000,000,000; it takes no memory.
#[tactic(auto, unfolding(crate::specs::HeadValues::number_in))]
pub fn number_in(value: &[u8]) -> Option<u32>
    ensures { result ≡ number_in value.now }
{
    if value.is_empty() || value.len() > MAX_DIGITS || !are_digits(value) {
        return None;
    }
    let number = value_of(value);
    if number > MAX_NUMBER {
        return None;
    }
    Some(number as u32)
}

/// Whether a MsgType(35) is this one letter.
#[inline(always)]
pub fn is_type(msg_type: &[u8], letter: u8) -> bool
    ensures { result ≡ bytes_eq msg_type.now (letter ∷ []) }
{
    match msg_type {
        [byte] => *byte == letter,
        _ => false,
    }
}
