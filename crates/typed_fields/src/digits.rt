//! Texts of digits and the numbers that they spell.

ghost use Rattle.std.specs.Prelude.{◌≡◌, ◌+◌, ◌-◌, ◌^◌, ◌<◌, ◌≤◌, length, slice_range};
ghost use Rattle.std.specs.Prelude.{IsTrue, take};
ghost use Rattle.typed_fields.specs.Digits.{are_digits, number_of, has_mark, have_marks};
ghost use Rattle.typed_fields.specs.Digits.{has_pattern, zero_padded, without_leading_zeros};
ghost use Rattle.typed_fields.specs.Digits.{without_trailing_zeros};

/// Whether each byte is a digit.
#[inline(always)]
#[tactic(auto, unfolding(crate::specs::Digits::are_digits))]
pub fn are_digits(bytes: &[u8]) -> bool
    ensures { result ≡ are_digits bytes.now }
{
    bytes.iter().all(|byte| byte.is_ascii_digit())
}

/// The number that at most 18 digits spell.
#[inline(always)]
pub(crate) fn number(digits: &[u8]) -> u64
    requires digits { IsTrue (are_digits digits.now) }
    requires few { length digits.now ≤ 18 }
    ensures { result ≡ number_of digits.now }
{
    let mut number = 0;
    for digit in digits {
        number = 10 * number + u64::from(*digit - b'0');
    }
    number
}

/// The most digits that count in a decimal number, and that are read at once.
pub(crate) const MAX_DIGITS: usize = 15;

/// How many digits stand at the front, and the number that they spell; of more than 15, the first
/// 15.
#[inline(always)]
pub(crate) fn front_digits(bytes: &[u8]) -> (usize, u64)
    ensures within { result.0 ≤ length bytes.now }
    ensures few { result.0 ≤ MAX_DIGITS }
    ensures digits { IsTrue (are_digits (take result.0 bytes.now)) }
    ensures value { result.1 ≡ number_of (take result.0 bytes.now) }
{
    let mut number = 0;
    let mut len = 0;
    while len < bytes.len() && len < MAX_DIGITS && bytes[len].is_ascii_digit() {
        number = 10 * number + u64::from(bytes[len] - b'0');
        len += 1;
    }
    (len, number)
}

/// The number that the at most four digits from one place to another spell.
#[inline(always)]
pub(crate) fn number_at(bytes: &[u8], from: usize, to: usize) -> u16
    requires ordered { from ≤ to }
    requires within { to ≤ length bytes.now }
    requires few { to ≤ from + 4 }
    requires digits { IsTrue (are_digits (slice_range bytes.now from to)) }
    ensures value { result ≡ number_of (slice_range bytes.now from to) }
    ensures bound { result < 10 ^ (to - from) }
{
    number(&bytes[from..to]) as u16
}

/// Whether a byte has its mark in a pattern: a letter stands for any digit, and every other mark
/// for itself.
#[inline(always)]
fn has_mark(mark: u8, byte: u8) -> bool
    ensures { result ≡ has_mark mark byte }
{
    if mark.is_ascii_alphabetic() {
        byte.is_ascii_digit()
    } else {
        byte == mark
    }
}

/// Whether each byte has its mark.
#[inline(always)]
fn have_marks(marks: &[u8], bytes: &[u8]) -> bool
    ensures { result ≡ have_marks marks.now bytes.now }
{
    marks
        .iter()
        .zip(bytes)
        .all(|(mark, byte)| has_mark(*mark, *byte))
}

/// Whether the bytes have a pattern such as `YYYYMMDD-HH:MM:SS`.
#[inline(always)]
#[tactic(auto, unfolding(crate::specs::Digits::has_pattern))]
pub(crate) fn has_pattern(pattern: &[u8], bytes: &[u8]) -> bool
    ensures { result ≡ has_pattern pattern.now bytes.now }
{
    pattern.len() == bytes.len() && have_marks(pattern, &bytes[..pattern.len()])
}

/// The last two digits of a number.
pub fn two_digits(number: u8) -> [u8; 2]
    ensures { result ≡ zero_padded 2 number }
{
    [b'0' + number / 10 % 10, b'0' + number % 10]
}

/// The last three digits of a number.
pub(crate) fn three_digits(number: u16) -> [u8; 3]
    ensures { result ≡ zero_padded 3 number }
{
    [
        b'0' + (number / 100 % 10) as u8,
        b'0' + (number / 10 % 10) as u8,
        b'0' + (number % 10) as u8,
    ]
}

/// The last four digits of a number.
pub(crate) fn four_digits(number: u16) -> [u8; 4]
    ensures { result ≡ zero_padded 4 number }
{
    [
        b'0' + (number / 1000 % 10) as u8,
        b'0' + (number / 100 % 10) as u8,
        b'0' + (number / 10 % 10) as u8,
        b'0' + (number % 10) as u8,
    ]
}

/// The last eight digits of a number.
pub(crate) fn eight_digits(number: u32) -> [u8; 8]
    ensures { result ≡ zero_padded 8 number }
{
    let [a, b, c, d] = four_digits((number / 10_000 % 10_000) as u16);
    let [e, f, g, h] = four_digits((number % 10_000) as u16);
    [a, b, c, d, e, f, g, h]
}

/// Digits without the zeros in front of the first other digit.
#[inline(always)]
pub(crate) fn without_leading_zeros(digits: &[u8]) -> &[u8]
    ensures value { result.now ≡ without_leading_zeros digits.now }
    ensures len { length result.now ≤ length digits.now }
{
    let mut start = 0;
    while start < digits.len() && digits[start] == b'0' {
        start += 1;
    }
    &digits[start..]
}

/// Digits without the zeros behind the last other digit.
#[inline(always)]
pub(crate) fn without_trailing_zeros(digits: &[u8]) -> &[u8]
    ensures value { result.now ≡ without_trailing_zeros digits.now }
    ensures len { length result.now ≤ length digits.now }
{
    let mut end = digits.len();
    while end > 0 && digits[end - 1] == b'0' {
        end -= 1;
    }
    &digits[..end]
}
