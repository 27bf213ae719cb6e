//! Numbers of a capture.

ghost use Rattle.std.specs.Prelude.{◌≡◌, ◌≢◌, ◌<◌, ◌^◌, ℕ, decimal, IfSome, IsNone};

use itoa::Buffer;

/// The number that these digits write, without a sign or a zero in front; none exactly where they
/// write no number below 2^64.
pub(crate) fn number(digits: &[u8]) -> Option<u64>
    ensures some { IfSome result (λ n. digits.now ≡ decimal n) }
    ensures none { IsNone result → (n : ℕ) → n < 2 ^ 64 → digits.now ≢ decimal n }
{
    let Ok(text) = std::str::from_utf8(digits) else {
        return None;
    };
    match text.parse::<u64>() {
        Ok(value) if Buffer::new().format(value).as_bytes() == digits => Some(value),
        _ => None,
    }
}
