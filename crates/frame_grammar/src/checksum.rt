//! The bytes of a frame that its kind, or the bytes before them, determine.
ghost use Rattle.std.specs.Prelude.{◌≡◌, ◌%◌, ◌++◌, ◌∷◌, [], codes, sum};
ghost use Rattle.frame_grammar.specs.Frame.{begin_string, three_digits, trailer};

use crate::Kind;
use crate::frame::SOH;

/// `8=`, the BeginString of a kind and SOH.
#[inline(always)]
pub fn begin_string_of(kind: Kind) -> &'static [u8]
    ensures { result.now ≡ begin_string kind }
{
    match kind {
        Kind::Fix42 => b"8=FIX.4.2\x01",
        Kind::Fix44 => b"8=FIX.4.4\x01",
        Kind::Fixt11 => b"8=FIXT.1.1\x01",
    }
}

/// The sum of the bytes, modulo 256.
pub(crate) fn sum_of(bytes: &[u8]) -> u8
    ensures { result ≡ sum bytes.now % 256 }
{
    let mut total: u8 = 0;
    for byte in bytes {
        total = total.wrapping_add(*byte);
    }
    total
}

/// CheckSum(10) after these bytes, with its tag and SOH.
pub fn trailer_of(before: &[u8]) -> [u8; 7]
    ensures { result ≡ trailer before.now }
{
    trailer_by(sum_of(before))
}

/// CheckSum(10) that says this sum, with its tag and SOH.
pub(crate) fn trailer_by(total: u8) -> [u8; 7]
    ensures { result ≡ codes "10=" ++ three_digits total ++ SOH ∷ [] }
{
    [
        b'1',
        b'0',
        b'=',
        b'0' + total / 100,
        b'0' + total / 10 % 10,
        b'0' + total % 10,
        SOH,
    ]
}
