//! What the gateway says by a Logout, of which the edge sees the bytes.

ghost use Rattle.std.specs.Prelude.{◌≡◌, ◌≤◌, length};
ghost use Rattle.std.specs.List.{prefix_len};
ghost use Rattle.std.specs.Char.{is_ascii_digit};
ghost use Rattle.std.specs.Option.{option_map};
ghost use Rattle.edge_waits.specs.Said.{logout_text, too_low, low_numbers};

use crate::fields::value_of;
use edge_logic::TooLow;
use field_groups::number_in;

/// What the text of the Logout begins with that answers a number which is too low.
const TOO_LOW: &[u8] = b"MsgSeqNum too low, expecting ";

/// What stands between the numbers.
const BUT: &[u8] = b" but received ";

/// The Text(58) of a frame that is a Logout, empty where it has none; `None` of any other frame.
#[tactic(auto, unfolding(crate::specs::Said::logout_text))]
pub fn logout_text(frame: &[u8]) -> Option<&[u8]>
    ensures { option_map (λ text. text.now) result ≡ logout_text frame.now }
{
    match value_of(b"35=", frame) {
        Some(b"5") => match value_of(b"58=", frame) {
            Some(text) => Some(text),
            None => Some(b""),
        },
        _ => None,
    }
}

// How many digits the bytes begin with.
fn digits(bytes: &[u8]) -> usize
    ensures value { result ≡ prefix_len is_ascii_digit bytes.now }
    ensures within { result ≤ length bytes.now }
{
    bytes
        .iter()
        .take_while(|byte| byte.is_ascii_digit())
        .count()
}

// The two numbers of such a text behind its beginning.
fn low_numbers(text: &[u8]) -> Option<TooLow>
    ensures { result ≡ low_numbers text.now }
{
    let (expected, rest) = text.split_at(digits(text));
    if !rest.starts_with(BUT) {
        return None;
    }
    let expected = number_in(expected)?;
    let got = number_in(&rest[BUT.len()..])?;
    Some(TooLow { expected, got })
}

/// The numbers that the text of a Logout names, where it says that the peer's number is too low.
#[tactic(auto, unfolding(crate::specs::Said::too_low))]
pub fn too_low(text: &[u8]) -> Option<TooLow>
    ensures { result ≡ too_low text.now }
{
    if !text.starts_with(TOO_LOW) {
        return None;
    }
    low_numbers(&text[TOO_LOW.len()..])
}
