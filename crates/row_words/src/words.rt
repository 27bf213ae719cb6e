//! Words, with one space between two.

ghost use Rattle.std.specs.Prelude.{◌≡◌};
ghost use Rattle.row_words.specs.Words.{first_of, rest_of, behind, side_of};

use order_meaning::Side;

/// The first word of a text, and what stands behind the space after it.
#[tactic(auto, using(crate::proofs::Split::split_at))]
pub fn first_word(text: &str) -> (&str, &str)
    ensures first { result.0.now ≡ first_of text.now }
    ensures rest { result.1.now ≡ rest_of text.now }
{
    match text.split_once(' ') {
        Some((first, rest)) => (first, rest),
        None => (text, ""),
    }
}

/// What stands behind so many words; nothing where there are fewer.
#[tactic(auto, using(crate::proofs::Split::one_behind))]
pub fn behind(text: &str, words: usize) -> &str
    ensures { result.now ≡ behind words text.now }
{
    if words == 0 {
        return text;
    }
    let (_, rest) = first_word(text);
    behind(rest, words - 1)
}

/// The word of this place, from 0; the empty one where there are fewer.
pub fn word(text: &str, place: usize) -> &str
    ensures { result.now ≡ first_of (behind place text.now) }
{
    first_word(behind(text, place)).0
}

/// The number of a word, below 2^32.
pub fn number(word: &str) -> Option<u32> {
    word.parse::<u32>().ok()
}

/// The number of a word, below 2^64.
pub fn long_number(word: &str) -> Option<u64> {
    word.parse::<u64>().ok()
}

/// The number behind a word of a text; none where the word or the number is missing.
pub fn number_behind(text: &str, word: &str) -> Option<u32> {
    let mut is_behind = false;
    for part in text.split(' ') {
        if is_behind {
            return number(part);
        }
        is_behind = part == word;
    }
    None
}

/// The side of a word, `Client` or `Venue`.
pub fn side_of(word: &str) -> Option<Side>
    ensures { result ≡ side_of word.now }
{
    if word == "Client" {
        Some(Side::Client)
    } else if word == "Venue" {
        Some(Side::Venue)
    } else {
        None
    }
}
