//! Parts of texts.

ghost use Rattle.std.specs.Prelude.{◌≡◌, take};
ghost use Rattle.std.specs.Option.{option_map};
ghost use Rattle.reject_rules.specs.Renumbered.{quoted};

use order_meaning::Bytes;

/// The most bytes of a text of the other side that is passed on.
const MAX_QUOTE: usize = 512;

/// The first so many bytes of a text, or all of a shorter one.
pub(crate) fn front(text: &[u8], most: usize) -> &[u8]
    ensures { result.now ≡ take most text.now }
{
    if text.len() > most {
        &text[..most]
    } else {
        text
    }
}

/// The part of a text that is passed on.
pub(crate) fn quoted(text: &Option<Bytes>) -> Option<&[u8]>
    ensures { option_map (λ quote. quote.now) result ≡ quoted text.now }
{
    match text {
        Some(text) => Some(front(text.as_slice(), MAX_QUOTE)),
        None => None,
    }
}
