//! The lines of a text.

ghost use Rattle.std.specs.Prelude.{◌≡◌, ◌<◌, ◌+◌, ◌-◌, ◌^◌, ◌==◌, min, [], ◌∷◌};
ghost use Rattle.std.specs.Prelude.{length, IfSome, IsNone};
ghost use Rattle.std.specs.List.{position};
ghost use Rattle.capture_text.specs.Reading.{parts};
ghost use Rattle.capture_text.specs.Header.{cuts};

/// The byte that ends a line.
const LF: u8 = b'\n';

/// What stands between words.
pub(crate) const BLANK: u8 = b' ';

/// Where a byte stands first in a text.
fn place_of(text: &[u8], byte: u8) -> Option<usize>
    ensures { result ≡ position (λ b. b == byte) text.now }
{
    text.iter().position(|b| *b == byte)
}

/// What stands before the first such byte of a text, and what behind it; none where there is none.
#[tactic(auto, using(crate::proofs::Parts::cut_at, crate::proofs::Parts::no_cut))]
pub(crate) fn cut_at(text: &[u8], byte: u8) -> Option<(&[u8], &[u8])>
    ensures some { IfSome result (λ cut. cuts byte text.now ≡ cut.0.now ∷ cuts byte cut.1.now) }
    ensures shorter { IfSome result (λ cut. length cut.1.now < length text.now) }
    ensures none { IsNone result → cuts byte text.now ≡ text.now ∷ [] }
{
    let end = place_of(text, byte)?;
    Some((&text[..end], &text[end + 1..]))
}

/// The first line of a text and what stands behind it; none where no line ends.
pub(crate) fn split_line(text: &[u8]) -> Option<(&[u8], &[u8])>
    ensures some { IfSome result (λ cut. parts text.now ≡ cut.0.now ∷ parts cut.1.now) }
    ensures shorter { IfSome result (λ cut. length cut.1.now < length text.now) }
    ensures none { IsNone result → parts text.now ≡ text.now ∷ [] }
{
    cut_at(text, LF)
}

/// The number of the next line, up to the last value.
pub(crate) fn next_number(number: u32) -> u32
    ensures { result ≡ min (number + 1) (2 ^ 32 - 1) }
{
    number.saturating_add(1)
}
