//! The first two lines of a capture.

ghost use Rattle.std.specs.Prelude.{◌≡◌, ◌<◌, ◌^◌, ◌∷◌, codes, IfSome, IsNone};
ghost use Rattle.order_meaning.specs.declared.names.Names.{Names};
ghost use Rattle.capture_text.specs.Capture.{IsName};
ghost use Rattle.capture_text.specs.Header.{cuts, IsShort, AreNames, NamesLine};
ghost use Rattle.capture_text.specs.Header.{written_names, NumberSays, TimesSay};

use crate::lines::{BLANK, cut_at};
use crate::number::number;
use order_meaning::{Name, Names};

/// The first line of a capture.
pub(crate) const TITLE: &[u8] = b"fixgate capture 1";

/// The most seconds of HeartBtInt(108).
const MAX_HEART: u64 = 3600;

/// The last minute of a day.
const MAX_RESET: u64 = 1439;

/// A name of 1 to 35 bytes from 33 to 126.
fn name_of(text: &[u8]) -> Option<Name>
    ensures some { IfSome result (λ name. (name ≡ text.now) × IsName text.now) }
    ensures none { IsNone result → IsName text.now → ⊥ }
{
    if text.iter().all(|byte| 33 <= *byte && *byte <= 126) {
        Name::new(text)
    } else {
        None
    }
}

/// A number up to a bound.
fn number_to(digits: &[u8], most: u64) -> Option<u32>
    requires { most < 2 ^ 32 }
    ensures { NumberSays most digits.now result }
{
    match number(digits) {
        Some(number) if number <= most => Some(number as u32),
        _ => None,
    }
}

/// HeartBtInt(108), from 0 to 3,600 seconds, and a minute of the day behind it, from 0 to 1,439,
/// where there is one.
#[tactic(auto, using(crate::proofs::NamesLine::read_times))]
fn times_of(text: &[u8]) -> Option<(u32, Option<u32>)>
    ensures { TimesSay text.now result }
{
    match cut_at(text, BLANK) {
        Some((heart, minute)) => {
            let heart = number_to(heart, MAX_HEART)?;
            let minute = number_to(minute, MAX_RESET)?;
            Some((heart, Some(minute)))
        }
        None => {
            let heart = number_to(text, MAX_HEART)?;
            Some((heart, None))
        }
    }
}

/// What stands behind the word of the second line.
#[derive(Clone, Copy, Debug)]
struct Words<'a> {
    client_our: &'a [u8],
    client_peer: &'a [u8],
    venue_our: &'a [u8],
    venue_peer: &'a [u8],
    times: &'a [u8],
}

/// The words of the second line: `names`, and five of which the last may have blanks.
fn words_of(line: &[u8]) -> Option<Words<'_>>
    ensures some { IfSome result (λ w. cuts 32 line.now ≡ codes "names"
        ∷ w.client_our.now ∷ w.client_peer.now ∷ w.venue_our.now ∷ w.venue_peer.now
        ∷ cuts 32 w.times.now) }
    ensures none { IsNone result → IsShort (cuts 32 line.now) }
{
    let (word, rest) = cut_at(line, BLANK)?;
    if word != b"names".as_slice() {
        return None;
    }
    let (client_our, rest) = cut_at(rest, BLANK)?;
    let (client_peer, rest) = cut_at(rest, BLANK)?;
    let (venue_our, rest) = cut_at(rest, BLANK)?;
    let (venue_peer, times) = cut_at(rest, BLANK)?;
    Some(Words {
        client_our,
        client_peer,
        venue_our,
        venue_peer,
        times,
    })
}

/// The names of these words.
fn names_of(words: &Words<'_>) -> Option<Names>
    ensures some { IfSome result (λ names. AreNames names) }
    ensures same { IfSome result (λ names. names ≡ written_names words.now.client_our.now
        words.now.client_peer.now words.now.venue_our.now words.now.venue_peer.now) }
    ensures none { IsNone result → AreNames (written_names words.now.client_our.now
        words.now.client_peer.now words.now.venue_our.now words.now.venue_peer.now) → ⊥ }
{
    Some(Names {
        client_our: name_of(words.client_our)?,
        client_peer: name_of(words.client_peer)?,
        venue_our: name_of(words.venue_our)?,
        venue_peer: name_of(words.venue_peer)?,
    })
}

/// The names, HeartBtInt(108) and the minute of the second line, `names A B C D H` or
/// `names A B C D H M`.
pub(crate) fn read_names(line: &[u8]) -> Option<(Names, u32, Option<u32>)>
    ensures { NamesLine line.now result }
{
    let words = words_of(line)?;
    let names = names_of(&words)?;
    let (heart, reset) = times_of(words.times)?;
    Some((names, heart, reset))
}
