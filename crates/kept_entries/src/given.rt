//! An out by its side and number, and the message that it translated.

ghost use Rattle.std.specs.Prelude.{◌≡◌, ◌==◌, ◌&&◌, ◌∷◌, ◌++◌, ℕ, List, length, IfSome};
ghost use Rattle.std.specs.List.{list_any, flat_map};
ghost use Rattle.pair_entries.specs.declared.entry.Out.{Out};
ghost use Rattle.pair_entries.specs.declared.entry.Entry.{Entry};
ghost use Rattle.pair_entries.specs.Payload.{IsOut, AreOuts, out_bytes};
ghost use Rattle.kept_entries.specs.Numbers.{is_side, outs_to};
ghost use Rattle.kept_entries.specs.Given.{numbered, letters_to, has_letter, is_source};
ghost use Rattle.kept_entries.specs.Given.{source_in};

use crate::numbers::is_side;
use order_meaning::Side;
use pair_entries::{EntryRef, Front, OutRef, TookRef, out_ref, u8_front};

/// The byte that ends a field; this crate stands on none that reads fields.
const SOH: u8 = 1;

/// Whether an out is of this side and number.
fn is_of(side: Side, number: u32, out: &OutRef<'_>) -> bool
    ensures { result ≡ (is_side side out.now.side && (out.now.number == number)) }
{
    is_side(side, out.side) && out.number == number
}

/// The first out of this side and number among so many that stand in front.
fn out_among(side: Side, number: u32, count: u8, bytes: &[u8]) -> Option<OutRef<'_>>
    ensures bounds { IfSome result IsOut }
    ensures finds { (outs : List Out) (rest : List ℕ) → AreOuts outs → length outs ≡ count →
        bytes.now ≡ flat_map out_bytes outs ++ rest →
        result ≡ numbered number (outs_to side outs) }
{
    if count == 0 {
        return None;
    }
    let Some((out, rest)) = out_ref(bytes) else {
        return None;
    };
    if is_of(side, number, &out) {
        return Some(out);
    }
    out_among(side, number, count - 1, rest)
}

/// The out of this side and number in an entry of which this is the front.
pub fn out_in<'b>(side: Side, number: u32, front: &Front<'b>) -> Option<OutRef<'b>>
    ensures bounds { IfSome result IsOut }
    ensures finds { (entry : Entry) → AreOuts entry.outs →
        front.now.outs.now ≡ length entry.outs ∷ flat_map out_bytes entry.outs →
        result ≡ numbered number (outs_to side entry.outs) }
{
    let Some((count, outs)) = u8_front(front.outs) else {
        return None;
    };
    out_among(side, number, count, outs)
}

/// Whether a message of this letter is translated to a side.
fn is_letter(side: Side, letter: u8) -> bool
    ensures { result ≡ list_any (λ b. letter == b) (letters_to side) }
{
    match side {
        Side::Client => matches!(letter, b'8' | b'9'),
        Side::Venue => matches!(letter, b'D' | b'F' | b'G' | b'H'),
    }
}

/// Whether a body begins with MsgType(35) of this letter.
fn has_letter(letter: u8, raw: &[u8]) -> bool
    ensures { result ≡ has_letter letter raw.now }
{
    raw.starts_with(&[b'3', b'5', b'=', letter, SOH])
}

/// Whether an out of this side and letter translates what was taken.
fn is_source(took: &TookRef<'_>, side: Side, letter: u8) -> bool
    ensures { result ≡ is_source took.now side letter }
{
    !is_side(side, took.side) && is_letter(side, letter) && has_letter(letter, took.raw)
}

/// The number and the type's letter of the message that an out of this entry translates.
pub fn source_in(entry: &EntryRef<'_>, out: &OutRef<'_>) -> Option<(u32, u8)>
    ensures { result ≡ source_in (record { entry = entry.now; out = out.now }) }
{
    let took = entry.took.as_ref()?;
    match out.msg_type {
        [letter] if is_source(took, out.side, *letter) => Some((took.number, *letter)),
        _ => None,
    }
}
