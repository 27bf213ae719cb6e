//! The bytes of a payload as what they say; none exactly where they are of no right form.

ghost use Rattle.std.specs.Prelude.{◌≡◌, ◌≤◌, ◌<◌, ◌^◌, [], ◌∷◌, ◌++◌, ℕ, List, Bool, true, None};
ghost use Rattle.std.specs.Prelude.{length};
ghost use Rattle.std.specs.Prelude.{IfSome, MatchOption};
ghost use Rattle.std.specs.declared.option.Option.{Option};
ghost use Rattle.std.specs.Int.{w32, w64, to_be_bytes};
ghost use Rattle.std.specs.List.{flat_map};
ghost use Rattle.order_meaning.specs.declared.Side.{Side};
ghost use Rattle.pair_entries.specs.declared.entry.Took.{Took};
ghost use Rattle.pair_entries.specs.declared.entry.Out.{Out};
ghost use Rattle.pair_entries.specs.declared.entry.Entry.{Entry};
ghost use Rattle.pair_entries.specs.Payload.{Next, IsTook, IsOut, AreOuts, AreNext, IsEntry};
ghost use Rattle.pair_entries.specs.Payload.{IsNextNumber};
ghost use Rattle.pair_entries.specs.Payload.{side_byte, flags_byte, counted};
ghost use Rattle.pair_entries.specs.declared.reading.Head.{Head};
ghost use Rattle.pair_entries.specs.Parts.{head_bytes, front_bytes, IsFront};
ghost use Rattle.pair_entries.specs.Payload.{took_bytes, taken_bytes, next_bytes, out_bytes};
ghost use Rattle.pair_entries.specs.Payload.{entry_bytes};

use crate::{
    EntryRef, MAX_AT, MAX_CONTENT, MAX_NEXT, MAX_NUMBER, MAX_OUTS, MAX_RAW, MAX_TYPE, OutRef,
    OutRefs, TookRef,
};
use gate_log::u32_front;
use order_meaning::Side;

/// The number of eight bytes in front, and what is behind it.
fn u64_front(bytes: &[u8]) -> Option<(u64, &[u8])>
    ensures { MatchOption result (length bytes.now < 8) (λ x.
        (bytes.now ≡ to_be_bytes w64 x.0 ++ x.1.now) × (x.0 < 2 ^ 64)) }
{
    if bytes.len() < 8 {
        return None;
    }
    let (front, rest) = bytes.split_at(8);
    let number = u64::from_be_bytes([
        front[0], front[1], front[2], front[3], front[4], front[5], front[6], front[7],
    ]);
    Some((number, rest))
}

/// The byte in front, and what is behind it.
pub fn u8_front(bytes: &[u8]) -> Option<(u8, &[u8])>
    ensures { MatchOption result (bytes.now ≡ []) (λ x. bytes.now ≡ x.0 ∷ x.1.now) }
{
    match bytes {
        [first, rest @ ..] => Some((*first, rest)),
        [] => None,
    }
}

/// The side of a byte.
fn side_of(byte: u8) -> Option<Side>
    ensures { MatchOption result ((side : Side) → byte ≡ side_byte side → ⊥)
        (λ side. byte ≡ side_byte side) }
{
    match byte {
        1 => Some(Side::Client),
        2 => Some(Side::Venue),
        _ => None,
    }
}

/// The two marks of an out, administrative and resend.
fn flags_of(byte: u8) -> Option<(bool, bool)>
    ensures { MatchOption result ((admin resend : Bool) → byte ≡ flags_byte admin resend → ⊥)
        (λ flags. byte ≡ flags_byte flags.0 flags.1) }
{
    match byte {
        0 => Some((false, false)),
        1 => Some((true, false)),
        2 => Some((false, true)),
        3 => Some((true, true)),
        _ => None,
    }
}

/// The bytes in front that a length of four bytes counts, at most so many, and what is behind them.
fn counted_front(bytes: &[u8], most: usize) -> Option<(&[u8], &[u8])>
    requires { most < 2 ^ 32 }
    ensures { MatchOption result
        ((text rest : List ℕ) → length text ≤ most → bytes.now ≡ counted text ++ rest → ⊥)
        (λ x. (bytes.now ≡ counted x.0.now ++ x.1.now) × (length x.0.now ≤ most)) }
{
    let (len, rest) = u32_front(bytes)?;
    let len = len as usize;
    if len <= most && len <= rest.len() {
        return Some(rest.split_at(len));
    }
    None
}

/// The type in front, behind its length byte, and what is behind it.
fn type_front(bytes: &[u8]) -> Option<(&[u8], &[u8])>
    ensures { MatchOption result
        ((text rest : List ℕ) → 1 ≤ length text → length text ≤ MAX_TYPE →
        bytes.now ≡ length text ∷ text ++ rest → ⊥)
        (λ x. (bytes.now ≡ length x.0.now ∷ x.0.now ++ x.1.now) ×
        (1 ≤ length x.0.now) × (length x.0.now ≤ MAX_TYPE)) }
{
    let (first, rest) = bytes.split_first()?;
    let len = usize::from(*first);
    if 1 <= len && len <= MAX_TYPE && len <= rest.len() {
        return Some(rest.split_at(len));
    }
    None
}

/// A next number in front, and what is behind it.
fn next_front(bytes: &[u8]) -> Option<(u32, &[u8])>
    ensures { MatchOption result
        ((n : ℕ) (rest : List ℕ) → IsNextNumber n → bytes.now ≡ to_be_bytes w32 n ++ rest → ⊥)
        (λ x. (bytes.now ≡ to_be_bytes w32 x.0 ++ x.1.now) × IsNextNumber x.0) }
{
    let (number, rest) = u32_front(bytes)?;
    if 1 <= number && number <= MAX_NEXT {
        return Some((number, rest));
    }
    None
}

/// What was taken, in front, and what is behind it.
fn took_front(bytes: &[u8]) -> Option<(Option<TookRef<'_>>, &[u8])>
    ensures { MatchOption result
        ((took : Option Took) (rest : List ℕ) → IfSome took IsTook →
        bytes.now ≡ took_bytes took ++ rest → ⊥)
        (λ x. (bytes.now ≡ took_bytes x.0 ++ x.1.now) × IfSome x.0 IsTook) }
{
    let (first, rest) = bytes.split_first()?;
    if *first == 0 {
        return Some((None, rest));
    }
    let side = side_of(*first)?;
    let (number, raw, rest) = message_front(rest)?;
    Some((Some(TookRef { side, number, raw }), rest))
}

/// A new day, or what was taken, in front, and what is behind it.
fn taken_front(bytes: &[u8]) -> Option<(bool, Option<TookRef<'_>>, &[u8])>
    ensures { MatchOption result
        ((reset : Bool) (took : Option Took) (rest : List ℕ) → IfSome took IsTook →
        bytes.now ≡ taken_bytes reset took ++ rest → ⊥)
        (λ x. (bytes.now ≡ taken_bytes x.0 x.1 ++ x.2.now) × IfSome x.1 IsTook ×
        (x.0 ≡ true → x.1 ≡ None)) }
{
    match bytes {
        [3, rest @ ..] => Some((true, None, rest)),
        _ => {
            let (took, rest) = took_front(bytes)?;
            Some((false, took, rest))
        }
    }
}

/// A number and a raw body in front, and what is behind them.
fn message_front(bytes: &[u8]) -> Option<(u32, &[u8], &[u8])>
    ensures { MatchOption result
        ((n : ℕ) (raw rest : List ℕ) → 1 ≤ n → n ≤ MAX_NUMBER → length raw ≤ MAX_RAW →
        bytes.now ≡ to_be_bytes w32 n ++ (counted raw ++ rest) → ⊥)
        (λ x. (bytes.now ≡ to_be_bytes w32 x.0 ++ (counted x.1.now ++ x.2.now)) ×
        (1 ≤ x.0) × (x.0 ≤ MAX_NUMBER) × (length x.1.now ≤ MAX_RAW)) }
{
    let (number, rest) = u32_front(bytes)?;
    let (raw, rest) = counted_front(rest, MAX_RAW)?;
    if 1 <= number && number <= MAX_NUMBER {
        return Some((number, raw, rest));
    }
    None
}

/// Two next numbers in front, and what is behind them.
fn pair_front(bytes: &[u8]) -> Option<((u32, u32), &[u8])>
    ensures { MatchOption result
        ((m n : ℕ) (rest : List ℕ) → IsNextNumber m → IsNextNumber n →
        bytes.now ≡ to_be_bytes w32 m ++ (to_be_bytes w32 n ++ rest) → ⊥)
        (λ x. (bytes.now ≡ to_be_bytes w32 x.0.0 ++ (to_be_bytes w32 x.0.1 ++ x.1.now)) ×
        IsNextNumber x.0.0 × IsNextNumber x.0.1) }
{
    let (first, rest) = next_front(bytes)?;
    let (second, rest) = next_front(rest)?;
    Some(((first, second), rest))
}

/// The next numbers in front, and what is behind them.
fn nexts_front(bytes: &[u8]) -> Option<((u32, u32, u32, u32), &[u8])>
    ensures { MatchOption result
        ((next : Next) (rest : List ℕ) → AreNext next → bytes.now ≡ next_bytes next ++ rest → ⊥)
        (λ x. (bytes.now ≡ next_bytes x.0 ++ x.1.now) × AreNext x.0) }
{
    let (client, rest) = pair_front(bytes)?;
    let Some((venue, rest)) = pair_front(rest) else {
        return None;
    };
    Some(((client.0, client.1, venue.0, venue.1), rest))
}

/// The side, the number and the two marks of an out.
#[derive(Clone, Copy)]
struct Head {
    side: Side,
    number: u32,
    admin: bool,
    resend: bool,
}

/// The head of an out in front, and what is behind it.
fn head_front(bytes: &[u8]) -> Option<(Head, &[u8])>
    ensures { MatchOption result
        ((head : Head) (rest : List ℕ) → head.number ≤ MAX_NUMBER →
        bytes.now ≡ head_bytes head ++ rest → ⊥)
        (λ x. (bytes.now ≡ head_bytes x.0 ++ x.1.now) × (x.0.number ≤ MAX_NUMBER)) }
{
    let (first, rest) = bytes.split_first()?;
    let side = side_of(*first)?;
    let (number, (admin, resend), rest) = marked_front(rest)?;
    let head = Head {
        side,
        number,
        admin,
        resend,
    };
    Some((head, rest))
}

/// Two marks in front, and what is behind them.
fn flags_front(bytes: &[u8]) -> Option<((bool, bool), &[u8])>
    ensures { MatchOption result
        ((admin resend : Bool) (rest : List ℕ) → bytes.now ≡ flags_byte admin resend ∷ rest → ⊥)
        (λ x. bytes.now ≡ flags_byte x.0.0 x.0.1 ∷ x.1.now) }
{
    let (first, rest) = u8_front(bytes)?;
    let Some(flags) = flags_of(first) else {
        return None;
    };
    Some((flags, rest))
}

/// A number and two marks in front, and what is behind them.
fn marked_front(bytes: &[u8]) -> Option<(u32, (bool, bool), &[u8])>
    ensures { MatchOption result
        ((n : ℕ) (admin resend : Bool) (rest : List ℕ) → n ≤ MAX_NUMBER →
        bytes.now ≡ to_be_bytes w32 n ++ flags_byte admin resend ∷ rest → ⊥)
        (λ x. (bytes.now ≡ to_be_bytes w32 x.0 ++ flags_byte x.1.0 x.1.1 ∷ x.2.now) ×
        (x.0 ≤ MAX_NUMBER)) }
{
    let (number, rest) = u32_front(bytes)?;
    let Some((flags, rest)) = flags_front(rest) else {
        return None;
    };
    if number > MAX_NUMBER {
        return None;
    }
    Some((number, flags, rest))
}

/// A type and a content in front, and what is behind them.
fn texts_front(bytes: &[u8]) -> Option<(&[u8], &[u8], &[u8])>
    ensures { MatchOption result
        ((text content rest : List ℕ) → 1 ≤ length text → length text ≤ MAX_TYPE →
        length content ≤ MAX_CONTENT →
        bytes.now ≡ length text ∷ text ++ (counted content ++ rest) → ⊥)
        (λ x. (bytes.now ≡ length x.0.now ∷ x.0.now ++ (counted x.1.now ++ x.2.now)) ×
        (1 ≤ length x.0.now) × (length x.0.now ≤ MAX_TYPE) × (length x.1.now ≤ MAX_CONTENT)) }
{
    let (msg_type, rest) = type_front(bytes)?;
    let Some((content, rest)) = counted_front(rest, MAX_CONTENT) else {
        return None;
    };
    Some((msg_type, content, rest))
}

/// An out in front, where its bytes stand, and what is behind it.
pub fn out_ref(bytes: &[u8]) -> Option<(OutRef<'_>, &[u8])>
    ensures { MatchOption result
        ((out : Out) (rest : List ℕ) → IsOut out → bytes.now ≡ out_bytes out ++ rest → ⊥)
        (λ x. (bytes.now ≡ out_bytes x.0 ++ x.1.now) × IsOut x.0) }
{
    let Some((head, rest)) = head_front(bytes) else {
        return None;
    };
    let Some((msg_type, content, rest)) = texts_front(rest) else {
        return None;
    };
    let out = OutRef {
        side: head.side,
        number: head.number,
        admin: head.admin,
        resend: head.resend,
        msg_type,
        content,
    };
    Some((out, rest))
}

/// So many outs in front, and what is behind them.
fn outs_front(count: u8, bytes: &[u8]) -> Option<(OutRefs<'_>, &[u8])>
    requires { count ≤ MAX_OUTS }
    ensures { MatchOption result
        ((outs : List Out) (rest : List ℕ) → AreOuts outs → length outs ≡ count →
        bytes.now ≡ flat_map out_bytes outs ++ rest → ⊥)
        (λ x. (bytes.now ≡ flat_map out_bytes x.0 ++ x.1.now) × AreOuts x.0 ×
        (length x.0 ≡ count)) }
{
    let mut outs = OutRefs::new();
    let mut rest = bytes;
    while outs.as_slice().len() < usize::from(count) {
        let Some((out, after)) = out_ref(rest) else {
            return None;
        };
        outs.push(out);
        rest = after;
    }
    Some((outs, rest))
}

/// An entry but for its outs, where its bytes stand.
#[derive(Drop)]
pub struct Front<'b> {
    /// When it was, in milliseconds since 1970-01-01 00:00 UTC.
    pub at: u64,
    /// Whether a session day begins with it.
    pub reset: bool,
    took: Option<TookRef<'b>>,
    /// The next numbers after it: client in, client out, venue in, venue out.
    pub next: (u32, u32, u32, u32),
    /// The count of its outs, and the outs.
    pub outs: &'b [u8],
}

/// What these bytes begin with as an entry. It takes no memory.
pub fn front_of(bytes: &[u8]) -> Option<Front<'_>>
    ensures { MatchOption result
        ((entry : Entry) → IsEntry entry → bytes.now ≡ entry_bytes entry → ⊥)
        (λ front. (bytes.now ≡ front_bytes front) × IsFront front) }
{
    let Some((at, rest)) = u64_front(bytes) else {
        return None;
    };
    let Some((reset, took, rest)) = taken_front(rest) else {
        return None;
    };
    let Some((next, outs)) = nexts_front(rest) else {
        return None;
    };
    if at > MAX_AT || (reset && next != (1, 1, 1, 1)) {
        return None;
    }
    Some(Front {
        at,
        reset,
        took,
        next,
        outs,
    })
}

/// The entry that these bytes spell, all of them, where they stand. It takes no memory.
pub fn entry_ref(bytes: &[u8]) -> Option<EntryRef<'_>>
    ensures { MatchOption result
        ((entry : Entry) → IsEntry entry → bytes.now ≡ entry_bytes entry → ⊥)
        (λ entry. (bytes.now ≡ entry_bytes entry) × IsEntry entry) }
{
    let Some(front) = front_of(bytes) else {
        return None;
    };
    let Some(outs) = all_outs(front.outs) else {
        return None;
    };
    if front.reset && !outs.as_slice().is_empty() {
        return None;
    }
    let Front {
        at,
        reset,
        took,
        next,
        ..
    } = front;
    Some(EntryRef {
        at,
        reset,
        took,
        next,
        outs,
    })
}

/// The outs that these bytes spell behind their count, all of them.
fn all_outs(bytes: &[u8]) -> Option<OutRefs<'_>>
    ensures { MatchOption result
        ((outs : List Out) → AreOuts outs → length outs ≤ MAX_OUTS →
        bytes.now ≡ length outs ∷ flat_map out_bytes outs → ⊥)
        (λ outs. (bytes.now ≡ length outs ∷ flat_map out_bytes outs) × AreOuts outs ×
        (length outs ≤ MAX_OUTS)) }
{
    let Some((count, rest)) = u8_front(bytes) else {
        return None;
    };
    if usize::from(count) > MAX_OUTS {
        return None;
    }
    let Some((outs, rest)) = outs_front(count, rest) else {
        return None;
    };
    if rest.len() > 0 {
        return None;
    }
    Some(outs)
}
