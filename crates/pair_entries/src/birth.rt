//! The names of a journal as the payload of its birth record, and back.

ghost use Rattle.std.specs.Prelude.{◌≡◌, ◌++◌, ◌↔◌, ℕ, List, length, replicate, IsTrue};
ghost use Rattle.std.specs.Prelude.{IfOk, OnOk, MatchOption, IsSomeAnd};
ghost use Rattle.order_meaning.specs.declared.names.Names.{Names};
ghost use Rattle.pair_entries.specs.Birth.{birth_bytes, name_bytes, mark, IsName, AreNames};

use order_meaning::{MAX_NAME, Name, Names};
use std::alloc::{AllocError, Global};

/// What a birth record begins with.
const MARK: &[u8] = b"FIXGATEWAY2";

/// Appends a name, with zeros up to 35 bytes.
fn put_name(out: &mut Vec<u8>, name: &Name) -> Result<(), AllocError>
    ensures { OnOk result (out.new.items ≡ out.old.items ++ name_bytes name.now) }
{
    let text = name.as_slice();
    out.push(text.len() as u8)?;
    out.extend_from_slice(text)?;
    let full = out.len() + (MAX_NAME - text.len());
    out.resize(full, 0)
}

/// The payload of the birth record.
///
/// # Errors
/// `AllocError` for want of memory.
pub fn write_birth(alloc: Global, names: &Names) -> Result<Vec<u8>, AllocError>
    ensures { IfOk result (λ v. v.items ≡ birth_bytes names.now) }
{
    let mut out = Vec::new(alloc);
    out.extend_from_slice(MARK)?;
    put_name(&mut out, &names.client_our)?;
    put_name(&mut out, &names.client_peer)?;
    put_name(&mut out, &names.venue_our)?;
    put_name(&mut out, &names.venue_peer)?;
    Ok(out)
}

/// Whether all bytes are zero.
fn are_zero(bytes: &[u8]) -> bool
    ensures { IsTrue result ↔ (bytes.now ≡ replicate (length bytes.now) 0) }
{
    match bytes {
        [] => true,
        [first, rest @ ..] => *first == 0 && are_zero(rest),
    }
}

/// The name in front, with its length and the zeros behind it, and what is behind them.
fn name_front(bytes: &[u8]) -> Option<(&[u8], &[u8])>
    ensures { MatchOption result
        ((name rest : List ℕ) → IsName name → bytes.now ≡ name_bytes name ++ rest → ⊥)
        (λ x. (bytes.now ≡ name_bytes x.0.now ++ x.1.now) × IsName x.0.now) }
{
    let (first, rest) = bytes.split_first()?;
    let len = usize::from(*first);
    if len < 1 || len > MAX_NAME || rest.len() < MAX_NAME {
        return None;
    }
    let (room, rest) = rest.split_at(MAX_NAME);
    let (name, zeros) = room.split_at(len);
    if !are_zero(zeros) {
        return None;
    }
    Some((name, rest))
}

/// Two names in front, and what is behind them.
fn pair_front(bytes: &[u8]) -> Option<(&[u8], &[u8], &[u8])>
    ensures { MatchOption result
        ((our peer rest : List ℕ) → IsName our → IsName peer →
        bytes.now ≡ name_bytes our ++ (name_bytes peer ++ rest) → ⊥)
        (λ x. (bytes.now ≡ name_bytes x.0.now ++ (name_bytes x.1.now ++ x.2.now)) ×
        IsName x.0.now × IsName x.1.now) }
{
    let (our, rest) = name_front(bytes)?;
    let Some((peer, rest)) = name_front(rest) else {
        return None;
    };
    Some((our, peer, rest))
}

/// What is behind the mark of the format.
fn behind_mark(bytes: &[u8]) -> Option<&[u8]>
    ensures { MatchOption result ((rest : List ℕ) → bytes.now ≡ mark ++ rest → ⊥)
        (λ rest. bytes.now ≡ mark ++ rest.now) }
{
    if bytes.starts_with(MARK) {
        return Some(&bytes[MARK.len()..]);
    }
    None
}

/// Names of these texts.
fn names_of(
    client_our: &[u8],
    client_peer: &[u8],
    venue_our: &[u8],
    venue_peer: &[u8],
) -> Option<Names>
    requires client { IsName client_our.now × IsName client_peer.now }
    requires venue { IsName venue_our.now × IsName venue_peer.now }
    ensures { IsSomeAnd result (λ names. names ≡ record {
      client_our = client_our.now;
      client_peer = client_peer.now;
      venue_our = venue_our.now;
      venue_peer = venue_peer.now;
    }) }
{
    let client_our = Name::new(client_our)?;
    let client_peer = Name::new(client_peer)?;
    let venue_our = Name::new(venue_our)?;
    let venue_peer = Name::new(venue_peer)?;
    Some(Names {
        client_our,
        client_peer,
        venue_our,
        venue_peer,
    })
}

/// The names that the payload of a birth record spells, all of it.
pub fn read_birth(bytes: &[u8]) -> Option<Names>
    ensures { MatchOption result
        ((names : Names) → AreNames names → bytes.now ≡ birth_bytes names → ⊥)
        (λ names. (bytes.now ≡ birth_bytes names) × AreNames names) }
{
    let rest = behind_mark(bytes)?;
    let Some((client_our, client_peer, rest)) = pair_front(rest) else {
        return None;
    };
    let Some((venue_our, venue_peer, rest)) = pair_front(rest) else {
        return None;
    };
    if rest.len() > 0 {
        return None;
    }
    names_of(client_our, client_peer, venue_our, venue_peer)
}

/// Names have 1 to 35 bytes each.
pub fn are_names(names: &Names)
    ensures { AreNames names.now }
{
    let _ = names.client_our.as_slice();
    let _ = names.client_peer.as_slice();
    let _ = names.venue_our.as_slice();
    let _ = names.venue_peer.as_slice();
}

/// Whether two texts are the same.
fn same_text(text: &[u8], other: &[u8]) -> bool
    ensures { IsTrue result ↔ (text.now ≡ other.now) }
{
    text == other
}

/// Whether names are the same.
pub fn same_names(names: &Names, other: &Names) -> bool
    ensures { IsTrue result ↔ (names.now ≡ other.now) }
{
    same_text(names.client_our.as_slice(), other.client_our.as_slice())
        && same_text(names.client_peer.as_slice(), other.client_peer.as_slice())
        && same_text(names.venue_our.as_slice(), other.venue_our.as_slice())
        && same_text(names.venue_peer.as_slice(), other.venue_peer.as_slice())
}
