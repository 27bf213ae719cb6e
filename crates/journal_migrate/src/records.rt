//! One record of format 1, as format 2 has it.

ghost use Rattle.std.specs.Prelude.{◌≡◌, ◌+◌, ◌^◌, ◌<◌, ◌≤◌, ◌∷◌, ◌++◌, ℕ, List, [], length};
ghost use Rattle.std.specs.Prelude.{drop};
ghost use Rattle.std.specs.Prelude.{OnOk, IfOk, MatchOption};
ghost use Rattle.gate_log.specs.Records.{blocks};
ghost use Rattle.pair_entries.specs.declared.entry.Entry.{Entry};
ghost use Rattle.pair_entries.specs.Payload.{entry_bytes};
ghost use Rattle.kept_entries.specs.Days.{day_after};
ghost use Rattle.journal_migrate.specs.Format1.{mark1};
ghost use Rattle.journal_migrate.specs.Walk.{TellsBirth, IsNext, IsNoNext};

use gate_log::MAX_PAYLOAD;
use pair_entries::read_birth;
use pair_journal::payload_next;
use std::alloc::AllocError;

/// The bytes in front of a payload: an open gate, and its length.
pub(crate) const HEAD_LEN: usize = 5;

/// A gate byte that is open.
const OPEN: u8 = 1;

/// The mark of format 1, and that of format 2.
const MARK_1: &[u8] = b"FIXGATEWAY1";

const MARK_2: &[u8] = b"FIXGATEWAY2";

/// Where the byte stands that says what an entry took, and what it says where a day begins.
const TOOK_AT: usize = 8;

const NEW_DAY: u8 = 3;

/// The next numbers: client in, client out, venue in, venue out.
pub(crate) type Next = (u32, u32, u32, u32);

/// Replaces a buffer by the record of a payload of two parts.
fn write_record(renewed: &mut Vec<u8>, front: &[u8], rest: &[u8]) -> Result<(), AllocError>
    requires { length front.now + length rest.now < 2 ^ 32 }
    ensures { OnOk result (renewed.new.items ≡ blocks ((front.now ++ rest.now) ∷ [])) }
{
    let len = (front.len() + rest.len()) as u32;
    renewed.clear();
    renewed.push(OPEN)?;
    renewed.extend_from_slice(&len.to_be_bytes())?;
    renewed.extend_from_slice(front)?;
    renewed.extend_from_slice(rest)
}

/// The payload of a record.
fn payload_of(renewed: &[u8]) -> &[u8]
    requires { HEAD_LEN ≤ length renewed.now }
    ensures { result.now ≡ drop HEAD_LEN renewed.now }
{
    &renewed[HEAD_LEN..]
}

/// What is behind the mark of format 1.
fn behind_mark(payload: &[u8]) -> Option<&[u8]>
    ensures { MatchOption result ((rest : List ℕ) → payload.now ≡ mark1 ++ rest → ⊥)
        (λ rest. payload.now ≡ mark1 ++ rest.now) }
{
    if payload.starts_with(MARK_1) {
        return Some(&payload[MARK_1.len()..]);
    }
    None
}

/// Whether this payload names a journal of format 1. Then a buffer has the record of the same names
/// in format 2.
///
/// # Errors
/// `AllocError` for want of memory.
pub(crate) fn renew_birth(payload: &[u8], renewed: &mut Vec<u8>) -> Result<bool, AllocError>
    requires { length payload.now ≤ MAX_PAYLOAD }
    ensures { IfOk result (λ r. TellsBirth r payload.now renewed.new.items) }
{
    let Some(rest) = behind_mark(payload) else {
        return Ok(false);
    };
    write_record(renewed, MARK_2, rest)?;
    Ok(read_birth(payload_of(renewed)).is_some())
}

/// The day of an entry behind those of this day, where this payload is of one.
fn day_of(day: u32, payload: &[u8]) -> u32
    requires { day + 1 < 2 ^ 32 }
    ensures { (entry : Entry) → payload.now ≡ entry_bytes entry → result ≡ day_after day entry }
{
    if payload.len() > TOOK_AT && payload[TOOK_AT] == NEW_DAY {
        return day + 1;
    }
    day
}

/// The day and the next numbers behind the entry of format 1 that this payload spells, where it
/// goes on from these; none exactly where it spells none that does. A buffer then has the record of
/// the same entry in format 2.
///
/// # Errors
/// `AllocError` for want of memory.
pub(crate) fn renew_entry(
    payload: &[u8],
    day: u32,
    next: Next,
    renewed: &mut Vec<u8>,
) -> Result<Option<(u32, Next)>, AllocError>
    requires sized { length payload.now ≤ MAX_PAYLOAD }
    requires few { day + 1 < 2 ^ 32 }
    ensures { IfOk result (λ r. MatchOption r (IsNoNext next payload.now)
        (λ x. IsNext day next payload.now x.0 x.1 renewed.new.items)) }
{
    let today = day_of(day, payload);
    write_record(renewed, &today.to_be_bytes(), payload)?;
    Ok(payload_next(payload_of(renewed), day, next))
}
