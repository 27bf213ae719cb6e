//! Whether the numbers of an entry go on from those before it.

ghost use Rattle.std.specs.Prelude.{◌≡◌, ◌+◌, ◌<◌, ◌^◌, ◌↔◌, length, IsTrue};
ghost use Rattle.pair_entries.specs.Payload.{AreOuts, IsEntry};
ghost use Rattle.kept_entries.specs.Numbers.{is_side, outs_to, next_in, next_out, Numbered};
ghost use Rattle.kept_entries.specs.Numbers.{OutsGoOn, InStays, GoesOn, numbers_before};
ghost use Rattle.kept_entries.specs.Days.{day_after, begun_with};

use order_meaning::Side;
use pair_entries::{EntryRef, MAX_NEXT, OutRef, TookRef};

/// The next numbers: client in, client out, venue in, venue out.
pub type Next = (u32, u32, u32, u32);

/// The next numbers before the first entry.
pub(crate) const FIRST: Next = (1, 1, 1, 1);

/// The number of an entry's day behind those of this day.
pub fn day_after(day: u32, entry: &EntryRef<'_>) -> u32
    requires { day + 1 < 2 ^ 32 }
    ensures { result ≡ day_after day entry.now }
{
    if entry.reset { day + 1 } else { day }
}

/// When the last day began, with an entry behind those before it.
pub(crate) fn begun_with(at: Option<u64>, entry: &EntryRef<'_>) -> Option<u64>
    ensures { result ≡ begun_with at entry.now }
{
    match at {
        Some(at) if !entry.reset => Some(at),
        _ => Some(entry.at),
    }
}

/// From which numbers those of an entry go on, where these stand behind those before it.
pub fn numbers_before(before: Next, entry: &EntryRef<'_>) -> Next
    ensures { result ≡ numbers_before before entry.now }
{
    if entry.reset { FIRST } else { before }
}

/// Whether two sides are one.
pub(crate) fn is_side(side: Side, other: Side) -> bool
    ensures { result ≡ is_side side other }
{
    match (side, other) {
        (Side::Client, Side::Client) | (Side::Venue, Side::Venue) => true,
        _ => false,
    }
}

/// The next number that a side takes.
fn next_in(side: Side, next: Next) -> u32
    ensures { result ≡ next_in side next }
{
    match side {
        Side::Client => next.0,
        Side::Venue => next.2,
    }
}

/// The next number that is given out to a side.
pub fn next_out(side: Side, next: Next) -> u32
    ensures { result ≡ next_out side next }
{
    match side {
        Side::Client => next.1,
        Side::Venue => next.3,
    }
}

/// Whether the outs to a side count up from this number, to the one before this next number.
fn are_numbered(side: Side, from: u32, to: u32, outs: &[OutRef<'_>]) -> bool
    requires { AreOuts outs.now }
    ensures { IsTrue result ↔
        Numbered from (outs_to side outs.now) × (to ≡ from + length (outs_to side outs.now)) }
{
    match outs {
        [] => to == from,
        [out, rest @ ..] => {
            if !is_side(side, out.side) {
                return are_numbered(side, from, to, rest);
            }
            out.number == from && are_numbered(side, from + 1, to, rest)
        }
    }
}

/// Whether the outs of a side count up from its next out, which is then one past the last.
fn outs_go_on(side: Side, before: Next, entry: &EntryRef<'_>) -> bool
    requires { IsEntry entry.now }
    ensures { IsTrue result ↔ OutsGoOn side before entry.now }
{
    let (from, to) = (next_out(side, before), next_out(side, entry.next));
    are_numbered(side, from, to, entry.outs.as_slice())
}

/// Whether the numbers of an entry go on from these.
pub fn goes_on(before: Next, entry: &EntryRef<'_>) -> bool
    requires { IsEntry entry.now }
    ensures { IsTrue result ↔ GoesOn before entry.now }
{
    outs_go_on(Side::Client, before, entry)
        && outs_go_on(Side::Venue, before, entry)
        && next_in_stays(Side::Client, before, entry)
        && next_in_stays(Side::Venue, before, entry)
}

/// Whether the next number that a side takes is as before, or the entry took a message of it.
fn next_in_stays(side: Side, before: Next, entry: &EntryRef<'_>) -> bool
    ensures { IsTrue result ↔ InStays side before entry.now }
{
    match &entry.took {
        Some(took) if is_side(side, took.side) => true,
        _ => next_in(side, entry.next) == next_in(side, before),
    }
}
