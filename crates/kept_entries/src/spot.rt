//! Places among the entries of a journal, and the marks of every 64th.

ghost use Rattle.std.specs.Prelude.{◌≡◌, ◌⊎◌, ◌+◌, ◌*◌, ◌<◌, ◌≤◌, ◌^◌, [], ◌∷◌, ◌++◌, List, length};
ghost use Rattle.std.specs.Prelude.{take, drop};
ghost use Rattle.std.specs.Prelude.{vec_len, vec_capacity};
ghost use Rattle.pair_entries.specs.declared.entry.Entry.{Entry};
ghost use Rattle.kept_entries.specs.Spots.{behind, AreMarks};

use crate::numbers::{FIRST, Next};
use gate_log::BIRTH_LEN;
use pair_entries::EntryRef;

/// How many entries stand between one mark and the next.
pub const STRIDE: u64 = 64;

/// A place among the entries of a journal.
#[derive(Clone, Copy, Debug)]
pub struct Spot {
    /// How many entries stand before it.
    pub index: u64,
    /// Where the next record stands, in bytes from the beginning of the disk.
    pub place: u64,
    /// The next numbers there.
    pub next: Next,
}

impl Spot {
    /// The spot behind the entry that stands here, by the length of its payload.
    pub fn behind(self, entry: &EntryRef<'_>, len: u64) -> Spot
        requires index { self.index + 1 < 2 ^ 64 }
        requires place { self.place + 5 + len < 2 ^ 64 }
        ensures { result ≡ record {
          index = self.index + 1;
          place = self.place + 5 + len;
          next = entry.now.next;
        } }
    {
        Spot {
            index: self.index + 1,
            place: self.place + 5 + len,
            next: entry.next,
        }
    }
}

/// The place before the first entry, which needs no mark.
pub fn start() -> Spot
    ensures { result ≡ behind [] }
{
    Spot {
        index: 0,
        place: 5 + BIRTH_LEN as u64,
        next: FIRST,
    }
}

/// The second spot, where it stands behind a mark and before the next one; else the mark.
pub fn later(mark: Spot, spot: Spot) -> Spot
    ensures which { (result ≡ mark) ⊎ (result ≡ spot) }
    ensures from { mark.index ≤ result.index }
    ensures to { result.index < mark.index + STRIDE }
{
    if mark.index < spot.index && spot.index - mark.index < STRIDE {
        spot
    } else {
        mark
    }
}

/// Marks the place behind the last entry, where that is a 64th.
pub(crate) fn mark(marks: &mut Vec<Spot>, end: &Spot)
    requires room { vec_len marks.old + 1 ≤ vec_capacity marks.old }
    requires few { STRIDE * length marks.old.items ≤ end.now.index }
    ensures marked { (entries : List Entry) (entry : Entry) →
        end.now ≡ behind (entries ++ entry ∷ []) →
        AreMarks entries marks.old.items → AreMarks (entries ++ entry ∷ []) marks.new.items }
{
    if end.index - STRIDE * marks.len() as u64 == STRIDE {
        marks.push_reserved(*end);
    }
}

/// The marks behind so many.
pub(crate) fn marks_behind(marks: &[Spot], count: usize) -> &[Spot]
    requires { count ≤ length marks.now }
    ensures { result.now ≡ drop count marks.now }
{
    &marks[count..]
}

/// The mark of this place, counted from 1 on; the start, where it is 0.
pub(crate) fn mark_of(marks: &[Spot], count: usize) -> Spot
    requires { count ≤ length marks.now }
    ensures { (entries : List Entry) → AreMarks entries marks.now →
        result ≡ behind (take (STRIDE * count) entries) }
{
    if count == 0 {
        return start();
    }
    marks[count - 1]
}
