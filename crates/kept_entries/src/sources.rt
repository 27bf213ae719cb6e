//! What the outs to a side translate, by their numbers.

ghost use Rattle.std.specs.Prelude.{◌≡◌, ◌+◌, ◌≤◌, ◌++◌, List, length};
ghost use Rattle.std.specs.Prelude.{vec_len, vec_capacity};
ghost use Rattle.pair_entries.specs.declared.entry.Entry.{Entry};
ghost use Rattle.kept_entries.specs.Numbers.{first_numbers};
ghost use Rattle.kept_entries.specs.Entries.{AreEntries};
ghost use Rattle.kept_entries.specs.Given.{source_of};
ghost use Rattle.kept_entries.specs.Sources.{source_to, sources_in, sources_to, noted};

use crate::given::source_in;
use crate::numbers::is_side;
use order_meaning::Side;
use pair_entries::{EntryRef, OutRef};

/// What an out translates: its number, and the number and the type's letter of the message.
#[derive(Clone, Copy, Debug)]
pub(crate) struct Source {
    pub(crate) number: u32,
    pub(crate) from: u32,
    pub(crate) letter: u8,
}

/// What an out of an entry translates, if it goes to this side.
fn source_to(side: Side, entry: &EntryRef<'_>, out: &OutRef<'_>) -> Option<Source>
    ensures { result ≡ source_to side entry.now out.now }
{
    if !is_side(side, out.side) {
        return None;
    }
    let (from, letter) = source_in(entry, out)?;
    Some(Source {
        number: out.number,
        from,
        letter,
    })
}

/// Notes what the outs of an entry translate, for which there is room; with a new day, nothing is
/// kept.
pub(crate) fn note(list: &mut Vec<Source>, side: Side, entry: &EntryRef<'_>)
    requires room { vec_len list.old + length entry.now.outs ≤ vec_capacity list.old }
    ensures items { list.new.items ≡ noted side entry.now list.old.items }
{
    if entry.reset {
        list.clear();
        return;
    }
    note_outs(list, side, entry, entry.outs.as_slice());
}

/// Adds what these outs of an entry translate, for which there is room.
fn note_outs(list: &mut Vec<Source>, side: Side, entry: &EntryRef<'_>, outs: &[OutRef<'_>])
    requires room { vec_len list.old + length outs.now ≤ vec_capacity list.old }
    ensures items { list.new.items ≡ list.old.items ++ sources_in side entry.now outs.now }
    ensures capacity { vec_capacity list.new ≡ vec_capacity list.old }
{
    match outs {
        [] => {}
        [out, rest @ ..] => {
            if let Some(source) = source_to(side, entry, out) {
                list.push_reserved(source);
            }
            note_outs(list, side, entry, rest);
        }
    }
}

/// What the out of this number translates, by a list of what the outs to a side do.
pub(crate) fn find(list: &[Source], number: u32) -> Option<(u32, u8)>
    ensures { (side : Side) (entries : List Entry) → AreEntries first_numbers entries →
        list.now ≡ sources_to side entries → result ≡ source_of side number entries }
{
    let count = list.partition_point(|source| source.number <= number);
    if count == 0 {
        return None;
    }
    let last = list[count - 1];
    if last.number != number {
        return None;
    }
    Some((last.from, last.letter))
}
