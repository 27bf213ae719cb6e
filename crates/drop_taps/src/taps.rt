//! Many taps, in boxes.

ghost use Rattle.std.specs.Prelude.{◌≡◌, [], ◌∷◌, false, filter, not, IfSome, is_err, OnErr};
ghost use Rattle.std.specs.Option.{option_to_list, ForSome};
ghost use Rattle.pair_entries.specs.Payload.{IsEntry};
ghost use Rattle.drop_taps.specs.Tap.{seen_after, tally_after};
ghost use Rattle.drop_taps.specs.Shown.{Saw, HaveSeen, state_by};

use crate::{Tap, TapFailed};
use pair_entries::Entry;

/// Whether a tap has failed.
fn is_failed(tap: &Box<dyn Tap>) -> bool
    ensures { result ≡ has_failed tap.now }
{
    tap.failed()
}

/// Calls a tap that has not failed.
fn tell(tap: &mut Box<dyn Tap>, entry: &Entry) -> Result<(), TapFailed>
    requires works { has_failed tap.old ≡ false }
    requires entry { IsEntry entry.now }
    ensures entries { entries tap.new ≡ seen_after result entry.now (entries tap.old) }
    ensures tally { tally tap.new
        ≡ tally_after (counts_all tap.old) result entry.now (tally tap.old) }
    ensures counts { counts_all tap.new ≡ counts_all tap.old }
    ensures failed { has_failed tap.new ≡ is_err result }
    ensures refused { OnErr result (ForSome (refused tap.new) (λ e. e ≡ entry.now)) }
{
    tap.saw(entry)
}

/// Shows an entry to a tap that has not failed.
fn show_to(tap: &mut Box<dyn Tap>, entry: &Entry)
    requires { IsEntry entry.now }
    ensures { Saw (state_by has_failed entries tally counts_all refused) tap.old tap.new
        (entry.now ∷ []) }
{
    if is_failed(tap) {
        return;
    }
    // Whether it failed is the tap's to tell.
    let _ = tell(tap, entry);
}

/// Shows an entry to each tap in order.
fn show_all(taps: &mut Vec<Box<dyn Tap>>, entry: &Entry)
    requires { IsEntry entry.now }
    ensures { HaveSeen (state_by has_failed entries tally counts_all refused) taps.old.items
        taps.new.items (entry.now ∷ []) }
{
    for tap in taps.iter_mut() {
        show_to(tap, entry);
    }
}

/// Shows an entry, where there is one, to each tap in order. One that has failed is passed over,
/// and none is taken out.
pub fn show(taps: &mut Vec<Box<dyn Tap>>, entry: &Option<Entry>)
    requires { IfSome entry.now IsEntry }
    ensures { HaveSeen (state_by has_failed entries tally counts_all refused) taps.old.items
        taps.new.items (option_to_list entry.now) }
{
    match entry {
        Some(entry) => show_all(taps, entry),
        None => {}
    }
}

/// Whether a tap has not failed.
fn works(tap: &Box<dyn Tap>) -> bool
    ensures { result ≡ not (has_failed tap.now) }
{
    !is_failed(tap)
}

/// Drops the taps that have failed. The others keep their order; it takes no memory.
pub fn clear(taps: &mut Vec<Box<dyn Tap>>)
    ensures { taps.new.items ≡ filter (λ tap. not (has_failed tap)) taps.old.items }
{
    taps.retain(
        |tap: &Box<dyn Tap>| -> bool
            ensures { result ≡ not (has_failed tap.now) }
        { works(tap) },
    );
}
