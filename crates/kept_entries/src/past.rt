//! The entries of a journal, as clauses alone see them.

ghost use Rattle.std.specs.Prelude.{◌≡◌, [], ◌∷◌, ◌++◌, List};
ghost use Rattle.pair_entries.specs.declared.entry.Entry.{Entry};
ghost use Rattle.kept_entries.specs.Past.{coded_entries};

use pair_entries::{Entry, EntryRef};
use std::marker::{Model, PhantomData};

/// The entries that were read or committed. It has no bytes: they stand on the disk.
#[derive(Drop)]
pub(crate) struct Past {
    marker: PhantomData<Entry>,
    pub(crate) ghost entries: { List Entry } by { coded_entries },
}

impl Model for Past {
    ghost use base.Fml.{ftrue};

    ghost also_owns = { λ _. ftrue };
}

/// Some entries, picked by what is seen here.
fn seen_as<T>(what: &T) -> Past
    ghost entries: { List Entry }
    ensures { result.entries ≡ entries }
{
    let _ = what;
    Past {
        marker: PhantomData,
    }
}

/// No entries.
pub(crate) fn none() -> Past
    ensures { result.entries ≡ [] }
{
    seen_as(&())
}

/// One entry more, picked by what is seen here.
pub(crate) fn joined(past: &Past, entry: &EntryRef<'_>) -> Past
    ghost more: { Entry }
    ensures { result.entries ≡ past.now.entries ++ more ∷ [] }
{
    let _ = entry;
    seen_as(past)
}
