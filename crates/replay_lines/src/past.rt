//! The calls on a wire, as clauses alone see them.

ghost use Rattle.std.specs.Prelude.{◌≡◌, [], ◌∷◌, ◌++◌, List};
ghost use Rattle.wires.specs.Wire.{WireCall};
ghost use Rattle.replay_lines.specs.Past.{coded_calls, call_with};

use std::marker::{Model, PhantomData};

/// What a call is, without its bytes.
#[derive(Clone, Copy)]
pub(crate) enum Kind {
    Nothing,
    Opened,
    Bytes,
    Closed,
    Sent,
    HungUp,
}

/// The calls that were made. It has no bytes.
#[derive(Drop)]
pub(crate) struct Past {
    marker: PhantomData<u8>,
    pub(crate) ghost calls: { List WireCall } by { coded_calls },
}

impl Model for Past {
    ghost use base.Fml.{ftrue};

    ghost also_owns = { λ _. ftrue };
}

/// Some calls, picked by what is seen here.
fn seen_as<T>(what: &T) -> Past
    ghost calls: { List WireCall }
    ensures { result.calls ≡ calls }
{
    let _ = what;
    Past {
        marker: PhantomData,
    }
}

/// No calls.
pub(crate) fn none() -> Past
    ensures { result.calls ≡ [] }
{
    seen_as(&())
}

/// One call more, of this kind and with these bytes.
pub(crate) fn joined(past: &Past, kind: Kind, bytes: &[u8]) -> Past
    ensures { result.calls ≡ past.now.calls ++ call_with kind bytes.now ∷ [] }
{
    seen_as(&(past, kind, bytes))
}
