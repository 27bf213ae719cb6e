//! The acts of a step.

ghost use Rattle.std.specs.Prelude.{◌≡◌, ◌<◌, ◌≤◌, ◌++◌, [], ◌∷◌, ⊤, length};

use crate::Act;
use std::alloc::AllocError;
use std::fmt;
use std::marker::Model;

/// How many acts a step has at most.
pub const MAX_ACTS: usize = 5;

/// At most five acts, in order. Contracts see it as the list of them.
#[derive(Drop)]
pub struct Acts {
    acts: [Act; MAX_ACTS],
    len: usize,
}

impl Model for Acts {
    ghost use Rattle.std.specs.Prelude.{List, take, ◌≤◌};
    ghost use Rattle.session_core.specs.declared.act.Act.{Act};
    ghost use Rattle.session_core.specs.declared.acts.TheConstants.{MAX_ACTS};

    ghost Value = { List Act };

    ghost view = { λ a. take a.len a.acts };

    ghost invariant = { λ a. a.len ≤ MAX_ACTS };
}

impl Acts {
    /// No act.
    pub fn new() -> Acts
        ensures { result ≡ [] }
    {
        Acts {
            acts: [Act::Take; MAX_ACTS],
            len: 0,
        }
    }

    // The acts of a slice.
    pub(crate) fn of(items: &[Act]) -> Acts
        requires { length items.now ≤ MAX_ACTS }
        ensures { result ≡ items.now }
    {
        let mut acts = Acts::new();
        for act in items {
            acts.push(*act);
        }
        acts
    }

    /// Adds an act at the end of fewer than five.
    pub fn push(&mut self, act: Act)
        requires { length self.old < MAX_ACTS }
        ensures { self.new ≡ self.old ++ act ∷ [] }
    {
        self.acts[self.len] = act;
        self.len += 1;
    }

    /// The acts, in order.
    pub fn as_slice(&self) -> &[Act]
        ensures items { result.now ≡ self.now }
        ensures few { length result.now ≤ MAX_ACTS }
    {
        &self.acts[..self.len]
    }
}

impl Clone for Acts {
    ghost is_clone = { λ acts copy. copy ≡ acts };

    ghost is_infallible = { λ _. ⊤ };

    fn clone(&self) -> Result<Acts, AllocError> {
        Ok(Acts {
            acts: self.acts,
            len: self.len,
        })
    }
}

impl fmt::Debug for Acts {
    fn fmt<W: fmt::Write>(&self, f: &mut fmt::Formatter<W>) -> fmt::Result {
        f.debug_list().entries(self.as_slice()).finish()
    }
}

impl PartialEq for Acts {
    ghost use Rattle.std.specs.Cmp.Lexicographic.{pointwise, lists_per};
    ghost use Rattle.session_core.specs.contracts.act.ActPartialEq.TheImpl.{eq-value};
    ghost use Rattle.session_core.specs.contracts.act.ActPartialEq.TheImpl.Laws.{laws-law};

    ghost eq = { pointwise eq-value.it };

    ghost laws = { lists_per laws-law };

    fn eq(&self, other: &Acts) -> bool {
        self.as_slice() == other.as_slice()
    }
}

impl Eq for Acts {
    ghost use Rattle.std.specs.Cmp.Lexicographic.{lists_equiv};
    ghost use Rattle.session_core.specs.contracts.act.ActEq.TheImpl.Laws.{laws-law};

    ghost laws = { lists_equiv laws-law };
}
