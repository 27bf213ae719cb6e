//! The lines of a repeating group.

ghost use Rattle.std.specs.Prelude.{◌≡◌, ◌<◌, ◌≤◌, ◌++◌, [], ◌∷◌, length, OnOk, OnErr};

use std::alloc::{AllocError, Global};
use std::marker::Model;

/// The most lines of a group, as `field_groups` has it; this crate stands on none.
pub const MAX_LINES: usize = 32;

/// The lines of a group, at most [`MAX_LINES`], seen as their list.
#[derive(Debug, Drop)]
pub struct GroupLines<L> {
    lines: Vec<L>,
}

impl<L> Model for GroupLines<L> {
    ghost use Rattle.std.specs.Prelude.{List, ◌≤◌, length};
    ghost use Rattle.order_meaning.specs.declared.lines.TheConstants.{MAX_LINES};

    ghost Value = { List L };

    ghost view = { λ l. l.lines.items };

    ghost invariant = { λ l. length l.lines.items ≤ MAX_LINES };
}

impl<L: Drop> GroupLines<L> {
    /// No line; it takes no memory.
    pub fn new(alloc: Global) -> GroupLines<L>
        ensures { result ≡ [] }
    {
        GroupLines {
            lines: Vec::new(alloc),
        }
    }

    /// Adds a line at the end of fewer than [`MAX_LINES`].
    ///
    /// # Errors
    ///
    /// `AllocError` for want of memory; then the lines are as before.
    pub fn push(&mut self, line: L) -> Result<(), AllocError>
        requires { length self.old < MAX_LINES }
        ensures ok { OnOk result (self.new ≡ self.old ++ line ∷ []) }
        ensures err { OnErr result (self.new ≡ self.old) }
    {
        self.lines.push(line)?;
        Ok(())
    }

    /// The lines, in order; it takes no memory.
    pub fn as_slice(&self) -> &[L]
        ensures lines { result.now ≡ self.now }
        ensures bound { length self.now ≤ MAX_LINES }
    {
        &self.lines
    }
}
