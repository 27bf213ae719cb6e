//! A text that waits.

ghost use Rattle.std.specs.Prelude.{◌≡◌, ◌++◌, [], OnOk, OnErr};
ghost use Rattle.std.specs.List.{concat};

use kept_pieces::{Packed, pack};
use std::alloc::{AllocError, Global};
use std::marker::Model;

/// From how many bytes on a text is long: what waits of the calls is packed then, up to a line more,
/// and what waits to be put is put.
pub(crate) const LONG_TEXT: usize = 65_536;

/// A text that grows, seen as its bytes. All of it but its end is packed.
#[derive(Drop)]
pub(crate) struct KeptText {
    alloc: Global,
    packed: Vec<Packed>,
    end: Vec<u8>,
}

impl Model for KeptText {
    ghost use Rattle.std.specs.Prelude.{ℕ, List, ◌++◌};
    ghost use Rattle.std.specs.List.{concat};

    ghost Value = { List ℕ };

    ghost view = { λ t. concat t.packed.items ++ t.end.items };
}

impl KeptText {
    /// No bytes; it takes no memory.
    pub(crate) fn new(alloc: Global) -> KeptText
        ensures { result ≡ [] }
    {
        KeptText {
            alloc,
            packed: Vec::new(alloc),
            end: Vec::new(alloc),
        }
    }

    /// Adds a text.
    ///
    /// # Errors
    /// `AllocError` for want of memory; then the bytes are as before.
    pub(crate) fn push(&mut self, text: &[u8]) -> Result<(), AllocError>
        ensures ok { OnOk result (self.new ≡ self.old ++ text.now) }
        ensures err { OnErr result (self.new ≡ self.old) }
    {
        self.pack_long()?;
        self.end.extend_from_slice(text)
    }

    // Packs the end, where it is long.
    fn pack_long(&mut self) -> Result<(), AllocError>
        ensures { self.new ≡ self.old }
    {
        if self.end.len() < LONG_TEXT {
            return Ok(());
        }
        let packed = pack(self.alloc, &self.end)?;
        self.packed.push(packed)?;
        self.end.clear();
        Ok(())
    }

    /// The packed parts, and the end behind them.
    pub(crate) fn parts(&self) -> (&[Packed], &[u8])
        ensures { concat result.0.now ++ result.1.now ≡ self.now }
    {
        (&self.packed, &self.end)
    }
}
