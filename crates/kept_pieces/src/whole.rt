//! Pieces that are kept whole.

ghost use Rattle.std.specs.Prelude.{◌≡◌, ◌++◌, ◌∷◌, [], IfSome, IsNone, OnOk, OnErr};

use std::alloc::{AllocError, Global};
use std::marker::Model;

/// How many bytes of pieces are packed at a time, and a piece more.
const LONG: usize = 65_536;

/// Pieces that are kept whole, seen as their list.
#[derive(Debug, Drop)]
pub(crate) struct WholePieces {
    lengths: Vec<usize>,
    bytes: Vec<u8>,
}

impl Model for WholePieces {
    ghost use Rattle.std.specs.Prelude.{◌≡◌, ℕ, List, length, sum};
    ghost use Rattle.kept_pieces.specs.Pieces.{cut_by};

    ghost Value = { List (List ℕ) };

    ghost view = { λ p. cut_by p.lengths.items p.bytes.items };

    ghost invariant = { λ p. sum p.lengths.items ≡ length p.bytes.items };
}

/// Whole pieces that a reader has still to come, seen as their list.
#[derive(Debug, Drop)]
pub(crate) struct LeftWhole<'a> {
    lengths: &'a [usize],
    bytes: &'a [u8],
}

impl<'a> Model for LeftWhole<'a> {
    ghost use Rattle.std.specs.Prelude.{◌≡◌, ℕ, List, length, sum};
    ghost use Rattle.kept_pieces.specs.Pieces.{cut_by};

    ghost Value = { List (List ℕ) };

    ghost view = { λ l. cut_by l.lengths.now l.bytes.now };

    ghost invariant = { λ l. sum l.lengths.now ≡ length l.bytes.now };
}

impl WholePieces {
    /// No piece; it takes no memory.
    pub(crate) fn new(alloc: Global) -> WholePieces
        ensures { result ≡ [] }
    {
        WholePieces {
            lengths: Vec::new(alloc),
            bytes: Vec::new(alloc),
        }
    }

    /// Adds a piece.
    ///
    /// # Errors
    /// `AllocError` for want of memory; then the pieces are as before.
    pub(crate) fn push(&mut self, piece: &[u8]) -> Result<(), AllocError>
        ensures ok { OnOk result (self.new ≡ self.old ++ piece.now ∷ []) }
        ensures err { OnErr result (self.new ≡ self.old) }
    {
        self.lengths.reserve(1)?;
        self.bytes.extend_from_slice(piece)?;
        self.lengths.push_reserved(piece.len());
        Ok(())
    }

    /// Whether they are long enough to be packed.
    pub(crate) fn is_long(&self) -> bool {
        self.bytes.len() >= LONG
    }

    /// So many of the bytes, or all, from the first piece on.
    pub(crate) fn front(&self, most: usize) -> &[u8] {
        &self.bytes[..most.min(self.bytes.len())]
    }

    /// All pieces, from the first on; it takes no memory.
    pub(crate) fn left(&self) -> LeftWhole<'_>
        ensures { result ≡ self.now }
    {
        LeftWhole {
            lengths: &self.lengths,
            bytes: &self.bytes,
        }
    }
}

impl<'a> LeftWhole<'a> {
    /// The next piece, which is then behind.
    pub(crate) fn next(&mut self) -> Option<&'a [u8]>
        ensures some { IfSome result (λ piece. self.old ≡ piece.now ∷ self.new) }
        ensures none { IsNone result → self.old ≡ [] }
        ensures stays { IsNone result → self.new ≡ [] }
    {
        let (length, lengths) = self.lengths.split_first()?;
        let (piece, bytes) = self.bytes.split_at(*length);
        self.lengths = lengths;
        self.bytes = bytes;
        Some(piece)
    }
}
