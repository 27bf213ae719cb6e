//! Pieces of bytes, and what is left of them to a reader.

ghost use Rattle.std.specs.Prelude.{◌≡◌, ◌++◌, ◌∷◌, [], drop, IfOk, IfSome, IsNone, OnOk, OnErr};
ghost use Rattle.std.specs.List.{flat_map};
ghost use Rattle.kept_pieces.specs.Pieces.{first_piece, pieces_in, unpacked_piece, bytes_of};

use crate::block::{Block, LeftPacked, PackedPiece, pack_pieces};
use crate::whole::{LeftWhole, WholePieces};
use std::alloc::{AllocError, Global};
use std::marker::Model;

/// Pieces of bytes, seen as their list. All but the last of them are packed, 65,536 bytes at a
/// time.
#[derive(Debug, Drop)]
pub struct Pieces {
    alloc: Global,
    blocks: Vec<Block>,
    end: WholePieces,
}

impl Model for Pieces {
    ghost use Rattle.std.specs.Prelude.{ℕ, List, ◌++◌};
    ghost use Rattle.std.specs.List.{flat_map};
    ghost use Rattle.kept_pieces.specs.Pieces.{pieces_in};

    ghost Value = { List (List ℕ) };

    ghost view = { λ p. flat_map pieces_in p.blocks.items ++ p.end };
}

/// A piece, as it is kept.
#[derive(Clone, Copy, Debug)]
pub enum Piece<'a> {
    /// In its bytes.
    Whole(&'a [u8]),
    /// Packed.
    Packed(PackedPiece<'a>),
}

/// Pieces that a reader has still to come, seen as their list.
#[derive(Debug, Drop)]
pub struct Left<'a> {
    now: LeftPacked<'a>,
    blocks: &'a [Block],
    end: LeftWhole<'a>,
}

impl<'a> Model for Left<'a> {
    ghost use Rattle.std.specs.Prelude.{ℕ, List, ◌++◌};
    ghost use Rattle.std.specs.List.{flat_map};
    ghost use Rattle.kept_pieces.specs.Pieces.{pieces_in};

    ghost Value = { List (List ℕ) };

    ghost view = { λ l. (l.now ++ flat_map pieces_in l.blocks.now) ++ l.end };
}

impl Pieces {
    /// No piece; it takes no memory.
    pub fn new(alloc: Global) -> Pieces
        ensures { result ≡ [] }
    {
        Pieces {
            alloc,
            blocks: Vec::new(alloc),
            end: WholePieces::new(alloc),
        }
    }

    /// Adds a piece.
    ///
    /// # Errors
    /// `AllocError` for want of memory; then the pieces are as before.
    pub fn push(&mut self, piece: &[u8]) -> Result<(), AllocError>
        ensures ok { OnOk result (self.new ≡ self.old ++ piece.now ∷ []) }
        ensures err { OnErr result (self.new ≡ self.old) }
    {
        self.pack_long()?;
        self.end.push(piece)
    }

    // Packs the end, where it is long.
    fn pack_long(&mut self) -> Result<(), AllocError>
        ensures { self.new ≡ self.old }
    {
        if !self.end.is_long() {
            return Ok(());
        }
        let block = pack_pieces(self.alloc, &self.end)?;
        self.blocks.push(block)?;
        self.end = WholePieces::new(self.alloc);
        Ok(())
    }

    /// All pieces, from the first on; it takes no memory.
    pub fn left(&self) -> Left<'_>
        ensures { result ≡ self.now }
    {
        Left {
            now: LeftPacked::none(),
            blocks: &self.blocks,
            end: self.end.left(),
        }
    }
}

impl<'a> Piece<'a> {
    /// The bytes of the piece.
    ///
    /// # Errors
    /// `AllocError` for want of memory.
    pub fn unpacked(self, alloc: Global) -> Result<Vec<u8>, AllocError>
        ensures { IfOk result (λ bytes. bytes.items ≡ bytes_of self.entry) }
    {
        match self {
            Piece::Whole(bytes) => Vec::from_slice(alloc, bytes),
            Piece::Packed(piece) => piece.unpacked(alloc),
        }
    }
}

/// The next of packed pieces, of those that are left of a block and of the blocks behind it. It is
/// then behind.
fn next_packed<'a>(now: &mut LeftPacked<'a>, blocks: &mut &'a [Block]) -> Option<PackedPiece<'a>>
    ensures some { IfSome result (λ piece. now.old ++ flat_map pieces_in blocks.old.now
        ≡ unpacked_piece piece ∷ now.new ++ flat_map pieces_in blocks.new.now) }
    ensures none { IsNone result → now.old ++ flat_map pieces_in blocks.old.now ≡ [] }
    ensures stays { IsNone result → now.new ++ flat_map pieces_in blocks.new.now ≡ [] }
{
    loop {
        if let Some(piece) = now.next() {
            return Some(piece);
        }
        let Some(block) = blocks.split_off_first() else {
            return None;
        };
        *now = block.left();
    }
}

impl<'a> Left<'a> {
    /// The next piece, which is then behind; no bytes where none is left.
    pub fn next_or_empty(&mut self) -> Piece<'a>
        ensures value { bytes_of result ≡ first_piece self.old }
        ensures rest { self.new ≡ drop 1 self.old }
    {
        match next_packed(&mut self.now, &mut self.blocks) {
            Some(piece) => Piece::Packed(piece),
            None => Piece::Whole(self.end.next().unwrap_or(&[])),
        }
    }
}
