//! Pieces of bytes, and texts, of which all but the last bytes are packed.
#![tactic(auto)]

mod block;
mod packing;
mod pieces;
mod text;
mod whole;

pub use block::PackedPiece;
pub use pieces::{Left, Piece, Pieces};
pub use text::{Packed, pack};
