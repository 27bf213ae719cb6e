//! A source that keeps the front of what it gave.

ghost use Rattle.std.specs.Prelude.{◌≡◌};

use outside::{Failed, Source};
use std::alloc::Global;

/// A source that keeps what it gave, as long as that is no more than a bound and memory is had;
/// past that it keeps nothing.
#[derive(Drop)]
pub(crate) struct Kept<S: Source + Drop> {
    source: S,
    bytes: Vec<u8>,
    room: usize,
}

impl<S: Source + Drop> Kept<S> {
    /// A source that keeps so many bytes at most.
    pub(crate) fn new(alloc: Global, source: S, room: usize) -> Kept<S>
        ensures { result.source ≡ source }
    {
        Kept {
            source,
            bytes: Vec::new(alloc),
            room,
        }
    }

    /// What it gave.
    pub(crate) fn bytes(&self) -> &[u8] {
        &self.bytes
    }

    // Keeps a piece.
    fn keep(&mut self, piece: &[u8])
        ensures { self.new.source ≡ self.old.source }
    {
        if piece.len() > self.room || self.bytes.extend_from_slice(piece).is_err() {
            self.room = 0;
            self.bytes.clear();
        } else {
            self.room -= piece.len();
        }
    }
}

impl<S: Source + Drop> Source for Kept<S> {
    ghost left = { λ kept. S.left kept.source };

    ghost ended = { λ kept. S.ended kept.source };

    ghost faults = { λ kept. S.faults kept.source };

    fn read(&mut self, buf: &mut [u8]) -> Result<usize, Failed> {
        let count = self.source.read(buf)?;
        self.keep(&buf[..count]);
        Ok(count)
    }
}
