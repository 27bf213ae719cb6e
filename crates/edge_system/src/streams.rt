//! Readers and writers of std as a source and a sink, which count their errors. They tell the bytes
//! that the reader or the writer tells, which for a standard stream is none. The source keeps that
//! its input ended.

ghost use Rattle.std.specs.Prelude.{◌≡◌, false};

use outside::{Failed, Sink, Source};
use std::io::{Read, Write};

/// A reader as a source.
#[derive(Drop)]
pub struct Reading<R: Read> {
    /// The reader.
    pub inner: R,
    /// Whether a read with room found the end.
    pub ended: bool,
    /// How many reads failed, up to the last value of 64 bits.
    pub faults: u64,
}

impl<R: Read> Reading<R> {
    /// No read was made yet.
    pub fn new(inner: R) -> Reading<R>
        ensures inner { result.inner ≡ inner }
        ensures ended { result.ended ≡ false }
        ensures faults { result.faults ≡ 0 }
    {
        Reading {
            inner,
            ended: false,
            faults: 0,
        }
    }
}

impl<R: Read> Source for Reading<R> {
    ghost left = { λ source. R.remaining source.inner };

    ghost ended = { λ source. source.ended };

    ghost faults = { λ source. source.faults };

    fn read(&mut self, buf: &mut [u8]) -> Result<usize, Failed> {
        match self.inner.read(buf) {
            Ok(count) => {
                self.ended = count == 0 && !buf.is_empty();
                Ok(count)
            }
            Err(_) => {
                self.faults = self.faults.saturating_add(1);
                Err(Failed)
            }
        }
    }
}

/// A writer as a sink.
#[derive(Drop)]
pub struct Writing<W: Write> {
    /// The writer.
    pub inner: W,
    /// How many puts failed, up to the last value of 64 bits.
    pub faults: u64,
}

impl<W: Write> Writing<W> {
    /// Nothing was put yet.
    pub fn new(inner: W) -> Writing<W>
        ensures inner { result.inner ≡ inner }
        ensures faults { result.faults ≡ 0 }
    {
        Writing { inner, faults: 0 }
    }
}

impl<W: Write> Sink for Writing<W> {
    ghost bytes = { λ sink. W.contents sink.inner };

    ghost faults = { λ sink. sink.faults };

    fn put(&mut self, piece: &[u8]) -> Result<(), Failed> {
        let mut rest = piece;
        while !rest.is_empty() {
            // A write that takes nothing of a piece that is not empty is an error too.
            match self.inner.write(rest) {
                Ok(count) if count > 0 => rest = &rest[count..],
                _ => {
                    self.faults = self.faults.saturating_add(1);
                    return Err(Failed);
                }
            }
        }
        Ok(())
    }
}
