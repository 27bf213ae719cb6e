//! A writer that takes few bytes at a time.

use std::alloc::Global;
use std::io;
use std::io::{ErrorKind, Write};

/// Takes three bytes at a time, and no more than its room in all. Then it takes nothing, or fails.
#[derive(Drop)]
pub(crate) struct Narrow {
    pub(crate) taken: Vec<u8>,
    pub(crate) room: usize,
    full: Option<ErrorKind>,
}

impl Narrow {
    /// Nothing was taken yet.
    pub(crate) fn new(alloc: Global, room: usize, full: Option<ErrorKind>) -> Narrow {
        Narrow {
            taken: Vec::new(alloc),
            room,
            full,
        }
    }
}

impl Write for Narrow {
    fn write(&mut self, buf: &[u8]) -> io::Result<usize> {
        let count = buf.len().min(3).min(self.room);
        match self.full {
            Some(kind) if count == 0 => Err(io::Error::from(kind)),
            _ => {
                self.taken.extend_from_slice(&buf[..count])?;
                self.room -= count;
                Ok(count)
            }
        }
    }

    fn flush(&mut self) -> io::Result<()> {
        Ok(())
    }
}
