//! The lines for the operator, as they are kept.

use std::cell::RefCell;
use std::io;
use std::io::{ErrorKind, Write};

/// Keeps the lines that are written to it.
#[derive(Drop)]
pub(crate) struct Printed {
    text: RefCell<Vec<u8>>,
}

impl Write for &Printed {
    fn write(&mut self, buf: &[u8]) -> io::Result<usize> {
        match self.text.try_borrow_mut() {
            Ok(mut text) => {
                text.extend_from_slice(buf)?;
                Ok(buf.len())
            }
            Err(_) => Err(io::Error::from(ErrorKind::Other)),
        }
    }

    fn flush(&mut self) -> io::Result<()> {
        Ok(())
    }
}

impl Printed {
    /// No line yet.
    pub(crate) fn new(rt: &HostRuntime) -> Printed {
        Printed {
            text: RefCell::new(Vec::new(rt.alloc())),
        }
    }

    /// Whether a line has this text.
    pub(crate) fn have(&self, text: &[u8]) -> bool {
        match self.text.try_borrow() {
            Ok(all) => all.windows(text.len().max(1)).any(|part| part == text),
            Err(_) => false,
        }
    }
}
