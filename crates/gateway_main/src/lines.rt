//! Standard error as a sink of lines, which never waits for its reader.
//!
//! A tap is kept in a box, which holds no set of sockets: so the lines of an entry make their own
//! teller, but where standard error is a file, which takes every line at once.

ghost use Rattle.std.specs.Prelude.{None};

use edge_logic::{moment, put_stamp};
use edge_system::Teller;
use outside::{Failed, Sink};
use std::alloc::AllocError;
use std::io::Write;

/// Lines as they are. One that would not be taken at once is lost.
#[derive(Drop)]
pub(crate) struct PlainLines {
    rt: HostRuntime,
    // Whether standard error was seen to be a file.
    to_file: bool,
}

impl PlainLines {
    /// Lines to standard error.
    pub(crate) fn new(rt: HostRuntime) -> PlainLines {
        PlainLines { rt, to_file: false }
    }

    // Writes lines as they are, or loses them.
    fn write(&mut self, lines: &[u8]) {
        if self.to_file {
            let _ = self.rt.stderr().write_all(lines); // what a full disk refuses is lost
            return;
        }
        if let Ok(mut teller) = Teller::new(&self.rt, self.rt.stderr()) {
            teller.put(lines);
            self.to_file = teller.tells_a_file();
        }
    }
}

impl Sink for PlainLines {
    ghost bytes = { λ _. None };

    ghost faults = { λ _. 0 };

    fn put(&mut self, piece: &[u8]) -> Result<(), Failed> {
        self.write(piece);
        Ok(())
    }
}

/// Lines with the time before each, in UTC. What would not be taken at once is lost.
#[derive(Drop)]
pub(crate) struct DatedLines {
    plain: PlainLines,
    // The lines of one put, with their times; kept for its memory.
    dated: Vec<u8>,
}

impl DatedLines {
    /// Lines to standard error.
    pub(crate) fn new(rt: HostRuntime) -> DatedLines {
        DatedLines {
            plain: PlainLines::new(rt),
            dated: Vec::new(rt.alloc()),
        }
    }

    // Puts the time before each of these lines, which end with LF.
    fn date(&mut self, lines: &[u8]) -> Result<(), AllocError> {
        let now = moment(&self.plain.rt).unwrap_or(0);
        self.dated.clear();
        for line in lines.split_inclusive(|byte| *byte == b'\n') {
            put_stamp(&mut self.dated, now)?;
            self.dated.extend_from_slice(line)?;
        }
        Ok(())
    }
}

impl Sink for DatedLines {
    ghost bytes = { λ _. None };

    ghost faults = { λ _. 0 };

    fn put(&mut self, piece: &[u8]) -> Result<(), Failed> {
        if self.date(piece).is_ok() {
            self.plain.write(&self.dated);
        }
        Ok(())
    }
}
