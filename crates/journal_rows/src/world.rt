//! What the rows before have made, and the calls of rows.

use crate::entries::entry_of;
use crate::images::{Piece, bytes_of};
use crate::texts::{SIGNS, told};
use crate::{disks, journals, logs, migrating, payloads, taps};
use row_words::{Answers, Sign, behind, word};
use std::alloc::{AllocError, Global};

/// Bytes of names, entries, and the bytes of a disk.
#[derive(Drop)]
pub struct World {
    pieces: Vec<Piece>,
    entries: Vec<Vec<u8>>,
    bytes: Vec<u8>,
}

impl World {
    /// No bytes, and no entries.
    pub fn new(alloc: Global) -> World {
        World {
            pieces: Vec::new(alloc),
            entries: Vec::new(alloc),
            bytes: Vec::new(alloc),
        }
    }

    // Gives bytes a name.
    fn name(&mut self, alloc: Global, given: &str) -> Result<String, AllocError> {
        let piece = Piece::new(alloc, &self.pieces, given)?;
        self.pieces.push(piece)?;
        Ok(String::new(alloc))
    }

    // Puts the bytes of an entry behind the others, or in their place: whether they spell one.
    fn put(&mut self, alloc: Global, call: &str, given: &str) -> Result<String, AllocError> {
        if call == "only" {
            self.entries.clear();
        }
        let bytes = bytes_of(alloc, &self.pieces, given)?;
        let is_entry = entry_of(alloc, &bytes)?.is_some();
        self.entries.push(bytes)?;
        told(alloc, &is_entry)
    }

    // A call over the journal on the disk, which begins with its bytes.
    fn journal(&mut self, alloc: Global, call: &str, given: &str) -> Result<String, AllocError> {
        if call == "journal" {
            self.bytes = bytes_of(alloc, &self.pieces, given)?;
        }
        journals::answer(alloc, &mut self.bytes, call, given)
    }

    // The answer to a row, as a text.
    fn text(&mut self, alloc: Global, call: &str, given: &str) -> Result<String, AllocError> {
        match call {
            "piece" => self.name(alloc, given),
            "entry" | "only" => self.put(alloc, call, given),
            "reads" | "puts" | "disk" => disks::answer(alloc, call, given),
            "log" | "log-life" | "log-calls" | "chunks" => {
                logs::answer(alloc, &self.pieces, call, given)
            }
            "last-record" => {
                let bytes = bytes_of(alloc, &self.pieces, behind(given, 1))?;
                logs::last_record(alloc, bytes, word(given, 0))
            }
            "migrate" => migrating::answer(alloc, &self.pieces, given),
            "kept" => payloads::answer(alloc, &self.pieces, given),
            "keeps" | "counts" | "lines" | "texts" | "line" | "line-len" => {
                taps::answer(alloc, &self.entries, call, given)
            }
            _ => self.journal(alloc, call, given),
        }
    }
}

impl Answers for World {
    fn answer(&mut self, alloc: Global, call: &str, given: &str) -> Result<Vec<u8>, AllocError> {
        let text = self.text(alloc, call, given)?;
        Vec::from_slice(alloc, text.as_bytes())
    }

    fn signs(&self) -> &'static [Sign] {
        &SIGNS
    }
}
