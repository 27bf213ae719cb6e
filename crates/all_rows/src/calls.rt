//! The calls of all rows, by their parts.

use row_words::{Answers, Sign};
use std::alloc::{AllocError, Global};

/// The crate of rows that answers.
#[derive(Clone, Copy)]
enum Part {
    Fields,
    Dictionaries,
    Journals,
    Sessions,
}

/// The part of a name.
fn part_of(name: &str) -> Option<Part> {
    match name {
        "fields" => Some(Part::Fields),
        "dictionaries" => Some(Part::Dictionaries),
        "journals" => Some(Part::Journals),
        "sessions" => Some(Part::Sessions),
        _ => None,
    }
}

/// The part that answers, and what the rows before have left in each.
#[derive(Drop)]
pub(crate) struct Calls {
    part: Part,
    fields: field_rows::Calls,
    dictionaries: dictionary_rows::Calls,
    journals: journal_rows::World,
    sessions: session_rows::World,
}

impl Calls {
    /// The rows of fields come first.
    pub(crate) fn new(alloc: Global) -> Calls {
        Calls {
            part: Part::Fields,
            fields: field_rows::Calls,
            dictionaries: dictionary_rows::Calls,
            journals: journal_rows::World::new(alloc),
            sessions: session_rows::World::new(alloc),
        }
    }

    // Begins a part: nothing, or that there is none of this name.
    fn begin(&mut self, alloc: Global, name: &str) -> Result<Vec<u8>, AllocError> {
        match part_of(name) {
            Some(part) => {
                self.part = part;
                Ok(Vec::new(alloc))
            }
            None => Vec::from_slice(alloc, b"no such part"),
        }
    }

    // The answer of the part.
    fn part_answer(
        &mut self,
        alloc: Global,
        call: &str,
        given: &str,
    ) -> Result<Vec<u8>, AllocError> {
        match self.part {
            Part::Fields => self.fields.answer(alloc, call, given),
            Part::Dictionaries => self.dictionaries.answer(alloc, call, given),
            Part::Journals => self.journals.answer(alloc, call, given),
            Part::Sessions => self.sessions.answer(alloc, call, given),
        }
    }
}

impl Answers for Calls {
    fn answer(&mut self, alloc: Global, call: &str, given: &str) -> Result<Vec<u8>, AllocError> {
        if call == "part" {
            self.begin(alloc, given)
        } else {
            self.part_answer(alloc, call, given)
        }
    }

    fn signs(&self) -> &'static [Sign] {
        match self.part {
            Part::Fields => self.fields.signs(),
            Part::Dictionaries => self.dictionaries.signs(),
            Part::Journals => self.journals.signs(),
            Part::Sessions => self.sessions.signs(),
        }
    }
}
