//! The calls of rows, and what the rows before have made: a journal, and a core behind it.

use crate::answers::{answer, chained};
use crate::entries::{put_birth, put_entry, put_new_day};
use crate::plans::{active, begun, connected, frame, held, numbers, restarted};
use crate::{frames, logons, sessions};
use gateway_core::Core;
use order_meaning::Side;
use pair_journal::Journal;
use row_words::{Answers, SOH, Sign, behind, bytes_of, side_of, word};
use std::alloc::{AllocError, Global};

/// The records of a journal and the number of its last day, and the journal and the core that were
/// loaded from them.
#[derive(Drop)]
pub struct World {
    image: Vec<u8>,
    day: u32,
    loaded: Option<(Journal, Core)>,
}

// A call on a core about a side.
fn side_answer(
    alloc: Global,
    core: &mut Core,
    journal: &Journal,
    call: &str,
    side: Side,
    text: &str,
) -> Result<String, AllocError> {
    match call {
        "opened" | "closed" => connected(alloc, core, journal, side, call == "opened"),
        "frame" => frame(alloc, core, journal, side, text),
        "held" => held(alloc, core, journal, side, text),
        _ => format!(in alloc; "no such call"),
    }
}

// A call on a core.
fn core_answer(
    alloc: Global,
    core: &mut Core,
    journal: &Journal,
    call: &str,
    given: &str,
) -> Result<String, AllocError> {
    if call == "active" {
        return active(alloc, core, given);
    }
    if call == "begin-day" {
        return begun(alloc, core, journal);
    }
    match side_of(word(given, 0)) {
        Some(side) => side_answer(alloc, core, journal, call, side, behind(given, 1)),
        None => numbers(alloc, core),
    }
}

// A call on a session and its messages.
fn session_answer(alloc: Global, call: &str, given: &str) -> Result<String, AllocError> {
    match call {
        "head" => logons::head(alloc, given),
        "check-logon" => logons::checked(alloc, given),
        "say" => logons::said(alloc, given),
        "fields" => logons::counted(alloc, given),
        _ => sessions::answer(alloc, call, given),
    }
}

impl World {
    /// No journal, and no records of one.
    pub fn new(alloc: Global) -> World {
        World {
            image: Vec::new(alloc),
            day: 0,
            loaded: None,
        }
    }

    // Begins a journal.
    fn begin(&mut self, alloc: Global) -> Result<String, AllocError> {
        self.image.clear();
        self.day = 0;
        put_birth(alloc, &mut self.image)?;
        Ok(String::new(alloc))
    }

    // Puts the entry with which a day begins behind it.
    fn turn(&mut self, alloc: Global, given: &str) -> Result<String, AllocError> {
        self.day = self.day.saturating_add(1);
        put_new_day(alloc, &mut self.image, self.day, given)?;
        Ok(String::new(alloc))
    }

    // Loads the core behind the journal, and answers its next numbers.
    fn restart(&mut self, alloc: Global) -> Result<String, AllocError> {
        self.loaded = restarted(alloc, &self.image)?;
        match &self.loaded {
            Some((_, core)) => numbers(alloc, core),
            None => format!(in alloc; "no core"),
        }
    }

    // A call on the core.
    fn planned(&mut self, alloc: Global, call: &str, given: &str) -> Result<String, AllocError> {
        match &mut self.loaded {
            Some(loaded) => core_answer(alloc, &mut loaded.1, &loaded.0, call, given),
            None => format!(in alloc; "no core"),
        }
    }

    // The answer to a row, as a text.
    fn text(&mut self, alloc: Global, call: &str, given: &str) -> Result<String, AllocError> {
        match call {
            "journal" => self.begin(alloc),
            "entry" => {
                put_entry(alloc, &mut self.image, self.day, given)?;
                Ok(String::new(alloc))
            }
            "day" => self.turn(alloc, given),
            "answer" => answer(alloc, &self.image, given),
            "number-of" | "orig-of" => chained(alloc, &self.image, call, given),
            "restart" => self.restart(alloc),
            "active" | "begin-day" | "opened" | "closed" | "frame" | "held" | "numbers" => {
                self.planned(alloc, call, given)
            }
            _ => session_answer(alloc, call, given),
        }
    }
}

impl Answers for World {
    fn answer(&mut self, alloc: Global, call: &str, given: &str) -> Result<Vec<u8>, AllocError> {
        match call {
            "frame-out" => frames::frame(alloc, given),
            "long" => frames::long_frame(alloc, given),
            "fill" => frames::gap_fill(alloc, given),
            _ => bytes_of(alloc, &[SOH], &self.text(alloc, call, given)?),
        }
    }

    fn signs(&self) -> &'static [Sign] {
        &[SOH]
    }
}
