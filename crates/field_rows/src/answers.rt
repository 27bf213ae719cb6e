//! The answer of each call.

use crate::{framed, grouped, judged, laws, said, tabled, typed, written};
use row_words::{Answers, SOH, Sign, bytes_of, put};
use std::alloc::{AllocError, Global};

/// The calls of the crates of fields, frames and tables.
#[derive(Drop)]
pub struct Calls;

impl Answers for Calls {
    fn answer(&mut self, alloc: Global, call: &str, given: &str) -> Result<Vec<u8>, AllocError> {
        let given = bytes_of(alloc, &[SOH], given)?;
        let mut text = String::new(alloc);
        answer(&mut text, alloc, call, &given)?;
        let mut bytes = Vec::new(alloc);
        put(&mut bytes, &[SOH], &text)?;
        Ok(bytes)
    }

    fn signs(&self) -> &'static [Sign] {
        &[SOH]
    }
}

/// Appends the answer to a call; `nothing` where none has this name, or where it answers nothing.
fn answer(out: &mut String, alloc: Global, call: &str, given: &[u8]) -> Result<(), AllocError> {
    typed::answer(out, alloc, call, given)?;
    judged::answer(out, call, given)?;
    grouped::answer(out, alloc, call, given)?;
    framed::answer(out, alloc, call, given)?;
    tabled::answer(out, alloc, call, given)?;
    said::answer(out, alloc, call, given)?;
    written::answer(out, alloc, call, given)?;
    laws::answer(out, call)?;
    if out.is_empty() {
        out.push_str("nothing")?;
    }
    Ok(())
}
