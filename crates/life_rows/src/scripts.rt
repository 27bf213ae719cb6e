//! What the polls of wires give, and what fails.

use row_words::{SOH, Sign, bytes_of, long_number};
use std::alloc::{AllocError, Global};
use wires::{MemWire, Script};

/// `|` stands for SOH, and `~` for a new line.
const SIGNS: [Sign; 2] = [SOH, (b'~', b"\n")];

/// One poll of a script: the name of that, and `nothing`, `opened`, `closed`,
/// `empty` for bytes that are none, or the bytes.
#[derive(Drop)]
pub(crate) struct Poll {
    name: String,
    item: String,
}

impl Poll {
    pub(crate) fn new(alloc: Global, name: &str, item: &str) -> Result<Poll, AllocError> {
        let name = String::from_str(alloc, name)?;
        let item = String::from_str(alloc, item)?;
        Ok(Poll { name, item })
    }

    fn is_of(&self, name: &str) -> bool {
        self.name.as_str() == name
    }
}

// What a poll gives.
fn script_item(alloc: Global, item: &str) -> Result<Script, AllocError> {
    match item {
        "nothing" => Ok(Script::Nothing),
        "opened" => Ok(Script::Opened),
        "closed" => Ok(Script::Closed),
        "empty" => Ok(Script::Bytes(Vec::new(alloc))),
        _ => Ok(Script::Bytes(bytes_of(alloc, &SIGNS, item)?)),
    }
}

/// The script of this name.
pub(crate) fn script(alloc: Global, polls: &[Poll], name: &str) -> Result<Vec<Script>, AllocError> {
    let mut script = Vec::new(alloc);
    for poll in polls {
        if poll.is_of(name) {
            script.push(script_item(alloc, &poll.item)?)?;
        }
    }
    Ok(script)
}

/// The bytes of this name, one behind the other.
pub(crate) fn stream(alloc: Global, polls: &[Poll], name: &str) -> Result<Vec<u8>, AllocError> {
    let mut bytes = Vec::new(alloc);
    for poll in polls {
        if poll.is_of(name) {
            bytes.extend_from_slice(&bytes_of(alloc, &SIGNS, &poll.item)?)?;
        }
    }
    Ok(bytes)
}

/// The number of the call that fails, where the word is one; those of the first hundred for `all`.
pub(crate) fn failing(alloc: Global, word: &str) -> Result<Vec<u64>, AllocError> {
    let mut fail = Vec::new(alloc);
    if word == "all" {
        for call in 1..=100 {
            fail.push(call)?;
        }
    } else if let Some(call) = long_number(word) {
        fail.push(call)?;
    }
    Ok(fail)
}

/// What a wire gives, and which of its polls and sends fail.
#[derive(Drop)]
pub(crate) struct Plan {
    /// What its polls give.
    pub(crate) script: Vec<Script>,
    /// The numbers of the calls that fail.
    pub(crate) fail: Vec<u64>,
}

impl Plan {
    /// The script of this name, of which the call of this word fails.
    pub(crate) fn new(
        alloc: Global,
        polls: &[Poll],
        name: &str,
        fail: &str,
    ) -> Result<Plan, AllocError> {
        let script = script(alloc, polls, name)?;
        let fail = failing(alloc, fail)?;
        Ok(Plan { script, fail })
    }
}

/// What was written on all connections of a wire.
pub(crate) fn written(alloc: Global, wire: &MemWire) -> Result<Vec<u8>, AllocError> {
    let mut bytes = Vec::new(alloc);
    for connection in wire.connections() {
        bytes.extend_from_slice(&connection.written)?;
    }
    Ok(bytes)
}
