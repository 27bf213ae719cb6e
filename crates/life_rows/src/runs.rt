//! Runs of the program.

ghost use Rattle.std.specs.Prelude.{◌≡◌, false};

use crate::texts::SIGNS;
use drop_taps::Tap;
use gateway_top::{Status, run};
use outside::{MemDisk, MemSink, MemSource};
use row_words::{bytes_of, number_behind, shown};
use std::alloc::{AllocError, Global};
use wires::{ListClock, QuietWire};

/// A disk on which a journal was born, of GATE and CLNT, and of GATE and VENU: so many zeros stand
/// behind each text.
const BORN: [(&[u8], usize); 4] = [
    (b"\x01\0\0\0\x9bFIXGATEWAY2\x04GATE", 31),
    (b"\x04CLNT", 31),
    (b"\x04GATE", 31),
    (b"\x04VENU", 32),
];

/// Where the digit of its format stands.
const FORMAT_AT: usize = 15;

/// What stands behind the names of a journal of format 1 in which the venue was told a Logon, at
/// 2024-01-02 10:00:00: an entry that took nothing, with the next numbers 1, 1, 1 and 2.
const LOGON: &[u8] = b"\x01\0\0\0\x39\0\0\x01\x8c\xc9\x9d\xa1\0\0\0\0\0\x01\0\0\0\x01\0\0\0\x01\
    \0\0\0\x02\x01\x02\0\0\0\x01\x01\x01A\0\0\0\x1398=0\x01108=30\x011137=9\x01\0";

/// The gate of a record that stands.
const OPEN: u8 = 1;

/// The words of a command line behind the program's name.
pub(crate) fn words_of(alloc: Global, command: &str) -> Result<Vec<String>, AllocError> {
    let mut words = Vec::new(alloc);
    for word in command.split(' ').skip(1) {
        words.push(String::from_str(alloc, word)?)?;
    }
    Ok(words)
}

/// The calls of a kind that fail: none or one.
fn failing(alloc: Global, fault: &str, kind: &str) -> Result<Vec<u64>, AllocError> {
    let mut calls = Vec::new(alloc);
    if let Some(number) = number_behind(fault, kind) {
        calls.push(u64::from(number))?;
    }
    Ok(calls)
}

/// Whether this word stands in a text.
fn has(text: &str, word: &str) -> bool {
    text.split(' ').any(|other| other == word)
}

/// A journal that was born.
fn born(alloc: Global) -> Result<Vec<u8>, AllocError> {
    let mut bytes = Vec::new(alloc);
    for (text, zeros) in &BORN {
        bytes.extend_from_slice(text)?;
        bytes.extend_from_slice(&vec![in alloc; 0; *zeros]?)?;
    }
    Ok(bytes)
}

/// The same of format 1, with the Logon where it is asked for.
fn old(alloc: Global, has_logon: bool) -> Result<Vec<u8>, AllocError> {
    let mut bytes = born(alloc)?;
    if let Some(digit) = bytes.get_mut(FORMAT_AT) {
        *digit = b'1';
    }
    if has_logon {
        bytes.pop(); // its closed gate
        bytes.extend_from_slice(LOGON)?;
    }
    Ok(bytes)
}

/// What stands on the disk before the run: nothing, so many zeros, a journal that was born, one of
/// format 1, which is old, or what the run before put.
fn content(alloc: Global, fault: &str, put: &[u8]) -> Result<Vec<u8>, AllocError> {
    if has(fault, "born") {
        return born(alloc);
    }
    if has(fault, "old") {
        return old(alloc, has(fault, "logon"));
    }
    if has(fault, "put") {
        return Vec::from_slice(alloc, put);
    }
    let zeros = number_behind(fault, "over").unwrap_or(0);
    vec![in alloc; 0; zeros as usize]
}

/// A run over an input and a disk whose calls fail as listed, with wires on which nothing comes.
fn ran(
    alloc: Global,
    words: &[String],
    source: &mut MemSource,
    sink: &mut MemSink,
    disk: &mut MemDisk,
) -> Status
    requires { source.old.ended ≡ false }
{
    let mut client = QuietWire::new();
    let mut venue = QuietWire::new();
    let mut clock = ListClock::new(Vec::new(alloc));
    let mut taps: Vec<Box<dyn Tap>> = Vec::new(alloc);
    run(
        alloc,
        words,
        source,
        sink,
        disk,
        &mut client,
        &mut venue,
        &mut clock,
        &mut taps,
    )
}

/// The same over an input of no bytes.
pub(crate) fn unfed(
    alloc: Global,
    words: &[String],
    sink: &mut MemSink,
    disk: &mut MemDisk,
) -> Status {
    let mut source = MemSource::new(Vec::new(alloc), Vec::new(alloc));
    ran(alloc, words, &mut source, sink, disk)
}

/// A status, and ` : ` and what was put where something was: how many bytes, where it is a journal.
fn ended(alloc: Global, status: &Status, put: &[u8]) -> Result<Vec<u8>, AllocError> {
    let words = if put.first() == Some(&OPEN) {
        format!(in alloc; "{status} : {} bytes", put.len())?
    } else {
        format!(in alloc; "{status}")?
    };
    let mut answer = Vec::from_slice(alloc, words.as_bytes())?;
    if !put.is_empty() && put.first() != Some(&OPEN) {
        answer.extend_from_slice(b" : ")?;
        answer.extend_from_slice(put)?;
    }
    Ok(answer)
}

/// How a run ends where these calls fail. What it puts stands in `put` then, where what the run
/// before put stood.
fn ran_over(
    alloc: Global,
    words: &[String],
    fault: &str,
    source: &mut MemSource,
    disk: &mut MemDisk,
    put: &mut Vec<u8>,
) -> Result<Status, AllocError>
    requires { source.old.ended ≡ false }
{
    let mut sink = MemSink::new(alloc, failing(alloc, fault, "write")?);
    let status = ran(alloc, words, source, &mut sink, disk);
    put.clear();
    put.extend_from_slice(sink.bytes())?;
    Ok(status)
}

/// The same over the disk that these words ask for.
fn ran_from(
    alloc: Global,
    words: &[String],
    fault: &str,
    source: &mut MemSource,
    put: &mut Vec<u8>,
) -> Result<Status, AllocError>
    requires { source.old.ended ≡ false }
{
    let on_disk = content(alloc, fault, put)?;
    let mut disk = MemDisk::new(alloc, on_disk, failing(alloc, fault, "disk")?);
    ran_over(alloc, words, fault, source, &mut disk, put)
}

/// The same over this input.
fn fed(
    alloc: Global,
    words: &[String],
    fault: &str,
    input: &str,
    put: &mut Vec<u8>,
) -> Result<Status, AllocError> {
    let input = bytes_of(alloc, &SIGNS, input)?;
    let mut source = MemSource::new(input, failing(alloc, fault, "read")?);
    ran_from(alloc, words, fault, &mut source, put)
}

/// The same of the words of a command.
fn answer(
    alloc: Global,
    command: &str,
    fault: &str,
    input: &str,
    put: &mut Vec<u8>,
) -> Result<Status, AllocError> {
    let words = words_of(alloc, command)?;
    fed(alloc, &words, fault, input, put)
}

/// The runs of the program, each a call `fixgate` of which are given the other words of the command
/// line, what fails and stands on the disk behind a `, `, and the input behind a ` : `.
#[derive(Drop)]
pub(crate) struct Runs {
    /// What the last one put.
    put: Vec<u8>,
}

impl Runs {
    pub(crate) fn new(alloc: Global) -> Runs {
        Runs {
            put: Vec::new(alloc),
        }
    }
}

impl Runs {
    // The answer to a row.
    pub(crate) fn answer(
        &mut self,
        alloc: Global,
        call: &str,
        given: &str,
    ) -> Result<Vec<u8>, AllocError> {
        let line = format!(in alloc; "{call} {given}")?;
        let (command, input) = line.split_once(" : ").unwrap_or((line.as_str(), ""));
        let (command, fault) = command.split_once(", ").unwrap_or((command, ""));
        let status = answer(alloc, command, fault, input, &mut self.put)?;
        ended(alloc, &status, &self.put)
    }
}

/// What `--help` puts.
pub(crate) fn help(alloc: Global) -> Result<String, AllocError> {
    let words = words_of(alloc, "fixgate --help")?;
    let mut sink = MemSink::new(alloc, Vec::new(alloc));
    let mut disk = MemDisk::new(alloc, Vec::new(alloc), Vec::new(alloc));
    unfed(alloc, &words, &mut sink, &mut disk);
    shown(alloc, sink.bytes())
}
