//! Lives that the command `serve` lives, with taps and without, and what `show` shows of one.

use crate::runs::{unfed, words_of};
use crate::scripts::{Plan, Poll, failing, stream};
use drop_taps::{KeepTap, Tap, TotalsTap, clear};
use gateway_top::{Status, run};
use outside::{MemDisk, MemSink, MemSource};
use row_words::{long_number, shown, word};
use std::alloc::{AllocError, Global};
use wires::{ListClock, MemWire};

/// 2024-01-02 10:00:00.
const NOW: u64 = 1_704_189_600_000;

/// The configuration of each life.
const CONFIGURATION: &str =
    "[client]\nour = \"GATE\"\npeer = \"CLNT\"\n[venue]\nour = \"GATE\"\npeer = \"VENU\"\n";

/// The bytes of an input, and which reads of it fail.
#[derive(Drop)]
struct Input {
    bytes: Vec<u8>,
    fail: Vec<u64>,
}

/// What is asked of a life.
#[derive(Clone, Copy)]
pub(crate) struct Asked<'a> {
    /// The scripts.
    pub(crate) polls: &'a [Poll],
    /// The words `client-script venue-script rounds disk client venue`: of the last three, which
    /// calls fail.
    pub(crate) words: &'a str,
    /// The name of its input, and which read of that fails; nothing for the configuration of each
    /// life.
    pub(crate) input: &'a str,
}

/// What a life is given: its input, and what both wires give.
#[derive(Drop)]
struct Given {
    input: Input,
    client: Plan,
    venue: Plan,
}

/// An input of these bytes, or of the configuration of each life where there are none; of a number
/// that read fails.
fn input_of(alloc: Global, bytes: Vec<u8>, read: &str) -> Result<Input, AllocError> {
    let fail = failing(alloc, read)?;
    if bytes.is_empty() {
        let bytes = Vec::from_slice(alloc, CONFIGURATION.as_bytes())?;
        return Ok(Input { bytes, fail });
    }
    Ok(Input { bytes, fail })
}

/// How a life ended, and the client's wire and the venue's after it.
pub(crate) type Lived = (Status, MemWire, MemWire);

// A life with this clock, whose entries these taps see.
fn served(
    alloc: Global,
    words: &[String],
    clock: &mut ListClock,
    disk: &mut MemDisk,
    given: Given,
    taps: &mut Vec<Box<dyn Tap>>,
) -> Lived {
    let mut input = MemSource::new(given.input.bytes, given.input.fail);
    let mut out = MemSink::new(alloc, Vec::new(alloc));
    let mut client = MemWire::new(alloc, given.client.script, given.client.fail);
    let mut venue = MemWire::new(alloc, given.venue.script, given.venue.fail);
    let status = run(
        alloc,
        words,
        &mut input,
        &mut out,
        disk,
        &mut client,
        &mut venue,
        clock,
        taps,
    );
    (status, client, venue)
}

fn given_by(alloc: Global, asked: &Asked<'_>) -> Result<Given, AllocError> {
    let Asked {
        polls,
        words,
        input,
    } = *asked;
    let client = Plan::new(alloc, polls, word(words, 0), word(words, 4))?;
    let venue = Plan::new(alloc, polls, word(words, 1), word(words, 5))?;
    let bytes = stream(alloc, polls, word(input, 0))?;
    let input = input_of(alloc, bytes, word(input, 1))?;
    Ok(Given {
        input,
        client,
        venue,
    })
}

// The words of a command that serves for so many rounds.
fn serve_words(alloc: Global, rounds: u64) -> Result<Vec<String>, AllocError> {
    let command = format!(in alloc; "fixgate serve {rounds}")?;
    words_of(alloc, &command)
}

// A life whose entries these taps see.
fn timed(
    alloc: Global,
    disk: &mut MemDisk,
    asked: &Asked<'_>,
    taps: &mut Vec<Box<dyn Tap>>,
) -> Result<Lived, AllocError> {
    let rounds = long_number(word(asked.words, 2)).unwrap_or(0);
    let command = serve_words(alloc, rounds)?;
    let mut clock = ListClock::new(vec![in alloc; NOW]?);
    let given = given_by(alloc, asked)?;
    Ok(served(alloc, &command, &mut clock, disk, given, taps))
}

// Lines as a text, with ` ~ ` before each; or the last alone.
fn lines(alloc: Global, bytes: &[u8], is_last: bool) -> Result<String, AllocError> {
    let text = shown(alloc, bytes)?;
    let mut lines = String::new(alloc);
    for line in text.lines() {
        if is_last {
            lines.clear();
        }
        lines.push_str(" ~ ")?;
        lines.push_str(line)?;
    }
    Ok(lines)
}

/// How `show` ends over a disk, and what it shows: ` ~ ` and a line each, or for `last` the last
/// alone. Of a word `2` the second put fails.
pub(crate) fn shows(alloc: Global, disk: &mut MemDisk, word: &str) -> Result<String, AllocError> {
    let words = words_of(alloc, "fixgate show")?;
    let mut out = MemSink::new(alloc, failing(alloc, word)?);
    let status = unfed(alloc, &words, &mut out, disk);
    let text = lines(alloc, out.bytes(), word == "last")?;
    format!(in alloc; "{status:?}{text}")
}

/// A life without taps.
pub(crate) fn quiet(
    alloc: Global,
    disk: &mut MemDisk,
    asked: &Asked<'_>,
) -> Result<Lived, AllocError> {
    let mut taps: Vec<Box<dyn Tap>> = Vec::new(alloc);
    timed(alloc, disk, asked, &mut taps)
}

// What a tap counted: entries, requests, reports and refusals, and whether it failed.
fn tap_words(alloc: Global, tap: &Box<dyn Tap>) -> Result<String, AllocError> {
    let seen = tap.seen();
    let failed = if tap.failed() { " failed" } else { "" };
    format!(in alloc;
        " {} {} {} {}{failed};",
        seen.entries, seen.requests, seen.reports, seen.refusals
    )
}

// What each tap counted.
fn taps_words(alloc: Global, taps: &[Box<dyn Tap>]) -> Result<String, AllocError> {
    let mut text = String::new(alloc);
    for tap in taps {
        text.push_str(&tap_words(alloc, tap)?)?;
    }
    Ok(text)
}

/// A life with three taps: one that keeps the entries, one of which this call fails,
/// and one that counts totals. Behind it stands what they counted, and what those that are left
/// once those that failed are cleared away.
pub(crate) fn tapped(
    alloc: Global,
    disk: &mut MemDisk,
    asked: &Asked<'_>,
    call: u64,
) -> Result<(Lived, String), AllocError> {
    let mut taps: Vec<Box<dyn Tap>> = Vec::new(alloc);
    taps.push(Box::new(alloc, KeepTap::new(alloc, Vec::new(alloc)))?)?;
    taps.push(Box::new(alloc, KeepTap::new(alloc, vec![in alloc; call]?))?)?;
    taps.push(Box::new(alloc, TotalsTap::new())?)?;
    let lived = timed(alloc, disk, asked, &mut taps)?;
    let mut words = taps_words(alloc, &taps)?;
    clear(&mut taps);
    words.push_str(" left")?;
    words.push_str(&taps_words(alloc, &taps)?)?;
    Ok((lived, words))
}
