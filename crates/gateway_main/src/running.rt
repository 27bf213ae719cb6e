//! The outside of a run, by the options: the disk of the journal, both wires and the clock.

ghost use Rattle.std.specs.Prelude.{◌≡◌, false};
ghost use Rattle.std.specs.Option.{ForSome};
ghost use Rattle.wires.specs.Wire.{is_within};

use crate::options::Options;
use drop_taps::Tap;
use edge_logic::{HEAD, Notice, Refusal, Shared, is_of_format_1, long_end, stop_path};
use edge_system::{Addresses, Edge, JournalFile, StopFile, System, Teller};
use gateway_top::{Status, run};
use outside::{Disk, MemDisk, Sink, Source};
use std::fmt;
use std::fs::File;
use std::io::{self, Write};
use std::rt::Files;
use wires::{Clock, ListClock, QuietWire, Wire};

// Prints a line to standard error. Nothing is left to say where that fails too.
fn tell<W: Write + Copy, T: fmt::Display + Drop>(mut lines: W, what: T) {
    let _ = writeln!(lines, "{what}");
}

// The system refuses what both wires and the clock need, of which a line is printed.
fn no_sockets<W: Write + Copy>(mut lines: W, error: &io::Error) -> Status {
    if error.kind() == io::ErrorKind::OutOfMemory {
        return Status::NoMemory;
    }
    let _ = writeln!(lines, "fixgate: no sockets: {error}");
    Status::DiskFault
}

// The system does not remove the stop file at this path, of which a line is printed.
fn stop_stays<W: Write + Copy>(mut lines: W, path: &str, error: &io::Error) {
    let _ = writeln!(lines, "fixgate: stop file {path}: {error}");
}

// Drops both wires and the clock by a call. In line, each of their fields would be a case of its
// caller.
fn let_go<E: Drop>(_edge: E) {}

// A run between two peers at these addresses. Behind it the peers are given what was said last, and
// a stop file that asked for the end is removed.
fn run_between<
    R: System + Files + Copy + Drop,
    W: Write + Copy + Drop,
    I: Source,
    O: Sink,
    D: Disk,
>(
    rt: R,
    lines: W,
    words: &[String],
    input: &mut I,
    out: &mut O,
    taps: &mut Vec<Box<dyn Tap>>,
    disk: &mut D,
    addresses: Addresses,
    stop_path: &str,
) -> Status
    requires { I.ended input.old ≡ false }
{
    let shared = Shared::new();
    let Ok(path) = String::from_str(rt.alloc(), stop_path) else {
        return Status::NoMemory;
    };
    let stop = StopFile::new(&path);
    let mut edge = match Edge::new(&rt, &shared, addresses, stop, lines) {
        Ok(edge) => edge,
        Err(error) => return no_sockets(lines, &error),
    };
    let mut client = edge.client;
    let mut venue = edge.venue;
    let mut clock = edge.clock;
    let status = run(
        rt.alloc(),
        words,
        input,
        out,
        disk,
        &mut client,
        &mut venue,
        &mut clock,
        taps,
    );
    edge.client = client;
    edge.venue = venue;
    edge.clock = clock;
    edge.wait_for_peers();
    if shared.is_ending() {
        if let Err(error) = stop.remove(&rt) {
            stop_stays(lines, stop_path, &error);
        }
    }
    let_go(edge);
    status
}

// A run with wires on which nothing comes.
fn run_alone<R: System, I: Source, O: Sink, D: Disk>(
    rt: &R,
    words: &[String],
    input: &mut I,
    out: &mut O,
    taps: &mut Vec<Box<dyn Tap>>,
    disk: &mut D,
) -> Status
    requires { I.ended input.old ≡ false }
{
    let mut client = QuietWire::new();
    let mut venue = QuietWire::new();
    let mut clock = ListClock::new(Vec::new(rt.alloc()));
    run(
        rt.alloc(),
        words,
        input,
        out,
        disk,
        &mut client,
        &mut venue,
        &mut clock,
        taps,
    )
}

// A run over a journal in memory. A fault of its disk is want of memory.
fn run_in_memory<R: System + Files + Copy + Drop, W: Write + Copy + Drop, I: Source, O: Sink>(
    rt: R,
    lines: W,
    options: &Options<'_>,
    input: &mut I,
    out: &mut O,
    taps: &mut Vec<Box<dyn Tap>>,
) -> Status
    requires { I.ended input.old ≡ false }
{
    let alloc = rt.alloc();
    let mut disk = MemDisk::new(alloc, Vec::new(alloc), Vec::new(alloc));
    let status = match options.addresses {
        Some(addresses) => {
            run_between(
                rt,
                lines,
                options.words,
                input,
                out,
                taps,
                &mut disk,
                addresses,
                "",
            )
        }
        None => run_alone(&rt, options.words, input, out, taps, &mut disk),
    };
    if disk.refused() && matches!(status, Status::DiskFault) {
        return Status::NoMemory;
    }
    status
}

// Whether a stop file lies at this path, of which a line is printed.
fn stop_lies<R: Files, W: Write + Copy>(rt: &R, lines: W, path: &str) -> bool {
    match StopFile::new(path).refusal(rt) {
        Some(refusal) => {
            tell(lines, refusal);
            true
        }
        None => false,
    }
}

// Whether these words only read the journal.
fn only_read(words: &[String]) -> bool {
    matches!(words, [word] if matches!(word.as_str(), "show" | "migrate"))
}

// Whether the disk holds a journal of format 1.
fn is_old<D: Disk>(disk: &mut D) -> bool {
    let mut head = [0u8; HEAD];
    matches!(disk.read_at(0, &mut head), Ok(HEAD)) && is_of_format_1(&head)
}

// Says how long an end by the stop file takes, where a gateway is to live for so many rounds that
// it is long.
fn tell_long_end<R: System, W: Write + Copy + Drop>(rt: &R, lines: W, words: &[String]) {
    let [word, rounds] = words else {
        return;
    };
    let (true, Ok(rounds)) = (word.as_str() == "serve", rounds.parse::<u64>()) else {
        return;
    };
    if let (Some(seconds), Ok(mut teller)) = (long_end(rounds), Teller::new(rt, lines)) {
        teller.tell(rt, Notice::EndTakes(seconds));
    }
}

// A run over the journal at this path. A gateway between two peers does not start where a stop file
// lies beside it.
fn run_with_journal<
    R: System + Files<File = File> + Copy + Drop,
    W: Write + Copy + Drop,
    I: Source,
    O: Sink,
>(
    rt: R,
    lines: W,
    options: &Options<'_>,
    input: &mut I,
    out: &mut O,
    taps: &mut Vec<Box<dyn Tap>>,
    journal: &str,
) -> Status
    requires { I.ended input.old ≡ false }
{
    let alloc = rt.alloc();
    let (Ok(path), Ok(stop)) = (String::from_str(alloc, journal), stop_path(alloc, journal)) else {
        return Status::NoMemory;
    };
    let mut disk = if only_read(options.words) {
        JournalFile::to_read(&rt, &path)
    } else {
        JournalFile::new(&rt, &path)
    };
    let status = match options.addresses {
        Some(addresses) => {
            if options.is_command("serve") && stop_lies(&rt, lines, &stop) {
                return Status::DiskFault;
            }
            tell_long_end(&rt, lines, options.words);
            run_between(
                rt,
                lines,
                options.words,
                input,
                out,
                taps,
                &mut disk,
                addresses,
                &stop,
            )
        }
        None => run_alone(&rt, options.words, input, out, taps, &mut disk),
    };
    if matches!(status, Status::DiskFault) {
        if let Ok(Some(reason)) = disk.refusal(alloc) {
            tell(lines, reason);
        }
        if disk.is_no_journal() {
            return Status::JournalRefused { at: 0 };
        }
    }
    if matches!(status, Status::JournalRefused { at: 0 }) {
        match (options.is_command("migrate"), is_old(&mut disk)) {
            (false, true) => tell(lines, Refusal::OldFormat(path.as_str())),
            (true, false) => tell(lines, Refusal::NotOld(path.as_str())),
            _ => {}
        }
    }
    status
}

/// Does what the words of the command line ask for, behind their options, with the system's files,
/// sockets and clock. Lines for the operator go to `lines`, which is standard error.
pub(crate) fn run_words<
    R: System + Files<File = File> + Copy + Drop,
    W: Write + Copy + Drop,
    I: Source,
    O: Sink,
>(
    rt: R,
    lines: W,
    options: &Options<'_>,
    input: &mut I,
    out: &mut O,
    taps: &mut Vec<Box<dyn Tap>>,
) -> Status
    requires { I.ended input.old ≡ false }
{
    match options.journal {
        Some(path) => run_with_journal(rt, lines, options, input, out, taps, path),
        None => {
            if only_read(options.words) {
                tell(lines, "fixgate: no journal is read: --journal is not given");
            }
            run_in_memory(rt, lines, options, input, out, taps)
        }
    }
}
