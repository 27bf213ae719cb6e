//! Calls on a wire in memory, on clocks and on the quiet forms.

use crate::scripts::{Poll, script};
use order_meaning::Side;
use outside::{Failed, Source};
use row_words::{long_number, shown, side_of, word};
use std::alloc::{AllocError, Global};
use wire_sends::hang_up_on;
use wires::{Arrival, Clock, Connection, ListClock, MemWire, QuietSource, QuietWire, Wire};

// The numbers of these words.
fn numbers(alloc: Global, given: &str) -> Result<Vec<u64>, AllocError> {
    let mut numbers = Vec::new(alloc);
    for word in given.split(' ') {
        if let Some(number) = long_number(word) {
            numbers.push(number)?;
        }
    }
    Ok(numbers)
}

/// A wire of a script, whose name comes first, of which the calls of the numbers behind it fail.
pub(crate) fn wire_of(alloc: Global, polls: &[Poll], given: &str) -> Result<MemWire, AllocError> {
    let script = script(alloc, polls, word(given, 0))?;
    let fail = numbers(alloc, given)?;
    Ok(MemWire::new(alloc, script, fail))
}

// What a poll gave, and the byte that there was room for.
fn arrival_text(
    alloc: Global,
    answer: Result<Arrival, Failed>,
    byte: u8,
) -> Result<String, AllocError> {
    let byte = char::from(byte);
    match answer {
        Ok(Arrival::Nothing) => format!(in alloc; "nothing {byte}"),
        Ok(Arrival::Opened) => format!(in alloc; "opened {byte}"),
        Ok(Arrival::Closed) => format!(in alloc; "closed {byte}"),
        Ok(Arrival::Bytes(count)) => format!(in alloc; "bytes {count} {byte}"),
        Err(Failed) => format!(in alloc; "failed {byte}"),
    }
}

// What a poll gives with room for one byte, and that byte.
fn poll_text<W: Wire>(alloc: Global, wire: &mut W) -> Result<String, AllocError> {
    let mut buf = [b'-'];
    let answer = wire.poll(&mut buf);
    arrival_text(alloc, answer, buf[0])
}

// What a send answers, where there is a connection.
fn send_text(alloc: Global, wire: &mut MemWire, piece: &[u8]) -> Result<String, AllocError> {
    if !wire.is_within() {
        return format!(in alloc; "no connection");
    }
    match wire.send(piece) {
        Ok(()) => format!(in alloc; "done"),
        Err(Failed) => format!(in alloc; "failed"),
    }
}

// What was read and written on a connection.
fn connection_text(alloc: Global, connection: &Connection) -> Result<String, AllocError> {
    let read = shown(alloc, &connection.read)?;
    let written = shown(alloc, &connection.written)?;
    format!(in alloc; "[{read}>{written}]")
}

// The same of all connections, and whether memory was refused.
fn wire_text(alloc: Global, wire: &MemWire) -> Result<String, AllocError> {
    let mut text = String::new(alloc);
    for connection in wire.connections() {
        text.push_str(&connection_text(alloc, connection)?)?;
    }
    let refused = if wire.refused() { " refused" } else { "" };
    format!(in alloc; "{text}{refused}")
}

// Whether the connection still stands by that answer, and whether it does, where the second side is
// to be hung up and the wire is the first one's.
fn hung_up_text(alloc: Global, wire: &mut MemWire, given: &str) -> Result<String, AllocError> {
    let side = side_of(word(given, 0)).unwrap_or(Side::Client);
    let up = wire.is_within();
    let left = hang_up_on(wire, up, side, side_of(word(given, 1)));
    format!(in alloc; "{left} {}", wire.is_within())
}

/// The answer to a call on a wire.
pub(crate) fn wire_answer(
    alloc: Global,
    wire: &mut MemWire,
    call: &str,
    given: &str,
) -> Result<String, AllocError> {
    match call {
        "gives" => poll_text(alloc, wire),
        "send" => send_text(alloc, wire, given.as_bytes()),
        "shows" => wire_text(alloc, wire),
        "hangs-up" => hung_up_text(alloc, wire, given),
        _ => {
            wire.hang_up();
            format!(in alloc; "done")
        }
    }
}

/// Three moments of a clock of this list.
pub(crate) fn clock_text(alloc: Global, given: &str) -> Result<String, AllocError> {
    let mut clock = ListClock::new(numbers(alloc, given)?);
    let first = clock.now();
    let second = clock.now();
    let third = clock.now();
    format!(in alloc; "{first} {second} {third}")
}

/// What a quiet wire gives after it was hung up, and how many bytes a quiet source reads.
pub(crate) fn quiet_text(alloc: Global) -> Result<String, AllocError> {
    let mut wire = QuietWire::new();
    wire.hang_up();
    let given = poll_text(alloc, &mut wire)?;
    let mut buf = [b'-'];
    let read = QuietSource::new().read(&mut buf).unwrap_or(1);
    format!(in alloc; "{given} {read} {}", char::from(buf[0]))
}
