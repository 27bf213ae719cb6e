//! A source, a sink and a disk in memory, of which the calls with the listed numbers fail.

ghost use Rattle.std.specs.Prelude.{◌≡◌, ◌≤◌, length, false, IfOk, IfSome};

use crate::texts::{numbers, tell};
use outside::{Disk, Failed, Image, MemDisk, MemSink, MemSource, Sink, Source};
use row_words::{behind, long_number, show, word};
use std::alloc::{AllocError, Global};

/// A disk of these bytes: of a word `fuse:7` all calls fail behind so many writes and syncs.
pub(crate) fn disk(alloc: Global, bytes: &[u8], word: &str) -> Result<MemDisk, AllocError>
    ensures { IfOk result (λ disk. disk.bytes ≡ bytes.now) }
{
    let content = Vec::from_slice(alloc, bytes)?;
    if let Some(passes) = word.strip_prefix("fuse:") {
        return Ok(MemDisk::fuse(alloc, content, long_number(passes).unwrap_or(0)));
    }
    let fail = numbers(alloc, word)?;
    Ok(MemDisk::new(alloc, content, fail))
}

// What a read answers, where that is not the end.
fn read_more(source: &mut MemSource, room: &mut [u8; 3]) -> Option<Result<usize, Failed>>
    requires { source.old.ended ≡ false }
    ensures { IfSome result (λ _. source.new.ended ≡ false) }
{
    match source.read(room) {
        Ok(0) => None,
        came => Some(came),
    }
}

// Appends the answers of reads, and what is in the room of three bytes behind each.
fn tell_reads(text: &mut String, source: &mut MemSource) -> Result<(), AllocError>
    requires { source.old.ended ≡ false }
{
    let mut room = [b'-'; 3];
    for read in 1..10u32 {
        let Some(came) = read_more(source, &mut room) else {
            return text.push_str("end ");
        };
        write!(text, "{read} {came:?} ")?;
        show(text, &room)?;
        text.push_str(", ")?;
    }
    Ok(())
}

fn reads(text: &mut String, alloc: Global, given: &str) -> Result<(), AllocError> {
    let content = Vec::from_slice(alloc, word(given, 1).as_bytes())?;
    let mut source = MemSource::new(content, numbers(alloc, word(given, 0))?);
    tell_reads(text, &mut source)?;
    tell(text, &source.refused())
}

// Appends the answers of puts, and what the sink has then.
fn puts(text: &mut String, alloc: Global, given: &str) -> Result<(), AllocError> {
    let mut sink = MemSink::new(alloc, numbers(alloc, word(given, 0))?);
    for piece in word(given, 1).split(',') {
        let answer = sink.put(piece.as_bytes());
        write!(text, "{answer:?} ")?;
    }
    show(text, sink.bytes())?;
    text.push(' ')?;
    tell(text, &sink.refused())
}

// Writes `XY` from a place among the first six bytes on.
fn put(disk: &mut MemDisk, at: u64) -> Result<(), Failed>
    requires within { at ≤ 6 }
    requires begun { 6 ≤ length disk.old.bytes }
    ensures { length disk.old.bytes ≤ length disk.new.bytes }
{
    disk.write_at(at, b"XY")
}

fn write(text: &mut String, disk: &mut MemDisk, at: u64) -> Result<(), AllocError>
    requires { 6 ≤ length disk.old.bytes }
    ensures { 6 ≤ length disk.new.bytes }
{
    if at > 6 {
        return text.push_str("too far");
    }
    let answer = put(disk, at);
    tell(text, &answer)
}

fn read(text: &mut String, disk: &mut MemDisk, at: u64) -> Result<(), AllocError>
    requires { 6 ≤ length disk.old.bytes }
    ensures { 6 ≤ length disk.new.bytes }
{
    let mut room = [b'-'; 4];
    let answer = disk.read_at(at, &mut room);
    tell(text, &answer)?;
    show(text, &room)
}

// Appends the old, the new and the torn image.
fn show_images(text: &mut String, disk: &MemDisk) -> Result<(), AllocError> {
    for pick in [Image::Old, Image::New, Image::Torn] {
        text.push('/')?;
        show(text, &disk.image(pick)?)?;
    }
    Ok(())
}

// Appends the answer of a call.
fn call(text: &mut String, disk: &mut MemDisk, step: &str) -> Result<(), AllocError>
    requires { 6 ≤ length disk.old.bytes }
    ensures { 6 ≤ length disk.new.bytes }
{
    let at = long_number(word(step, 1)).unwrap_or(0);
    match word(step, 0) {
        "len" => tell(text, &disk.len()),
        "sync" => tell(text, &disk.sync()),
        "write" => write(text, disk, at),
        "read" => read(text, disk, at),
        "images" => show_images(text, disk),
        "calls" => tell(text, &disk.calls()),
        _ => tell(text, &disk.refused()),
    }
}

// Appends the answers of calls, one after the other.
fn tell_calls(text: &mut String, disk: &mut MemDisk, steps: &str) -> Result<(), AllocError>
    requires { 6 ≤ length disk.old.bytes }
{
    for step in steps.split(',') {
        call(text, disk, step)?;
        text.push(';')?;
    }
    Ok(())
}

// Appends the answers of calls over a disk of six bytes.
fn calls(text: &mut String, alloc: Global, given: &str) -> Result<(), AllocError> {
    let mut disk = disk(alloc, b"abcdef", word(given, 0))?;
    tell_calls(text, &mut disk, behind(given, 1))
}

/// The answers of a source, of a sink or of a disk.
pub(crate) fn answer(alloc: Global, call: &str, given: &str) -> Result<String, AllocError> {
    let mut text = String::new(alloc);
    match call {
        "reads" => reads(&mut text, alloc, given)?,
        "puts" => puts(&mut text, alloc, given)?,
        _ => calls(&mut text, alloc, given)?,
    }
    Ok(text)
}
