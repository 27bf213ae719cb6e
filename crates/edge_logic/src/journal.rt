//! What the journal's file needs beside the file: how it may begin, its counts, why a call on it
//! failed, and the lines of that.

ghost use Rattle.std.specs.Prelude.{◌≡◌, ◌++◌, IfOk, MatchResult, IsErr, codes, None};
ghost use Rattle.std.specs.Prelude.{string_bytes};
ghost use Rattle.std.specs.Option.{option_copied};
ghost use Rattle.std.specs.Result.{result_err};
ghost use Rattle.std.specs.Io.{ReadsAtMost};
ghost use Rattle.outside.specs.Causes.{HasCause, next_count, faults_after};
ghost use Rattle.edge_logic.specs.Folder.{folder_of};
ghost use Rattle.edge_logic.specs.Head.{may_be_journal, is_of_format_1};
ghost use Rattle.edge_logic.specs.Notice.{TellsDenial};
ghost use Rattle.edge_logic.specs.declared.journal.Denial.TheVariants as denial;

use outside::Failed;
use std::alloc::{AllocError, Global};
use std::io::ErrorKind;
use std::marker::Model;
use std::os::unix::fs::FileExt;
use std::path::Path;
use std::{fmt, io};

/// How many bytes of a file [`may_be_journal`] and [`is_of_format_1`] look at.
pub const HEAD: usize = 16;

/// What every journal has behind its first byte: the length of its birth record, and its name.
const BIRTH: &[u8] = b"\x00\x00\x00\x9bFIXGATEWAY2";

/// Whether a file that begins so may be a journal, or what a crash left of the birth of one. Such a
/// birth writes byte 0 first, and byte 1 over it once the record behind it is stable; so a file of
/// two bytes or more that begins with neither is one only where that record stands behind.
pub fn may_be_journal(head: &[u8]) -> bool
    ensures { result ≡ may_be_journal head.now }
{
    head.len() <= 1 || head[0] <= 1 || head[1..].starts_with(BIRTH)
}

/// Whether a file that begins so is a journal of format 1, which fixgate wrote up to 0.12.
pub fn is_of_format_1(head: &[u8]) -> bool
    ensures { result ≡ is_of_format_1 head.now }
{
    head.starts_with(b"\x01\x00\x00\x00\x9bFIXGATEWAY1")
}

/// Why a gateway cannot have its journal. Its `Display` is the line, without its LF.
#[derive(Clone, Copy, Debug)]
pub enum Refusal<'a> {
    /// Another gateway has the journal at this path.
    InUse(&'a str),
    /// A call on the journal at this path failed, for this reason of the system.
    Failed(&'a str, &'a str),
    /// A stop file lies at this path before the start.
    StopLies(&'a str),
    /// The journal at this path is of format 1.
    OldFormat(&'a str),
    /// What is to migrate at this path is not of format 1.
    NotOld(&'a str),
}

impl fmt::Display for Refusal<'_> {
    ghost use Rattle.std.specs.Prelude.{Some};
    ghost use Rattle.edge_logic.specs.Notice.{refusal_text};

    ghost output = { λ refusal. Some (refusal_text refusal) };

    fn fmt<W: fmt::Write>(&self, f: &mut fmt::Formatter<W>) -> fmt::Result {
        match *self {
            Refusal::InUse(path) => write!(f, "fixgate: journal {path} is in use"),
            Refusal::Failed(path, reason) => write!(f, "fixgate: journal {path}: {reason}"),
            Refusal::StopLies(path) => write!(f, "fixgate: stop file {path} is there already"),
            Refusal::OldFormat(path) => {
                write!(
                    f,
                    "fixgate: journal {path} is of format 1: migrate makes it format 2"
                )
            }
            Refusal::NotOld(path) => {
                write!(
                    f,
                    "fixgate: journal {path} is not of format 1, which alone migrates"
                )
            }
        }
    }
}

/// The path of the stop file beside the journal at this path.
///
/// # Errors
/// For want of memory alone.
pub fn stop_path(alloc: Global, journal: &str) -> Result<String, AllocError>
    ensures { IfOk result (λ path. string_bytes path ≡ journal.now ++ codes ".stop") }
{
    format!(in alloc; "{journal}.stop")
}

/// The path of the folder that a file lies in: `.` where the path of the file names none.
pub fn folder(path: &str) -> &str
    ensures { result.now ≡ folder_of path.now }
{
    match Path::new(path).parent() {
        Some(parent) if !parent.as_str().is_empty() => parent.as_str(),
        _ => ".",
    }
}

/// Reads from a place on until `buf` is full or the file ends.
///
/// # Errors
/// The system's error.
pub fn fill<F: FileExt>(file: &F, at: u64, buf: &mut [u8]) -> io::Result<usize>
    ensures { ReadsAtMost result buf.new }
{
    let mut got = 0usize;
    for _ in 0..u32::MAX {
        if got == buf.len() {
            break;
        }
        match file.read_at(&mut buf[got..], at.saturating_add(got as u64)) {
            Ok(0) => break,
            Ok(count) => got += count,
            Err(error) if error.kind() == ErrorKind::Interrupted => {}
            Err(error) => return Err(error),
        }
    }
    Ok(got)
}

/// Why a call on the journal's file failed.
#[derive(Debug, Drop)]
pub enum Denial {
    /// Another process has locked the file.
    InUse,
    /// The path is that of a folder, a pipe or a device.
    NoFile,
    /// The file holds something else.
    NoJournal,
    /// The system's reason.
    System(io::Error),
}

impl From<io::Error> for Denial {
    ghost from_gives = { λ error made. made ≡ denial.System error };

    fn from(error: io::Error) -> Denial {
        Denial::System(error)
    }
}

impl Denial {
    /// The line that says so of the journal at this path.
    ///
    /// # Errors
    /// For want of memory alone.
    pub fn line(&self, alloc: Global, path: &str) -> Result<String, AllocError>
        ensures { IfOk result (λ line. TellsDenial path.now self.now (string_bytes line)) }
    {
        match self {
            Denial::InUse => format!(in alloc; "fixgate: journal {path} is in use"),
            Denial::NoFile => format!(in alloc; "fixgate: journal {path}: is no regular file"),
            Denial::NoJournal => {
                format!(in alloc;
                    "fixgate: journal {path}: is no journal: it begins with neither byte 0 nor byte 1"
                )
            }
            Denial::System(error) => {
                let reason = format!(in alloc; "{error}")?;
                let refusal = Refusal::Failed(path, reason.as_str());
                format!(in alloc; "{refusal}")
            }
        }
    }
}

/// How often the journal's file was read, how often a call on it failed, and why the last call did.
#[derive(Debug, Drop)]
pub struct Tally {
    reads: u64,
    faults: u64,
    denial: Option<Denial>,
}

impl Model for Tally {
    ghost use Rattle.edge_logic.specs.Tally.{Counts};

    ghost Value = { Counts };

    ghost view = { λ t. record { reads = t.reads; faults = t.faults; denial = t.denial } };
}

impl Tally {
    /// No call was made.
    pub fn new() -> Tally
        ensures { result ≡ record { reads = 0; faults = 0; denial = None } }
    {
        Tally {
            reads: 0,
            faults: 0,
            denial: None,
        }
    }

    /// The file is read.
    pub fn note_read(&mut self)
        ensures { self.new ≡ record self.old { reads = next_count self.old.reads } }
    {
        self.reads = self.reads.saturating_add(1);
    }

    /// A call has ended so: a fault is counted, and its reason kept.
    ///
    /// # Errors
    /// Where the call failed.
    pub fn end<T>(&mut self, answer: Result<T, Denial>) -> Result<T, Failed>
        ensures cause { HasCause self.old.faults self.new.faults result }
        ensures faults { self.new.faults ≡ faults_after answer self.old.faults }
        ensures reads { self.new.reads ≡ self.old.reads }
        ensures denial { self.new.denial ≡ result_err answer }
        ensures value { MatchResult answer (λ value. result ≡ Ok value) (λ _. IsErr result) }
    {
        match answer {
            Ok(value) => {
                self.denial = None;
                Ok(value)
            }
            Err(denial) => {
                self.denial = Some(denial);
                self.faults = self.faults.saturating_add(1);
                Err(Failed)
            }
        }
    }

    /// Why the last call failed, where it did.
    pub fn denial(&self) -> Option<&Denial>
        ensures { option_copied result ≡ self.now.denial }
    {
        self.denial.as_ref()
    }
}
