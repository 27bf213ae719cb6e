//! The program `fixgate`: it makes the outside of a run, hands it to [`gateway_top::run`] with the
//! words of the command line, and ends as [`gateway_top::End`] says. Lines of its own on standard
//! error say which word, option or key was wrong.
#![tactic(auto)]

mod kept;
mod lines;
mod options;
mod running;
mod streams;
mod unknown_key;
mod words;

use crate::kept::Kept;
use crate::lines::{DatedLines, PlainLines};
use crate::options::{Options, read_options};
use crate::running::run_words;
use crate::streams::Filled;
use crate::unknown_key::unknown_key;
use crate::words::fault_of;
use drop_taps::{LineTap, Tap, TotalsTap, clear};
use edge_system::{Reading, Writing};
use gateway_config::ConfigKey;
use gateway_top::{End, Status};
use std::alloc::{AllocError, Global};
use std::process::ExitCode;
use std::rt::Env;
use std::{env, io};
use text_tap::TextTap;

/// The most bytes of a configuration of which an unknown key is named.
const MAX_NAMED: usize = 1 << 20;

/// The words of the command line behind the program's name.
fn read_words(rt: &(impl Env + AllocGlobal)) -> io::Result<Vec<String>> {
    let mut words = Vec::new(rt.alloc());
    for word in env::args(rt)?.skip(1) {
        words.push(word)?;
    }
    Ok(words)
}

/// Tells what a status leaves unsaid: which word is wrong, or which key is unknown.
fn tell_more(rt: HostRuntime, alloc: Global, status: Status, options: &Options<'_>, text: &[u8]) {
    match status {
        Status::Usage => {
            let fault = fault_of(options.words);
            let _ = eprintln!(rt; "{fault}");
        }
        Status::ConfigRefused {
            key: ConfigKey::Unknown,
        } => {
            if let Some(key) = unknown_key(alloc, text) {
                let _ = eprintln!(rt; "fixgate: the configuration has no key {key}");
            }
        }
        _ => {}
    }
}

/// How the run that the words of the command line ask for ends. The taps of `serve` tell a line for
/// each entry, and one for each order, each report and each text of the sessions; the tap of
/// `replay` and `drill` counts; other commands have none.
fn ended(rt: HostRuntime, words: &[String]) -> Result<Status, AllocError> {
    let options = match read_options(words) {
        Ok(options) => options,
        Err(fault) => {
            let _ = eprintln!(rt; "{fault}");
            return Ok(Status::Usage);
        }
    };
    let alloc = rt.alloc();
    let mut taps: Vec<Box<dyn Tap>> = Vec::new(alloc);
    let mut room = 0;
    if options.is_command("serve") {
        taps.push(Box::new(alloc, LineTap::new(PlainLines::new(rt)))?)?;
        taps.push(Box::new(alloc, TextTap::new(alloc, DatedLines::new(rt)))?)?;
        room = MAX_NAMED;
    } else if options.is_command("replay") || options.is_command("drill") {
        taps.push(Box::new(alloc, TotalsTap::new())?)?;
    }
    let mut input = Kept::new(alloc, Reading::new(rt.stdin()), room);
    let mut out = Writing::new(rt.stdout());
    let status = run_words(rt, rt.stderr(), &options, &mut input, &mut out, &mut taps);
    clear(&mut taps);
    tell_more(rt, alloc, status, &options, input.bytes());
    Ok(status)
}

/// How the program ends, behind its standard streams.
fn status_of(rt: HostRuntime) -> Status {
    match read_words(&rt) {
        Ok(words) => ended(rt, &words).unwrap_or(Status::NoMemory),
        Err(error) if error.kind() == io::ErrorKind::OutOfMemory => Status::NoMemory,
        Err(_) => {
            let _ = eprintln!(rt; "fixgate: a word of the command line is no UTF-8");
            Status::Usage
        }
    }
}

fn main(rt: HostRuntime) -> ExitCode {
    // They are kept until the program has said its last.
    let filled = Filled::open(&rt);
    let status = match &filled {
        Ok(_) => status_of(rt),
        Err(error) => {
            let _ = eprintln!(rt; "fixgate: /dev/null: {error}");
            Status::OutputFault
        }
    };
    let end = End::new(status);
    let _ = eprint!(rt; "{end}"); // nothing is left to say where standard error fails too
    ExitCode::from(end.code())
}
