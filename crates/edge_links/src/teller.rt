//! Lines for the operator, which never wait for their reader.

ghost use Rattle.std.specs.Prelude.{◌≡◌, ◌⊎◌, ◌+◌, ◌-◌, ◌^◌, min, IfOk};

use crate::system::System;
use edge_logic::{Lost, Notice, line, moment};
use mio::unix::SourceFd;
use mio::{Events, Interest, Poll, Token};
use std::alloc::Global;
use std::io;
use std::io::Write;
use std::time::Duration;

/// The descriptor of standard error.
const STANDARD_ERROR: i32 = 2;

/// What a pipe that takes anything takes without a wait, in bytes: `PIPE_BUF` of POSIX, on Linux.
const PIPE_BUF: usize = 4_096;

/// Writes lines for the operator. A line that standard error would not take at once is lost, and
/// counted; the next line says how many were. A line of more than 4,096 bytes is written in parts,
/// and cut where standard error takes no more.
#[derive(Drop)]
pub struct Teller<W: Write + Drop> {
    out: W,
    /// Reports whether standard error takes a part; none where it always does, as a file.
    ready: Option<Poll>,
    /// Whether standard error is a file, which the system does not watch.
    is_file: bool,
    events: Events<Global>,
    lost: u64,
}

/// Whether standard error is registered anew: what is ready is reported to a new registration.
fn is_watched(poll: &Poll) -> bool {
    let watched = poll.registry().reregister(
        &mut SourceFd(&STANDARD_ERROR),
        Token(0),
        Interest::WRITABLE,
    );
    watched.is_ok()
}

/// Whether something is reported without a wait.
fn is_reported(poll: &mut Poll, events: &mut Events<Global>) -> bool {
    poll.poll(events, Some(Duration::ZERO)).is_ok() && !events.is_empty()
}

impl<W: Write + Drop> Teller<W> {
    /// A teller over standard error, whose writer is `out`.
    ///
    /// # Errors
    /// The system's error, and for want of memory.
    pub fn new<R: System>(rt: &R, out: W) -> io::Result<Teller<W>>
        ensures { IfOk result (λ teller. teller.lost ≡ 0) }
    {
        let poll = Poll::new(rt)?;
        let events = Events::with_capacity(rt.alloc(), 1)?;
        let watched = poll.registry().register(
            &mut SourceFd(&STANDARD_ERROR),
            Token(0),
            Interest::WRITABLE,
        );
        let (ready, is_file) = match watched {
            Ok(()) => (Some(poll), false),
            Err(error) => (None, error.kind() == io::ErrorKind::PermissionDenied),
        };
        Ok(Teller {
            out,
            ready,
            is_file,
            events,
            lost: 0,
        })
    }

    /// Whether standard error is a file, which takes each line at once.
    pub fn tells_a_file(&self) -> bool
        ensures { result ≡ self.now.is_file }
    {
        self.is_file
    }

    // Whether a part of a line can be written without a wait.
    fn takes_part(&mut self) -> bool
        ensures { self.new.lost ≡ self.old.lost }
    {
        match &mut self.ready {
            Some(poll) => is_watched(poll) && is_reported(poll, &mut self.events),
            None => true,
        }
    }

    // Writes what can be written without a wait, which is asked before each part.
    fn write_at_once(&mut self, lines: &[u8]) -> io::Result<()>
        ensures { self.new.lost ≡ self.old.lost }
    {
        for part in lines.chunks(PIPE_BUF) {
            if !self.takes_part() {
                return Err(io::Error::from(io::ErrorKind::WouldBlock));
            }
            self.out.write_all(part)?;
        }
        Ok(())
    }

    // Writes the line of a notice.
    fn write<R: System>(&mut self, rt: &R, notice: Notice<'_>) -> io::Result<()>
        ensures { self.new.lost ≡ self.old.lost }
    {
        let now = moment(rt).unwrap_or(0);
        let line = line(rt.alloc(), now, notice, Lost(self.lost))?;
        self.write_at_once(&line)
    }

    /// Writes the line of a notice, which says how many were lost before it, or loses it.
    pub fn tell<R: System>(&mut self, rt: &R, notice: Notice<'_>)
        ensures { (self.new.lost ≡ 0) ⊎ (self.new.lost ≡ min (self.old.lost + 1) (2 ^ 64 - 1)) }
    {
        match self.write(rt, notice) {
            Ok(()) => self.lost = 0,
            Err(_) => self.lost = self.lost.saturating_add(1),
        }
    }

    /// Writes lines as they are, or loses them.
    pub fn put(&mut self, lines: &[u8])
        ensures { (self.new.lost ≡ self.old.lost)
            ⊎ (self.new.lost ≡ min (self.old.lost + 1) (2 ^ 64 - 1)) }
    {
        if self.write_at_once(lines).is_err() {
            self.lost = self.lost.saturating_add(1);
        }
    }
}
