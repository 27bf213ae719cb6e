//! The system's clock, which waits for both wires at once before it is read.

ghost use Rattle.std.specs.Prelude.{None};

use crate::stop_file::StopFile;
use edge_links::{System, Teller};
use edge_logic::{Notice, Pace, Shared, moment, ticks, wait_after};
use mio::{Events, Poll};
use std::alloc::Global;
use std::io::Write;
use std::rt::Files;
use std::thread;
use std::time::Duration;
use wires::Clock;

/// Where the system refuses to wait, a round takes this long, in milliseconds.
const PAUSE: u64 = 1;

/// The system's clock. It is asked once a round, and waits there until something comes on either
/// wire, for [`WAIT`](edge_logic::WAIT) ms at most; it does not wait behind a round in which
/// something came. The moment is read after the wait.
#[derive(Drop)]
pub struct WaitingClock<'a, R: System + Files, W: Write + Drop> {
    rt: &'a R,
    poll: Poll,
    events: Events<Global>,
    shared: &'a Shared,
    stop: StopFile<'a>,
    teller: Teller<W>,
    /// When the stop file is looked for again.
    looks: Pace,
    last: u64,
}

impl<'a, R: System + Files, W: Write + Drop> WaitingClock<'a, R, W> {
    /// A clock that waits for the sockets of this set.
    pub(crate) fn new(
        rt: &'a R,
        poll: Poll,
        events: Events<Global>,
        shared: &'a Shared,
        stop: StopFile<'a>,
        teller: Teller<W>,
    ) -> WaitingClock<'a, R, W> {
        WaitingClock {
            rt,
            poll,
            events,
            shared,
            stop,
            teller,
            looks: Pace::new(),
            last: 0,
        }
    }

    // Looks for the stop file, once a second.
    fn look(&mut self) {
        if self.looks.take(ticks(self.rt)) && self.stop.is_there(self.rt) {
            self.shared.end();
            self.teller.tell(self.rt, Notice::StopAsked);
        }
    }

    fn wait(&mut self) {
        let bound = Duration::from_millis(wait_after(self.shared.take_activity()));
        if self.poll.poll(&mut self.events, Some(bound)).is_err() {
            thread::sleep(self.rt, Duration::from_millis(PAUSE));
        }
    }
}

impl<'a, R: System + Files, W: Write + Drop> Clock for WaitingClock<'a, R, W> {
    ghost moments = { λ _. None };

    ghost follows = { λ clock listed. ⊥ };

    fn now(&mut self) -> u64 {
        if self.shared.is_ending() {
            return self.last;
        }
        self.look();
        self.wait();
        if let Some(now) = moment(self.rt) {
            self.last = now;
        }
        self.last
    }
}
