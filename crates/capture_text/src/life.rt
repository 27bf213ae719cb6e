//! The lines of a life, up to its `end`.

ghost use Rattle.std.specs.Prelude.{◌≡◌, ◌<◌, ◌↔◌, ◌∷◌, List, length, IsTrue, IfOk, IfErr};
ghost use Rattle.capture_text.specs.declared.capture.Event.{Event};
ghost use Rattle.capture_text.specs.Capture.{is_open, MayStand};
ghost use Rattle.capture_text.specs.Line.{IsBounded};
ghost use Rattle.capture_text.specs.Life.{AreOpen, Follows, IsLife, Breaking};

use crate::line::read_event;
use crate::lines::{next_number, split_line};
use crate::{CaptureFault, Event, Life};
use order_meaning::Side;
use std::alloc::{AllocError, Global};

/// Which sides are open, and whether no line stands before.
#[derive(Clone, Copy, Debug)]
struct Open {
    client: bool,
    venue: bool,
    fresh: bool,
}

impl Open {
    /// Whether a side is open.
    fn is_open(self, side: Side) -> bool
        ensures { (before : List Event) → AreOpen self before → result ≡ is_open side before }
    {
        match side {
            Side::Client => self.client,
            Side::Venue => self.venue,
        }
    }

    /// Whether an event of these bounds may come.
    fn may_stand(self, event: &Event) -> bool
        ensures { (before : List Event) → AreOpen self before → IsBounded event.now
            → IsTrue result ↔ MayStand before event.now }
    {
        match event {
            Event::Stop(..) => self.fresh,
            Event::At(_) | Event::Tick => true,
            Event::Opened(side) => !self.is_open(*side),
            Event::Closed(side) => self.is_open(*side),
            Event::Text(side, _) => self.is_open(*side),
            Event::Frame(side, _) => self.is_open(*side),
        }
    }

    /// The same after an event.
    fn after(self, event: &Event) -> Open
        ensures { (before : List Event) → AreOpen self before
            → AreOpen result (event.now ∷ before) }
    {
        let later = Open {
            fresh: false,
            ..self
        };
        match event {
            Event::Opened(Side::Client) => Open {
                client: true,
                ..later
            },
            Event::Opened(Side::Venue) => Open {
                venue: true,
                ..later
            },
            Event::Closed(Side::Client) => Open {
                client: false,
                ..later
            },
            Event::Closed(Side::Venue) => Open {
                venue: false,
                ..later
            },
            _ => later,
        }
    }
}

/// The event of a line, where it may come.
#[tactic(auto, using(crate::proofs::Standing::what_follows))]
fn event_of(alloc: Global, sides: Open, line: &[u8]) -> Result<Option<Event>, AllocError>
    ensures { (before : List Event) → AreOpen sides before →
        IfOk result (Follows line.now before) }
{
    let Some(event) = read_event(alloc, line)? else {
        return Ok(None);
    };
    if !sides.may_stand(&event) {
        return Ok(None);
    }
    Ok(Some(event))
}

/// The events of a life up to its `end`, what stands behind it, and the number of its last line.
#[tactic(auto, using(crate::proofs::Steps::lives_pass))]
pub(crate) fn read_life<'a>(
    alloc: Global,
    text: &'a [u8],
    before: u32,
) -> Result<(Life, &'a [u8], u32), CaptureFault>
    ensures ok { IfOk result (λ read. IsLife text.now before read.0 read.1.now read.2) }
    ensures shorter { IfOk result (λ read. length read.1.now < length text.now) }
    ensures err { IfErr result (Breaking text.now before) }
{
    let mut life = Life::new(alloc);
    let mut sides = Open {
        client: false,
        venue: false,
        fresh: true,
    };
    let mut rest = text;
    let mut number = before;
    loop {
        let Some((line, after)) = split_line(rest) else {
            return Err(CaptureFault::Line(next_number(number)));
        };
        number = next_number(number);
        rest = after;
        if line == b"end".as_slice() {
            return Ok((life, rest, number));
        }
        let Some(event) = event_of(alloc, sides, line)? else {
            return Err(CaptureFault::Line(number));
        };
        sides = sides.after(&event);
        life.push(event)?;
    }
}
