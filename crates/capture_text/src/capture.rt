//! What a capture says.

ghost use Rattle.std.specs.Prelude.{◌≡◌, ◌<◌, ◌++◌, [], ◌∷◌, List, length, drop, IfSome, IsNone};
ghost use Rattle.std.specs.Prelude.{OnOk, OnErr};
ghost use Rattle.capture_text.specs.declared.capture.Event.{Event};
ghost use Rattle.capture_text.specs.declared.capture.Mark.{Mark};
ghost use Rattle.capture_text.specs.Capture.{told_stop, stop_of};
ghost use Rattle.capture_text.specs.Kept.{event_of, events_of, first_number, AreWhole};

use kept_pieces::{Left, Piece, Pieces};
use order_meaning::{Bytes, Names, Side};
use outside::Image;
use std::alloc::{AllocError, Global};
use std::marker::Model;

/// What a line of a life says. All but `Stop` and `At` is a round of the gateway.
#[derive(Debug, Drop)]
pub enum Event {
    /// `stop K IMAGE`, the first line of a life: of its disk the writes and syncs from the K-th on
    /// fail, from 1 to 1,000,000, and every call behind that one; and this image is left.
    Stop(u64, Image),
    /// `at MS`: the clock from here on, in milliseconds since 1970-01-01 00:00 UTC.
    At(u64),
    /// `tick`: a round with nothing.
    Tick,
    /// `c+`, `v+`: this side opens its connection.
    Opened(Side),
    /// `c-`, `v-`: this side closes its connection.
    Closed(Side),
    /// `c TEXT`, `v TEXT`: these bytes come from this side, 1 to 4,096.
    Text(Side, Bytes),
    /// `cf BODY`, `vf BODY`: the frame of this body comes from this side, of at most 4,096 bytes.
    Frame(Side, Bytes),
}

/// An event of a life, as the life has it: its bytes are unpacked where they are asked for.
#[derive(Clone, Copy, Debug)]
pub enum Line<'a> {
    /// As [`Event::Stop`].
    Stop(u64, Image),
    /// As [`Event::At`].
    At(u64),
    /// As [`Event::Tick`].
    Tick,
    /// As [`Event::Opened`].
    Opened(Side),
    /// As [`Event::Closed`].
    Closed(Side),
    /// As [`Event::Text`].
    Text(Side, Piece<'a>),
    /// As [`Event::Frame`].
    Frame(Side, Piece<'a>),
}

/// What an event is, without its number and its bytes.
#[derive(Clone, Copy, Debug)]
pub(crate) enum Mark {
    Stop(Image),
    At,
    Tick,
    Opened(Side),
    Closed(Side),
    Text(Side),
    Frame(Side),
}

/// The events of a life, seen as their list. One without bytes takes a mark of two bytes.
#[derive(Debug, Drop)]
pub struct Life {
    marks: Vec<Mark>,
    numbers: Vec<u64>,
    pieces: Pieces,
}

impl Model for Life {
    ghost use Rattle.std.specs.Prelude.{List};
    ghost use Rattle.capture_text.specs.declared.capture.Event.{Event};
    ghost use Rattle.capture_text.specs.Kept.{events_of, AreWhole};

    ghost Value = { List Event };

    ghost view = { λ l. events_of l.marks.items l.numbers.items l.pieces };

    ghost invariant = { λ l. AreWhole l.marks.items l.numbers.items l.pieces };
}

/// The events that are left of a life, seen as their list.
#[derive(Debug, Drop)]
pub struct Lines<'a> {
    marks: &'a [Mark],
    numbers: &'a [u64],
    pieces: Left<'a>,
}

impl<'a> Model for Lines<'a> {
    ghost use Rattle.std.specs.Prelude.{List};
    ghost use Rattle.capture_text.specs.declared.capture.Event.{Event};
    ghost use Rattle.capture_text.specs.Kept.{events_of};

    ghost Value = { List Event };

    ghost view = { λ l. events_of l.marks.now l.numbers.now l.pieces };
}

// The next number, which is then behind; 0 where none is left.
fn next_or_zero(numbers: &mut &[u64]) -> u64
    ensures value { result ≡ first_number numbers.old.now }
    ensures rest { numbers.new.now ≡ drop 1 numbers.old.now }
{
    match numbers.split_off_first() {
        Some(number) => *number,
        None => 0,
    }
}

// The event of a mark, with the next number or piece where it takes one.
fn line_of<'a>(mark: Mark, numbers: &mut &[u64], pieces: &mut Left<'a>) -> Line<'a>
    ensures { (marks : List Mark) → events_of (mark ∷ marks) numbers.old.now pieces.old
        ≡ event_of result ∷ events_of marks numbers.new.now pieces.new }
{
    match mark {
        Mark::Stop(image) => Line::Stop(next_or_zero(numbers), image),
        Mark::At => Line::At(next_or_zero(numbers)),
        Mark::Tick => Line::Tick,
        Mark::Opened(side) => Line::Opened(side),
        Mark::Closed(side) => Line::Closed(side),
        Mark::Text(side) => Line::Text(side, pieces.next_or_empty()),
        Mark::Frame(side) => Line::Frame(side, pieces.next_or_empty()),
    }
}

// The stop that a line tells.
fn told_stop(line: Line<'_>) -> Option<(u64, Image)>
    ensures { result ≡ told_stop (event_of line.entry) }
{
    match line {
        Line::Stop(call, image) => Some((call, image)),
        _ => None,
    }
}

impl Life {
    /// A life without events; it takes no memory.
    pub fn new(alloc: Global) -> Life
        ensures { result ≡ [] }
    {
        Life {
            marks: Vec::new(alloc),
            numbers: Vec::new(alloc),
            pieces: Pieces::new(alloc),
        }
    }

    /// Adds an event.
    ///
    /// # Errors
    /// `AllocError` for want of memory; then the events are as before.
    pub fn push(&mut self, event: Event) -> Result<(), AllocError>
        ensures ok { OnOk result (self.new ≡ self.old ++ event ∷ []) }
        ensures err { OnErr result (self.new ≡ self.old) }
    {
        match event {
            Event::Stop(call, image) => self.push_number(Mark::Stop(image), call),
            Event::At(ms) => self.push_number(Mark::At, ms),
            Event::Tick => self.push_mark(Mark::Tick),
            Event::Opened(side) => self.push_mark(Mark::Opened(side)),
            Event::Closed(side) => self.push_mark(Mark::Closed(side)),
            Event::Text(side, bytes) => self.push_piece(Mark::Text(side), bytes.as_slice()),
            Event::Frame(side, body) => self.push_piece(Mark::Frame(side), body.as_slice()),
        }
    }

    // Adds an event that is its mark alone.
    fn push_mark(&mut self, mark: Mark) -> Result<(), AllocError>
        requires { AreWhole (mark ∷ []) [] [] }
        ensures ok { OnOk result (self.new ≡ self.old ++ events_of (mark ∷ []) [] []) }
        ensures err { OnErr result (self.new ≡ self.old) }
    {
        self.marks.push(mark)?;
        Ok(())
    }

    // Adds an event of this number.
    fn push_number(&mut self, mark: Mark, number: u64) -> Result<(), AllocError>
        requires { AreWhole (mark ∷ []) (number ∷ []) [] }
        ensures ok { OnOk result (self.new ≡ self.old ++ events_of (mark ∷ []) (number ∷ []) []) }
        ensures err { OnErr result (self.new ≡ self.old) }
    {
        self.marks.reserve(1)?;
        self.numbers.push(number)?;
        self.marks.push_reserved(mark);
        Ok(())
    }

    // Adds an event of these bytes.
    fn push_piece(&mut self, mark: Mark, piece: &[u8]) -> Result<(), AllocError>
        requires { AreWhole (mark ∷ []) [] (piece.now ∷ []) }
        ensures ok { OnOk result (self.new ≡
            self.old ++ events_of (mark ∷ []) [] (piece.now ∷ [])) }
        ensures err { OnErr result (self.new ≡ self.old) }
    {
        self.marks.reserve(1)?;
        self.pieces.push(piece)?;
        self.marks.push_reserved(mark);
        Ok(())
    }

    /// The events, from the first on; it takes no memory.
    pub fn lines(&self) -> Lines<'_>
        ensures { result ≡ self.now }
    {
        Lines {
            marks: &self.marks,
            numbers: &self.numbers,
            pieces: self.pieces.left(),
        }
    }

    /// How many events there are.
    #[tactic(auto, using(crate::proofs::Kept::as_many))]
    pub fn len(&self) -> usize
        ensures { result ≡ length self.now }
    {
        self.marks.len()
    }

    /// The stop that its first line tells: the number of the first write or sync that fails, and
    /// the image that is left. It takes no memory.
    pub fn stop(&self) -> Option<(u64, Image)>
        ensures { result ≡ stop_of self.now }
    {
        told_stop(self.lines().next()?)
    }
}

impl<'a> Lines<'a> {
    /// The next event, which is then behind.
    pub fn next(&mut self) -> Option<Line<'a>>
        ensures some { IfSome result (λ line. self.old ≡ event_of line ∷ self.new) }
        ensures none { IsNone result → self.old ≡ [] }
        ensures stays { IsNone result → self.new ≡ [] }
    {
        let (mark, marks) = self.marks.split_first()?;
        self.marks = marks;
        Some(line_of(*mark, &mut self.numbers, &mut self.pieces))
    }
}

/// The lives of a capture, seen as their list.
#[derive(Debug, Drop)]
pub struct Lives {
    lives: Vec<Life>,
}

impl Model for Lives {
    ghost use Rattle.std.specs.Prelude.{List};
    ghost use Rattle.capture_text.specs.declared.capture.Event.{Event};

    ghost Value = { List (List Event) };

    ghost view = { λ l. l.lives.items };
}

impl Lives {
    /// No life; it takes no memory.
    pub fn new(alloc: Global) -> Lives
        ensures { result ≡ [] }
    {
        Lives {
            lives: Vec::new(alloc),
        }
    }

    /// Adds a life.
    ///
    /// # Errors
    /// `AllocError` for want of memory; then the lives are as before.
    pub fn push(&mut self, life: Life) -> Result<(), AllocError>
        ensures ok { OnOk result (self.new ≡ self.old ++ life ∷ []) }
        ensures err { OnErr result (self.new ≡ self.old) }
    {
        self.lives.push(life)?;
        Ok(())
    }

    /// The lives, in order; it takes no memory.
    pub fn as_slice(&self) -> &[Life]
        ensures { result.now ≡ self.now }
    {
        &self.lives
    }
}

/// A capture: whose sessions they are, and what came in each life of the gateway.
#[derive(Debug, Drop)]
pub struct Capture {
    /// The CompIDs of both sessions.
    pub names: Names,
    /// HeartBtInt(108) to the venue, from 0 to 3,600 seconds.
    pub heart: u32,
    /// The minute of the UTC day at which a session day begins, from 0 to 1,439; none where no day
    /// ends.
    pub reset: Option<u32>,
    /// At least one life.
    pub lives: Lives,
}
