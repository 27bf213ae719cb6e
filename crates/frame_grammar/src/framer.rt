//! Cutting a stream into its pieces, over one buffer.
ghost use Rattle.std.specs.Prelude.{◌≡◌, ◌≢◌, ◌+◌, ◌-◌, ◌<◌, ◌≤◌, ◌++◌, [], List, ℕ, IfOk, IfSome};
ghost use Rattle.std.specs.Prelude.{Some, None, MatchOption, length, min, take, drop, slice_range};
ghost use Rattle.frame_grammar.specs.Cut.{Piece, Cut, start_in};
ghost use Rattle.frame_grammar.specs.Held.{fresh, past, pending, room, lost_by, found_by};
ghost use Rattle.frame_grammar.specs.Framer.{StandsFor, Answers, HoldsPart};
ghost use Rattle.frame_grammar.specs.Places.{EndsIn, place_after};

use crate::buffer::{Buffer, CAPACITY};
use crate::pieces::Lost;
use crate::scan::{Front, Stop, scan_front};
use crate::{Kind, Next, Rest, Span};
use memchr::memmem;
use std::alloc::{AllocError, Global};
use std::marker::Model;

/// What each piece after a garbled one begins with.
const START: &[u8] = b"8=FIX";

/// The room that there is after `new`, `restart` and `More`, in bytes.
pub const LEAST_ROOM: usize = 8000;

/// Cuts a stream of bytes into frames and garbled pieces, whatever the parts in which it comes.
///
/// It has one buffer of 16,384 bytes, and keeps no history. Contracts see what it holds as a
/// `Held`: which streams and answered pieces that stands for is `StandsFor`, and the clauses of
/// each call hold for every such stream and list.
///
/// Fed in parts of 4,096 bytes, it looks at each byte a small number of times and moves it a small
/// number of times, whatever comes: a frame is scanned once in each part that it comes in, a sum
/// looks at no more than 512 bytes, and what is garbled is dropped as it is searched.
#[derive(Drop)]
pub struct Framer {
    kind: Kind,
    buffer: Buffer,
    at: u64,
    lost: Option<Lost>,
}

impl Model for Framer {
    ghost use Rattle.std.specs.Prelude.{◌≤◌, length};
    ghost use Rattle.frame_grammar.specs.Held.{Held};
    ghost use Rattle.frame_grammar.specs.declared.buffer.TheConstants.{CAPACITY};

    ghost Value = { Held };

    ghost view = { λ f. record {
      kind = f.kind;
      read = f.buffer.read;
      unread = f.buffer.unread;
      at = f.at;
      lost = f.lost;
    } };

    ghost invariant = { λ f. length f.buffer.unread ≤ CAPACITY };
}

impl Framer {
    /// A framer that nothing was fed to. It takes its memory here, and no more later.
    pub fn new(alloc: Global, kind: Kind) -> Result<Framer, AllocError>
        ensures fresh { IfOk result (λ framer. framer ≡ fresh kind) }
        ensures stands { IfOk result (λ framer. StandsFor framer [] []) }
    {
        Ok(Framer {
            kind,
            buffer: Buffer::new(alloc)?,
            at: 0,
            lost: None,
        })
    }

    /// Makes the framer as new.
    pub fn restart(&mut self)
        ensures fresh { self.new ≡ fresh self.old.kind }
        ensures stands { StandsFor self.new [] [] }
    {
        self.buffer.clear();
        self.at = 0;
        self.lost = None;
    }

    /// Appends a front of the piece to the stream, and answers how many bytes: all of them where
    /// there is room.
    ///
    /// There is room for 16,384 bytes less those that are unread; after `new`, `restart` and `More`
    /// for 8,000 at least.
    pub fn feed(&mut self, piece: &[u8]) -> usize
        ensures taken { result ≡ min (length piece.now) (room self.old) }
        // What was read may have left the buffer.
        ensures same { self.new ≡ record self.old {
          read = self.new.read;
          unread = self.old.unread ++ take result piece.now;
        } }
        ensures stands { (stream : List ℕ) (answered : List Piece) →
            StandsFor self.old stream answered →
            StandsFor self.new (stream ++ take result piece.now) answered }
    {
        let count = piece.len().min(self.room());
        self.append(&piece[..count]);
        count
    }

    // How many bytes the framer takes.
    fn room(&self) -> usize
        ensures { result ≡ room self.now }
    {
        CAPACITY - self.buffer.unread().len()
    }

    fn append(&mut self, bytes: &[u8])
        requires { length bytes.now ≤ room self.old }
        ensures { self.new ≡ record self.old {
          read = self.new.read;
          unread = self.old.unread ++ bytes.now;
        } }
    {
        self.buffer.append(bytes);
    }

    // Goes past some of the unread bytes.
    fn advance(&mut self, count: usize)
        requires { count ≤ length self.old.unread }
        ensures { self.new ≡ past count self.old }
    {
        self.buffer.advance(count);
        self.at = self.at.saturating_add(count as u64);
    }

    fn set_lost(&mut self, lost: Option<Lost>)
        ensures { self.new ≡ record self.old { lost = lost } }
    {
        self.lost = lost;
    }

    /// The next piece of the stream, or `More` exactly where each piece that has come whole was
    /// answered.
    pub fn next(&mut self) -> Next
        ensures answers { (stream : List ℕ) (answered : List Piece) →
            StandsFor self.old stream answered →
            Answers result self.new stream answered }
        ensures kind { self.new.kind ≡ self.old.kind }
        ensures part { HoldsPart result self.new }
        ensures room { result ≡ Next.More → LEAST_ROOM ≤ room self.new }
        ensures progress { result ≢ Next.More → pending self.new < pending self.old }
    {
        if let Some(lost) = self.lost {
            return self.next_garbled(lost, 0);
        }
        match scan_front(self.kind, &self.buffer) {
            Ok(front) => self.next_frame(front),
            Err(Stop::More) => Next::More,
            Err(Stop::Garbled(cause)) => {
                let at = self.at;
                self.next_garbled(
                    Lost {
                        at,
                        cause,
                        dropped: 0,
                    },
                    1,
                )
            }
        }
    }

    // A frame begins the unread bytes.
    fn next_frame(&mut self, front: Front) -> Next
        requires body { front.body.start + front.body.len ≤ front.end }
        requires within { front.end ≤ length self.old.unread }
        ensures answer { result ≡ Next.Frame self.old.at front.end
            (record { start = length self.old.read + front.body.start; len = front.body.len }) }
        ensures after { self.new ≡ past front.end self.old }
    {
        let at = self.at;
        let body = Span {
            start: self.buffer.read().len() + front.body.start,
            len: front.body.len,
        };
        self.advance(front.end);
        Next::Frame {
            at,
            len: front.end as u32,
            body,
        }
    }

    // The unread bytes go on with a garbled piece, which does not end in the first `from` of them.
    // Of a piece whose end has not come all is dropped but what may be the front of `8=FIX`.
    fn next_garbled(&mut self, lost: Lost, from: usize) -> Next
        requires { from ≤ length self.old.unread }
        ensures ended { MatchOption (start_in (drop from self.old.unread))
            (result ≡ Next.More) (λ k. result ≡ found_by lost (from + k)) }
        ensures after { MatchOption (start_in (drop from self.old.unread))
            (self.new ≡ lost_by lost
            (length self.old.unread - min 4 (length self.old.unread - from)) self.old)
            (λ k. self.new ≡ record (past (from + k) self.old) { lost = None }) }
    {
        let unread = self.buffer.unread();
        match find_start(&unread[from..]) {
            Some(place) => {
                let count = from + place;
                self.advance(count);
                self.set_lost(None);
                Next::Garbled {
                    at: lost.at,
                    len: lost.dropped.saturating_add(count as u64),
                    cause: lost.cause,
                }
            }
            None => {
                let kept = (unread.len() - from).min(START.len() - 1);
                let count = unread.len() - kept;
                self.advance(count);
                self.set_lost(Some(Lost {
                    dropped: lost.dropped.saturating_add(count as u64),
                    ..lost
                }));
                Next::More
            }
        }
    }

    /// The bytes of a part of what was read, as the body of the last `Frame` until the next `feed`.
    pub fn part(&self, span: Span) -> &[u8]
        requires { span.start + span.len ≤ length self.now.read }
        ensures { result.now ≡ slice_range self.now.read span.start (span.start + span.len) }
    {
        &self.buffer.read()[span.start..span.start + span.len]
    }

    /// How the stream ends if nothing follows, once `next` has answered `More`.
    pub fn finish(&self) -> Rest
        ensures { (stream rest : List ℕ) (answered : List Piece) →
            StandsFor self.now stream answered → Cut self.now.kind stream answered rest →
            EndsIn result self.now.kind (place_after answered) rest }
    {
        let unread = self.buffer.unread();
        if let Some(lost) = self.lost {
            return Rest::Garbled {
                at: lost.at,
                len: lost.dropped.saturating_add(unread.len() as u64),
                cause: lost.cause,
            };
        }
        if unread.is_empty() {
            return Rest::Clean;
        }
        match scan_front(self.kind, &self.buffer) {
            Err(Stop::Garbled(cause)) => Rest::Garbled {
                at: self.at,
                len: unread.len() as u64,
                cause,
            },
            Err(Stop::More) => self.inside(),
            Ok(_) => self.inside(),
        }
    }

    // The stream ends inside a frame, of which the unread bytes came.
    fn inside(&self) -> Rest
        ensures { result ≡ Rest.Inside self.now.at (length self.now.unread) }
    {
        Rest::Inside {
            at: self.at,
            len: self.buffer.unread().len() as u32,
        }
    }
}

// The first place where `8=FIX` stands.
fn find_start(bytes: &[u8]) -> Option<usize>
    ensures value { result ≡ start_in bytes.now }
    ensures within { IfSome result (λ place. place + 5 ≤ length bytes.now) }
{
    memmem::find(bytes, START)
}
