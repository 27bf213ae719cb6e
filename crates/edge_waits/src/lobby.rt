//! Who waits to be the client: whose first message is a whole Logon, and who has to go.

ghost use Rattle.std.specs.Prelude.{◌≡◌, ◌<◌, ◌==◌, ◌++◌, ◌∷◌, [], IfOk, length, is_some, nat_le};
ghost use Rattle.std.specs.Prelude.{◌≤◌, OnErr, take, vec_capacity, vec_len};
ghost use Rattle.std.specs.Option.{option_to_list};
ghost use Rattle.frame_grammar.specs.Found.{found};
ghost use Rattle.frame_grammar.specs.declared.buffer.TheConstants.{CAPACITY};
ghost use Rattle.edge_waits.specs.Lobby.{first_by, first_of, first_left, standing_of};
ghost use Rattle.edge_waits.specs.Lobby.{garble_text, stranger_text};

use frame_grammar::{Framer, Garble, Next, Rest};
use std::alloc::{AllocError, Global};
use std::marker::Model;

/// How many connections wait for their Logon at most.
pub const LOBBY: usize = 8;

/// How long one waits at most, in milliseconds.
const PATIENCE: u64 = 10_000;

/// Past so many bytes that are no whole message a connection is closed.
const LONGEST: usize = 8_192;

/// What a connection begins with.
#[derive(Clone, Copy, Debug, PartialEq, Eq)]
pub enum First {
    /// The front of a message.
    More,
    /// Garbled bytes, which break this rule of frames.
    Garbled(Garble),
    /// A whole Logon.
    Logon,
    /// Another whole message.
    Other,
}

/// Why a connection is closed that is no client's.
#[derive(Clone, Copy, Debug, PartialEq, Eq)]
pub enum Stranger {
    /// Its Logon did not come in 10 s.
    Late,
    /// A ninth came, and it had waited longest.
    Crowded,
    /// It was closed from the other side.
    Left,
    /// Its first message was no Logon.
    NoLogon,
    /// Garbled bytes came first.
    Garbled(Garble),
    /// So many bytes came and no message.
    TooLong,
}

/// How a connection stands that waits.
#[derive(Clone, Copy, Debug, PartialEq, Eq)]
pub enum Standing {
    /// It goes on waiting.
    Waits,
    /// It has sent a whole Logon, and may hold the client's place.
    Holds,
    /// It is closed.
    Goes(Stranger),
}

// Which field is wrong in garbled bytes.
fn garble_text(cause: Garble) -> &'static [u8]
    ensures { result.now ≡ garble_text cause }
{
    match cause {
        Garble::BeginString => b"garbled bytes came first: 8 is not as agreed",
        Garble::LengthField => b"garbled bytes came first: 9 is no length",
        Garble::TooLong(_) => b"garbled bytes came first: 9 is over 8,192",
        Garble::TypeField => b"garbled bytes came first: 35 is missing",
        Garble::Trailer => b"garbled bytes came first: 10 is not where 9 says",
        Garble::Sum => b"garbled bytes came first: 10 is not the sum",
    }
}

/// Why a connection is closed that is no client's.
pub(crate) fn stranger_text(stranger: Stranger) -> &'static [u8]
    ensures { result.now ≡ stranger_text stranger }
{
    match stranger {
        Stranger::Late => b"no Logon came in 10 s",
        Stranger::Crowded => b"eight others wait for their Logon",
        Stranger::Left => b"it went before its Logon",
        Stranger::NoLogon => b"no Logon came first",
        Stranger::Garbled(cause) => garble_text(cause),
        Stranger::TooLong => b"no message came in 8,192 bytes",
    }
}

/// How a connection stands, by its first piece, how many bytes came, whether the other side closed
/// it, and how many milliseconds it has waited.
pub fn standing_of(first: First, len: usize, is_closed: bool, waited: u64) -> Standing
    ensures { result ≡ standing_of first len is_closed waited }
{
    match first {
        First::Logon => Standing::Holds,
        First::Other => Standing::Goes(Stranger::NoLogon),
        First::Garbled(cause) => Standing::Goes(Stranger::Garbled(cause)),
        First::More => {
            if is_closed {
                Standing::Goes(Stranger::Left)
            } else if len >= LONGEST {
                Standing::Goes(Stranger::TooLong)
            } else if waited >= PATIENCE {
                Standing::Goes(Stranger::Late)
            } else {
                Standing::Waits
            }
        }
    }
}

// What a whole message is, by its body.
fn first_by(body: &[u8]) -> First
    ensures { result ≡ first_by body.now }
{
    if body.starts_with(b"35=A\x01") {
        First::Logon
    } else {
        First::Other
    }
}

// What a stream begins with that ends so, of which no piece has come whole.
fn first_left(rest: Rest) -> First
    ensures { result ≡ first_left rest }
{
    match rest {
        Rest::Clean | Rest::Inside { .. } => First::More,
        Rest::Garbled { cause, .. } => First::Garbled(cause),
    }
}

/// What these bytes begin with, of which the first 16,384 are looked at. The framer is begun anew.
pub fn first_in(framer: &mut Framer, bytes: &[u8]) -> First
    ensures first { result ≡ first_of (found framer.old.kind (take CAPACITY bytes.now)) }
    ensures kind { framer.new.kind ≡ framer.old.kind }
{
    framer.restart();
    framer.feed(bytes);
    match framer.next() {
        Next::Frame { body, .. } => first_by(framer.part(body)),
        Next::Garbled { cause, .. } => First::Garbled(cause),
        Next::More => first_left(framer.finish()),
    }
}

// Takes out the first, where there are so many.
#[tactic(auto, using(crate::proofs::Parts::first_out))]
fn take_first<V: Drop>(visitors: &mut Vec<V>, enough: usize) -> Option<V>
    requires { 1 ≤ enough }
    ensures one { visitors.old.items ≡ option_to_list result ++ visitors.new.items }
    ensures some { is_some result ≡ nat_le enough (vec_len visitors.old) }
    ensures capacity { vec_capacity visitors.new ≡ vec_capacity visitors.old }
{
    if visitors.len() >= enough {
        return Some(visitors.remove(0));
    }
    None
}

/// Those who wait, at most eight, in the order in which they came.
#[derive(Drop)]
pub struct Lobby<V: Drop> {
    visitors: Vec<V>,
}

impl<V: Drop> Model for Lobby<V> {
    ghost use Rattle.std.specs.Prelude.{List, ◌≤◌, vec_len};

    ghost Value = { List V };

    ghost view = { λ lobby. lobby.visitors.items };

    ghost invariant = { λ lobby. vec_len lobby.visitors ≤ 8 };
}

impl<V: Drop> Lobby<V> {
    /// Nobody waits.
    pub fn new(alloc: Global) -> Lobby<V>
        ensures { result ≡ [] }
    {
        Lobby {
            visitors: Vec::new(alloc),
        }
    }

    /// How many wait.
    pub fn len(&self) -> usize
        ensures value { result ≡ length self.now }
        ensures few { result ≤ LOBBY }
    {
        self.visitors.len()
    }

    /// Whether nobody waits.
    pub fn is_empty(&self) -> bool
        ensures { result ≡ (length self.now == 0) }
    {
        self.visitors.is_empty()
    }

    /// Takes out the one that has waited longest.
    pub fn take_oldest(&mut self) -> Option<V>
        ensures one { self.old ≡ option_to_list result ++ self.new }
        ensures some { is_some result ≡ nat_le 1 (length self.old) }
    {
        take_first(&mut self.visitors, 1)
    }

    /// Lets one more wait, and answers the one that has waited longest where eight wait already.
    ///
    /// # Errors
    /// For want of memory alone; then all wait as before, and the new one is dropped.
    pub fn admit(&mut self, visitor: V) -> Result<Option<V>, AllocError>
        ensures one { IfOk result (λ oldest.
            option_to_list oldest ++ self.new ≡ self.old ++ visitor ∷ []) }
        ensures eight { IfOk result (λ oldest. is_some oldest ≡ nat_le 8 (length self.old)) }
        ensures err { OnErr result (self.new ≡ self.old) }
    {
        self.visitors.reserve(1)?;
        let oldest = take_first(&mut self.visitors, LOBBY);
        self.visitors.push_reserved(visitor);
        Ok(oldest)
    }
}
