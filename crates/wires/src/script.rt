//! What a wire in memory gives, poll by poll.

ghost use Rattle.std.specs.Prelude.{◌≡◌, ◌<◌, ◌+◌, ◌^◌, ◌∷◌, [], length, min, take, drop, map};
ghost use Rattle.wires.specs.Wire.{Bytes, came_by, Fits};
ghost use Rattle.wires.specs.Script.{item_of, next_of, rest_of};
ghost use Rattle.wires.specs.Play.{bytes_ahead, cut, left_of};

use crate::Arrival;
use outside::fill;
use std::marker::Model;

/// What a poll of a wire in memory is to give. It gives `Nothing` for what may not come at its
/// place, and for bytes that are none.
#[derive(Debug, Drop)]
pub enum Script {
    /// Nothing new.
    Nothing,
    /// A connection, where there is none.
    Opened,
    /// Bytes on a connection, over as many polls as their buffers ask for.
    Bytes(Vec<u8>),
    /// The peer's end of a connection.
    Closed,
}

/// A script of which some was played, seen as what is left of it.
#[derive(Debug, Drop)]
pub(crate) struct Play {
    items: Vec<Script>,
    next: usize,
    // Of the next item, where it is of bytes.
    given: usize,
}

impl Model for Play {
    ghost use Rattle.std.specs.Prelude.{List};
    ghost use Rattle.wires.specs.Wire.{Came};
    ghost use Rattle.wires.specs.Play.{left_of};

    ghost Value = { List Came };

    ghost view = { λ p. left_of p.items.items p.next p.given };
}

/// What comes of these bytes, which are put at the front of the buffer.
fn arrive(within: bool, bytes: &[u8], buf: &mut [u8]) -> Arrival
    requires room { 0 < length buf.old }
    ensures came { came_by result buf.new ≡
        next_of within (length buf.old) (Bytes bytes.now ∷ []) }
    ensures fits { Fits result buf.new }
{
    if !within || bytes.is_empty() {
        return Arrival::Nothing;
    }
    Arrival::Bytes(fill(buf, bytes))
}

/// What comes of this item, of whose bytes so many were given.
fn give_item(within: bool, item: &Script, given: usize, buf: &mut [u8]) -> Arrival
    requires room { 0 < length buf.old }
    ensures came { came_by result buf.new ≡
        next_of within (length buf.old) (cut given (item_of item.now ∷ [])) }
    ensures fits { Fits result buf.new }
{
    match item {
        Script::Bytes(bytes) => arrive(within, bytes.get(given..).unwrap_or(&[]), buf),
        Script::Opened if !within => Arrival::Opened,
        Script::Closed if within => Arrival::Closed,
        _ => Arrival::Nothing,
    }
}

/// How many bytes are left of this item, where it is of bytes, of which so many were given.
fn item_left(item: &Script, given: usize) -> usize
    ensures count { result ≡ bytes_ahead (cut given (item_of item.now ∷ [])) }
    ensures bound { 0 < result → given + result < 2 ^ 64 }
{
    match item {
        Script::Bytes(bytes) => bytes.len().saturating_sub(given),
        _ => 0,
    }
}

/// How many bytes are left of the next item, where it is of bytes.
#[tactic(auto, using(crate::proofs::Played::looking))]
fn bytes_left(items: &[Script], next: usize, given: usize) -> usize
    ensures count { result ≡ bytes_ahead (left_of items.now next given) }
    ensures bound { 0 < result → given + result < 2 ^ 64 }
{
    match items.get(next) {
        Some(item) => item_left(item, given),
        None => 0,
    }
}

impl Play {
    /// All of a script.
    pub(crate) fn new(items: Vec<Script>) -> Play
        ensures { result ≡ map item_of items.items }
    {
        Play {
            items,
            next: 0,
            given: 0,
        }
    }

    /// What comes next within a connection, or between two. Bytes are put at the front of `buf`.
    #[tactic(auto, using(crate::proofs::Played::looking))]
    pub(crate) fn give(&self, within: bool, buf: &mut [u8]) -> Arrival
        requires room { 0 < length buf.old }
        ensures came { came_by result buf.new ≡ next_of within (length buf.old) self.now }
        ensures fits { Fits result buf.new }
    {
        match self.items.get(self.next) {
            Some(item) => give_item(within, item, self.given, buf),
            None => Arrival::Nothing,
        }
    }

    /// Goes on behind what comes next where there is room for so many bytes.
    #[tactic(auto, using(crate::proofs::Played::going_on))]
    pub(crate) fn advance(&mut self, within: bool, room: usize)
        ensures { self.new ≡ rest_of within room self.old }
    {
        if within && room < bytes_left(&self.items, self.next, self.given) {
            self.pass_bytes(room);
        } else {
            self.pass_item();
        }
    }

    // Goes on by so many bytes of the next item, which has more.
    #[tactic(auto, using(crate::proofs::Played::cut_more))]
    fn pass_bytes(&mut self, count: usize)
        requires more { count < bytes_ahead self.old }
        ensures { self.new ≡ cut count self.old }
    {
        if count < bytes_left(&self.items, self.next, self.given) {
            self.given += count;
        }
    }

    // Goes on behind the next item, where there is one.
    #[tactic(auto, using(crate::proofs::Played::passing))]
    fn pass_item(&mut self)
        ensures { self.new ≡ drop 1 self.old }
    {
        self.given = 0;
        if self.next < self.items.len() {
            self.next += 1;
        }
    }
}
