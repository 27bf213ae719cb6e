//! What was said on a connection, as far as it tells how the connection ended.

ghost use Rattle.std.specs.Prelude.{◌≡◌, ◌++◌, [], OnOk, OnErr, IfOk, None, true, false};
ghost use Rattle.std.specs.Option.{option_map};
ghost use Rattle.edge_waits.specs.Said.{logout_text};
ghost use Rattle.edge_waits.specs.Fields.{or_else};
ghost use Rattle.edge_waits.specs.Talk.{heard_next, link_end_by, link_end_of, low_of, low_said};
ghost use Rattle.edge_waits.specs.Talk.{says_one, begins_day, began_next, late_since};
ghost use Rattle.edge_waits.specs.Why.{why_text};

use crate::fields::value_of;
use crate::said::{logout_text, too_low};
use crate::why::put_why;
use edge_logic::{LinkEnd, TooLow};
use field_groups::number_in;
use std::alloc::{AllocError, Global};
use std::marker::Model;

/// So many bytes that came before a session stood are kept at least.
const KEPT: usize = 1_024;

/// What came on a connection before a session stood, what the gateway said last by a Logout,
/// whether a session stood, whether the peer found the gateway's number too low, and when the
/// gateway began the day on it.
#[derive(Drop)]
pub struct Talk {
    alloc: Global,
    heard: Vec<u8>,
    farewell: Option<Vec<u8>>,
    is_active: bool,
    own_low: Option<TooLow>,
    /// In milliseconds of the clock that never goes back.
    began: Option<u64>,
}

impl Model for Talk {
    ghost use Rattle.std.specs.Option.{option_map};
    ghost use Rattle.edge_waits.specs.Talk.{Spoken};

    ghost Value = { Spoken };

    ghost view = { λ t. record {
      heard = t.heard.items;
      farewell = option_map (λ text. text.items) t.farewell;
      active = t.is_active;
      own_low = t.own_low;
      began = t.began;
    } };
}

// A copy of a text.
fn copy(alloc: Global, text: &[u8]) -> Result<Vec<u8>, AllocError>
    ensures { IfOk result (λ copy. copy.items ≡ text.now) }
{
    let mut copy = Vec::new(alloc);
    copy.extend_from_slice(text)?;
    Ok(copy)
}

// How a session ended behind a Logout with this text.
fn link_end_by(text: &[u8]) -> LinkEnd
    ensures { result ≡ link_end_by text.now }
{
    match text {
        [] => LinkEnd::InOrder,
        _ => LinkEnd::Active,
    }
}

// Whether a field says number 1.
fn says_one(value: Option<&[u8]>) -> bool
    ensures { result ≡ says_one (option_map (λ value. value.now) value.entry) }
{
    match value {
        Some(value) => match number_in(value) {
            Some(number) => number == 1,
            None => false,
        },
        None => false,
    }
}

// Whether the gateway tells by this frame that it has taken nothing of the peer's day yet.
#[tactic(auto, unfolding(crate::specs::Talk::begins_day))]
fn begins_day(frame: &[u8]) -> bool
    ensures { result ≡ begins_day frame.now }
{
    match value_of(b"35=", frame) {
        Some(b"A") => says_one(value_of(b"34=", frame)),
        Some(b"2") => says_one(value_of(b"7=", frame)),
        _ => false,
    }
}

impl Talk {
    /// Nothing was said.
    pub fn new(alloc: Global) -> Talk
        ensures { result ≡ record {
          heard = [];
          farewell = None;
          active = false;
          own_low = None;
          began = None;
        } }
    {
        Talk {
            alloc,
            heard: Vec::new(alloc),
            farewell: None,
            is_active: false,
            own_low: None,
            began: None,
        }
    }

    /// Whether a session stood.
    pub fn is_active(&self) -> bool
        ensures { result ≡ self.now.active }
    {
        self.is_active
    }

    /// A session stands.
    pub fn stand(&mut self)
        ensures { self.new ≡ record self.old { active = true } }
    {
        self.is_active = true;
    }

    /// These bytes came. They are kept before a session stands, until 1,024 are.
    ///
    /// # Errors
    /// For want of memory alone.
    pub fn hear(&mut self, bytes: &[u8]) -> Result<(), AllocError>
        ensures ok { OnOk result (self.new
            ≡ record self.old { heard = heard_next self.old bytes.now }) }
        ensures err { OnErr result (self.new ≡ self.old) }
    {
        if self.is_active || self.heard.len() >= KEPT {
            return Ok(());
        }
        self.heard.extend_from_slice(bytes)?;
        Ok(())
    }

    // The gateway sends this frame, which may begin the day.
    fn begin(&mut self, frame: &[u8], now: u64)
        ensures { self.new ≡ record self.old { began = began_next self.old frame.now now } }
    {
        if begins_day(frame) {
            self.began = Some(now);
        }
    }

    /// The gateway sends this frame, at a moment in milliseconds of the clock that never goes back.
    ///
    /// # Errors
    /// For want of memory alone.
    pub fn say(&mut self, frame: &[u8], now: u64) -> Result<(), AllocError>
        ensures ok { OnOk result (self.new ≡ record self.old {
          farewell = or_else (logout_text frame.now) self.old.farewell;
          began = began_next self.old frame.now now;
        }) }
        ensures err { OnErr result (self.new
            ≡ record self.old { began = began_next self.old frame.now now }) }
    {
        self.begin(frame, now);
        if let Some(text) = logout_text(frame) {
            self.farewell = Some(copy(self.alloc, text)?);
        }
        Ok(())
    }

    /// The numbers that the gateway named, where it said that the peer's number is too low.
    pub fn too_low(&self) -> Option<TooLow>
        ensures { result ≡ low_of self.now }
    {
        match &self.farewell {
            Some(text) => too_low(text.as_slice()),
            None => None,
        }
    }

    /// These bytes came where a session stands.
    pub fn note(&mut self, bytes: &[u8])
        ensures { self.new ≡ record self.old { own_low = low_said bytes.now } }
    {
        self.own_low = match logout_text(bytes) {
            Some(text) => too_low(text),
            None => None,
        };
    }

    /// The numbers that the peer named, where what came last is a Logout by which it finds the
    /// gateway's number too low.
    pub fn own_too_low(&self) -> Option<TooLow>
        ensures { result ≡ self.now.own_low }
    {
        self.own_low
    }

    /// Since when the peer may be in the day before, in milliseconds of the clock that never goes
    /// back: the gateway began the day, and the peer did not begin with number 1. `was_closed` says
    /// that it closed the connection in order.
    pub fn late_since(&self, was_closed: bool) -> Option<u64>
        ensures { result ≡ late_since self.now was_closed }
    {
        if says_one(value_of(b"34=", &self.heard)) {
            return None;
        }
        if was_closed || !self.heard.is_empty() {
            return self.began;
        }
        None
    }

    /// How the connection ended, for the venue's next try. `was_closed` says that the venue closed
    /// it in order.
    pub fn link_end(&self, was_closed: bool) -> LinkEnd
        ensures { result ≡ link_end_of self.now was_closed }
    {
        if self.is_active {
            match &self.farewell {
                Some(text) => link_end_by(text.as_slice()),
                None => LinkEnd::Active,
            }
        } else if was_closed || !self.heard.is_empty() {
            LinkEnd::Refused
        } else {
            LinkEnd::Unheard
        }
    }

    /// Appends why the connection ended before a session stood. `now` is the moment, in
    /// milliseconds since 1970-01-01 00:00 UTC.
    ///
    /// # Errors
    /// For want of memory alone; then nothing is appended.
    pub fn put_why(&self, out: &mut Vec<u8>, now: u64) -> Result<(), AllocError>
        ensures ok { OnOk result (out.new.items
            ≡ out.old.items ++ why_text self.now.heard self.now.farewell now) }
        ensures err { OnErr result (out.new.items ≡ out.old.items) }
    {
        match &self.farewell {
            Some(text) => put_why(out, &self.heard, Some(text.as_slice()), now),
            None => put_why(out, &self.heard, None, now),
        }
    }
}
