//! What an entry of the journal says.

ghost use Rattle.std.specs.Prelude.{◌≡◌, ◌<◌, ◌≤◌, ◌++◌, [], ◌∷◌, length, IfOk, OnOk, OnErr};

use crate::{EntryRef, MAX_OUTS, OutRef, OutRefs, TookRef};
use order_meaning::{Bytes, Side};
use std::alloc::{AllocError, Global};
use std::marker::Model;

/// A message that was taken.
#[derive(Debug, Drop)]
pub struct Took {
    /// Whose message it is.
    pub side: Side,
    /// MsgSeqNum(34), from 1 to 999,999,999.
    pub number: u32,
    /// The body, from `35=` on, of at most 8,192 bytes.
    pub raw: Bytes,
}

/// A message that was given out.
#[derive(Debug, Drop)]
pub struct Out {
    /// To whom it goes.
    pub side: Side,
    /// MsgSeqNum(34), from 1 to 999,999,999.
    pub number: u32,
    /// Whether it is administrative, so that a gap fill stands for it when it is asked for again.
    pub admin: bool,
    /// Whether it has PossResend(97) with `Y`.
    pub resend: bool,
    /// MsgType(35), of 1 to 8 bytes.
    pub msg_type: Bytes,
    /// The fields behind the header, of at most 7,936 bytes.
    pub content: Bytes,
}

impl Took {
    /// The same where it stands; it takes no memory.
    pub fn as_ref(&self) -> TookRef<'_>
        ensures { result ≡ self.now }
    {
        TookRef {
            side: self.side,
            number: self.number,
            raw: self.raw.as_slice(),
        }
    }
}

impl Out {
    /// The same where it stands; it takes no memory.
    pub fn as_ref(&self) -> OutRef<'_>
        ensures { result ≡ self.now }
    {
        OutRef {
            side: self.side,
            number: self.number,
            admin: self.admin,
            resend: self.resend,
            msg_type: self.msg_type.as_slice(),
            content: self.content.as_slice(),
        }
    }
}

/// At most four messages that were given out, in order, seen as their list.
#[derive(Debug, Drop)]
pub struct Outs {
    outs: Vec<Out>,
}

impl Model for Outs {
    ghost use Rattle.std.specs.Prelude.{List, ◌≤◌, length};
    ghost use Rattle.pair_entries.specs.declared.entry.Out.{Out};

    ghost Value = { List Out };

    ghost view = { λ o. o.outs.items };

    ghost invariant = { λ o. length o.outs.items ≤ 4 };
}

impl Outs {
    /// No message; it takes no memory.
    pub fn new(alloc: Global) -> Outs
        ensures { result ≡ [] }
    {
        Outs {
            outs: Vec::new(alloc),
        }
    }

    /// Adds a message behind fewer than four.
    ///
    /// # Errors
    /// `AllocError` for want of memory; then the messages are as before.
    pub fn push(&mut self, out: Out) -> Result<(), AllocError>
        requires { length self.old < MAX_OUTS }
        ensures ok { OnOk result (self.new ≡ self.old ++ out ∷ []) }
        ensures err { OnErr result (self.new ≡ self.old) }
    {
        self.outs.push(out)?;
        Ok(())
    }

    /// The same where they stand; it takes no memory.
    pub fn as_refs(&self) -> OutRefs<'_>
        ensures { result ≡ self.now }
    {
        let mut refs = OutRefs::new();
        for out in self.outs.as_slice() {
            refs.push(out.as_ref());
        }
        refs
    }

    /// The messages, in order; it takes no memory.
    pub fn as_slice(&self) -> &[Out]
        ensures outs { result.now ≡ self.now }
        ensures few { length self.now ≤ MAX_OUTS }
    {
        &self.outs
    }
}

/// What one event changed.
#[derive(Debug, Drop)]
pub struct Entry {
    /// When it was, in milliseconds since 1970-01-01 00:00 UTC; the first moment of what was given
    /// out.
    pub at: u64,
    /// Whether a session day begins with it: then nothing was taken and nothing given out, and each
    /// next number is 1.
    pub reset: bool,
    /// The message that was taken, if one was.
    pub took: Option<Took>,
    /// The next numbers after it: client in, client out, venue in, venue out, each from 1 to
    /// 1,000,000,000.
    pub next: (u32, u32, u32, u32),
    /// The messages that were given out.
    pub outs: Outs,
}

impl Entry {
    /// The same where it stands; it takes no memory.
    pub fn as_ref(&self) -> EntryRef<'_>
        ensures { result ≡ self.now }
    {
        let took = match &self.took {
            Some(took) => Some(took.as_ref()),
            None => None,
        };
        EntryRef {
            at: self.at,
            reset: self.reset,
            took,
            next: self.next,
            outs: self.outs.as_refs(),
        }
    }

    /// A second one of the same value.
    ///
    /// # Errors
    /// `AllocError` for want of memory.
    pub fn duplicate(&self) -> Result<Entry, AllocError>
        ensures { IfOk result (λ entry. entry ≡ self.now) }
    {
        self.as_ref().to_entry(*self.outs.outs.allocator())
    }
}
