//! An entry and its parts where their bytes stand, each seen as that part.

ghost use Rattle.std.specs.Prelude.{◌≡◌, ◌<◌, ◌≤◌, ◌++◌, [], ◌∷◌, length, IfOk};

use crate::{Entry, MAX_OUTS, Out, Outs, Took};
use arrayvec::ArrayVec;
use order_meaning::{Bytes, Side};
use std::alloc::{AllocError, Global};
use std::marker::Model;

/// A message that was taken, where its bytes stand, seen as that message.
#[derive(Drop)]
pub struct TookRef<'b> {
    /// Whose message it is.
    pub side: Side,
    /// MsgSeqNum(34), from 1 to 999,999,999.
    pub number: u32,
    /// The body, from `35=` on, of at most 8,192 bytes.
    pub raw: &'b [u8],
}

impl<'b> Model for TookRef<'b> {
    ghost use Rattle.pair_entries.specs.declared.entry.Took.{Took};

    ghost Value = { Took };

    ghost view = { λ t. record { side = t.side; number = t.number; raw = t.raw.now } };
}

/// A message that was given out, where its bytes stand, seen as that message.
#[derive(Drop)]
pub struct OutRef<'b> {
    /// To whom it goes.
    pub side: Side,
    /// MsgSeqNum(34), from 1 to 999,999,999.
    pub number: u32,
    /// Whether it is administrative.
    pub admin: bool,
    /// Whether it has PossResend(97) with `Y`.
    pub resend: bool,
    /// MsgType(35), of 1 to 8 bytes.
    pub msg_type: &'b [u8],
    /// The fields behind the header, of at most 7,936 bytes.
    pub content: &'b [u8],
}

impl<'b> Model for OutRef<'b> {
    ghost use Rattle.pair_entries.specs.declared.entry.Out.{Out};

    ghost Value = { Out };

    ghost view = { λ o. record {
      side = o.side;
      number = o.number;
      admin = o.admin;
      resend = o.resend;
      msg_type = o.msg_type.now;
      content = o.content.now;
    } };
}

/// At most four messages that were given out, where their bytes stand, seen as their list.
#[derive(Drop)]
pub struct OutRefs<'b> {
    outs: ArrayVec<OutRef<'b>, MAX_OUTS>,
}

impl<'b> Model for OutRefs<'b> {
    ghost use Rattle.std.specs.Prelude.{List};
    ghost use Rattle.pair_entries.specs.declared.entry.Out.{Out};

    ghost Value = { List Out };

    ghost view = { λ o. o.outs.items };
}

/// An entry where its bytes stand, seen as that entry.
#[derive(Drop)]
pub struct EntryRef<'b> {
    /// When it was, in milliseconds since 1970-01-01 00:00 UTC.
    pub at: u64,
    /// Whether a session day begins with it.
    pub reset: bool,
    /// The message that was taken, if one was.
    pub took: Option<TookRef<'b>>,
    /// The next numbers after it: client in, client out, venue in, venue out, each from 1 to
    /// 1,000,000,000.
    pub next: (u32, u32, u32, u32),
    /// The messages that were given out.
    pub outs: OutRefs<'b>,
}

impl<'b> Model for EntryRef<'b> {
    ghost use Rattle.pair_entries.specs.declared.entry.Entry.{Entry};

    ghost Value = { Entry };

    ghost view = { λ e. record {
      at = e.at;
      reset = e.reset;
      took = e.took;
      next = e.next;
      outs = e.outs;
    } };
}

impl<'b> TookRef<'b> {
    /// The message, copied.
    ///
    /// # Errors
    /// `AllocError` for want of memory.
    fn to_took(&self, alloc: Global) -> Result<Took, AllocError>
        ensures { IfOk result (λ took. took ≡ self.now) }
    {
        Ok(Took {
            side: self.side,
            number: self.number,
            raw: Bytes::copy(alloc, self.raw)?,
        })
    }
}

impl<'b> Default for OutRef<'b> {
    fn default() -> OutRef<'b> {
        OutRef {
            side: Side::Client,
            number: 0,
            admin: false,
            resend: false,
            msg_type: &[],
            content: &[],
        }
    }
}

impl<'b> OutRef<'b> {
    /// The message, copied.
    ///
    /// # Errors
    /// `AllocError` for want of memory.
    fn to_out(&self, alloc: Global) -> Result<Out, AllocError>
        ensures { IfOk result (λ out. out ≡ self.now) }
    {
        Ok(Out {
            side: self.side,
            number: self.number,
            admin: self.admin,
            resend: self.resend,
            msg_type: Bytes::copy(alloc, self.msg_type)?,
            content: Bytes::copy(alloc, self.content)?,
        })
    }
}

impl<'b> OutRefs<'b> {
    /// No message.
    pub(crate) fn new() -> OutRefs<'b>
        ensures { result ≡ [] }
    {
        OutRefs {
            outs: ArrayVec::new(),
        }
    }

    /// Adds a message behind fewer than four.
    pub(crate) fn push(&mut self, out: OutRef<'b>)
        requires { length self.old < MAX_OUTS }
        ensures { self.new ≡ self.old ++ out.entry ∷ [] }
    {
        self.outs.push(out);
    }

    /// The messages, in order.
    pub fn as_slice(&self) -> &[OutRef<'b>]
        ensures outs { result.now ≡ self.now }
        ensures few { length self.now ≤ MAX_OUTS }
    {
        self.outs.as_slice()
    }

    /// The messages, copied.
    ///
    /// # Errors
    /// `AllocError` for want of memory.
    fn to_outs(&self, alloc: Global) -> Result<Outs, AllocError>
        ensures { IfOk result (λ outs. outs ≡ self.now) }
    {
        let mut outs = Outs::new(alloc);
        for out in self.as_slice() {
            outs.push(out.to_out(alloc)?)?;
        }
        Ok(outs)
    }
}

impl<'b> EntryRef<'b> {
    /// The entry, copied.
    ///
    /// # Errors
    /// `AllocError` for want of memory.
    pub fn to_entry(&self, alloc: Global) -> Result<Entry, AllocError>
        ensures { IfOk result (λ entry. entry ≡ self.now) }
    {
        let took = match &self.took {
            Some(took) => Some(took.to_took(alloc)?),
            None => None,
        };
        Ok(Entry {
            at: self.at,
            reset: self.reset,
            took,
            next: self.next,
            outs: self.outs.to_outs(alloc)?,
        })
    }
}
