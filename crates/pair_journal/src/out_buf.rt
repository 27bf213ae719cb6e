//! Room for one out that is read from a journal.

ghost use Rattle.std.specs.Prelude.{◌≡◌, ◌+◌, ◌≤◌, [], length, IfOk};
ghost use Rattle.pair_journal.specs.OutBuf.{out_at};
ghost use Rattle.pair_journal.specs.Buffer.{out_told, IsRoomy};
ghost use Rattle.pair_journal.specs.Walks.{BeginsOuts};

use crate::walk::Walk;
use gate_log::extend_reserved;
use pair_entries::OutRef;
use std::alloc::{AllocError, Global};
use std::marker::Model;

/// The room for the type and the content of an out, in bytes.
pub const OUT_ROOM: usize = 8_448;

/// An out as it was told last.
#[derive(Debug, Drop)]
pub(crate) struct OutTold {
    // The type, and then the content.
    bytes: Vec<u8>,
    type_len: usize,
    at: u64,
    admin: bool,
    resend: bool,
}

/// Room for one out, which tells it and the moment of its entry, and a walk from one out to the
/// next.
#[derive(Debug, Drop)]
pub struct OutBuf {
    pub(crate) walk: Walk,
    pub(crate) told: OutTold,
}

impl Model for OutBuf {
    ghost use Rattle.pair_journal.specs.Buffer.{OutKept, out_kept, TellsRoomy};

    ghost Value = { OutKept };

    ghost view = { out_kept };

    ghost invariant = { TellsRoomy };
}

impl OutTold {
    /// Takes in an out, and the moment of its entry.
    pub(crate) fn tell(&mut self, at: u64, out: OutRef<'_>)
        requires room { IsRoomy self.old }
        requires fits { length out.msg_type + length out.content ≤ OUT_ROOM }
        ensures told { out_told self.new ≡ out_at at out.entry }
        ensures room { IsRoomy self.new }
    {
        self.bytes.clear();
        extend_reserved(&mut self.bytes, out.msg_type);
        extend_reserved(&mut self.bytes, out.content);
        self.type_len = out.msg_type.len();
        self.at = at;
        self.admin = out.admin;
        self.resend = out.resend;
    }
}

impl OutBuf {
    /// Room that tells no out yet: an empty type, and no content. Its walk begins.
    ///
    /// # Errors
    /// `AllocError` for want of memory.
    pub fn new(alloc: Global) -> Result<OutBuf, AllocError>
        ensures none { IfOk result (λ buf. (buf.told.msg_type ≡ []) × (buf.told.content ≡ [])) }
        ensures walk { IfOk result (λ buf. BeginsOuts buf.walk) }
    {
        let walk = Walk::new(alloc)?;
        let told = OutTold {
            bytes: Vec::with_capacity(alloc, OUT_ROOM)?,
            type_len: 0,
            at: 0,
            admin: false,
            resend: false,
        };
        Ok(OutBuf { walk, told })
    }

    /// Begins its walk anew, as the disk may have changed since the last out, and takes no memory.
    /// The out that it tells stays.
    pub fn restart(&mut self)
        ensures walk { BeginsOuts self.new.walk }
        ensures told { self.new.told ≡ self.old.told }
    {
        self.walk.restart();
    }

    /// MsgType(35).
    pub fn msg_type(&self) -> &[u8]
        ensures { result.now ≡ self.now.told.msg_type }
    {
        &self.told.bytes[..self.told.type_len]
    }

    /// The fields behind the header.
    pub fn content(&self) -> &[u8]
        ensures { result.now ≡ self.now.told.content }
    {
        &self.told.bytes[self.told.type_len..]
    }

    /// The moment of its entry, in milliseconds since 1970-01-01 00:00 UTC.
    pub fn at(&self) -> u64
        ensures { result ≡ self.now.told.at }
    {
        self.told.at
    }

    /// Whether it is administrative.
    pub fn admin(&self) -> bool
        ensures { result ≡ self.now.told.admin }
    {
        self.told.admin
    }

    /// Whether it has PossResend(97) with `Y`.
    pub fn resend(&self) -> bool
        ensures { result ≡ self.now.told.resend }
    {
        self.told.resend
    }
}
