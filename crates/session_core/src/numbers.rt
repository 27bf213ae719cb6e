//! MsgSeqNum(34): the numbers of messages, and the next ones of a session.

use std::marker::Model;

/// The greatest MsgSeqNum(34). The standard names none; this bound is the gateway's own.
pub const MAX_MSG_SEQ_NUM: u32 = 999_999_999;

/// The next number that says that all are used: one more than [`MAX_MSG_SEQ_NUM`].
pub const ALL_USED: u32 = 1_000_000_000;

/// The next MsgSeqNum(34) in each direction, from 1 to [`ALL_USED`]: this holds of every value.
///
/// Messages are numbered from 1 to [`MAX_MSG_SEQ_NUM`]. A next number of [`ALL_USED`] says that all
/// are used (FIX 4.2, "Session Protocol", "Sequence Numbers").
#[derive(Clone, Copy, Debug, PartialEq, Eq)]
pub struct Numbers {
    /// The number that is expected of the peer's next message.
    pub next_in: u32,
    /// The number of the next message to the peer.
    pub next_out: u32,
}

impl Model for Numbers {
    ghost use Rattle.session_core.specs.Numbers.{NextNumbers, AreNextNumbers};

    ghost Value = { NextNumbers };

    ghost view = { λ n. record { next_in = n.next_in; next_out = n.next_out } };

    ghost inverse = { λ n. record { next_in = n.next_in; next_out = n.next_out } };

    ghost invariant = { λ n. AreNextNumbers (record {
      next_in = n.next_in;
      next_out = n.next_out;
    }) };
}
