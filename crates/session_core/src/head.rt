//! What a session has to know of a message.

use std::marker::Model;

/// What a session has to know of a message: its standard header, judged, and its kind.
///
/// The bounds of its numbers hold of every value.
#[derive(Clone, Copy, Debug, PartialEq, Eq)]
pub struct Head {
    /// MsgSeqNum(34), from 1 to [`MAX_MSG_SEQ_NUM`](crate::MAX_MSG_SEQ_NUM); none where it is
    /// missing or no such number.
    pub number: Option<u32>,
    /// PossDupFlag(43) is `Y`.
    pub dup: bool,
    /// The first of SenderCompID(49) and TargetCompID(56) that is missing or wrong.
    pub comp: Option<u32>,
    /// The SessionRejectReason(373) against SendingTime(52), one of [`reason`](crate::reason).
    pub time: Option<u8>,
    /// The kind of message.
    pub what: What,
}

impl Model for Head {
    ghost use Rattle.session_core.specs.Head.{HeadFields, IsHead};

    ghost Value = { HeadFields };

    ghost view = { λ h. record {
      number = h.number;
      dup = h.dup;
      comp = h.comp;
      time = h.time;
      what = h.what;
    } };

    ghost inverse = { λ h. record {
      number = h.number;
      dup = h.dup;
      comp = h.comp;
      time = h.time;
      what = h.what;
    } };

    ghost invariant = { λ h. IsHead (record {
      number = h.number;
      dup = h.dup;
      comp = h.comp;
      time = h.time;
      what = h.what;
    }) };
}

/// The kind of a message, with the fields that a session reads.
#[derive(Clone, Copy, Debug, PartialEq, Eq)]
pub enum What {
    /// A good Logon(A).
    Logon {
        /// HeartBtInt(108) in seconds.
        heart: u32,
        /// ResetSeqNumFlag(141) is `Y`.
        reset: bool,
    },
    /// A Logon(A) with a missing or wrong field.
    BadLogon {
        /// The tag of the first such field.
        tag: u32,
    },
    /// Heartbeat(0).
    Heartbeat,
    /// TestRequest(1).
    TestRequest,
    /// ResendRequest(2).
    ResendRequest {
        /// BeginSeqNo(7), from 1 to [`MAX_MSG_SEQ_NUM`](crate::MAX_MSG_SEQ_NUM).
        from: u32,
        /// EndSeqNo(16); 0 means all that were sent.
        to: u32,
    },
    /// A session Reject(3).
    Reject,
    /// SequenceReset(4) with GapFillFlag(123) `Y`.
    GapFill {
        /// NewSeqNo(36), from 1 to [`ALL_USED`](crate::ALL_USED).
        to: u32,
    },
    /// SequenceReset(4) without GapFillFlag(123) `Y`.
    Reset {
        /// NewSeqNo(36), from 1 to [`ALL_USED`](crate::ALL_USED).
        to: u32,
    },
    /// Logout(5).
    Logout,
    /// Any message that is not of the session's own.
    App,
    /// SequenceReset(4) without GapFillFlag(123) `Y` whose NewSeqNo(36) is missing or wrong.
    FaultyReset {
        /// The tag of the wrong field, which is 36.
        tag: u32,
        /// The SessionRejectReason(373).
        reason: u8,
    },
    /// Any other session message with a missing or wrong field.
    Faulty {
        /// The tag of the first such field.
        tag: u32,
        /// The SessionRejectReason(373).
        reason: u8,
    },
}
