//! What a session has the gateway do, and what it says.

ghost use Rattle.std.specs.Prelude.{◌≡◌};
ghost use Rattle.session_core.specs.Table.{is_say, logout, reject};

/// Why a Logout(5) is sent.
#[derive(Clone, Copy, Debug, PartialEq, Eq)]
pub enum Why {
    /// A MsgSeqNum(34) below the expected one, without PossDupFlag(43) `Y`.
    TooLow {
        /// The number that was expected.
        expected: u32,
        /// The number that came.
        got: u32,
    },
    /// A MsgSeqNum(34) that is missing or no number from 1 to
    /// [`MAX_MSG_SEQ_NUM`](crate::MAX_MSG_SEQ_NUM).
    NoNumber,
    /// A Logon(A) that is refused for the field of this tag.
    Logon(u32),
    /// A SenderCompID(49) or TargetCompID(56) that is missing or wrong.
    CompId,
    /// A SendingTime(52) that is missing, wrong or too far from the present moment.
    Clock,
    /// The answer to the peer's Logout.
    Answer,
    /// The gateway ends.
    End,
}

/// A session message that the gateway sends.
#[derive(Clone, Copy, Debug, PartialEq, Eq)]
pub enum Admin {
    /// Logon(A).
    Logon {
        /// With ResetSeqNumFlag(141) `Y`.
        reset: bool,
    },
    /// Logout(5).
    Logout(Why),
    /// Heartbeat(0).
    Heartbeat {
        /// It answers a TestRequest and has its TestReqID(112).
        echo: bool,
    },
    /// TestRequest(1).
    TestRequest,
    /// ResendRequest(2) with EndSeqNo(16) 0.
    ResendRequest {
        /// BeginSeqNo(7).
        from: u32,
    },
    /// A session Reject(3).
    Reject {
        /// RefTagID(371).
        tag: u32,
        /// SessionRejectReason(373), one of [`reason`](crate::reason).
        reason: u8,
    },
}

/// One thing that a session has the gateway do.
#[derive(Clone, Copy, Debug, PartialEq, Eq)]
pub enum Act {
    /// Take the message: its number is used up.
    Take,
    /// Pass the message over.
    Skip,
    /// Send a session message under the next number.
    Say(Admin),
    /// Send again what was sent from one number to another, both included; nothing where `from` is
    /// above `to`.
    Resend {
        /// The first number.
        from: u32,
        /// The last number. It was given out before this message, and 0 where none was.
        to: u32,
    },
    /// Hang up the connection.
    HangUp,
}

impl Act {
    // Whether a message is sent.
    pub(crate) fn is_say(&self) -> bool
        ensures { result ≡ is_say self.now }
    {
        matches!(self, Act::Say(_))
    }

    pub(crate) fn logout(why: Why) -> Act
        ensures { result ≡ logout why }
    {
        Act::Say(Admin::Logout(why))
    }

    pub(crate) fn reject(tag: u32, reason: u8) -> Act
        ensures { result ≡ reject tag reason }
    {
        Act::Say(Admin::Reject { tag, reason })
    }
}
