//! What the lines for the operator say.

ghost use Rattle.std.specs.Prelude.{◌≡◌, ◌++◌, IfOk, OnOk, ◌/◌, ◌+◌, codes, min};
ghost use Rattle.typed_fields.specs.Stamp.{stamp_text, stamp_at};
ghost use Rattle.edge_logic.specs.Notice.{line_text};

use std::alloc::{AllocError, Global};
use std::io::Write;
use std::net::SocketAddr;
use std::{fmt, io};
use typed_fields::{MAX_MILLIS, Stamp};

/// One of the two peers.
#[derive(Clone, Copy, Debug, PartialEq, Eq)]
pub enum PeerName {
    Client,
    Venue,
}

/// How a connection ended.
#[derive(Clone, Copy, Debug)]
pub enum Ending<'a> {
    /// The peer closed it.
    ByPeer,
    /// The gateway hung up.
    ByUs,
    /// It failed, for this reason.
    ByFailure(&'a str),
    /// The peer closed it before a session stood, behind this.
    ByPeerBehind(&'a str),
    /// The gateway hung up before a session stood, behind this.
    ByUsBehind(&'a str),
}

/// When the venue is tried next.
#[derive(Clone, Copy, Debug, PartialEq, Eq)]
pub enum NextTry {
    /// The gateway does not try.
    Never,
    /// At the next round.
    AtOnce,
    /// After so many seconds.
    After(u64),
    /// The client may connect again after so many seconds.
    OpensAfter(u64),
}

/// Why the venue was not reached, and when it is tried next.
#[derive(Clone, Copy, Debug)]
pub struct Missed<'a> {
    /// The reason.
    pub reason: &'a str,
    /// The next try.
    pub next: NextTry,
}

/// The so manyth client that was refused.
#[derive(Clone, Copy, Debug, PartialEq, Eq)]
pub struct RefusedNth(pub u64);

/// Why a connection was closed that was no client's yet, and how many were so far.
#[derive(Clone, Copy, Debug)]
pub struct ClosedNth<'a> {
    /// The reason.
    pub why: &'a str,
    /// The number.
    pub nth: u64,
}

/// The MsgSeqNum(34) that was expected, and the lower one that came.
#[derive(Clone, Copy, Debug, PartialEq, Eq)]
pub struct TooLow {
    pub expected: u32,
    pub got: u32,
}

/// What a line for the operator says. Its `Display` is the text.
#[derive(Clone, Copy, Debug)]
pub enum Notice<'a> {
    /// The gateway waits for the client here.
    Listening(SocketAddr),
    /// The gateway cannot wait for the client here, for this reason.
    NotListening(SocketAddr, &'a str),
    /// A peer at this address has connected, or was connected to.
    Connected(PeerName, SocketAddr),
    /// A client at this address was closed at once, since one is connected; how many were so far.
    Refused(SocketAddr, RefusedNth),
    /// A connection from this address was closed before a whole Logon had come on it.
    Closed(SocketAddr, ClosedNth<'a>),
    /// A connection ended.
    Ended(PeerName, Ending<'a>, NextTry),
    /// A connection ended since this peer's numbers were too low.
    NumbersLow(PeerName, TooLow),
    /// A connection ended since this peer found the gateway's numbers too low.
    OwnNumbersLow(PeerName, TooLow),
    /// A connection ended on which this peer did not begin with number 1, where the gateway did.
    Late(PeerName),
    /// The venue was not reached.
    NotReached(SocketAddr, Missed<'a>),
    /// The stop file asks for an end.
    StopAsked,
    /// An end by the stop file takes so many seconds.
    EndTakes(u64),
    /// Another text.
    Text(&'a str),
}

impl fmt::Display for PeerName {
    ghost use Rattle.std.specs.Prelude.{Some};
    ghost use Rattle.edge_logic.specs.Notice.{peer_text};

    ghost output = { λ peer. Some (peer_text peer) };

    fn fmt<W: fmt::Write>(&self, f: &mut fmt::Formatter<W>) -> fmt::Result {
        match *self {
            PeerName::Client => write!(f, "client"),
            PeerName::Venue => write!(f, "venue"),
        }
    }
}

impl fmt::Display for Ending<'_> {
    ghost use Rattle.std.specs.Prelude.{Some};
    ghost use Rattle.edge_logic.specs.Notice.{ending_text};

    ghost output = { λ ending. Some (ending_text ending) };

    fn fmt<W: fmt::Write>(&self, f: &mut fmt::Formatter<W>) -> fmt::Result {
        match *self {
            Ending::ByPeer => write!(f, "ended by the peer"),
            Ending::ByUs => write!(f, "ended by the gateway"),
            Ending::ByFailure(reason) => write!(f, "failed: {reason}"),
            Ending::ByPeerBehind(what) => write!(f, "ended by the peer: {what}"),
            Ending::ByUsBehind(what) => write!(f, "ended by the gateway: {what}"),
        }
    }
}

impl fmt::Display for NextTry {
    ghost use Rattle.std.specs.Prelude.{Some};
    ghost use Rattle.edge_logic.specs.Notice.{next_text};

    ghost output = { λ next. Some (next_text next) };

    fn fmt<W: fmt::Write>(&self, f: &mut fmt::Formatter<W>) -> fmt::Result {
        match *self {
            NextTry::Never => Ok(()),
            NextTry::AtOnce => write!(f, "; next try at once"),
            NextTry::After(seconds) => write!(f, "; next try in {seconds} s"),
            NextTry::OpensAfter(seconds) => write!(f, "; the port opens again in {seconds} s"),
        }
    }
}

impl fmt::Display for Missed<'_> {
    ghost use Rattle.std.specs.Prelude.{Some};
    ghost use Rattle.edge_logic.specs.Notice.{missed_text};

    ghost output = { λ missed. Some (missed_text missed) };

    fn fmt<W: fmt::Write>(&self, f: &mut fmt::Formatter<W>) -> fmt::Result {
        let reason = self.reason;
        let next = self.next;
        write!(f, " not reached: {reason}{next}")
    }
}

impl fmt::Display for RefusedNth {
    ghost use Rattle.std.specs.Prelude.{Some};
    ghost use Rattle.edge_logic.specs.Notice.{refused_text};

    ghost output = { λ nth. Some (refused_text nth) };

    fn fmt<W: fmt::Write>(&self, f: &mut fmt::Formatter<W>) -> fmt::Result {
        let nth = self.0;
        write!(f, " refused, since one is connected: number {nth}")
    }
}

impl fmt::Display for ClosedNth<'_> {
    ghost use Rattle.std.specs.Prelude.{Some};
    ghost use Rattle.edge_logic.specs.Notice.{closed_text};

    ghost output = { λ closed. Some (closed_text closed) };

    fn fmt<W: fmt::Write>(&self, f: &mut fmt::Formatter<W>) -> fmt::Result {
        let why = self.why;
        let nth = self.nth;
        write!(f, " closed: {why}: number {nth}")
    }
}

impl fmt::Display for TooLow {
    ghost use Rattle.std.specs.Prelude.{Some};
    ghost use Rattle.edge_logic.specs.Notice.{low_text};

    ghost output = { λ low. Some (low_text low) };

    fn fmt<W: fmt::Write>(&self, f: &mut fmt::Formatter<W>) -> fmt::Result {
        let expected = self.expected;
        let got = self.got;
        write!(f, "expected {expected}, got {got}")
    }
}

impl fmt::Display for Notice<'_> {
    ghost use Rattle.std.specs.Prelude.{Some};
    ghost use Rattle.edge_logic.specs.Notice.{notice_text};

    ghost output = { λ notice. Some (notice_text notice) };

    fn fmt<W: fmt::Write>(&self, f: &mut fmt::Formatter<W>) -> fmt::Result {
        match *self {
            Notice::Listening(at) => write!(f, "listening on {at}"),
            Notice::NotListening(at, reason) => write!(f, "cannot listen on {at}: {reason}"),
            Notice::Connected(peer, at) => write!(f, "{peer} {at} connected"),
            Notice::Refused(at, nth) => write!(f, "client {at}{nth}"),
            Notice::Closed(at, closed) => write!(f, "client {at}{closed}"),
            Notice::NumbersLow(peer, low) => {
                write!(
                    f,
                    "{peer} numbers are too low: {low}; has it begun a new day?"
                )
            }
            Notice::OwnNumbersLow(peer, low) => {
                write!(
                    f,
                    "{peer} finds our numbers too low: {low}; is its day that of yesterday?"
                )
            }
            Notice::Late(peer) => {
                write!(
                    f,
                    "{peer} did not begin with number 1; is its day that of yesterday?"
                )
            }
            Notice::Ended(peer, ending, next) => write!(f, "{peer} connection {ending}{next}"),
            Notice::NotReached(at, missed) => write!(f, "venue {at}{missed}"),
            Notice::StopAsked => write!(f, "the stop file asks for an end"),
            Notice::EndTakes(seconds) => write!(f, "an end by the stop file takes {seconds} s"),
            Notice::Text(text) => write!(f, "{text}"),
        }
    }
}

/// How many lines before one were lost.
#[derive(Clone, Copy, Debug)]
pub struct Lost(pub u64);

impl fmt::Display for Lost {
    ghost use Rattle.std.specs.Prelude.{Some};
    ghost use Rattle.edge_logic.specs.Notice.{lost_text};

    ghost output = { λ lost. Some (lost_text lost.0) };

    fn fmt<W: fmt::Write>(&self, f: &mut fmt::Formatter<W>) -> fmt::Result {
        match self.0 {
            0 => Ok(()),
            lost => write!(f, " ({lost} lines before this were lost)"),
        }
    }
}

/// Appends a moment in milliseconds since 1970-01-01 00:00 UTC, as each line begins: a UTCTimestamp
/// and a blank.
///
/// # Errors
/// For want of memory alone.
pub fn put_stamp(lines: &mut Vec<u8>, moment: u64) -> Result<(), AllocError>
    ensures { OnOk result (lines.new.items
        ≡ lines.old.items ++ stamp_text (stamp_at (min moment 4_102_444_799_999)) ++ codes " ") }
{
    lines.extend_from_slice(&Stamp::text_of_millis(moment.min(MAX_MILLIS)))?;
    lines.extend_from_slice(b" ")?;
    Ok(())
}

/// The line of a notice at a moment in milliseconds since 1970-01-01 00:00 UTC, with the number of
/// the lines before it that were lost.
///
/// # Errors
/// For want of memory alone.
#[tactic(auto, unfolding(crate::specs::Notice::line_text))]
pub fn line(alloc: Global, moment: u64, notice: Notice<'_>, lost: Lost) -> io::Result<Vec<u8>>
    ensures { IfOk result (λ line. line.items ≡ line_text moment notice.entry lost.0) }
{
    let mut line = Vec::new(alloc);
    line.extend_from_slice(&Stamp::text_of_millis(moment.min(MAX_MILLIS)))?;
    writeln!(line, " {notice}{lost}")?;
    Ok(line)
}
