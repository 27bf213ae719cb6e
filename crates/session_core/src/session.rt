//! One FIX session: its state, and what it does at each thing that happens to it.

ghost use Rattle.std.specs.Prelude.{◌≡◌, ◌≤◌, ℕ, None, Ok, IfOk, [], length};
ghost use Rattle.session_core.specs.Numbers.{IsMsgSeqNum, IsNextNumber};
ghost use Rattle.session_core.specs.Table.{Opened, Closed, Message, Tick, End, step, settled};
ghost use Rattle.session_core.specs.Table.{given, does, says, down, expects, asks};
ghost use Rattle.session_core.specs.Table.{taken_or_skipped, take_or_skip, asking, resend_end};
ghost use Rattle.session_core.specs.Table.{effect_of, S5};

use crate::{ALL_USED, Act, Acts, Admin, Head, MAX_ACTS, Numbers, Why};
use order_meaning::Side;

/// How far a session's connection has come.
#[derive(Clone, Copy, Debug, PartialEq, Eq)]
pub enum LinkState {
    /// There is no connection, or it is being hung up.
    Down,
    /// A connection is open, and the peer's Logon is awaited.
    Wait,
    /// The gateway has sent its Logon, and awaits the peer's answer.
    Asked,
    /// Both sides are logged on.
    Active,
}

/// A ResendRequest(2) that the gateway sent and that is not answered to its end.
#[derive(Clone, Copy, Debug, PartialEq, Eq)]
pub struct Ask {
    /// The highest early MsgSeqNum(34) seen. The gap is closed once the expected number is past it.
    pub top: u32,
    /// When it was sent, in milliseconds since 1970-01-01 00:00 UTC.
    pub since: u64,
}

/// One FIX session, as the gateway sees it. All moments are in milliseconds since 1970-01-01 00:00
/// UTC.
#[derive(Clone, Copy, Debug, PartialEq, Eq)]
pub struct Session {
    /// Who is at the other end.
    pub side: Side,
    /// How far the connection has come.
    pub link: LinkState,
    /// The next numbers. They outlive the connection.
    pub numbers: Numbers,
    /// HeartBtInt(108) in seconds; 0 means no Heartbeat and no TestRequest.
    pub heart: u32,
    /// When the connection opened or the last whole frame came.
    pub seen: u64,
    /// When the last message was sent.
    pub said: u64,
    /// When the TestRequest was sent that nothing has come after, if there is one.
    pub tested: Option<u64>,
    /// The open ResendRequest, if there is one.
    pub ask: Option<Ask>,
}

/// What a session does at one thing that happened to it.
#[derive(Clone, Debug, PartialEq, Eq, Drop)]
pub struct Step {
    /// What is to be done, in this order.
    pub acts: Acts,
    /// The session afterwards. It has counted the step's own messages.
    pub next: Session,
}

/// No number is left: a message would take one past [`MAX_MSG_SEQ_NUM`](crate::MAX_MSG_SEQ_NUM).
#[derive(Clone, Copy, Debug, PartialEq, Eq)]
pub struct Spent;

impl Session {
    /// A session with no connection, with these next numbers and this HeartBtInt(108) in seconds.
    ///
    /// A client's Logon replaces the HeartBtInt; to the venue it is the gateway's own.
    pub fn new(side: Side, numbers: Numbers, heart: u32) -> Session
        ensures { result ≡ record {
          side = side;
          link = LinkState.Down;
          numbers = numbers;
          heart = heart;
          seen = 0;
          said = 0;
          tested = None;
          ask = None;
        } }
    {
        Session {
            side,
            link: LinkState::Down,
            numbers,
            heart,
            seen: 0,
            said: 0,
            tested: None,
            ask: None,
        }
    }
}

fn says(acts: &[Act]) -> usize
    ensures { result ≡ says acts.now }
{
    acts.iter().filter(|act| act.is_say()).count()
}

// The step of a row: its own messages take the next numbers, or none is left for one of them.
fn settled(row: Step, now: u64) -> Result<Step, Spent>
    ensures { result ≡ settled now row }
{
    let Step { acts, next } = row;
    let sent = says(acts.as_slice()) as u32;
    if sent > 0 && next.numbers.next_out + sent > ALL_USED {
        return Err(Spent);
    }
    let ask = match next.ask {
        Some(ask) if ask.top < next.numbers.next_in => None,
        ask => ask,
    };
    let next = Session {
        numbers: Numbers {
            next_in: next.numbers.next_in,
            next_out: next.numbers.next_out + sent,
        },
        said: if sent == 0 { next.said } else { now },
        ask,
        ..next
    };
    Ok(Step { acts, next })
}

impl Session {
    /// What to do as the connection opens: a client's session waits for the Logon, the venue's logs
    /// on.
    ///
    /// `now` is in milliseconds since 1970-01-01 00:00 UTC, here and below.
    ///
    /// # Errors
    ///
    /// [`Spent`] exactly where the Logon would take a number past
    /// [`MAX_MSG_SEQ_NUM`](crate::MAX_MSG_SEQ_NUM).
    pub fn on_open(&self, now: u64) -> Result<Step, Spent>
        ensures step { result ≡ step self.now Opened now }
        ensures side { IfOk result (λ t. t.next.side ≡ self.now.side) }
    {
        let row = match self.side {
            Side::Client => does(
                &[],
                Session {
                    link: LinkState::Wait,
                    seen: now,
                    ..*self
                },
            ),
            Side::Venue => does(
                &[Act::Say(Admin::Logon { reset: false })],
                Session {
                    link: LinkState::Asked,
                    seen: now,
                    ..*self
                },
            ),
        };
        settled(row, now)
    }

    /// The session after its connection was lost: it is Down, with the same numbers and nothing
    /// outstanding.
    pub fn on_closed(&self) -> Session
        ensures step { (now : ℕ) → step self.now Closed now ≡ Ok (does [] result) }
        ensures side { result.side ≡ self.now.side }
        ensures numbers { result.numbers ≡ self.now.numbers }
    {
        self.down()
    }

    /// What to do with a whole frame from the peer, of which `head` says what a session has to
    /// know.
    ///
    /// # Errors
    ///
    /// [`Spent`] exactly where one of the messages to send would take a number past
    /// [`MAX_MSG_SEQ_NUM`](crate::MAX_MSG_SEQ_NUM).
    pub fn on_message(&self, head: &Head, now: u64) -> Result<Step, Spent>
        ensures step { result ≡ step self.now (Message head.now) now }
        ensures side { IfOk result (λ t. t.next.side ≡ self.now.side) }
    {
        let heard = Session {
            seen: now,
            tested: None,
            ..*self
        };
        settled(heard.message(head, now), now)
    }

    /// What to do at a moment at which nothing came: a Heartbeat, a TestRequest, a request made
    /// anew, or hanging up.
    ///
    /// # Errors
    ///
    /// [`Spent`] exactly where one of the messages to send would take a number past
    /// [`MAX_MSG_SEQ_NUM`](crate::MAX_MSG_SEQ_NUM).
    pub fn on_tick(&self, now: u64) -> Result<Step, Spent>
        ensures step { result ≡ step self.now Tick now }
        ensures side { IfOk result (λ t. t.next.side ≡ self.now.side) }
    {
        settled(self.tick(now), now)
    }

    /// What to do as the gateway ends: a session that is logged on says Logout, and each connection
    /// is hung up.
    ///
    /// # Errors
    ///
    /// [`Spent`] exactly where the Logout would take a number past
    /// [`MAX_MSG_SEQ_NUM`](crate::MAX_MSG_SEQ_NUM).
    pub fn on_end(&self, now: u64) -> Result<Step, Spent>
        ensures step { result ≡ step self.now End now }
        ensures side { IfOk result (λ t. t.next.side ≡ self.now.side) }
    {
        let row = match self.link {
            LinkState::Down => does(&[], *self),
            LinkState::Active => does(&[Act::logout(Why::End), Act::HangUp], self.down()),
            LinkState::Wait | LinkState::Asked => self.hung_up(),
        };
        settled(row, now)
    }

    /// The number of a message that is not of the session's own, and the session after it was sent
    /// at `now`.
    ///
    /// # Errors
    ///
    /// [`Spent`] exactly where no number is left.
    pub fn give(&self, now: u64) -> Result<(u32, Session), Spent>
        ensures given { result ≡ given self.now now }
        ensures side { IfOk result (λ g. g.1.side ≡ self.now.side) }
    {
        let number = self.numbers.next_out;
        if number == ALL_USED {
            return Err(Spent);
        }
        let numbers = Numbers {
            next_in: self.numbers.next_in,
            next_out: number + 1,
        };
        Ok((
            number,
            Session {
                numbers,
                said: now,
                ..*self
            },
        ))
    }
}

// Sessions that differ in one part.
impl Session {
    // The link is lost or hung up: nothing is outstanding any more.
    pub(crate) fn down(&self) -> Session
        ensures { result ≡ down self.now }
    {
        Session {
            link: LinkState::Down,
            tested: None,
            ask: None,
            ..*self
        }
    }

    // The number is the next one that is expected.
    pub(crate) fn expects(&self, number: u32) -> Session
        requires { IsNextNumber number }
        ensures { result ≡ expects number self.now }
    {
        Session {
            numbers: Numbers {
                next_in: number,
                next_out: self.numbers.next_out,
            },
            ..*self
        }
    }

    // What is missing below the number is asked for.
    pub(crate) fn asks(&self, number: u32, dup: bool, now: u64) -> Session
        ensures { result ≡ asks number dup now self.now }
    {
        let ask = match self.ask {
            None => Ask {
                top: number,
                since: now,
            },
            Some(ask) => Ask {
                top: number.max(ask.top),
                since: if dup { now } else { ask.since },
            },
        };
        Session {
            ask: Some(ask),
            ..*self
        }
    }

    // The message is used up if it has the expected number, and else passed over.
    pub(crate) fn take_or_skip(&self, number: u32) -> Act
        ensures { result ≡ take_or_skip number self.now }
    {
        if number == self.numbers.next_in {
            Act::Take
        } else {
            Act::Skip
        }
    }

    // The session after that.
    pub(crate) fn taken_or_skipped(&self, number: u32) -> Session
        requires { IsMsgSeqNum number }
        ensures { result ≡ taken_or_skipped number self.now }
    {
        if number == self.numbers.next_in {
            self.expects(number + 1)
        } else {
            *self
        }
    }

    // The last number that is sent again for this EndSeqNo, where 0 means all that were given.
    pub(crate) fn resend_end(&self, to: u32) -> u32
        ensures { result ≡ resend_end to self.now }
    {
        let last = self.numbers.next_out - 1;
        if to == 0 { last } else { to.min(last) }
    }

    // The request for all from the expected number on.
    pub(crate) fn asking(&self) -> Act
        ensures { result ≡ asking self.now }
    {
        Act::Say(Admin::ResendRequest {
            from: self.numbers.next_in,
        })
    }

    // The step that only hangs up.
    pub(crate) fn hung_up(&self) -> Step
        ensures { result ≡ effect_of S5 0 0 self.now }
    {
        does(&[Act::HangUp], self.down())
    }
}

// A row: its acts, and the session before its own messages are counted.
pub(crate) fn does(acts: &[Act], next: Session) -> Step
    requires { length acts.now ≤ MAX_ACTS }
    ensures { result ≡ does acts.now next }
{
    Step {
        acts: Acts::of(acts),
        next,
    }
}
