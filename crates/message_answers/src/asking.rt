//! What an answer goes by: the message that is asked about, and what is known of the journal.

ghost use Rattle.std.specs.Prelude.{◌≡◌};
ghost use Rattle.frame_grammar.specs.Frame.{IsBody};
ghost use Rattle.field_groups.specs.Fields.{SplitsInto};
ghost use Rattle.message_answers.specs.Answer.{other};
ghost use Rattle.message_answers.specs.Seen.{IsSplit, asked_in};

use field_groups::Split;
use order_chains::Chains;
use order_meaning::Side;
use pair_journal::Journal;
use session_core::Said;
use translation::msg_type;

/// A message that a session took for the application.
#[derive(Drop)]
pub struct Asked<'a> {
    /// Whose message it is.
    pub side: Side,
    /// MsgSeqNum(34), from 1 to 999,999,999.
    pub number: u32,
    /// Its body: the fields between BodyLength(9) and CheckSum(10), at most 8,192 bytes.
    pub body: &'a [u8],
    /// MsgType(35) of the body.
    pub msg_type: &'a [u8],
    /// The fields of the body.
    pub split: &'a Split<'a>,
}

impl<'a> Asked<'a> {
    /// The message of a side with this number and this body, which splits so.
    pub fn new(side: Side, number: u32, body: &'a [u8], split: &'a Split<'a>) -> Asked<'a>
        requires body { IsBody body.now }
        requires split { SplitsInto body.now split.now.fields split.now.fault }
        ensures asked { asked_in result ≡ record { side = side; number = number; body = body.now } }
        ensures split { IsSplit result }
    {
        Asked {
            side,
            number,
            body,
            msg_type: msg_type(&split.fields),
            split,
        }
    }
}

/// What is known of the journal, and whether the venue's session is active.
#[derive(Drop)]
pub struct Known<'a> {
    /// The requests that it forwarded on its last day.
    pub chains: &'a Chains,
    /// The journal, which tells the message that an out translates.
    pub journal: &'a Journal,
    /// Whether the venue's session is active, so that a request can go on.
    pub active: bool,
}

/// A message that is to be given out.
#[derive(Debug, Drop)]
pub struct Words {
    /// To whom it goes.
    pub to: Side,
    /// The message: its MsgType(35) and its content, at most 7,936 bytes.
    pub said: Said,
    /// PossResend(97).
    pub resend: bool,
}

/// The other side.
pub(crate) fn other(side: Side) -> Side
    ensures { result ≡ other side }
{
    match side {
        Side::Client => Side::Venue,
        Side::Venue => Side::Client,
    }
}
