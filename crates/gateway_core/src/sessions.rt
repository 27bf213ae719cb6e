//! The two sessions of the gateway.

ghost use Rattle.std.specs.Prelude.{◌≡◌, IfOk, IfSome};
ghost use Rattle.pair_entries.specs.Payload.{IsOut, AreNext};
ghost use Rattle.event_decisions.specs.Decide.{session_of, with_session, numbers_of, give};
ghost use Rattle.message_answers.specs.Seen.{IsFit};
ghost use Rattle.gateway_core.specs.Planning.{words_by, gave};

use crate::outs::out_of;
use message_answers::Words;
use order_meaning::Side;
use pair_entries::Out;
use session_core::Session;
use std::marker::Model;

/// Both sessions.
#[derive(Debug, Drop)]
pub(crate) struct Sessions {
    /// The client's.
    pub(crate) client: Session,
    /// The venue's.
    pub(crate) venue: Session,
}

impl Model for Sessions {
    ghost use Rattle.event_decisions.specs.Decide.{Sessions as Both};

    ghost Value = { Both };

    ghost view = { λ s. record { client = s.client; venue = s.venue } };
}

/// What giving a message out does.
#[derive(Debug, Drop)]
pub(crate) struct Given {
    /// The message under its number; none where none is given out.
    pub(crate) out: Option<Out>,
    /// The sessions afterwards.
    pub(crate) sessions: Sessions,
}

impl Sessions {
    /// The session of a side.
    pub(crate) fn of(&self, side: Side) -> &Session
        ensures { result.now ≡ session_of side self.now }
    {
        match side {
            Side::Client => &self.client,
            Side::Venue => &self.venue,
        }
    }

    /// The sessions with another one of a side.
    pub(crate) fn with(self, side: Side, next: Session) -> Sessions
        ensures { result ≡ with_session side next self }
    {
        match side {
            Side::Client => Sessions {
                client: next,
                ..self
            },
            Side::Venue => Sessions {
                venue: next,
                ..self
            },
        }
    }

    /// Their next numbers: client in, client out, venue in, venue out.
    pub(crate) fn numbers(&self) -> (u32, u32, u32, u32)
        ensures numbers { result ≡ numbers_of self.now }
        ensures bounds { AreNext result }
    {
        (
            self.client.numbers.next_in,
            self.client.numbers.next_out,
            self.venue.numbers.next_in,
            self.venue.numbers.next_out,
        )
    }

    /// The sessions once a message of the application was given out, where there is one: it takes
    /// the next number of its side.
    ///
    /// # Errors
    ///
    /// That side exactly where it has no number left.
    pub(crate) fn give(self, words: Option<Words>, now: u64) -> Result<Given, Side>
        requires fit { IfSome words (λ w. IsFit w.said) }
        ensures given { gave result ≡ give now self (words_by words) }
        ensures out { IfOk result (λ given. IfSome given.out IsOut) }
    {
        let Some(Words { to, said, resend }) = words else {
            return Ok(Given {
                out: None,
                sessions: self,
            });
        };
        match self.of(to).give(now) {
            Ok((number, next)) => Ok(Given {
                out: Some(out_of(to, number, resend, said)),
                sessions: self.with(to, next),
            }),
            Err(_) => Err(to),
        }
    }
}
