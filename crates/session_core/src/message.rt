//! What a session does at a whole frame from the peer: before the Logon, and logged on.

ghost use Rattle.std.specs.Prelude.{◌≡◌, true, false, [], ◌∷◌, if◌then◌else◌};
ghost use Rattle.std.specs.Ordering.{nat_cmp};
ghost use Rattle.std.specs.declared.cmp.Ordering.TheVariants.{Equal, Greater};
ghost use Rattle.session_core.specs.Head.{HasNumbers};
ghost use Rattle.session_core.specs.Numbers.{IsMsgSeqNum};
ghost use Rattle.session_core.specs.Table.{Message, effect_of, does, down, taken_or_skipped};
ghost use Rattle.session_core.specs.Table.{take_or_skip, is_fresh, message_row, waiting_row};
ghost use Rattle.session_core.specs.Table.{logon_row, active_row, numbered_row, early_row};
ghost use Rattle.session_core.specs.Table.{expected_row, number_of, is_asked_for, logout, S6, S19};
ghost use Rattle.session_core.specs.Table.{S20};

use crate::reason::{COMP_ID_PROBLEM, VALUE_IS_INCORRECT};
use crate::session::does;
use crate::tag::{NEW_SEQ_NO, RESET_SEQ_NUM_FLAG, SENDING_TIME};
use crate::{Act, Acts, Admin, Head, LinkState, Session, Step, What, Why};
use order_meaning::Side;
use std::cmp::Ordering;

// The rows of a message before the Logon.
impl Session {
    // A Logon with ResetSeqNumFlag is good as the very first message of the side alone.
    fn is_fresh(&self, number: u32) -> bool
        ensures { result ≡ is_fresh number self.now }
    {
        let first_out = match self.side {
            Side::Client => 1,
            Side::Venue => 2,
        };
        number == 1 && self.numbers.next_in == 1 && self.numbers.next_out == first_out
    }

    // A number below the expected one.
    fn too_low(&self, number: u32, dup: bool) -> Step
        ensures { result ≡ (if dup then effect_of S20 number 0 self.now
            else effect_of S19 number 0 self.now) }
    {
        if dup {
            return does(&[Act::Skip], *self);
        }
        let expected = self.numbers.next_in;
        let why = Why::TooLow {
            expected,
            got: number,
        };
        does(&[Act::Skip, Act::logout(why), Act::HangUp], self.down())
    }

    // A Logon that is answered by a Logout.
    fn logon_refused(&self, number: u32, tag: u32) -> Step
        requires { IsMsgSeqNum number }
        ensures { result ≡ effect_of (S6 tag) number 0 self.now }
    {
        let acts = [
            self.take_or_skip(number),
            Act::logout(Why::Logon(tag)),
            Act::HangUp,
        ];
        does(&acts, self.taken_or_skipped(number).down())
    }

    // A Logon of the expected number.
    fn logon_taken(&self, number: u32, heart: u32, reset: bool) -> Step
        requires { IsMsgSeqNum number }
        ensures { result ≡ effect_of (logon_row self.now.link (What.Logon heart reset) true Equal
            true) number 0 self.now }
    {
        let next = Session {
            link: LinkState::Active,
            ..self.expects(number + 1)
        };
        match self.link {
            LinkState::Wait => does(
                &[Act::Take, Act::Say(Admin::Logon { reset })],
                Session { heart, ..next },
            ),
            _ => does(&[Act::Take], next),
        }
    }

    // A Logon of a higher number.
    fn logon_early(&self, number: u32, heart: u32, now: u64) -> Step
        ensures { result ≡ effect_of (logon_row self.now.link (What.Logon heart false) false Greater
            true) number now self.now }
    {
        let next = Session {
            link: LinkState::Active,
            ..self.asks(number, true, now)
        };
        match self.link {
            LinkState::Wait => does(
                &[
                    Act::Skip,
                    Act::Say(Admin::Logon { reset: false }),
                    self.asking(),
                ],
                Session { heart, ..next },
            ),
            _ => does(&[Act::Skip, self.asking()], next),
        }
    }

    fn logon(&self, number: u32, what: What, dup: bool, now: u64) -> Step
        requires { IsMsgSeqNum number }
        ensures { result ≡ effect_of (logon_row self.now.link what (is_fresh number self.now)
            (nat_cmp number self.now.numbers.next_in) dup) number now self.now }
    {
        match what {
            What::BadLogon { tag } => self.logon_refused(number, tag),
            What::Logon { reset: true, .. } if !self.is_fresh(number) => {
                self.logon_refused(number, RESET_SEQ_NUM_FLAG)
            }
            What::Logon { heart, reset } => match number.cmp(&self.numbers.next_in) {
                Ordering::Less => self.too_low(number, dup),
                Ordering::Equal => self.logon_taken(number, heart, reset),
                Ordering::Greater => self.logon_early(number, heart, now),
            },
            _ => self.hung_up(),
        }
    }

    // A message before the Logon.
    fn waiting(&self, head: &Head, now: u64) -> Step
        ensures { result ≡ effect_of (waiting_row head.now self.now)
            (number_of (Message head.now)) now self.now }
    {
        match (head.number, head.comp, head.time) {
            (Some(number), None, None) => self.logon(number, head.what, head.dup, now),
            _ => self.hung_up(),
        }
    }
}

// The rows of a message once both sides are logged on.
impl Session {
    // A gap below the number is asked for where no request is open, and anew at a repeated message.
    fn is_asked_for(&self, dup: bool) -> bool
        ensures { result ≡ is_asked_for dup self.now.ask }
    {
        self.ask.is_none() || dup
    }

    fn early(&self, number: u32, what: What, dup: bool, now: u64) -> Step
        ensures { result ≡ effect_of (early_row what dup) number now self.now }
    {
        let mut acts = Acts::new();
        acts.push(Act::Skip);
        match what {
            What::Logout => {
                return does(
                    &[Act::Skip, Act::logout(Why::Answer), Act::HangUp],
                    self.down(),
                );
            }
            What::ResendRequest { from, to } => acts.push(Act::Resend {
                from,
                to: self.resend_end(to),
            }),
            _ => {}
        }
        if self.is_asked_for(dup) {
            acts.push(self.asking());
        }
        Step {
            acts,
            next: self.asks(number, dup, now),
        }
    }

    fn expected(&self, number: u32, what: What) -> Step
        requires number { IsMsgSeqNum number }
        requires what { HasNumbers what }
        ensures { result ≡ effect_of (expected_row what number) number 0 self.now }
    {
        let next = self.expects(number + 1);
        match what {
            What::TestRequest => does(
                &[Act::Take, Act::Say(Admin::Heartbeat { echo: true })],
                next,
            ),
            What::ResendRequest { from, to } => {
                does(
                    &[
                        Act::Take,
                        Act::Resend {
                            from,
                            to: self.resend_end(to),
                        },
                    ],
                    next,
                )
            }
            What::GapFill { to } if number < to => does(&[Act::Take], self.expects(to)),
            What::GapFill { .. } => does(
                &[Act::Take, Act::reject(NEW_SEQ_NO, VALUE_IS_INCORRECT)],
                next,
            ),
            What::Faulty { tag, reason } => does(&[Act::Take, Act::reject(tag, reason)], next),
            What::Logout => does(
                &[Act::Take, Act::logout(Why::Answer), Act::HangUp],
                next.down(),
            ),
            _ => does(&[Act::Take], next),
        }
    }

    fn numbered(&self, number: u32, what: What, dup: bool, now: u64) -> Step
        requires number { IsMsgSeqNum number }
        requires what { HasNumbers what }
        ensures { result ≡ effect_of (numbered_row what (nat_cmp number self.now.numbers.next_in)
            dup number self.now.numbers.next_in) number now self.now }
    {
        match what {
            What::Reset { to } if self.numbers.next_in <= to => {
                return does(&[Act::Take], self.expects(to));
            }
            What::Reset { .. } => return does(
                &[Act::Skip, Act::reject(NEW_SEQ_NO, VALUE_IS_INCORRECT)],
                *self,
            ),
            What::FaultyReset { reason, .. } => {
                return does(&[Act::Skip, Act::reject(NEW_SEQ_NO, reason)], *self);
            }
            _ => {}
        }
        match number.cmp(&self.numbers.next_in) {
            Ordering::Less => self.too_low(number, dup),
            Ordering::Greater => self.early(number, what, dup, now),
            Ordering::Equal => self.expected(number, what),
        }
    }

    // A message with a wrong name or time: it is answered by a Reject, and the session ends.
    fn wrong_head(&self, number: u32, reject: Act, why: Why) -> Step
        requires { IsMsgSeqNum number }
        ensures { result ≡ does (take_or_skip number self.now ∷ reject ∷ logout why
            ∷ Act.HangUp ∷ []) (down (taken_or_skipped number self.now)) }
    {
        let acts = [
            self.take_or_skip(number),
            reject,
            Act::logout(why),
            Act::HangUp,
        ];
        does(&acts, self.taken_or_skipped(number).down())
    }

    // A message of a session that is logged on.
    fn active(&self, head: &Head, now: u64) -> Step
        ensures { result ≡ effect_of (active_row head.now self.now)
            (number_of (Message head.now)) now self.now }
    {
        let Some(number) = head.number else {
            return does(
                &[Act::Skip, Act::logout(Why::NoNumber), Act::HangUp],
                self.down(),
            );
        };
        match (head.comp, head.time) {
            (Some(tag), _) => self.wrong_head(
                number,
                Act::reject(tag, COMP_ID_PROBLEM),
                Why::CompId,
            ),
            (None, Some(reason)) => self.wrong_head(
                number,
                Act::reject(SENDING_TIME, reason),
                Why::Clock,
            ),
            (None, None) => self.numbered(number, head.what, head.dup, now),
        }
    }

    // A message, by the state of the link.
    pub(crate) fn message(&self, head: &Head, now: u64) -> Step
        ensures { result ≡ effect_of (message_row self.now.link head.now self.now)
            (number_of (Message head.now)) now self.now }
    {
        match self.link {
            LinkState::Down => does(&[Act::Skip], *self),
            LinkState::Wait | LinkState::Asked => self.waiting(head, now),
            LinkState::Active => self.active(head, now),
        }
    }
}
