//! What the session table keeps, whatever happens to a session. Each law is a contract: its
//! function does nothing.

ghost use Rattle.std.specs.Prelude.{◌≡◌, ℕ, ◌+◌, ◌≤◌, ◌⊎◌, ◌==◌, ◌<◌, if◌then◌else◌, IsOk, IsOkAnd};
ghost use Rattle.std.specs.Prelude.{IsSomeAnd, Contains, IfOk, IfSome, IsSome, length, Some, None};
ghost use Rattle.std.specs.Prelude.{[], ◌∷◌, false};
ghost use Rattle.session_core.specs.Laws.{IsOfApplication, IsGoodLogon, IsDownBy, GoesByNumber};
ghost use Rattle.session_core.specs.Laws.{IsRequestFrom, IsRejectedFor, Always, IsExpected};
ghost use Rattle.session_core.specs.Laws.{IsReset, HangsUpAfterLogout, AreInOrder, SetsExpected};
ghost use Rattle.session_core.specs.Laws.{IsForApplication};
ghost use Rattle.session_core.specs.Table.{Input, Message, Tick, step, says, given};
ghost use Rattle.session_core.specs.declared.session.Session.{Session};
ghost use Rattle.session_core.specs.declared.head.Head.{Head};

use crate::{ALL_USED, Act, Admin, LinkState, MAX_ACTS};

/// The expected number never falls.
pub fn expected_number_never_falls()
    ensures { Always (λ s input now t. s.numbers.next_in ≤ t.next.numbers.next_in) }
{}

/// A message is taken only at the expected number, or as a SequenceReset that is no gap fill and
/// sets the expected number to itself or a higher one.
pub fn taken_at_the_expected_number()
    ensures { Always (λ s input now t.
        Contains t.acts Act.Take → IsExpected s input ⊎ IsReset s input) }
{}

/// The expected number stays where no message is taken.
pub fn only_a_taken_message_counts()
    ensures { Always (λ s input now t.
        ¬ Contains t.acts Act.Take → t.next.numbers.next_in ≡ s.numbers.next_in) }
{}

/// Each session message that a step sends takes one number, and nothing else does.
pub fn each_message_takes_a_number()
    ensures { Always (λ s input now t.
        t.next.numbers.next_out ≡ s.numbers.next_out + says t.acts) }
{}

/// A step has at most five acts.
pub fn five_acts_at_most()
    ensures { Always (λ s input now t. length t.acts ≤ MAX_ACTS) }
{}

/// Every Logout is followed by a hang up, and nothing comes after it.
pub fn logout_hangs_up()
    ensures { Always (λ s input now t. HangsUpAfterLogout t.acts) }
{}

/// A hang up leaves no link, and nothing outstanding.
pub fn hang_up_ends()
    ensures { Always (λ s input now t. Contains t.acts Act.HangUp
        → (t.next.link ≡ LinkState.Down) × (t.next.tested ≡ None) × (t.next.ask ≡ None)) }
{}

/// One tick never sends both a TestRequest and a Heartbeat.
pub fn test_request_or_heartbeat()
    ensures { (s : Session) (now : ℕ) → IfOk (step s Tick now) (λ t.
        Contains t.acts (Act.Say Admin.TestRequest)
        → ¬ Contains t.acts (Act.Say (Admin.Heartbeat false))) }
{}

/// A session that is logged on and gets the expected message leaves its open request as it was, or
/// closes it. So with no request open none is opened.
pub fn expected_message_opens_no_request()
    ensures { Always (λ s input now t. s.link ≡ LinkState.Active → IsExpected s input
        → (t.next.ask ≡ s.ask) ⊎ (t.next.ask ≡ None)) }
{}

/// A request that is open after a step is for a gap that is open: the expected number is not past
/// its top.
pub fn open_request_has_a_gap()
    ensures { Always (λ s input now t.
        IfSome t.next.ask (λ ask. t.next.numbers.next_in ≤ ask.top)) }
{}

/// While a request is open, a message without PossDupFlag has no second one sent.
pub fn one_request_at_a_time()
    ensures { (s : Session) (head : Head) (now : ℕ)
        → s.link ≡ LinkState.Active → IsSome s.ask → head.dup ≡ false
        → IfOk (step s (Message head) now) (λ t.
        (from : ℕ) → ¬ Contains t.acts (Act.Say (Admin.ResendRequest from))) }
{}

/// A session is of one side for good.
pub fn side_never_changes()
    ensures { Always (λ s input now t. t.next.side ≡ s.side) }
{}

/// A step sends at most two messages of the session's own.
pub fn two_messages_at_most()
    ensures { Always (λ s input now t. says t.acts ≤ 2) }
{}

/// A session with two numbers left has a step, whatever happens.
pub fn two_numbers_are_enough()
    ensures { (s : Session) (input : Input) (now : ℕ) → s.numbers.next_out + 2 ≤ ALL_USED
        → IsOk (step s input now) }
{}

/// The acts stand in one order: a message is taken or passed over, messages are sent again, the
/// session's own are sent, the connection is hung up. Each but the third stands once at most.
pub fn acts_in_order()
    ensures { Always (λ s input now t. AreInOrder t.acts) }
{}

/// A message that is taken makes the expected number one more, or its NewSeqNo(36).
pub fn taken_message_counts()
    ensures { Always (λ s input now t.
        Contains t.acts Act.Take → SetsExpected s input t.next.numbers.next_in) }
{}

/// Without a connection a message is passed over, and nothing is sent.
pub fn nothing_without_a_connection()
    ensures { (s : Session) (head : Head) (now : ℕ) → s.link ≡ LinkState.Down
        → IfOk (step s (Message head) now) (λ t. t.acts ≡ Act.Skip ∷ []) }
{}

/// A Reject or a message of the application whose one act is that it is taken had the expected
/// number and the right names and time, in a session that is logged on. This is how the application
/// knows what it is to decide.
pub fn application_gets_what_was_expected()
    ensures { (s : Session) (head : Head) (now : ℕ) → IsForApplication head.what
        → IfOk (step s (Message head) now) (λ t. t.acts ≡ Act.Take ∷ []
        → (s.link ≡ LinkState.Active) × (head.comp ≡ None) × (head.time ≡ None)
        × (head.number ≡ Some s.numbers.next_in)) }
{}

/// Each such message is taken, and nothing else is done. With the law before: the application
/// decides exactly about these.
pub fn expected_messages_are_taken()
    ensures { (s : Session) (head : Head) (now : ℕ) → IsForApplication head.what
        → s.link ≡ LinkState.Active → head.comp ≡ None → head.time ≡ None
        → head.number ≡ Some s.numbers.next_in
        → IsOkAnd (step s (Message head) now) (λ t. t.acts ≡ Act.Take ∷ []) }
{}

/// Where a Reject or a message of the application is taken, and that is not the one act, the
/// session ends.
pub fn application_gets_it_or_the_session_ends()
    ensures { Always (λ s input now t. IsOfApplication input → Contains t.acts Act.Take
        → (t.acts ≡ Act.Take ∷ []) ⊎ Contains t.acts Act.HangUp) }
{}

/// A session goes Down only by a hang up, or because its connection was lost.
pub fn down_by_a_hang_up_or_a_loss()
    ensures { Always (λ s input now t.
        t.next.link ≡ LinkState.Down → IsDownBy s input t.acts) }
{}

/// A session becomes Active by a good Logon alone.
pub fn active_by_a_good_logon()
    ensures { Always (λ s input now t. t.next.link ≡ LinkState.Active
        → (s.link ≡ LinkState.Active) ⊎ IsGoodLogon s input) }
{}

/// The moment of the last message is set exactly by a message of the session's own.
pub fn said_is_set_by_a_message()
    ensures { Always (λ s input now t.
        t.next.said ≡ (if says t.acts == 0 then s.said else now)) }
{}

/// A number that is given for another message sets that moment too.
pub fn said_is_set_by_a_number_given()
    ensures { (s : Session) (now : ℕ) → IfOk (given s now) (λ g. g.1.said ≡ now) }
{}

/// A session that is Active after an early message has a request open, up to that message at least.
/// A SequenceReset that is no gap fill goes by no number.
pub fn early_message_leaves_a_request_open()
    ensures { (s : Session) (head : Head) (now n : ℕ) → GoesByNumber head.what
        → head.number ≡ Some n → s.numbers.next_in < n
        → IfOk (step s (Message head) now) (λ t. t.next.link ≡ LinkState.Active
        → IsSomeAnd t.next.ask (λ ask. n ≤ ask.top)) }
{}

/// What is sent again was asked for, from that number on, and was given out before.
pub fn resent_was_given_before()
    ensures { Always (λ s input now t. (from : ℕ) (to : ℕ)
        → Contains t.acts (Act.Resend from to) → 1 ≤ s.numbers.next_out
        → IsRequestFrom input from × (to < s.numbers.next_out)) }
{}

/// A Reject names a wrong name or time, the NewSeqNo(36) of a SequenceReset, or the fault of
/// another session message.
pub fn reject_has_its_cause()
    ensures { Always (λ s input now t. (tag : ℕ) (reason : ℕ)
        → Contains t.acts (Act.Say (Admin.Reject tag reason)) → IsRejectedFor input tag reason) }
{}
