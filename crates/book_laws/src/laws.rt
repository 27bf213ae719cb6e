//! What is heard in each message, that each side learns what the other said, and that both peers
//! rebuild the same books. Each law is the contract of a function that does nothing.

ghost use Rattle.book_laws.specs.HeardLaws.{IdsAreCompared, RefusalsAreHeard, AnswersAreHeard};
ghost use Rattle.book_laws.specs.HeardLaws.{BodiesAreReadAlike, SessionsAreHeardPlain};
ghost use Rattle.book_laws.specs.HeardLaws.{SentSessionsAreHeardPlain, SidesLearn};
ghost use Rattle.book_laws.specs.Laws.{ConversationsAgree, HeadersSayNothing, JournalsAgree};
ghost use Rattle.book_laws.specs.Laws.{PeersAgree, RequestsAreJudged};
ghost use Rattle.book_laws.specs.Proper.{LawfulDaysAreProper};

use event_decisions::laws::decisions_make;
use message_answers::laws::answers_are_given_out;

/// What is heard in a message is what the answers go by. An answer to the side that asked is heard
/// as a refusal of what was asked; to the other side it is heard as a refusal of that side's own
/// message, or as what was heard in what was asked. The session takes each body as its receiver
/// reads it, and its own messages are nothing that an answer or a book depends on.
pub fn messages_are_read()
    ensures ids { IdsAreCompared }
    ensures refusals { RefusalsAreHeard }
    ensures texts { AnswersAreHeard }
    ensures alike { BodiesAreReadAlike }
    ensures plain { SessionsAreHeardPlain }
    ensures plain_outs { SentSessionsAreHeardPlain }
{
    answers_are_given_out();
}

/// A side took some beginning of what was committed to it. Whichever that is, it learned of it what
/// the other side said in the messages that went on to it under those numbers. The client's book is
/// the one that the venue's reports make: each fill, correction and bust changed it once, in order,
/// and nothing else did. The requests that the venue took mean, in order, what the client's first
/// requests that went on mean.
pub fn sides_learn_what_was_said()
    ensures { SidesLearn }
{
    messages_are_read();
    answers_are_given_out();
}

/// Each request that a lawful journal forwarded is at no fault, and the chains have of it what it
/// says of an order, though its fields are read and not judged again.
pub fn requests_are_judged()
    ensures { RequestsAreJudged }
{}

/// A lawful day is proper: each side's outs are numbered from 1 without a gap, and each message
/// that was taken has the number that was expected, or resets it.
pub fn lawful_days_are_proper()
    ensures { LawfulDaysAreProper }
{
    decisions_make();
}

/// A message means what its fields without the header mean: of the header PossResend(97) alone
/// counts.
pub fn headers_say_nothing()
    ensures { HeadersSayNothing }
{}

/// The order book that FIX 4.2 rebuilds from what a journal took from the client and gave to it is
/// the one that FIX 5.0 SP2 rebuilds from what it took from the venue and gave to it.
pub fn journals_agree()
    ensures { JournalsAgree }
{
    decisions_make();
    messages_are_read();
    headers_say_nothing();
}

/// Where a peer keeps its numbers and no gap is left, the books of its conversation are those of
/// the journal.
pub fn conversations_agree()
    ensures { ConversationsAgree }
{
    decisions_make();
    messages_are_read();
}

/// So both peers rebuild the same books.
pub fn peers_agree()
    ensures { PeersAgree }
{
    journals_agree();
    conversations_agree();
}
