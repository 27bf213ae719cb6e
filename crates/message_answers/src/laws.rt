//! What holds of each answer. Each law is the contract of a function that does nothing.

ghost use Rattle.message_answers.specs.Laws.{AnswersAreGivenOut, AnswersAreOfTheApplication};
ghost use Rattle.message_answers.specs.Laws.{ForwardedMessagesCarry};

/// What goes on carries what came: a request of the client means the same order in both versions,
/// and a report of the venue changes each book alike, each by the step of its own version.
pub fn forwarded_messages_carry()
    ensures { ForwardedMessagesCarry }
{}

/// No answer is a message of a session. So each is sent again where messages are resent, and no gap
/// fill stands for it.
pub fn answers_are_of_the_application()
    ensures { AnswersAreOfTheApplication }
{}

/// Each answer can be sent: its type and its content are within the bounds of an entry of the
/// journal, and the content is at most 248 fields, which are read again as they are written. None
/// of them stands in the header, and the type is none of a session's but Reject(3).
pub fn answers_are_given_out()
    ensures { AnswersAreGivenOut }
{}
