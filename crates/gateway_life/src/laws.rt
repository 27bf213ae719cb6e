//! What holds of every life. Each law is a contract: its function does nothing else.

ghost use Rattle.gateway_life.specs.Laws.{LivesLeave, MessagesAreTaken, FirstLivesBegin};
ghost use Rattle.gateway_life.specs.Laws.{ReadNamesAreShown};

use book_laws::laws::{peers_agree, sides_learn_what_was_said};
use event_decisions::laws::bodies_are_read;
use life_laws::{Answering, laws as lives};
use message_answers::laws::answers_are_given_out;

/// What answers the messages of a life: the answer of message_answers.
#[derive(Clone, Copy)]
pub struct Messages;

impl Answering for Messages {
    ghost use Rattle.message_answers.specs.Answer.{Answers};

    ghost answers = { Answers };
}

/// However it ended, a life leaves a journal of which each day is lawful and justifies all that was
/// written and read on it; and, of each day, on each side a receiver that took the beginning of
/// what was committed to it, each message once and in order, that learned of it what the other side
/// said, and whose gaps are filled by what is sent again. Where both peers keep their numbers and
/// no gap is left, the books that they rebuild are equal. Each message of such a journal can be
/// sent: what a session says, and each answer.
pub fn lives_leave()
    ensures lives { LivesLeave }
    ensures taken { MessagesAreTaken }
{
    bodies_are_read();
    answers_are_given_out();
    lives::lives_begin::<Messages>();
    lives::stops_leave::<Messages>();
    sides_learn_what_was_said();
    peers_agree();
    lives::justified_transcripts_are_taken_in_order();
    lives::repeats_fill_gaps();
    lives::what_is_sent_is_read();
    lives::days_leave::<Messages>();
    lives::lives_that_fail_leave::<Messages>();
}

/// The names of a configuration that was read are printable, so a header can show them.
pub fn read_names_are_shown()
    ensures { ReadNamesAreShown }
{}

/// Lives follow one another, each from what the one before it left: the first goes on from a
/// journal without entries and nothing that was written or read.
pub fn lives_follow()
    ensures { FirstLivesBegin }
{}
