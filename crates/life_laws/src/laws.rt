//! What holds of every life. Each law is a contract: its function does nothing.

ghost use Rattle.life_laws.specs.Laws.{FormsAreTakenInOrder, JustifiedIsTakenInOrder};
ghost use Rattle.life_laws.specs.Laws.{RepeatsFillGaps, FramesFillGaps, WhatIsSentIsRead};
ghost use Rattle.life_laws.specs.Laws.{EventsKeep, HoldingLeaves, StopsLeave, ClientTurnsKeep};
ghost use Rattle.life_laws.specs.Laws.{VenueTurnsKeep, LivesLeave, LivesThatFailLeave};
ghost use Rattle.life_laws.specs.Laws.{LivesBegin, EventsFillGaps};
ghost use Rattle.life_laws.specs.Days.{DaysLeave};

use crate::Answering;

/// Of frames that show outs of a journal, in any order, a receiver takes the committed ones, each
/// once and in order.
pub fn forms_are_taken_in_order()
    ensures { FormsAreTakenInOrder }
{}

/// Whatever of what was written on each connection arrives, a receiver that reads it as what it
/// shows takes the beginning of what was committed, each once and in order.
pub fn justified_transcripts_are_taken_in_order()
    ensures { JustifiedIsTakenInOrder }
{}

/// Where each out can be sent, what is written of each form is a frame, and is read as that form.
pub fn what_is_sent_is_read()
    ensures { WhatIsSentIsRead }
{}

/// What is sent again leads a receiver that expects the first number to the number past the last,
/// where all of it arrives; and so do the frames that are written of it.
pub fn repeats_fill_gaps()
    ensures forms { RepeatsFillGaps }
    ensures frames { FramesFillGaps }
{}

/// One event keeps all that holds between events: a lawful journal, its numbers, and what was
/// written and read.
pub fn events_keep<A: Answering>()
    ensures { EventsKeep A.answers }
{}

/// An event that answers a ResendRequest fills the gap: by the first frames of what it sends,
/// whoever expects the first number that was asked for comes to the number past the last.
pub fn events_fill_gaps<A: Answering>()
    ensures { EventsFillGaps A.answers }
{}

/// Between events the transcript is justified, and it is where an event ended the life, with its
/// entry or without.
pub fn stops_leave<A: Answering>()
    ensures before { HoldingLeaves A.answers }
    ensures within { StopsLeave A.answers }
{}

/// A side's turn in a round keeps all that holds between turns, whatever its poll brought.
pub fn turns_keep<A: Answering>()
    ensures client { ClientTurnsKeep A.answers }
    ensures venue { VenueTurnsKeep A.answers }
{}

/// A life of any length leaves a lawful journal and a transcript that it justifies; and so, where
/// what is written is read as what it shows, on each side a receiver that has taken the beginning
/// of what was committed, each once and in order.
pub fn lives_leave<A: Answering>()
    ensures { LivesLeave A.answers }
{}

/// A life that an event ended, in mid-round or at its end, leaves the same over the entries that
/// are left.
pub fn lives_that_fail_leave<A: Answering>()
    ensures { LivesThatFailLeave A.answers }
{}

/// A life begins with all that holds between events, where its journal is lawful and justifies what
/// was written and read before: so lives follow one another.
pub fn lives_begin<A: Answering>()
    ensures { LivesBegin A.answers }
{}

/// A life over session days leaves each day as a life leaves its journal: lawful, and justifying
/// what was written and read on it.
pub fn days_leave<A: Answering>()
    ensures { DaysLeave A.answers }
{}
