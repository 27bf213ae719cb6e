//! What holds of every decision. Each law is a contract: its function does nothing.

ghost use Rattle.event_decisions.specs.Laws.{BodiesAreRead, DecisionsContinue, DecisionsMake};

/// The fields of a body are those into which it splits.
pub fn bodies_are_read()
    ensures { BodiesAreRead }
{}

/// What an event decides goes on from the sessions before it: the numbers of its entry, the took,
/// and what is sent again.
pub fn decisions_continue()
    ensures { DecisionsContinue }
{}

/// The entry that an event decides is an answer to what it took, a session's Reject of a message of
/// its own, or messages of the sessions alone; what it took was expected, and no number that is
/// expected goes down.
pub fn decisions_make()
    ensures { DecisionsMake }
{}
