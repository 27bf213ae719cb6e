//! What holds of reports that go down by the rules. Each law is the contract of a function that
//! does nothing.

ghost use Rattle.report_rules.specs.Down.{GoDown, KeepsBooks, KeepsSense, LacksMean, WritesDown};

/// What goes down keeps its sense: a report means the same, and a cancel reject that does not name
/// its order names the one that is known.
pub fn sense_is_kept()
    ensures { KeepsSense }
{}

/// What goes down changes each book alike.
pub fn books_are_kept()
    ensures { KeepsBooks }
{}

/// What goes down of a report stands for it: it is a report of FIX 4.2, means the same, changes
/// each book alike, and is read again.
pub fn reports_go_down()
    ensures { GoDown }
{}

/// What goes down of the fields of a report stands for what they say.
pub fn what_is_read_is_written()
    ensures { WritesDown }
{}

/// What lacks a spelling is a report of no sense, or a cancel reject of an unknown order.
pub fn lacks_are_meant()
    ensures { LacksMean }
{}
