//! What holds of what goes up from FIX 4.4, and down to it, by the rules. Each law is the contract
//! of a function that does nothing.

ghost use Rattle.translate_fix44.specs.Laws.{GoDown, GoUp, ReadGoUp};

/// What goes up of a request that lacks nothing stands for it: it is canonical, means the same, and
/// is read again.
pub fn requests_go_up()
    ensures { GoUp }
{}

/// The same of what the fields of a body are read as.
pub fn what_is_read_goes_up()
    ensures { ReadGoUp }
{}

/// What goes down of a report that lacks nothing stands for it: it means the same, changes each
/// book alike, and is read again.
pub fn reports_go_down()
    ensures { GoDown }
{}
