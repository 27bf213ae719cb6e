//! What holds of requests that go up. Each law is the contract of a function that does nothing.

ghost use Rattle.request_rules.specs.Up.{GoUp, KeepsSense, LacksByRules, ReadGoUp};

/// What goes up of a message that lacks nothing means what the message means, whatever its type is.
pub fn sense_is_kept()
    ensures { KeepsSense }
{}

/// The lack of a request is that of the first rule that has one.
pub fn lacks_are_by_rules()
    ensures { LacksByRules }
{}

/// What goes up of a sound request that lacks nothing stands for it: it is canonical, means the
/// same, is written rule by rule, and is read again.
pub fn requests_go_up()
    ensures { GoUp }
{}

/// The same of what the fields of a body are read as.
pub fn what_is_read_goes_up()
    ensures { ReadGoUp }
{}
