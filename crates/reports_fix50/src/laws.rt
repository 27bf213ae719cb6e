//! Laws of reports of FIX 5.0 SP2. Each stands as the contract of a function that does nothing.

ghost use Rattle.reports_fix50.specs.Laws.{StepsAreMeant};

/// A book changes by what a message means as a report.
pub fn steps_are_meant()
    ensures { StepsAreMeant }
{}
