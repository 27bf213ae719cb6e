//! Laws of reports of FIX 4.4. Each stands as the contract of a function that does nothing.

ghost use Rattle.dict_fix44.specs.Laws.{StepsAreMeant};

/// A book changes by what a message means as a report.
pub fn steps_are_meant()
    ensures { StepsAreMeant }
{}
