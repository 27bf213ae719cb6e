//! A law of drills, over the definitions alone: its contract is the law, and its function does
//! nothing.

ghost use Rattle.std.specs.Prelude.{◌≡◌, ◌+◌, ℕ};
ghost use Rattle.drill_day.specs.Drill.{kinds_of};

/// Each order of a drill is of one kind.
pub fn kinds_sum()
    ensures { (first count : ℕ) → let kinds = kinds_of first count in
        kinds.filled + kinds.busted + kinds.corrected + kinds.rejected ≡ count }
{}
