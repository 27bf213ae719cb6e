//! Translation by rules: what a list of rules makes of a message, whatever the kinds of its rules
//! are. A direction is a data type of kinds and a list of them (`specs/ByRules.antt`); the lemmas
//! here name no kind, no version and no row. The code reads the texts that stand in fields, and
//! writes them, the lines of a group, and the content of a message by the rules of a direction:
//! these are fields and groups that are carried, and kinds of its own ([`OwnRule`]), of which it
//! adds what they read and write.
#![tactic(auto)]

mod group_lines;
mod lacks;
mod rules;
mod source;
mod texts;
mod writing;

pub use group_lines::{put_count, put_lines, put_one, put_text};
pub use lacks::first_lack;
pub use rules::{Lacking, OwnRule, Rule};
pub use source::Source;
pub use texts::{code_of, decimal_of, kept, number_of, put_decimal, put_moment};
pub use writing::put_rules;
