//! Tables of messages as data, the first fault of fields beside a table, and the lines of their
//! repeating groups.
#![tactic(auto)]

mod group_lines;
mod group_stage;
pub mod laws;
mod lookup;
mod macros;
mod stages;
mod table;
mod table_fault;
mod tag_marks;

pub use group_lines::{line, line_end};
pub use lookup::{Line, Lookup, field_at, stands, value};
pub use stages::Found;
pub use table::{Item, Need, RepeatingGroup, Row, Standing, Table, Test};
pub use table_fault::{Mark, TableFault};
pub use tag_marks::TagMarks;
