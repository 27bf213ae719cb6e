//! What rows of tables say: the kinds of their values, what a value is beside its message, and how
//! values are read from fields and written to a content.
#![tactic(auto)]

mod contras;
mod copies;
mod kinds;
mod lines;
mod maturity;
mod values;
mod writing;

pub use contras::{CONTRA_ROWS, CONTRAS, ContraLine, Contras};
pub use copies::{TEXTS, all_owned, bytes_of, owned};
pub use kinds::Kind;
pub use lines::{
    ALLOCS, AllocLine, Allocs, GroupLine, Maturity, PARTIES, SESSIONS, SessionLine, Sessions,
    read_group, read_lines,
};
pub use maturity::month_and_day;
pub use values::{
    AT_CLOSE, code, day, fine_stamp, fine_stamp_or_epoch, flag, may_close, month, number,
    number_or_zero, or_empty, price, price_or_zero, qty, qty_or_zero, reason, resend, stamp,
    stamp_or_epoch, text,
};
pub use writing::{Part, Value, put_content, put_dec};
