//! The kinds of values of which the tables of messages speak, and what bytes are as a value of a
//! kind: judged, or read.
#![tactic(auto)]

mod value_kind;

pub use value_kind::{
    MAX_REASON, ValueKind, code, day, day_of_month, fine_stamp, has_day, month_year, text,
};
