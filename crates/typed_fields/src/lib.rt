//! The values of FIX fields: read exactly, and written in their one canonical spelling.
//!
//! Each type reads its value from the bytes of a field, with a [`FieldFault`] where they are none:
//! `Empty` exactly for no bytes, `Form` exactly where the form is broken, and `Range` exactly where
//! the form holds and the bound does not. `write` appends the one canonical spelling, which is read
//! as the same value. [`FieldValue`] says this of all types at once.
//!
//! FIX 4.2, "Data Types"; FIX 5.0 SP2, volume 1, "Data Types".
#![tactic(auto)]

mod day;
mod dec;
mod digits;
mod fault;
mod flag;
pub mod laws;
mod month_year;
mod number;
mod stamp;
mod value;

pub use day::Day;
pub use dec::{Dec, has_minus, plain_units, point_in};
pub use digits::{are_digits, two_digits};
pub use fault::FieldFault;
pub use flag::Flag;
pub use month_year::MonthYear;
pub use number::Number;
pub use stamp::{Fraction, MAX_MILLIS, Stamp, cut_text};
pub use value::{FieldValue, MAX_SPELLING};
