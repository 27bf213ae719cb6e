//! The requests of FIX 4.4 (D, F, G, H) as structs, read and written by the tables of dict_fix44.
#![tactic(auto)]

mod message;
mod reading;
mod requests;
mod writing;

pub use message::{read44, type44, write44};
pub use requests::{Cancel44, Msg44, New44, Replace44, Status44};
