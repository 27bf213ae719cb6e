//! The order messages of FIX 4.2: requests (D, F, G, H), read and written by the profile's tables.
#![tactic(auto)]

mod groups;
mod message;
mod reading;
mod requests;
mod tables;
mod writing;

pub use message::{RequestTables, read42, request_table, type42, write42};
pub use requests::{Cancel42, Msg42, New42, Replace42, Status42};
