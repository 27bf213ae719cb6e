//! The order messages of FIX 5.0 SP2: requests (D, F, G, H), read and written by the profile's
//! tables.
#![tactic(auto)]

mod groups;
mod message;
mod reading;
mod requests;
mod tables;
mod values;
mod writing;

pub use groups::{Groups, read_groups};
pub use message::{read50, type50, write50};
pub use reading::{ids_of_replace, texts_of_cancel, texts_of_order, texts_of_status};
pub use requests::{Cancel50, Msg50, New, New50, Replace, Replace50, Status50};
