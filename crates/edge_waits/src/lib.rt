//! What the gateway's edge knows of a connection, and whom it lets wait: the fields of the messages
//! that came, what the gateway said last, why a connection ended before a session stood, who may
//! hold the client's place, and how long a side whose numbers were too low is put off.
//!
//! All of it goes by bytes that came or went, and by moments as numbers, so each clause is exact.
//! The sockets stand above, in `edge_system`.
#![tactic(auto)]

mod fields;
mod held;
mod lobby;
mod put_off;
mod said;
mod talk;
mod why;

pub use fields::value_of;
pub use held::Held;
pub use lobby::{First, LOBBY, Lobby, Standing, Stranger, first_in, standing_of};
pub use put_off::PutOff;
pub use said::{logout_text, too_low};
pub use talk::Talk;
pub use why::put_closing;
