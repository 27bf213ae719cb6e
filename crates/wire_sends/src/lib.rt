//! What an event does on one wire: it sends the outs of an entry, sends again what is asked for,
//! and hangs up.
//!
//! Each call takes whether a connection stands, and answers whether it still does: a send that
//! failed has ended it, and then nothing more is sent.
#![tactic(auto)]

mod acts;
mod repeats;
mod sends;

pub use acts::{hang_up_on, outs_on, repeat_on};
pub use sends::is_side;
