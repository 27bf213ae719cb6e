//! One connection of the gateway over a socket: what waits to be written on it, its last words, and
//! its wait for a Logon; what is kept of a peer beside it, and the lines for the operator.
//!
//! What the system does with its calls is trusted: no clause can speak of it. Proved is that what
//! comes on a connection is some bytes or its end, within the buffer, whatever the system answers;
//! and for how long a peer is put off behind its connection.
#![tactic(auto)]

mod contact;
mod hung_up;
mod link;
mod system;
mod teller;
mod visitor;

pub use contact::{Contact, Parting};
pub use link::Link;
pub use system::System;
pub use teller::Teller;
pub use visitor::Visitor;
