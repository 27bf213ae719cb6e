//! What both versions mean by an order message, and the words that the whole gateway shares.
#![tactic(auto)]

mod bytes;
mod fault;
mod lines;
mod names;
mod party;
mod reasons;
mod refusal;

pub use bytes::Bytes;
pub use fault::{Fault, Lack};
pub use lines::{GroupLines, MAX_LINES};
pub use names::{MAX_NAME, Name, Names};
pub use party::{Lines, PartyLine, Three};
pub use reasons::{MAX_REASON42, later_reason_words};
pub use refusal::Refusal;

/// One of the two sessions of the gateway, named by who is at its other end.
#[derive(Clone, Copy, Debug, PartialEq, Eq)]
pub enum Side {
    /// The FIX 4.2 client. It opens the connection and logs on first.
    Client,
    /// The FIXT 1.1 venue. The gateway logs on to it as soon as the connection opens.
    Venue,
}

/// A quantity or a price, in units of 10^-8.
#[derive(Clone, Copy, Debug, PartialEq, Eq)]
pub struct Amount {
    /// How many units.
    pub units: i128,
}
