//! The gateway's edge to the system: TCP for the two wires, a file for the journal, the system's
//! clock, and lines for the operator on standard error.
//!
//! No call here waits for a peer. [`WaitingClock`] is asked once a round, and waits there for both
//! sockets at once, 50 ms at most; the wires then take what is there. What a peer does
//! not take of a send is kept, up to [`ROOM`](edge_logic::ROOM) bytes, and goes out at later polls.
//!
//! What the system does with its calls is trusted: no clause can speak of it. Proved is that each
//! part keeps the clauses of its trait whatever the system answers, and that a wire gives an
//! opening between two connections alone, and bytes and an end within one alone.
#![tactic(auto)]

mod client_listener;
mod edge;
mod journal_file;
mod stop_file;
mod streams;
mod venue_connector;
mod waiting_clock;

pub use client_listener::ClientListener;
pub use edge::{Addresses, ClientWire, Edge, VenueWire};
pub use edge_links::{System, Teller};
pub use journal_file::JournalFile;
pub use stop_file::StopFile;
pub use streams::{Reading, Writing};
pub use venue_connector::VenueConnector;
pub use waiting_clock::WaitingClock;
