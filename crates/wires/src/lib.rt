//! The two peers and the clock of the gateway, as traits with a written meaning, and their forms in
//! memory.
//!
//! A wire tells, where it tells anything, its record: each poll with what it gave, each send with
//! what was written of it, each hang up. From that its transcript follows, the list of its
//! connections with the bytes read and written. It counts its faults and its polls besides, told or
//! not.
//!
//! The forms in memory tell all, and fail at the calls that their maker listed. A form that was
//! refused memory tells nothing from then on.
#![tactic(auto)]

mod clock;
pub mod laws;
mod mem_wire;
mod quiet;
mod record;
mod script;
mod wire;

pub use clock::{Clock, ListClock};
pub use mem_wire::{FAILED_SEND_LEN, MemWire};
pub use quiet::{QuietSource, QuietWire};
pub use record::{Call, Connection, Noted};
pub use script::Script;
pub use wire::{Arrival, POLL_LEN, Wire};
