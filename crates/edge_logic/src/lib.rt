//! What the gateway's edge to the system is made of, as far as it has no socket and no file: what
//! waits for a peer, when the venue is tried again, whether a Logon has come, the lines for the
//! operator, and a peer as a wire.
//!
//! What is proved of it, whatever the system answers:
//!
//! - over every writer that tells its bytes, what went out and what waits are together just what
//!   was sent, in order, and what waits is at most [`ROOM`] bytes;
//! - a wire gives an opening between two connections alone, and bytes and an end within one alone;
//! - when the venue is tried again, what counts as an active session there, and the text of each
//!   line.
#![tactic(auto)]

mod back_off;
mod clocks;
mod counted;
mod end_time;
mod fault;
mod journal;
mod logon_mark;
mod notice;
mod outbox;
mod pace;
mod shared;

pub use back_off::{BackOff, LinkEnd};
pub use clocks::{moment, ticks};
pub use counted::{Counted, Peer};
pub use end_time::{LONG_END, ROUNDS_A_SECOND, long_end};
pub use fault::Fault;
pub use journal::{
    Denial, HEAD, Refusal, Tally, fill, folder, is_of_format_1, may_be_journal, stop_path,
};
pub use logon_mark::LogonMark;
pub use notice::{
    ClosedNth, Ending, Lost, Missed, NextTry, Notice, PeerName, RefusedNth, TooLow, line, put_stamp,
};
pub use outbox::{Outbox, ROOM};
pub use pace::Pace;
pub use shared::{Shared, WAIT, wait_after};
