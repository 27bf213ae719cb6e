//! The session's messages as fields: what a session reads of a message, and what it writes.
//!
//! [`read_head`] gives the [`Head`](session_core::Head) of a message that came, by which a session
//! goes, and [`check_logon`] what a Logon says. [`say`] gives the type and the content of each
//! message that a session sends.
//!
//! The definitions stand on the list of a message's fields: `head_of` of `specs/Head.antt`,
//! `logon_of` of `specs/Logon.antt`, `said` of `specs/Content.antt`. That what one gateway writes
//! is read by another as what it meant stands in [`laws`].
#![tactic(auto)]

mod content;
mod head;
pub mod laws;
mod logon;
mod reasons;

pub use content::say;
pub use head::read_head;
pub use logon::{LogonFault, MAX_HEART, check_logon};
pub use order_meaning::{Name, Names};
pub use session_core::Said as Said42;
