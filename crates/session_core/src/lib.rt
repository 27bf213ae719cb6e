//! The rules of one FIX session, as a table.
//!
//! A [`Session`] is a value. Each call says what the session does at one thing that happened to it,
//! as a [`Step`]: the acts, in order, and the session afterwards. No call takes memory.
//!
//! The table itself is the definition `step` of `specs/Table.antt`, with the rows S1 to S36, and
//! each call answers exactly it. What the table keeps, whatever happens, stands in [`laws`].
#![tactic(auto)]

mod act;
mod acts;
mod head;
pub mod laws;
mod message;
mod numbers;
pub mod reason;
mod said;
mod session;
pub mod tag;
mod tick;

pub use act::{Act, Admin, Why};
pub use acts::{Acts, MAX_ACTS};
pub use head::{Head, What};
pub use numbers::{ALL_USED, MAX_MSG_SEQ_NUM, Numbers};
pub use said::{MAX_REF_MSG_TYPE, Said, ref_msg_type};
pub use session::{Ask, LinkState, Session, Spent, Step};
