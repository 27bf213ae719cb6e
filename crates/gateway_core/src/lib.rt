//! What the gateway decides: of one event, one plan, which is committed before a byte of it is
//! sent.
//!
//! The decision is the definition `Decides` of event_decisions. It stands on the session table,
//! on the answer to a message of the application, `Answers` of message_answers, and on nothing
//! else.
#![tactic(auto)]

mod acting;
mod entries;
mod event;
pub mod laws;
mod outs;
mod plan;
mod planning;
mod sessions;

pub use event::Event;
pub use event_decisions::is_due;
pub use gateway_config::Config;
pub use plan::{Plan, PlanError};
pub use planning::Core;
