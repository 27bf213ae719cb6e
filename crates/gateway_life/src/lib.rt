//! One life of the gateway: two wires are polled by turns, each event is decided and committed, and
//! then what it gives out is sent.
//!
//! What the events of a life are is the definition `Lives` of life_laws, over the records of the
//! wires and of the clock. [`live`] is a whole life, and [`Life`] has its parts.
#![tactic(auto)]

mod acts;
mod end;
mod engine;
pub mod laws;
mod life;
mod turn;

pub use end::LifeEnd;
pub use life::{Life, live};
