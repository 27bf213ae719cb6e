//! What a life of the gateway is, event by event, and what every life leaves: definitions and laws,
//! with no code.
//!
//! One event is `Happens` of `specs/Happens.antt`, a life is `Lives` of `specs/Turn.antt`. The laws
//! are the contracts of [`laws`].
#![tactic(auto)]

mod answering;
pub mod laws;

pub use answering::Answering;
