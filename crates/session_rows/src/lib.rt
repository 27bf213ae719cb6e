//! The calls of rows of a session: what it does, what it reads and says, and its frames; and of the
//! answers to messages and the plans of events, behind a journal whose entries stand in rows too. A
//! row `journal` begins a journal, and a row `entry` puts an entry behind it.
#![tactic(auto)]

mod answers;
mod entries;
mod frames;
mod logons;
mod plans;
mod sessions;
mod texts;
mod world;

pub use world::World;
