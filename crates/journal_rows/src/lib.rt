//! The calls of rows of a source, a sink and a disk in memory, of logs and journals, by their bytes
//! and behind stops, of what `migrate` makes of journals of format 1, and of the taps.
#![tactic(auto)]

mod disks;
mod entries;
mod images;
mod journals;
mod logs;
mod migrating;
mod orders;
mod outs;
mod payloads;
mod stops;
mod taps;
mod texts;
mod torn;
mod world;

pub use world::World;
