//! What is kept of the entries of a journal while they stand on its disk alone.
//!
//! The next numbers behind them, where they end, the day that they are in, a mark behind every
//! 64th, and what the outs of the last day translate. No entry is held: [`Kept`] is seen as their
//! list.
#![tactic(auto)]

mod given;
mod kept;
mod numbers;
mod past;
mod reached;
mod sources;
mod spot;

pub use given::{out_in, source_in};
pub use kept::Kept;
pub use numbers::{Next, day_after, goes_on, next_out, numbers_before};
pub use reached::{Keeper, Reached};
pub use spot::{STRIDE, Spot, later, start};
