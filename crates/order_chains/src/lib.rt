//! The requests that the gateway forwarded and that a report may speak of, by their ClOrdIDs.
//!
//! [`Chains`] is seen as the list of its items, in the order in which they were forwarded. Each
//! call is answered by that list.
#![tactic(auto)]

mod chains;
mod held;
mod id;
mod item;

pub use chains::Chains;
pub use item::{ChainItem, ItemRef};
