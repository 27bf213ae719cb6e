//! Taps: who is shown each entry of a journal once it is committed.
//!
//! A tap says as ghost members which entries it was shown, where it tells them, what it counted,
//! how often it failed, whether it has failed, and whether it never fails. One that has failed is
//! called no more. Taps are kept in boxes: [`show`] shows all of them an entry, and [`clear`] drops
//! those that have failed.
#![tactic(auto)]

mod keep_tap;
mod line_tap;
mod tap;
mod taps;
mod totals_tap;

pub use keep_tap::KeepTap;
pub use line_tap::LineTap;
pub use tap::{Seen, Tap, TapFailed};
pub use taps::{clear, show};
pub use totals_tap::TotalsTap;
