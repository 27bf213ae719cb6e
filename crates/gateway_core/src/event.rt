//! What may happen to the gateway.

use order_meaning::Side;

/// One thing that happens to one of the two sessions, or a new day, which begins for both.
#[derive(Clone, Copy, Debug)]
pub enum Event<'a> {
    /// The connection of a side opened.
    Opened(Side),
    /// A whole frame came from a side. This is its body, from `35=` on.
    Frame(Side, &'a [u8]),
    /// The connection of a side ended.
    Closed(Side),
    /// Time went by on a side.
    Tick(Side),
    /// The gateway ends, and says so to a side.
    End(Side),
    /// A session day begins, behind the end of both sides.
    NewDay,
}
