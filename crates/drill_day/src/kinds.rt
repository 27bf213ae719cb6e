//! How many orders of each kind a drill has.

ghost use Rattle.std.specs.Prelude.{◌≡◌, ◌<◌, ◌^◌, length};
ghost use Rattle.drill_day.specs.Drill.{same_kind, count_of, kinds_in};

use crate::order::{Drawn, OrderKind};

/// How many orders of each kind a drill has.
#[derive(Clone, Copy, Debug, PartialEq, Eq)]
pub struct Kinds {
    /// Filled at once.
    pub filled: u32,
    /// Filled by half, with the fill taken back.
    pub busted: u32,
    /// Filled by half, with the fill corrected to a quarter.
    pub corrected: u32,
    /// Rejected.
    pub rejected: u32,
}

/// Whether two kinds are the same.
fn is_same(kind: OrderKind, other: OrderKind) -> bool
    ensures { result ≡ same_kind kind other }
{
    matches!(
        (kind, other),
        (OrderKind::Filled, OrderKind::Filled)
            | (OrderKind::Busted, OrderKind::Busted)
            | (OrderKind::Corrected, OrderKind::Corrected)
            | (OrderKind::Rejected, OrderKind::Rejected)
    )
}

/// How many orders are of a kind.
fn count_of(kind: OrderKind, orders: &[Drawn]) -> u32
    requires { length orders.now < 2 ^ 32 }
    ensures { result ≡ count_of kind orders.now }
{
    orders
        .iter()
        .filter(|order| is_same(kind, order.kind))
        .count() as u32
}

/// How many orders are of each kind.
pub(crate) fn kinds_in(orders: &[Drawn]) -> Kinds
    requires { length orders.now < 2 ^ 32 }
    ensures { result ≡ kinds_in orders.now }
{
    Kinds {
        filled: count_of(OrderKind::Filled, orders),
        busted: count_of(OrderKind::Busted, orders),
        corrected: count_of(OrderKind::Corrected, orders),
        rejected: count_of(OrderKind::Rejected, orders),
    }
}
