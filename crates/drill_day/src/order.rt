//! The orders of a drill, as they are drawn.

ghost use Rattle.std.specs.Prelude.{◌≡◌, ◌<◌, ◌≤◌, ◌%◌, length, All, IfOk};
ghost use Rattle.drill_day.specs.Drill.{next, kind_at, drawn, orders_from};
ghost use Rattle.drill_day.specs.Day.{IsSmall};

use std::alloc::{AllocError, Global};

/// The greatest number that draws stand at.
pub(crate) const MAX_DRAW: u64 = 65_536;

/// What becomes of an order.
#[derive(Clone, Copy, Debug, PartialEq, Eq)]
pub(crate) enum OrderKind {
    /// It is filled at once.
    Filled,
    /// Half of it is filled, and that fill is taken back.
    Busted,
    /// Half of it is filled, and that fill is corrected to a quarter.
    Corrected,
    /// It is rejected.
    Rejected,
}

/// An order, as it was drawn.
#[derive(Clone, Copy, Debug)]
pub(crate) struct Drawn {
    /// OrderQty(38), a multiple of 100 up to 5,000.
    pub(crate) quantity: u32,
    /// Price(44), from 10 to 99.
    pub(crate) price: u32,
    /// Side(54): 1 buys, 2 sells.
    pub(crate) side: u32,
    /// What becomes of it.
    pub(crate) kind: OrderKind,
}

/// Where the draws of a drill stand.
#[derive(Clone, Copy, Debug)]
struct Draws {
    x: u64,
}

/// The kind of this number.
fn kind_at(number: u32) -> OrderKind
    ensures { result ≡ kind_at number }
{
    match number {
        0 => OrderKind::Filled,
        1 => OrderKind::Busted,
        2 => OrderKind::Corrected,
        _ => OrderKind::Rejected,
    }
}

impl Draws {
    /// A draw below `limit`.
    #[tactic(auto, unfolding(crate::specs::Drill::next))]
    fn below(&mut self, limit: u32) -> u32
        requires start { self.old.x ≤ MAX_DRAW }
        requires some { 0 < limit }
        ensures drawn { result ≡ next self.old.x % limit }
        ensures next { self.new.x ≡ next self.old.x }
        ensures most { self.new.x ≤ MAX_DRAW }
    {
        self.x = (75 * self.x + 74) % 65_537;
        self.x as u32 % limit
    }

    /// An order.
    fn order(&mut self) -> Drawn
        requires { self.old.x ≤ MAX_DRAW }
        ensures drawn { result ≡ drawn self.old.x }
        ensures next { self.new.x ≡ next (next (next (next self.old.x))) }
        ensures most { self.new.x ≤ MAX_DRAW }
    {
        Drawn {
            quantity: 100 * (1 + self.below(50)),
            price: 10 + self.below(90),
            side: 1 + self.below(2),
            kind: kind_at(self.below(4)),
        }
    }
}

/// So many orders, drawn from this number on.
pub(crate) fn draw_orders(alloc: Global, first: u64, count: u32) -> Result<Vec<Drawn>, AllocError>
    requires { first ≤ MAX_DRAW }
    ensures drawn { IfOk result (λ orders. orders.items ≡ orders_from first count) }
    ensures count { IfOk result (λ orders. length orders.items ≡ count) }
    ensures small { IfOk result (λ orders. All IsSmall orders.items) }
{
    let mut draws = Draws { x: first };
    let mut orders = Vec::new(alloc);
    for _ in 0..count {
        orders.push(draws.order())?;
    }
    Ok(orders)
}
