//! The requests of FIX 4.4, each field by its row of the request table. They have the fields of
//! those of FIX 5.0 SP2, but that a HandlInst(21) may be missing.

use dict_fix50::{Cancel50, New, Replace, Status50};

/// A new order, New Order - Single(D).
pub type New44 = New<Option<u8>>;

/// A request to cancel an order, Order Cancel Request(F).
pub type Cancel44 = Cancel50;

/// A request to replace an order, Order Cancel/Replace Request(G).
pub type Replace44 = Replace<Option<u8>>;

/// A request for the state of an order, Order Status Request(H).
pub type Status44 = Status50;

/// A request of FIX 4.4.
#[derive(Debug, Drop)]
pub enum Msg44 {
    /// New Order - Single(D).
    New(New44),
    /// Order Cancel Request(F).
    Cancel(Cancel44),
    /// Order Cancel/Replace Request(G).
    Replace(Replace44),
    /// Order Status Request(H).
    Status(Status44),
}
