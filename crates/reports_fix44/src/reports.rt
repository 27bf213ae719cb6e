//! The reports of FIX 4.4, each field by its row of the report table.

use order_meaning::Bytes;
use reports_fix50::Report50;
use typed_fields::{Number, Stamp};

/// Execution Report (8), which says what one of FIX 5.0 SP2 says; MaxFloor(111) is its max floor.
pub type Report44 = Report50;

/// A report that an order was neither canceled nor replaced, Order Cancel Reject(9).
#[derive(Debug, Drop)]
pub struct CancelReject44 {
    /// Whether it repeats a report that was sent before, PossResend(97).
    pub resend: bool,
    /// OrderID(37), 1 to 128 bytes.
    pub order_id: Bytes,
    /// SecondaryOrderID(198), 1 to 128 bytes.
    pub secondary_id: Option<Bytes>,
    /// ClOrdID(11), 1 to 128 bytes.
    pub cl_ord_id: Bytes,
    /// OrigClOrdID(41), 1 to 128 bytes.
    pub orig_id: Bytes,
    /// OrdStatus(39), `0` to `4`, `6` to `9` or `A` to `E`.
    pub ord_status: u8,
    /// Account(1), 1 to 128 bytes.
    pub account: Option<Bytes>,
    /// TransactTime(60).
    pub transact_time: Option<Stamp>,
    /// CxlRejResponseTo(434), `1` or `2`.
    pub response_to: u8,
    /// CxlRejReason(102), 0 to 9,999.
    pub cxl_reason: Option<Number>,
    /// Text(58), 1 to 2,048 bytes.
    pub text: Option<Bytes>,
}
