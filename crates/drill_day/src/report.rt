//! What the venue reports of an order.

ghost use Rattle.std.specs.Prelude.{◌≡◌};
ghost use Rattle.drill_day.specs.Drill.{accepted, filled, half_filled, busted, corrected};
ghost use Rattle.drill_day.specs.Drill.{rejected, exec_text, status_text};
ghost use Rattle.drill_day.specs.Day.{IsSmall};

use crate::order::Drawn;

/// ExecType(150).
#[derive(Clone, Copy, Debug, PartialEq, Eq)]
pub(crate) enum ExecType {
    New,
    Trade,
    TradeCancel,
    TradeCorrect,
    Rejected,
}

impl ExecType {
    /// Its field, without SOH.
    pub(crate) fn text(self) -> &'static [u8]
        ensures { result.now ≡ exec_text self }
    {
        match self {
            ExecType::New => b"150=0",
            ExecType::Trade => b"150=F",
            ExecType::TradeCancel => b"150=H",
            ExecType::TradeCorrect => b"150=G",
            ExecType::Rejected => b"150=8",
        }
    }
}

/// OrdStatus(39).
#[derive(Clone, Copy, Debug, PartialEq, Eq)]
pub(crate) enum OrdStatus {
    New,
    PartiallyFilled,
    Filled,
    Rejected,
}

impl OrdStatus {
    /// Its field, without SOH.
    pub(crate) fn text(self) -> &'static [u8]
        ensures { result.now ≡ status_text self }
    {
        match self {
            OrdStatus::New => b"39=0",
            OrdStatus::PartiallyFilled => b"39=1",
            OrdStatus::Filled => b"39=2",
            OrdStatus::Rejected => b"39=8",
        }
    }
}

/// What a report says besides whose it is.
#[derive(Clone, Copy, Debug)]
pub(crate) struct Report {
    /// ExecType(150).
    pub(crate) exec_type: ExecType,
    /// OrdStatus(39).
    pub(crate) status: OrdStatus,
    /// LastQty(32) of a fill, at the order's price.
    pub(crate) fill: Option<u32>,
    /// LeavesQty(151).
    pub(crate) leaves: u32,
    /// CumQty(14).
    pub(crate) cum: u32,
    /// AvgPx(6).
    pub(crate) average: u32,
}

/// The order is new.
pub(crate) fn accepted(order: &Drawn) -> Report
    ensures { result ≡ accepted order.now }
{
    Report {
        exec_type: ExecType::New,
        status: OrdStatus::New,
        fill: None,
        leaves: order.quantity,
        cum: 0,
        average: 0,
    }
}

/// All of the order is filled.
pub(crate) fn filled(order: &Drawn) -> Report
    ensures { result ≡ filled order.now }
{
    Report {
        exec_type: ExecType::Trade,
        status: OrdStatus::Filled,
        fill: Some(order.quantity),
        leaves: 0,
        cum: order.quantity,
        average: order.price,
    }
}

/// Half of the order is filled.
pub(crate) fn half_filled(order: &Drawn) -> Report
    ensures { result ≡ half_filled order.now }
{
    let half = order.quantity / 2;
    Report {
        exec_type: ExecType::Trade,
        status: OrdStatus::PartiallyFilled,
        fill: Some(half),
        leaves: half,
        cum: half,
        average: order.price,
    }
}

/// The fill of the report before is taken back.
pub(crate) fn busted(order: &Drawn) -> Report
    ensures { result ≡ busted order.now }
{
    Report {
        exec_type: ExecType::TradeCancel,
        status: OrdStatus::New,
        fill: None,
        leaves: order.quantity,
        cum: 0,
        average: 0,
    }
}

/// The fill of the report before is corrected to a quarter of the order.
pub(crate) fn corrected(order: &Drawn) -> Report
    requires { IsSmall order.now }
    ensures { result ≡ corrected order.now }
{
    let quarter = order.quantity / 4;
    Report {
        exec_type: ExecType::TradeCorrect,
        status: OrdStatus::PartiallyFilled,
        fill: Some(quarter),
        leaves: 3 * order.quantity / 4,
        cum: quarter,
        average: order.price,
    }
}

/// The order is rejected.
pub(crate) fn rejected() -> Report
    ensures { result ≡ rejected }
{
    Report {
        exec_type: ExecType::Rejected,
        status: OrdStatus::Rejected,
        fill: None,
        leaves: 0,
        cum: 0,
        average: 0,
    }
}
