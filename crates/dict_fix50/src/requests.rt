//! The requests of FIX 5.0 SP2, each field by its row of the request table. Those of FIX 4.4 have
//! the same fields, but for HandlInst(21), which they need not have: its type is a parameter.

use order_meaning::{Bytes, Lines};
use row_values::{Allocs, Maturity, Sessions};
use typed_fields::{Day, Dec, Flag, Stamp};

/// A new order, New Order - Single(D).
#[derive(Debug, Drop)]
pub struct New<HandInst> {
    /// Whether it repeats a request that was sent before, PossResend(97).
    pub resend: bool,
    /// ClOrdID(11), 1 to 128 bytes.
    pub cl_ord_id: Bytes,
    /// Parties(453), all lines in their order; PartyIDSource(447) is not kept.
    pub parties: Lines,
    /// Account(1), 1 to 128 bytes.
    pub account: Option<Bytes>,
    /// PreAllocGrp(78).
    pub allocs: Allocs,
    /// SettlType(63), `0` to `9`.
    pub settl_type: Option<u8>,
    /// SettlDate(64).
    pub settl_date: Option<Day>,
    /// HandlInst(21), `1`, `2` or `3`; in FIX 4.4 none counts as `1`.
    pub hand_inst: HandInst,
    /// ExecInst(18): of `1` to `6` and `G`, single spaces between.
    pub exec_inst: Option<Bytes>,
    /// MinQty(110), not negative.
    pub min_qty: Option<Dec>,
    /// DisplayQty(1138), not negative; MaxFloor(111) of FIX 4.2 and FIX 4.4.
    pub max_floor: Option<Dec>,
    /// ExDestination(100), 1 to 128 bytes.
    pub ex_destination: Option<Bytes>,
    /// TrdgSesGrp(386).
    pub sessions: Sessions,
    /// Symbol(55), 1 to 128 bytes.
    pub symbol: Bytes,
    /// SymbolSfx(65), 1 to 128 bytes.
    pub symbol_sfx: Option<Bytes>,
    /// SecurityID(48), 1 to 128 bytes.
    pub security_id: Option<Bytes>,
    /// SecurityIDSource(22), `1` to `9`.
    pub id_source: Option<u8>,
    /// SecurityType(167), `CS`, `PS` or `FUT`.
    pub security_type: Option<Bytes>,
    /// MaturityMonthYear(200), and MaturityDate(541) where it has a day.
    pub maturity: Option<Maturity>,
    /// SecurityExchange(207), 1 to 128 bytes.
    pub security_exchange: Option<Bytes>,
    /// Side(54), `1` to `6`.
    pub side: u8,
    /// LocateReqd(114).
    pub locate: Option<Flag>,
    /// TransactTime(60).
    pub transact_time: Stamp,
    /// OrderQty(38), not negative.
    pub order_qty: Dec,
    /// OrdType(40), `1` to `4`; in FIX 4.4 also `5` and `B`.
    pub ord_type: u8,
    /// Price(44).
    pub price: Option<Dec>,
    /// StopPx(99).
    pub stop_px: Option<Dec>,
    /// Currency(15), three capital letters.
    pub currency: Option<Bytes>,
    /// TimeInForce(59), `0` to `6`, and `7` where OrdType(40) is `1` or `2`; in FIX 4.4 `0` to `7`.
    pub time_in_force: Option<u8>,
    /// EffectiveTime(168).
    pub effective_time: Option<Stamp>,
    /// ExpireDate(432).
    pub expire_date: Option<Day>,
    /// ExpireTime(126).
    pub expire_time: Option<Stamp>,
    /// OrderCapacity(528), `A`, `I` or `P`; in FIX 4.4 any byte.
    pub capacity: Option<u8>,
    /// PositionEffect(77), `O` or `C`.
    pub open_close: Option<u8>,
    /// Text(58), 1 to 2,048 bytes.
    pub text: Option<Bytes>,
}

/// A request to cancel an order, Order Cancel Request(F).
#[derive(Debug, Drop)]
pub struct Cancel50 {
    /// Whether it repeats a request that was sent before, PossResend(97).
    pub resend: bool,
    /// ClOrdID(11), 1 to 128 bytes.
    pub cl_ord_id: Bytes,
    /// OrigClOrdID(41), 1 to 128 bytes.
    pub orig_id: Bytes,
    /// OrderID(37), 1 to 128 bytes.
    pub order_id: Option<Bytes>,
    /// Parties(453), all lines in their order; PartyIDSource(447) is not kept.
    pub parties: Lines,
    /// Account(1), 1 to 128 bytes.
    pub account: Option<Bytes>,
    /// Symbol(55), 1 to 128 bytes.
    pub symbol: Bytes,
    /// SymbolSfx(65), 1 to 128 bytes.
    pub symbol_sfx: Option<Bytes>,
    /// SecurityID(48), 1 to 128 bytes.
    pub security_id: Option<Bytes>,
    /// SecurityIDSource(22), `1` to `9`.
    pub id_source: Option<u8>,
    /// SecurityType(167), `CS`, `PS` or `FUT`.
    pub security_type: Option<Bytes>,
    /// MaturityMonthYear(200), and MaturityDate(541) where it has a day.
    pub maturity: Option<Maturity>,
    /// SecurityExchange(207), 1 to 128 bytes.
    pub security_exchange: Option<Bytes>,
    /// Side(54), `1` to `6`.
    pub side: u8,
    /// TransactTime(60).
    pub transact_time: Stamp,
    /// OrderQty(38), not negative.
    pub order_qty: Option<Dec>,
    /// Text(58), 1 to 2,048 bytes.
    pub text: Option<Bytes>,
}

/// A request to replace an order, Order Cancel/Replace Request(G).
#[derive(Debug, Drop)]
pub struct Replace<HandInst> {
    /// Whether it repeats a request that was sent before, PossResend(97).
    pub resend: bool,
    /// ClOrdID(11), 1 to 128 bytes.
    pub cl_ord_id: Bytes,
    /// OrigClOrdID(41), 1 to 128 bytes.
    pub orig_id: Bytes,
    /// OrderID(37), 1 to 128 bytes.
    pub order_id: Option<Bytes>,
    /// Parties(453), all lines in their order; PartyIDSource(447) is not kept.
    pub parties: Lines,
    /// Account(1), 1 to 128 bytes.
    pub account: Option<Bytes>,
    /// PreAllocGrp(78).
    pub allocs: Allocs,
    /// SettlType(63), `0` to `9`.
    pub settl_type: Option<u8>,
    /// SettlDate(64).
    pub settl_date: Option<Day>,
    /// HandlInst(21), `1`, `2` or `3`; in FIX 4.4 none counts as `1`.
    pub hand_inst: HandInst,
    /// ExecInst(18): of `1` to `6` and `G`, single spaces between.
    pub exec_inst: Option<Bytes>,
    /// MinQty(110), not negative.
    pub min_qty: Option<Dec>,
    /// DisplayQty(1138), not negative; MaxFloor(111) of FIX 4.2 and FIX 4.4.
    pub max_floor: Option<Dec>,
    /// ExDestination(100), 1 to 128 bytes.
    pub ex_destination: Option<Bytes>,
    /// TrdgSesGrp(386).
    pub sessions: Sessions,
    /// Symbol(55), 1 to 128 bytes.
    pub symbol: Bytes,
    /// SymbolSfx(65), 1 to 128 bytes.
    pub symbol_sfx: Option<Bytes>,
    /// SecurityID(48), 1 to 128 bytes.
    pub security_id: Option<Bytes>,
    /// SecurityIDSource(22), `1` to `9`.
    pub id_source: Option<u8>,
    /// SecurityType(167), `CS`, `PS` or `FUT`.
    pub security_type: Option<Bytes>,
    /// MaturityMonthYear(200), and MaturityDate(541) where it has a day.
    pub maturity: Option<Maturity>,
    /// SecurityExchange(207), 1 to 128 bytes.
    pub security_exchange: Option<Bytes>,
    /// Side(54), `1` to `6`.
    pub side: u8,
    /// LocateReqd(114).
    pub locate: Option<Flag>,
    /// TransactTime(60).
    pub transact_time: Stamp,
    /// OrderQty(38), not negative.
    pub order_qty: Dec,
    /// OrdType(40), `1` to `4`; in FIX 4.4 also `5` and `B`.
    pub ord_type: u8,
    /// Price(44).
    pub price: Option<Dec>,
    /// StopPx(99).
    pub stop_px: Option<Dec>,
    /// Currency(15), three capital letters.
    pub currency: Option<Bytes>,
    /// TimeInForce(59), `0` to `6`, and `7` where OrdType(40) is `1` or `2`; in FIX 4.4 `0` to `7`.
    pub time_in_force: Option<u8>,
    /// EffectiveTime(168).
    pub effective_time: Option<Stamp>,
    /// ExpireDate(432).
    pub expire_date: Option<Day>,
    /// ExpireTime(126).
    pub expire_time: Option<Stamp>,
    /// OrderCapacity(528), `A`, `I` or `P`; in FIX 4.4 any byte.
    pub capacity: Option<u8>,
    /// PositionEffect(77), `O` or `C`.
    pub open_close: Option<u8>,
    /// Text(58), 1 to 2,048 bytes.
    pub text: Option<Bytes>,
}

/// A request for the state of an order, Order Status Request(H).
#[derive(Debug, Drop)]
pub struct Status50 {
    /// Whether it repeats a request that was sent before, PossResend(97).
    pub resend: bool,
    /// ClOrdID(11), 1 to 128 bytes.
    pub cl_ord_id: Bytes,
    /// OrderID(37), 1 to 128 bytes.
    pub order_id: Option<Bytes>,
    /// Parties(453), all lines in their order; PartyIDSource(447) is not kept.
    pub parties: Lines,
    /// Account(1), 1 to 128 bytes.
    pub account: Option<Bytes>,
    /// Symbol(55), 1 to 128 bytes.
    pub symbol: Bytes,
    /// SymbolSfx(65), 1 to 128 bytes.
    pub symbol_sfx: Option<Bytes>,
    /// SecurityID(48), 1 to 128 bytes.
    pub security_id: Option<Bytes>,
    /// SecurityIDSource(22), `1` to `9`.
    pub id_source: Option<u8>,
    /// SecurityType(167), `CS`, `PS` or `FUT`.
    pub security_type: Option<Bytes>,
    /// MaturityMonthYear(200), and MaturityDate(541) where it has a day.
    pub maturity: Option<Maturity>,
    /// SecurityExchange(207), 1 to 128 bytes.
    pub security_exchange: Option<Bytes>,
    /// Side(54), `1` to `6`.
    pub side: u8,
}

/// New Order - Single(D) of FIX 5.0 SP2.
pub type New50 = New<u8>;

/// Order Cancel/Replace Request(G) of FIX 5.0 SP2.
pub type Replace50 = Replace<u8>;

/// An order message of FIX 5.0 SP2.
#[derive(Debug, Drop)]
pub enum Msg50 {
    /// New Order - Single(D).
    New(New50),
    /// Order Cancel Request(F).
    Cancel(Cancel50),
    /// Order Cancel/Replace Request(G).
    Replace(Replace50),
    /// Order Status Request(H).
    Status(Status50),
}
