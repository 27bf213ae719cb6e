//! The tables of reports and refusals, as the code has them.

ghost use Rattle.std.specs.Prelude.{◌≡◌};
ghost use Rattle.message_tables.specs.CodeTables.{table_of as code_table};
ghost use Rattle.row_values.specs.CodeKinds.{kind_of};
ghost use Rattle.reports_fix50.specs.Message.{business_reject_table, cancel_reject_table};
ghost use Rattle.reports_fix50.specs.Message.{report_table, session_reject_table};

use message_tables::Need::{Lenient, Optional, Required, When};
use message_tables::{Item, Need, Table, Test, one, table};
use row_values::Kind::{MonthBeside, TimeBeside, Value};
use row_values::{CONTRAS, Kind, PARTIES};
use rows_fix50::HEADER;
use value_kinds::ValueKind::{
    Code, Currency, Day, FineStamp, Id, Known, Number, Price, Qty, Reason, Text, Word,
};

/// What ExecType(150) may be.
pub(crate) const EXEC_TYPES: &[u8] = b"03456789ABCDEFGHIJKL";

/// What OrdStatus(39) may be.
pub(crate) const ORD_STATUSES: &[u8] = b"0123456789ABCDE";

/// What a trade and its correction say.
const WHERE_TRADE: Need = When(&[&[Test::Is(150, b"FG")]]);

/// What a correction and a bust say.
const WHERE_OF_ANOTHER: Need = When(&[&[Test::Is(150, b"GH")]]);

/// Execution Report (8), in the order of writing.
#[rattlefmt::skip]
const EXECUTION_REPORT: [Item<Kind>; 47] = [
    one!(37, Value(Id), Required), // OrderID
    one!(198, Value(Id), Optional), // SecondaryOrderID
    one!(11, Value(Id), Optional), // ClOrdID
    one!(41, Value(Id), Optional), // OrigClOrdID
    Item::Lines(PARTIES),
    Item::Party(3), // ClientID of FIX 4.2
    Item::Party(1), // ExecBroker of FIX 4.2
    Item::Party(4), // ClearingFirm of FIX 4.2
    Item::Lines(CONTRAS),
    one!(17, Value(Id), Required), // ExecID
    one!(19, Value(Id), WHERE_OF_ANOTHER), // ExecRefID
    one!(150, Value(Known(EXEC_TYPES)), Required), // ExecType
    one!(39, Value(Known(ORD_STATUSES)), Required), // OrdStatus
    one!(103, Value(Reason), Optional), // OrdRejReason
    one!(378, Value(Reason), Optional), // ExecRestatementReason
    one!(1, Value(Id), Optional), // Account
    one!(63, Value(Code(b"0123456789")), Lenient), // SettlType
    one!(64, Value(Day), Optional), // SettlDate
    one!(55, Value(Id), Required), // Symbol
    one!(65, Value(Id), Optional), // SymbolSfx
    one!(48, Value(Id), Optional), // SecurityID
    one!(22, Value(Code(b"123456789")), Lenient), // SecurityIDSource
    one!(167, Value(Word(&[b"CS", b"PS", b"FUT"])), Lenient), // SecurityType
    one!(200, MonthBeside(541), Lenient), // MaturityMonthYear
    one!(541, Value(Day), Optional), // MaturityDate
    one!(207, Value(Id), Optional), // SecurityExchange
    one!(54, Value(Code(b"123456")), Required), // Side
    one!(38, Value(Qty), Optional), // OrderQty
    one!(40, Value(Code(b"1234")), Lenient), // OrdType
    one!(44, Value(Price), Optional), // Price
    one!(99, Value(Price), Optional), // StopPx
    one!(15, Value(Currency), Optional), // Currency
    one!(59, TimeBeside(40), Lenient), // TimeInForce
    one!(432, Value(Day), Optional), // ExpireDate
    one!(126, Value(FineStamp), Optional), // ExpireTime
    one!(528, Value(Code(b"AIP")), Lenient), // OrderCapacity
    one!(32, Value(Qty), WHERE_TRADE), // LastQty
    one!(31, Value(Price), WHERE_TRADE), // LastPx
    one!(30, Value(Id), Optional), // LastMkt
    one!(151, Value(Qty), Required), // LeavesQty
    one!(14, Value(Qty), Required), // CumQty
    one!(6, Value(Price), Required), // AvgPx
    one!(75, Value(Day), Optional), // TradeDate
    one!(60, Value(FineStamp), Optional), // TransactTime
    one!(110, Value(Qty), Optional), // MinQty
    one!(1138, Value(Qty), Optional), // DisplayQty
    one!(58, Value(Text), Optional), // Text
];

/// Order Cancel Reject (9), in the order of writing.
#[rattlefmt::skip]
const CANCEL_REJECT: [Item<Kind>; 10] = [
    one!(37, Value(Id), Required), // OrderID
    one!(198, Value(Id), Optional), // SecondaryOrderID
    one!(11, Value(Id), Required), // ClOrdID
    one!(41, Value(Id), Optional), // OrigClOrdID
    one!(39, Value(Known(ORD_STATUSES)), Required), // OrdStatus
    one!(1, Value(Id), Optional), // Account
    one!(60, Value(FineStamp), Optional), // TransactTime
    one!(434, Value(Known(b"12")), Required), // CxlRejResponseTo
    one!(102, Value(Reason), Optional), // CxlRejReason
    one!(58, Value(Text), Optional), // Text
];

/// Reject (3), in the order of writing.
#[rattlefmt::skip]
const SESSION_REJECT: [Item<Kind>; 5] = [
    one!(45, Value(Number), Required), // RefSeqNum
    one!(371, Value(Number), Optional), // RefTagID
    one!(372, Value(Id), Optional), // RefMsgType
    one!(373, Value(Number), Optional), // SessionRejectReason
    one!(58, Value(Text), Optional), // Text
];

/// Business Message Reject (j), in the order of writing.
#[rattlefmt::skip]
const BUSINESS_REJECT: [Item<Kind>; 5] = [
    one!(45, Value(Number), Optional), // RefSeqNum
    one!(372, Value(Id), Required), // RefMsgType
    one!(379, Value(Id), Optional), // BusinessRejectRefID
    one!(380, Value(Number), Required), // BusinessRejectReason
    one!(58, Value(Text), Optional), // Text
];

/// The table of Execution Report.
static EXECUTION_REPORT_TABLE: Table<Kind> = table!(b'8', HEADER, EXECUTION_REPORT, false);

/// The table of Order Cancel Reject.
static CANCEL_REJECT_TABLE: Table<Kind> = table!(b'9', HEADER, CANCEL_REJECT, false);

/// The table of Reject.
static SESSION_REJECT_TABLE: Table<Kind> = table!(b'3', HEADER, SESSION_REJECT, false);

/// The table of Business Message Reject.
static BUSINESS_REJECT_TABLE: Table<Kind> = table!(b'j', HEADER, BUSINESS_REJECT, false);

/// The table of Execution Report(8).
pub fn execution_report() -> &'static Table<Kind>
    ensures { code_table kind_of result.now ≡ report_table }
{
    &EXECUTION_REPORT_TABLE
}

/// The table of Order Cancel Reject(9).
pub fn cancel_reject() -> &'static Table<Kind>
    ensures { code_table kind_of result.now ≡ cancel_reject_table }
{
    &CANCEL_REJECT_TABLE
}

/// The table of Reject.
pub(crate) fn session_reject() -> &'static Table<Kind>
    ensures { code_table kind_of result.now ≡ session_reject_table }
{
    &SESSION_REJECT_TABLE
}

/// The table of Business Message Reject.
pub(crate) fn business_reject() -> &'static Table<Kind>
    ensures { code_table kind_of result.now ≡ business_reject_table }
{
    &BUSINESS_REJECT_TABLE
}
