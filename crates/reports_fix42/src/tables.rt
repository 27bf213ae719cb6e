//! The tables of reports and refusals, as the code has them.

ghost use Rattle.std.specs.Prelude.{◌≡◌};
ghost use Rattle.message_tables.specs.CodeTables.{own_tags, table_of as code_table};
ghost use Rattle.message_tables.specs.Tables.{tags_in};
ghost use Rattle.reports_fix42.specs.Message.{business_reject_table, cancel_reject_table};
ghost use Rattle.reports_fix42.specs.Message.{execution_report_table, session_reject_table};
ghost use Rattle.reports_fix42.specs.Reports.{contras};
ghost use Rattle.row_values.specs.CodeKinds.{kind_of};

use message_tables::Need::{Optional, Required, When};
use message_tables::{Item, RepeatingGroup, Table, Test, one, table};
use row_values::Kind::{DayOf, Value};
use row_values::{CONTRA_ROWS, Kind};
use rows_fix42::{HAS_DAY, HEADER};
use value_kinds::ValueKind::{
    Code, Currency, Day, Id, MonthYear, Number, Price, Qty, Reason, Stamp, Text, Word,
};

/// ExecTransType(20) is Cancel or Correct.
const IS_ABOUT_ANOTHER: &[&[Test]] = &[&[Test::Is(20, b"12")]];

/// A trade, by ExecTransType(20) and ExecType(150), or a correction.
const IS_EXECUTION: &[&[Test]] = &[
    &[Test::Is(20, b"0"), Test::Is(150, b"12")],
    &[Test::Is(20, b"2")],
];

/// NoContraBrokers(382).
const CONTRA_BROKERS: RepeatingGroup<Kind> = RepeatingGroup {
    count: 382,
    rows: &CONTRA_ROWS,
    skipped: &[],
};

static CONTRA_GROUP: RepeatingGroup<Kind> = CONTRA_BROKERS;

/// Execution Report (8), in the order of writing.
#[rattlefmt::skip]
const EXECUTION_REPORT: [Item<Kind>; 47] = [
    one!(37, Value(Id), Required), // OrderID
    one!(198, Value(Id), Optional), // SecondaryOrderID
    one!(11, Value(Id), Optional), // ClOrdID
    one!(41, Value(Id), Optional), // OrigClOrdID
    one!(109, Value(Id), Optional), // ClientID
    one!(76, Value(Id), Optional), // ExecBroker
    one!(439, Value(Id), Optional), // ClearingFirm
    Item::Lines(CONTRA_BROKERS),
    one!(17, Value(Id), Required), // ExecID
    one!(20, Value(Code(b"0123")), Required), // ExecTransType
    one!(19, Value(Id), When(IS_ABOUT_ANOTHER)), // ExecRefID
    one!(150, Value(Code(b"0123456789ABCDE")), Required), // ExecType
    one!(39, Value(Code(b"0123456789ABCDE")), Required), // OrdStatus
    one!(103, Value(Reason), Optional), // OrdRejReason
    one!(378, Value(Reason), Optional), // ExecRestatementReason
    one!(1, Value(Id), Optional), // Account
    one!(63, Value(Code(b"0123456789")), Optional), // SettlmntTyp
    one!(64, Value(Day), Optional), // FutSettDate
    one!(55, Value(Id), Required), // Symbol
    one!(65, Value(Id), Optional), // SymbolSfx
    one!(48, Value(Id), Optional), // SecurityID
    one!(22, Value(Code(b"123456789")), Optional), // IDSource
    one!(167, Value(Word(&[b"CS", b"PS", b"FUT"])), Optional), // SecurityType
    one!(200, Value(MonthYear), When(HAS_DAY)), // MaturityMonthYear
    one!(205, DayOf(200), Optional), // MaturityDay
    one!(207, Value(Id), Optional), // SecurityExchange
    one!(54, Value(Code(b"123456")), Required), // Side
    one!(38, Value(Qty), Optional), // OrderQty
    one!(40, Value(Code(b"12345B")), Optional), // OrdType
    one!(44, Value(Price), Optional), // Price
    one!(99, Value(Price), Optional), // StopPx
    one!(15, Value(Currency), Optional), // Currency
    one!(59, Value(Code(b"0123456")), Optional), // TimeInForce
    one!(432, Value(Day), Optional), // ExpireDate
    one!(126, Value(Stamp), Optional), // ExpireTime
    one!(47, Value(Code(b"AIP")), Optional), // Rule80A
    one!(32, Value(Qty), When(IS_EXECUTION)), // LastShares
    one!(31, Value(Price), When(IS_EXECUTION)), // LastPx
    one!(30, Value(Id), Optional), // LastMkt
    one!(151, Value(Qty), Required), // LeavesQty
    one!(14, Value(Qty), Required), // CumQty
    one!(6, Value(Price), Required), // AvgPx
    one!(75, Value(Day), Optional), // TradeDate
    one!(60, Value(Stamp), Optional), // TransactTime
    one!(110, Value(Qty), Optional), // MinQty
    one!(111, Value(Qty), Optional), // MaxFloor
    one!(58, Value(Text), Optional), // Text
];

/// Order Cancel Reject (9), in the order of writing.
#[rattlefmt::skip]
const CANCEL_REJECT: [Item<Kind>; 10] = [
    one!(37, Value(Id), Required), // OrderID
    one!(198, Value(Id), Optional), // SecondaryOrderID
    one!(11, Value(Id), Required), // ClOrdID
    one!(41, Value(Id), Required), // OrigClOrdID
    one!(39, Value(Code(b"0123456789ABCDE")), Required), // OrdStatus
    one!(1, Value(Id), Optional), // Account
    one!(60, Value(Stamp), Optional), // TransactTime
    one!(434, Value(Code(b"12")), Required), // CxlRejResponseTo
    one!(102, Value(Reason), Optional), // CxlRejReason
    one!(58, Value(Text), Optional), // Text
];

/// Reject (3), in the order of writing.
#[rattlefmt::skip]
const SESSION_REJECT: [Item<Kind>; 5] = [
    one!(45, Value(Number), Required), // RefSeqNum
    one!(371, Value(Number), Optional), // RefTagID
    one!(372, Value(Id), Optional), // RefMsgType
    one!(373, Value(Number), Optional), // SessionRejectReason
    one!(58, Value(Text), Optional), // Text
];

/// Business Message Reject (j), in the order of writing.
#[rattlefmt::skip]
const BUSINESS_REJECT: [Item<Kind>; 5] = [
    one!(45, Value(Number), Required), // RefSeqNum
    one!(372, Value(Id), Required), // RefMsgType
    one!(379, Value(Id), Optional), // BusinessRejectRefID
    one!(380, Value(Number), Required), // BusinessRejectReason
    one!(58, Value(Text), Optional), // Text
];

/// The table of Execution Report.
static EXECUTION_REPORT_TABLE: Table<Kind> = table!(b'8', HEADER, EXECUTION_REPORT, true);

/// The table of Order Cancel Reject.
static CANCEL_REJECT_TABLE: Table<Kind> = table!(b'9', HEADER, CANCEL_REJECT, true);

/// The table of Reject; other fields are passed over.
static SESSION_REJECT_TABLE: Table<Kind> = table!(b'3', HEADER, SESSION_REJECT, false);

/// The table of Business Message Reject; other fields are passed over.
static BUSINESS_REJECT_TABLE: Table<Kind> = table!(b'j', HEADER, BUSINESS_REJECT, false);

/// NoContraBrokers(382), as an execution report has it.
pub(crate) fn contra_group() -> &'static RepeatingGroup<Kind>
    ensures { own_tags result.now ≡ tags_in contras }
{
    &CONTRA_GROUP
}

/// The table of Execution Report.
pub(crate) fn execution_report() -> &'static Table<Kind>
    ensures { code_table kind_of result.now ≡ execution_report_table }
{
    &EXECUTION_REPORT_TABLE
}

/// The table of Order Cancel Reject.
pub(crate) fn cancel_reject() -> &'static Table<Kind>
    ensures { code_table kind_of result.now ≡ cancel_reject_table }
{
    &CANCEL_REJECT_TABLE
}

/// The table of Reject.
pub(crate) fn session_reject() -> &'static Table<Kind>
    ensures { code_table kind_of result.now ≡ session_reject_table }
{
    &SESSION_REJECT_TABLE
}

/// The table of Business Message Reject.
pub(crate) fn business_reject() -> &'static Table<Kind>
    ensures { code_table kind_of result.now ≡ business_reject_table }
{
    &BUSINESS_REJECT_TABLE
}
