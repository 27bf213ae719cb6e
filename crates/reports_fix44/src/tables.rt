//! The tables of reports, as the code has them.

ghost use Rattle.std.specs.Prelude.{◌≡◌};
ghost use Rattle.message_tables.specs.CodeTables.{table_of as code_table};
ghost use Rattle.row_values.specs.CodeKinds.{kind_of};
ghost use Rattle.reports_fix44.specs.Message.{cancel_reject_table, report_table};

use message_tables::Need::{Optional, Required, When};
use message_tables::{Item, Need, RepeatingGroup, Table, Test, one, table};
use row_values::Kind::{MonthBeside, TimeBeside, Value};
use row_values::{CONTRA_ROWS, Kind, PARTIES};
use rows_fix42::HEADER;
use value_kinds::ValueKind::{Code, Currency, Day, Id, Price, Qty, Reason, Stamp, Text, Word};

/// What ExecType(150) may be.
pub(crate) const EXEC_TYPES: &[u8] = b"03456789ABCDEFGHI";

/// What OrdStatus(39) may be.
pub(crate) const ORD_STATUSES: &[u8] = b"012346789ABCDE";

/// What a trade and its correction say.
const WHERE_TRADE: Need = When(&[&[Test::Is(150, b"FG")]]);

/// What a correction and a bust say.
const WHERE_OF_ANOTHER: Need = When(&[&[Test::Is(150, b"GH")]]);

/// NoContraBrokers(382), as an execution report has it; ContraLegRefID(655) is passed over.
const CONTRA_BROKERS: RepeatingGroup<Kind> = RepeatingGroup {
    count: 382,
    rows: &CONTRA_ROWS,
    skipped: &[655],
};

/// Execution Report (8), in the order of writing.
#[rattlefmt::skip]
const EXECUTION_REPORT: [Item<Kind>; 47] = [
    one!(37, Value(Id), Required), // OrderID
    one!(198, Value(Id), Optional), // SecondaryOrderID
    one!(11, Value(Id), Optional), // ClOrdID
    one!(41, Value(Id), Optional), // OrigClOrdID
    Item::Lines(PARTIES),
    Item::Party(3), // Client ID
    Item::Party(1), // Executing Firm
    Item::Party(4), // Clearing Firm
    Item::Lines(CONTRA_BROKERS),
    one!(17, Value(Id), Required), // ExecID
    one!(19, Value(Id), WHERE_OF_ANOTHER), // ExecRefID
    one!(150, Value(Code(EXEC_TYPES)), Required), // ExecType
    one!(39, Value(Code(ORD_STATUSES)), Required), // OrdStatus
    one!(103, Value(Reason), Optional), // OrdRejReason
    one!(378, Value(Reason), Optional), // ExecRestatementReason
    one!(1, Value(Id), Optional), // Account
    one!(63, Value(Code(b"0123456789")), Optional), // SettlType
    one!(64, Value(Day), Optional), // SettlDate
    one!(55, Value(Id), Required), // Symbol
    one!(65, Value(Id), Optional), // SymbolSfx
    one!(48, Value(Id), Optional), // SecurityID
    one!(22, Value(Code(b"123456789")), Optional), // SecurityIDSource
    one!(167, Value(Word(&[b"CS", b"PS", b"FUT"])), Optional), // SecurityType
    one!(200, MonthBeside(541), Optional), // MaturityMonthYear
    one!(541, Value(Day), Optional), // MaturityDate
    one!(207, Value(Id), Optional), // SecurityExchange
    one!(54, Value(Code(b"123456")), Required), // Side
    one!(38, Value(Qty), Optional), // OrderQty
    one!(40, Value(Code(b"1234")), Optional), // OrdType
    one!(44, Value(Price), Optional), // Price
    one!(99, Value(Price), Optional), // StopPx
    one!(15, Value(Currency), Optional), // Currency
    one!(59, TimeBeside(40), Optional), // TimeInForce
    one!(432, Value(Day), Optional), // ExpireDate
    one!(126, Value(Stamp), Optional), // ExpireTime
    one!(528, Value(Code(b"AIP")), Optional), // OrderCapacity
    one!(32, Value(Qty), WHERE_TRADE), // LastQty
    one!(31, Value(Price), WHERE_TRADE), // LastPx
    one!(30, Value(Id), Optional), // LastMkt
    one!(151, Value(Qty), Required), // LeavesQty
    one!(14, Value(Qty), Required), // CumQty
    one!(6, Value(Price), Required), // AvgPx
    one!(75, Value(Day), Optional), // TradeDate
    one!(60, Value(Stamp), Optional), // TransactTime
    one!(110, Value(Qty), Optional), // MinQty
    one!(111, Value(Qty), Optional), // MaxFloor
    one!(58, Value(Text), Optional), // Text
];

/// Order Cancel Reject (9), in the order of writing.
#[rattlefmt::skip]
const CANCEL_REJECT: [Item<Kind>; 10] = [
    one!(37, Value(Id), Required), // OrderID
    one!(198, Value(Id), Optional), // SecondaryOrderID
    one!(11, Value(Id), Required), // ClOrdID
    one!(41, Value(Id), Required), // OrigClOrdID
    one!(39, Value(Code(ORD_STATUSES)), Required), // OrdStatus
    one!(1, Value(Id), Optional), // Account
    one!(60, Value(Stamp), Optional), // TransactTime
    one!(434, Value(Code(b"12")), Required), // CxlRejResponseTo
    one!(102, Value(Reason), Optional), // CxlRejReason
    one!(58, Value(Text), Optional), // Text
];

/// The table of Execution Report.
static EXECUTION_REPORT_TABLE: Table<Kind> = table!(b'8', HEADER, EXECUTION_REPORT, true);

/// The table of Order Cancel Reject.
static CANCEL_REJECT_TABLE: Table<Kind> = table!(b'9', HEADER, CANCEL_REJECT, true);

/// The table of Execution Report(8).
pub(crate) fn execution_report() -> &'static Table<Kind>
    ensures { code_table kind_of result.now ≡ report_table }
{
    &EXECUTION_REPORT_TABLE
}

/// The table of Order Cancel Reject(9).
pub(crate) fn cancel_reject() -> &'static Table<Kind>
    ensures { code_table kind_of result.now ≡ cancel_reject_table }
{
    &CANCEL_REJECT_TABLE
}
