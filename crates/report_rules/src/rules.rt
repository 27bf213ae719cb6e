//! The rules by which a report goes down, as the code has them.

ghost use Rattle.message_tables.specs.Tables.{Said};
ghost use Rattle.rule_rows.specs.CodeRules.{AreFor};
ghost use Rattle.report_rules.specs.CodeRules.{code};
ghost use Rattle.report_rules.specs.Rules as rules;
ghost use Rattle.report_rules.specs.Rules.{down_rules};
ghost use Rattle.reports_fix50.specs.Message.{cancel_reject_table, report_table};

use row_values::Kind::Value;
use rule_rows::Rule::{By, Decimal, Kept, Lines, Moment, Same};
use value_kinds::ValueKind::{Code, Word};

/// How FIX 4.2 says one line of its table otherwise than FIX 5.0 SP2.
#[derive(Clone, Copy, Debug)]
pub(crate) enum Own {
    /// OrigClOrdID(41) of a cancel reject, or else the one that is known.
    Original,
    /// The id of the first party of a role, at a tag.
    PartyOf(u32, u32),
    /// ExecID(17).
    ExecId,
    /// ExecTransType(20).
    TransType,
    /// ExecType(150).
    ExecType,
    /// OrdStatus(39).
    OrdStatus,
    /// What each report on another execution says.
    Another(u32),
    /// What each trade says, a decimal number.
    Traded(u32),
    /// A reason, up to the last one of FIX 4.2; one past it is this other one.
    Within(u32, u32, u8),
    /// Text(58), which tells the reasons past those of an execution report, or of a cancel reject.
    Told(bool),
    /// MaturityMonthYear(200).
    Month,
    /// MaturityDay(205).
    DayOfDate,
    /// OrdType(40).
    OrdType,
    /// TimeInForce(59).
    Time,
}

use Own::{
    Another, DayOfDate, ExecId, ExecType, Month, OrdStatus, OrdType, Original, PartyOf, Time, Told,
    Traded, TransType, Within,
};

/// A rule by which a report goes down.
pub(crate) type Rule = rule_rows::Rule<Own>;

/// The rules of an execution report, in the order of writing: those that its table has a place for.
#[rattlefmt::skip]
static REPORT_RULES: [Rule; 47] = [
    Same(37), // OrderID
    Same(198), // SecondaryOrderID
    Same(11), // ClOrdID
    Same(41), // OrigClOrdID
    By(PartyOf(3, 109)), // ClientID
    By(PartyOf(1, 76)), // ExecBroker
    By(PartyOf(4, 439)), // ClearingFirm
    Lines(382), // NoContraBrokers
    By(ExecId),
    By(TransType),
    By(Another(19)), // ExecRefID
    By(ExecType),
    By(OrdStatus),
    By(Within(103, 8, b'0')), // OrdRejReason
    By(Within(378, 5, b'4')), // ExecRestatementReason
    Same(1), // Account
    Kept(63, 63, Value(Code(b"0123456789"))), // SettlmntTyp
    Same(64), // FutSettDate
    Same(55), // Symbol
    Same(65), // SymbolSfx
    Same(48), // SecurityID
    Kept(22, 22, Value(Code(b"123456789"))), // IDSource
    Kept(167, 167, Value(Word(&[b"CS", b"PS", b"FUT"]))), // SecurityType
    By(Month),
    By(DayOfDate),
    Same(207), // SecurityExchange
    Same(54), // Side
    Decimal(38, 38), // OrderQty
    By(OrdType),
    Decimal(44, 44), // Price
    Decimal(99, 99), // StopPx
    Same(15), // Currency
    By(Time),
    Same(432), // ExpireDate
    Moment(126), // ExpireTime
    Kept(528, 47, Value(Code(b"AIP"))), // OrderCapacity, Rule80A
    By(Traded(32)), // LastShares
    By(Traded(31)), // LastPx
    Same(30), // LastMkt
    Decimal(151, 151), // LeavesQty
    Decimal(14, 14), // CumQty
    Decimal(6, 6), // AvgPx
    Same(75), // TradeDate
    Moment(60), // TransactTime
    Decimal(110, 110), // MinQty
    Decimal(1138, 111), // DisplayQty, MaxFloor
    By(Told(true)), // Text
];

/// The rules of a cancel reject, likewise.
#[rattlefmt::skip]
static REJECT_RULES: [Rule; 10] = [
    Same(37), // OrderID
    Same(198), // SecondaryOrderID
    Same(11), // ClOrdID
    By(Original), // OrigClOrdID
    By(OrdStatus),
    Same(1), // Account
    Moment(60), // TransactTime
    Same(434), // CxlRejResponseTo
    By(Within(102, 3, b'2')), // CxlRejReason
    By(Told(false)), // Text
];

/// The rules of an execution report, whatever is known besides.
pub(crate) fn report_rules() -> &'static [Rule]
    ensures { (known : Said) → AreFor (code known) report_table (down_rules (rules.Same 41))
        result.now }
{
    &REPORT_RULES
}

/// The rules of a cancel reject, where the original id of its order is known or not.
pub(crate) fn reject_rules() -> &'static [Rule]
    ensures { (known : Said) → AreFor (code known) cancel_reject_table
        (down_rules (rules.Original known)) result.now }
{
    &REJECT_RULES
}
