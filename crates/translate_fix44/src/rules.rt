//! The rules of both directions, as the code has them.

ghost use Rattle.std.specs.Prelude.{◌≡◌};
ghost use Rattle.message_tables.specs.Tables.{Said, first_of};
ghost use Rattle.order_meaning.specs.Request.{RequestKind};
ghost use Rattle.reports_fix50.specs.Message.{cancel_reject_table, report_table};
ghost use Rattle.rule_rows.specs.Rules.{By as Is};
ghost use Rattle.rule_rows.specs.CodeRules.{AreFor, lacked};
ghost use Rattle.translate_fix44.specs.CodeRules.{Source, code, lacks};
ghost use Rattle.dict_fix44.specs.Requests.{asked44};
ghost use Rattle.translate_fix44.specs.Rules as rules;
ghost use Rattle.translate_fix44.specs.Rules.{down_rules, up_rules};

use row_values::Kind::{TimeBeside, Value};
use rule_rows::Rule::{By, Decimal, Kept, Lines, Moment, Same};
use value_kinds::ValueKind::{Code, Word};

/// How the target says one line of its table otherwise than the source.
#[derive(Clone, Copy, Debug)]
pub(crate) enum Own {
    /// MaturityMonthYear(200), which is that of MaturityDate(541), where there is one.
    Month,
    /// HandlInst(21), which is 1 in an order that does not say it.
    HandlInst,
    /// OrigClOrdID(41) of a cancel reject, which has to say it where none is known besides.
    Original,
    /// A code, or the one that it turns to, of these.
    Turned(u32, &'static [u8], Option<(u8, u8)>),
    /// TimeInForce(59) beside OrdType(40).
    AtClose,
    /// The parties of the roles 3, 1 and, where it has a place, 4, as lines of Parties(453).
    Parties,
    /// The party of a role, which is written in these lines.
    PartyOf(u32),
    /// A reason, up to the last one of FIX 4.2; one past it is this other one.
    Within(u32, u32, u8),
    /// Text(58), which tells the reasons past those of an execution report, or of a cancel reject.
    Told(bool),
}

use Own::{AtClose, HandlInst, Month, Original, Parties, PartyOf, Told, Turned, Within};

/// A rule of either direction.
pub(crate) type Rule = rule_rows::Rule<Own>;

/// OrdType(40) of a request.
const ORD_TYPE: Rule = By(Turned(40, b"1234", None));

/// TimeInForce(59), likewise.
const TIME_IN_FORCE: Rule = By(AtClose);

/// OrderCapacity(528), likewise.
const ORDER_CAPACITY: Rule = By(Turned(528, b"AIP", None));

/// The rules of a request, in the order of writing.
#[rattlefmt::skip]
static REQUEST_RULES: [Rule; 40] = [
    Same(11), // ClOrdID
    Same(41), // OrigClOrdID
    Same(37), // OrderID
    By(Parties),
    By(PartyOf(3)),
    By(PartyOf(1)),
    By(PartyOf(4)),
    Same(1), // Account
    Lines(78), // NoAllocs
    Same(63), // SettlType
    Same(64), // SettlDate
    By(HandlInst),
    Same(18), // ExecInst
    Decimal(110, 110), // MinQty
    Decimal(111, 1138), // MaxFloor, DisplayQty
    Same(100), // ExDestination
    Lines(386), // NoTradingSessions
    Same(55), // Symbol
    Same(65), // SymbolSfx
    Same(48), // SecurityID
    Same(22), // SecurityIDSource
    Same(167), // SecurityType
    By(Month),
    Same(541), // MaturityDate
    Same(207), // SecurityExchange
    Same(54), // Side
    Same(114), // LocateReqd
    Same(60), // TransactTime
    Decimal(38, 38), // OrderQty
    ORD_TYPE,
    Decimal(44, 44), // Price
    Decimal(99, 99), // StopPx
    Same(15), // Currency
    TIME_IN_FORCE,
    Same(168), // EffectiveTime
    Same(432), // ExpireDate
    Same(126), // ExpireTime
    ORDER_CAPACITY,
    Same(77), // PositionEffect
    Same(58), // Text
];

/// Those of them that may lack something.
static LACKING_RULES: [Rule; 3] = [ORD_TYPE, TIME_IN_FORCE, ORDER_CAPACITY];

/// The rules of Execution Report (8), likewise.
#[rattlefmt::skip]
static REPORT_RULES: [Rule; 47] = [
    Same(37), // OrderID
    Same(198), // SecondaryOrderID
    Same(11), // ClOrdID
    Same(41), // OrigClOrdID
    By(Parties),
    By(PartyOf(3)),
    By(PartyOf(1)),
    By(PartyOf(4)),
    Lines(382), // NoContraBrokers
    Same(17), // ExecID
    Same(19), // ExecRefID
    By(Turned(150, b"03456789ABCDEFGHI", Some((b'L', b'I')))), // ExecType
    By(Turned(39, b"012346789ABCDE", Some((b'5', b'0')))), // OrdStatus
    By(Within(103, 8, b'0')), // OrdRejReason
    By(Within(378, 5, b'4')), // ExecRestatementReason
    Same(1), // Account
    Kept(63, 63, Value(Code(b"0123456789"))), // SettlType
    Same(64), // SettlDate
    Same(55), // Symbol
    Same(65), // SymbolSfx
    Same(48), // SecurityID
    Kept(22, 22, Value(Code(b"123456789"))), // SecurityIDSource
    Kept(167, 167, Value(Word(&[b"CS", b"PS", b"FUT"]))), // SecurityType
    By(Month),
    Same(541), // MaturityDate
    Same(207), // SecurityExchange
    Same(54), // Side
    Decimal(38, 38), // OrderQty
    Kept(40, 40, Value(Code(b"1234"))), // OrdType
    Decimal(44, 44), // Price
    Decimal(99, 99), // StopPx
    Same(15), // Currency
    Kept(59, 59, TimeBeside(40)), // TimeInForce
    Same(432), // ExpireDate
    Moment(126), // ExpireTime
    Kept(528, 528, Value(Code(b"AIP"))), // OrderCapacity
    Decimal(32, 32), // LastQty
    Decimal(31, 31), // LastPx
    Same(30), // LastMkt
    Decimal(151, 151), // LeavesQty
    Decimal(14, 14), // CumQty
    Decimal(6, 6), // AvgPx
    Same(75), // TradeDate
    Moment(60), // TransactTime
    Decimal(110, 110), // MinQty
    Decimal(1138, 111), // DisplayQty, MaxFloor
    By(Told(true)), // Text
];

/// The rules of Order Cancel Reject (9), likewise.
#[rattlefmt::skip]
static REJECT_RULES: [Rule; 10] = [
    Same(37), // OrderID
    Same(198), // SecondaryOrderID
    Same(11), // ClOrdID
    By(Original),
    By(Turned(39, b"012346789ABCDE", Some((b'5', b'0')))), // OrdStatus
    Same(1), // Account
    Moment(60), // TransactTime
    Same(434), // CxlRejResponseTo
    By(Within(102, 3, b'2')), // CxlRejReason
    By(Told(false)), // Text
];

/// The rules of a request, and those of them that are asked where nothing is written.
#[derive(Clone, Copy, Debug)]
pub(crate) struct RequestRules {
    pub(crate) all: &'static [Rule],
    pub(crate) lacking: &'static [Rule],
}

/// The rules of a request.
pub(crate) fn request_rules() -> RequestRules
    ensures all { (known : Said) (kind : RequestKind)
        → AreFor (code known) (asked44 kind) up_rules result.all.now }
    ensures lacking { (s : Source)
        → first_of (lacked lacks s) result.lacking.now ≡ first_of (lacked lacks s) result.all.now }
{
    RequestRules {
        all: &REQUEST_RULES,
        lacking: &LACKING_RULES,
    }
}

/// The rules of an execution report.
pub(crate) fn report_rules() -> &'static [Rule]
    ensures { (known : Said) → AreFor (code known) report_table (down_rules (rules.Same 41))
        result.now }
{
    &REPORT_RULES
}

/// The rules of a cancel reject.
pub(crate) fn reject_rules() -> &'static [Rule]
    ensures { (known : Said) → AreFor (code known) cancel_reject_table
        (down_rules (Is (rules.Else 41 known))) result.now }
{
    &REJECT_RULES
}
