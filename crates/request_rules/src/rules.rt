//! The rules by which a request goes up, as the code has them.

ghost use Rattle.std.specs.Prelude.{◌≡◌, map};
ghost use Rattle.rows_fix42.specs.Header.{table};
ghost use Rattle.dict_fix42.specs.Requests.{cancel_request, new_order, replace_request};
ghost use Rattle.dict_fix42.specs.Requests.{status_request};
ghost use Rattle.rule_rows.specs.CodeRules.{AreRead, rule_of};
ghost use Rattle.request_rules.specs.CodeRules.{code};
ghost use Rattle.request_rules.specs.Rules.{up_rules};

use rule_rows::Rule::{By, Decimal, Lines, Same};

/// How FIX 5.0 SP2 says one line of its table otherwise than FIX 4.2.
#[derive(Clone, Copy, Debug)]
pub(crate) enum Own {
    /// A code of another tag, one of these.
    Listed(u32, u32, &'static [u8]),
    /// ClientID(109), ExecBroker(76) and ClearingFirm(439) as lines of Parties(453).
    Parties,
    /// The party of a role, which is written in these lines.
    PartyOf(u32),
    /// MaturityMonthYear(200).
    Month,
    /// MaturityDate(541), of MaturityMonthYear(200) and MaturityDay(205).
    Date,
    /// OrdType(40).
    OrdType,
    /// TimeInForce(59).
    Time,
}

use Own::{Date, Listed, Month, OrdType, Parties, PartyOf, Time};

/// A rule by which a request goes up.
pub(crate) type Rule = rule_rows::Rule<Own>;

/// The rules, in the order of writing.
#[rattlefmt::skip]
const UP_RULES: &[Rule] = &[
    Same(11), // ClOrdID
    Same(41), // OrigClOrdID
    Same(37), // OrderID
    By(Parties),
    By(PartyOf(3)), // ClientID
    By(PartyOf(1)), // ExecBroker
    By(PartyOf(4)), // ClearingFirm
    Same(1), // Account
    Lines(78), // NoAllocs
    Same(63), // SettlType
    Same(64), // SettlDate
    Same(21), // HandlInst
    Same(18), // ExecInst
    Decimal(110, 110), // MinQty
    Decimal(111, 1138), // MaxFloor, DisplayQty
    Same(100), // ExDestination
    Lines(386), // NoTradingSessions
    Same(55), // Symbol
    Same(65), // SymbolSfx
    Same(48), // SecurityID
    Same(22), // SecurityIDSource
    Same(167), // SecurityType
    By(Month),
    By(Date),
    Same(207), // SecurityExchange
    Same(54), // Side
    Same(114), // LocateReqd
    Same(60), // TransactTime
    Decimal(38, 38), // OrderQty
    By(OrdType),
    Decimal(44, 44), // Price
    Decimal(99, 99), // StopPx
    Same(15), // Currency
    By(Time),
    Same(168), // EffectiveTime
    Same(432), // ExpireDate
    Same(126), // ExpireTime
    By(Listed(47, 528, b"AIP")), // Rule80A, OrderCapacity
    Same(77), // PositionEffect
    Same(58), // Text
];

/// The rules.
pub(crate) fn up_rules() -> &'static [Rule]
    ensures rules { map (rule_of code) result.now ≡ up_rules }
    ensures news { AreRead code (table 68 new_order) result.now }
    ensures cancels { AreRead code (table 70 cancel_request) result.now }
    ensures replaces { AreRead code (table 71 replace_request) result.now }
    ensures statuses { AreRead code (table 72 status_request) result.now }
{
    UP_RULES
}
