//! The tables of requests and of refusals, as the code has them.

ghost use Rattle.std.specs.Prelude.{◌≡◌};
ghost use Rattle.std.specs.Option.{option_map};
ghost use Rattle.message_tables.specs.CodeTables.{table_of as code_table};
ghost use Rattle.rows_fix42.specs.Header.{table};
ghost use Rattle.dict_fix44.specs.Message.{refusal_table, refusal_table_of, request_table_of};
ghost use Rattle.dict_fix44.specs.Reports.{business_reject, session_reject};
ghost use Rattle.dict_fix44.specs.Requests.{cancel_request, new_order, replace_request};
ghost use Rattle.dict_fix44.specs.Requests.{status_request};
ghost use Rattle.row_values.specs.CodeKinds.{kind_of};

use field_groups::is_type;
use first_faults::Indexed;
use message_tables::Need::{Optional, Required};
use message_tables::{Item, Table, one, table};
use row_values::Kind::{MonthBeside, Value};
use row_values::{ALLOCS, Kind, PARTIES, SESSIONS};
use rows_fix42::HEADER;
use std::marker::Model;
use value_kinds::ValueKind::{
    Code, Codes, Currency, Day, Flag, Id, Number, OneByte, Price, Qty, Stamp, Text, Word,
};

/// The items of New Order - Single (D) and of Order Cancel/Replace Request (G), in the order of
/// writing; the request has the items that are given behind ClOrdID(11).
#[rattlefmt::skip]
macro_rules! order_items {
    ($($id:expr),*) => {
        [
            one!(11, Value(Id), Required), // ClOrdID
            $($id,)*
            Item::Lines(PARTIES),
            Item::Party(3), // Client ID
            Item::Party(1), // Executing Firm
            Item::Party(4), // Clearing Firm
            one!(1, Value(Id), Optional), // Account
            Item::Lines(ALLOCS),
            one!(63, Value(Code(b"0123456789")), Optional), // SettlType
            one!(64, Value(Day), Optional), // SettlDate
            one!(21, Value(Code(b"123")), Optional), // HandlInst
            one!(18, Value(Codes(b"123456G")), Optional), // ExecInst
            one!(110, Value(Qty), Optional), // MinQty
            one!(111, Value(Qty), Optional), // MaxFloor
            one!(100, Value(Id), Optional), // ExDestination
            Item::Lines(SESSIONS),
            one!(55, Value(Id), Required), // Symbol
            one!(65, Value(Id), Optional), // SymbolSfx
            one!(48, Value(Id), Optional), // SecurityID
            one!(22, Value(Code(b"123456789")), Optional), // SecurityIDSource
            one!(167, Value(Word(&[b"CS", b"PS", b"FUT"])), Optional), // SecurityType
            one!(200, MonthBeside(541), Optional), // MaturityMonthYear
            one!(541, Value(Day), Optional), // MaturityDate
            one!(207, Value(Id), Optional), // SecurityExchange
            one!(54, Value(Code(b"123456")), Required), // Side
            one!(114, Value(Flag), Optional), // LocateReqd
            one!(60, Value(Stamp), Required), // TransactTime
            one!(38, Value(Qty), Required), // OrderQty
            one!(40, Value(Code(b"12345B")), Required), // OrdType
            one!(44, Value(Price), Optional), // Price
            one!(99, Value(Price), Optional), // StopPx
            one!(15, Value(Currency), Optional), // Currency
            one!(59, Value(Code(b"01234567")), Optional), // TimeInForce
            one!(168, Value(Stamp), Optional), // EffectiveTime
            one!(432, Value(Day), Optional), // ExpireDate
            one!(126, Value(Stamp), Optional), // ExpireTime
            one!(528, Value(OneByte), Optional), // OrderCapacity
            one!(77, Value(Code(b"OC")), Optional), // PositionEffect
            one!(58, Value(Text), Optional), // Text
        ]
    };
}

/// New Order - Single (D).
const NEW_ORDER: [Item<Kind>; 38] = order_items!();

/// Order Cancel/Replace Request (G).
#[rattlefmt::skip]
const REPLACE_REQUEST: [Item<Kind>; 40] = order_items!(
    one!(41, Value(Id), Required), // OrigClOrdID
    one!(37, Value(Id), Optional) // OrderID
);

/// Order Cancel Request (F), in the order of writing.
#[rattlefmt::skip]
const CANCEL_REQUEST: [Item<Kind>; 19] = [
    one!(11, Value(Id), Required), // ClOrdID
    one!(41, Value(Id), Required), // OrigClOrdID
    one!(37, Value(Id), Optional), // OrderID
    Item::Lines(PARTIES),
    Item::Party(3), // Client ID
    Item::Party(1), // Executing Firm
    one!(1, Value(Id), Optional), // Account
    one!(55, Value(Id), Required), // Symbol
    one!(65, Value(Id), Optional), // SymbolSfx
    one!(48, Value(Id), Optional), // SecurityID
    one!(22, Value(Code(b"123456789")), Optional), // SecurityIDSource
    one!(167, Value(Word(&[b"CS", b"PS", b"FUT"])), Optional), // SecurityType
    one!(200, MonthBeside(541), Optional), // MaturityMonthYear
    one!(541, Value(Day), Optional), // MaturityDate
    one!(207, Value(Id), Optional), // SecurityExchange
    one!(54, Value(Code(b"123456")), Required), // Side
    one!(60, Value(Stamp), Required), // TransactTime
    one!(38, Value(Qty), Optional), // OrderQty
    one!(58, Value(Text), Optional), // Text
];

/// Order Status Request (H), in the order of writing.
#[rattlefmt::skip]
const STATUS_REQUEST: [Item<Kind>; 15] = [
    one!(11, Value(Id), Required), // ClOrdID
    one!(37, Value(Id), Optional), // OrderID
    Item::Lines(PARTIES),
    Item::Party(3), // Client ID
    Item::Party(1), // Executing Firm
    one!(1, Value(Id), Optional), // Account
    one!(55, Value(Id), Required), // Symbol
    one!(65, Value(Id), Optional), // SymbolSfx
    one!(48, Value(Id), Optional), // SecurityID
    one!(22, Value(Code(b"123456789")), Optional), // SecurityIDSource
    one!(167, Value(Word(&[b"CS", b"PS", b"FUT"])), Optional), // SecurityType
    one!(200, MonthBeside(541), Optional), // MaturityMonthYear
    one!(541, Value(Day), Optional), // MaturityDate
    one!(207, Value(Id), Optional), // SecurityExchange
    one!(54, Value(Code(b"123456")), Required), // Side
];

/// The table of New Order - Single.
static NEW_ORDER_TABLE: Table<Kind> = table!(b'D', HEADER, NEW_ORDER, true);

/// The table of Order Cancel Request.
static CANCEL_REQUEST_TABLE: Table<Kind> = table!(b'F', HEADER, CANCEL_REQUEST, true);

/// The table of Order Cancel/Replace Request.
static REPLACE_REQUEST_TABLE: Table<Kind> = table!(b'G', HEADER, REPLACE_REQUEST, true);

/// The table of Order Status Request.
static STATUS_REQUEST_TABLE: Table<Kind> = table!(b'H', HEADER, STATUS_REQUEST, true);

/// The table of New Order - Single.
pub fn new_order() -> &'static Table<Kind>
    ensures { code_table kind_of result.now ≡ table 68 new_order }
{
    &NEW_ORDER_TABLE
}

/// The table of Order Cancel Request.
pub fn cancel_request() -> &'static Table<Kind>
    ensures { code_table kind_of result.now ≡ table 70 cancel_request }
{
    &CANCEL_REQUEST_TABLE
}

/// The table of Order Cancel/Replace Request.
pub fn replace_request() -> &'static Table<Kind>
    ensures { code_table kind_of result.now ≡ table 71 replace_request }
{
    &REPLACE_REQUEST_TABLE
}

/// The table of Order Status Request.
pub fn status_request() -> &'static Table<Kind>
    ensures { code_table kind_of result.now ≡ table 72 status_request }
{
    &STATUS_REQUEST_TABLE
}

/// The tables of requests, whose rows are found by their tags.
#[derive(Drop)]
pub struct RequestTables {
    new: Indexed,
    cancel: Indexed,
    replace: Indexed,
    status: Indexed,
}

impl Model for RequestTables {
    ghost use Rattle.std.specs.Prelude.{◌≡◌};
    ghost use Rattle.dict_fix44.specs.Requests.{cancel_request, new_order, replace_request};
    ghost use Rattle.dict_fix44.specs.Requests.{status_request};
    ghost use Rattle.rows_fix42.specs.Header.{table};

    ghost Value = { Unit {0} };

    ghost view = { λ _. tt };

    ghost invariant = { λ t. (t.new ≡ table 68 new_order)
        × (t.cancel ≡ table 70 cancel_request)
        × (t.replace ≡ table 71 replace_request)
        × (t.status ≡ table 72 status_request) };
}

impl RequestTables {
    /// The tables.
    pub fn new() -> RequestTables {
        RequestTables {
            new: Indexed::new(new_order()),
            cancel: Indexed::new(cancel_request()),
            replace: Indexed::new(replace_request()),
            status: Indexed::new(status_request()),
        }
    }

    /// The table of a type, where it is one of D, F, G and H.
    pub fn get(&self, msg_type: &[u8]) -> Option<&Indexed>
        ensures { option_map (λ table. table.now) result ≡ request_table_of msg_type.now }
    {
        if is_type(msg_type, b'D') {
            Some(&self.new)
        } else if is_type(msg_type, b'F') {
            Some(&self.cancel)
        } else if is_type(msg_type, b'G') {
            Some(&self.replace)
        } else if is_type(msg_type, b'H') {
            Some(&self.status)
        } else {
            None
        }
    }
}

/// Reject (3), in the order of writing.
#[rattlefmt::skip]
const SESSION_REJECT: [Item<Kind>; 5] = [
    one!(45, Value(Number), Required), // RefSeqNum
    one!(371, Value(Number), Optional), // RefTagID
    one!(372, Value(Id), Optional), // RefMsgType
    one!(373, Value(Number), Optional), // SessionRejectReason
    one!(58, Value(Text), Optional), // Text
];

/// Business Message Reject (j), in the order of writing.
#[rattlefmt::skip]
const BUSINESS_REJECT: [Item<Kind>; 5] = [
    one!(45, Value(Number), Optional), // RefSeqNum
    one!(372, Value(Id), Required), // RefMsgType
    one!(379, Value(Id), Optional), // BusinessRejectRefID
    one!(380, Value(Number), Required), // BusinessRejectReason
    one!(58, Value(Text), Optional), // Text
];

/// The table of Reject.
static SESSION_REJECT_TABLE: Table<Kind> = table!(b'3', HEADER, SESSION_REJECT, false);

/// The table of Business Message Reject.
static BUSINESS_REJECT_TABLE: Table<Kind> = table!(b'j', HEADER, BUSINESS_REJECT, false);

/// The table of Reject.
pub fn session_reject() -> &'static Table<Kind>
    ensures { code_table kind_of result.now ≡ refusal_table 51 session_reject }
{
    &SESSION_REJECT_TABLE
}

/// The table of Business Message Reject.
pub fn business_reject() -> &'static Table<Kind>
    ensures { code_table kind_of result.now ≡ refusal_table 106 business_reject }
{
    &BUSINESS_REJECT_TABLE
}

/// The table of a MsgType(35) that is a refusal.
pub fn refusal_table(msg_type: &[u8]) -> Option<&'static Table<Kind>>
    ensures { option_map (λ table. code_table kind_of table.now) result
        ≡ refusal_table_of msg_type.now }
{
    if is_type(msg_type, b'3') {
        Some(session_reject())
    } else if is_type(msg_type, b'j') {
        Some(business_reject())
    } else {
        None
    }
}
