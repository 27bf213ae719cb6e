//! The tables of requests, as the code has them.

ghost use Rattle.std.specs.Prelude.{◌≡◌};
ghost use Rattle.message_tables.specs.CodeTables.{table_of as code_table};
ghost use Rattle.row_values.specs.CodeKinds.{kind_of};
ghost use Rattle.rows_fix50.specs.Header.{table};
ghost use Rattle.dict_fix50.specs.Requests.{cancel_request, new_order, replace_request};
ghost use Rattle.dict_fix50.specs.Requests.{status_request};

use message_tables::Need::{Lenient, Optional, Required};
use message_tables::{Item, Table, one, table};
use row_values::Kind::{Byte, MonthBeside, TimeBeside, Value};
use row_values::{ALLOCS, Kind, PARTIES, SESSIONS};
use rows_fix50::HEADER;
use value_kinds::ValueKind::{
    Code, Codes, Currency, Day, FineStamp, Flag, Id, Price, Qty, Text, Word,
};

/// The items of New Order - Single (D) and of Order Cancel/Replace Request (G), in the order of
/// writing; the request has the items that are given behind ClOrdID(11).
#[rattlefmt::skip]
macro_rules! order_items {
    ($($id:expr),*) => {
        [
            one!(11, Value(Id), Required), // ClOrdID
            $($id,)*
            Item::Lines(PARTIES),
            Item::Party(3), // ClientID of FIX 4.2
            Item::Party(1), // ExecBroker of FIX 4.2
            Item::Party(4), // ClearingFirm of FIX 4.2
            one!(1, Value(Id), Optional), // Account
            Item::Lines(ALLOCS),
            one!(63, Value(Code(b"0123456789")), Lenient), // SettlType
            one!(64, Value(Day), Optional), // SettlDate
            one!(21, Value(Code(b"123")), Required), // HandlInst
            one!(18, Value(Codes(b"123456G")), Lenient), // ExecInst
            one!(110, Value(Qty), Optional), // MinQty
            one!(1138, Value(Qty), Optional), // DisplayQty
            one!(100, Value(Id), Optional), // ExDestination
            Item::Lines(SESSIONS),
            one!(55, Value(Id), Required), // Symbol
            one!(65, Value(Id), Optional), // SymbolSfx
            one!(48, Value(Id), Optional), // SecurityID
            one!(22, Value(Code(b"123456789")), Lenient), // SecurityIDSource
            one!(167, Value(Word(&[b"CS", b"PS", b"FUT"])), Lenient), // SecurityType
            one!(200, MonthBeside(541), Lenient), // MaturityMonthYear
            one!(541, Value(Day), Optional), // MaturityDate
            one!(207, Value(Id), Optional), // SecurityExchange
            one!(54, Value(Code(b"123456")), Required), // Side
            one!(114, Value(Flag), Optional), // LocateReqd
            one!(60, Value(FineStamp), Required), // TransactTime
            one!(38, Value(Qty), Required), // OrderQty
            one!(40, Value(Code(b"1234")), Required), // OrdType
            one!(44, Value(Price), Optional), // Price
            one!(99, Value(Price), Optional), // StopPx
            one!(15, Value(Currency), Optional), // Currency
            one!(59, TimeBeside(40), Lenient), // TimeInForce
            one!(168, Value(FineStamp), Optional), // EffectiveTime
            one!(432, Value(Day), Optional), // ExpireDate
            one!(126, Value(FineStamp), Optional), // ExpireTime
            one!(528, Byte(b"AIP"), Lenient), // OrderCapacity
            one!(77, Value(Code(b"OC")), Lenient), // PositionEffect
            one!(58, Value(Text), Optional), // Text
        ]
    };
}

/// New Order - Single (D).
const NEW_ORDER: [Item<Kind>; 38] = order_items!();

/// Order Cancel Request (F), in the order of writing.
#[rattlefmt::skip]
const CANCEL_REQUEST: [Item<Kind>; 19] = [
    one!(11, Value(Id), Required), // ClOrdID
    one!(41, Value(Id), Required), // OrigClOrdID
    one!(37, Value(Id), Optional), // OrderID
    Item::Lines(PARTIES),
    Item::Party(3), // ClientID of FIX 4.2
    Item::Party(1), // ExecBroker of FIX 4.2
    one!(1, Value(Id), Optional), // Account
    one!(55, Value(Id), Required), // Symbol
    one!(65, Value(Id), Optional), // SymbolSfx
    one!(48, Value(Id), Optional), // SecurityID
    one!(22, Value(Code(b"123456789")), Lenient), // SecurityIDSource
    one!(167, Value(Word(&[b"CS", b"PS", b"FUT"])), Lenient), // SecurityType
    one!(200, MonthBeside(541), Lenient), // MaturityMonthYear
    one!(541, Value(Day), Optional), // MaturityDate
    one!(207, Value(Id), Optional), // SecurityExchange
    one!(54, Value(Code(b"123456")), Required), // Side
    one!(60, Value(FineStamp), Required), // TransactTime
    one!(38, Value(Qty), Optional), // OrderQty
    one!(58, Value(Text), Optional), // Text
];

/// Order Cancel/Replace Request (G).
#[rattlefmt::skip]
const REPLACE_REQUEST: [Item<Kind>; 40] = order_items!(
    one!(41, Value(Id), Required), // OrigClOrdID
    one!(37, Value(Id), Optional) // OrderID
);

/// Order Status Request (H), in the order of writing.
#[rattlefmt::skip]
const STATUS_REQUEST: [Item<Kind>; 15] = [
    one!(11, Value(Id), Required), // ClOrdID
    one!(37, Value(Id), Optional), // OrderID
    Item::Lines(PARTIES),
    Item::Party(3), // ClientID of FIX 4.2
    Item::Party(1), // ExecBroker of FIX 4.2
    one!(1, Value(Id), Optional), // Account
    one!(55, Value(Id), Required), // Symbol
    one!(65, Value(Id), Optional), // SymbolSfx
    one!(48, Value(Id), Optional), // SecurityID
    one!(22, Value(Code(b"123456789")), Lenient), // SecurityIDSource
    one!(167, Value(Word(&[b"CS", b"PS", b"FUT"])), Lenient), // SecurityType
    one!(200, MonthBeside(541), Lenient), // MaturityMonthYear
    one!(541, Value(Day), Optional), // MaturityDate
    one!(207, Value(Id), Optional), // SecurityExchange
    one!(54, Value(Code(b"123456")), Required), // Side
];

/// The table of New Order - Single.
static NEW_ORDER_TABLE: Table<Kind> = table!(b'D', HEADER, NEW_ORDER, false);

/// The table of Order Cancel Request.
static CANCEL_REQUEST_TABLE: Table<Kind> = table!(b'F', HEADER, CANCEL_REQUEST, false);

/// The table of Order Cancel/Replace Request.
static REPLACE_REQUEST_TABLE: Table<Kind> = table!(b'G', HEADER, REPLACE_REQUEST, false);

/// The table of Order Status Request.
static STATUS_REQUEST_TABLE: Table<Kind> = table!(b'H', HEADER, STATUS_REQUEST, false);

/// The table of New Order - Single.
pub(crate) fn new_order() -> &'static Table<Kind>
    ensures { code_table kind_of result.now ≡ table 68 new_order }
{
    &NEW_ORDER_TABLE
}

/// The table of Order Cancel Request.
pub(crate) fn cancel_request() -> &'static Table<Kind>
    ensures { code_table kind_of result.now ≡ table 70 cancel_request }
{
    &CANCEL_REQUEST_TABLE
}

/// The table of Order Cancel/Replace Request.
pub(crate) fn replace_request() -> &'static Table<Kind>
    ensures { code_table kind_of result.now ≡ table 71 replace_request }
{
    &REPLACE_REQUEST_TABLE
}

/// The table of Order Status Request.
pub(crate) fn status_request() -> &'static Table<Kind>
    ensures { code_table kind_of result.now ≡ table 72 status_request }
{
    &STATUS_REQUEST_TABLE
}
