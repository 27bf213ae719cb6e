//! Requests of fields that are at no fault.
//!
//! The texts of a request are copied first, in the steps that can fail; then each row of the table
//! is a line of the literal.

ghost use Rattle.std.specs.Prelude.{◌≡◌, IfOk};
ghost use Rattle.dict_fix42.specs.Readable.{IsReadableCancel, IsReadableNew};
ghost use Rattle.dict_fix42.specs.Readable.{IsReadableReplace, IsReadableStatus};
ghost use Rattle.dict_fix42.specs.Reading.{AreGroups, IsCancel, IsNew, IsReplace, IsStatus};
ghost use Rattle.dict_fix42.specs.Reading.{cancel_names, cancel_texts, new_names, order_texts};
ghost use Rattle.dict_fix42.specs.Reading.{replace_names, status_texts};

use crate::groups::Groups;
use crate::requests::{Cancel42, New42, Replace42, Status42};
use field_groups::Fields;
use order_meaning::Bytes;
use row_values::{
    code, day, flag, month_and_day, or_empty, owned, price, qty, qty_or_zero, resend, stamp,
    stamp_or_epoch, text,
};
use std::alloc::{AllocError, Global};
use value_kinds::ValueKind;
use value_kinds::ValueKind::{Code, Codes, Currency, Id, OneByte, Text, Word};

/// What SettlmntTyp(63) may be.
const SETTL_TYPE: ValueKind = Code(b"0123456789");

/// What HandlInst(21) may be.
const HAND_INST: ValueKind = Code(b"123");

/// What ExecInst(18) may be.
const EXEC_INST: ValueKind = Codes(b"123456G");

/// What IDSource(22) may be.
const ID_SOURCE: ValueKind = Code(b"123456789");

/// What SecurityType(167) may be.
const SECURITY_TYPE: ValueKind = Word(&[b"CS", b"PS", b"FUT"]);

/// What Side(54) may be.
const SIDE: ValueKind = Code(b"123456");

/// What OrdType(40) may be.
const ORD_TYPE: ValueKind = Code(b"12345B");

/// What TimeInForce(59) may be.
const TIME_IN_FORCE: ValueKind = Code(b"0123456");

/// What OpenClose(77) may be.
const OPEN_CLOSE: ValueKind = Code(b"OC");

/// The names in a new order.
fn new_names(alloc: Global, fields: &Fields<'_>) -> Result<[Option<Bytes>; 5], AllocError>
    ensures { IfOk result (λ names. names ≡ new_names fields.now) }
{
    [
        text(fields, 11, &Id),
        text(fields, 109, &Id),
        text(fields, 76, &Id),
        text(fields, 439, &Id),
        text(fields, 1, &Id),
    ]
    .try_map(|text| owned(alloc, text))
}

/// The texts of an order beside its names.
fn order_texts(alloc: Global, fields: &Fields<'_>) -> Result<[Option<Bytes>; 9], AllocError>
    ensures { IfOk result (λ texts. texts ≡ order_texts fields.now) }
{
    [
        text(fields, 18, &EXEC_INST),
        text(fields, 100, &Id),
        text(fields, 55, &Id),
        text(fields, 65, &Id),
        text(fields, 48, &Id),
        text(fields, 167, &SECURITY_TYPE),
        text(fields, 207, &Id),
        text(fields, 15, &Currency),
        text(fields, 58, &Text),
    ]
    .try_map(|text| owned(alloc, text))
}

/// What New Order - Single (D) and Order Cancel/Replace Request (G) have in common, as the fields
/// say it, beside the names that each has.
macro_rules! order {
    (
        $request:ident, $alloc:ident, $fields:ident, $groups:ident, $texts:ident $(, $name:ident)*
    ) => {{
        let [
            exec_inst,
            ex_destination,
            symbol,
            symbol_sfx,
            security_id,
            security_type,
            security_exchange,
            currency,
            text,
        ] = $texts;
        $request {
            $($name,)*
            resend: resend($fields),
            allocs: $groups.allocs,
            settl_type: code($fields, 63, &SETTL_TYPE),
            settl_date: day($fields, 64),
            hand_inst: code($fields, 21, &HAND_INST).unwrap_or(0),
            exec_inst,
            min_qty: qty($fields, 110),
            max_floor: qty($fields, 111),
            ex_destination,
            sessions: $groups.sessions,
            symbol: or_empty($alloc, symbol),
            symbol_sfx,
            security_id,
            id_source: code($fields, 22, &ID_SOURCE),
            security_type,
            maturity: month_and_day($fields),
            security_exchange,
            side: code($fields, 54, &SIDE).unwrap_or(0),
            locate: flag($fields, 114),
            transact_time: stamp_or_epoch($fields, 60),
            order_qty: qty_or_zero($fields, 38),
            ord_type: code($fields, 40, &ORD_TYPE).unwrap_or(0),
            price: price($fields, 44),
            stop_px: price($fields, 99),
            currency,
            time_in_force: code($fields, 59, &TIME_IN_FORCE),
            effective_time: stamp($fields, 168),
            expire_date: day($fields, 432),
            expire_time: stamp($fields, 126),
            capacity: code($fields, 47, &OneByte),
            open_close: code($fields, 77, &OPEN_CLOSE),
            text,
        }
    }};
}

/// The new order of these fields, names and texts.
#[tactic(auto, using(row_values::proofs::SaidRows::allocs_readable))]
fn new_of(
    alloc: Global,
    fields: &Fields<'_>,
    groups: Groups,
    names: [Option<Bytes>; 5],
    texts: [Option<Bytes>; 9],
) -> New42
    requires groups { AreGroups fields.now groups }
    requires names { names ≡ new_names fields.now }
    requires texts { texts ≡ order_texts fields.now }
    ensures says { IsNew fields.now result }
    ensures readable { IsReadableNew result }
{
    let [cl_ord_id, client_id, exec_broker, clearing_firm, account] = names;
    let cl_ord_id = or_empty(alloc, cl_ord_id);
    order!(
        New42,
        alloc,
        fields,
        groups,
        texts,
        cl_ord_id,
        client_id,
        exec_broker,
        clearing_firm,
        account
    )
}

/// The new order of these fields.
pub(crate) fn new_order(
    alloc: Global,
    fields: &Fields<'_>,
    groups: Groups,
) -> Result<New42, AllocError>
    requires { AreGroups fields.now groups }
    ensures says { IfOk result (IsNew fields.now) }
    ensures readable { IfOk result IsReadableNew }
{
    let names = new_names(alloc, fields)?;
    let texts = order_texts(alloc, fields)?;
    Ok(new_of(alloc, fields, groups, names, texts))
}

/// The names in a cancel request.
fn cancel_names(alloc: Global, fields: &Fields<'_>) -> Result<[Option<Bytes>; 6], AllocError>
    ensures { IfOk result (λ names. names ≡ cancel_names fields.now) }
{
    [
        text(fields, 11, &Id),
        text(fields, 41, &Id),
        text(fields, 37, &Id),
        text(fields, 109, &Id),
        text(fields, 76, &Id),
        text(fields, 1, &Id),
    ]
    .try_map(|text| owned(alloc, text))
}

/// The texts of a cancel request beside its names.
fn cancel_texts(alloc: Global, fields: &Fields<'_>) -> Result<[Option<Bytes>; 6], AllocError>
    ensures { IfOk result (λ texts. texts ≡ cancel_texts fields.now) }
{
    [
        text(fields, 55, &Id),
        text(fields, 65, &Id),
        text(fields, 48, &Id),
        text(fields, 167, &SECURITY_TYPE),
        text(fields, 207, &Id),
        text(fields, 58, &Text),
    ]
    .try_map(|text| owned(alloc, text))
}

/// The cancel request of these fields, names and texts.
fn cancel_of(
    alloc: Global,
    fields: &Fields<'_>,
    names: [Option<Bytes>; 6],
    texts: [Option<Bytes>; 6],
) -> Cancel42
    requires names { names ≡ cancel_names fields.now }
    requires texts { texts ≡ cancel_texts fields.now }
    ensures says { IsCancel fields.now result }
    ensures readable { IsReadableCancel result }
{
    let [
        cl_ord_id,
        orig_id,
        order_id,
        client_id,
        exec_broker,
        account,
    ] = names;
    let [
        symbol,
        symbol_sfx,
        security_id,
        security_type,
        security_exchange,
        text,
    ] = texts;
    Cancel42 {
        resend: resend(fields),
        cl_ord_id: or_empty(alloc, cl_ord_id),
        orig_id: or_empty(alloc, orig_id),
        order_id,
        client_id,
        exec_broker,
        account,
        symbol: or_empty(alloc, symbol),
        symbol_sfx,
        security_id,
        id_source: code(fields, 22, &ID_SOURCE),
        security_type,
        maturity: month_and_day(fields),
        security_exchange,
        side: code(fields, 54, &SIDE).unwrap_or(0),
        transact_time: stamp_or_epoch(fields, 60),
        order_qty: qty(fields, 38),
        text,
    }
}

/// The cancel request of these fields.
pub(crate) fn cancel_request(alloc: Global, fields: &Fields<'_>) -> Result<Cancel42, AllocError>
    ensures says { IfOk result (IsCancel fields.now) }
    ensures readable { IfOk result IsReadableCancel }
{
    let names = cancel_names(alloc, fields)?;
    let texts = cancel_texts(alloc, fields)?;
    Ok(cancel_of(alloc, fields, names, texts))
}

/// The names in a replace request.
fn replace_names(alloc: Global, fields: &Fields<'_>) -> Result<[Option<Bytes>; 7], AllocError>
    ensures { IfOk result (λ names. names ≡ replace_names fields.now) }
{
    [
        text(fields, 11, &Id),
        text(fields, 41, &Id),
        text(fields, 37, &Id),
        text(fields, 109, &Id),
        text(fields, 76, &Id),
        text(fields, 439, &Id),
        text(fields, 1, &Id),
    ]
    .try_map(|text| owned(alloc, text))
}

/// The replace request of these fields, names and texts.
#[tactic(auto, using(row_values::proofs::SaidRows::allocs_readable))]
fn replace_of(
    alloc: Global,
    fields: &Fields<'_>,
    groups: Groups,
    names: [Option<Bytes>; 7],
    texts: [Option<Bytes>; 9],
) -> Replace42
    requires groups { AreGroups fields.now groups }
    requires names { names ≡ replace_names fields.now }
    requires texts { texts ≡ order_texts fields.now }
    ensures says { IsReplace fields.now result }
    ensures readable { IsReadableReplace result }
{
    let [
        cl_ord_id,
        orig_id,
        order_id,
        client_id,
        exec_broker,
        clearing_firm,
        account,
    ] = names;
    let cl_ord_id = or_empty(alloc, cl_ord_id);
    let orig_id = or_empty(alloc, orig_id);
    order!(
        Replace42,
        alloc,
        fields,
        groups,
        texts,
        cl_ord_id,
        orig_id,
        order_id,
        client_id,
        exec_broker,
        clearing_firm,
        account
    )
}

/// The replace request of these fields.
pub(crate) fn replace_request(
    alloc: Global,
    fields: &Fields<'_>,
    groups: Groups,
) -> Result<Replace42, AllocError>
    requires { AreGroups fields.now groups }
    ensures says { IfOk result (IsReplace fields.now) }
    ensures readable { IfOk result IsReadableReplace }
{
    let names = replace_names(alloc, fields)?;
    let texts = order_texts(alloc, fields)?;
    Ok(replace_of(alloc, fields, groups, names, texts))
}

/// The status request of these fields and texts.
fn status_of(alloc: Global, fields: &Fields<'_>, texts: [Option<Bytes>; 10]) -> Status42
    requires { texts ≡ status_texts fields.now }
    ensures says { IsStatus fields.now result }
    ensures readable { IsReadableStatus result }
{
    let [
        cl_ord_id,
        order_id,
        client_id,
        exec_broker,
        account,
        symbol,
        symbol_sfx,
        security_id,
        security_type,
        security_exchange,
    ] = texts;
    Status42 {
        resend: resend(fields),
        cl_ord_id: or_empty(alloc, cl_ord_id),
        order_id,
        client_id,
        exec_broker,
        account,
        symbol: or_empty(alloc, symbol),
        symbol_sfx,
        security_id,
        id_source: code(fields, 22, &ID_SOURCE),
        security_type,
        maturity: month_and_day(fields),
        security_exchange,
        side: code(fields, 54, &SIDE).unwrap_or(0),
    }
}

/// The status request of these fields.
pub(crate) fn status_request(alloc: Global, fields: &Fields<'_>) -> Result<Status42, AllocError>
    ensures says { IfOk result (IsStatus fields.now) }
    ensures readable { IfOk result IsReadableStatus }
{
    let texts = [
        text(fields, 11, &Id),
        text(fields, 37, &Id),
        text(fields, 109, &Id),
        text(fields, 76, &Id),
        text(fields, 1, &Id),
        text(fields, 55, &Id),
        text(fields, 65, &Id),
        text(fields, 48, &Id),
        text(fields, 167, &SECURITY_TYPE),
        text(fields, 207, &Id),
    ]
    .try_map(|text| owned(alloc, text))?;
    Ok(status_of(alloc, fields, texts))
}
