//! Requests of fields that are at no fault.
//!
//! The texts of a request are copied first, in the one step that can fail; then each row of the
//! table is a line of the literal.

ghost use Rattle.std.specs.Prelude.{◌≡◌, IfOk};
ghost use Rattle.dict_fix50.specs.Readable.{IsReadableCancel, IsReadableNew};
ghost use Rattle.dict_fix50.specs.Readable.{IsReadableReplace, IsReadableStatus};
ghost use Rattle.row_values.specs.Groups.{AreParties};
ghost use Rattle.dict_fix50.specs.Reading.{AreGroups, IsCancel, IsNew, IsReplace};
ghost use Rattle.dict_fix50.specs.Reading.{IsStatus, cancel_texts, new_texts, replace_ids};
ghost use Rattle.dict_fix50.specs.Reading.{status_texts};

use crate::groups::Groups;
use crate::requests::{Cancel50, New, New50, Replace, Replace50, Status50};
use crate::values::capacity;
use field_groups::Fields;
use order_meaning::{Bytes, Lines};
use row_values::{
    code, day, fine_stamp, fine_stamp_or_epoch, flag, or_empty, owned, price, qty, qty_or_zero,
    resend, text,
};
use rows_fix50::{maturity, time_in_force};
use std::alloc::{AllocError, Global};
use value_kinds::ValueKind;
use value_kinds::ValueKind::{Code, Codes, Currency, Id, Text, Word};

/// What SettlType(63) may be.
const SETTL_TYPE: ValueKind = Code(b"0123456789");

/// What HandlInst(21) may be.
const HAND_INST: ValueKind = Code(b"123");

/// What ExecInst(18) may be.
const EXEC_INST: ValueKind = Codes(b"123456G");

/// What SecurityIDSource(22) may be.
const ID_SOURCE: ValueKind = Code(b"123456789");

/// What SecurityType(167) may be.
const SECURITY_TYPE: ValueKind = Word(&[b"CS", b"PS", b"FUT"]);

/// What Side(54) may be.
const SIDE: ValueKind = Code(b"123456");

/// What OrdType(40) may be.
const ORD_TYPE: ValueKind = Code(b"1234");

/// What PositionEffect(77) may be.
const POSITION_EFFECT: ValueKind = Code(b"OC");

/// The texts of a new order.
///
/// # Errors
///
/// `AllocError` for want of memory.
pub fn texts_of_order(alloc: Global, fields: &Fields<'_>) -> Result<[Option<Bytes>; 11], AllocError>
    ensures { IfOk result (λ texts. texts ≡ new_texts fields.now) }
{
    [
        text(fields, 11, &Id),
        text(fields, 1, &Id),
        text(fields, 18, &EXEC_INST),
        text(fields, 100, &Id),
        text(fields, 55, &Id),
        text(fields, 65, &Id),
        text(fields, 48, &Id),
        text(fields, 167, &SECURITY_TYPE),
        text(fields, 207, &Id),
        text(fields, 15, &Currency),
        text(fields, 58, &Text),
    ]
    .try_map(|text| owned(alloc, text))
}

/// The ids that a replace request has beside the texts of a new order.
///
/// # Errors
///
/// `AllocError` for want of memory.
pub fn ids_of_replace(alloc: Global, fields: &Fields<'_>) -> Result<[Option<Bytes>; 2], AllocError>
    ensures { IfOk result (λ ids. ids ≡ replace_ids fields.now) }
{
    [text(fields, 41, &Id), text(fields, 37, &Id)].try_map(|text| owned(alloc, text))
}

/// What New Order - Single (D) and Order Cancel/Replace Request (G) have in common, as the fields
/// say it, and the fields that the request has besides.
macro_rules! order {
    (
        $request:ident, $alloc:ident, $fields:ident, $groups:ident, $texts:ident $(, $more:ident)*
    ) => {{
        let [
            cl_ord_id,
            account,
            exec_inst,
            ex_destination,
            symbol,
            symbol_sfx,
            security_id,
            security_type,
            security_exchange,
            currency,
            text,
        ] = $texts;
        $request {
            $($more,)*
            resend: resend($fields),
            cl_ord_id: or_empty($alloc, cl_ord_id),
            parties: $groups.parties,
            account,
            allocs: $groups.allocs,
            settl_type: code($fields, 63, &SETTL_TYPE),
            settl_date: day($fields, 64),
            hand_inst: code($fields, 21, &HAND_INST).unwrap_or(0),
            exec_inst,
            min_qty: qty($fields, 110),
            max_floor: qty($fields, 1138),
            ex_destination,
            sessions: $groups.sessions,
            symbol: or_empty($alloc, symbol),
            symbol_sfx,
            security_id,
            id_source: code($fields, 22, &ID_SOURCE),
            security_type,
            maturity: maturity($fields),
            security_exchange,
            side: code($fields, 54, &SIDE).unwrap_or(0),
            locate: flag($fields, 114),
            transact_time: fine_stamp_or_epoch($fields, 60),
            order_qty: qty_or_zero($fields, 38),
            ord_type: code($fields, 40, &ORD_TYPE).unwrap_or(0),
            price: price($fields, 44),
            stop_px: price($fields, 99),
            currency,
            time_in_force: time_in_force($fields),
            effective_time: fine_stamp($fields, 168),
            expire_date: day($fields, 432),
            expire_time: fine_stamp($fields, 126),
            capacity: capacity($fields),
            open_close: code($fields, 77, &POSITION_EFFECT),
            text,
        }
    }};
}

/// The new order of these fields and texts.
#[tactic(auto, using(row_values::proofs::SaidRows::of_lines))]
fn new_of(alloc: Global, fields: &Fields<'_>, groups: Groups, texts: [Option<Bytes>; 11]) -> New50
    requires groups { AreGroups fields.now groups }
    requires texts { texts ≡ new_texts fields.now }
    ensures says { IsNew fields.now result }
    ensures readable { IsReadableNew result }
{
    order!(New, alloc, fields, groups, texts)
}

/// The new order of these fields.
pub(crate) fn new_order(
    alloc: Global,
    fields: &Fields<'_>,
    groups: Groups,
) -> Result<New50, AllocError>
    requires { AreGroups fields.now groups }
    ensures says { IfOk result (IsNew fields.now) }
    ensures readable { IfOk result IsReadableNew }
{
    let texts = texts_of_order(alloc, fields)?;
    Ok(new_of(alloc, fields, groups, texts))
}

/// The texts of a cancel request.
///
/// # Errors
///
/// `AllocError` for want of memory.
pub fn texts_of_cancel(
    alloc: Global,
    fields: &Fields<'_>,
) -> Result<[Option<Bytes>; 10], AllocError>
    ensures { IfOk result (λ texts. texts ≡ cancel_texts fields.now) }
{
    [
        text(fields, 11, &Id),
        text(fields, 41, &Id),
        text(fields, 37, &Id),
        text(fields, 1, &Id),
        text(fields, 55, &Id),
        text(fields, 65, &Id),
        text(fields, 48, &Id),
        text(fields, 167, &SECURITY_TYPE),
        text(fields, 207, &Id),
        text(fields, 58, &Text),
    ]
    .try_map(|text| owned(alloc, text))
}

/// The cancel request of these fields and texts.
#[tactic(auto, using(row_values::proofs::SaidRows::of_lines))]
fn cancel_of(
    alloc: Global,
    fields: &Fields<'_>,
    parties: Lines,
    texts: [Option<Bytes>; 10],
) -> Cancel50
    requires parties { AreParties fields.now parties }
    requires texts { texts ≡ cancel_texts fields.now }
    ensures says { IsCancel fields.now result }
    ensures readable { IsReadableCancel result }
{
    let [
        cl_ord_id,
        orig_id,
        order_id,
        account,
        symbol,
        symbol_sfx,
        security_id,
        security_type,
        security_exchange,
        text,
    ] = texts;
    Cancel50 {
        resend: resend(fields),
        cl_ord_id: or_empty(alloc, cl_ord_id),
        orig_id: or_empty(alloc, orig_id),
        order_id,
        parties,
        account,
        symbol: or_empty(alloc, symbol),
        symbol_sfx,
        security_id,
        id_source: code(fields, 22, &ID_SOURCE),
        security_type,
        maturity: maturity(fields),
        security_exchange,
        side: code(fields, 54, &SIDE).unwrap_or(0),
        transact_time: fine_stamp_or_epoch(fields, 60),
        order_qty: qty(fields, 38),
        text,
    }
}

/// The cancel request of these fields.
pub(crate) fn cancel_request(
    alloc: Global,
    fields: &Fields<'_>,
    parties: Lines,
) -> Result<Cancel50, AllocError>
    requires { AreParties fields.now parties }
    ensures says { IfOk result (IsCancel fields.now) }
    ensures readable { IfOk result IsReadableCancel }
{
    let texts = texts_of_cancel(alloc, fields)?;
    Ok(cancel_of(alloc, fields, parties, texts))
}

/// The replace request of these fields and texts.
#[tactic(auto, using(row_values::proofs::SaidRows::of_lines))]
fn replace_of(
    alloc: Global,
    fields: &Fields<'_>,
    groups: Groups,
    ids: [Option<Bytes>; 2],
    texts: [Option<Bytes>; 11],
) -> Replace50
    requires groups { AreGroups fields.now groups }
    requires ids { ids ≡ replace_ids fields.now }
    requires texts { texts ≡ new_texts fields.now }
    ensures says { IsReplace fields.now result }
    ensures readable { IsReadableReplace result }
{
    let [orig_id, order_id] = ids;
    let orig_id = or_empty(alloc, orig_id);
    order!(Replace, alloc, fields, groups, texts, orig_id, order_id)
}

/// The replace request of these fields.
pub(crate) fn replace_request(
    alloc: Global,
    fields: &Fields<'_>,
    groups: Groups,
) -> Result<Replace50, AllocError>
    requires { AreGroups fields.now groups }
    ensures says { IfOk result (IsReplace fields.now) }
    ensures readable { IfOk result IsReadableReplace }
{
    let ids = ids_of_replace(alloc, fields)?;
    let texts = texts_of_order(alloc, fields)?;
    Ok(replace_of(alloc, fields, groups, ids, texts))
}

/// The texts of a status request.
///
/// # Errors
///
/// `AllocError` for want of memory.
pub fn texts_of_status(alloc: Global, fields: &Fields<'_>) -> Result<[Option<Bytes>; 8], AllocError>
    ensures { IfOk result (λ texts. texts ≡ status_texts fields.now) }
{
    [
        text(fields, 11, &Id),
        text(fields, 37, &Id),
        text(fields, 1, &Id),
        text(fields, 55, &Id),
        text(fields, 65, &Id),
        text(fields, 48, &Id),
        text(fields, 167, &SECURITY_TYPE),
        text(fields, 207, &Id),
    ]
    .try_map(|text| owned(alloc, text))
}

/// The status request of these fields and texts.
#[tactic(auto, using(row_values::proofs::SaidRows::of_lines))]
fn status_of(
    alloc: Global,
    fields: &Fields<'_>,
    parties: Lines,
    texts: [Option<Bytes>; 8],
) -> Status50
    requires parties { AreParties fields.now parties }
    requires texts { texts ≡ status_texts fields.now }
    ensures says { IsStatus fields.now result }
    ensures readable { IsReadableStatus result }
{
    let [
        cl_ord_id,
        order_id,
        account,
        symbol,
        symbol_sfx,
        security_id,
        security_type,
        security_exchange,
    ] = texts;
    Status50 {
        resend: resend(fields),
        cl_ord_id: or_empty(alloc, cl_ord_id),
        order_id,
        parties,
        account,
        symbol: or_empty(alloc, symbol),
        symbol_sfx,
        security_id,
        id_source: code(fields, 22, &ID_SOURCE),
        security_type,
        maturity: maturity(fields),
        security_exchange,
        side: code(fields, 54, &SIDE).unwrap_or(0),
    }
}

/// The status request of these fields.
pub(crate) fn status_request(
    alloc: Global,
    fields: &Fields<'_>,
    parties: Lines,
) -> Result<Status50, AllocError>
    requires { AreParties fields.now parties }
    ensures says { IfOk result (IsStatus fields.now) }
    ensures readable { IfOk result IsReadableStatus }
{
    let texts = texts_of_status(alloc, fields)?;
    Ok(status_of(alloc, fields, parties, texts))
}
