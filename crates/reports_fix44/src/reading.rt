//! Reports of fields that are at no fault.
//!
//! The texts of a report are copied first, in the one step that can fail; then each row of the
//! table is a line of the literal.

ghost use Rattle.std.specs.Prelude.{◌≡◌, IfOk, IfSome};
ghost use Rattle.value_kinds.specs.ValueKind.{code_text};
ghost use Rattle.reports_fix50.specs.Readable.{IsReadableReport};
ghost use Rattle.reports_fix50.specs.Reading.{AreGroups, cancel_reject_texts, order_texts};
ghost use Rattle.reports_fix50.specs.Reading.{report_texts};
ghost use Rattle.reports_fix44.specs.Readable.{IsReadableCancelReject};
ghost use Rattle.reports_fix44.specs.Reading.{IsCancelReject, IsReport, exec_type_said};

use crate::reports::{CancelReject44, Report44};
use crate::tables::{EXEC_TYPES, ORD_STATUSES};
use field_groups::Fields;
use order_meaning::Bytes;
use reports_fix50::{Groups, texts_of_order, texts_of_reject, texts_of_report};
use row_values::{
    code, day, or_empty, price, price_or_zero, qty, qty_or_zero, reason, resend, stamp,
};
use rows_fix50::{maturity, time_in_force};
use std::alloc::{AllocError, Global};
use value_kinds::ValueKind;
use value_kinds::ValueKind::Code;

/// What ExecType(150) may be.
const EXEC_TYPE: ValueKind = Code(EXEC_TYPES);

/// What OrdStatus(39) may be.
const ORD_STATUS: ValueKind = Code(ORD_STATUSES);

/// What SettlType(63) may be.
const SETTL_TYPE: ValueKind = Code(b"0123456789");

/// What SecurityIDSource(22) may be.
const ID_SOURCE: ValueKind = Code(b"123456789");

/// What Side(54) may be.
const SIDE: ValueKind = Code(b"123456");

/// What OrdType(40) may be.
const ORD_TYPE: ValueKind = Code(b"1234");

/// What OrderCapacity(528) may be.
const CAPACITY: ValueKind = Code(b"AIP");

/// What CxlRejResponseTo(434) may be.
const RESPONSE_TO: ValueKind = Code(b"12");

/// ExecType(150) of an execution report, as its fields say it; 0 where they say none.
fn exec_type(fields: &Fields<'_>) -> u8
    ensures { IfSome (exec_type_said fields.now) (λ text. text ≡ code_text result) }
{
    code(fields, 150, &EXEC_TYPE).unwrap_or(0)
}

/// The execution report of these fields, groups and texts.
#[tactic(auto, using(reports_fix50::proofs::Lines::of_lines))]
fn report_of(
    alloc: Global,
    fields: &Fields<'_>,
    groups: Groups,
    order: [Option<Bytes>; 7],
    texts: [Option<Bytes>; 8],
) -> Report44
    requires groups { AreGroups fields.now groups }
    requires order { order ≡ order_texts fields.now }
    requires texts { texts ≡ report_texts fields.now }
    ensures says { IsReport fields.now result }
    ensures readable { IsReadableReport result }
{
    let [
        account,
        symbol,
        symbol_sfx,
        security_id,
        security_type,
        security_exchange,
        currency,
    ] = order;
    let [
        order_id,
        secondary_id,
        cl_ord_id,
        orig_id,
        exec_id,
        ref_id,
        last_mkt,
        text,
    ] = texts;
    Report44 {
        resend: resend(fields),
        order_id: or_empty(alloc, order_id),
        secondary_id,
        cl_ord_id,
        orig_id,
        parties: groups.parties,
        contras: groups.contras,
        exec_id: or_empty(alloc, exec_id),
        ref_id,
        exec_type: exec_type(fields),
        ord_status: code(fields, 39, &ORD_STATUS).unwrap_or(0),
        rej_reason: reason(fields, 103),
        restate_reason: reason(fields, 378),
        account,
        settl_type: code(fields, 63, &SETTL_TYPE),
        settl_date: day(fields, 64),
        symbol: or_empty(alloc, symbol),
        symbol_sfx,
        security_id,
        id_source: code(fields, 22, &ID_SOURCE),
        security_type,
        maturity: maturity(fields),
        security_exchange,
        side: code(fields, 54, &SIDE).unwrap_or(0),
        order_qty: qty(fields, 38),
        ord_type: code(fields, 40, &ORD_TYPE),
        price: price(fields, 44),
        stop_px: price(fields, 99),
        currency,
        time_in_force: time_in_force(fields),
        expire_date: day(fields, 432),
        expire_time: stamp(fields, 126),
        capacity: code(fields, 528, &CAPACITY),
        last_qty: qty(fields, 32),
        last_px: price(fields, 31),
        last_mkt,
        leaves: qty_or_zero(fields, 151),
        cum: qty_or_zero(fields, 14),
        avg: price_or_zero(fields, 6),
        trade_date: day(fields, 75),
        transact_time: stamp(fields, 60),
        min_qty: qty(fields, 110),
        max_floor: qty(fields, 111),
        text,
    }
}

/// The execution report of these fields.
pub(crate) fn execution_report(
    alloc: Global,
    fields: &Fields<'_>,
    groups: Groups,
) -> Result<Report44, AllocError>
    requires { AreGroups fields.now groups }
    ensures says { IfOk result (IsReport fields.now) }
    ensures readable { IfOk result IsReadableReport }
{
    let order = texts_of_order(alloc, fields)?;
    let texts = texts_of_report(alloc, fields)?;
    Ok(report_of(alloc, fields, groups, order, texts))
}

/// The cancel reject of these fields and texts.
fn cancel_reject_of(alloc: Global, fields: &Fields<'_>, texts: [Option<Bytes>; 6]) -> CancelReject44
    requires { texts ≡ cancel_reject_texts fields.now }
    ensures says { IsCancelReject fields.now result }
    ensures readable { IsReadableCancelReject result }
{
    let [order_id, secondary_id, cl_ord_id, orig_id, account, text] = texts;
    CancelReject44 {
        resend: resend(fields),
        order_id: or_empty(alloc, order_id),
        secondary_id,
        cl_ord_id: or_empty(alloc, cl_ord_id),
        orig_id: or_empty(alloc, orig_id),
        ord_status: code(fields, 39, &ORD_STATUS).unwrap_or(0),
        account,
        transact_time: stamp(fields, 60),
        response_to: code(fields, 434, &RESPONSE_TO).unwrap_or(0),
        cxl_reason: reason(fields, 102),
        text,
    }
}

/// The cancel reject of these fields.
pub(crate) fn cancel_reject(
    alloc: Global,
    fields: &Fields<'_>,
) -> Result<CancelReject44, AllocError>
    ensures says { IfOk result (IsCancelReject fields.now) }
    ensures readable { IfOk result IsReadableCancelReject }
{
    let texts = texts_of_reject(alloc, fields)?;
    Ok(cancel_reject_of(alloc, fields, texts))
}
