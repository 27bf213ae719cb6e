//! Reports of fields that are at no fault.
//!
//! The texts of a message are copied first, in the steps that can fail; then each row of the table
//! is a line of the literal.

ghost use Rattle.std.specs.Prelude.{◌≡◌, IfOk, IfSome, IsTrue};
ghost use Rattle.value_kinds.specs.ValueKind.{code_text};
ghost use Rattle.value_kinds.specs.CodeKinds.{is_byte_kind, value_kind_of};
ghost use Rattle.row_values.specs.Kinds.{Value, said};
ghost use Rattle.reports_fix42.specs.Readable.{IsReadableCancelReject, IsReadableReport};
ghost use Rattle.reports_fix42.specs.Reading.{AreContras, IsCancelReject, IsReport};
ghost use Rattle.reports_fix42.specs.Reading.{cancel_reject_texts, report_names, report_texts};

use crate::reports::{CancelReject42, Report42};
use field_groups::Fields;
use order_meaning::Bytes;
use row_values::{
    Contras, code, day, month_and_day, or_empty, owned, price, price_or_zero, qty, qty_or_zero,
    reason, resend, stamp, text,
};
use std::alloc::{AllocError, Global};
use value_kinds::ValueKind;
use value_kinds::ValueKind::{Code, Currency, Id, Text, Word};

/// What ExecTransType(20) may be.
const TRANS_TYPE: ValueKind = Code(b"0123");

/// What ExecType(150) may be.
const EXEC_TYPE: ValueKind = Code(b"0123456789ABCDE");

/// What OrdStatus(39) may be.
const ORD_STATUS: ValueKind = Code(b"0123456789ABCDE");

/// What SettlmntTyp(63) may be.
const SETTL_TYPE: ValueKind = Code(b"0123456789");

/// What IDSource(22) may be.
const ID_SOURCE: ValueKind = Code(b"123456789");

/// What SecurityType(167) may be.
const SECURITY_TYPE: ValueKind = Word(&[b"CS", b"PS", b"FUT"]);

/// What Side(54) may be.
const SIDE: ValueKind = Code(b"123456");

/// What OrdType(40) may be.
const ORD_TYPE: ValueKind = Code(b"12345B");

/// What TimeInForce(59) may be.
const TIME_IN_FORCE: ValueKind = Code(b"0123456");

/// What Rule80A(47) may be in a report.
const CAPACITY: ValueKind = Code(b"AIP");

/// What CxlRejResponseTo(434) may be.
const RESPONSE_TO: ValueKind = Code(b"12");

/// The names in an execution report.
fn report_names(alloc: Global, fields: &Fields<'_>) -> Result<[Option<Bytes>; 10], AllocError>
    ensures { IfOk result (λ names. names ≡ report_names fields.now) }
{
    let names = [
        text(fields, 37, &Id),
        text(fields, 198, &Id),
        text(fields, 11, &Id),
        text(fields, 41, &Id),
        text(fields, 109, &Id),
        text(fields, 76, &Id),
        text(fields, 439, &Id),
        text(fields, 17, &Id),
        text(fields, 19, &Id),
        text(fields, 1, &Id),
    ]
    .try_map(|text| owned(alloc, text))?;
    Ok(names)
}

/// The texts of an execution report beside its names.
fn report_texts(alloc: Global, fields: &Fields<'_>) -> Result<[Option<Bytes>; 8], AllocError>
    ensures { IfOk result (λ texts. texts ≡ report_texts fields.now) }
{
    let texts = [
        text(fields, 55, &Id),
        text(fields, 65, &Id),
        text(fields, 48, &Id),
        text(fields, 167, &SECURITY_TYPE),
        text(fields, 207, &Id),
        text(fields, 15, &Currency),
        text(fields, 30, &Id),
        text(fields, 58, &Text),
    ]
    .try_map(|text| owned(alloc, text))?;
    Ok(texts)
}

/// The code that the field of a tag says, and zero where it says none.
fn code_or_zero(fields: &Fields<'_>, tag: u32, kind: &ValueKind) -> u8
    requires { IsTrue (is_byte_kind (value_kind_of kind.now)) }
    ensures { IfSome (said fields.now tag (Value (value_kind_of kind.now)))
        (λ text. text ≡ code_text result) }
{
    code(fields, tag, kind).unwrap_or(0)
}

/// The execution report of these fields, contra brokers, names and texts.
#[tactic(auto, using(crate::proofs::Means::contras_readable))]
fn report_of(
    alloc: Global,
    fields: &Fields<'_>,
    contras: Contras,
    names: [Option<Bytes>; 10],
    texts: [Option<Bytes>; 8],
) -> Report42
    requires contras { AreContras fields.now contras }
    requires names { names ≡ report_names fields.now }
    requires texts { texts ≡ report_texts fields.now }
    ensures says { IsReport fields.now result }
    ensures readable { IsReadableReport result }
{
    let [
        order_id,
        secondary_id,
        cl_ord_id,
        orig_id,
        client_id,
        exec_broker,
        clearing_firm,
        exec_id,
        ref_id,
        account,
    ] = names;
    let [
        symbol,
        symbol_sfx,
        security_id,
        security_type,
        security_exchange,
        currency,
        last_mkt,
        text,
    ] = texts;
    Report42 {
        resend: resend(fields),
        order_id: or_empty(alloc, order_id),
        secondary_id,
        cl_ord_id,
        orig_id,
        client_id,
        exec_broker,
        clearing_firm,
        contras,
        exec_id: or_empty(alloc, exec_id),
        trans_type: code_or_zero(fields, 20, &TRANS_TYPE),
        ref_id,
        exec_type: code_or_zero(fields, 150, &EXEC_TYPE),
        ord_status: code_or_zero(fields, 39, &ORD_STATUS),
        rej_reason: reason(fields, 103),
        restate_reason: reason(fields, 378),
        account,
        settl_type: code(fields, 63, &SETTL_TYPE),
        settl_date: day(fields, 64),
        symbol: or_empty(alloc, symbol),
        symbol_sfx,
        security_id,
        id_source: code(fields, 22, &ID_SOURCE),
        security_type,
        maturity: month_and_day(fields),
        security_exchange,
        side: code_or_zero(fields, 54, &SIDE),
        order_qty: qty(fields, 38),
        ord_type: code(fields, 40, &ORD_TYPE),
        price: price(fields, 44),
        stop_px: price(fields, 99),
        currency,
        time_in_force: code(fields, 59, &TIME_IN_FORCE),
        expire_date: day(fields, 432),
        expire_time: stamp(fields, 126),
        capacity: code(fields, 47, &CAPACITY),
        last_qty: qty(fields, 32),
        last_px: price(fields, 31),
        last_mkt,
        leaves: qty_or_zero(fields, 151),
        cum: qty_or_zero(fields, 14),
        avg: price_or_zero(fields, 6),
        trade_date: day(fields, 75),
        transact_time: stamp(fields, 60),
        min_qty: qty(fields, 110),
        max_floor: qty(fields, 111),
        text,
    }
}

/// The execution report of these fields.
pub(crate) fn execution_report(
    alloc: Global,
    fields: &Fields<'_>,
    contras: Contras,
) -> Result<Report42, AllocError>
    requires { AreContras fields.now contras }
    ensures says { IfOk result (IsReport fields.now) }
    ensures readable { IfOk result IsReadableReport }
{
    let names = report_names(alloc, fields)?;
    let texts = report_texts(alloc, fields)?;
    Ok(report_of(alloc, fields, contras, names, texts))
}

/// The cancel reject of these fields and texts.
fn cancel_reject_of(alloc: Global, fields: &Fields<'_>, texts: [Option<Bytes>; 6]) -> CancelReject42
    requires { texts ≡ cancel_reject_texts fields.now }
    ensures says { IsCancelReject fields.now result }
    ensures readable { IsReadableCancelReject result }
{
    let [order_id, secondary_id, cl_ord_id, orig_id, account, text] = texts;
    CancelReject42 {
        resend: resend(fields),
        order_id: or_empty(alloc, order_id),
        secondary_id,
        cl_ord_id: or_empty(alloc, cl_ord_id),
        orig_id: or_empty(alloc, orig_id),
        ord_status: code_or_zero(fields, 39, &ORD_STATUS),
        account,
        transact_time: stamp(fields, 60),
        response_to: code_or_zero(fields, 434, &RESPONSE_TO),
        cxl_reason: reason(fields, 102),
        text,
    }
}

/// The cancel reject of these fields.
pub(crate) fn cancel_reject(
    alloc: Global,
    fields: &Fields<'_>,
) -> Result<CancelReject42, AllocError>
    ensures says { IfOk result (IsCancelReject fields.now) }
    ensures readable { IfOk result IsReadableCancelReject }
{
    let texts = [
        text(fields, 37, &Id),
        text(fields, 198, &Id),
        text(fields, 11, &Id),
        text(fields, 41, &Id),
        text(fields, 1, &Id),
        text(fields, 58, &Text),
    ]
    .try_map(|text| owned(alloc, text))?;
    Ok(cancel_reject_of(alloc, fields, texts))
}
