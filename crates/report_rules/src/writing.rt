//! Writing the content of FIX 4.2 rule by rule.

ghost use Rattle.std.specs.Prelude.{◌≡◌, ◌++◌, [], IfErr, IfOk, IfSome, None, OnOk, codes, drop};
ghost use Rattle.std.specs.Prelude.{false, take};
ghost use Rattle.std.specs.Io.{StartsWith};
ghost use Rattle.std.specs.Option.{option_map};
ghost use Rattle.typed_fields.specs.Number.{IsNumber};
ghost use Rattle.value_kinds.specs.ValueKind.{code_text};
ghost use Rattle.field_groups.specs.Field.{body_of, field_bytes};
ghost use Rattle.message_tables.specs.Content.{cell_fields};
ghost use Rattle.message_tables.specs.Tables.{Tag, value_at};
ghost use Rattle.reports_fix50.specs.Sense.{most_before_reasons, reason_told, telling};
ghost use Rattle.rule_rows.specs.CodeRules.{IsLackOf};
ghost use Rattle.report_rules.specs.CodeRules.{close_code, exec_type_in, lacks, month, number_of};
ghost use Rattle.report_rules.specs.CodeRules.{tells_of, told, told_text, within_text, writes};
ghost use Rattle.report_rules.specs.declared.rules.Own.TheVariants as rules;
ghost use Rattle.report_rules.specs.Rules.{at_close, status_if, works_on};

use crate::mapping::{at_close, exec_type, on_close, status_if, trans_type, works_on};
use crate::rules::Own;
use crate::source::{Besides, Codes, Source, TIMES, TYPES, party};
use field_groups::{Fields, SOH, put_byte, put_field, put_number, put_tag};
use message_tables::Lookup;
use order_meaning::Lack;
use row_values::{Part, Value};
use rows_fix50::maturity;
use rule_rows::{OwnRule, kept, number_of, put_decimal, put_one, put_text};
use std::alloc::{AllocError, Global};
use typed_fields::{FieldValue, Number};

/// What a call answers that appends: an error only for want of memory. What stood there stays.
type Appended = Result<(), AllocError>;

/// Appends the field of a code, if there is one.
///
/// # Errors
///
/// `AllocError` for want of memory; what stood in `out` stays, and a part may stand behind it.
#[inline(always)]
pub fn put_code_if(out: &mut Vec<u8>, tag: u32, code: Option<u8>) -> Result<(), AllocError>
    ensures done { OnOk result (out.new.items
        ≡ out.old.items ++ body_of (cell_fields (Tag tag, option_map code_text code))) }
    ensures kept { StartsWith out.new.items out.old.items }
{
    match code {
        None => Ok(()),
        Some(code) => put_byte(out, tag, code),
    }
}

/// Appends a reason, or another one in the place of one past the last of FIX 4.2.
///
/// # Errors
///
/// As [`put_code_if`].
pub fn put_within(
    out: &mut Vec<u8>,
    tag: u32,
    last: u32,
    other: u8,
    reason: Option<Number>,
) -> Result<(), AllocError>
    ensures done { OnOk result (out.new.items ≡ out.old.items
        ++ body_of (cell_fields (Tag tag, option_map (within_text last other) reason))) }
    ensures kept { StartsWith out.new.items out.old.items }
{
    match reason {
        None => Ok(()),
        Some(reason) => {
            if reason.value <= last {
                put_number(out, tag, reason.value)
            } else {
                put_byte(out, tag, other)
            }
        }
    }
}

/// Appends ` [tag=reason]`.
fn push_told(out: &mut Vec<u8>, tag: u32, reason: Number) -> Result<(), AllocError>
    requires { IsNumber reason }
    ensures { OnOk result (out.new.items ≡ out.old.items ++ told_text tag reason.value) }
{
    out.extend_from_slice(b" [")?;
    put_tag(out, tag)?;
    reason.write(out)?;
    out.extend_from_slice(b"]")
}

/// Appends a reason that FIX 4.2 lacks.
fn push_reason(
    out: &mut Vec<u8>,
    tag: u32,
    last: u32,
    reason: Option<Number>,
) -> Result<(), AllocError>
    requires { IfSome reason IsNumber }
    ensures { OnOk result
        (out.new.items ≡ out.old.items ++ reason_told tag last (number_of reason)) }
{
    match reason {
        None => Ok(()),
        Some(reason) => {
            if reason.value <= last {
                Ok(())
            } else {
                push_told(out, tag, reason)
            }
        }
    }
}

/// The reasons of a report that FIX 4.2 lacks, as a text tells them: OrdRejReason(103),
/// ExecRestatementReason(378) and CxlRejReason(102).
fn tells_of(
    alloc: Global,
    rej: Option<Number>,
    restate: Option<Number>,
    cxl: Option<Number>,
) -> Result<Vec<u8>, AllocError>
    requires rej { IfSome rej IsNumber }
    requires restate { IfSome restate IsNumber }
    requires cxl { IfSome cxl IsNumber }
    ensures { IfOk result (λ told. told.items ≡ tells_of rej restate cxl) }
{
    let mut told = Vec::new(alloc);
    push_reason(&mut told, 103, 8, rej)?;
    push_reason(&mut told, 378, 5, restate)?;
    push_reason(&mut told, 102, 3, cxl)?;
    Ok(told)
}

/// The most bytes of a text that stay before the reasons that it tells.
const MOST_BEFORE_REASONS: usize = 2000;

/// The front of a text that leaves room for reasons.
fn front(text: &[u8]) -> &[u8]
    ensures { result.now ≡ take most_before_reasons text.now }
{
    if text.len() > MOST_BEFORE_REASONS {
        &text[..MOST_BEFORE_REASONS]
    } else {
        text
    }
}

/// Appends a field of two texts.
#[tactic(auto, unfolding(field_groups::specs::Field::field_bytes))]
fn put_joined(out: &mut Vec<u8>, tag: u32, text: &[u8], told: &[u8]) -> Appended
    ensures done { OnOk result (out.new.items
        ≡ out.old.items ++ field_bytes (tag, text.now ++ told.now)) }
    ensures kept { StartsWith out.new.items out.old.items }
{
    put_tag(out, tag)?;
    out.extend_from_slice(text)?;
    out.extend_from_slice(told)?;
    out.push(SOH)?;
    Ok(())
}

/// Appends a text, and behind it what it tells besides, which begins with a space.
fn put_telling(out: &mut Vec<u8>, tag: u32, text: Option<&[u8]>, told: &[u8]) -> Appended
    ensures done { OnOk result (out.new.items ≡ out.old.items ++ body_of
        (cell_fields (Tag tag, telling (option_map (λ t. t.now) text.entry) told.now))) }
    ensures kept { StartsWith out.new.items out.old.items }
{
    match (told, text) {
        ([], text) => put_text(out, tag, text),
        ([_, rest @ ..], None) => put_field(out, tag, rest),
        (told, Some(text)) => put_joined(out, tag, front(text), told),
    }
}

/// The day of a date.
fn day_of(date: &[u8]) -> &[u8]
    ensures { result.now ≡ drop 6 date.now }
{
    if date.len() > 6 { &date[6..] } else { &[] }
}

/// The reasons that FIX 4.2 lacks of an execution report, or of a cancel reject.
fn told(alloc: Global, fields: &Fields<'_>, is_report: bool) -> Result<Vec<u8>, AllocError>
    ensures { IfOk result (λ text. text.items ≡ told fields.now is_report) }
{
    if is_report {
        let restate = number_of(fields.value(378));
        tells_of(alloc, number_of(fields.value(103)), restate, None)
    } else {
        tells_of(alloc, None, None, number_of(fields.value(102)))
    }
}

/// Whether an execution report, or a cancel reject, has a field of a reason, which alone may be
/// told.
fn has_reason(fields: &Fields<'_>, is_report: bool) -> bool
    ensures { (result ≡ false) → told fields.now is_report ≡ [] }
{
    if is_report {
        match (fields.value(103), fields.value(378)) {
            (None, None) => false,
            _ => true,
        }
    } else {
        match fields.value(102) {
            None => false,
            Some(_) => true,
        }
    }
}

/// Appends Text(58), which tells the reasons that FIX 4.2 lacks of an execution report, or of a
/// cancel reject.
///
/// # Errors
///
/// As [`put_code_if`].
pub fn put_told(out: &mut Vec<u8>, fields: &Fields<'_>, is_report: bool) -> Result<(), AllocError>
    ensures done { OnOk result (out.new.items ≡ out.old.items ++ body_of
        (cell_fields (Tag 58, telling (value_at 58 fields.now) (told fields.now is_report)))) }
    ensures kept { StartsWith out.new.items out.old.items }
{
    if !has_reason(fields, is_report) {
        return put_text(out, 58, fields.value(58));
    }
    let told = told(*out.allocator(), fields, is_report)?;
    put_telling(out, 58, fields.value(58), &told)
}

/// Appends MaturityMonthYear(200), which is that of MaturityDate(541), where there is one.
///
/// # Errors
///
/// As [`put_code_if`].
pub fn put_month(out: &mut Vec<u8>, fields: &Fields<'_>) -> Result<(), AllocError>
    ensures done { OnOk result (out.new.items
        ≡ out.old.items ++ body_of (cell_fields (Tag 200, month fields.now))) }
    ensures kept { StartsWith out.new.items out.old.items }
{
    match (fields.value(541), fields.value(200)) {
        (None, None) => Ok(()),
        _ => {
            let maturity = maturity(fields);
            put_one(out, Part::Row(200, Value::Month(&maturity)))
        }
    }
}

/// Appends MaturityDay(205), where there is a date.
fn put_day(out: &mut Vec<u8>, date: Option<&[u8]>) -> Appended
    ensures done { OnOk result (out.new.items ≡ out.old.items ++ body_of (cell_fields
        (Tag 205, option_map (drop 6) (option_map (λ d. d.now) date.entry)))) }
    ensures kept { StartsWith out.new.items out.old.items }
{
    match date {
        Some(date) => put_field(out, 205, day_of(date)),
        None => Ok(()),
    }
}

/// Appends OrigClOrdID(41), or else the id that is known, unless nothing tells which order was to
/// be canceled or replaced.
fn put_original(source: &Source<'_, '_, '_>, out: &mut Vec<u8>) -> Result<(), Lack>
    ensures done { OnOk result (out.new.items
        ≡ out.old.items ++ body_of (writes source.now rules.Original)) }
    ensures said { OnOk result (lacks source.now rules.Original ≡ None) }
    ensures lack { IfErr result (IsLackOf (lacks source.now rules.Original)) }
    ensures kept { StartsWith out.new.items out.old.items }
{
    match (source.fields.value(41), source.besides.known) {
        (Some(id), _) => Ok(put_field(out, 41, id)?),
        (None, Some(known)) => Ok(put_field(out, 41, known)?),
        (None, None) => Err(Lack::Tag(41)),
    }
}

/// Appends ExecID(17), which is 0 in a status.
fn put_exec_id(source: &Source<'_, '_, '_>, out: &mut Vec<u8>) -> Appended
    ensures done { OnOk result (out.new.items
        ≡ out.old.items ++ body_of (writes source.now rules.ExecId)) }
    ensures kept { StartsWith out.new.items out.old.items }
{
    match source.fields.value(17) {
        None => Ok(()),
        Some(id) => {
            if status_if(source.besides.codes.exec_type) {
                put_byte(out, 17, b'0')
            } else {
                put_field(out, 17, id)
            }
        }
    }
}

/// Appends ExecTransType(20), unless ExecType(150) has no counterpart.
fn put_trans_type(source: &Source<'_, '_, '_>, out: &mut Vec<u8>) -> Result<(), Lack>
    ensures done { OnOk result (out.new.items
        ≡ out.old.items ++ body_of (writes source.now rules.TransType)) }
    ensures said { OnOk result (lacks source.now rules.TransType ≡ None) }
    ensures lack { IfErr result (IsLackOf (lacks source.now rules.TransType)) }
    ensures kept { StartsWith out.new.items out.old.items }
{
    match source.besides.codes.exec_type {
        None => Ok(()),
        Some(code) => match trans_type(code) {
            None => Err(Lack::Tag(150)),
            Some(code) => Ok(put_byte(out, 20, code)?),
        },
    }
}

/// ExecType(150) of FIX 4.2.
fn exec_type_if(codes: &Codes) -> Option<u8>
    ensures { result ≡ exec_type_in codes.now }
{
    match codes.exec_type {
        None => None,
        Some(code) => Some(exec_type(code, codes.ord_status.unwrap_or(0), codes.fills)),
    }
}

/// Appends OrdStatus(39).
#[inline(always)]
fn put_status(source: &Source<'_, '_, '_>, out: &mut Vec<u8>) -> Appended
    ensures done { OnOk result (out.new.items
        ≡ out.old.items ++ body_of (writes source.now rules.OrdStatus)) }
    ensures kept { StartsWith out.new.items out.old.items }
{
    if works_on(
        source.besides.codes.ord_status,
        source.besides.codes.exec_type,
    ) {
        put_byte(out, 39, b'5')
    } else {
        put_text(out, 39, source.fields.value(39))
    }
}

/// OrdType(40) on close.
fn close_if(ord_type: Option<u8>) -> Option<u8>
    ensures { result ≡ option_map close_code ord_type }
{
    match ord_type {
        None => None,
        Some(code) => Some(on_close(code)),
    }
}

/// Appends OrdType(40), by which FIX 4.2 says that an order is on close.
fn put_type(source: &Source<'_, '_, '_>, out: &mut Vec<u8>) -> Appended
    ensures done { OnOk result (out.new.items
        ≡ out.old.items ++ body_of (writes source.now rules.OrdType)) }
    ensures kept { StartsWith out.new.items out.old.items }
{
    if at_close(source.besides.codes.ord_type, source.besides.codes.time) {
        put_code_if(out, 40, close_if(source.besides.codes.ord_type))
    } else {
        put_text(out, 40, kept(source.fields, 40, &TYPES))
    }
}

/// Appends TimeInForce(59), which FIX 4.2 does not say of an order on close.
fn put_time(source: &Source<'_, '_, '_>, out: &mut Vec<u8>) -> Appended
    ensures done { OnOk result (out.new.items
        ≡ out.old.items ++ body_of (writes source.now rules.Time)) }
    ensures kept { StartsWith out.new.items out.old.items }
{
    if at_close(source.besides.codes.ord_type, source.besides.codes.time) {
        Ok(())
    } else {
        put_text(out, 59, kept(source.fields, 59, &TIMES))
    }
}

impl<'k> OwnRule<Besides<'k>> for Own {
    ghost writes = { writes };

    ghost lacks = { lacks };

    fn put(&self, source: &Source<'_, 'k, '_>, out: &mut Vec<u8>) -> Result<(), Lack> {
        let fields = source.fields;
        match self {
            Own::Original => put_original(source, out),
            Own::PartyOf(role, to) => {
                Ok(put_text(out, *to, party(&source.besides.parties, *role))?)
            }
            Own::ExecId => Ok(put_exec_id(source, out)?),
            Own::TransType => put_trans_type(source, out),
            Own::ExecType => Ok(put_code_if(out, 150, exec_type_if(&source.besides.codes))?),
            Own::OrdStatus => Ok(put_status(source, out)?),
            Own::Another(tag) => Ok(put_text(out, *tag, fields.value(*tag))?),
            Own::Traded(tag) => Ok(put_decimal(out, *tag, fields.value(*tag))?),
            Own::Within(tag, last, other) => {
                let reason = number_of(fields.value(*tag));
                Ok(put_within(out, *tag, *last, *other, reason)?)
            }
            Own::Told(is_report) => Ok(put_told(out, fields, *is_report)?),
            Own::Month => Ok(put_month(out, fields)?),
            Own::DayOfDate => Ok(put_day(out, fields.value(541))?),
            Own::OrdType => Ok(put_type(source, out)?),
            Own::Time => Ok(put_time(source, out)?),
        }
    }
}
