//! Reading and writing reports and refusals of FIX 5.0 SP2.

ghost use Rattle.std.specs.Prelude.{◌≡◌, ◌++◌, [], IfOk, None, OnErr, OnOk};
ghost use Rattle.field_groups.specs.Field.{body_of};
ghost use Rattle.message_tables.specs.Content.{content};
ghost use Rattle.first_faults.specs.Gives.{Gives, IsCleanIf};
ghost use Rattle.refusal_parts.specs.Once.{refusal_by};
ghost use Rattle.refusal_parts.specs.Readable.{IsReadableRefusal};
ghost use Rattle.refusal_parts.specs.Said.{business_reject_says, session_reject_says};
ghost use Rattle.reports_fix50.specs.Message.{business_reject_table, cancel_reject_table};
ghost use Rattle.reports_fix50.specs.Message.{report_by, report_table, report_table_of};
ghost use Rattle.reports_fix50.specs.Message.{session_reject_table};
ghost use Rattle.reports_fix50.specs.Readable.{IsReadableCancelReject, IsReadableReport};
ghost use Rattle.reports_fix50.specs.Said.{cancel_reject_says, report_says};

use crate::groups::read_groups;
use crate::reading::{cancel_reject, execution_report};
use crate::reports::{CancelReject50, Report50};
use crate::tables;
use crate::writing::{cancel_reject_parts, report_parts};
use field_groups::{Fields, Split, is_type};
use first_faults::{Indexed, good_fields, good_fields_by};
use order_meaning::{Fault, Lines, Refusal};
use refusal_parts::{business_reject, business_reject_parts, session_reject, session_reject_parts};
use row_values::put_content;
use std::alloc::{AllocError, Global};
use std::marker::Model;

/// The fields of the body of a report, where they are whole and at no fault beside the table of
/// their type. It takes no memory.
///
/// # Errors
///
/// `NotSupported` for a type that is neither 8 nor 9. `Session` and `NoCounterpart` for the first
/// fault, as `read_report` and `read_cancel_reject` have it.
pub fn good_report<'s, 'a>(msg_type: &[u8], split: &'s Split<'a>) -> Result<&'s Fields<'a>, Fault>
    ensures { IsCleanIf (report_table_of msg_type.now) split.now.fields split.now.fault result }
{
    if is_type(msg_type, b'8') {
        good_fields(tables::execution_report(), split)
    } else if is_type(msg_type, b'9') {
        good_fields(tables::cancel_reject(), split)
    } else {
        Err(Fault::NotSupported)
    }
}

/// The tables of reports, whose rows are found by their tags.
#[derive(Drop)]
pub struct ReportTables {
    execution_report: Indexed,
    cancel_reject: Indexed,
}

impl Model for ReportTables {
    ghost use Rattle.std.specs.Prelude.{◌≡◌};
    ghost use Rattle.reports_fix50.specs.Message.{cancel_reject_table, report_table};

    ghost Value = { Unit {0} };

    ghost view = { λ _. tt };

    ghost invariant = { λ t. (t.execution_report ≡ report_table)
        × (t.cancel_reject ≡ cancel_reject_table) };
}

impl ReportTables {
    /// The tables.
    pub fn new() -> ReportTables {
        ReportTables {
            execution_report: Indexed::new(tables::execution_report()),
            cancel_reject: Indexed::new(tables::cancel_reject()),
        }
    }

    /// The same as [`good_report`], in less time.
    ///
    /// # Errors
    ///
    /// As `good_report` has them.
    pub fn good<'s, 'a>(
        &self,
        msg_type: &[u8],
        split: &'s Split<'a>,
    ) -> Result<&'s Fields<'a>, Fault>
        ensures { IsCleanIf (report_table_of msg_type.now) split.now.fields split.now.fault result }
    {
        if is_type(msg_type, b'8') {
            good_fields_by(&self.execution_report, split)
        } else if is_type(msg_type, b'9') {
            good_fields_by(&self.cancel_reject, split)
        } else {
            Err(Fault::NotSupported)
        }
    }
}

/// Reads Execution Report (8), by the fields of its body.
///
/// # Errors
///
/// `Session` and `NoCounterpart` for the first fault of the message: what stopped its fields; a tag
/// of the profile twice; another version than FIX 5.0 SP2; a count, an order or a length of a
/// group; a value that is empty, of wrong form or out of range, as an ExecType(150) or an
/// OrdStatus(39) that is unknown; a required field that is missing; a Side(54) outside the profile.
/// `NoMemory` for want of memory.
pub fn read_report(alloc: Global, split: &Split<'_>) -> Result<Report50, Fault>
    ensures says { Gives report_says result
        (report_by report_table split.now.fields split.now.fault) }
    ensures readable { IfOk result IsReadableReport }
{
    let fields = good_fields(tables::execution_report(), split)?;
    let groups = read_groups(alloc, fields)?;
    Ok(execution_report(alloc, fields, groups)?)
}

/// Reads Order Cancel Reject (9), by the fields of its body.
///
/// # Errors
///
/// `Session` for the first fault of the message, as for an execution report; `NoMemory` for want of
/// memory.
pub fn read_cancel_reject(alloc: Global, split: &Split<'_>) -> Result<CancelReject50, Fault>
    ensures says { Gives cancel_reject_says result
        (report_by cancel_reject_table split.now.fields split.now.fault) }
    ensures readable { IfOk result IsReadableCancelReject }
{
    let fields = good_fields(tables::cancel_reject(), split)?;
    Ok(cancel_reject(alloc, fields)?)
}

/// Reads Reject (3), by the fields of its body; its PossResend(97) counts for nothing.
///
/// # Errors
///
/// `Session` for the first fault of the message; `NoMemory` for want of memory.
pub fn read_session_reject(alloc: Global, split: &Split<'_>) -> Result<Refusal, Fault>
    ensures says { Gives session_reject_says result
        (refusal_by session_reject_table split.now.fields split.now.fault) }
    ensures readable { IfOk result IsReadableRefusal }
    ensures id { IfOk result (λ m. m.id ≡ None) }
{
    let fields = good_fields(tables::session_reject(), split)?;
    Ok(session_reject(alloc, fields)?)
}

/// Reads Business Message Reject (j), by the fields of its body; its PossResend(97) counts for
/// nothing.
///
/// # Errors
///
/// `Session` for the first fault of the message; `NoMemory` for want of memory.
pub fn read_business_reject(alloc: Global, split: &Split<'_>) -> Result<Refusal, Fault>
    ensures says { Gives business_reject_says result
        (refusal_by business_reject_table split.now.fields split.now.fault) }
    ensures readable { IfOk result IsReadableRefusal }
    ensures tag { IfOk result (λ m. m.tag ≡ None) }
{
    let fields = good_fields(tables::business_reject(), split)?;
    Ok(business_reject(alloc, fields)?)
}

/// Appends the content of an execution report whose values can be read: the fields after the
/// header, in the order of the report table, each in its canonical spelling, and without
/// PossResend(97).
///
/// # Errors
///
/// `AllocError` for want of memory; then `out` is unchanged.
pub fn write_report(msg: &Report50, out: &mut Vec<u8>) -> Result<(), AllocError>
    requires { IsReadableReport msg.now }
    ensures ok { OnOk result (out.new.items
        ≡ out.old.items ++ body_of (content report_table (report_says msg.now))) }
    ensures err { OnErr result (out.new.items ≡ out.old.items) }
{
    put_content(out, &report_parts(msg, &msg.parties))
}

/// Appends the content of an execution report whose values can be read, as `write_report` does, but
/// without its Parties(453).
///
/// # Errors
///
/// `AllocError` for want of memory; then `out` is unchanged.
pub fn write_without_parties(
    alloc: Global,
    msg: &Report50,
    out: &mut Vec<u8>,
) -> Result<(), AllocError>
    requires { IsReadableReport msg.now }
    ensures ok { OnOk result (out.new.items
        ≡ out.old.items
        ++ body_of (content report_table (report_says (record msg.now { parties = [] })))) }
    ensures err { OnErr result (out.new.items ≡ out.old.items) }
{
    put_content(out, &report_parts(msg, &Lines::new(alloc)))
}

/// Appends the content of a cancel reject whose values can be read, as `write_report` does.
///
/// # Errors
///
/// `AllocError` for want of memory; then `out` is unchanged.
pub fn write_cancel_reject(msg: &CancelReject50, out: &mut Vec<u8>) -> Result<(), AllocError>
    requires { IsReadableCancelReject msg.now }
    ensures ok { OnOk result (out.new.items
        ≡ out.old.items ++ body_of (content cancel_reject_table (cancel_reject_says msg.now))) }
    ensures err { OnErr result (out.new.items ≡ out.old.items) }
{
    put_content(out, &cancel_reject_parts(msg))
}

/// Appends the content of a refusal whose values can be read, as a Reject (3).
///
/// # Errors
///
/// `AllocError` for want of memory; then `out` is unchanged.
pub fn write_session_reject(msg: &Refusal, out: &mut Vec<u8>) -> Result<(), AllocError>
    requires { IsReadableRefusal msg.now }
    ensures ok { OnOk result (out.new.items
        ≡ out.old.items ++ body_of (content session_reject_table (session_reject_says msg.now))) }
    ensures err { OnErr result (out.new.items ≡ out.old.items) }
{
    put_content(out, &session_reject_parts(msg))
}

/// Appends the content of a refusal whose values can be read, as a Business Message Reject (j).
///
/// # Errors
///
/// `AllocError` for want of memory; then `out` is unchanged.
pub fn write_business_reject(msg: &Refusal, out: &mut Vec<u8>) -> Result<(), AllocError>
    requires { IsReadableRefusal msg.now }
    ensures ok { OnOk result (out.new.items
        ≡ out.old.items ++ body_of (content business_reject_table (business_reject_says msg.now))) }
    ensures err { OnErr result (out.new.items ≡ out.old.items) }
{
    put_content(out, &business_reject_parts(msg))
}
