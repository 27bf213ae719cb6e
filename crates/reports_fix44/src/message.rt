//! Reading and writing reports and refusals of FIX 4.4.

ghost use Rattle.std.specs.Prelude.{◌≡◌, ◌++◌, IfOk, None, OnErr, OnOk};
ghost use Rattle.field_groups.specs.Field.{body_of};
ghost use Rattle.message_tables.specs.Content.{content};
ghost use Rattle.first_faults.specs.Gives.{Gives};
ghost use Rattle.refusal_parts.specs.Once.{refusal_by};
ghost use Rattle.refusal_parts.specs.Readable.{IsReadableRefusal};
ghost use Rattle.refusal_parts.specs.Said.{business_reject_says, session_reject_says};
ghost use Rattle.reports_fix44.specs.Message.{business_reject_table, cancel_reject_table};
ghost use Rattle.reports_fix44.specs.Message.{report_by, report_table, session_reject_table};
ghost use Rattle.reports_fix50.specs.Readable.{IsReadableReport};
ghost use Rattle.reports_fix44.specs.Readable.{IsReadableCancelReject};
ghost use Rattle.reports_fix44.specs.Said.{cancel_reject_says, report_says};

use crate::reading::{cancel_reject, execution_report};
use crate::reports::{CancelReject44, Report44};
use crate::tables;
use crate::writing::{cancel_reject_parts, report_parts};
use field_groups::Split;
use first_faults::good_fields;
use order_meaning::{Fault, Refusal};
use refusal_parts::{business_reject, business_reject_parts, session_reject, session_reject_parts};
use reports_fix50::read_groups;
use row_values::put_content;
use std::alloc::{AllocError, Global};

/// Reads Execution Report (8), by the fields of its body.
///
/// # Errors
///
/// `Session` and `NoCounterpart` for the first fault of the message: what stopped its fields; a tag
/// of the profile twice; a count, an order or a length of a group; a value that is empty, of wrong
/// form or out of range; a required field that is missing; a tag or a value outside the profile.
/// `NoMemory` for want of memory.
pub fn read_report(alloc: Global, split: &Split<'_>) -> Result<Report44, Fault>
    ensures says { Gives report_says result
        (report_by report_table split.now.fields split.now.fault) }
    ensures readable { IfOk result IsReadableReport }
{
    let fields = good_fields(tables::execution_report(), split)?;
    let groups = read_groups(alloc, fields)?;
    Ok(execution_report(alloc, fields, groups)?)
}

/// Reads Order Cancel Reject (9), by the fields of its body.
///
/// # Errors
///
/// Those of `read_report`, by its own table.
pub fn read_cancel_reject(alloc: Global, split: &Split<'_>) -> Result<CancelReject44, Fault>
    ensures says { Gives cancel_reject_says result
        (report_by cancel_reject_table split.now.fields split.now.fault) }
    ensures readable { IfOk result IsReadableCancelReject }
{
    let fields = good_fields(tables::cancel_reject(), split)?;
    Ok(cancel_reject(alloc, fields)?)
}

/// Reads Reject (3), by the fields of its body; its PossResend(97) counts for nothing.
///
/// # Errors
///
/// Those of `read_report`, by its own table, where no tag and no value is outside the profile.
pub fn read_session_reject(alloc: Global, split: &Split<'_>) -> Result<Refusal, Fault>
    ensures says { Gives session_reject_says result
        (refusal_by session_reject_table split.now.fields split.now.fault) }
    ensures readable { IfOk result IsReadableRefusal }
    ensures id { IfOk result (λ m. m.id ≡ None) }
{
    let fields = good_fields(dict_fix44::session_reject(), split)?;
    Ok(session_reject(alloc, fields)?)
}

/// Reads Business Message Reject (j), by the fields of its body; its PossResend(97) counts for
/// nothing.
///
/// # Errors
///
/// Those of `read_report`, by its own table, where no tag and no value is outside the profile.
pub fn read_business_reject(alloc: Global, split: &Split<'_>) -> Result<Refusal, Fault>
    ensures says { Gives business_reject_says result
        (refusal_by business_reject_table split.now.fields split.now.fault) }
    ensures readable { IfOk result IsReadableRefusal }
    ensures tag { IfOk result (λ m. m.tag ≡ None) }
{
    let fields = good_fields(dict_fix44::business_reject(), split)?;
    Ok(business_reject(alloc, fields)?)
}

/// Appends the content of an execution report whose values can be read: the fields after the
/// header, in the order of the report table, each in its canonical spelling, and without
/// PossResend(97).
///
/// # Errors
///
/// `AllocError` for want of memory; then `out` is unchanged.
pub fn write_report(msg: &Report44, out: &mut Vec<u8>) -> Result<(), AllocError>
    requires { IsReadableReport msg.now }
    ensures ok { OnOk result (out.new.items
        ≡ out.old.items ++ body_of (content report_table (report_says msg.now))) }
    ensures err { OnErr result (out.new.items ≡ out.old.items) }
{
    put_content(out, &report_parts(msg))
}

/// Appends the content of a cancel reject whose values can be read, as `write_report` does.
///
/// # Errors
///
/// `AllocError` for want of memory; then `out` is unchanged.
pub fn write_cancel_reject(msg: &CancelReject44, out: &mut Vec<u8>) -> Result<(), AllocError>
    requires { IsReadableCancelReject msg.now }
    ensures ok { OnOk result (out.new.items
        ≡ out.old.items ++ body_of (content cancel_reject_table (cancel_reject_says msg.now))) }
    ensures err { OnErr result (out.new.items ≡ out.old.items) }
{
    put_content(out, &cancel_reject_parts(msg))
}

/// Appends the content of a refusal whose values can be read, as a Reject (3).
///
/// # Errors
///
/// `AllocError` for want of memory; then `out` is unchanged.
pub fn write_session_reject(msg: &Refusal, out: &mut Vec<u8>) -> Result<(), AllocError>
    requires { IsReadableRefusal msg.now }
    ensures ok { OnOk result (out.new.items
        ≡ out.old.items ++ body_of (content session_reject_table (session_reject_says msg.now))) }
    ensures err { OnErr result (out.new.items ≡ out.old.items) }
{
    put_content(out, &session_reject_parts(msg))
}

/// Appends the content of a refusal whose values can be read, as a Business Message Reject (j).
///
/// # Errors
///
/// `AllocError` for want of memory; then `out` is unchanged.
pub fn write_business_reject(msg: &Refusal, out: &mut Vec<u8>) -> Result<(), AllocError>
    requires { IsReadableRefusal msg.now }
    ensures ok { OnOk result (out.new.items
        ≡ out.old.items ++ body_of (content business_reject_table (business_reject_says msg.now))) }
    ensures err { OnErr result (out.new.items ≡ out.old.items) }
{
    put_content(out, &business_reject_parts(msg))
}
