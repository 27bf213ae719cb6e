//! Reading and writing order messages of FIX 5.0 SP2.

ghost use Rattle.std.specs.Prelude.{◌≡◌, ◌++◌, ◌∷◌, [], IfOk, OnErr, OnOk, Some};
ghost use Rattle.field_groups.specs.Field.{body_of};
ghost use Rattle.first_faults.specs.Gives.{Gives};
ghost use Rattle.dict_fix50.specs.Message.{message50, message50_by};
ghost use Rattle.rows_fix50.specs.Header.{table};
ghost use Rattle.dict_fix50.specs.Readable.{IsReadable50};
ghost use Rattle.dict_fix50.specs.Requests.{cancel_request, new_order, replace_request};
ghost use Rattle.dict_fix50.specs.Requests.{status_request};
ghost use Rattle.dict_fix50.specs.Said.{says};
ghost use Rattle.dict_fix50.specs.Content.{content50};

use crate::groups::read_groups;
use crate::reading::{cancel_request, new_order, replace_request, status_request};
use crate::requests::Msg50;
use crate::tables;
use crate::writing::{cancel_parts, new_parts, replace_parts, status_parts};
use field_groups::{Split, is_type};
use first_faults::good_fields;
use order_meaning::Fault;
use row_values::{put_content, read_lines};
use std::alloc::{AllocError, Global};

/// The letter of a message's type, as MsgType(35) has it; it takes no memory.
pub fn type50(msg: &Msg50) -> &'static [u8]
    ensures { result.now ≡ (says msg.now).letter ∷ [] }
{
    match msg {
        Msg50::New(_) => b"D",
        Msg50::Cancel(_) => b"F",
        Msg50::Replace(_) => b"G",
        Msg50::Status(_) => b"H",
    }
}

/// Reads New Order - Single (D).
fn read_new(alloc: Global, split: &Split<'_>) -> Result<Msg50, Fault>
    ensures says { Gives says result
        (message50_by (Some (table 68 new_order)) split.now.fields split.now.fault) }
    ensures readable { IfOk result IsReadable50 }
{
    let fields = good_fields(tables::new_order(), split)?;
    let groups = read_groups(alloc, fields)?;
    Ok(Msg50::New(new_order(alloc, fields, groups)?))
}

/// Reads Order Cancel Request (F).
fn read_cancel(alloc: Global, split: &Split<'_>) -> Result<Msg50, Fault>
    ensures says { Gives says result
        (message50_by (Some (table 70 cancel_request)) split.now.fields split.now.fault) }
    ensures readable { IfOk result IsReadable50 }
{
    let fields = good_fields(tables::cancel_request(), split)?;
    let parties = read_lines(alloc, fields)?;
    Ok(Msg50::Cancel(cancel_request(alloc, fields, parties)?))
}

/// Reads Order Cancel/Replace Request (G).
fn read_replace(alloc: Global, split: &Split<'_>) -> Result<Msg50, Fault>
    ensures says { Gives says result
        (message50_by (Some (table 71 replace_request)) split.now.fields split.now.fault) }
    ensures readable { IfOk result IsReadable50 }
{
    let fields = good_fields(tables::replace_request(), split)?;
    let groups = read_groups(alloc, fields)?;
    Ok(Msg50::Replace(replace_request(alloc, fields, groups)?))
}

/// Reads Order Status Request (H).
fn read_status(alloc: Global, split: &Split<'_>) -> Result<Msg50, Fault>
    ensures says { Gives says result
        (message50_by (Some (table 72 status_request)) split.now.fields split.now.fault) }
    ensures readable { IfOk result IsReadable50 }
{
    let fields = good_fields(tables::status_request(), split)?;
    let parties = read_lines(alloc, fields)?;
    Ok(Msg50::Status(status_request(alloc, fields, parties)?))
}

/// Reads a message of FIX 5.0 SP2, by its MsgType(35) and the fields of its body.
///
/// # Errors
///
/// `NotSupported` for a type that is none of these. `Session` and `NoCounterpart` for the first
/// fault of the message: what stopped its fields; a tag of the profile twice; another version than
/// FIX 5.0 SP2; a count, an order or a length of a group; a value that is empty, of wrong form or
/// out of range; a required field that is missing; a required code outside the profile. `NoMemory`
/// for want of memory.
#[tactic(auto, unfolding(crate::specs::Message::message50))]
pub fn read50(alloc: Global, msg_type: &[u8], split: &Split<'_>) -> Result<Msg50, Fault>
    ensures says { Gives says result (message50 msg_type.now split.now.fields split.now.fault) }
    ensures readable { IfOk result IsReadable50 }
{
    if is_type(msg_type, b'D') {
        read_new(alloc, split)
    } else if is_type(msg_type, b'F') {
        read_cancel(alloc, split)
    } else if is_type(msg_type, b'G') {
        read_replace(alloc, split)
    } else if is_type(msg_type, b'H') {
        read_status(alloc, split)
    } else {
        Err(Fault::NotSupported)
    }
}

/// Appends the content of a message whose values can be read: the fields after the header, in the
/// order of the request table, each in its canonical spelling, and without PossResend(97).
///
/// # Errors
///
/// `AllocError` for want of memory; then `out` is unchanged.
pub fn write50(msg: &Msg50, out: &mut Vec<u8>) -> Result<(), AllocError>
    requires { IsReadable50 msg.now }
    ensures ok { OnOk result (out.new.items ≡ out.old.items ++ body_of (content50 msg.now)) }
    ensures err { OnErr result (out.new.items ≡ out.old.items) }
{
    match msg {
        Msg50::New(order) => put_content(out, &new_parts(order)),
        Msg50::Cancel(request) => put_content(out, &cancel_parts(request)),
        Msg50::Replace(request) => put_content(out, &replace_parts(request)),
        Msg50::Status(request) => put_content(out, &status_parts(request)),
    }
}
