//! Reading and writing order messages of FIX 4.4.

ghost use Rattle.std.specs.Prelude.{◌≡◌, ◌++◌, ◌∷◌, [], IfOk, OnErr, OnOk, Some};
ghost use Rattle.field_groups.specs.Field.{body_of};
ghost use Rattle.first_faults.specs.Gives.{Gives};
ghost use Rattle.dict_fix44.specs.Message.{request_message44, message44_by};
ghost use Rattle.rows_fix42.specs.Header.{table};
ghost use Rattle.requests_fix44.specs.Readable.{IsReadable44};
ghost use Rattle.dict_fix44.specs.Requests.{cancel_request, new_order, replace_request};
ghost use Rattle.dict_fix44.specs.Requests.{status_request};
ghost use Rattle.requests_fix44.specs.Said.{says};
ghost use Rattle.requests_fix44.specs.Content.{content44};

use crate::reading::{cancel_request, new_order, replace_request, status_request};
use crate::requests::Msg44;
use crate::writing::{cancel_parts, new_parts, replace_parts, status_parts};
use dict_fix50::read_groups;
use field_groups::{Split, is_type};
use first_faults::good_fields;
use order_meaning::Fault;
use row_values::{put_content, read_lines};
use std::alloc::{AllocError, Global};

/// The letter of a message's type, as MsgType(35) has it; it takes no memory.
pub fn type44(msg: &Msg44) -> &'static [u8]
    ensures { result.now ≡ (says msg.now).letter ∷ [] }
{
    match msg {
        Msg44::New(_) => b"D",
        Msg44::Cancel(_) => b"F",
        Msg44::Replace(_) => b"G",
        Msg44::Status(_) => b"H",
    }
}

/// Reads New Order - Single (D).
fn read_new(alloc: Global, split: &Split<'_>) -> Result<Msg44, Fault>
    ensures says { Gives says result
        (message44_by (Some (table 68 new_order)) split.now.fields split.now.fault) }
    ensures readable { IfOk result IsReadable44 }
{
    let fields = good_fields(dict_fix44::new_order(), split)?;
    let groups = read_groups(alloc, fields)?;
    Ok(Msg44::New(new_order(alloc, fields, groups)?))
}

/// Reads Order Cancel Request (F).
fn read_cancel(alloc: Global, split: &Split<'_>) -> Result<Msg44, Fault>
    ensures says { Gives says result
        (message44_by (Some (table 70 cancel_request)) split.now.fields split.now.fault) }
    ensures readable { IfOk result IsReadable44 }
{
    let fields = good_fields(dict_fix44::cancel_request(), split)?;
    let parties = read_lines(alloc, fields)?;
    Ok(Msg44::Cancel(cancel_request(alloc, fields, parties)?))
}

/// Reads Order Cancel/Replace Request (G).
fn read_replace(alloc: Global, split: &Split<'_>) -> Result<Msg44, Fault>
    ensures says { Gives says result
        (message44_by (Some (table 71 replace_request)) split.now.fields split.now.fault) }
    ensures readable { IfOk result IsReadable44 }
{
    let fields = good_fields(dict_fix44::replace_request(), split)?;
    let groups = read_groups(alloc, fields)?;
    Ok(Msg44::Replace(replace_request(alloc, fields, groups)?))
}

/// Reads Order Status Request (H).
fn read_status(alloc: Global, split: &Split<'_>) -> Result<Msg44, Fault>
    ensures says { Gives says result
        (message44_by (Some (table 72 status_request)) split.now.fields split.now.fault) }
    ensures readable { IfOk result IsReadable44 }
{
    let fields = good_fields(dict_fix44::status_request(), split)?;
    let parties = read_lines(alloc, fields)?;
    Ok(Msg44::Status(status_request(alloc, fields, parties)?))
}

/// Reads a message of FIX 4.4, by its MsgType(35) and the fields of its body.
///
/// # Errors
///
/// `NotSupported` for a type that is none of these. `Session` and `NoCounterpart` for the first
/// fault of the message: what stopped its fields; a tag of the profile twice; a count, an order or
/// a length of a group; a value that is empty, of wrong form or out of range; a required field that
/// is missing; a tag or a value outside the profile. `NoMemory` for want of memory.
#[tactic(auto, unfolding(dict_fix44::specs::Message::request_message44))]
pub fn read44(alloc: Global, msg_type: &[u8], split: &Split<'_>) -> Result<Msg44, Fault>
    ensures says { Gives says result
        (request_message44 msg_type.now split.now.fields split.now.fault) }
    ensures readable { IfOk result IsReadable44 }
{
    if is_type(msg_type, b'D') {
        read_new(alloc, split)
    } else if is_type(msg_type, b'F') {
        read_cancel(alloc, split)
    } else if is_type(msg_type, b'G') {
        read_replace(alloc, split)
    } else if is_type(msg_type, b'H') {
        read_status(alloc, split)
    } else {
        Err(Fault::NotSupported)
    }
}

/// Appends the content of a message whose values can be read: the fields after the header, in the
/// order of the request table, each in its canonical spelling, and without PossResend(97).
///
/// # Errors
///
/// `AllocError` for want of memory; then `out` is unchanged.
pub fn write44(msg: &Msg44, out: &mut Vec<u8>) -> Result<(), AllocError>
    requires { IsReadable44 msg.now }
    ensures ok { OnOk result (out.new.items ≡ out.old.items ++ body_of (content44 msg.now)) }
    ensures err { OnErr result (out.new.items ≡ out.old.items) }
{
    match msg {
        Msg44::New(order) => put_content(out, &new_parts(order)),
        Msg44::Cancel(request) => put_content(out, &cancel_parts(request)),
        Msg44::Replace(request) => put_content(out, &replace_parts(request)),
        Msg44::Status(request) => put_content(out, &status_parts(request)),
    }
}
