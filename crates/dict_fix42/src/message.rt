//! Reading and writing order messages of FIX 4.2.

ghost use Rattle.std.specs.Prelude.{◌≡◌, ◌++◌, ◌∷◌, [], IfOk, OnErr, OnOk, Some};
ghost use Rattle.std.specs.Option.{option_map};
ghost use Rattle.field_groups.specs.Field.{body_of};
ghost use Rattle.message_tables.specs.CodeTables.{table_of as code_table};
ghost use Rattle.row_values.specs.CodeKinds.{kind_of};
ghost use Rattle.first_faults.specs.Faults.{message_by};
ghost use Rattle.first_faults.specs.Gives.{Gives};
ghost use Rattle.dict_fix42.specs.Message.{message42, table_of};
ghost use Rattle.rows_fix42.specs.Header.{table};
ghost use Rattle.dict_fix42.specs.Readable.{IsReadable42};
ghost use Rattle.dict_fix42.specs.Requests.{cancel_request, new_order, replace_request};
ghost use Rattle.dict_fix42.specs.Requests.{status_request};
ghost use Rattle.dict_fix42.specs.Said.{says};
ghost use Rattle.dict_fix42.specs.Content.{content42};

use crate::groups::read_groups;
use crate::reading::{cancel_request, new_order, replace_request, status_request};
use crate::requests::Msg42;
use crate::tables;
use crate::writing::{cancel_parts, new_parts, replace_parts, status_parts};
use field_groups::{Split, is_type};
use first_faults::{Indexed, good_fields};
use message_tables::Table;
use order_meaning::Fault;
use row_values::{Kind, put_content};
use std::alloc::{AllocError, Global};
use std::marker::Model;

/// The letter of a message's type, as MsgType(35) has it; it takes no memory.
pub fn type42(msg: &Msg42) -> &'static [u8]
    ensures { result.now ≡ (says msg.now).letter ∷ [] }
{
    match msg {
        Msg42::New(_) => b"D",
        Msg42::Cancel(_) => b"F",
        Msg42::Replace(_) => b"G",
        Msg42::Status(_) => b"H",
    }
}

/// The table of a type, where it is one of D, F, G and H.
pub fn request_table(msg_type: &[u8]) -> Option<&'static Table<Kind>>
    ensures { option_map (λ table. code_table kind_of table.now) result ≡ table_of msg_type.now }
{
    if is_type(msg_type, b'D') {
        Some(tables::new_order())
    } else if is_type(msg_type, b'F') {
        Some(tables::cancel_request())
    } else if is_type(msg_type, b'G') {
        Some(tables::replace_request())
    } else if is_type(msg_type, b'H') {
        Some(tables::status_request())
    } else {
        None
    }
}

/// The tables of requests, whose rows are found by their tags.
#[derive(Drop)]
pub struct RequestTables {
    new: Indexed,
    cancel: Indexed,
    replace: Indexed,
    status: Indexed,
}

impl Model for RequestTables {
    ghost use Rattle.std.specs.Prelude.{◌≡◌};
    ghost use Rattle.dict_fix42.specs.Requests.{cancel_request, new_order, replace_request};
    ghost use Rattle.dict_fix42.specs.Requests.{status_request};
    ghost use Rattle.rows_fix42.specs.Header.{table};

    ghost Value = { Unit {0} };

    ghost view = { λ _. tt };

    ghost invariant = { λ t. (t.new ≡ table 68 new_order)
        × (t.cancel ≡ table 70 cancel_request)
        × (t.replace ≡ table 71 replace_request)
        × (t.status ≡ table 72 status_request) };
}

impl RequestTables {
    /// The tables.
    pub fn new() -> RequestTables {
        RequestTables {
            new: Indexed::new(tables::new_order()),
            cancel: Indexed::new(tables::cancel_request()),
            replace: Indexed::new(tables::replace_request()),
            status: Indexed::new(tables::status_request()),
        }
    }

    /// The table of a type, where it is one of D, F, G and H.
    pub fn get(&self, msg_type: &[u8]) -> Option<&Indexed>
        ensures { option_map (λ table. table.now) result ≡ table_of msg_type.now }
    {
        if is_type(msg_type, b'D') {
            Some(&self.new)
        } else if is_type(msg_type, b'F') {
            Some(&self.cancel)
        } else if is_type(msg_type, b'G') {
            Some(&self.replace)
        } else if is_type(msg_type, b'H') {
            Some(&self.status)
        } else {
            None
        }
    }
}

/// Reads New Order - Single (D).
fn read_new(alloc: Global, split: &Split<'_>) -> Result<Msg42, Fault>
    ensures says { Gives says result
        (message_by (Some (table 68 new_order)) split.now.fields split.now.fault) }
    ensures readable { IfOk result IsReadable42 }
{
    let fields = good_fields(tables::new_order(), split)?;
    let groups = read_groups(alloc, fields)?;
    Ok(Msg42::New(new_order(alloc, fields, groups)?))
}

/// Reads Order Cancel Request (F).
fn read_cancel(alloc: Global, split: &Split<'_>) -> Result<Msg42, Fault>
    ensures says { Gives says result
        (message_by (Some (table 70 cancel_request)) split.now.fields split.now.fault) }
    ensures readable { IfOk result IsReadable42 }
{
    let fields = good_fields(tables::cancel_request(), split)?;
    Ok(Msg42::Cancel(cancel_request(alloc, fields)?))
}

/// Reads Order Cancel/Replace Request (G).
fn read_replace(alloc: Global, split: &Split<'_>) -> Result<Msg42, Fault>
    ensures says { Gives says result
        (message_by (Some (table 71 replace_request)) split.now.fields split.now.fault) }
    ensures readable { IfOk result IsReadable42 }
{
    let fields = good_fields(tables::replace_request(), split)?;
    let groups = read_groups(alloc, fields)?;
    Ok(Msg42::Replace(replace_request(alloc, fields, groups)?))
}

/// Reads Order Status Request (H).
fn read_status(alloc: Global, split: &Split<'_>) -> Result<Msg42, Fault>
    ensures says { Gives says result
        (message_by (Some (table 72 status_request)) split.now.fields split.now.fault) }
    ensures readable { IfOk result IsReadable42 }
{
    let fields = good_fields(tables::status_request(), split)?;
    Ok(Msg42::Status(status_request(alloc, fields)?))
}

/// Reads a message of FIX 4.2, by its MsgType(35) and the fields of its body.
///
/// # Errors
///
/// `NotSupported` for a type that is none of these. `Session` and `NoCounterpart` for the first
/// fault of the message: what stopped its fields; a tag of the profile twice; a count, an order or
/// a length of a group; a value that is empty, of wrong form or out of range; a required field that
/// is missing; a tag or a value outside the profile. `NoMemory` for want of memory.
#[tactic(auto, unfolding(crate::specs::Message::message42))]
pub fn read42(alloc: Global, msg_type: &[u8], split: &Split<'_>) -> Result<Msg42, Fault>
    ensures says { Gives says result (message42 msg_type.now split.now.fields split.now.fault) }
    ensures readable { IfOk result IsReadable42 }
{
    if is_type(msg_type, b'D') {
        read_new(alloc, split)
    } else if is_type(msg_type, b'F') {
        read_cancel(alloc, split)
    } else if is_type(msg_type, b'G') {
        read_replace(alloc, split)
    } else if is_type(msg_type, b'H') {
        read_status(alloc, split)
    } else {
        Err(Fault::NotSupported)
    }
}

/// Appends the content of a message whose values can be read: the fields after the header, in the
/// order of the request table, each in its canonical spelling, and without PossResend(97).
///
/// # Errors
///
/// `AllocError` for want of memory; then `out` is unchanged.
pub fn write42(msg: &Msg42, out: &mut Vec<u8>) -> Result<(), AllocError>
    requires { IsReadable42 msg.now }
    ensures ok { OnOk result (out.new.items ≡ out.old.items ++ body_of (content42 msg.now)) }
    ensures err { OnErr result (out.new.items ≡ out.old.items) }
{
    match msg {
        Msg42::New(order) => put_content(out, &new_parts(order)),
        Msg42::Cancel(request) => put_content(out, &cancel_parts(request)),
        Msg42::Replace(request) => put_content(out, &replace_parts(request)),
        Msg42::Status(request) => put_content(out, &status_parts(request)),
    }
}
