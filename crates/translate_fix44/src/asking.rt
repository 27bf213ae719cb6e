//! What the rules read of a request of FIX 4.4.

ghost use Rattle.std.specs.Prelude.{◌≡◌, IfErr, IfOk, None, codes};
ghost use Rattle.message_tables.specs.CodeTables.{table_of as code_table};
ghost use Rattle.message_tables.specs.Tables.{is_one_of};
ghost use Rattle.row_values.specs.CodeKinds.{kind_of};
ghost use Rattle.translation.specs.Errors.{error_of_fault};
ghost use Rattle.translation.specs.Going.{StayBack};
ghost use Rattle.translate_fix44.specs.Put.{IsAsked, IsRead};
ghost use Rattle.translate_fix44.specs.Translation.{up};

use crate::writing::{Besides, Source};
use dict_fix44::RequestTables;
use field_groups::{Fields, Split};
use first_faults::good_fields_by;
use message_tables::Table;
use order_meaning::Fault;
use row_values::{Kind, read_lines};
use std::alloc::{AllocError, Global};
use translation::msg_type;

/// Whether a request of this type has the terms of an order.
fn has_terms(letter: u8) -> bool
    ensures { result ≡ is_one_of (codes "DG") letter }
{
    letter == b'D' || letter == b'G'
}

/// What the rules read of fields that are at no fault beside the table of their type.
fn read<'f, 'a>(
    alloc: Global,
    table: &'static Table<Kind>,
    fields: &'f Fields<'a>,
) -> Result<Source<'f, 'static, 'a>, AllocError>
    requires { IsAsked (code_table kind_of table.now) fields.now }
    ensures read { IfOk result IsRead }
    ensures same { IfOk result (λ source. source.fields.now ≡ fields.now) }
{
    let parties = read_lines(alloc, fields)?;
    let has_terms = has_terms(table.letter);
    Ok(Source {
        fields,
        table,
        besides: Besides {
            parties,
            has_terms,
            known: None,
        },
    })
}

/// What the rules read of the fields of a body, where these are a request, whole and at no fault.
///
/// # Errors
///
/// `NotSupported` for a type that is none of D, F, G and H; `Session` and `NoCounterpart` for the
/// first fault; `NoMemory` for want of memory.
#[tactic(auto, using(crate::proofs::Put::of_request))]
pub(crate) fn good_request<'s, 'a>(
    alloc: Global,
    tables: &RequestTables,
    split: &'s Split<'a>,
) -> Result<Source<'s, 'static, 'a>, Fault>
    ensures read { IfOk result IsRead }
    ensures same { IfOk result (λ source.
        (source.fields.now ≡ split.now.fields) × (split.now.fault ≡ None)) }
    ensures fault { IfErr result (λ fault.
        StayBack up split.now.fields split.now.fault (error_of_fault fault)) }
{
    match tables.get(msg_type(&split.fields)) {
        None => Err(Fault::NotSupported),
        Some(table) => match good_fields_by(table, split) {
            Err(fault) => Err(fault),
            Ok(fields) => Ok(read(alloc, table.table(), fields)?),
        },
    }
}
