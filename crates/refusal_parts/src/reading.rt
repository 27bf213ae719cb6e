//! Refusals of fields that are at no fault.

ghost use Rattle.std.specs.Prelude.{◌≡◌, IfOk, IfSome, None};
ghost use Rattle.std.specs.Fmt.{decimal};
ghost use Rattle.std.specs.Option.{option_map};
ghost use Rattle.value_kinds.specs.ValueKind as kinds;
ghost use Rattle.row_values.specs.Kinds.{Value, said};
ghost use Rattle.refusal_parts.specs.Readable.{IsReadableRefusal, IsWhole};
ghost use Rattle.refusal_parts.specs.Reading.{IsBusinessReject, IsSessionReject};

use field_groups::Fields;
use order_meaning::Refusal;
use row_values::{number, owned, text};
use std::alloc::{AllocError, Global};
use value_kinds::ValueKind::{Id, Text};

/// The number that the field of a tag says.
fn number_at(fields: &Fields<'_>, tag: u32) -> Option<u32>
    ensures text { option_map decimal result ≡ said fields.now tag (Value kinds.Number) }
    ensures bound { IfSome result IsWhole }
{
    match number(fields, tag) {
        Some(number) => Some(number.value),
        None => None,
    }
}

/// The refusal of these fields, as a Reject (3).
///
/// # Errors
///
/// `AllocError` for want of memory.
pub fn session_reject(alloc: Global, fields: &Fields<'_>) -> Result<Refusal, AllocError>
    ensures says { IfOk result (IsSessionReject fields.now) }
    ensures readable { IfOk result IsReadableRefusal }
    ensures id { IfOk result (λ m. m.id ≡ None) }
{
    let msg_type = owned(alloc, text(fields, 372, &Id))?;
    let text = owned(alloc, text(fields, 58, &Text))?;
    Ok(Refusal {
        number: number_at(fields, 45),
        msg_type,
        id: None,
        tag: number_at(fields, 371),
        reason: number_at(fields, 373),
        text,
    })
}

/// The refusal of these fields, as a Business Message Reject (j).
///
/// # Errors
///
/// `AllocError` for want of memory.
pub fn business_reject(alloc: Global, fields: &Fields<'_>) -> Result<Refusal, AllocError>
    ensures says { IfOk result (IsBusinessReject fields.now) }
    ensures readable { IfOk result IsReadableRefusal }
    ensures tag { IfOk result (λ m. m.tag ≡ None) }
{
    let msg_type = owned(alloc, text(fields, 372, &Id))?;
    let id = owned(alloc, text(fields, 379, &Id))?;
    let text = owned(alloc, text(fields, 58, &Text))?;
    Ok(Refusal {
        number: number_at(fields, 45),
        msg_type,
        id,
        tag: None,
        reason: number_at(fields, 380),
        text,
    })
}
