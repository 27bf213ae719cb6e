//! Writing refusals: each row is a line of an array of parts.

ghost use Rattle.std.specs.Prelude.{◌≡◌, IfSome};
ghost use Rattle.std.specs.List.{AllByRecursion, flat_map};
ghost use Rattle.std.specs.Option.{option_map};
ghost use Rattle.std.specs.Fmt.{decimal};
ghost use Rattle.typed_fields.specs.Number.{IsNumber, number_text};
ghost use Rattle.row_values.specs.Writing.{IsPart, part_fields};
ghost use Rattle.refusal_parts.specs.Readable.{IsReadableRefusal, IsWhole};
ghost use Rattle.refusal_parts.specs.Said.{business_reject_fields, session_reject_fields};

use order_meaning::Refusal;
use row_values::{Part, Value};
use typed_fields::Number;

/// A number as a value.
fn numbered(value: Option<u32>) -> Option<Number>
    requires { IfSome value IsWhole }
    ensures text { option_map number_text result ≡ option_map decimal value }
    ensures bound { IfSome result IsNumber }
{
    match value {
        Some(value) => Some(Number { value }),
        None => None,
    }
}

/// The parts of Reject (3).
pub fn session_reject_parts(m: &Refusal) -> [Part<'_>; 5]
    requires { IsReadableRefusal m.now }
    ensures parts { AllByRecursion IsPart result }
    ensures content { flat_map part_fields result ≡ session_reject_fields m.now }
{
    [
        Part::Row(45, Value::NumberIf(numbered(m.number))),
        Part::Row(371, Value::NumberIf(numbered(m.tag))),
        Part::Row(372, Value::TextIf(&m.msg_type)),
        Part::Row(373, Value::NumberIf(numbered(m.reason))),
        Part::Row(58, Value::TextIf(&m.text)),
    ]
}

/// The parts of Business Message Reject (j).
pub fn business_reject_parts(m: &Refusal) -> [Part<'_>; 5]
    requires { IsReadableRefusal m.now }
    ensures parts { AllByRecursion IsPart result }
    ensures content { flat_map part_fields result ≡ business_reject_fields m.now }
{
    [
        Part::Row(45, Value::NumberIf(numbered(m.number))),
        Part::Row(372, Value::TextIf(&m.msg_type)),
        Part::Row(379, Value::TextIf(&m.id)),
        Part::Row(380, Value::NumberIf(numbered(m.reason))),
        Part::Row(58, Value::TextIf(&m.text)),
    ]
}
