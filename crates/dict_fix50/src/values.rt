//! What the fields of a request say beside other fields.

ghost use Rattle.std.specs.Prelude.{◌≡◌, codes};
ghost use Rattle.std.specs.Option.{option_map};
ghost use Rattle.value_kinds.specs.ValueKind.{code_text};
ghost use Rattle.row_values.specs.Kinds.{Byte, said};

use field_groups::Fields;
use row_values::code;
use value_kinds::ValueKind::Code;

/// OrderCapacity(528): one byte, which counts where it is listed.
#[tactic(auto, using(crate::proofs::Times::byte_said))]
pub(crate) fn capacity(fields: &Fields<'_>) -> Option<u8>
    ensures { option_map code_text result ≡ said fields.now 528 (Byte (codes "AIP")) }
{
    code(fields, 528, &Code(b"AIP"))
}
