//! The content of FIX 5.0 SP2 of a request of FIX 4.2, written straight from the fields of its
//! body.

ghost use Rattle.std.specs.Prelude.{◌≡◌, IfErr, OnErr, OnOk};
ghost use Rattle.request_rules.specs.Good.{IsGood, said};
ghost use Rattle.request_rules.specs.Lack.{lack42};
ghost use Rattle.request_rules.specs.Put.{IsPut, Lacks};

use crate::reading::Good;
use crate::rules::up_rules;
use crate::writing::{Source, first_lack};
use order_meaning::Lack;
use rule_rows::put_rules;

/// Appends the content of FIX 5.0 SP2 of a request, rule by rule.
///
/// # Errors
///
/// `Tag` exactly where FIX 5.0 SP2 cannot say what the field of this tag says, 59 before 47;
/// `NoMemory` for want of memory. Then `out` is unchanged.
pub fn put_up(good: &Good<'_, '_>, out: &mut Vec<u8>) -> Result<(), Lack>
    requires { IsGood good.now }
    ensures ok { OnOk result (IsPut (said good.now) out.old.items out.new.items) }
    ensures lack { IfErr result (Lacks (said good.now)) }
    ensures err { OnErr result (out.new.items ≡ out.old.items) }
{
    let source = Source {
        fields: good.fields,
        table: good.table,
        besides: (),
    };
    put_rules(&source, up_rules(), out)
}

/// The tag of what FIX 5.0 SP2 cannot say of a request: 59 before 47. It takes no memory.
pub fn lack_up(good: &Good<'_, '_>) -> Option<u32>
    requires { IsGood good.now }
    ensures { result ≡ lack42 (said good.now) }
{
    first_lack(good.fields)
}
