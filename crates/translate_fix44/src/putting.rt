//! The content of a request of FIX 4.4 in FIX 5.0 SP2, and that of a report of FIX 5.0 SP2 in FIX
//! 4.4, straight from the fields of a body.

ghost use Rattle.std.specs.Prelude.{◌≡◌, IfErr, None, OnErr, OnOk};
ghost use Rattle.std.specs.Option.{option_map};
ghost use Rattle.rule_rows.specs.ByRules.{lack_if};
ghost use Rattle.translation.specs.Going.{Appends};
ghost use Rattle.translate_fix44.specs.CodeRules.{has_role, lacks_role_in};
ghost use Rattle.translate_fix44.specs.Put.{IsRead, IsReport, Lacks, message};
ghost use Rattle.translate_fix44.specs.Rules.{up_lack};
ghost use Rattle.translate_fix44.specs.Translation.{down_by, up};

use crate::rules::{reject_rules, report_rules, request_rules};
use crate::writing::{Besides, Source};
use field_groups::{Fields, is_type};
use order_meaning::{Lack, Lines, PartyLine};
use reports_fix50::{cancel_reject, execution_report};
use row_values::read_lines;
use rule_rows::{first_lack, put_rules};
use std::alloc::Global;
use translation::msg_type;

/// Whether a party of a role has its place in a message.
fn has_role(terms: bool, role: u32) -> bool
    ensures { result ≡ has_role terms role }
{
    role == 3 || (role == 1 || (terms && role == 4))
}

/// Whether a line is of a party whose role has none.
fn lacks_role(terms: bool, lines: &[PartyLine]) -> bool
    ensures { result ≡ lacks_role_in terms lines.now }
{
    lines.iter().any(|line| !has_role(terms, line.role))
}

/// PartyRole(452), where a line is of a party whose role has no place.
fn lack_of_roles(source: &Source<'_, '_, '_>) -> Option<u32>
    ensures { result
        ≡ lack_if (lacks_role_in source.now.besides.has_terms source.now.besides.parties) 452 }
{
    if lacks_role(source.besides.has_terms, source.besides.parties.as_slice()) {
        Some(452)
    } else {
        None
    }
}

/// The tag of what FIX 5.0 SP2 cannot say of a request: OrdType(40), TimeInForce(59),
/// OrderCapacity(528), and last PartyRole(452). It takes no memory.
pub(crate) fn lack_up(source: &Source<'_, '_, '_>) -> Option<u32>
    requires { IsRead source.now }
    ensures { result ≡ up_lack (message source.now) }
{
    match first_lack(source, request_rules().lacking) {
        None => lack_of_roles(source),
        Some(tag) => Some(tag),
    }
}

/// Appends the content of FIX 5.0 SP2 of a request.
///
/// # Errors
///
/// `Tag` exactly where FIX 5.0 SP2 cannot say what the field of this tag says, as [`lack_up`] has
/// it; `NoMemory` for want of memory. What stood in `out` stays, and a part may stand behind it.
pub(crate) fn put_up(source: &Source<'_, '_, '_>, out: &mut Vec<u8>) -> Result<(), Lack>
    requires { IsRead source.now }
    ensures ok { OnOk result
        (Appends up source.now.fields.now None out.old.items out.new.items) }
    ensures lack { IfErr result (Lacks up source.now.fields.now) }
{
    put_rules(source, request_rules().all, out)?;
    match lack_of_roles(source) {
        None => Ok(()),
        Some(tag) => Err(Lack::Tag(tag)),
    }
}

/// Appends the content of FIX 4.4 of a report of FIX 5.0 SP2, 8 or 9, whose fields are at no fault.
///
/// # Errors
///
/// `Tag(150)` exactly where the ExecType(150) of an execution report (8) has no counterpart;
/// `Tag(41)` exactly where a cancel reject says no OrigClOrdID(41) and none is known; `NoMemory` for
/// want of memory. Then `out` is unchanged.
pub(crate) fn put_down(
    alloc: Global,
    fields: &Fields<'_>,
    known: Option<&[u8]>,
    out: &mut Vec<u8>,
) -> Result<(), Lack>
    requires { IsReport fields.now }
    ensures ok { OnOk result (Appends (down_by (option_map (λ id. id.now) known.entry))
        fields.now None out.old.items out.new.items) }
    ensures lack { IfErr result
        (Lacks (down_by (option_map (λ id. id.now) known.entry)) fields.now) }
    ensures err { OnErr result (out.new.items ≡ out.old.items) }
{
    if is_type(msg_type(fields), b'8') {
        let parties = read_lines(alloc, fields)?;
        let source = Source {
            fields,
            table: execution_report(),
            besides: Besides {
                parties,
                has_terms: true,
                known,
            },
        };
        put_rules(&source, report_rules(), out)
    } else {
        let source = Source {
            fields,
            table: cancel_reject(),
            besides: Besides {
                parties: Lines::new(alloc),
                has_terms: false,
                known,
            },
        };
        put_rules(&source, reject_rules(), out)
    }
}
