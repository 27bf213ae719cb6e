//! Appending the content of FIX 4.2 of a report of FIX 5.0 SP2, straight from the fields of its
//! body.

ghost use Rattle.std.specs.Prelude.{◌≡◌, IfErr, OnErr, OnOk};
ghost use Rattle.std.specs.Option.{option_map};
ghost use Rattle.reports_fix50.specs.Message.{report_table_of};
ghost use Rattle.report_rules.specs.Down.{IsGoodBy, LacksDown, PutsDown};

use crate::rules::{reject_rules, report_rules};
use crate::source::{Besides, Source, reject_codes, report_codes};
use field_groups::{Fields, is_type};
use order_meaning::{Lack, Lines};
use reports_fix50::{cancel_reject, execution_report};
use row_values::read_lines;
use rule_rows::put_rules;
use std::alloc::Global;

/// Appends the content of FIX 4.2 of a report of FIX 5.0 SP2, 8 or 9, whose fields are at no fault,
/// rule by rule. A cancel reject (9) that does not name its order is of the original id that is
/// known.
///
/// # Errors
///
/// `Lack::Tag(150)` exactly where the ExecType(150) of an execution report (8) has no counterpart;
/// `Lack::Tag(41)` exactly where a cancel reject says no OrigClOrdID(41) and none is known;
/// `Lack::NoMemory` for want of memory. Then `out` is unchanged.
pub fn put_down(
    alloc: Global,
    msg_type: &[u8],
    fields: &Fields<'_>,
    known: Option<&[u8]>,
    out: &mut Vec<u8>,
) -> Result<(), Lack>
    requires { IsGoodBy (report_table_of msg_type.now) fields.now }
    ensures ok { OnOk result (PutsDown msg_type.now (option_map (λ id. id.now) known.entry)
        fields.now out.old.items out.new.items) }
    ensures lack { IfErr result
        (LacksDown msg_type.now (option_map (λ id. id.now) known.entry) fields.now) }
    ensures err { OnErr result (out.new.items ≡ out.old.items) }
{
    if is_type(msg_type, b'8') {
        let parties = read_lines(alloc, fields)?;
        let source = Source {
            fields,
            table: execution_report(),
            besides: Besides {
                codes: report_codes(fields),
                parties,
                known,
            },
        };
        put_rules(&source, report_rules(), out)
    } else {
        let source = Source {
            fields,
            table: cancel_reject(),
            besides: Besides {
                codes: reject_codes(fields),
                parties: Lines::new(alloc),
                known,
            },
        };
        put_rules(&source, reject_rules(), out)
    }
}
