//! What the rules read of a report of FIX 5.0 SP2.

ghost use Rattle.std.specs.Prelude.{◌≡◌, ◌==◌, unwrap_or};
ghost use Rattle.std.specs.List.{find};
ghost use Rattle.std.specs.Option.{option_map};
ghost use Rattle.rows_fix50.specs.Meaning.{id_of};
ghost use Rattle.message_tables.specs.Tables.{value_at};
ghost use Rattle.rule_rows.specs.Texts.{decimal_of};
ghost use Rattle.report_rules.specs.CodeRules.{reject_codes, report_codes, zero};
ghost use Rattle.report_rules.specs.Rules.{is_fill};

use crate::mapping::is_fill;
use field_groups::Fields;
use message_tables::Lookup;
use order_meaning::{Lines, PartyLine};
use row_values::Kind;
use rule_rows::{code_of, decimal_of, kept};
use typed_fields::Dec;
use value_kinds::ValueKind;

/// OrdType(40) of the profile.
pub(crate) const TYPES: Kind = Kind::Value(ValueKind::Code(b"1234"));

/// TimeInForce(59), which may be at the close beside some types alone.
pub(crate) const TIMES: Kind = Kind::TimeBeside(40);

/// The codes by which several rules go.
#[derive(Clone, Copy, Debug)]
pub(crate) struct Codes {
    /// ExecType(150).
    pub(crate) exec_type: Option<u8>,
    /// OrdStatus(39).
    pub(crate) ord_status: Option<u8>,
    /// Whether a trade fills its order.
    pub(crate) fills: bool,
    /// OrdType(40).
    pub(crate) ord_type: Option<u8>,
    /// TimeInForce(59).
    pub(crate) time: Option<u8>,
}

/// Whether a trade fills its order, by OrdStatus(39) and, where that does not tell, LeavesQty(151).
fn fills(fields: &Fields<'_>, status: u8) -> bool
    ensures { result ≡ is_fill status
        (unwrap_or (decimal_of (value_at 151 fields.now)) zero).units }
{
    if status == b'6' || status == b'E' {
        is_fill(
            status,
            decimal_of(fields.value(151)).unwrap_or(Dec { units: 0 }),
        )
    } else {
        status == b'2'
    }
}

/// Reads the codes of an execution report.
pub(crate) fn report_codes(fields: &Fields<'_>) -> Codes
    ensures { result ≡ report_codes fields.now }
{
    let ord_status = code_of(fields.value(39));
    Codes {
        exec_type: code_of(fields.value(150)),
        ord_status,
        fills: fills(fields, ord_status.unwrap_or(0)),
        ord_type: code_of(kept(fields, 40, &TYPES)),
        time: code_of(kept(fields, 59, &TIMES)),
    }
}

/// Reads the codes of a cancel reject.
pub(crate) fn reject_codes(fields: &Fields<'_>) -> Codes
    ensures { result ≡ reject_codes fields.now }
{
    let ord_status = code_of(fields.value(39));
    Codes {
        exec_type: None,
        ord_status,
        fills: is_fill(ord_status.unwrap_or(0), Dec { units: 0 }),
        ord_type: None,
        time: None,
    }
}

/// The first line of a role.
fn line_of(lines: &[PartyLine], role: u32) -> Option<&PartyLine>
    ensures { option_map (λ line. line.now) result ≡ find (λ line. line.role == role) lines.now }
{
    lines.iter().find(|line| line.role == role)
}

/// The id of the first line of a role.
pub fn party(lines: &Lines, role: u32) -> Option<&[u8]>
    ensures { option_map (λ id. id.now) result ≡ id_of role lines.now }
{
    match line_of(lines.as_slice(), role) {
        None => None,
        Some(line) => Some(line.id.as_slice()),
    }
}

/// What the rules read beside the fields.
#[derive(Drop)]
pub(crate) struct Besides<'k> {
    /// The codes by which several rules go.
    pub(crate) codes: Codes,
    /// The parties of an execution report.
    pub(crate) parties: Lines,
    /// The original id of its order, where it is known besides.
    pub(crate) known: Option<&'k [u8]>,
}

/// What the rules read of a report.
pub(crate) type Source<'f, 'k, 'a> = rule_rows::Source<'f, 'a, Besides<'k>>;
