//! Writing the content of a message rule by rule.

ghost use Rattle.std.specs.Prelude.{◌≡◌, ◌++◌, IfErr, IsTrue, None, OnErr, OnOk};
ghost use Rattle.std.specs.Io.{StartsWith};
ghost use Rattle.std.specs.List.{flat_map};
ghost use Rattle.field_groups.specs.Field.{body_of};
ghost use Rattle.message_tables.specs.Tables.{first_of};
ghost use Rattle.rule_rows.specs.Rows.{have_written_lines};
ghost use Rattle.rule_rows.specs.CodeRules.{IsLackOf, lacked, table_of, writes};

use crate::group_lines::{put_lines, put_text};
use crate::rules::{OwnRule, Rule};
use crate::source::Source;
use crate::texts::{put_decimal, put_kept, put_moment};
use message_tables::Lookup;
use order_meaning::Lack;

/// Appends what a rule says, if it says anything, unless it cannot.
fn put_rule<B, O: OwnRule<B>>(
    source: &Source<'_, '_, B>,
    rule: &Rule<O>,
    out: &mut Vec<u8>,
) -> Result<(), Lack>
    requires { IsTrue (have_written_lines (table_of source.now).items) }
    ensures done { OnOk result (out.new.items
        ≡ out.old.items ++ body_of (writes O.writes source.now rule.now)) }
    ensures said { OnOk result (lacked O.lacks source.now rule.now ≡ None) }
    ensures lack { IfErr result (IsLackOf (lacked O.lacks source.now rule.now)) }
    ensures kept { StartsWith out.new.items out.old.items }
{
    let fields = source.fields;
    match rule {
        Rule::Same(tag) => Ok(put_text(out, *tag, fields.value(*tag))?),
        Rule::Decimal(from, to) => Ok(put_decimal(out, *to, fields.value(*from))?),
        Rule::Moment(tag) => Ok(put_moment(out, *tag, fields.value(*tag))?),
        Rule::Kept(from, to, kind) => Ok(put_kept(out, *to, fields, *from, kind)?),
        Rule::Lines(count) => Ok(put_lines(out, fields, source.table, *count)?),
        Rule::By(own) => own.put(source, out),
    }
}

/// Appends what rules say, up to the first that cannot.
#[tactic(auto, using(row_values::proofs::Contents::still_kept))]
fn put_all<B, O: OwnRule<B>>(
    source: &Source<'_, '_, B>,
    rules: &[Rule<O>],
    out: &mut Vec<u8>,
) -> Result<(), Lack>
    requires { IsTrue (have_written_lines (table_of source.now).items) }
    ensures done { OnOk result (out.new.items
        ≡ out.old.items ++ body_of (flat_map (writes O.writes source.now) rules.now)) }
    ensures said { OnOk result (first_of (lacked O.lacks source.now) rules.now ≡ None) }
    ensures lack { IfErr result (IsLackOf (first_of (lacked O.lacks source.now) rules.now)) }
    ensures kept { StartsWith out.new.items out.old.items }
{
    let mut rest = rules;
    while let [rule, more @ ..] = rest {
        put_rule(source, rule, out)?;
        rest = more;
    }
    Ok(())
}

/// Appends what rules say of a message, all or nothing.
///
/// # Errors
///
/// `Lack::Tag` for the tag of the first rule that cannot say its line, exactly where there is one;
/// `Lack::NoMemory` for want of memory. Then `out` is unchanged.
// A call: where it stands in line, its loop has too few registers.
#[inline(never)]
pub fn put_rules<B, O: OwnRule<B>>(
    source: &Source<'_, '_, B>,
    rules: &[Rule<O>],
    out: &mut Vec<u8>,
) -> Result<(), Lack>
    requires { IsTrue (have_written_lines (table_of source.now).items) }
    ensures done { OnOk result (out.new.items
        ≡ out.old.items ++ body_of (flat_map (writes O.writes source.now) rules.now)) }
    ensures said { OnOk result (first_of (lacked O.lacks source.now) rules.now ≡ None) }
    ensures lack { IfErr result (IsLackOf (first_of (lacked O.lacks source.now) rules.now)) }
    ensures err { OnErr result (out.new.items ≡ out.old.items) }
{
    let start = out.len();
    match put_all(source, rules, out) {
        Ok(()) => Ok(()),
        Err(lack) => {
            out.truncate(start);
            Err(lack)
        }
    }
}
