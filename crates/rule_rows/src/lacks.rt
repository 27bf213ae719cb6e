//! What rules cannot say of a message, asked before anything is written.

ghost use Rattle.std.specs.Prelude.{◌≡◌};
ghost use Rattle.message_tables.specs.Tables.{first_of};
ghost use Rattle.rule_rows.specs.CodeRules.{lacked};

use crate::rules::{Lacking, Rule};
use crate::source::Source;

/// The tag that a rule cannot say, if any: what is carried can be said.
#[inline(always)]
fn lack_of<B, O: Lacking<B>>(source: &Source<'_, '_, B>, rule: &Rule<O>) -> Option<u32>
    ensures { result ≡ lacked O.lacks source.now rule.now }
{
    match rule {
        Rule::By(own) => own.lack(source),
        _ => None,
    }
}

/// The tag of the first rule that cannot say its line, if any. It takes no memory.
pub fn first_lack<B, O: Lacking<B>>(source: &Source<'_, '_, B>, rules: &[Rule<O>]) -> Option<u32>
    ensures { result ≡ first_of (lacked O.lacks source.now) rules.now }
{
    for rule in rules {
        if let Some(tag) = lack_of(source, rule) {
            return Some(tag);
        }
    }
    None
}
