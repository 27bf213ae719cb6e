//! The rules of a direction, as the code has them.

ghost use Rattle.std.specs.Prelude.{◌≡◌, ◌++◌, ℕ, List, IfErr, None, OnOk};
ghost use Rattle.std.specs.declared.option.Option.{Option};
ghost use Rattle.std.specs.Io.{StartsWith};
ghost use Rattle.field_groups.specs.Field.{Field, body_of};
ghost use Rattle.rule_rows.specs.CodeRules.{IsLackOf};
ghost use Rattle.rule_rows.specs.declared.source.Source.{Source as Read};

use crate::source::Source;
use order_meaning::Lack;
use row_values::Kind;

/// How the target says one line of its table, where `O` are the kinds of the direction's own.
#[derive(Clone, Copy, Debug)]
pub enum Rule<O> {
    /// The field of a tag, as it stands.
    Same(u32),
    /// The field of the first tag, a decimal number, at the second.
    Decimal(u32, u32),
    /// The field of a tag, a moment that is cut.
    Moment(u32),
    /// The field of the first tag at the second, where its value is of the profile of a kind.
    Kept(u32, u32, Kind),
    /// The lines of the group of a count.
    Lines(u32),
    /// What a kind of its own says.
    By(O),
}

/// A kind of rule of a direction's own, which reads `B` beside the fields of a message.
pub trait OwnRule<B> {
    /// What the rule writes of what it reads.
    ghost writes: { Read B → Self → List Field };

    /// The tag that it cannot say, if any.
    ghost lacks: { Read B → Self → Option ℕ };

    /// Appends what the rule says, unless it cannot.
    ///
    /// # Errors
    ///
    /// `Lack::Tag` for the tag that it cannot say, exactly where there is one; `Lack::NoMemory` for
    /// want of memory. What stood in `out` stays, and a part may stand behind it.
    fn put(&self, source: &Source<'_, '_, B>, out: &mut Vec<u8>) -> Result<(), Lack>
        ensures done { OnOk result (out.new.items
            ≡ out.old.items ++ body_of (writes source.now self.now)) }
        ensures said { OnOk result (lacks source.now self.now ≡ None) }
        ensures lack { IfErr result (IsLackOf (lacks source.now self.now)) }
        ensures kept { StartsWith out.new.items out.old.items };
}

/// A kind of rule of a direction's own that tells what it cannot say, and writes nothing.
pub trait Lacking<B> {
    /// The tag that it cannot say, if any.
    ghost lacks: { Read B → Self → Option ℕ };

    /// The tag that it cannot say, if any. It takes no memory.
    fn lack(&self, source: &Source<'_, '_, B>) -> Option<u32>
        ensures { result ≡ lacks source.now self.now };
}
