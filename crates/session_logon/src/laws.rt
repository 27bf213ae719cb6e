//! What is written is read as it was meant. Each law is a contract: its function does nothing.

ghost use Rattle.std.specs.Prelude.{ℕ, List, codes};
ghost use Rattle.order_meaning.specs.declared.Side.{Side};
ghost use Rattle.session_core.specs.declared.act.Admin.{Admin};
ghost use Rattle.session_core.specs.Numbers.{IsNextNumber};
ghost use Rattle.session_logon.specs.Content.{type_of, fields_of, gap_fill_fields};
ghost use Rattle.session_logon.specs.Laws.{IsReadAs, IsSayable, meant};

use session_core::What;

/// Each message of a session, written to a side with any header, is read there as what the session
/// meant: its number, whether it is sent again, and its kind, with no fault in names or time.
pub fn what_is_said_is_read()
    ensures { (side : Side) (a : Admin) (heart next_out number : ℕ) (msg_type echo : List ℕ)
        → IsSayable a heart next_out → IsReadAs side (type_of a)
        (fields_of side a heart next_out number msg_type echo) (meant side a heart) }
{}

/// A SequenceReset in gap fill mode is read as one.
pub fn gap_fill_is_read()
    ensures { (side : Side) (to : ℕ) → IsNextNumber to
        → IsReadAs side (codes "4") (gap_fill_fields to) (What.GapFill to) }
{}
