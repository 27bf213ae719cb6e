//! What holds of refusals, whatever they say. Each law is the contract of a function that does
//! nothing.

ghost use Rattle.std.specs.Prelude.{◌≡◌, ℕ, Bool, List, ◌<◌, ◌^◌, Some};
ghost use Rattle.order_meaning.specs.declared.Side.{Side};
ghost use Rattle.order_meaning.specs.declared.fault.Fault.{Fault};
ghost use Rattle.order_meaning.specs.declared.refusal.Refusal.{Refusal};
ghost use Rattle.session_core.specs.declared.said.Said.{Said};
ghost use Rattle.reject_rules.specs.Laws.{IsShort, HasWords, IsBounded, HasNoSoh, HasTexts, IsOf};
ghost use Rattle.reject_rules.specs.Refusals.{refusal_of, used_refusal, away_refusal};
ghost use Rattle.reject_rules.specs.Renumbered.{renumbered};

/// What is said has one letter and at most 1,024 bytes, however long the type and the text are to
/// which it answers.
pub fn refusals_are_short()
    ensures fault { (side : Side) (number : ℕ) (msg_type : List ℕ) (fault : Fault) (said : Said) →
        number < 2 ^ 32 → HasWords fault →
        refusal_of side number msg_type fault ≡ Some said → IsShort said }
    ensures used { (number : ℕ) (msg_type : List ℕ) →
        number < 2 ^ 32 → IsShort (used_refusal number msg_type) }
    ensures away { (number : ℕ) (msg_type : List ℕ) →
        number < 2 ^ 32 → IsShort (away_refusal number msg_type) }
    ensures told { (side : Side) (business : Bool) (r : Refusal) (far : ℕ) (far_type : List ℕ) →
        far < 2 ^ 32 → IsBounded r → IsShort (renumbered side business r far far_type) }
{}

/// What is said is fields as they are written, each of a tag of a refusal and with a value that
/// ends at its SOH; the first is RefSeqNum(45) with the number of the refused message. So it is
/// read again as what it says, where the type and the texts that it repeats hold no SOH.
pub fn refusals_name_their_message()
    ensures fault { (side : Side) (number : ℕ) (msg_type : List ℕ) (fault : Fault) (said : Said) →
        number < 2 ^ 32 → HasWords fault → HasNoSoh msg_type →
        refusal_of side number msg_type fault ≡ Some said → IsOf number said }
    ensures used { (number : ℕ) (msg_type : List ℕ) →
        number < 2 ^ 32 → HasNoSoh msg_type → IsOf number (used_refusal number msg_type) }
    ensures away { (number : ℕ) (msg_type : List ℕ) →
        number < 2 ^ 32 → HasNoSoh msg_type → IsOf number (away_refusal number msg_type) }
    ensures told { (side : Side) (business : Bool) (r : Refusal) (far : ℕ) (far_type : List ℕ) →
        far < 2 ^ 32 → IsBounded r → HasTexts r → HasNoSoh far_type →
        IsOf far (renumbered side business r far far_type) }
{}
