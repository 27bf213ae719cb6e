//! What holds of parties that are translated there and back. The law is a contract of a function
//! that does nothing.

ghost use Rattle.std.specs.Prelude.{◌≡◌};
ghost use Rattle.order_meaning.specs.declared.party.Three.{Three};
ghost use Rattle.party_translate.specs.Parties.{parties_of, three_of};

/// The three parties of the lines that were made of three parties are these parties.
pub fn there_and_back()
    ensures { (three : Three) → three_of (parties_of three) ≡ three }
{}
