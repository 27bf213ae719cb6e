//! Laws of frames and of the pieces of a stream, over the definitions alone. Each law is a
//! contract: its function does nothing.
ghost use Rattle.std.specs.Prelude.{◌≡◌, ◌++◌, List, ℕ};
ghost use Rattle.std.specs.List.{flat_map};
ghost use Rattle.frame_grammar.specs.declared.frame.Kind.{Kind};
ghost use Rattle.frame_grammar.specs.Cause.{IsAwaited};
ghost use Rattle.frame_grammar.specs.Cut.{Piece, ComeFirst, Cut, bytes_of};
ghost use Rattle.frame_grammar.specs.Found.{Short, found};
ghost use Rattle.frame_grammar.specs.Laws.{FindsFramesAlone, FindsEachFrame, BeginsNoOther};
ghost use Rattle.frame_grammar.specs.Laws.{NamesFirstBroken};

/// The pieces of a stream do not depend on how it came.
pub fn pieces_stay()
    // What comes later only adds pieces to those that have come.
    ensures join { (kind : Kind) (s t : List ℕ) (ps qs : List Piece) (rest end : List ℕ) →
        Cut kind s ps rest → Cut kind (rest ++ t) qs end → Cut kind (s ++ t) (ps ++ qs) end }
    // A stream has pieces, and one list of them.
    ensures some { (kind : Kind) (s : List ℕ) → (ps : List Piece) × (rest : List ℕ)
        × Cut kind s ps rest }
    ensures one { (kind : Kind) (s : List ℕ) (ps qs : List Piece) (rest end : List ℕ) →
        Cut kind s ps rest → Cut kind s qs end → (ps ≡ qs) × (rest ≡ end) }
    // The pieces and what is left are the stream.
    ensures joined { (kind : Kind) (s : List ℕ) (ps : List Piece) (left : List ℕ) →
        ComeFirst kind s ps left → s ≡ flat_map bytes_of ps ++ left }
{}

/// A frame is found at the front of a text, whatever follows it, and nothing else is.
pub fn frames_are_found()
    ensures only { FindsFramesAlone }
    ensures each { FindsEachFrame }
    // So one frame at most begins a text: no frame begins another.
    ensures first { BeginsNoOther }
{}

/// What is broken has a shortest front that no frame goes on from, and the cause is the first rule
/// that the last byte of that front breaks.
pub fn the_first_broken_rule_is_named()
    ensures { NamesFirstBroken }
{}

/// Less than a frame is a front of one. Or it ends in the digits of BodyLength, which are judged
/// once SOH has ended them.
pub fn less_than_a_frame_is_awaited()
    ensures { (kind : Kind) (text : List ℕ) → found kind text ≡ Short → IsAwaited kind text }
{}
