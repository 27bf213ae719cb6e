//! A law of pieces, over the definitions alone: its contract is the law, and its function does
//! nothing.

ghost use Rattle.std.specs.Prelude.{◌≡◌, List, map};
ghost use Rattle.std.specs.List.{concat};
ghost use Rattle.wires.specs.Wire.{WireCall, transcript};
ghost use Rattle.replay_lines.specs.Pieces.{pieces_of};

/// The pieces of each connection of a record, joined, are what its transcript has as written there.
pub fn pieces_join()
    ensures { (calls : List WireCall) →
        map concat (pieces_of calls) ≡ map (λ c. c.written) (transcript calls) }
{}
