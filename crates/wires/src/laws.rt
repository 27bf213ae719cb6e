//! Laws of records, over the definitions alone. Each law is a contract: its function does nothing.

ghost use Rattle.std.specs.Prelude.{◌≡◌, ◌++◌, ◌∷◌, [], List, false, true};
ghost use Rattle.std.specs.List.{flat_map};
ghost use Rattle.wires.specs.Wire.{WireCall, is_within, transcript};
ghost use Rattle.wires.specs.Laws.{AreInPlace, has_place, read_by, written_by};

/// What a wire adds to its record has its place there: a poll gives what may come, and a send and
/// a hang up stand within a connection.
pub fn records_stay_in_place()
    ensures { (calls : List WireCall) (call : WireCall) → AreInPlace false calls
        → has_place (is_within calls) call ≡ true → AreInPlace false (calls ++ call ∷ []) }
{}

/// The connections of a record have each byte that its calls read and wrote, once and in order.
pub fn transcripts_keep_each_byte()
    ensures read { (calls : List WireCall) → AreInPlace false calls
        → flat_map (λ c. c.read) (transcript calls) ≡ flat_map read_by calls }
    ensures written { (calls : List WireCall) → AreInPlace false calls
        → flat_map (λ c. c.written) (transcript calls) ≡ flat_map written_by calls }
{}
