//! Whether the venue has answered a Logon on a connection.

ghost use Rattle.std.specs.Prelude.{◌≡◌, ◌≤◌, ◌++◌, ◌↔◌, true, List, ℕ, [], fold};
ghost use Rattle.edge_logic.specs.LogonMark.{found_in, found_next, logon_field, StandsIn};

use std::marker::Model;

/// What every Logon has behind its body length.
const LOGON_FIELD: [u8; 6] = *b"\x0135=A\x01";

/// The longest front of [`LOGON_FIELD`] with which the bytes so far end; all of it once it has come.
#[derive(Debug, Drop)]
pub struct LogonMark {
    found: usize,
}

impl Model for LogonMark {
    ghost use Rattle.std.specs.Prelude.{ℕ, ◌≤◌};

    ghost Value = { ℕ };

    ghost view = { λ mark. mark.found };

    ghost invariant = { λ mark. mark.found ≤ 6 };
}

// How much is found one byte later.
fn found_next(found: usize, byte: u8) -> usize
    requires { found ≤ 6 }
    ensures value { result ≡ found_next found byte }
    ensures part { result ≤ 6 }
{
    if found == LOGON_FIELD.len() {
        found
    } else if byte == LOGON_FIELD[found] {
        found + 1
    } else if byte == LOGON_FIELD[0] {
        1
    } else {
        0
    }
}

// How much is found behind these bytes.
fn found_behind(found: usize, bytes: &[u8]) -> usize
    requires { found ≤ 6 }
    ensures value { result ≡ fold found_next found bytes.now }
    ensures part { result ≤ 6 }
{
    let mut found = found;
    for byte in bytes {
        found = found_next(found, *byte);
    }
    found
}

impl LogonMark {
    /// No byte has come.
    pub fn new() -> LogonMark
        ensures { result ≡ found_in [] }
    {
        LogonMark { found: 0 }
    }

    /// Notes the next bytes.
    #[tactic(auto, using(crate::proofs::Marks::found_behind))]
    pub fn note(&mut self, bytes: &[u8])
        ensures { (before : List ℕ) → self.old ≡ found_in before
            → self.new ≡ found_in (before ++ bytes.now) }
    {
        self.found = found_behind(self.found, bytes);
    }

    /// Whether a Logon has come, in whatever parts the bytes came.
    #[tactic(auto, using(crate::proofs::Marks::found_whole))]
    pub fn has_come(&self) -> bool
        ensures { (all : List ℕ) → self.now ≡ found_in all
            → (result ≡ true) ↔ StandsIn logon_field all }
    {
        self.found == LOGON_FIELD.len()
    }
}
