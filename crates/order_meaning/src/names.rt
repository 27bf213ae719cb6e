//! CompIDs: who speaks on the two sessions of the gateway.

ghost use Rattle.std.specs.Prelude.{◌≡◌, ◌≤◌, ◌↔◌, length, IsSome, IfSome};

use std::marker::Model;

/// The most bytes of a name.
pub const MAX_NAME: usize = 35;

/// A CompID, SenderCompID(49) or TargetCompID(56): 1 to 35 bytes, seen as their list.
#[derive(Clone, Copy, Debug, PartialEq, Eq)]
pub struct Name {
    len: u8,
    bytes: [u8; MAX_NAME],
}

impl Model for Name {
    ghost use Rattle.std.specs.Prelude.{ℕ, List, length};
    ghost use Rattle.order_meaning.specs.Names.{text_of, padded, IsPadded};

    ghost Value = { List ℕ };

    ghost view = { λ n. text_of n.len n.bytes };

    ghost invariant = { λ n. IsPadded n.len n.bytes };

    ghost inverse = { λ text. record { len = length text; bytes = padded text } };

    ghost inverse_ok = { λ n h i. record { len = h.counted i; bytes = h.filled i } };
}

impl Name {
    /// A name of this text; none exactly where the text has no byte or more than 35.
    pub fn new(text: &[u8]) -> Option<Name>
        ensures some { IsSome result ↔ (1 ≤ length text.now) × (length text.now ≤ MAX_NAME) }
        ensures value { IfSome result (λ name. name ≡ text.now) }
    {
        if text.is_empty() || text.len() > MAX_NAME {
            return None;
        }
        let mut bytes = [0; MAX_NAME];
        bytes[..text.len()].copy_from_slice(text);
        Some(Name {
            len: text.len() as u8,
            bytes,
        })
    }

    /// The bytes of the name.
    pub fn as_slice(&self) -> &[u8]
        ensures text { result.now ≡ self.now }
        ensures some { 1 ≤ length self.now }
        ensures short { length self.now ≤ MAX_NAME }
    {
        &self.bytes[..self.len as usize]
    }
}

/// The names of both sessions: the gateway's own and its peer's on each.
#[derive(Clone, Copy, Debug, PartialEq, Eq)]
pub struct Names {
    /// The gateway towards the client.
    pub client_our: Name,
    /// The client.
    pub client_peer: Name,
    /// The gateway towards the venue.
    pub venue_our: Name,
    /// The venue.
    pub venue_peer: Name,
}
