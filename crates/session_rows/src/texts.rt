//! Sides and bodies.

ghost use Rattle.std.specs.Prelude.{◌≡◌, true};
ghost use Rattle.frame_grammar.specs.Frame.{IsBody};

use frame_grammar::MAX_BODY;
use order_meaning::Side::{self, Client, Venue};

/// The letter of a side.
pub(crate) fn letter(side: Side) -> &'static str {
    match side {
        Client => "C",
        Venue => "V",
    }
}

/// Whether a body may stand in a frame.
pub(crate) fn is_body(body: &[u8]) -> bool
    ensures { result ≡ true → IsBody body.now }
{
    body.len() >= 5
        && body.len() <= MAX_BODY
        && body.starts_with(b"35=")
        && body[3] != 1
        && body[body.len() - 1] == 1
}
