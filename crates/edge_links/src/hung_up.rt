//! A connection that the gateway has ended, until the peer has what was said on it.

ghost use Rattle.std.specs.Prelude.{◌≡◌, nat_le, true, false};
ghost use Rattle.edge_logic.specs.BackOff.{later};

use crate::link::Link;

/// How long a connection that was ended is kept at most, in milliseconds.
const FAREWELL: u64 = 2_000;

/// A connection behind a hang up. What was said before goes out still, then the gateway's side is
/// shut, and what the peer says is read off until it ends its own: a socket that is closed over
/// bytes that were not read resets, and the peer may lose what it has not read itself.
#[derive(Drop)]
pub(crate) struct HungUp {
    link: Link,
    until: u64,
    is_shut: bool,
}

impl HungUp {
    /// A connection that ends now, in milliseconds of the clock that never goes back.
    pub(crate) fn new(link: Link, now: u64) -> HungUp
        ensures until { result.until ≡ later now FAREWELL }
        ensures open { result.is_shut ≡ false }
    {
        HungUp {
            link,
            until: now.saturating_add(FAREWELL),
            is_shut: false,
        }
    }

    /// Goes on with what is to be written and read off, and answers whether the connection is over,
    /// as it is once its time has passed.
    pub(crate) fn go_on(&mut self, now: u64) -> bool
        ensures until { self.new.until ≡ self.old.until }
        ensures over { nat_le self.old.until now ≡ true → result ≡ true }
    {
        if now >= self.until {
            return true;
        }
        if !self.is_shut {
            match self.link.flush(now) {
                Ok(true) => {
                    self.link.shut();
                    self.is_shut = true;
                }
                Ok(false) => {}
                Err(_) => return true,
            }
        }
        self.link.drain()
    }
}
