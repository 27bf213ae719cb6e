//! Bytes that come in, and bytes that go out.

ghost use Rattle.std.specs.Prelude.{◌≡◌, ℕ, List, Bool, false};
ghost use Rattle.std.specs.declared.option.Option.{Option};
ghost use Rattle.std.specs.Io.{ReadsAtMost};
ghost use Rattle.std.specs.Io.KnownBytes.{ReadConsumes};
ghost use Rattle.outside.specs.Causes.{HasCause};
ghost use Rattle.outside.specs.Bytes.{PutAppends, TellsEnd};

/// A call on something outside failed. Its count of faults says so too.
#[derive(Clone, Copy, Debug, PartialEq, Eq)]
pub struct Failed;

/// Bytes that come in, once and in order.
pub trait Source {
    /// The bytes that are still to come, where the source tells them.
    ghost left: { Self → Option (List ℕ) };

    /// Whether it has told that its input ended. A source that tells no bytes keeps this too.
    ghost ended: { Self → Bool };

    /// How often a call has failed. It never falls, and stands still at 2^64 - 1.
    ghost faults: { Self → ℕ };

    /// Fills a front of `buf` with the next bytes and answers how many, at most `buf.len()`.
    ///
    /// `Ok(0)` with a `buf` that is not empty is the end of input, and no read may follow it.
    ///
    /// # Errors
    /// [`Failed`] only where the count of faults rose in this call. Then nothing was taken.
    fn read(&mut self, buf: &mut [u8]) -> Result<usize, Failed>
        requires { ended self.old ≡ false }
        ensures bound { ReadsAtMost result buf.new }
        ensures bytes { ReadConsumes (left self.old) (left self.new) result buf.new }
        ensures ended { TellsEnd result buf.new (ended self.new) }
        ensures cause { HasCause (faults self.old) (faults self.new) result };
}

/// A place to which bytes go, in order.
pub trait Sink {
    /// The bytes that were put so far, where the sink tells them.
    ghost bytes: { Self → Option (List ℕ) };

    /// How often a call has failed. It never falls, and stands still at 2^64 - 1.
    ghost faults: { Self → ℕ };

    /// Appends the whole piece.
    ///
    /// # Errors
    /// [`Failed`] only where the count of faults rose in this call. Then a front of the piece was
    /// appended, which may be empty.
    fn put(&mut self, piece: &[u8]) -> Result<(), Failed>
        ensures bytes { PutAppends (bytes self.old) (bytes self.new) result piece.now }
        ensures cause { HasCause (faults self.old) (faults self.new) result };
}
