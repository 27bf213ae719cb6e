//! One peer, over connections that come and go.

ghost use Rattle.std.specs.Prelude.{◌≡◌, ◌<◌, ℕ, List, [], ◌∷◌, length, true, IfOk, IfSome};
ghost use Rattle.std.specs.Option.{ForSome};
ghost use Rattle.std.specs.declared.option.Option.{Option};
ghost use Rattle.outside.specs.Causes.{HasCause, next_count};
ghost use Rattle.wires.specs.Told.{GrowsBy, Keeps};
ghost use Rattle.wires.specs.Wire.{WireCall, Came, Poll, is_within, came_of, Fits, may_come};
ghost use Rattle.wires.specs.Wire.{SendGrows, HangUpGrows};

use outside::Failed;

/// The room of a poll, in bytes, for which a wire may tell what its polls will give.
pub const POLL_LEN: usize = 4_096;

/// What a poll of a wire found.
#[derive(Clone, Copy, Debug, PartialEq, Eq)]
pub enum Arrival {
    /// Nothing new.
    Nothing,
    /// A connection, which begins with this.
    Opened,
    /// So many bytes, at least one, which stand at the front of the buffer.
    Bytes(usize),
    /// The peer's end of the connection.
    Closed,
}

/// One peer, over connections that come and go.
///
/// A connection begins with [`Arrival::Opened`] and ends with [`Arrival::Closed`], a hang up, or a
/// poll or send that failed. Between connections a poll gives nothing, or an opening, or fails;
/// within one it gives no opening. A stop at a moment is a wire whose calls all fail from then on.
pub trait Wire {
    /// What was done on it so far, where the wire tells that. One that tells nothing goes on so.
    ghost recorded: { Self → Option (List WireCall) };

    /// How often a call has failed. It never falls, and stands still at 2^64 - 1.
    ghost faults: { Self → ℕ };

    /// How often it was polled, up to 2^64 - 1, where it stands still.
    ghost polls: { Self → ℕ };

    /// The scripts that it plays, where it tells any: its polls so far gave the first items, and
    /// those to come give the others. No call ends that, but for a poll with other room than
    /// [`POLL_LEN`] bytes.
    ghost plays: { Self → List Came → Type 0 };

    /// Looks for what is new, without waiting. Bytes are put at the front of `buf`.
    ///
    /// # Errors
    /// [`Failed`] only where the count of faults rose in this call. It ends the connection.
    fn poll(&mut self, buf: &mut [u8]) -> Result<Arrival, Failed>
        requires room { 0 < length buf.old }
        ensures fits { IfOk result (λ arrived. Fits arrived buf.new) }
        ensures grows { GrowsBy
            (recorded self.old) (recorded self.new) (Poll (came_of result buf.new) ∷ []) }
        ensures allowed { IfSome (recorded self.old) (λ r.
            may_come (is_within r) (came_of result buf.new) ≡ true) }
        ensures counted { polls self.new ≡ next_count (polls self.old) }
        ensures plays { length buf.old ≡ POLL_LEN → Keeps (plays self.old) (plays self.new) }
        ensures cause { HasCause (faults self.old) (faults self.new) result };

    /// Writes the piece on the connection that there is.
    ///
    /// # Errors
    /// [`Failed`] only where the count of faults rose in this call. Then a front of the piece was
    /// written, which may be empty, and the connection has ended.
    fn send(&mut self, piece: &[u8]) -> Result<(), Failed>
        requires within { ForSome (recorded self.old) (λ r. is_within r ≡ true) }
        ensures grows { SendGrows (recorded self.old) (recorded self.new) piece.now result }
        ensures counted { polls self.new ≡ polls self.old }
        ensures plays { Keeps (plays self.old) (plays self.new) }
        ensures cause { HasCause (faults self.old) (faults self.new) result };

    /// Ends the connection. Between connections it does nothing, and stands in no record.
    fn hang_up(&mut self)
        ensures grows { HangUpGrows (recorded self.old) (recorded self.new) }
        ensures counted { polls self.new ≡ polls self.old }
        ensures plays { Keeps (plays self.old) (plays self.new) }
        ensures faults { faults self.new ≡ faults self.old };
}
