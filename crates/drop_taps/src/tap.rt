//! What a tap is.

ghost use Rattle.std.specs.Prelude.{◌≡◌, ℕ, List, Bool, false, IsTrue, IsOk, is_err, OnOk, OnErr};
ghost use Rattle.std.specs.declared.option.Option.{Option};
ghost use Rattle.std.specs.Option.{ForSome};
ghost use Rattle.pair_entries.specs.declared.entry.Entry.{Entry};
ghost use Rattle.pair_entries.specs.Payload.{IsEntry};
ghost use Rattle.drop_taps.specs.declared.tap.Seen.{Seen};
ghost use Rattle.drop_taps.specs.declared.tap.TapFailed.TheVariants as failures;
ghost use Rattle.drop_taps.specs.Tap.{seen_after, tally_after, HasTapCause};

use pair_entries::Entry;
use std::alloc::AllocError;
use thiserror::Error;

/// Why a tap failed.
#[derive(Clone, Copy, Debug, Error, PartialEq, Eq)]
pub enum TapFailed {
    /// What the tap hands entries to failed, and its count of faults says so too.
    #[error("the tap failed")]
    Fault,
    /// Memory was refused.
    #[error("out of memory")]
    NoMemory,
}

impl From<AllocError> for TapFailed {
    ghost from_gives = { λ _ e. e ≡ failures.NoMemory };

    fn from(_e: AllocError) -> TapFailed {
        TapFailed::NoMemory
    }
}

/// What a tap counted. A number that it does not count is 0, and each stays at 2^64 - 1.
#[derive(Clone, Copy, Debug, PartialEq, Eq)]
pub struct Seen {
    /// The entries that it was shown and took.
    pub entries: u64,
    /// The requests that went to the venue in them: messages of type D, F, G or H given out that
    /// translate the client's.
    pub requests: u64,
    /// The reports that went to the client in them: messages of type 8 or 9 given out that
    /// translate the venue's.
    pub reports: u64,
    /// The messages of type 3 or j given out in them, to either side.
    pub refusals: u64,
}

/// Who is shown each entry, in order, once it is committed.
pub trait Tap: Drop {
    /// The entries that it was shown and took, where the tap tells them.
    ghost entries: { Self → Option (List Entry) };

    /// What it counted.
    ghost tally: { Self → Seen };

    /// Whether it counts requests, reports and refusals besides entries.
    ghost counts_all: { Self → Bool };

    /// How often it has failed. It never falls, and stands still at 2^64 - 1.
    ghost faults: { Self → ℕ };

    /// Whether it has failed. A tap that was just made has not.
    ghost has_failed: { Self → Bool };

    /// The entry at which it failed, where the tap tells it.
    ghost refused: { Self → Option Entry };

    /// Whether it never fails.
    ghost never_fails: { Self → Bool };

    /// Is shown an entry, which it takes in at `Ok`.
    ///
    /// # Errors
    /// Then it has failed at this entry, and nothing but that and its count of faults changed:
    /// `Fault` only where this count rose in the call, `NoMemory` for want of memory.
    fn saw(&mut self, entry: &Entry) -> Result<(), TapFailed>
        requires works { has_failed self.old ≡ false }
        requires entry { IsEntry entry.now }
        ensures entries { entries self.new ≡ seen_after result entry.now (entries self.old) }
        ensures tally { tally self.new
            ≡ tally_after (counts_all self.old) result entry.now (tally self.old) }
        ensures counts { counts_all self.new ≡ counts_all self.old }
        ensures failed { has_failed self.new ≡ is_err result }
        ensures took { OnOk result (refused self.new ≡ refused self.old) }
        ensures refused { OnErr result (ForSome (refused self.new) (λ e. e ≡ entry.now)) }
        ensures sure { IsTrue (never_fails self.old) → IsOk result }
        ensures stays_sure { never_fails self.new ≡ never_fails self.old }
        ensures cause { HasTapCause (faults self.old) (faults self.new) result };

    /// Whether it has failed. Then it is shown no entry any more.
    fn failed(&self) -> bool
        ensures { result ≡ has_failed self.now };

    /// What it counted.
    fn seen(&self) -> Seen
        ensures { result ≡ tally self.now };
}
