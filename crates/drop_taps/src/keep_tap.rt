//! A tap that keeps what it is shown.

ghost use Rattle.std.specs.Prelude.{◌≡◌, ◌↔◌, [], ◌∷◌, ◌++◌, length, Some, Err, OnOk, OnErr};
ghost use Rattle.std.specs.Prelude.{None, false, is_err, option_map};
ghost use Rattle.std.specs.Option.{ForSome};
ghost use Rattle.outside.specs.Memory.{IsListed, called};
ghost use Rattle.pair_entries.specs.Payload.{IsEntry};
ghost use Rattle.drop_taps.specs.Tap.{seen_after, tally_after, faults_after, entries_alone};
ghost use Rattle.drop_taps.specs.Tap.{HasTapCause};
ghost use Rattle.drop_taps.specs.declared.tap.TapFailed.TheVariants as failures;

use crate::{Seen, Tap, TapFailed};
use outside::Calls;
use pair_entries::Entry;
use std::alloc::{AllocError, Global};
use std::marker::Model;

/// A tap that keeps the entries, and tells them. Calls are numbered from 1, and the listed ones
/// fail. It keeps the entry at which it failed apart, if there is memory for it.
#[derive(Debug, Drop)]
pub struct KeepTap {
    entries: Vec<Entry>,
    calls: Calls,
    failed: bool,
    refused: Option<Entry>,
}

impl Model for KeepTap {
    ghost use Rattle.drop_taps.specs.Kept.{KeepState};

    ghost Value = { KeepState };

    ghost view = { λ t. record {
      entries = t.entries.items;
      calls = t.calls;
      failed = t.failed;
      refused = t.refused;
    } };
}

/// Appends a copy of an entry.
fn append(entries: &mut Vec<Entry>, entry: &Entry) -> Result<(), AllocError>
    ensures ok { OnOk result (entries.new.items ≡ entries.old.items ++ entry.now ∷ []) }
    ensures err { OnErr result (entries.new.items ≡ entries.old.items) }
{
    let copy = entry.duplicate()?;
    entries.push(copy)?;
    Ok(())
}

impl KeepTap {
    /// A tap that keeps no entry yet, of which the calls with the numbers in `fail` fail. It takes
    /// no memory yet.
    pub fn new(alloc: Global, fail: Vec<u64>) -> KeepTap
        ensures { result ≡ record {
          entries = [];
          calls = record { made = 0; fail = fail.items; faults = 0 };
          failed = false;
          refused = None;
        } }
    {
        KeepTap {
            entries: Vec::new(alloc),
            calls: Calls::new(fail),
            failed: false,
            refused: None,
        }
    }

    /// The entries that it keeps.
    pub fn entries(&self) -> &[Entry]
        ensures { result.now ≡ self.now.entries }
    {
        &self.entries
    }

    /// The entry at which it failed, if it keeps it.
    pub fn refused(&self) -> Option<&Entry>
        ensures { option_map (λ entry. entry.now) result ≡ self.now.refused }
    {
        self.refused.as_ref()
    }

    /// Counts a call, and keeps a copy of an entry.
    fn keep(&mut self, entry: &Entry) -> Result<(), TapFailed>
        ensures ok { OnOk result (self.new.entries ≡ self.old.entries ++ entry.now ∷ []) }
        ensures err { OnErr result (self.new.entries ≡ self.old.entries) }
        ensures listed { result ≡ Err failures.Fault ↔ IsListed self.old.calls }
        ensures calls { self.new.calls ≡
            called self.old.calls (faults_after result self.old.calls.faults) }
        ensures failed { self.new.failed ≡ self.old.failed }
        ensures refused { self.new.refused ≡ self.old.refused }
        ensures cause { HasTapCause self.old.calls.faults self.new.calls.faults result }
    {
        if self.calls.begin().is_err() {
            return Err(TapFailed::Fault);
        }
        append(&mut self.entries, entry)?;
        Ok(())
    }
}

impl Tap for KeepTap {
    ghost entries = { λ t. Some t.entries };

    ghost tally = { λ t. entries_alone (length t.entries) };

    ghost counts_all = { λ _. false };

    ghost faults = { λ t. t.calls.faults };

    ghost has_failed = { λ t. t.failed };

    ghost refused = { λ t. t.refused };

    ghost never_fails = { λ _. false };

    fn saw(&mut self, entry: &Entry) -> Result<(), TapFailed>
        requires works { self.old.failed ≡ false }
        requires entry { IsEntry entry.now }
        ensures entries { Some self.new.entries
            ≡ seen_after result entry.now (Some self.old.entries) }
        ensures tally { entries_alone (length self.new.entries)
            ≡ tally_after false result entry.now (entries_alone (length self.old.entries)) }
        ensures failed { self.new.failed ≡ is_err result }
        ensures took { OnOk result (self.new.refused ≡ self.old.refused) }
        ensures refused { OnErr result (ForSome self.new.refused (λ e. e ≡ entry.now)) }
        ensures cause { HasTapCause self.old.calls.faults self.new.calls.faults result }
        ensures listed { result ≡ Err failures.Fault ↔ IsListed self.old.calls }
        ensures calls { self.new.calls ≡
            called self.old.calls (faults_after result self.old.calls.faults) }
    {
        let kept = self.keep(entry);
        self.failed = kept.is_err();
        if self.failed {
            self.refused = entry.duplicate().ok();
        }
        kept
    }

    fn failed(&self) -> bool {
        self.failed
    }

    fn seen(&self) -> Seen {
        Seen {
            entries: self.entries.len() as u64,
            requests: 0,
            reports: 0,
            refusals: 0,
        }
    }
}
