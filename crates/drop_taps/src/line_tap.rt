//! A tap that puts a line for each entry.

ghost use Rattle.std.specs.Prelude.{◌≡◌, ◌≢◌, None, Err, false, IsTrue, IsOk, is_err, OnErr};
ghost use Rattle.outside.specs.Bytes.{PutAppends};
ghost use Rattle.outside.specs.Causes.{HasCause, next_count};
ghost use Rattle.entry_lines.specs.EntryLine.{entry_line};
ghost use Rattle.pair_entries.specs.Payload.{IsEntry};
ghost use Rattle.drop_taps.specs.Tap.{seen_after, tally_after, entries_alone, HasTapCause};
ghost use Rattle.drop_taps.specs.declared.tap.TapFailed.TheVariants as failures;

use crate::{Seen, Tap, TapFailed};
use entry_lines::EntryLine;
use outside::Sink;
use pair_entries::Entry;

/// A tap that puts the line of each entry to a sink, numbered from 1 by what it was shown.
///
/// It takes no memory, and fails only where the sink fails.
#[derive(Debug, Drop)]
pub struct LineTap<O> {
    pub(crate) sink: O,
    // The line of the last entry.
    line: EntryLine,
    pub(crate) entries: u64,
    pub(crate) failed: bool,
}

impl<O: Sink> LineTap<O> {
    /// A tap that has put no line yet.
    pub fn new(sink: O) -> LineTap<O>
        ensures sink { result.sink ≡ sink }
        ensures entries { result.entries ≡ 0 }
        ensures failed { result.failed ≡ false }
    {
        LineTap {
            sink,
            line: EntryLine::new(),
            entries: 0,
            failed: false,
        }
    }

    /// The sink.
    pub fn sink(&self) -> &O
        ensures { result.now ≡ self.now.sink }
    {
        &self.sink
    }
}

impl<O: Sink + Drop> Tap for LineTap<O> {
    ghost entries = { λ _. None };

    ghost tally = { λ t. entries_alone t.entries };

    ghost counts_all = { λ _. false };

    ghost faults = { λ t. O.faults t.sink };

    ghost has_failed = { λ t. t.failed };

    ghost refused = { λ _. None };

    ghost never_fails = { λ _. false };

    fn saw(&mut self, entry: &Entry) -> Result<(), TapFailed>
        requires works { self.old.failed ≡ false }
        requires entry { IsEntry entry.now }
        ensures line { PutAppends (O.bytes self.old.sink) (O.bytes self.new.sink) result
            (entry_line (next_count self.old.entries) entry.now) }
        ensures fails { HasCause (O.faults self.old.sink) (O.faults self.new.sink) result }
        ensures only { result ≢ Err failures.NoMemory }
        ensures tally { entries_alone self.new.entries
            ≡ tally_after false result entry.now (entries_alone self.old.entries) }
        ensures failed { self.new.failed ≡ is_err result }
        ensures cause { HasTapCause (O.faults self.old.sink) (O.faults self.new.sink) result }
    {
        let number = self.entries.saturating_add(1);
        self.line.write(number, entry);
        if self.sink.put(self.line.as_slice()).is_err() {
            self.failed = true;
            return Err(TapFailed::Fault);
        }
        self.entries = number;
        Ok(())
    }

    fn failed(&self) -> bool {
        self.failed
    }

    fn seen(&self) -> Seen {
        Seen {
            entries: self.entries,
            requests: 0,
            reports: 0,
            refusals: 0,
        }
    }
}
