//! A tap that puts the lines of each entry.

ghost use Rattle.std.specs.Prelude.{◌≡◌, [], None, false, is_err, Err};
ghost use Rattle.outside.specs.Bytes.{PutAppends};
ghost use Rattle.pair_entries.specs.Payload.{IsEntry};
ghost use Rattle.drop_taps.specs.Tap.{tally_after, entries_alone, HasTapCause};
ghost use Rattle.drop_taps.specs.declared.tap.TapFailed.TheVariants as failures;
ghost use Rattle.text_tap.specs.TextLines.{text_lines};

use crate::text::put_text_lines;
use drop_taps::{Seen, Tap, TapFailed};
use outside::Sink;
use pair_entries::Entry;
use std::alloc::Global;

/// A tap that puts a line to a sink for each order and each report that an entry took or gives out,
/// with its kind, its ClOrdID(11) and its ExecID(17), and for each Reject(3), Logout(5) and
/// BusinessMessageReject(j), with all of its fields. Nothing is put for an entry without one.
///
/// It fails only where the sink fails, or for want of memory. In the second case nothing is put.
#[derive(Debug, Drop)]
pub struct TextTap<O> {
    sink: O,
    // The lines of one entry.
    lines: Vec<u8>,
    entries: u64,
    failed: bool,
}

impl<O: Sink> TextTap<O> {
    /// A tap that has put no line yet. It takes no memory yet.
    pub fn new(alloc: Global, sink: O) -> TextTap<O>
        ensures sink { result.sink ≡ sink }
        ensures entries { result.entries ≡ 0 }
        ensures failed { result.failed ≡ false }
    {
        TextTap {
            sink,
            lines: Vec::new(alloc),
            entries: 0,
            failed: false,
        }
    }

    /// The sink.
    pub fn sink(&self) -> &O
        ensures { result.now ≡ self.now.sink }
    {
        &self.sink
    }

    // Puts the lines of an entry, where it has some.
    pub(crate) fn put(&mut self, entry: &Entry) -> Result<(), TapFailed>
        ensures lines { PutAppends (O.bytes self.old.sink) (O.bytes self.new.sink) result
            (text_lines entry.now) }
        ensures memory { result ≡ Err failures.NoMemory → self.new.sink ≡ self.old.sink }
        ensures entries { self.new.entries ≡ self.old.entries }
        ensures cause { HasTapCause (O.faults self.old.sink) (O.faults self.new.sink) result }
    {
        self.lines.clear();
        put_text_lines(&mut self.lines, entry)?;
        if !self.lines.is_empty() && self.sink.put(&self.lines).is_err() {
            return Err(TapFailed::Fault);
        }
        Ok(())
    }
}

impl<O: Sink + Drop> Tap for TextTap<O> {
    ghost entries = { λ _. None };

    ghost tally = { λ t. entries_alone t.entries };

    ghost counts_all = { λ _. false };

    ghost faults = { λ t. O.faults t.sink };

    ghost has_failed = { λ t. t.failed };

    ghost refused = { λ _. None };

    ghost never_fails = { λ _. false };

    fn saw(&mut self, entry: &Entry) -> Result<(), TapFailed>
        requires works { self.old.failed ≡ false }
        requires entry { IsEntry entry.now }
        ensures lines { PutAppends (O.bytes self.old.sink) (O.bytes self.new.sink) result
            (text_lines entry.now) }
        ensures memory { result ≡ Err failures.NoMemory → self.new.sink ≡ self.old.sink }
        ensures tally { entries_alone self.new.entries
            ≡ tally_after false result entry.now (entries_alone self.old.entries) }
        ensures failed { self.new.failed ≡ is_err result }
        ensures cause { HasTapCause (O.faults self.old.sink) (O.faults self.new.sink) result }
    {
        let put = self.put(entry);
        self.failed = put.is_err();
        if put.is_ok() {
            self.entries = self.entries.saturating_add(1);
        }
        put
    }

    fn failed(&self) -> bool {
        self.failed
    }

    fn seen(&self) -> Seen {
        Seen {
            entries: self.entries,
            requests: 0,
            reports: 0,
            refusals: 0,
        }
    }
}
