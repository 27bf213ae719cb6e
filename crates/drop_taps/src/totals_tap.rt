//! A tap that counts what went through.

ghost use Rattle.std.specs.Prelude.{◌≡◌, None, false, true, count_by};
ghost use Rattle.drop_taps.specs.Tap.{seen_after, is_request, is_report, is_refusal, all_counted};
ghost use Rattle.drop_taps.specs.Totals.{seen_by};
ghost use Rattle.pair_entries.specs.declared.entry.Entry.{Entry};

use crate::{Seen, Tap, TapFailed};
use kept_entries::source_in;
use order_meaning::Side;
use pair_entries::{Entry, EntryRef, OutRef};

/// A tap that counts entries, requests, reports and refusals, as [`Seen`] says. It never fails, and
/// takes no memory.
#[derive(Clone, Copy, Debug, PartialEq, Eq)]
pub struct TotalsTap {
    /// The entries.
    pub entries: u64,
    /// The requests that went to the venue.
    pub requests: u64,
    /// The reports that went to the client.
    pub reports: u64,
    /// The messages of type 3 or j that were given out, to either side.
    pub refusals: u64,
}

/// Whether a message that was given out goes to the venue and translates the client's.
fn is_request(entry: &EntryRef<'_>, out: &OutRef<'_>) -> bool
    ensures { result ≡ is_request entry.now out.now }
{
    match out.side {
        Side::Venue => source_in(entry, out).is_some(),
        Side::Client => false,
    }
}

/// Whether a message that was given out goes to the client and translates the venue's.
fn is_report(entry: &EntryRef<'_>, out: &OutRef<'_>) -> bool
    ensures { result ≡ is_report entry.now out.now }
{
    match out.side {
        Side::Client => source_in(entry, out).is_some(),
        Side::Venue => false,
    }
}

/// Whether a message is a Reject(3) or a Business Message Reject(j).
fn is_refusal(out: &OutRef<'_>) -> bool
    ensures { result ≡ is_refusal out.now }
{
    matches!(out.msg_type, b"3" | b"j")
}

/// How many requests an entry gives out.
fn requests_in(entry: &EntryRef<'_>) -> u64
    ensures { result ≡ count_by (is_request entry.now) entry.now.outs }
{
    let outs = entry.outs.as_slice();
    outs.iter().filter(|out| is_request(entry, out)).count() as u64
}

/// How many reports an entry gives out.
fn reports_in(entry: &EntryRef<'_>) -> u64
    ensures { result ≡ count_by (is_report entry.now) entry.now.outs }
{
    let outs = entry.outs.as_slice();
    outs.iter().filter(|out| is_report(entry, out)).count() as u64
}

/// How many refusals an entry gives out.
fn refusals_in(entry: &EntryRef<'_>) -> u64
    ensures { result ≡ count_by is_refusal entry.now.outs }
{
    let outs = entry.outs.as_slice();
    outs.iter().filter(|out| is_refusal(out)).count() as u64
}

impl TotalsTap {
    /// A tap that has counted nothing yet.
    pub fn new() -> TotalsTap
        ensures { result ≡ record { entries = 0; requests = 0; reports = 0; refusals = 0 } }
    {
        TotalsTap {
            entries: 0,
            requests: 0,
            reports: 0,
            refusals: 0,
        }
    }

    /// Counts an entry and what it gives out.
    fn count(&mut self, entry: &EntryRef<'_>)
        ensures { seen_by self.new ≡ all_counted entry.now (seen_by self.old) }
    {
        self.entries = self.entries.saturating_add(1);
        self.requests = self.requests.saturating_add(requests_in(entry));
        self.reports = self.reports.saturating_add(reports_in(entry));
        self.refusals = self.refusals.saturating_add(refusals_in(entry));
    }
}

impl Tap for TotalsTap {
    ghost use Rattle.drop_taps.specs.Totals.{seen_by};

    ghost entries = { λ _. None };

    ghost tally = { seen_by };

    ghost counts_all = { λ _. true };

    ghost faults = { λ _. 0 };

    ghost has_failed = { λ _. false };

    ghost refused = { λ _. None };

    ghost never_fails = { λ _. true };

    fn saw(&mut self, entry: &Entry) -> Result<(), TapFailed> {
        self.count(&entry.as_ref());
        Ok(())
    }

    fn failed(&self) -> bool {
        false
    }

    fn seen(&self) -> Seen {
        Seen {
            entries: self.entries,
            requests: self.requests,
            reports: self.reports,
            refusals: self.refusals,
        }
    }
}
