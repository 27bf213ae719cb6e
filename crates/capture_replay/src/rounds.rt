//! The rounds of a life.

ghost use Rattle.std.specs.Prelude.{◌≡◌, filter, length};
ghost use Rattle.capture_text.specs.Kept.{event_of};
ghost use Rattle.capture_replay.specs.Rounds.{is_round, now_after, moment_after};

use capture_text::{Life, Line};

/// Whether a line is a round.
pub(crate) fn is_round(line: Line<'_>) -> bool
    ensures { result ≡ is_round (event_of line.entry) }
{
    !matches!(line, Line::Stop(..) | Line::At(_))
}

/// The moment that the clock says behind a line.
pub(crate) fn now_after(now: u64, line: Line<'_>) -> u64
    ensures { result ≡ now_after now (event_of line.entry) }
{
    match line {
        Line::At(ms) => ms,
        _ => now,
    }
}

/// The moment that the clock says behind these lines, from this one on.
#[tactic(auto, using(crate::proofs::EachLine::after_more))]
pub(crate) fn moment_after(from: u64, life: &Life) -> u64
    ensures { result ≡ moment_after from life.now }
{
    let mut now = from;
    let mut left = life.lines();
    while let Some(line) = left.next() {
        now = now_after(now, line);
    }
    now
}

/// How many rounds the lines of a life are.
pub(crate) fn rounds_of(life: &Life) -> u64
    ensures { result ≡ length (filter is_round life.now) }
{
    let count = life.len(); // there are no more rounds than lines
    let mut rounds = 0;
    let mut left = life.lines();
    while let Some(line) = left.next() {
        if is_round(line) {
            rounds += 1;
        }
    }
    rounds
}
