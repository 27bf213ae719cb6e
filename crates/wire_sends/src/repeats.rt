//! What is sent again.

ghost use Rattle.std.specs.Prelude.{◌≡◌, ◌≢◌, ◌≤◌, ◌+◌, ◌-◌, map, Some, Err, IfOk, OnErr};
ghost use Rattle.std.specs.Option.{ForSome};
ghost use Rattle.gate_log.specs.Log.{OnlyReads};
ghost use Rattle.pair_journal.specs.declared.error.JournalError.TheVariants as errors;
ghost use Rattle.pair_journal.specs.Calls.{HasDiskCause, RefusedUntold};
ghost use Rattle.kept_entries.specs.Days.{last_day};
ghost use Rattle.kept_entries.specs.Entries.{DaysGoOn};
ghost use Rattle.pair_journal.specs.Journal.{JournalOf, Born};
ghost use Rattle.kept_entries.specs.Numbers.{numbers_after, first_numbers, next_out};
ghost use Rattle.pair_journal.specs.OutBuf.{IsOutAt};
ghost use Rattle.life_laws.specs.Forms.{form_frame};
ghost use Rattle.life_laws.specs.Repeats.{close_run, repeat_one, run_after, repeat_forms};
ghost use Rattle.wire_sends.specs.Sent.{Agrees, Sent, FrontSent};
ghost use Rattle.wire_sends.specs.Again.{placed_by, run_of, IsBegun};
ghost use Rattle.wires.specs.Told.{Keeps};

use crate::sends::send_piece;
use order_meaning::{Names, Side};
use outside::Disk;
use pair_entries::{MAX_AT, MAX_NUMBER};
use pair_journal::{Journal, JournalError, OutBuf};
use session_frames::{FrameBuf, fill_out, frame_out};
use wires::Wire;

/// Administrative messages in a row, which are not sent again.
#[derive(Clone, Copy, Debug)]
pub(crate) struct Run {
    /// The number of the first.
    pub(crate) from: u32,
    /// Its moment.
    pub(crate) at: u64,
}

/// What is sent again to a side: the numbers, and the present moment.
#[derive(Clone, Copy, Debug)]
pub(crate) struct Again {
    /// To whom.
    pub(crate) side: Side,
    /// The first number.
    pub(crate) from: u32,
    /// The last number.
    pub(crate) to: u32,
    /// The present moment.
    pub(crate) now: u64,
}

// Sends the gap fill for a run that ends before a number.
fn send_run<W: Wire>(
    wire: &mut W,
    up: bool,
    frame: &mut FrameBuf,
    names: &Names,
    side: Side,
    run: Option<Run>,
    number: u32,
    now: u64,
) -> bool
    requires agrees { Agrees (W.recorded wire.old) up }
    requires begun { IsBegun run number }
    requires moment { now ≤ MAX_AT }
    ensures agrees { Agrees (W.recorded wire.new) result }
    ensures sent { Sent (W.recorded wire.old) (W.recorded wire.new) up
        (map (form_frame names.now side) (close_run (run_of run) number now)) result }
    ensures polls { W.polls wire.new ≡ W.polls wire.old }
    ensures plays { Keeps (W.plays wire.old) (W.plays wire.new) }
{
    match run {
        None => up,
        Some(run) => {
            fill_out(names, side, run.from, number - 1, run.at, now, frame);
            send_piece(wire, up, frame.bytes())
        }
    }
}

// The run behind a number, once its message was read.
fn run_behind(run: Option<Run>, number: u32, told: &OutBuf) -> Option<Run>
    requires begun { IsBegun run number }
    requires number { (1 ≤ number) × (number ≤ MAX_NUMBER) }
    requires bounds { IsOutAt told.now.told }
    ensures run { (side : Side) →
        run_of result ≡ run_after (run_of run) number (Some (placed_by side number told.now.told)) }
    ensures begun { IsBegun result (number + 1) }
{
    if !told.admin() {
        return None;
    }
    match run {
        None => Some(Run {
            from: number,
            at: told.at(),
        }),
        Some(run) => Some(run),
    }
}

// Sends a message again that was read, behind a run.
fn send_again<W: Wire>(
    wire: &mut W,
    up: bool,
    frame: &mut FrameBuf,
    names: &Names,
    side: Side,
    run: Option<Run>,
    number: u32,
    told: &OutBuf,
    now: u64,
) -> bool
    requires agrees { Agrees (W.recorded wire.old) up }
    requires begun { IsBegun run number }
    requires number { (1 ≤ number) × (number ≤ MAX_NUMBER) }
    requires bounds { IsOutAt told.now.told }
    requires moment { now ≤ MAX_AT }
    ensures agrees { Agrees (W.recorded wire.new) result }
    ensures sent { Sent (W.recorded wire.old) (W.recorded wire.new) up
        (map (form_frame names.now side)
        (repeat_one (run_of run) number now (Some (placed_by side number told.now.told)))) result }
    ensures polls { W.polls wire.new ≡ W.polls wire.old }
    ensures plays { Keeps (W.plays wire.old) (W.plays wire.new) }
{
    if told.admin() {
        return up;
    }
    let still = send_run(wire, up, frame, names, side, run, number, now);
    frame_out(
        names,
        side,
        number,
        told.msg_type(),
        told.content(),
        told.resend(),
        told.at(),
        now,
        true,
        frame,
    );
    send_piece(wire, still, frame.bytes())
}

/// Sends messages of a side again: each under its number, and a gap fill for each run of
/// administrative ones. It answers whether the connection still stands.
///
/// # Errors
///
/// `DiskFault` only where the disk's count of faults rose; `Refused` only over a disk that does not
/// tell its bytes. Then a front of it was sent.
pub(crate) fn repeat_outs<D: Disk, W: Wire>(
    journal: &Journal,
    disk: &mut D,
    buf: &mut OutBuf,
    wire: &mut W,
    up: bool,
    frame: &mut FrameBuf,
    names: &Names,
    again: Again,
) -> Result<bool, JournalError>
    requires agrees { Agrees (W.recorded wire.old) up }
    requires stands { ForSome (D.bytes disk.old) (λ b.
        JournalOf b (Born journal.now.names journal.now.entries)) }
    requires sound { DaysGoOn first_numbers journal.now.entries }
    requires from { 1 ≤ again.from }
    requires to { again.to
        ≤ next_out again.side (numbers_after first_numbers (last_day journal.now.entries)) - 1 }
    requires limit { again.to ≤ MAX_NUMBER }
    requires moment { again.now ≤ MAX_AT }
    ensures agrees { IfOk result (Agrees (W.recorded wire.new)) }
    ensures sent { IfOk result (λ still. ForSome (D.bytes disk.old) (λ b. Sent
        (W.recorded wire.old) (W.recorded wire.new) up (map (form_frame names.now again.side)
        (repeat_forms (last_day journal.now.entries) again.side again.from again.to again.now))
        still)) }
    ensures part { OnErr result (ForSome (D.bytes disk.old) (λ b. FrontSent
        (W.recorded wire.old) (W.recorded wire.new) up (map (form_frame names.now again.side)
        (repeat_forms (last_day journal.now.entries) again.side again.from again.to again.now)))) }
    ensures only_read { OnlyReads D.bytes D.image disk.old disk.new }
    ensures cause { HasDiskCause (D.faults disk.old) (D.faults disk.new) result }
    ensures only { RefusedUntold (D.bytes disk.old) result }
    ensures no_memory { result ≢ Err errors.NoMemory }
    ensures polls { W.polls wire.new ≡ W.polls wire.old }
    ensures plays { Keeps (W.plays wire.old) (W.plays wire.new) }
{
    let mut still = up;
    let mut run = None;
    buf.restart();
    for number in again.from..again.to + 1 {
        journal.out(disk, again.side, number, buf)?;
        still = send_again(
            wire, still, frame, names, again.side, run, number, buf, again.now,
        );
        run = run_behind(run, number, buf);
    }
    Ok(send_run(
        wire,
        still,
        frame,
        names,
        again.side,
        run,
        again.to + 1,
        again.now,
    ))
}
