//! What one event does on one wire.

ghost use Rattle.std.specs.Prelude.{◌≡◌, ◌≢◌, ◌≤◌, ◌-◌, map, Some, Err, IfOk, IfSome};
ghost use Rattle.std.specs.Prelude.{OnErr};
ghost use Rattle.std.specs.Option.{ForSome};
ghost use Rattle.gate_log.specs.Log.{OnlyReads};
ghost use Rattle.pair_journal.specs.declared.error.JournalError.TheVariants as errors;
ghost use Rattle.pair_journal.specs.Calls.{HasDiskCause, RefusedUntold};
ghost use Rattle.kept_entries.specs.Days.{last_day};
ghost use Rattle.kept_entries.specs.Entries.{DaysGoOn};
ghost use Rattle.pair_journal.specs.Journal.{JournalOf, Born};
ghost use Rattle.kept_entries.specs.Numbers.{is_side, first_numbers};
ghost use Rattle.life_laws.specs.Forms.{form_frame};
ghost use Rattle.life_laws.specs.Repeats.{repeated_to};
ghost use Rattle.life_laws.specs.Happens.{firsts};
ghost use Rattle.wire_sends.specs.Sent.{Agrees, Sent, FrontSent, Hung, hung_side, AreSendable};
ghost use Rattle.wire_sends.specs.Again.{repeat_in, IsGiven};
ghost use Rattle.wires.specs.Told.{Keeps};

use crate::repeats::{Again, repeat_outs};
use crate::sends::{is_side, send_outs};
use order_meaning::{Names, Side};
use outside::Disk;
use pair_entries::{Entry, MAX_AT};
use pair_journal::{Journal, JournalError, OutBuf};
use session_frames::FrameBuf;
use wires::Wire;

/// Sends again what is asked for, where it is of this side, and answers whether the connection
/// still stands. `resend` names the side and the first and the last number that are sent again.
///
/// # Errors
///
/// `DiskFault` only where the disk's count of faults rose; `Refused` only over a disk that does not
/// tell its bytes. Then a front of it was sent.
pub fn repeat_on<D: Disk, W: Wire>(
    journal: &Journal,
    disk: &mut D,
    buf: &mut OutBuf,
    wire: &mut W,
    up: bool,
    frame: &mut FrameBuf,
    names: &Names,
    side: Side,
    resend: Option<(Side, u32, u32)>,
    now: u64,
) -> Result<bool, JournalError>
    requires agrees { Agrees (W.recorded wire.old) up }
    requires stands { ForSome (D.bytes disk.old) (λ b.
        JournalOf b (Born journal.now.names journal.now.entries)) }
    requires sound { DaysGoOn first_numbers journal.now.entries }
    requires given { IsGiven (last_day journal.now.entries) resend }
    requires moment { now ≤ MAX_AT }
    ensures agrees { IfOk result (Agrees (W.recorded wire.new)) }
    ensures sent { IfOk result (λ still. ForSome (D.bytes disk.old) (λ b. Sent
        (W.recorded wire.old) (W.recorded wire.new) up (map (form_frame names.now side)
        (repeated_to side (last_day journal.now.entries) now (repeat_in resend))) still)) }
    ensures part { OnErr result (ForSome (D.bytes disk.old) (λ b. FrontSent
        (W.recorded wire.old) (W.recorded wire.new) up (map (form_frame names.now side)
        (repeated_to side (last_day journal.now.entries) now (repeat_in resend))))) }
    ensures only_read { OnlyReads D.bytes D.image disk.old disk.new }
    ensures cause { HasDiskCause (D.faults disk.old) (D.faults disk.new) result }
    ensures only { RefusedUntold (D.bytes disk.old) result }
    ensures no_memory { result ≢ Err errors.NoMemory }
    ensures polls { W.polls wire.new ≡ W.polls wire.old }
    ensures plays { Keeps (W.plays wire.old) (W.plays wire.new) }
{
    match resend {
        Some((of, from, to)) if is_side(side, of) => {
            let again = Again {
                side,
                from,
                to,
                now,
            };
            repeat_outs(journal, disk, buf, wire, up, frame, names, again)
        }
        _ => Ok(up),
    }
}

/// Sends an entry's outs to a side, where they are to be sent, and answers whether the connection
/// still stands.
pub fn outs_on<W: Wire>(
    wire: &mut W,
    up: bool,
    frame: &mut FrameBuf,
    names: &Names,
    side: Side,
    sent: bool,
    entry: &Option<Entry>,
) -> bool
    requires agrees { Agrees (W.recorded wire.old) up }
    requires outs { IfSome entry.now (λ e. AreSendable e.outs) }
    requires moment { IfSome entry.now (λ e. e.at ≤ MAX_AT) }
    ensures agrees { Agrees (W.recorded wire.new) result }
    ensures sent { Sent (W.recorded wire.old) (W.recorded wire.new) up
        (map (form_frame names.now side) (firsts side sent entry.now)) result }
    ensures polls { W.polls wire.new ≡ W.polls wire.old }
    ensures plays { Keeps (W.plays wire.old) (W.plays wire.new) }
{
    match entry {
        Some(entry) if sent => send_outs(
            wire,
            up,
            frame,
            names,
            side,
            entry.outs.as_slice(),
            entry.at,
        ),
        _ => up,
    }
}

/// Hangs up where this side is to be hung up, and answers whether the connection still stands.
pub fn hang_up_on<W: Wire>(wire: &mut W, up: bool, side: Side, hang_up: Option<Side>) -> bool
    requires { Agrees (W.recorded wire.old) up }
    ensures agrees { Agrees (W.recorded wire.new) result }
    ensures hung { Hung (W.recorded wire.old) (W.recorded wire.new) up (hung_side side hang_up)
        result }
    ensures polls { W.polls wire.new ≡ W.polls wire.old }
    ensures plays { Keeps (W.plays wire.old) (W.plays wire.new) }
{
    match hang_up {
        Some(of) if is_side(side, of) => {
            wire.hang_up();
            false
        }
        _ => up,
    }
}
