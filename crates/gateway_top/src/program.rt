//! The one call that the program makes.

ghost use Rattle.std.specs.Prelude.{◌≢◌, ◌≡◌, ◌↔◌, map, false, None, MatchOption, List, ℕ};
ghost use Rattle.std.specs.Option.{ForSome};
ghost use Rattle.std.specs.String.{string_bytes};
ghost use Rattle.std.specs.Io.KnownBytes.{Consumes};
ghost use Rattle.outside.specs.Causes.{Rose};
ghost use Rattle.gate_log.specs.Log.{OnlyReads};
ghost use Rattle.wires.specs.Wire.{is_within};
ghost use Rattle.drop_taps.specs.Shown.{state_by};
ghost use Rattle.gateway_life.specs.Watched.{TapsSaw};
ghost use Rattle.gateway_life.specs.Lived.{Lived, told};
ghost use Rattle.capture_replay.specs.Input.{Replayed};
ghost use Rattle.capture_replay.specs.Drills.{Drills};
ghost use Rattle.gateway_top.specs.Command.{command_of, LeavesAlone};
ghost use Rattle.gateway_top.specs.Program.{Wrote, Does, ReadsToEnd, IfServe, ServedBy, IfShow};
ghost use Rattle.gateway_top.specs.Program.{ShownBy, IfMigrate, MigratedBy, IfReplay, ReplayedBy};
ghost use Rattle.gateway_top.specs.Program.{IfDrill, DrilledBy, TellsFault};
ghost use Rattle.gateway_top.specs.Status.{served_status, shown_status, migrated_status};
ghost use Rattle.gateway_top.specs.Status.{replayed_status};
ghost use Rattle.gateway_top.specs.Status.{drilled_status};

use crate::Status;
use crate::command::{Command, read_command};
use crate::pass::put_text;
use crate::serve_error::ServeError;
use crate::serving::serve;
use crate::stream::run_stream;
use capture_replay::{ReplayError, drill, replay_input};
use drop_taps::Tap;
use gateway_life::LifeEnd;
use journal_migrate::{MigrateError, migrate_journal};
use journal_show::{ShowError, show};
use outside::{Disk, Sink, Source};
use replay_lines::PrintError;
use std::alloc::Global;
use wires::{Clock, Wire};

/// What `--help` prints.
const HELP: &str = "\
fixgate is a gateway from a trading client of FIX 4.2 to a venue of FIX 5.0 SP2
over FIXT 1.1: it serves both sessions, translates and checks streams of
messages, replays captures and shows its journal.

Usage: fixgate [OPTIONS] COMMAND

  serve ROUNDS    reads a configuration from standard input and serves both
                  sessions for so many rounds, 1 to 1,000,000,000: an hour in
                  which nothing comes has 72,000, and behind a stop file
                  5,000,000 or more go by in a second
  show            prints a line for each entry of the journal
  migrate         writes the journal of format 1, as fixgate 0.12 kept it, to
                  standard output as one of format 2; the file is only read
  translate up    reads FIX 4.2 order requests from standard input and writes
                  them to standard output as the venue takes them; ends at the
                  first piece of the input that it refuses
  translate down  reads FIX 5.0 SP2 reports and writes them as the client takes
                  them; ends in the same way
  check client    reads a stream of FIX 4.2 and prints a line for each frame and
                  each garbled piece, with the first fault of each request
  check venue     the same of a stream of FIXT 1.1 and of each report
  translate up44, translate down44, check client44
                  the same three for a client of FIX 4.4
  replay          reads a capture from standard input, runs each of its lives
                  over a journal in memory, and prints what was written in it
  drill FIRST COUNT
                  lives a day of COUNT orders, 1 to 10,000, that is made from the
                  number FIRST, 0 to 65,536, and prints a summary
  --help          prints this text
  --version       prints the version

Options, before the command, each at most once:

  --journal PATH     the file of the journal, which is in memory without it
  --listen ADDRESS   where the client connects, an IP address and a port
  --connect ADDRESS  where the venue is; it goes together with --listen

Order requests are New Order - Single(D), Order Cancel Request(F), Order
Cancel/Replace Request(G) and Order Status Request(H); reports are Execution
Report(8) and Order Cancel Reject(9). docs/REQUESTS.md and docs/REPORTS.md have
their fields and what each becomes. Frames are read as they are on the wire,
with SOH (byte 1) behind each field. A line of check begins with the place of
its piece in bytes; README.md says what follows.

Exit status:
   0  done
   1  refused: a piece of the input is garbled, unfinished, at fault, too long,
      not supported or has no counterpart; its place is printed
   2  usage: the words are none of the above
   3  the configuration: its first key that is missing or wrong is printed
   4  the input failed
   5  the output failed
   6  the disk of the journal failed
   7  the journal is refused, or has other names than the configuration
   8  the journal is full
   9  the numbers of a session are spent
  10  the capture: its first line that is wrong is printed
  11  out of memory
  12  the input has more than 67,108,864 bytes
On any status but 0 a line with the reason goes to standard error.
";

/// What `--version` prints.
const VERSION: &str = "fixgate 0.21.0\n";

/// Writes a text.
fn write_text<O: Sink>(out: &mut O, text: &str) -> Status
    ensures wrote { Wrote result text.now (O.bytes out.old) (O.bytes out.new) }
    ensures output_fault { result ≡ Status.OutputFault
        → Rose (O.faults out.old) (O.faults out.new) }
    ensures output_still { result ≢ Status.OutputFault → O.faults out.new ≡ O.faults out.old }
{
    match put_text(out, text.as_bytes()) {
        Ok(()) => Status::Done,
        Err(_) => Status::OutputFault,
    }
}

/// The status of what `serve` answers.
fn of_serve(answer: Result<LifeEnd, ServeError>) -> Status
    ensures { result ≡ served_status answer }
{
    match answer {
        Ok(end) => Status::from(end),
        Err(error) => Status::from(error),
    }
}

/// The status of what `show` answers.
fn of_show(answer: Result<(), ShowError>) -> Status
    ensures { result ≡ shown_status answer }
{
    match answer {
        Ok(()) => Status::Done,
        Err(error) => Status::from(error),
    }
}

/// The status of what `migrate` answers.
fn of_migrate(answer: Result<(), MigrateError>) -> Status
    ensures { result ≡ migrated_status answer }
{
    match answer {
        Ok(()) => Status::Done,
        Err(error) => Status::from(error),
    }
}

/// The status of what `replay` answers.
fn of_replay(answer: Result<(), ReplayError>) -> Status
    ensures { result ≡ replayed_status answer }
{
    match answer {
        Ok(()) => Status::Done,
        Err(error) => Status::from(error),
    }
}

/// The status of what `drill` answers.
fn of_drill(answer: Result<(), PrintError>) -> Status
    ensures { result ≡ drilled_status answer }
{
    match answer {
        Ok(()) => Status::Done,
        Err(error) => Status::from(error),
    }
}

/// Does what the words of the command line ask for with the outside that it is given: the input,
/// which has not told its end, the output, the disk of the journal, the wires to both peers,
/// neither within a connection, the clock and the taps. It says how that ended. No read follows the
/// end of the input.
///
/// The clauses on content hold where those that are called tell it. [`Status::Usage`] comes exactly
/// where the words are none of the forms. [`Status::InputFault`], [`Status::OutputFault`] and
/// [`Status::DiskFault`] come exactly where the source, the sink or the disk counted a fault in
/// this call, but for a count that stands at its last value. Each other status says of the input,
/// or of the disk, what it is named for, and what was put or lived. What a command does not call is
/// as it was.
pub fn run<I: Source, O: Sink, D: Disk, C: Wire, V: Wire, K: Clock>(
    alloc: Global,
    words: &[String],
    input: &mut I,
    out: &mut O,
    disk: &mut D,
    client: &mut C,
    venue: &mut V,
    clock: &mut K,
    taps: &mut Vec<Box<dyn Tap>>,
) -> Status
    requires input { I.ended input.old ≡ false }
    requires client { ForSome (C.recorded client.old) (λ calls. is_within calls ≡ false) }
    requires venue { ForSome (V.recorded venue.old) (λ calls. is_within calls ≡ false) }
    ensures usage { (result ≡ Status.Usage) ↔ (command_of (map string_bytes words.now) ≡ None) }

    // What a command that writes a text, or does a task, read and put, by the status.
    ensures does { MatchOption (command_of (map string_bytes words.now)) (Unit {0})
        (λ command. Does HELP.now VERSION.now command result
        (I.left input.old) (I.left input.new) (O.bytes out.old) (O.bytes out.new)) }
    ensures to_the_end { MatchOption (command_of (map string_bytes words.now)) (Unit {0})
        (λ command. ReadsToEnd command result (I.ended input.new)) }

    // What `serve` read as its configuration, and the life with it; where none began,
    // the disk, the wires, the clock and the taps are as they were.
    ensures serves { IfServe (command_of (map string_bytes words.now)) (λ rounds.
        (taken : List ℕ) × Consumes (I.left input.old) (I.left input.new) taken
        × ServedBy result taken (I.left input.new)
        ((disk.new ≡ disk.old) × (client.new ≡ client.old) × (venue.new ≡ venue.old)
        × (clock.new ≡ clock.old) × (taps.new ≡ taps.old))
        (λ config end. Lived end config rounds
        (D.image disk.old) (D.image disk.new)
        (told (D.bytes disk.old) (C.recorded client.old) (V.recorded venue.old)
        (K.moments clock.old) (C.polls client.old) (V.polls venue.old))
        (told (D.bytes disk.new) (C.recorded client.new) (V.recorded venue.new)
        (K.moments clock.new) (C.polls client.new) (V.polls venue.new))
        × TapsSaw (state_by has_failed entries tally counts_all refused) taps.old.items
        taps.new.items config.names (D.bytes disk.old) (D.image disk.old) (D.image disk.new) end)) }

    // What `show` put of the journal, which it only read.
    ensures shows { IfShow (command_of (map string_bytes words.now))
        (ShownBy result (D.bytes disk.old) (O.bytes out.old) (O.bytes out.new)) }
    ensures only_reads { IfShow (command_of (map string_bytes words.now))
        (OnlyReads D.bytes D.image disk.old disk.new) }

    // What `migrate` put of the journal of format 1, which it only read.
    ensures migrates { IfMigrate (command_of (map string_bytes words.now))
        (MigratedBy result (D.bytes disk.old) (O.bytes out.old) (O.bytes out.new)) }
    ensures only_migrates { IfMigrate (command_of (map string_bytes words.now))
        (OnlyReads D.bytes D.image disk.old disk.new) }

    // What `replay` read as its capture, and the lives of that.
    ensures replays { IfReplay (command_of (map string_bytes words.now))
        ((taken : List ℕ) × Consumes (I.left input.old) (I.left input.new) taken
        × ReplayedBy result (λ answer. Replayed
        (state_by has_failed entries tally counts_all refused) taken (I.left input.new)
        taps.old.items taps.new.items answer (O.bytes out.old) (O.bytes out.new))) }

    // What `drill` lived and put.
    ensures drills { IfDrill (command_of (map string_bytes words.now)) (λ first count.
        DrilledBy result (λ answer. Drills (state_by has_failed entries tally counts_all refused)
        first count taps.old.items taps.new.items answer (O.bytes out.old) (O.bytes out.new))) }

    // What a command does not call is as it was.
    ensures alone { LeavesAlone (command_of (map string_bytes words.now))
        (input.new ≡ input.old) (out.new ≡ out.old) (disk.new ≡ disk.old)
        ((client.new ≡ client.old) × (venue.new ≡ venue.old) × (clock.new ≡ clock.old))
        (taps.new ≡ taps.old) }

    // A fault that was counted is told, and no other.
    ensures input_fault { TellsFault (result ≡ Status.InputFault)
        (I.faults input.old) (I.faults input.new) }
    ensures output_fault { TellsFault (result ≡ Status.OutputFault)
        (O.faults out.old) (O.faults out.new) }
    ensures disk_fault { TellsFault (result ≡ Status.DiskFault)
        (D.faults disk.old) (D.faults disk.new) }
{
    match read_command(words) {
        Some(Command::Stream(task)) => run_stream(alloc, task, input, out),
        Some(Command::Serve(rounds)) => of_serve(serve(
            alloc, rounds, input, disk, client, venue, clock, taps,
        )),
        Some(Command::Show) => of_show(show(alloc, disk, out)),
        Some(Command::Migrate) => of_migrate(migrate_journal(alloc, disk, out)),
        Some(Command::Replay) => of_replay(replay_input(alloc, input, out, taps)),
        Some(Command::Drill { first, count }) => of_drill(drill(alloc, first, count, out, taps)),
        Some(Command::Help) => write_text(out, HELP),
        Some(Command::Version) => write_text(out, VERSION),
        None => Status::Usage,
    }
}
