//! A task does all of its input, read by read.

ghost use Rattle.std.specs.Prelude.{◌≡◌, ◌≢◌, false, true, ℕ, List};
ghost use Rattle.std.specs.Io.KnownBytes.{Consumes};
ghost use Rattle.outside.specs.Causes.{Rose};
ghost use Rattle.gateway_top.specs.Program.{Ran};

use crate::Status;
use crate::pass::{Pass, Stop};
use crate::task::Task;
use outside::{Failed, Sink, Source};
use std::alloc::Global;
use whole_input::{MAX_INPUT, MAX_READ, read_some};

/// Does a task with all of the input.
pub(crate) fn run_stream<I: Source, O: Sink>(
    alloc: Global,
    task: Task,
    input: &mut I,
    out: &mut O,
) -> Status
    requires { I.ended input.old ≡ false }
    ensures ran { (taken : List ℕ) × Consumes (I.left input.old) (I.left input.new) taken ×
        Ran task result taken (I.left input.new) (O.bytes out.old) (O.bytes out.new) }
    ensures ended { result ≡ Status.Done → I.ended input.new ≡ true }
    ensures input_still { result ≢ Status.InputFault → I.faults input.new ≡ I.faults input.old }
    ensures output_still { result ≢ Status.OutputFault → O.faults out.new ≡ O.faults out.old }
    ensures input_fault { result ≡ Status.InputFault
        → Rose (I.faults input.old) (I.faults input.new) }
    ensures output_fault { result ≡ Status.OutputFault
        → Rose (O.faults out.old) (O.faults out.new) }
{
    let Ok(mut pass) = Pass::new(alloc, task) else {
        return Status::NoMemory;
    };
    let mut buf = [0u8; MAX_READ];
    let mut taken = 0;
    loop {
        let most = (MAX_INPUT - taken).clamp(1, MAX_READ);
        let count = match read_some(input, &mut buf, most) {
            Ok(0) => return pass.end(out),
            Ok(count) => count,
            Err(Failed) => return Status::InputFault,
        };
        if count > MAX_INPUT - taken {
            return Status::InputTooLong;
        }
        taken += count;
        match pass.take(&buf[..count], out) {
            Ok(()) => {}
            Err(Stop::OutputFault) => return Status::OutputFault,
            Err(Stop::NoMemory) => return Status::NoMemory,
        }
        if let Some(at) = pass.ended_at() {
            return Status::Refused { at };
        }
    }
}
