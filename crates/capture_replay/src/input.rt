//! The capture of an input is read, and then replayed.

ghost use Rattle.std.specs.Prelude.{◌≡◌, ◌≢◌, List, ℕ, Err, OnOk, false, true};
ghost use Rattle.std.specs.Io.KnownBytes.{Consumes};
ghost use Rattle.outside.specs.Causes.{Rose};
ghost use Rattle.drop_taps.specs.Shown.{state_by};
ghost use Rattle.capture_replay.specs.declared.error.ReplayError.TheVariants as errors;
ghost use Rattle.capture_replay.specs.Input.{IsRead, Replayed};

use crate::error::ReplayError;
use crate::replaying::replay;
use capture_text::{Capture, read_capture};
use drop_taps::Tap;
use outside::{Sink, Source};
use std::alloc::Global;
use whole_input::read_whole;

/// The capture that an input is read as.
fn capture<I: Source>(alloc: Global, input: &mut I) -> Result<Capture, ReplayError>
    requires { I.ended input.old ≡ false }
    ensures read { (taken : List ℕ) × Consumes (I.left input.old) (I.left input.new) taken
        × IsRead taken (I.left input.new) result }
    ensures ended { OnOk result (I.ended input.new ≡ true) }
    ensures fault { result ≡ Err errors.InputFault
        → Rose (I.faults input.old) (I.faults input.new) }
    ensures still { result ≢ Err errors.InputFault → I.faults input.new ≡ I.faults input.old }
    ensures only { result ≢ Err errors.OutputFault }
{
    let text = read_whole(alloc, input)?;
    Ok(read_capture(alloc, &text)?)
}

/// Reads a capture from `input` to its end, as [`read_capture`] does, and replays it, as [`replay`]
/// does.
///
/// # Errors
/// Where no life began: `InputTooLong` exactly where the input has more than 67,108,864 bytes,
/// before `CaptureRefused`, exactly as [`read_capture`] refuses the text; `InputFault` only where
/// the source's count of faults rose. `OutputFault` only where that of the sink rose. `NoMemory`
/// for want of memory.
pub fn replay_input<I: Source, O: Sink>(
    alloc: Global,
    input: &mut I,
    out: &mut O,
    taps: &mut Vec<Box<dyn Tap>>,
) -> Result<(), ReplayError>
    requires { I.ended input.old ≡ false }
    ensures replays { (taken : List ℕ) × Consumes (I.left input.old) (I.left input.new) taken
        × Replayed (state_by has_failed entries tally counts_all refused) taken (I.left input.new)
        taps.old.items taps.new.items result (O.bytes out.old) (O.bytes out.new) }
    ensures ended { OnOk result (I.ended input.new ≡ true) }
    ensures input_fault { result ≡ Err errors.InputFault
        → Rose (I.faults input.old) (I.faults input.new) }
    ensures input_still { result ≢ Err errors.InputFault
        → I.faults input.new ≡ I.faults input.old }
    ensures output_fault { result ≡ Err errors.OutputFault
        → Rose (O.faults out.old) (O.faults out.new) }
    ensures output_still { result ≢ Err errors.OutputFault
        → O.faults out.new ≡ O.faults out.old }
{
    let capture = capture(alloc, input)?;
    Ok(replay(alloc, &capture, out, taps)?)
}
