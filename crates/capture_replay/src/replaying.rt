//! The lives of a capture, one after another.

ghost use Rattle.std.specs.Prelude.{◌≡◌, ◌≢◌, [], Err};
ghost use Rattle.outside.specs.Causes.{Rose};
ghost use Rattle.capture_text.specs.Capture.{IsCapture};
ghost use Rattle.drop_taps.specs.Shown.{state_by};
ghost use Rattle.replay_lines.specs.declared.printing.PrintError.TheVariants as errors;
ghost use Rattle.capture_replay.specs.Replay.{Replays};

use crate::config::config_of;
use crate::ends::end_name;
use crate::last::left_by;
use crate::life::live_lines;
use crate::rounds::moment_after;
use capture_text::Capture;
use drop_taps::Tap;
use gateway_life::laws::lives_follow;
use outside::Sink;
use replay_lines::{PlayedLife, PrintError, put_last, put_life};
use std::alloc::Global;

/// For how many bytes an unborn disk has room: the journal of a capture of 67,108,864 bytes.
const ROOM: usize = 134_217_728;

/// The bytes of an unborn disk. They have room for a journal, so that it does not move as it grows;
/// a refusal does no harm.
fn unborn(alloc: Global) -> Vec<u8>
    ensures { result.items ≡ [] }
{
    let mut image = Vec::new(alloc);
    let _ = image.reserve(ROOM);
    image
}

/// Lives the lives of a capture one after another over a disk in memory, the first over an unborn
/// one. Each side's wire gives what the lines of that side say, round by round, and the clock says
/// the moments of the `at` lines; it runs on from life to life, from 0 at the first. A life with a
/// stop ends at it by a disk fault, and the next one begins with the image that it leaves. The
/// lines of a life are put when it has ended, and at last those of the journal that is left.
///
/// # Errors
/// `OutputFault` only where the sink's count of faults rose in this call; `NoMemory` for want of
/// memory, of the gateway or of a form in memory. What was put is then a front of the lines.
pub fn replay<O: Sink>(
    alloc: Global,
    capture: &Capture,
    out: &mut O,
    taps: &mut Vec<Box<dyn Tap>>,
) -> Result<(), PrintError>
    requires { IsCapture capture.now }
    ensures replays { Replays (state_by has_failed entries tally counts_all refused) capture.now
        taps.old.items taps.new.items result (O.bytes out.old) (O.bytes out.new) }
    ensures fault { result ≡ Err errors.OutputFault →
        Rose (O.faults out.old) (O.faults out.new) }
    ensures still { result ≢ Err errors.OutputFault → O.faults out.new ≡ O.faults out.old }
{
    lives_follow();
    let config = config_of(capture.names, capture.heart, capture.reset);
    let mut image = unborn(alloc);
    let mut moment = 0;
    for (index, lines) in capture.lives.as_slice().iter().enumerate() {
        let lived = live_lines(alloc, &config, lines, moment, image, taps)?;
        let life = PlayedLife {
            number: index as u64 + 1,
            client: &lived.client,
            venue: &lived.venue,
            end: end_name(&lived.end),
        };
        put_life(alloc, out, &life)?;
        image = lived.image;
        moment = moment_after(moment, lines);
    }
    let (entries, next) = left_by(alloc, image)?;
    put_last(alloc, out, entries, next)
}
