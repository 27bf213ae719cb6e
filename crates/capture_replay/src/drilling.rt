//! A drill: a day that is made from two numbers, and lived.

ghost use Rattle.std.specs.Prelude.{◌≡◌, ◌≢◌, ◌≤◌, Err};
ghost use Rattle.outside.specs.Causes.{Rose};
ghost use Rattle.drop_taps.specs.Shown.{state_by};
ghost use Rattle.replay_lines.specs.declared.printing.PrintError.TheVariants as errors;
ghost use Rattle.capture_replay.specs.Drills.{Drills};

use crate::config::config_of;
use crate::ends::end_name;
use crate::last::left_by;
use crate::life::live_lines;
use drill_day::drill_day;
use drop_taps::Tap;
use gateway_life::laws::lives_follow;
use outside::Sink;
use replay_lines::{PlayedDrill, PrintError, put_drill};
use std::alloc::Global;

/// Makes the day of a drill, of `count` orders, from 1 to 10,000, drawn from `first` on, from 0 to
/// 65,536; lives it over an unborn disk in memory; and puts its summary, in one put. The same two
/// numbers put the same.
///
/// # Errors
/// `OutputFault` only where the sink's count of faults rose in this call; then a front of the lines
/// was put. `NoMemory` for want of memory, of the gateway or of a form in memory; then nothing was.
pub fn drill<O: Sink>(
    alloc: Global,
    first: u64,
    count: u32,
    out: &mut O,
    taps: &mut Vec<Box<dyn Tap>>,
) -> Result<(), PrintError>
    requires first { first ≤ 65536 }
    requires count { (1 ≤ count) × (count ≤ 10000) }
    ensures drills { Drills (state_by has_failed entries tally counts_all refused) first count
        taps.old.items taps.new.items result (O.bytes out.old) (O.bytes out.new) }
    ensures fault { result ≡ Err errors.OutputFault →
        Rose (O.faults out.old) (O.faults out.new) }
    ensures still { result ≢ Err errors.OutputFault → O.faults out.new ≡ O.faults out.old }
{
    lives_follow();
    let day = drill_day(alloc, first, count)?;
    let config = config_of(day.names, day.heart, None);
    let lived = live_lines(alloc, &config, &day.life, 0, Vec::new(alloc), taps)?;
    let end = end_name(&lived.end);
    let (entries, next) = left_by(alloc, lived.image)?;
    let kinds = day.kinds;
    let drill = PlayedDrill {
        first,
        count,
        kinds: (kinds.filled, kinds.busted, kinds.corrected, kinds.rejected),
        end,
        entries,
        next,
    };
    put_drill(alloc, out, &drill)
}
