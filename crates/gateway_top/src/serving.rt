//! The configuration is read, and then the gateway lives.

ghost use Rattle.std.specs.Prelude.{◌≡◌, ◌≢◌, List, ℕ, Ok, Err, OnOk, OnErr, IfOk, false, true};
ghost use Rattle.std.specs.Option.{ForSome};
ghost use Rattle.std.specs.Io.KnownBytes.{Consumes};
ghost use Rattle.outside.specs.Causes.{Rose};
ghost use Rattle.wires.specs.Wire.{is_within};
ghost use Rattle.gateway_life.specs.Stepped.{HasCauseOf};
ghost use Rattle.gateway_life.specs.Life.{ended};
ghost use Rattle.drop_taps.specs.Shown.{state_by};
ghost use Rattle.gateway_life.specs.Watched.{TapsSaw};
ghost use Rattle.gateway_top.specs.declared.serve_error.ServeError.TheVariants as errors;
ghost use Rattle.gateway_life.specs.Lived.{Lived, told};
ghost use Rattle.gateway_top.specs.Serve.{IsConfigured, Served};

use crate::serve_error::ServeError;
use drop_taps::Tap;
use gateway_config::{Config, read_config};
use gateway_life::laws::read_names_are_shown;
use gateway_life::{LifeEnd, live};
use outside::{Disk, Source};
use std::alloc::Global;
use whole_input::read_whole;
use wires::{Clock, Wire};

/// The configuration that an input is read as.
fn configuration<I: Source>(alloc: Global, input: &mut I) -> Result<Config, ServeError>
    requires { I.ended input.old ≡ false }
    ensures read { (taken : List ℕ) × Consumes (I.left input.old) (I.left input.new) taken
        × IsConfigured taken (I.left input.new) result }
    ensures ended { OnOk result (I.ended input.new ≡ true) }
    ensures fault { result ≡ Err errors.InputFault
        → Rose (I.faults input.old) (I.faults input.new) }
    ensures still { result ≢ Err errors.InputFault → I.faults input.new ≡ I.faults input.old }
{
    let text = read_whole(alloc, input)?;
    Ok(read_config(alloc, &text)?)
}

/// Reads the configuration, a TOML text, from `input` to its end, and lives with it for so many
/// rounds over the disk and both wires. No wire is within a connection.
///
/// # Errors
/// Where the gateway did not begin to live: `InputTooLong` exactly where the input has more than
/// 67,108,864 bytes, before `ConfigRefused`, exactly as [`read_config`] refuses the text;
/// `InputFault` only where the source's count of faults rose; `NoMemory` for want of memory.
pub fn serve<I: Source, D: Disk, C: Wire, V: Wire, K: Clock>(
    alloc: Global,
    rounds: u64,
    input: &mut I,
    disk: &mut D,
    client: &mut C,
    venue: &mut V,
    clock: &mut K,
    taps: &mut Vec<Box<dyn Tap>>,
) -> Result<LifeEnd, ServeError>
    requires input { I.ended input.old ≡ false }
    requires client { ForSome (C.recorded client.old) (λ calls. is_within calls ≡ false) }
    requires venue { ForSome (V.recorded venue.old) (λ calls. is_within calls ≡ false) }
    // What was read as the configuration, and the life with it.
    ensures serves { (taken : List ℕ) × Consumes (I.left input.old) (I.left input.new) taken
        × Served taken (I.left input.new) result (λ config end. Lived end config rounds
        (D.image disk.old) (D.image disk.new)
        (told (D.bytes disk.old) (C.recorded client.old) (V.recorded venue.old)
        (K.moments clock.old) (C.polls client.old) (V.polls venue.old))
        (told (D.bytes disk.new) (C.recorded client.new) (V.recorded venue.new)
        (K.moments clock.new) (C.polls client.new) (V.polls venue.new))
        × TapsSaw (state_by has_failed entries tally counts_all refused) taps.old.items
        taps.new.items config.names (D.bytes disk.old) (D.image disk.old) (D.image disk.new) end) }
    ensures ended { OnOk result (I.ended input.new ≡ true) }
    ensures disk { OnErr result (disk.new ≡ disk.old) }
    ensures client { OnErr result (client.new ≡ client.old) }
    ensures venue { OnErr result (venue.new ≡ venue.old) }
    ensures clock { OnErr result (clock.new ≡ clock.old) }
    ensures taps { OnErr result (taps.new ≡ taps.old) }
    ensures input_fault { result ≡ Err errors.InputFault
        → Rose (I.faults input.old) (I.faults input.new) }
    ensures input_still { result ≢ Err errors.InputFault
        → I.faults input.new ≡ I.faults input.old }
    ensures disk_cause { IfOk result (λ end.
        HasCauseOf (D.faults disk.old) (D.faults disk.new) (ended end)) }
{
    let config = configuration(alloc, input)?;
    read_names_are_shown();
    Ok(live(alloc, &config, disk, client, venue, clock, taps, rounds))
}
