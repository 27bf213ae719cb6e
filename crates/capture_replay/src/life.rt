//! One life of a capture.

ghost use Rattle.std.specs.Prelude.{◌≡◌, List, All, IfOk, IfErr, Some};
ghost use Rattle.pair_entries.specs.declared.entry.Entry.{Entry};
ghost use Rattle.drop_taps.specs.Shown.{HaveSeen, state_by};
ghost use Rattle.capture_text.specs.Line.{IsBounded};
ghost use Rattle.gateway_life.specs.Life.{IsJournal};
ghost use Rattle.capture_replay.specs.Replay.{WereAdded};
ghost use Rattle.capture_replay.specs.Lived.{LivesOn};

use crate::clock::LifeClock;
use crate::rounds::rounds_of;
use crate::stops::{disk_of, image_of, may_end};
use crate::wire::LifeWire;
use capture_text::Life;
use drop_taps::Tap;
use gateway_config::Config;
use gateway_life::{LifeEnd, live};
use order_meaning::Side;
use pair_journal::laws::an_image_has_one_reading;
use replay_lines::CallLog;
use std::alloc::{AllocError, Global};

/// A life that was lived: what was done on its wires, how it ended, and what it left on the disk.
#[derive(Drop)]
pub(crate) struct Lived {
    /// The calls on the client's wire.
    pub(crate) client: CallLog,
    /// The calls on the venue's wire.
    pub(crate) venue: CallLog,
    /// How it ended.
    pub(crate) end: LifeEnd,
    /// The bytes of the disk, as its stop leaves them.
    pub(crate) image: Vec<u8>,
}

/// Lives a life of a capture over a disk of these bytes, up to its stop; the clock says this moment
/// before the first that a line tells.
///
/// # Errors
/// `AllocError` where memory was refused to the life or to a form in memory.
pub(crate) fn live_lines(
    alloc: Global,
    config: &Config,
    life: &Life,
    from: u64,
    image: Vec<u8>,
    taps: &mut Vec<Box<dyn Tap>>,
) -> Result<Lived, AllocError>
    requires bounded { All IsBounded life.now }
    ensures lived { IfOk result (λ lived. LivesOn
        (state_by has_failed entries tally counts_all refused) config.now life.now from image.items
        taps.old.items taps.new.items (Some lived.client) (Some lived.venue) lived.end
        lived.image.items) }
    ensures taps { (more : List Entry) × HaveSeen
        (state_by has_failed entries tally counts_all refused) taps.old.items taps.new.items more
        × ((before : List Entry) → IsJournal config.now.names before image.items
        → WereAdded config.now.names before more) }
{
    an_image_has_one_reading();
    let rounds = rounds_of(life);
    let mut client = LifeWire::new(alloc, Side::Client, life);
    let mut venue = LifeWire::new(alloc, Side::Venue, life);
    let mut clock = LifeClock::new(from, life);
    let stop = life.stop();
    let mut disk = disk_of(alloc, stop, image);
    let end = live(
        alloc,
        config,
        &mut disk,
        &mut client,
        &mut venue,
        &mut clock,
        taps,
        rounds,
    );
    let (client, venue) = (client.into_calls(), venue.into_calls());
    if disk.refused() || !clock.is_told() || !may_end(stop, &end) {
        return Err(AllocError);
    }
    let Some(client) = client else {
        return Err(AllocError);
    };
    let Some(venue) = venue else {
        return Err(AllocError);
    };
    let image = disk.into_image(image_of(stop))?;
    Ok(Lived {
        client,
        venue,
        end,
        image,
    })
}
