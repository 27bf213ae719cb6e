//! A side's turn in a round: its poll, what came, and its tick.

ghost use Rattle.std.specs.Prelude.{◌≡◌, ◌≤◌, ◌<◌, ℕ, List, [], ◌∷◌, length, map, is_some, true};
ghost use Rattle.std.specs.Prelude.{IfOk, OnOk};
ghost use Rattle.frame_grammar.specs.Cut.{Piece};
ghost use Rattle.frame_grammar.specs.Frame.{IsBody};
ghost use Rattle.frame_grammar.specs.Framer.{StandsFor};
ghost use Rattle.frame_grammar.specs.Held.{room};
ghost use Rattle.frame_grammar.specs.declared.framer.TheConstants.{LEAST_ROOM};
ghost use Rattle.event_decisions.specs.Event.{Frame};
ghost use Rattle.wires.specs.Told.{Keeps};
ghost use Rattle.wires.specs.declared.wire.TheConstants.{POLL_LEN};
ghost use Rattle.wires.specs.Wire.{Poll, Nothing, Fits, came_of, may_come};
ghost use Rattle.life_laws.specs.Happens.{up_on};
ghost use Rattle.life_laws.specs.Turn.{on_side, with_up, up_after, events_of};
ghost use Rattle.wire_sends.specs.Sent.{Agrees};
ghost use Rattle.gateway_life.specs.Ready.{Ready, world_of};
ghost use Rattle.gateway_life.specs.State.{seen};
ghost use Rattle.gateway_life.specs.Stepped.{Grew, records};
ghost use Rattle.gateway_life.specs.Dealt.{Dealt, TurnOver, around};
ghost use Rattle.gateway_life.specs.Turned.{IsDrained, Took, Arrived, record_on, polls_after};
ghost use Rattle.drop_taps.specs.Shown.{state_by};

use crate::LifeEnd;
use crate::engine::Engine;
use drop_taps::Tap;
use frame_grammar::{Framer, Next};
use gateway_core::Event;
use order_meaning::Side;
use outside::{Disk, Failed};
use pair_entries::MAX_AT;
use wires::{Arrival, Wire};

// Whether a connection stands on a side.
fn is_up(engine: &Engine, side: Side) -> bool
    ensures { result ≡ up_on side (world_of (seen engine.now)) }
{
    match side {
        Side::Client => engine.client_up,
        Side::Venue => engine.venue_up,
    }
}

// Deals with a frame, while its connection stands.
fn frame_event<D: Disk, C: Wire, V: Wire>(
    engine: &mut Engine,
    disk: &mut D,
    client: &mut C,
    venue: &mut V,
    taps: &mut Vec<Box<dyn Tap>>,
    side: Side,
    body: &[u8],
    now: u64,
) -> Result<(), LifeEnd>
    requires ready { Ready (seen engine.old) (D.bytes disk.old)
        (C.recorded client.old) (V.recorded venue.old) }
    requires moment { now ≤ MAX_AT }
    requires body { IsBody body.now }
    ensures dealt { Dealt (state_by has_failed entries tally counts_all refused) taps.old.items
        taps.new.items
        (around (seen engine.old) (D.bytes disk.old) (D.image disk.old) (D.faults disk.old)
        (C.recorded client.old) (V.recorded venue.old))
        (around (seen engine.new) (D.bytes disk.new) (D.image disk.new) (D.faults disk.new)
        (C.recorded client.new) (V.recorded venue.new)) (Frame side body.now ∷ []) now result }
    ensures client_polls { C.polls client.new ≡ C.polls client.old }
    ensures venue_polls { V.polls venue.new ≡ V.polls venue.old }
    ensures client_plays { Keeps (C.plays client.old) (C.plays client.new) }
    ensures venue_plays { Keeps (V.plays venue.old) (V.plays venue.new) }
{
    if !is_up(engine, side) {
        return Ok(());
    }
    engine.event(disk, client, venue, taps, &Event::Frame(side, body), now)
}

// Deals with each whole frame that came, in order.
fn take_frames<D: Disk, C: Wire, V: Wire>(
    engine: &mut Engine,
    disk: &mut D,
    client: &mut C,
    venue: &mut V,
    taps: &mut Vec<Box<dyn Tap>>,
    framer: &mut Framer,
    side: Side,
    now: u64,
) -> Result<(), LifeEnd>
    requires ready { Ready (seen engine.old) (D.bytes disk.old)
        (C.recorded client.old) (V.recorded venue.old) }
    requires moment { now ≤ MAX_AT }
    requires stands { (stream : List ℕ) × (answered : List Piece)
        × StandsFor framer.old stream answered }
    ensures kind { framer.new.kind ≡ framer.old.kind }
    ensures stands { OnOk result ((stream : List ℕ) × (answered : List Piece)
        × StandsFor framer.new stream answered) }
    ensures room { OnOk result (LEAST_ROOM ≤ room framer.new) }
    ensures dealt { (bodies : List (List ℕ)) × Took framer.old framer.new bodies result
        × Dealt (state_by has_failed entries tally counts_all refused) taps.old.items
        taps.new.items
        (around (seen engine.old) (D.bytes disk.old) (D.image disk.old) (D.faults disk.old)
        (C.recorded client.old) (V.recorded venue.old))
        (around (seen engine.new) (D.bytes disk.new) (D.image disk.new) (D.faults disk.new)
        (C.recorded client.new) (V.recorded venue.new)) (map (Frame side) bodies) now result }
    ensures client_polls { C.polls client.new ≡ C.polls client.old }
    ensures venue_polls { V.polls venue.new ≡ V.polls venue.old }
    ensures client_plays { Keeps (C.plays client.old) (C.plays client.new) }
    ensures venue_plays { Keeps (V.plays venue.old) (V.plays venue.new) }
{
    'frames: loop {
        match framer.next() {
            Next::More => return Ok(()),
            Next::Garbled { .. } => {}
            Next::Frame { body, .. } => frame_event(
                engine,
                disk,
                client,
                venue,
                taps,
                side,
                framer.part(body),
                now,
            )?,
        }
    }
}

// Deals with what a poll of a side found. The engine knows already whether the connection stands.
fn arrived<D: Disk, C: Wire, V: Wire>(
    engine: &mut Engine,
    disk: &mut D,
    client: &mut C,
    venue: &mut V,
    taps: &mut Vec<Box<dyn Tap>>,
    framer: &mut Framer,
    side: Side,
    found: Result<Arrival, Failed>,
    buf: &[u8],
    now: u64,
) -> Result<(), LifeEnd>
    requires ready { Ready (seen engine.old) (D.bytes disk.old)
        (C.recorded client.old) (V.recorded venue.old) }
    requires moment { now ≤ MAX_AT }
    requires fits { IfOk found (λ arrived. Fits arrived buf.now) }
    requires short { length buf.now ≤ LEAST_ROOM }
    requires drained { IsDrained side framer.old }
    ensures drained { OnOk result (IsDrained side framer.new) }
    ensures dealt { (bodies : List (List ℕ))
        × Arrived side framer.old framer.new (came_of found buf.now) bodies result
        × Dealt (state_by has_failed entries tally counts_all refused) taps.old.items
        taps.new.items
        (around (seen engine.old) (D.bytes disk.old) (D.image disk.old) (D.faults disk.old)
        (C.recorded client.old) (V.recorded venue.old))
        (around (seen engine.new) (D.bytes disk.new) (D.image disk.new) (D.faults disk.new)
        (C.recorded client.new) (V.recorded venue.new))
        (events_of side (came_of found buf.now) bodies) now result }
    ensures client_polls { C.polls client.new ≡ C.polls client.old }
    ensures venue_polls { V.polls venue.new ≡ V.polls venue.old }
    ensures client_plays { Keeps (C.plays client.old) (C.plays client.new) }
    ensures venue_plays { Keeps (V.plays venue.old) (V.plays venue.new) }
{
    let arrival = match found {
        Ok(arrival) => arrival,
        Err(_) => return engine.event(disk, client, venue, taps, &Event::Closed(side), now),
    };
    match arrival {
        Arrival::Nothing => Ok(()),
        Arrival::Opened => {
            framer.restart();
            engine.event(disk, client, venue, taps, &Event::Opened(side), now)
        }
        Arrival::Bytes(count) => {
            framer.feed(&buf[..count]);
            take_frames(engine, disk, client, venue, taps, framer, side, now)
        }
        Arrival::Closed => engine.event(disk, client, venue, taps, &Event::Closed(side), now),
    }
}

// Whether a connection stands after a poll.
fn up_after(up: bool, found: Result<Arrival, Failed>) -> bool
    ensures { (buf : List ℕ) → result ≡ up_after up (came_of found buf) }
{
    match found {
        Ok(arrival) => match arrival {
            Arrival::Opened => true,
            Arrival::Closed => false,
            Arrival::Nothing | Arrival::Bytes(_) => up,
        },
        Err(_) => false,
    }
}

// Whether a poll found nothing.
fn is_nothing(found: Result<Arrival, Failed>) -> bool
    ensures { result ≡ true → (buf : List ℕ) → came_of found buf ≡ Nothing }
{
    matches!(found, Ok(Arrival::Nothing))
}

// Looks for what is new from a side.
fn poll<C: Wire, V: Wire>(
    engine: &mut Engine,
    client: &mut C,
    venue: &mut V,
    side: Side,
    buf: &mut [u8],
) -> Result<Arrival, Failed>
    requires room { length buf.old ≡ POLL_LEN }
    requires client_agrees { Agrees (C.recorded client.old) engine.old.client_up }
    requires venue_agrees { Agrees (V.recorded venue.old) engine.old.venue_up }
    ensures fits { IfOk result (λ arrival. Fits arrival buf.new) }
    ensures same { (engine.new.journal ≡ engine.old.journal) × (engine.new.core ≡ engine.old.core) }
    ensures world { world_of (seen engine.new) ≡ with_up side
        (up_after (up_on side (world_of (seen engine.old))) (came_of result buf.new))
        (world_of (seen engine.old)) }
    ensures grew { Grew (records (C.recorded client.old) (V.recorded venue.old))
        (records (C.recorded client.new) (V.recorded venue.new))
        (on_side side (Poll (came_of result buf.new) ∷ [])) }
    ensures may { is_some (record_on side (records (C.recorded client.old)
        (V.recorded venue.old))) ≡ true →
        may_come (up_on side (world_of (seen engine.old))) (came_of result buf.new) ≡ true }
    ensures client_agrees { Agrees (C.recorded client.new) engine.new.client_up }
    ensures venue_agrees { Agrees (V.recorded venue.new) engine.new.venue_up }
    ensures client_polls { C.polls client.new
        ≡ polls_after Side.Client side (C.polls client.old) }
    ensures venue_polls { V.polls venue.new ≡ polls_after Side.Venue side (V.polls venue.old) }
    ensures client_plays { Keeps (C.plays client.old) (C.plays client.new) }
    ensures venue_plays { Keeps (V.plays venue.old) (V.plays venue.new) }
{
    match side {
        Side::Client => {
            let found = client.poll(buf);
            engine.client_up = up_after(engine.client_up, found);
            found
        }
        Side::Venue => {
            let found = venue.poll(buf);
            engine.venue_up = up_after(engine.venue_up, found);
            found
        }
    }
}

/// A side's turn. Its poll fills `buf`.
pub(crate) fn turn<D: Disk, C: Wire, V: Wire>(
    engine: &mut Engine,
    disk: &mut D,
    client: &mut C,
    venue: &mut V,
    taps: &mut Vec<Box<dyn Tap>>,
    framer: &mut Framer,
    side: Side,
    buf: &mut [u8],
    now: u64,
) -> Result<(), LifeEnd>
    requires ready { Ready (seen engine.old) (D.bytes disk.old)
        (C.recorded client.old) (V.recorded venue.old) }
    requires moment { now ≤ MAX_AT }
    requires drained { IsDrained side framer.old }
    requires room { length buf.old ≡ POLL_LEN }
    ensures turn { TurnOver (state_by has_failed entries tally counts_all refused) taps.old.items
        taps.new.items
        (around (seen engine.old) (D.bytes disk.old) (D.image disk.old) (D.faults disk.old)
        (C.recorded client.old) (V.recorded venue.old))
        (around (seen engine.new) (D.bytes disk.new) (D.image disk.new) (D.faults disk.new)
        (C.recorded client.new) (V.recorded venue.new)) side framer.old framer.new now
        result }
    ensures drained { OnOk result (IsDrained side framer.new) }
    ensures client_polls { C.polls client.new
        ≡ polls_after Side.Client side (C.polls client.old) }
    ensures venue_polls { V.polls venue.new ≡ polls_after Side.Venue side (V.polls venue.old) }
    ensures client_plays { Keeps (C.plays client.old) (C.plays client.new) }
    ensures venue_plays { Keeps (V.plays venue.old) (V.plays venue.new) }
{
    let found = poll(engine, client, venue, side, &mut *buf);
    if is_nothing(found) && engine.rests(side, now) {
        return Ok(());
    }
    arrived(
        engine, disk, client, venue, taps, framer, side, found, buf, now,
    )?;
    engine.tick(disk, client, venue, taps, side, now)
}
