//! A whole life, and its parts.

ghost use Rattle.std.specs.Prelude.{◌≡◌, ◌⊎◌, ◌≤◌, ◌++◌, ℕ, List, false, IfOk, IfErr};
ghost use Rattle.std.specs.Prelude.{IfSome, OnOk, OnErr, None, is_some, [], ◌∷◌, length};
ghost use Rattle.std.specs.Option.{ForSome};
ghost use Rattle.outside.specs.Causes.{next_count};
ghost use Rattle.outside.specs.Disk.{HasOneImage};
ghost use Rattle.wires.specs.Told.{GrowsBy, Keeps};
ghost use Rattle.wires.specs.Wire.{is_within};
ghost use Rattle.pair_journal.specs.Calls.{BornOrNot};
ghost use Rattle.kept_entries.specs.Days.{last_day, past_of};
ghost use Rattle.pair_journal.specs.Journal.{JournalOf, Unborn};
ghost use Rattle.wire_sends.specs.Sent.{Agrees};
ghost use Rattle.gateway_life.specs.Stepped.{HasCauseOf, AllStepped, Failed, records};
ghost use Rattle.gateway_life.specs.Dealt.{Kept, around};
ghost use Rattle.gateway_life.specs.Life.{ended, counted_on, begun, moment_of, IfRefused};
ghost use Rattle.gateway_life.specs.Life.{IsForeign};
ghost use Rattle.gateway_life.specs.Lived.{Lived, told};
ghost use Rattle.gate_log.specs.Log.{OnlyReads};
ghost use Rattle.gateway_life.specs.Ready.{Behind, LeavesOf, IfTold, world_of};
ghost use Rattle.gateway_life.specs.Rounds.{IsLive, RoundOver, RoundFails, ends_of, Begins};
ghost use Rattle.gateway_life.specs.Rounds.{LifeDone, LifeBroken, LifeWhole, LifeStopped};
ghost use Rattle.gateway_life.specs.Stepped.{EndsEvent, IsNotDone};
ghost use Rattle.drop_taps.specs.Shown.{state_by};
ghost use Rattle.gateway_life.specs.Watched.{Watched, WereCommitted, TapsSaw, end_in};
ghost use Rattle.gateway_life.specs.Causes.{IsCauseIn, HasJournalCause};
ghost use Rattle.gateway_life.specs.Rounds.{IsUnbegun, IsUntouched};

use crate::LifeEnd;
use crate::engine::Engine;
use crate::laws::lives_leave;
use crate::turn::turn;
use drop_taps::Tap;
use frame_grammar::{Framer, Kind};
use gateway_config::Config;
use order_meaning::Side;
use outside::Disk;
use pair_entries::MAX_AT;
use pair_journal::laws::an_image_has_one_reading;
use std::alloc::Global;
use std::marker::Model;
use wires::{Clock, POLL_LEN, Wire};

/// One life of the gateway, between its rounds.
#[derive(Drop)]
pub struct Life {
    engine: Engine,
    client: Framer,
    venue: Framer,
    // What a poll fills.
    buf: [u8; POLL_LEN],
}

impl Model for Life {
    ghost use Rattle.gateway_life.specs.State.{LifeState, seen};

    ghost Value = { LifeState };

    ghost view = { λ l. record { engine = seen l.engine; client = l.client; venue = l.venue } };
}

// The present moment; one that no timestamp has counts as the last that has one.
fn moment<K: Clock>(clock: &mut K) -> u64
    ensures bound { result ≤ MAX_AT }
    ensures given { (m : ℕ) × (result ≡ moment_of m)
        × GrowsBy (K.moments clock.old) (K.moments clock.new) (m ∷ []) }
    ensures follows { Keeps (K.follows clock.old) (K.follows clock.new) }
{
    clock.now().min(MAX_AT)
}

impl Life {
    /// A life over the journal on a disk: both sessions are down, with its next numbers, and no
    /// connection stands. An unborn disk becomes a journal without entries.
    ///
    /// # Errors
    ///
    /// `JournalRefused` exactly where the bytes are refused at that place, `NamesDiffer` exactly
    /// where they are a journal of other names than the configuration's, `DiskFault` only where the
    /// disk's count of faults rose, `NoMemory` for want of memory.
    pub fn begin<D: Disk>(alloc: Global, config: &Config, disk: &mut D) -> Result<Life, LifeEnd>
        ensures live { IfOk result (λ life. IsLive life (D.bytes disk.new) None None) }
        ensures begun { IfOk result (λ life.
            world_of life.engine
            ≡ begun config.now (last_day life.engine.journal.entries)) }
        ensures config { IfOk result (λ life. life.engine.core.config ≡ config.now) }
        ensures begins { IfSome (D.bytes disk.old) (λ b.
            Begins (λ life. life.engine.journal.entries) config.now.names b result) }
        ensures durable { OnOk result (HasOneImage (D.bytes disk.old) (D.image disk.old) →
            HasOneImage (D.bytes disk.new) (D.image disk.new)) }
        ensures images { BornOrNot (D.bytes disk.old) (D.image disk.old) (D.image disk.new)
            config.now.names }
        ensures only_unborn_is_written { IfSome (D.bytes disk.old) (λ b.
            JournalOf b Unborn ⊎ OnlyReads D.bytes D.image disk.old disk.new) }
        ensures refused_only_reads { IfErr result (λ end.
            IfRefused end (OnlyReads D.bytes D.image disk.old disk.new)) }
        ensures only { IfErr result IsNotDone }
        ensures told { is_some (D.bytes disk.new) ≡ is_some (D.bytes disk.old) }
        ensures cause { HasCauseOf (D.faults disk.old) (D.faults disk.new) result }
    {
        let client = Framer::new(alloc, Kind::Fix42)?;
        let venue = Framer::new(alloc, Kind::Fixt11)?;
        let engine = Engine::new(alloc, config, disk)?;
        Ok(Life {
            engine,
            client,
            venue,
            buf: [0; POLL_LEN],
        })
    }

    /// A round: the clock is read once; where a new session day is due, both sides end and it
    /// begins; the client is polled, what came is dealt with, and then its tick; and the same of
    /// the venue.
    ///
    /// # Errors
    ///
    /// `JournalFull` exactly where a record would end past the last byte of a disk, `NumbersSpent`
    /// exactly where an event would take a number of that side past 999,999,999, `JournalRefused`
    /// only over a disk that does not tell its bytes, where a record that is read again is none,
    /// `DiskFault` only where the disk's count of faults rose, `NoMemory` for want of memory. Then
    /// the life has ended, and no call is made on it any more.
    pub fn round<D: Disk, C: Wire, V: Wire, K: Clock>(
        &mut self,
        disk: &mut D,
        client: &mut C,
        venue: &mut V,
        clock: &mut K,
        taps: &mut Vec<Box<dyn Tap>>,
    ) -> Result<(), LifeEnd>
        requires live { IsLive self.old (D.bytes disk.old)
            (C.recorded client.old) (V.recorded venue.old) }
        ensures config { self.new.engine.core.config ≡ self.old.engine.core.config }
        ensures live { OnOk result (IsLive self.new (D.bytes disk.new)
            (C.recorded client.new) (V.recorded venue.new)) }
        ensures round { OnOk result ((m : ℕ)
            × GrowsBy (K.moments clock.old) (K.moments clock.new) (m ∷ [])
            × IfTold (D.bytes disk.old)
            (RoundOver self.old.engine.core.config self.old self.new (moment_of m)
            (records (C.recorded client.old) (V.recorded venue.old))
            (records (C.recorded client.new) (V.recorded venue.new)))) }
        ensures ends { IfErr result (λ end. (m : ℕ)
            × GrowsBy (K.moments clock.old) (K.moments clock.new) (m ∷ [])
            × LeavesOf (D.bytes disk.old) (D.image disk.old) (D.image disk.new)
            self.old.engine.core.config.names (RoundFails end self.old.engine.core.config self.old
            (moment_of m) (records (C.recorded client.old) (V.recorded venue.old))
            (records (C.recorded client.new) (V.recorded venue.new)))) }
        ensures client_polls { OnOk result
            (C.polls client.new ≡ next_count (C.polls client.old)) }
        ensures venue_polls { OnOk result (V.polls venue.new ≡ next_count (V.polls venue.old)) }
        ensures client_plays { Keeps (C.plays client.old) (C.plays client.new) }
        ensures venue_plays { Keeps (V.plays venue.old) (V.plays venue.new) }
        ensures follows { Keeps (K.follows clock.old) (K.follows clock.new) }
        ensures durable { OnOk result (HasOneImage (D.bytes disk.old) (D.image disk.old) →
            HasOneImage (D.bytes disk.new) (D.image disk.new)) }
        ensures taps { Watched (state_by has_failed entries tally counts_all refused)
            taps.old.items taps.new.items self.old.engine.journal.entries
            self.new.engine.journal.entries }
        ensures kept { IfErr result (λ end. LeavesOf (D.bytes disk.old) (D.image disk.old)
            (D.image disk.new) self.old.engine.core.config.names
            (WereCommitted end self.new.engine.journal.entries)) }
        ensures only { IfErr result (EndsEvent (D.bytes disk.old)) }
        ensures journal_cause { IfErr result (λ end. IsCauseIn end self.new.engine) }
        ensures told { is_some (D.bytes disk.new) ≡ is_some (D.bytes disk.old) }
        ensures cause { HasCauseOf (D.faults disk.old) (D.faults disk.new) result }
    {
        self.round_over(disk, client, venue, clock, taps)
    }

    // A round; what it keeps is said as of each part of a life.
    fn round_over<D: Disk, C: Wire, V: Wire, K: Clock>(
        &mut self,
        disk: &mut D,
        client: &mut C,
        venue: &mut V,
        clock: &mut K,
        taps: &mut Vec<Box<dyn Tap>>,
    ) -> Result<(), LifeEnd>
        requires live { IsLive self.old (D.bytes disk.old)
            (C.recorded client.old) (V.recorded venue.old) }
        ensures kept { Kept (state_by has_failed entries tally counts_all refused) taps.old.items
            taps.new.items
            (around self.old.engine (D.bytes disk.old) (D.image disk.old) (D.faults disk.old)
            (C.recorded client.old) (V.recorded venue.old))
            (around self.new.engine (D.bytes disk.new) (D.image disk.new) (D.faults disk.new)
            (C.recorded client.new) (V.recorded venue.new)) result }
        ensures live { OnOk result (IsLive self.new (D.bytes disk.new)
            (C.recorded client.new) (V.recorded venue.new)) }
        ensures round { OnOk result ((m : ℕ)
            × GrowsBy (K.moments clock.old) (K.moments clock.new) (m ∷ [])
            × IfTold (D.bytes disk.old)
            (RoundOver self.old.engine.core.config self.old self.new (moment_of m)
            (records (C.recorded client.old) (V.recorded venue.old))
            (records (C.recorded client.new) (V.recorded venue.new)))) }
        ensures ends { IfErr result (λ end. (m : ℕ)
            × GrowsBy (K.moments clock.old) (K.moments clock.new) (m ∷ [])
            × LeavesOf (D.bytes disk.old) (D.image disk.old) (D.image disk.new)
            self.old.engine.core.config.names (RoundFails end self.old.engine.core.config self.old
            (moment_of m) (records (C.recorded client.old) (V.recorded venue.old))
            (records (C.recorded client.new) (V.recorded venue.new)))) }
        ensures client_polls { OnOk result
            (C.polls client.new ≡ next_count (C.polls client.old)) }
        ensures venue_polls { OnOk result (V.polls venue.new ≡ next_count (V.polls venue.old)) }
        ensures client_plays { Keeps (C.plays client.old) (C.plays client.new) }
        ensures venue_plays { Keeps (V.plays venue.old) (V.plays venue.new) }
        ensures follows { Keeps (K.follows clock.old) (K.follows clock.new) }
    {
        let now = moment(clock);
        self.engine.end_day(disk, client, venue, taps, now)?;
        turn(
            &mut self.engine,
            disk,
            client,
            venue,
            taps,
            &mut self.client,
            Side::Client,
            &mut self.buf,
            now,
        )?;
        turn(
            &mut self.engine,
            disk,
            client,
            venue,
            taps,
            &mut self.venue,
            Side::Venue,
            &mut self.buf,
            now,
        )
    }

    /// The end: the clock is read once, Logout is said on each active side, the client's first, and
    /// both connections are hung up.
    ///
    /// # Errors
    ///
    /// As those of [`Life::round`].
    pub fn finish<D: Disk, C: Wire, V: Wire, K: Clock>(
        &mut self,
        disk: &mut D,
        client: &mut C,
        venue: &mut V,
        clock: &mut K,
        taps: &mut Vec<Box<dyn Tap>>,
    ) -> Result<(), LifeEnd>
        requires live { IsLive self.old (D.bytes disk.old)
            (C.recorded client.old) (V.recorded venue.old) }
        ensures config { self.new.engine.core.config ≡ self.old.engine.core.config }
        ensures live { OnOk result (IsLive self.new (D.bytes disk.new)
            (C.recorded client.new) (V.recorded venue.new)) }
        ensures finish { OnOk result ((m : ℕ)
            × GrowsBy (K.moments clock.old) (K.moments clock.new) (m ∷ [])
            × IfTold (D.bytes disk.old) (AllStepped self.old.engine.core.config
            (world_of self.old.engine) ends_of (moment_of m) (world_of self.new.engine)
            (records (C.recorded client.old) (V.recorded venue.old))
            (records (C.recorded client.new) (V.recorded venue.new)))) }
        ensures ends { IfErr result (λ end. (m : ℕ)
            × GrowsBy (K.moments clock.old) (K.moments clock.new) (m ∷ [])
            × LeavesOf (D.bytes disk.old) (D.image disk.old) (D.image disk.new)
            self.old.engine.core.config.names (Behind (past_of self.old.engine.journal.entries)
            (Failed end self.old.engine.core.config (past_of self.old.engine.journal.entries)
            (world_of self.old.engine) ends_of (moment_of m)
            (records (C.recorded client.old) (V.recorded venue.old))
            (records (C.recorded client.new) (V.recorded venue.new))))) }
        ensures past { OnOk result (past_of self.new.engine.journal.entries
            ≡ past_of self.old.engine.journal.entries) }
        ensures client_polls { C.polls client.new ≡ C.polls client.old }
        ensures venue_polls { V.polls venue.new ≡ V.polls venue.old }
        ensures client_plays { Keeps (C.plays client.old) (C.plays client.new) }
        ensures venue_plays { Keeps (V.plays venue.old) (V.plays venue.new) }
        ensures follows { Keeps (K.follows clock.old) (K.follows clock.new) }
        ensures durable { OnOk result (HasOneImage (D.bytes disk.old) (D.image disk.old) →
            HasOneImage (D.bytes disk.new) (D.image disk.new)) }
        ensures taps { Watched (state_by has_failed entries tally counts_all refused)
            taps.old.items taps.new.items self.old.engine.journal.entries
            self.new.engine.journal.entries }
        ensures kept { IfErr result (λ end. LeavesOf (D.bytes disk.old) (D.image disk.old)
            (D.image disk.new) self.old.engine.core.config.names
            (WereCommitted end self.new.engine.journal.entries)) }
        ensures only { IfErr result (EndsEvent (D.bytes disk.old)) }
        ensures journal_cause { IfErr result (λ end. IsCauseIn end self.new.engine) }
        ensures told { is_some (D.bytes disk.new) ≡ is_some (D.bytes disk.old) }
        ensures cause { HasCauseOf (D.faults disk.old) (D.faults disk.new) result }
    {
        let now = moment(clock);
        self.engine.end_both(disk, client, venue, taps, now)
    }

    // So many rounds, and then the end.
    fn whole<D: Disk, C: Wire, V: Wire, K: Clock>(
        &mut self,
        disk: &mut D,
        client: &mut C,
        venue: &mut V,
        clock: &mut K,
        taps: &mut Vec<Box<dyn Tap>>,
        rounds: u64,
    ) -> Result<(), LifeEnd>
        requires live { IsLive self.old (D.bytes disk.old)
            (C.recorded client.old) (V.recorded venue.old) }
        ensures kept { Kept (state_by has_failed entries tally counts_all refused) taps.old.items
            taps.new.items
            (around self.old.engine (D.bytes disk.old) (D.image disk.old) (D.faults disk.old)
            (C.recorded client.old) (V.recorded venue.old))
            (around self.new.engine (D.bytes disk.new) (D.image disk.new) (D.faults disk.new)
            (C.recorded client.new) (V.recorded venue.new)) result }
        ensures done { OnOk result ((given : List ℕ) × (last : ℕ) × (length given ≡ rounds)
            × GrowsBy (K.moments clock.old) (K.moments clock.new) (given ++ last ∷ [])
            × IfTold (D.bytes disk.old) (LifeDone self.old.engine.core.config self.old given last
            (records (C.recorded client.old) (V.recorded venue.old))
            (records (C.recorded client.new) (V.recorded venue.new))
            self.new.engine.journal.entries)) }
        ensures ends { IfErr result (λ end. (given : List ℕ) × (last : ℕ)
            × (length given ≤ rounds)
            × GrowsBy (K.moments clock.old) (K.moments clock.new) (given ++ last ∷ [])
            × LeavesOf (D.bytes disk.old) (D.image disk.old) (D.image disk.new)
            self.old.engine.core.config.names (LifeBroken end self.old.engine.core.config self.old
            rounds given last (records (C.recorded client.old) (V.recorded venue.old))
            (records (C.recorded client.new) (V.recorded venue.new)))) }
        ensures client_polls { OnOk result
            (C.polls client.new ≡ counted_on rounds (C.polls client.old)) }
        ensures venue_polls { OnOk result
            (V.polls venue.new ≡ counted_on rounds (V.polls venue.old)) }
        ensures client_plays { Keeps (C.plays client.old) (C.plays client.new) }
        ensures venue_plays { Keeps (V.plays venue.old) (V.plays venue.new) }
        ensures follows { Keeps (K.follows clock.old) (K.follows clock.new) }
    {
        let mut left = rounds;
        'rounds: while left > 0 {
            self.round_over(disk, client, venue, clock, taps)?;
            left -= 1;
        }
        self.finish(disk, client, venue, clock, taps)
    }
}

// A life up to its end. Where an event ended it, the wires are as that event left them; where it
// did not begin, nothing was done on them.
fn lived<D: Disk, C: Wire, V: Wire, K: Clock>(
    alloc: Global,
    config: &Config,
    disk: &mut D,
    client: &mut C,
    venue: &mut V,
    clock: &mut K,
    taps: &mut Vec<Box<dyn Tap>>,
    rounds: u64,
) -> Result<(), LifeEnd>
    requires client { Agrees (C.recorded client.old) false }
    requires venue { Agrees (V.recorded venue.old) false }
    ensures done { OnOk result (IfTold (D.bytes disk.old)
        (LifeWhole config.now rounds (D.bytes disk.old) (D.bytes disk.new)
        (records (C.recorded client.old) (V.recorded venue.old))
        (records (C.recorded client.new) (V.recorded venue.new))
        (K.moments clock.old) (K.moments clock.new))) }
    ensures ends { IfErr result (λ end.
        IsUnbegun end config.now.names (D.bytes disk.old) (D.image disk.old) (D.image disk.new)
        (records (C.recorded client.old) (V.recorded venue.old))
        (records (C.recorded client.new) (V.recorded venue.new))
        (K.moments clock.old) (K.moments clock.new)
        ⊎ LifeStopped end config.now rounds (D.bytes disk.old) (D.image disk.old)
        (D.image disk.new) (records (C.recorded client.old) (V.recorded venue.old))
        (records (C.recorded client.new) (V.recorded venue.new))
        (K.moments clock.old) (K.moments clock.new)) }
    ensures client_polls { OnOk result
        (C.polls client.new ≡ counted_on rounds (C.polls client.old)) }
    ensures venue_polls { OnOk result (V.polls venue.new ≡ counted_on rounds (V.polls venue.old)) }
    ensures client_plays { Keeps (C.plays client.old) (C.plays client.new) }
    ensures venue_plays { Keeps (V.plays venue.old) (V.plays venue.new) }
    ensures follows { Keeps (K.follows clock.old) (K.follows clock.new) }
    ensures durable { OnOk result (HasOneImage (D.bytes disk.old) (D.image disk.old) →
        HasOneImage (D.bytes disk.new) (D.image disk.new)) }
    ensures taps { TapsSaw (state_by has_failed entries tally counts_all refused) taps.old.items
        taps.new.items config.now.names (D.bytes disk.old) (D.image disk.old)
        (D.image disk.new) (end_in result) }
    ensures journal_cause { HasJournalCause (end_in result) config.now.names (D.bytes disk.old)
        (D.image disk.old) (D.image disk.new) }
    ensures foreign { OnErr result (IfSome (D.bytes disk.old) (λ b. IsForeign config.now.names b →
        IsUntouched (OnlyReads D.bytes D.image disk.old disk.new)
        (records (C.recorded client.old) (V.recorded venue.old))
        (records (C.recorded client.new) (V.recorded venue.new))
        (K.moments clock.old) (K.moments clock.new))) }
    ensures refused { IfErr result (λ end. IfTold (D.bytes disk.old) (IfRefused end (
        IsUntouched (OnlyReads D.bytes D.image disk.old disk.new)
        (records (C.recorded client.old) (V.recorded venue.old))
        (records (C.recorded client.new) (V.recorded venue.new))
        (K.moments clock.old) (K.moments clock.new)))) }
    ensures only { IfErr result IsNotDone }
    ensures told { is_some (D.bytes disk.new) ≡ is_some (D.bytes disk.old) }
    ensures cause { HasCauseOf (D.faults disk.old) (D.faults disk.new) result }
{
    an_image_has_one_reading();
    let mut life = Life::begin(alloc, config, disk)?;
    life.whole(disk, client, venue, clock, taps, rounds)
}

/// A life of so many rounds, from its beginning to its end. Where it ends before, both wires are
/// hung up, and nothing more is committed or sent.
pub fn live<D: Disk, C: Wire, V: Wire, K: Clock>(
    alloc: Global,
    config: &Config,
    disk: &mut D,
    client: &mut C,
    venue: &mut V,
    clock: &mut K,
    taps: &mut Vec<Box<dyn Tap>>,
    rounds: u64,
) -> LifeEnd
    requires client { ForSome (C.recorded client.old) (λ calls. is_within calls ≡ false) }
    requires venue { ForSome (V.recorded venue.old) (λ calls. is_within calls ≡ false) }
    // Each image that the disk may leave is a journal that goes on from the one at entry by the
    // events of this life; and what is no journal is left alone.
    ensures lived { Lived result config.now rounds (D.image disk.old) (D.image disk.new)
        (told (D.bytes disk.old) (C.recorded client.old) (V.recorded venue.old)
        (K.moments clock.old) (C.polls client.old) (V.polls venue.old))
        (told (D.bytes disk.new) (C.recorded client.new) (V.recorded venue.new)
        (K.moments clock.new) (C.polls client.new) (V.polls venue.new)) }
    // Each tap saw the entries that this life committed, in order, and no others: each image is the
    // journal at entry and then what was shown. Only a disk fault may leave one more, not shown.
    ensures taps { TapsSaw (state_by has_failed entries tally counts_all refused) taps.old.items
        taps.new.items config.now.names (D.bytes disk.old) (D.image disk.old)
        (D.image disk.new) result }
    // The scripts that the wires play, and the moments that the clock follows, stay.
    ensures client_plays { Keeps (C.plays client.old) (C.plays client.new) }
    ensures venue_plays { Keeps (V.plays venue.old) (V.plays venue.new) }
    ensures follows { Keeps (K.follows clock.old) (K.follows clock.new) }
    ensures cause { HasCauseOf (D.faults disk.old) (D.faults disk.new) (ended result) }
{
    an_image_has_one_reading();
    lives_leave();
    match lived(alloc, config, disk, client, venue, clock, taps, rounds) {
        Ok(()) => LifeEnd::Done,
        Err(end) => {
            client.hang_up();
            venue.hang_up();
            end
        }
    }
}
