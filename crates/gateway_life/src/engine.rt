//! One event: what it decides is committed, and then it is sent.

ghost use Rattle.std.specs.Prelude.{◌≡◌, ◌⊎◌, ◌≤◌, ◌++◌, Some, Ok, IfOk, IfErr, IfSome, OnOk};
ghost use Rattle.std.specs.Prelude.{OnErr, ◌≢◌, Err, false, is_some, [], ◌∷◌, true, ◌<◌, ◌-◌};
ghost use Rattle.std.specs.Prelude.{length, take, if◌then◌else◌};
ghost use Rattle.std.specs.Option.{ForSome, option_to_list};
ghost use Rattle.outside.specs.Disk.{HasOneImage};
ghost use Rattle.wires.specs.Told.{GrowsBy, Keeps};
ghost use Rattle.gate_log.specs.Log.{OnlyReads};
ghost use Rattle.pair_journal.specs.declared.error.JournalError.TheVariants as errors;
ghost use Rattle.pair_journal.specs.Calls.{HasDiskCause, BornOrNot, RefusedUntold};
ghost use Rattle.pair_journal.specs.Journal.{JournalOf, Unborn, Born};
ghost use Rattle.kept_entries.specs.Numbers.{GoesOn, numbers_before, numbers_after, first_numbers};
ghost use Rattle.pair_entries.specs.Payload.{IsEntry};
ghost use Rattle.kept_entries.specs.Days.{last_day};
ghost use Rattle.event_decisions.specs.Days.{new_day};
ghost use Rattle.life_laws.specs.Sends.{hang_up_if};
ghost use Rattle.event_decisions.specs.Event.{IsFramed, Tick};
ghost use Rattle.event_decisions.specs.Decide.{Decides};
ghost use Rattle.gateway_core.specs.State.{event_of, sessions_in, loaded};
ghost use Rattle.life_laws.specs.Happens.{pieces_to, both_standing};
ghost use Rattle.life_laws.specs.Turn.{counts};
ghost use Rattle.wire_sends.specs.Sent.{FrontSent, AreSendable, hung_side};
ghost use Rattle.gateway_life.specs.Acted.{Acted};
ghost use Rattle.wire_sends.specs.Again.{IsGiven};
ghost use Rattle.gateway_life.specs.State.{seen};
ghost use Rattle.gateway_life.specs.Ready.{IsReady, Ready, world_of, made_of, LeavesOf, IfTold};
ghost use Rattle.gateway_life.specs.Fails.{IsWhyOfDay};
ghost use Rattle.gateway_life.specs.Stepped.{Stepped, HasCauseOf, IsNotDone, Records, records};
ghost use Rattle.gateway_life.specs.Dealt.{Kept, Dealt, around};
ghost use Rattle.gateway_life.specs.Committed.{OldOrNew, IsFull};
ghost use Rattle.gateway_life.specs.Decided.{Decided, MayHold, IsWhyNot};
ghost use Rattle.gateway_life.specs.Life.{IfRefused, begun};
ghost use Rattle.gateway_life.specs.Rounds.{Begins, MayTurn, DayDone, DayBroken, ends_of};
ghost use Rattle.drop_taps.specs.Shown.{state_by};

use crate::LifeEnd;
use crate::acts::{is_sent, standing, stands};
use drop_taps::{Tap, show};
use event_decisions::laws::decisions_continue;
use gateway_core::{Config, Core, Event, is_due};
use message_answers::Joining;
use order_meaning::{Names, Side};
use outside::Disk;
use pair_entries::{Entry, MAX_AT, Prepared};
use pair_journal::{Journal, JournalError, OutBuf};
use session_core::laws::{each_message_takes_a_number, two_numbers_are_enough};
use session_frames::FrameBuf;
use std::alloc::Global;
use wire_sends::{hang_up_on, outs_on, repeat_on};
use wires::Wire;

/// What an event works on: the journal, the core, and whether a connection stands on each side.
#[derive(Drop)]
pub(crate) struct Engine {
    pub(crate) alloc: Global,
    pub(crate) journal: Journal,
    pub(crate) core: Core,
    pub(crate) buf: OutBuf,
    pub(crate) frame: FrameBuf,
    pub(crate) client_up: bool,
    pub(crate) venue_up: bool,
}

/// What an event decided, and the entry that was committed.
#[derive(Drop)]
pub(crate) struct Made {
    pub(crate) entry: Option<Entry>,
    pub(crate) resend: Option<(Side, u32, u32)>,
    pub(crate) hang_up: Option<Side>,
}

// Commits an entry.
fn commit_one<D: Disk>(
    journal: &mut Journal,
    disk: &mut D,
    prepared: Prepared,
) -> Result<Entry, JournalError>
    requires spare { 1 ≤ journal.old.spare }
    requires whole { journal.old.broken ≡ false }
    requires goes_on { GoesOn (numbers_before
        (numbers_after first_numbers (last_day journal.old.entries)) prepared) prepared }
    requires stands { ForSome (D.bytes disk.old) (λ b.
        JournalOf b (Born journal.old.names journal.old.entries)) }
    ensures names { journal.new.names ≡ journal.old.names }
    ensures entry { IfOk result (λ entry. entry ≡ prepared) }
    ensures bounds { IfOk result IsEntry }
    ensures entries { OnOk result
        (journal.new.entries ≡ journal.old.entries ++ prepared ∷ []) }
    ensures whole { OnOk result (journal.new.broken ≡ false) }
    ensures refused { OnErr result (journal.new.entries ≡ journal.old.entries) }
    ensures stands { OnOk result (ForSome (D.bytes disk.new) (λ b.
        JournalOf b (Born journal.new.names journal.new.entries))) }
    ensures durable { OnOk result (HasOneImage (D.bytes disk.old) (D.image disk.old) →
        HasOneImage (D.bytes disk.new) (D.image disk.new)) }
    ensures images { IfErr result (λ error. LeavesOf (D.bytes disk.old) (D.image disk.old)
        (D.image disk.new) journal.old.names
        (OldOrNew error journal.old.entries (Some prepared))) }
    ensures why { IfErr result (IsFull journal.old (Some prepared)) }
    ensures told { is_some (D.bytes disk.new) ≡ is_some (D.bytes disk.old) }
    ensures cause { HasDiskCause (D.faults disk.old) (D.faults disk.new) result }
{
    let _ = prepared.entry(); // Its bounds.
    journal.commit(disk, prepared)
}

// Commits the entry of a plan, where there is one.
fn commit<D: Disk>(
    journal: &mut Journal,
    disk: &mut D,
    prepared: Option<Prepared>,
) -> Result<Option<Entry>, JournalError>
    requires spare { 1 ≤ journal.old.spare }
    requires whole { journal.old.broken ≡ false }
    requires goes_on { IfSome prepared (λ e. GoesOn (numbers_before
        (numbers_after first_numbers (last_day journal.old.entries)) e) e) }
    requires stands { ForSome (D.bytes disk.old) (λ b.
        JournalOf b (Born journal.old.names journal.old.entries)) }
    ensures names { journal.new.names ≡ journal.old.names }
    ensures entry { IfOk result (λ entry. entry ≡ prepared) }
    ensures bounds { IfOk result (λ entry. IfSome entry IsEntry) }
    ensures entries { OnOk result
        (journal.new.entries ≡ journal.old.entries ++ option_to_list prepared) }
    ensures whole { OnOk result (journal.new.broken ≡ false) }
    ensures refused { OnErr result (journal.new.entries ≡ journal.old.entries) }
    ensures stands { OnOk result (ForSome (D.bytes disk.new) (λ b.
        JournalOf b (Born journal.new.names journal.new.entries))) }
    ensures durable { OnOk result (HasOneImage (D.bytes disk.old) (D.image disk.old) →
        HasOneImage (D.bytes disk.new) (D.image disk.new)) }
    ensures images { IfErr result (λ error. LeavesOf (D.bytes disk.old) (D.image disk.old)
        (D.image disk.new) journal.old.names (OldOrNew error journal.old.entries prepared)) }
    ensures why { IfErr result (IsFull journal.old prepared) }
    ensures told { is_some (D.bytes disk.new) ≡ is_some (D.bytes disk.old) }
    ensures cause { HasDiskCause (D.faults disk.old) (D.faults disk.new) result }
{
    match prepared {
        Some(prepared) => Ok(Some(commit_one(journal, disk, prepared)?)),
        None => Ok(None),
    }
}

// Takes the last request out of the chains again, if it was held.
fn undo_if(core: &mut Core, held: bool)
    requires { held ≡ true → 0 < length core.old.chains }
    ensures { core.new ≡ record core.old {
      chains = if held
          then take (length core.old.chains - 1) core.old.chains else core.old.chains;
    } }
{
    if held {
        core.undo();
    }
}

impl Engine {
    /// An engine over a journal, without connections.
    pub(crate) fn new<D: Disk>(
        alloc: Global,
        config: &Config,
        disk: &mut D,
    ) -> Result<Engine, LifeEnd>
        ensures ready { IfOk result (λ engine. IsReady (seen engine) (D.bytes disk.new)) }
        ensures down { IfOk result (λ engine.
            (engine.client_up ≡ false) × (engine.venue_up ≡ false)) }
        ensures core { IfOk result (λ engine.
            engine.core ≡ loaded config.now (last_day engine.journal.entries)) }
        ensures durable { OnOk result (HasOneImage (D.bytes disk.old) (D.image disk.old) →
            HasOneImage (D.bytes disk.new) (D.image disk.new)) }
        ensures begins { IfSome (D.bytes disk.old) (λ b.
            Begins (λ engine. engine.journal.entries) config.now.names b result) }
        ensures images { BornOrNot (D.bytes disk.old) (D.image disk.old) (D.image disk.new)
            config.now.names }
        ensures only_unborn_is_written { IfSome (D.bytes disk.old) (λ b.
            JournalOf b Unborn ⊎ OnlyReads D.bytes D.image disk.old disk.new) }
        ensures refused_only_reads { IfErr result (λ end.
            IfRefused end (OnlyReads D.bytes D.image disk.old disk.new)) }
        ensures only { IfErr result IsNotDone }
        ensures told { is_some (D.bytes disk.new) ≡ is_some (D.bytes disk.old) }
        ensures cause { HasCauseOf (D.faults disk.old) (D.faults disk.new) result }
    {
        let buf = OutBuf::new(alloc)?;
        let frame = FrameBuf::new(alloc)?;
        let mut joining = Joining::new(alloc)?;
        let journal = Journal::load(alloc, disk, &config.names, &mut joining)?;
        let core = Core::new(config, journal.next(), joining.into_chains());
        Ok(Engine {
            alloc,
            journal,
            core,
            buf,
            frame,
            client_up: false,
            venue_up: false,
        })
    }

    // Decides an event, commits its entry, and sets the sessions; and the chains, as a day begins.
    // Nothing is sent yet.
    fn decide<D: Disk>(
        &mut self,
        disk: &mut D,
        event: &Event<'_>,
        now: u64,
    ) -> Result<Made, LifeEnd>
        requires ready { IsReady (seen self.old) (D.bytes disk.old) }
        requires moment { now ≤ MAX_AT }
        requires body { IfSome (event_of event.now) IsFramed }
        ensures up { (self.new.client_up ≡ self.old.client_up)
            × (self.new.venue_up ≡ self.old.venue_up) }
        ensures config { self.new.core.config ≡ self.old.core.config }
        ensures ready { OnOk result (IsReady (seen self.new) (D.bytes disk.new)) }
        ensures decided { IfOk result (λ made.
            Decided (seen self.old) (seen self.new) made (event_of event.now) now) }
        ensures entries { IfOk result (λ made. self.new.journal.entries
            ≡ self.old.journal.entries ++ option_to_list made.entry) }
        ensures bounds { IfOk result (λ made. IfSome made.entry IsEntry) }
        ensures sendable { IfOk result (λ made. IfSome made.entry (λ e. AreSendable e.outs)) }
        ensures given { IfOk result (λ made.
            IsGiven (last_day self.new.journal.entries) made.resend) }
        ensures durable { OnOk result (HasOneImage (D.bytes disk.old) (D.image disk.old) →
            HasOneImage (D.bytes disk.new) (D.image disk.new)) }
        // A refused event changes nothing but the room that was reserved.
        ensures refused { OnErr result ((world_of (seen self.new) ≡ world_of (seen self.old))
            × (self.new.core.chains ≡ self.old.core.chains)
            × (self.new.journal.entries ≡ self.old.journal.entries)) }
        ensures images { IfErr result (λ end. LeavesOf (D.bytes disk.old) (D.image disk.old)
            (D.image disk.new) self.old.core.config.names
            (MayHold end (seen self.old) (event_of event.now) now)) }
        ensures why { IfErr result (λ end.
            IsWhyNot end (seen self.old) (event_of event.now) now) }
        ensures told { is_some (D.bytes disk.new) ≡ is_some (D.bytes disk.old) }
        ensures cause { HasCauseOf (D.faults disk.old) (D.faults disk.new) result }
    {
        decisions_continue();
        self.journal.reserve()?;
        let plan = self.core.plan(self.alloc, &self.journal, event, now)?;
        let held = plan.item.is_some();
        self.core.hold(plan.item)?;
        match commit(&mut self.journal, disk, plan.entry) {
            Ok(entry) => {
                self.core.apply(plan.client, plan.venue, plan.fresh);
                Ok(Made {
                    entry,
                    resend: plan.resend,
                    hang_up: plan.hang_up,
                })
            }
            Err(error) => {
                undo_if(&mut self.core, held);
                Err(error.into())
            }
        }
    }

    // What an event does on the wires; then the sessions without a connection are down.
    fn act<D: Disk, C: Wire, V: Wire>(
        &mut self,
        disk: &mut D,
        client: &mut C,
        venue: &mut V,
        names: &Names,
        event: &Event<'_>,
        made: &Made,
        now: u64,
    ) -> Result<(), JournalError>
        requires ready { Ready (seen self.old) (D.bytes disk.old)
            (C.recorded client.old) (V.recorded venue.old) }
        requires moment { now ≤ MAX_AT }
        requires bounds { IfSome made.now.entry IsEntry }
        requires sendable { IfSome made.now.entry (λ e. AreSendable e.outs) }
        requires given { IsGiven (last_day self.old.journal.entries) made.now.resend }
        ensures journal { self.new.journal ≡ self.old.journal }
        ensures config { self.new.core.config ≡ self.old.core.config }
        ensures ready { OnOk result (Ready (seen self.new) (D.bytes disk.new)
            (C.recorded client.new) (V.recorded venue.new)) }
        ensures client_acts { ForSome (event_of event.now) (λ e. OnOk result
            (IfTold (D.bytes disk.old) (Acted (C.recorded client.old) (C.recorded client.new)
            self.old.client_up (pieces_to names.now Side.Client
            (last_day self.old.journal.entries) e now (made_of made.now self.old.core))
            (hung_side Side.Client made.now.hang_up) self.new.client_up))) }
        ensures venue_acts { ForSome (event_of event.now) (λ e. OnOk result
            (IfTold (D.bytes disk.old) (Acted (V.recorded venue.old) (V.recorded venue.new)
            self.old.venue_up (pieces_to names.now Side.Venue
            (last_day self.old.journal.entries) e now (made_of made.now self.old.core))
            (hung_side Side.Venue made.now.hang_up) self.new.venue_up))) }
        ensures sessions { OnOk result (sessions_in self.new.core ≡ both_standing
            self.new.client_up self.new.venue_up (sessions_in self.old.core)) }
        ensures client_part { ForSome (event_of event.now) (λ e. OnErr result
            (IfTold (D.bytes disk.old) (FrontSent (C.recorded client.old) (C.recorded client.new)
            self.old.client_up (pieces_to names.now Side.Client
            (last_day self.old.journal.entries) e now (made_of made.now self.old.core))))) }
        ensures venue_part { ForSome (event_of event.now) (λ e. OnErr result
            (IfTold (D.bytes disk.old) (FrontSent (V.recorded venue.old) (V.recorded venue.new)
            self.old.venue_up (pieces_to names.now Side.Venue
            (last_day self.old.journal.entries) e now (made_of made.now self.old.core))))) }
        ensures only_read { OnlyReads D.bytes D.image disk.old disk.new }
        ensures cause { HasDiskCause (D.faults disk.old) (D.faults disk.new) result }
        ensures only { RefusedUntold (D.bytes disk.old) result }
        ensures no_memory { result ≢ Err errors.NoMemory }
        ensures client_polls { C.polls client.new ≡ C.polls client.old }
        ensures venue_polls { V.polls venue.new ≡ V.polls venue.old }
        ensures client_plays { Keeps (C.plays client.old) (C.plays client.new) }
        ensures venue_plays { Keeps (V.plays venue.old) (V.plays venue.new) }
    {
        let client_up = repeat_on(
            &self.journal,
            disk,
            &mut self.buf,
            client,
            self.client_up,
            &mut self.frame,
            names,
            Side::Client,
            made.resend,
            now,
        )?;
        let venue_up = repeat_on(
            &self.journal,
            disk,
            &mut self.buf,
            venue,
            self.venue_up,
            &mut self.frame,
            names,
            Side::Venue,
            made.resend,
            now,
        )?;
        let client_sent = is_sent(Side::Client, event, &self.core);
        let venue_sent = is_sent(Side::Venue, event, &self.core);
        let client_still = outs_on(
            client,
            client_up,
            &mut self.frame,
            names,
            Side::Client,
            client_sent,
            &made.entry,
        );
        let venue_still = outs_on(
            venue,
            venue_up,
            &mut self.frame,
            names,
            Side::Venue,
            venue_sent,
            &made.entry,
        );
        self.client_up = hang_up_on(client, client_still, Side::Client, made.hang_up);
        self.venue_up = hang_up_on(venue, venue_still, Side::Venue, made.hang_up);
        let client_session = standing(self.client_up, Side::Client, &self.core);
        let venue_session = standing(self.venue_up, Side::Venue, &self.core);
        self.core.apply(client_session, venue_session, None);
        Ok(())
    }

    /// One event of a side: what it decides is committed, shown to the taps, and then sent.
    pub(crate) fn event<D: Disk, C: Wire, V: Wire>(
        &mut self,
        disk: &mut D,
        client: &mut C,
        venue: &mut V,
        taps: &mut Vec<Box<dyn Tap>>,
        event: &Event<'_>,
        now: u64,
    ) -> Result<(), LifeEnd>
        requires ready { Ready (seen self.old) (D.bytes disk.old)
            (C.recorded client.old) (V.recorded venue.old) }
        requires moment { now ≤ MAX_AT }
        requires side { is_some (event_of event.now) ≡ true }
        requires body { IfSome (event_of event.now) IsFramed }
        ensures dealt { ForSome (event_of event.now) (λ e.
            counts (world_of (seen self.old)) e ≡ true →
            Dealt (state_by has_failed entries tally counts_all refused) taps.old.items
            taps.new.items
            (around (seen self.old) (D.bytes disk.old) (D.image disk.old) (D.faults disk.old)
            (C.recorded client.old) (V.recorded venue.old))
            (around (seen self.new) (D.bytes disk.new) (D.image disk.new) (D.faults disk.new)
            (C.recorded client.new) (V.recorded venue.new)) (e ∷ []) now result) }
        ensures client_polls { C.polls client.new ≡ C.polls client.old }
        ensures venue_polls { V.polls venue.new ≡ V.polls venue.old }
        ensures client_plays { Keeps (C.plays client.old) (C.plays client.new) }
        ensures venue_plays { Keeps (V.plays venue.old) (V.plays venue.new) }
    {
        two_numbers_are_enough();
        each_message_takes_a_number();
        let made = self.decide(disk, event, now)?;
        show(taps, &made.entry);
        let names = self.journal.names();
        self.act(disk, client, venue, &names, event, &made, now)?;
        Ok(())
    }

    /// The end of both sides, the client's first.
    pub(crate) fn end_both<D: Disk, C: Wire, V: Wire>(
        &mut self,
        disk: &mut D,
        client: &mut C,
        venue: &mut V,
        taps: &mut Vec<Box<dyn Tap>>,
        now: u64,
    ) -> Result<(), LifeEnd>
        requires ready { Ready (seen self.old) (D.bytes disk.old)
            (C.recorded client.old) (V.recorded venue.old) }
        requires moment { now ≤ MAX_AT }
        ensures dealt { Dealt (state_by has_failed entries tally counts_all refused) taps.old.items
            taps.new.items
            (around (seen self.old) (D.bytes disk.old) (D.image disk.old) (D.faults disk.old)
            (C.recorded client.old) (V.recorded venue.old))
            (around (seen self.new) (D.bytes disk.new) (D.image disk.new) (D.faults disk.new)
            (C.recorded client.new) (V.recorded venue.new)) ends_of now result }
        ensures client_polls { C.polls client.new ≡ C.polls client.old }
        ensures venue_polls { V.polls venue.new ≡ V.polls venue.old }
        ensures client_plays { Keeps (C.plays client.old) (C.plays client.new) }
        ensures venue_plays { Keeps (V.plays venue.old) (V.plays venue.new) }
    {
        self.event(disk, client, venue, taps, &Event::End(Side::Client), now)?;
        self.event(disk, client, venue, taps, &Event::End(Side::Venue), now)
    }

    // A session day begins, behind the end of both sides: what still stands is hung up, and the
    // event goes as any other; there is nothing to send.
    fn new_day<D: Disk, C: Wire, V: Wire>(
        &mut self,
        disk: &mut D,
        client: &mut C,
        venue: &mut V,
        taps: &mut Vec<Box<dyn Tap>>,
        now: u64,
    ) -> Result<(), LifeEnd>
        requires ready { Ready (seen self.old) (D.bytes disk.old)
            (C.recorded client.old) (V.recorded venue.old) }
        requires moment { now ≤ MAX_AT }
        ensures kept { Kept (state_by has_failed entries tally counts_all refused) taps.old.items
            taps.new.items
            (around (seen self.old) (D.bytes disk.old) (D.image disk.old) (D.faults disk.old)
            (C.recorded client.old) (V.recorded venue.old))
            (around (seen self.new) (D.bytes disk.new) (D.image disk.new) (D.faults disk.new)
            (C.recorded client.new) (V.recorded venue.new)) result }
        ensures entries { OnOk result (self.new.journal.entries
            ≡ self.old.journal.entries ++ new_day now ∷ []) }
        ensures fresh { OnOk result (world_of (seen self.new) ≡ begun self.old.core.config []) }
        ensures client_hung { GrowsBy (C.recorded client.old) (C.recorded client.new)
            (hang_up_if self.old.client_up) }
        ensures venue_hung { GrowsBy (V.recorded venue.old) (V.recorded venue.new)
            (hang_up_if self.old.venue_up) }
        ensures refused { OnErr result (self.new.journal.entries ≡ self.old.journal.entries) }
        ensures images { IfErr result (λ end. LeavesOf (D.bytes disk.old) (D.image disk.old)
            (D.image disk.new) self.old.core.config.names
            (MayTurn end self.old.journal.entries now)) }
        ensures why { IfErr result (λ end. IsWhyOfDay end self.old.core.config.names
            self.old.journal.entries now) }
        ensures client_polls { C.polls client.new ≡ C.polls client.old }
        ensures venue_polls { V.polls venue.new ≡ V.polls venue.old }
        ensures client_plays { Keeps (C.plays client.old) (C.plays client.new) }
        ensures venue_plays { Keeps (V.plays venue.old) (V.plays venue.new) }
    {
        // No connection stands behind the end of both sides.
        self.client_up = hang_up_on(client, self.client_up, Side::Client, Some(Side::Client));
        self.venue_up = hang_up_on(venue, self.venue_up, Side::Venue, Some(Side::Venue));
        let day = self.decide(disk, &Event::NewDay, now)?;
        show(taps, &day.entry);
        Ok(())
    }

    /// Where a new session day is due, both sides end, and it begins.
    pub(crate) fn end_day<D: Disk, C: Wire, V: Wire>(
        &mut self,
        disk: &mut D,
        client: &mut C,
        venue: &mut V,
        taps: &mut Vec<Box<dyn Tap>>,
        now: u64,
    ) -> Result<(), LifeEnd>
        requires ready { Ready (seen self.old) (D.bytes disk.old)
            (C.recorded client.old) (V.recorded venue.old) }
        requires moment { now ≤ MAX_AT }
        ensures kept { Kept (state_by has_failed entries tally counts_all refused) taps.old.items
            taps.new.items
            (around (seen self.old) (D.bytes disk.old) (D.image disk.old) (D.faults disk.old)
            (C.recorded client.old) (V.recorded venue.old))
            (around (seen self.new) (D.bytes disk.new) (D.image disk.new) (D.faults disk.new)
            (C.recorded client.new) (V.recorded venue.new)) result }
        ensures turned { OnOk result (IfTold (D.bytes disk.old) (DayDone self.old.core.config
            (seen self.old) (seen self.new) now
            (records (C.recorded client.old) (V.recorded venue.old))
            (records (C.recorded client.new) (V.recorded venue.new)))) }
        ensures ends { IfErr result (λ end. LeavesOf (D.bytes disk.old) (D.image disk.old)
            (D.image disk.new) self.old.core.config.names (DayBroken end self.old.core.config
            (seen self.old) now (records (C.recorded client.old) (V.recorded venue.old))
            (records (C.recorded client.new) (V.recorded venue.new)))) }
        ensures client_polls { C.polls client.new ≡ C.polls client.old }
        ensures venue_polls { V.polls venue.new ≡ V.polls venue.old }
        ensures client_plays { Keeps (C.plays client.old) (C.plays client.new) }
        ensures venue_plays { Keeps (V.plays venue.old) (V.plays venue.new) }
    {
        if !is_due(self.core.reset(), self.journal.day_at(), now) {
            return Ok(());
        }
        self.end_both(disk, client, venue, taps, now)?;
        self.new_day(disk, client, venue, taps, now)
    }

    /// Whether a tick of a side does nothing, as far as is seen without a plan.
    pub(crate) fn rests(&self, side: Side, now: u64) -> bool
        ensures { result ≡ true → (told : Records) → Stepped self.now.core.config
            (world_of (seen self.now)) (Tick side) now (world_of (seen self.now)) told told }
    {
        self.core.rests(side, now)
            && stands(self.client_up, Side::Client, &self.core)
            && stands(self.venue_up, Side::Venue, &self.core)
    }

    /// A tick of a side: the event, where it does anything.
    pub(crate) fn tick<D: Disk, C: Wire, V: Wire>(
        &mut self,
        disk: &mut D,
        client: &mut C,
        venue: &mut V,
        taps: &mut Vec<Box<dyn Tap>>,
        side: Side,
        now: u64,
    ) -> Result<(), LifeEnd>
        requires ready { Ready (seen self.old) (D.bytes disk.old)
            (C.recorded client.old) (V.recorded venue.old) }
        requires moment { now ≤ MAX_AT }
        ensures dealt { Dealt (state_by has_failed entries tally counts_all refused) taps.old.items
            taps.new.items
            (around (seen self.old) (D.bytes disk.old) (D.image disk.old) (D.faults disk.old)
            (C.recorded client.old) (V.recorded venue.old))
            (around (seen self.new) (D.bytes disk.new) (D.image disk.new) (D.faults disk.new)
            (C.recorded client.new) (V.recorded venue.new)) (Tick side ∷ []) now result }
        ensures client_polls { C.polls client.new ≡ C.polls client.old }
        ensures venue_polls { V.polls venue.new ≡ V.polls venue.old }
        ensures client_plays { Keeps (C.plays client.old) (C.plays client.new) }
        ensures venue_plays { Keeps (V.plays venue.old) (V.plays venue.new) }
    {
        if self.rests(side, now) {
            return Ok(());
        }
        self.event(disk, client, venue, taps, &Event::Tick(side), now)
    }
}
