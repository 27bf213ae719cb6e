//! The core: what the gateway knows between events, and what it decides at one.

ghost use Rattle.std.specs.Prelude.{◌≡◌, ◌↔◌, ℕ, ◌≤◌, ◌<◌, ◌-◌, ◌++◌, List, [], length, take};
ghost use Rattle.std.specs.Prelude.{Some, None, Ok, IfOk, OnOk, OnErr, IfSome, unwrap_or, true};
ghost use Rattle.std.specs.Option.{option_to_list};
ghost use Rattle.message_tables.specs.Tables.{value_at};
ghost use Rattle.frame_grammar.specs.Frame.{IsBody};
ghost use Rattle.pair_entries.specs.declared.entry.Entry.{Entry};
ghost use Rattle.kept_entries.specs.Numbers.{numbers_after, first_numbers};
ghost use Rattle.kept_entries.specs.Days.{last_day};
ghost use Rattle.pair_entries.specs.Payload.{IsTook, IsOut, AreOuts, AreNext};
ghost use Rattle.session_core.specs.Numbers.{AreNextNumbers};
ghost use Rattle.session_core.specs.Table as table;
ghost use Rattle.session_core.specs.Table.{Message, step, number_of};
ghost use Rattle.event_decisions.specs.Body.{reading_of, fields_of};
ghost use Rattle.event_decisions.specs.Event.{IsFramed, Frame, Tick};
ghost use Rattle.event_decisions.specs.Decide.{session_of, says_of, head_in, Decides};
ghost use Rattle.message_answers.specs.Answer.{Answers};
ghost use Rattle.message_answers.specs.Chains.{chains_of, new_item};
ghost use Rattle.message_answers.specs.Seen.{IsFit};
ghost use Rattle.gateway_core.specs.Planning.{IsSayable, StepsAreSayable, heard_by};
ghost use Rattle.gateway_core.specs.Planning.{words_by, given_by, entry_by, decision_by, resolved};
ghost use Rattle.gateway_core.specs.Planning.{quiet_by, silent, Comes, JoinsWith, IsAnswered};
ghost use Rattle.message_answers.specs.Seen.{IsSplit};
ghost use Rattle.gateway_core.specs.State.{loaded, Stand, IsNew, Plans, PlansEvent, HasItem};
ghost use Rattle.gateway_core.specs.State.{Grows, plan_of_day, event_of, sessions_in};
ghost use Rattle.gateway_core.specs.State.{decision_of, no_change};

use crate::acting::{hangs_up, is_active, is_asked, repeat_of, took_of};
use crate::entries::{committed, entry_of, new_day, same_numbers, with_entry};
use crate::outs::{Heard, Speaker, say_all};
use crate::sessions::{Given, Sessions};
use crate::{Config, Event, Plan, PlanError};
use field_groups::{Split, split};
use message_answers::{Answer, Asked, Known, answer_to};
use message_tables::Lookup;
use order_chains::{ChainItem, Chains};
use order_meaning::Side;
use pair_entries::{MAX_AT, Outs, Took};
use pair_journal::Journal;
use session_core::laws::{each_message_takes_a_number, two_messages_at_most};
use session_core::tag::TEST_REQ_ID;
use session_core::{ALL_USED, Act, Acts, Head, LinkState, Numbers, Session, Spent, Step};
use session_logon::read_head;
use std::alloc::{AllocError, Global};
use std::marker::Model;
use translation::msg_type;

/// A second, in milliseconds.
const SECOND: u64 = 1_000;

/// What the gateway knows between events: its configuration, the two sessions, and the requests
/// that it forwarded.
#[derive(Drop)]
pub struct Core {
    config: Config,
    client: Session,
    venue: Session,
    chains: Chains,
}

impl Model for Core {
    ghost use Rattle.gateway_core.specs.State.{CoreState};

    ghost Value = { CoreState };

    ghost view = { λ c. record {
      config = c.config;
      client = c.client;
      venue = c.venue;
      chains = c.chains;
    } };
}

impl Core {
    /// The core of a journal that has these next numbers and these chains: both sessions are down.
    pub fn new(config: &Config, next: (u32, u32, u32, u32), chains: Chains) -> Core
        requires { AreNext next }
        ensures { (entries : List Entry) → next ≡ numbers_after first_numbers entries →
            chains ≡ chains_of entries → result ≡ loaded config.now entries }
    {
        let (client_in, client_out, venue_in, venue_out) = next;
        Core {
            config: *config,
            client: Session::new(Side::Client, numbers(client_in, client_out), config.heart),
            venue: Session::new(Side::Venue, numbers(venue_in, venue_out), config.heart),
            chains,
        }
    }

    /// What is to be done at an event, at this moment, in milliseconds since 1970-01-01 00:00 UTC.
    /// Nothing is done yet.
    ///
    /// Of the journal's last day the core knows the chains and which message an out translates, and
    /// it answers the same for all entries that have these.
    ///
    /// # Errors
    ///
    /// `NumbersSpent` exactly where a message would take a number of that side past 999,999,999;
    /// the event's own session comes first. `NoMemory` for want of memory, which alone refuses a
    /// new day.
    pub fn plan(
        &self,
        alloc: Global,
        journal: &Journal,
        event: &Event<'_>,
        now: u64,
    ) -> Result<Plan, PlanError>
        requires moment { now ≤ MAX_AT }
        requires body { IfSome (event_of event.now) IsFramed }
        ensures plans { (entries : List Entry) →
            Stand self.now (last_day journal.now.entries) entries →
            PlansEvent self.now entries (event_of event.now) now result }
        ensures item { IfOk result (HasItem self.now) }
        ensures new { IfOk result (λ plan. IsNew self.now.chains plan.item) }
        ensures grows { (entries : List Entry) →
            Stand self.now (last_day journal.now.entries) entries →
            IfOk result (Grows self.now entries) }
    {
        self.planned(alloc, journal, event, now)
    }

    /// Adds the item of a plan, if there is one, to the chains. No item of them has its id.
    ///
    /// # Errors
    ///
    /// `AllocError` for want of memory; then all is as before, and the item is dropped.
    pub fn hold(&mut self, item: Option<ChainItem>) -> Result<(), AllocError>
        requires { IsNew self.old.chains item }
        ensures ok { OnOk result (self.new ≡
            record self.old { chains = self.old.chains ++ option_to_list item }) }
        ensures err { OnErr result (self.new ≡ self.old) }
    {
        match item {
            Some(item) => self.chains.add(&item.as_ref()),
            None => Ok(()),
        }
    }

    /// Takes the last item out of the chains, which are not empty. It takes no memory.
    pub fn undo(&mut self)
        requires { 0 < length self.old.chains }
        ensures { self.new ≡
            record self.old { chains = take (length self.old.chains - 1) self.old.chains } }
    {
        self.chains.undo();
    }

    /// The session of a side.
    pub fn session(&self, side: Side) -> &Session
        ensures { result.now ≡ session_of side (sessions_in self.now) }
    {
        match side {
            Side::Client => &self.client,
            Side::Venue => &self.venue,
        }
    }

    /// Whether a tick of a side at this moment does nothing: no message is said, nothing is hung
    /// up, and both sessions stay as they are. It takes no memory, and is a quick [`Core::plan`].
    pub fn rests(&self, side: Side, now: u64) -> bool
        ensures rests { result ≡ true → (entries : List Entry) →
            Decides Answers self.now.config.names self.now.config.window entries
            (sessions_in self.now) (Tick side) now (Ok (no_change self.now)) }
        ensures only { step (session_of side (sessions_in self.now)) table.Tick now
            ≡ Ok (table.does [] (session_of side (sessions_in self.now))) → result ≡ true }
    {
        rests(self.session(side), now)
    }

    /// The minute of the UTC day at which a session day begins; none where no day ends.
    pub fn reset(&self) -> Option<u32>
        ensures { result ≡ self.now.config.reset }
    {
        self.config.reset
    }

    /// Sets both sessions and, where fresh chains are given, puts them in place of the chains. It
    /// takes no memory.
    pub fn apply(&mut self, client: Session, venue: Session, fresh: Option<Chains>)
        ensures { self.new ≡ record self.old {
          client = client;
          venue = venue;
          chains = unwrap_or fresh self.old.chains;
        } }
    {
        self.client = client;
        self.venue = venue;
        if let Some(chains) = fresh {
            self.chains = chains;
        }
    }
}

fn numbers(next_in: u32, next_out: u32) -> Numbers
    requires { AreNextNumbers (record { next_in = next_in; next_out = next_out }) }
    ensures { result ≡ record { next_in = next_in; next_out = next_out } }
{
    Numbers { next_in, next_out }
}

// Whether a glance tells that a tick does nothing and changes nothing: there is no connection, or
// the session is logged on, it waits for nothing, and less than HeartBtInt(108) went by on both
// ways.
fn is_calm(session: &Session, now: u64) -> bool
    ensures { result ≡ true →
        step session.now table.Tick now ≡ Ok (table.does [] session.now) }
{
    let heart = SECOND * u64::from(session.heart);
    match (session.link, session.tested, session.ask) {
        (LinkState::Active, None, None) => {
            now.saturating_sub(session.seen) < heart && now.saturating_sub(session.said) < heart
        }
        (LinkState::Down, _, None) => true,
        _ => false,
    }
}

// Whether a tick does nothing and changes nothing.
fn rests(session: &Session, now: u64) -> bool
    ensures { result ≡ true ↔
        step session.now table.Tick now ≡ Ok (table.does [] session.now) }
{
    if is_calm(session, now) {
        return true;
    }
    match session.on_tick(now) {
        Ok(step) => step.acts.as_slice().is_empty() && step.next == *session,
        Err(_) => false,
    }
}

// Each step says two messages at most, and there is a number for each.
fn steps_are_sayable()
    ensures { StepsAreSayable }
{
    two_messages_at_most();
    each_message_takes_a_number();
}

// TestReqID(112) of a message, or nothing.
fn echo_of<'a>(asked: &Asked<'a>) -> &'a [u8]
    ensures { result.now ≡ unwrap_or (value_at TEST_REQ_ID asked.now.split.now.fields) [] }
{
    match asked.split.fields.value(TEST_REQ_ID) {
        Some(value) => value,
        None => b"",
    }
}

// What a session does with a message that has this head.
#[derive(Drop)]
struct Reaction {
    head: Head,
    step: Step,
}

// What an event brings beside the step of its session.
#[derive(Drop)]
struct Facts<'a> {
    side: Side,
    heard: Heard<'a>,
    took: Option<Took>,
    answer: Answer,
}

// What an entry is made of, and the request that joins with it.
#[derive(Drop)]
struct Draft {
    took: Option<Took>,
    // The messages of the event's own session.
    own: Outs,
    given: Given,
    item: Option<ChainItem>,
}

impl<'a> Facts<'a> {
    // An event of a side at which no message comes.
    fn silent(side: Side) -> Facts<'a>
        ensures facts { result ≡ record {
          side = side;
          heard = result.heard;
          took = None;
          answer = record { words = None; item = None };
        } }
        ensures heard { heard_by result.heard ≡ silent }
        ensures echo { result.heard.echo.now ≡ [] }
    {
        Facts {
            side,
            heard: Heard::nothing(),
            took: None,
            answer: Answer {
                words: None,
                item: None,
            },
        }
    }
}

impl Core {
    fn sessions(&self) -> Sessions
        ensures { result ≡ sessions_in self.now }
    {
        Sessions {
            client: self.client,
            venue: self.venue,
        }
    }

    // What is to be done at an event.
    fn planned(
        &self,
        alloc: Global,
        journal: &Journal,
        event: &Event<'_>,
        now: u64,
    ) -> Result<Plan, PlanError>
        requires moment { now ≤ MAX_AT }
        requires body { IfSome (event_of event.now) IsFramed }
        ensures plans { (entries : List Entry) →
            Stand self.now (last_day journal.now.entries) entries →
            PlansEvent self.now entries (event_of event.now) now result }
        ensures item { IfOk result (HasItem self.now) }
    {
        steps_are_sayable();
        match *event {
            Event::Opened(side) => { self.quiet(alloc, side, self.session(side).on_open(now), now) }
            Event::Frame(side, body) => self.heard(alloc, journal, side, body, now),
            Event::Closed(side) => {
                let next = self.session(side).on_closed();
                self.quiet(
                    alloc,
                    side,
                    Ok(Step {
                        acts: Acts::new(),
                        next,
                    }),
                    now,
                )
            }
            Event::Tick(side) => self.quiet(alloc, side, self.session(side).on_tick(now), now),
            Event::End(side) => self.quiet(alloc, side, self.session(side).on_end(now), now),
            Event::NewDay => Ok(self.new_day(alloc, now)?),
        }
    }

    // The plan of a new day: its entry, and what the core of no entries has.
    fn new_day(&self, alloc: Global, now: u64) -> Result<Plan, AllocError>
        requires { now ≤ MAX_AT }
        ensures { IfOk result (λ plan. plan ≡ plan_of_day self.now now) }
    {
        let heart = self.config.heart;
        let fresh = Chains::new(alloc)?;
        let entry = new_day(alloc, now)?;
        Ok(Plan {
            entry: Some(entry),
            item: None,
            client: Session::new(Side::Client, numbers(1, 1), heart),
            venue: Session::new(Side::Venue, numbers(1, 1), heart),
            resend: None,
            hang_up: None,
            fresh: Some(fresh),
        })
    }

    // What is to be done at an event that brings no message.
    fn quiet(
        &self,
        alloc: Global,
        side: Side,
        step: Result<Step, Spent>,
        now: u64,
    ) -> Result<Plan, PlanError>
        requires moment { now ≤ MAX_AT }
        requires sayable { IfOk step (λ t. IsSayable
            (session_of side (sessions_in self.now)).numbers.next_out t.acts []) }
        ensures plan { Comes (quiet_by (sessions_in self.now) side now step) result }
        ensures item { IfOk result (HasItem self.now) }
        ensures fresh { IfOk result (λ plan. plan.fresh ≡ None) }
    {
        match step {
            Ok(step) => match self.still(side, &step) {
                Some(plan) => Ok(plan),
                None => self.concluded(alloc, Facts::silent(side), step, now),
            },
            Err(_) => Err(PlanError::NumbersSpent { side }),
        }
    }

    // The plan of a step that does nothing and changes no number: its session goes on.
    fn still(&self, side: Side, step: &Step) -> Option<Plan>
        ensures plan { IfSome result (λ plan. (now : ℕ) →
            resolved (sessions_in self.now) side silent None None step.now now
            ≡ Ok (decision_of plan)) }
        ensures item { IfSome result (HasItem self.now) }
        ensures fresh { IfSome result (λ plan. plan.fresh ≡ None) }
    {
        let sessions = self.sessions().with(side, step.next);
        if !same_numbers(self.sessions().numbers(), sessions.numbers()) {
            return None;
        }
        match step.acts.as_slice() {
            [] => Some(Plan {
                entry: None,
                item: None,
                client: sessions.client,
                venue: sessions.venue,
                resend: None,
                hang_up: None,
                fresh: None,
            }),
            _ => None,
        }
    }

    // What is to be done at a frame with this body.
    fn heard(
        &self,
        alloc: Global,
        journal: &Journal,
        side: Side,
        body: &[u8],
        now: u64,
    ) -> Result<Plan, PlanError>
        requires moment { now ≤ MAX_AT }
        requires body { IsBody body.now }
        ensures plans { (entries : List Entry) →
            Stand self.now (last_day journal.now.entries) entries →
            Plans self.now entries (Frame side body.now) now result }
        ensures item { IfOk result (HasItem self.now) }
        ensures fresh { IfOk result (λ plan. plan.fresh ≡ None) }
    {
        let split = split(alloc, body)?;
        self.framed(alloc, journal, side, body, &split, now)
    }

    // The same, where this is how the body splits.
    fn framed(
        &self,
        alloc: Global,
        journal: &Journal,
        side: Side,
        body: &[u8],
        split: &Split<'_>,
        now: u64,
    ) -> Result<Plan, PlanError>
        requires moment { now ≤ MAX_AT }
        requires body { IsBody body.now }
        requires split { reading_of body.now
            ≡ record { fields = split.now.fields; fault = split.now.fault } }
        ensures plans { (entries : List Entry) →
            Stand self.now (last_day journal.now.entries) entries →
            Plans self.now entries (Frame side body.now) now result }
        ensures item { IfOk result (HasItem self.now) }
        ensures fresh { IfOk result (λ plan. plan.fresh ≡ None) }
    {
        steps_are_sayable();
        let msg_type = msg_type(&split.fields);
        let Config { names, window, .. } = &self.config;
        let head = read_head(side, names, *window, msg_type, split, now);
        let asked = Asked {
            side,
            number: head.number.unwrap_or(0),
            body,
            msg_type,
            split,
        };
        match self.session(side).on_message(&head, now) {
            Ok(step) => self.reacted(alloc, journal, &asked, Reaction { head, step }, now),
            Err(_) => Err(PlanError::NumbersSpent { side }),
        }
    }

    // What is to be done at a frame, where this is what its session does with it.
    fn reacted(
        &self,
        alloc: Global,
        journal: &Journal,
        asked: &Asked<'_>,
        reaction: Reaction,
        now: u64,
    ) -> Result<Plan, PlanError>
        requires moment { now ≤ MAX_AT }
        requires split { IsSplit asked.now }
        requires number { asked.now.number ≡ number_of (Message reaction.head) }
        requires head { reaction.head ≡ head_in self.now.config.names self.now.config.window
            asked.now.side asked.now.body.now now }
        requires step { step (session_of asked.now.side (sessions_in self.now))
            (Message reaction.head) now ≡ Ok reaction.step }
        requires sayable { IsSayable
            (session_of asked.now.side (sessions_in self.now)).numbers.next_out reaction.step.acts
            (unwrap_or (value_at TEST_REQ_ID (fields_of asked.now.body.now)) []) }
        ensures plans { (entries : List Entry) →
            Stand self.now (last_day journal.now.entries) entries →
            Plans self.now entries (Frame asked.now.side asked.now.body.now) now result }
        ensures item { IfOk result (HasItem self.now) }
        ensures fresh { IfOk result (λ plan. plan.fresh ≡ None) }
    {
        let Reaction { head, step } = reaction;
        let acts = step.acts.as_slice();
        let took = took_of(alloc, asked, &head, acts)?;
        let is_asked = is_asked(&took, &head, acts);
        let answer = self.answered(alloc, journal, asked, is_asked)?;
        let heard = Heard {
            number: asked.number,
            msg_type: asked.msg_type,
            echo: echo_of(asked),
        };
        let facts = Facts {
            side: asked.side,
            heard,
            took,
            answer,
        };
        self.concluded(alloc, facts, step, now)
    }

    // The answer to a message, if it is asked about.
    fn answered(
        &self,
        alloc: Global,
        journal: &Journal,
        asked: &Asked<'_>,
        is_asked: bool,
    ) -> Result<Answer, AllocError>
        requires { IsSplit asked.now }
        ensures answered { IfOk result
            (IsAnswered self.now (last_day journal.now.entries) asked.now is_asked) }
        ensures fit { IfOk result (λ a. IfSome a.words (λ w. IsFit w.said)) }
    {
        if !is_asked {
            return Ok(Answer {
                words: None,
                item: None,
            });
        }
        let known = Known {
            chains: &self.chains,
            journal,
            active: is_active(self.venue.link),
        };
        answer_to(alloc, &known, asked)
    }

    // The plan of a step and of what the event brings beside it.
    fn concluded(
        &self,
        alloc: Global,
        facts: Facts<'_>,
        step: Step,
        now: u64,
    ) -> Result<Plan, PlanError>
        requires moment { now ≤ MAX_AT }
        requires took { IfSome facts.took IsTook }
        requires sayable { IsSayable
            (session_of facts.side (sessions_in self.now)).numbers.next_out step.acts
            facts.heard.echo.now }
        requires fit { IfSome facts.answer.words (λ w. IsFit w.said) }
        requires joins { JoinsWith self.now.chains facts.took (says_of facts.side step.next.heart
            (heard_by facts.heard) (session_of facts.side (sessions_in self.now)).numbers.next_out
            step.acts) (words_by facts.answer.words) facts.answer.item }
        ensures plan { Comes (resolved (sessions_in self.now) facts.entry.side
            (heard_by facts.entry.heard) facts.entry.took (words_by facts.entry.answer.words)
            step now) result }
        ensures item { IfOk result (HasItem self.now) }
        ensures fresh { IfOk result (λ plan. plan.fresh ≡ None) }
    {
        let Facts {
            side,
            heard,
            took,
            answer: Answer { words, item },
        } = facts;
        let Step { acts, next } = step;
        let speaker = Speaker {
            side,
            heart: next.heart,
            heard,
        };
        let own = self.own_outs(alloc, &speaker, acts.as_slice())?;
        match self.sessions().with(side, next).give(words, now) {
            Ok(given) => {
                let draft = Draft {
                    took,
                    own,
                    given,
                    item,
                };
                let plan = self.decided(alloc, side, acts.as_slice(), draft, now)?;
                Ok(plan)
            }
            Err(side) => Err(PlanError::NumbersSpent { side }),
        }
    }

    // The number of the next message to a side.
    fn next_out(&self, side: Side) -> u32
        ensures number { result ≡ (session_of side (sessions_in self.now)).numbers.next_out }
        ensures bound { result ≤ ALL_USED }
    {
        self.session(side).numbers.next_out
    }

    // The messages of a session's own.
    fn own_outs(
        &self,
        alloc: Global,
        speaker: &Speaker<'_>,
        acts: &[Act],
    ) -> Result<Outs, AllocError>
        requires { IsSayable (session_of speaker.now.side (sessions_in self.now)).numbers.next_out
            acts.now speaker.now.heard.echo.now }
        ensures own { IfOk result (λ own. own ≡ says_of speaker.now.side speaker.now.heart
            (heard_by speaker.now.heard)
            (session_of speaker.now.side (sessions_in self.now)).numbers.next_out acts.now) }
        ensures few { IfOk result (λ own. length own ≤ 2) }
        ensures outs { IfOk result AreOuts }
    {
        let first = self.next_out(speaker.side);
        let mut outs = Outs::new(alloc);
        say_all(alloc, speaker, first, acts, &mut outs)?;
        Ok(outs)
    }

    // The plan of what was taken and given out.
    fn decided(
        &self,
        alloc: Global,
        side: Side,
        acts: &[Act],
        draft: Draft,
        now: u64,
    ) -> Result<Plan, AllocError>
        requires moment { now ≤ MAX_AT }
        requires took { IfSome draft.took IsTook }
        requires few { length draft.own ≤ 2 }
        requires outs { AreOuts draft.own }
        requires out { IfSome draft.given.out IsOut }
        requires item { draft.item ≡ new_item self.now.chains
            (entry_by draft.took draft.own (given_by draft.given) now) }
        ensures plan { IfOk result (λ plan. decision_of plan ≡ decision_by (sessions_in self.now)
            side acts.now draft.took draft.own (given_by draft.given) now) }
        ensures item { IfOk result (HasItem self.now) }
        ensures fresh { IfOk result (λ plan. plan.fresh ≡ None) }
    {
        let Draft {
            took,
            own,
            given: Given { out, sessions },
            item,
        } = draft;
        let entry = entry_of(now, took, own, out, sessions.numbers())?;
        let entry = committed(alloc, self.sessions().numbers(), entry)?;
        let item = with_entry(item, &entry);
        Ok(Plan {
            entry,
            item,
            client: sessions.client,
            venue: sessions.venue,
            resend: repeat_of(side, acts),
            hang_up: if hangs_up(acts) { Some(side) } else { None },
            fresh: None,
        })
    }
}
