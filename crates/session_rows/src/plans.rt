//! Plans of events, each done before the next.

ghost use Rattle.std.specs.Prelude.{IfOk, Some};
ghost use Rattle.frame_grammar.specs.Frame.{IsBody};
ghost use Rattle.gateway_core.specs.State.{IsNew};

use crate::entries::{disk_of, names};
use crate::texts::{is_body, letter};
use gateway_core::{Config, Core, Event, Plan, PlanError};
use message_answers::Joining;
use order_chains::ChainItem;
use order_meaning::Side::{self, Client, Venue};
use outside::MemDisk;
use pair_entries::Out;
use pair_journal::{Journal, JournalError};
use row_words::{SOH, bytes_of, number, shown, word};
use session_core::{ALL_USED, LinkState, Numbers, Session};
use std::alloc::{AllocError, Global};

/// 2024-01-02 10:00:00.
const NOW: u64 = 1_704_189_600_000;

fn config() -> Option<Config> {
    Some(Config {
        names: names()?,
        heart: 30,
        window: 120,
        reset: None,
    })
}

// The journal on a disk, and the core behind it.
fn loaded(
    alloc: Global,
    disk: &mut MemDisk,
    config: &Config,
) -> Result<(Journal, Core), JournalError> {
    let mut joining = Joining::new(alloc)?;
    let journal = Journal::load(alloc, disk, &config.names, &mut joining)?;
    let core = Core::new(config, journal.next(), joining.into_chains());
    Ok((journal, core))
}

/// The journal of these records and the core behind it; none where they are no journal.
pub(crate) fn restarted(
    alloc: Global,
    image: &[u8],
) -> Result<Option<(Journal, Core)>, AllocError> {
    let Some(config) = config() else {
        return Ok(None);
    };
    let mut disk = disk_of(alloc, image)?;
    Ok(loaded(alloc, &mut disk, &config).ok())
}

// An out as its side, number, type and content.
fn out_text(alloc: Global, out: &Out) -> Result<String, AllocError> {
    let msg_type = shown(alloc, out.msg_type.as_slice())?;
    let content = shown(alloc, out.content.as_slice())?;
    format!(in alloc; "{}{} {msg_type} {content}", letter(out.side), out.number)
}

// The outs of a plan.
fn outs_text(alloc: Global, plan: &Plan) -> Result<String, AllocError> {
    let mut text = String::new(alloc);
    if let Some(prepared) = &plan.entry {
        for out in prepared.entry().outs.as_slice() {
            text.push_str(&out_text(alloc, out)?)?;
        }
    }
    Ok(text)
}

// What is sent again, and whose connection is hung up.
fn acts_text(
    alloc: Global,
    resend: Option<(Side, u32, u32)>,
    hang_up: Option<Side>,
) -> Result<String, AllocError> {
    match (resend, hang_up) {
        (Some((side, from, to)), None) => {
            format!(in alloc; "again {} {from} to {to}", letter(side))
        }
        (None, Some(side)) => format!(in alloc; "hang up {}", letter(side)),
        (None, None) => Ok(String::new(alloc)),
        (Some(_), Some(_)) => format!(in alloc; "again and hang up"),
    }
}

// A plan as a text: each out, what is sent again, whose connection is hung up.
fn plan_text(alloc: Global, plan: &Plan) -> Result<String, AllocError> {
    let outs = outs_text(alloc, plan)?;
    let acts = acts_text(alloc, plan.resend, plan.hang_up)?;
    if outs.is_empty() && acts.is_empty() {
        return format!(in alloc; "nothing");
    }
    format!(in alloc; "{outs}{acts}")
}

// What is planned, as a text, or whose numbers are spent.
fn planned_text(alloc: Global, plan: &Result<Plan, PlanError>) -> Result<String, AllocError> {
    match plan {
        Ok(plan) => plan_text(alloc, plan),
        Err(PlanError::NumbersSpent { side }) => format!(in alloc; "spent {}", letter(*side)),
        Err(PlanError::NoMemory) => Err(AllocError),
    }
}

// Does what is planned, and answers it as a text.
fn done(alloc: Global, core: &mut Core, plan: Result<Plan, PlanError>) -> Result<String, AllocError>
    requires { IfOk plan (λ p. IsNew core.old.chains p.item) }
{
    let text = planned_text(alloc, &plan)?;
    if let Ok(plan) = plan {
        core.hold(plan.item)?;
        core.apply(plan.client, plan.venue, plan.fresh);
    }
    Ok(text)
}

// What is planned at a frame of this body.
fn body_plan(
    alloc: Global,
    core: &Core,
    journal: &Journal,
    side: Side,
    body: &[u8],
) -> Result<Plan, PlanError>
    requires { IsBody body.now }
    ensures { IfOk result (λ plan. IsNew core.now.chains plan.item) }
{
    core.plan(alloc, journal, &Event::Frame(side, body), NOW)
}

/// What is planned where a side's connection opened, or where it ended, as a text, once it is done.
pub(crate) fn connected(
    alloc: Global,
    core: &mut Core,
    journal: &Journal,
    side: Side,
    has_opened: bool,
) -> Result<String, AllocError> {
    let plan = if has_opened {
        core.plan(alloc, journal, &Event::Opened(side), NOW)
    } else {
        core.plan(alloc, journal, &Event::Closed(side), NOW)
    };
    done(alloc, core, plan)
}

fn frame_of(
    alloc: Global,
    core: &mut Core,
    journal: &Journal,
    side: Side,
    body: &[u8],
) -> Result<String, AllocError> {
    if !is_body(body) {
        return format!(in alloc; "no body");
    }
    let plan = body_plan(alloc, core, journal, side, body);
    done(alloc, core, plan)
}

/// The same where a frame of this body came.
pub(crate) fn frame(
    alloc: Global,
    core: &mut Core,
    journal: &Journal,
    side: Side,
    text: &str,
) -> Result<String, AllocError> {
    let body = bytes_of(alloc, &[SOH], text)?;
    frame_of(alloc, core, journal, side, &body)
}

// A session that is logged on and expects message 8.
fn active_session(side: Side, next_out: u32) -> Option<Session> {
    if next_out == 0 || next_out > ALL_USED {
        return None;
    }
    Some(Session {
        side,
        link: LinkState::Active,
        numbers: Numbers {
            next_in: 8,
            next_out,
        },
        heart: 30,
        seen: NOW,
        said: NOW,
        tested: None,
        ask: None,
    })
}

fn both_active(given: &str) -> Option<(Session, Session)> {
    let client = active_session(Client, number(word(given, 0))?)?;
    let venue = active_session(Venue, number(word(given, 1))?)?;
    Some((client, venue))
}

/// Sets both sessions to be logged on and to expect message 8: given are the next numbers to the
/// client and to the venue.
pub(crate) fn active(alloc: Global, core: &mut Core, given: &str) -> Result<String, AllocError> {
    match both_active(given) {
        Some((client, venue)) => {
            core.apply(client, venue, None);
            numbers(alloc, core)
        }
        None => format!(in alloc; "no next numbers"),
    }
}

/// Begins a session day, and answers the same.
pub(crate) fn begun(
    alloc: Global,
    core: &mut Core,
    journal: &Journal,
) -> Result<String, AllocError> {
    let plan = core.plan(alloc, journal, &Event::NewDay, NOW);
    done(alloc, core, plan)?;
    numbers(alloc, core)
}

/// The next numbers of both sessions: in and out of the client's, in and out of the venue's.
pub(crate) fn numbers(alloc: Global, core: &Core) -> Result<String, AllocError> {
    let client = core.session(Client).numbers;
    let venue = core.session(Venue).numbers;
    format!(in alloc;
        "{} {} {} {}",
        client.next_in, client.next_out, venue.next_in, venue.next_out
    )
}

// What is planned at a frame of this body, as a text.
fn body_text(
    alloc: Global,
    core: &Core,
    journal: &Journal,
    side: Side,
    body: &[u8],
) -> Result<String, AllocError>
    requires { IsBody body.now }
{
    let plan = body_plan(alloc, core, journal, side, body);
    planned_text(alloc, &plan)
}

// What is planned at a frame of this body while the core holds this item, and after.
fn while_held(
    alloc: Global,
    core: &mut Core,
    journal: &Journal,
    side: Side,
    body: &[u8],
    item: ChainItem,
) -> Result<String, AllocError>
    requires body { IsBody body.now }
    requires item { IsNew core.old.chains (Some item) }
{
    core.hold(Some(item))?;
    let meanwhile = body_text(alloc, core, journal, side, body);
    core.undo();
    let after = body_text(alloc, core, journal, side, body);
    format!(in alloc; "{} / {}", meanwhile?, after?)
}

fn held_body(
    alloc: Global,
    core: &mut Core,
    journal: &Journal,
    side: Side,
    body: &[u8],
) -> Result<String, AllocError> {
    if !is_body(body) {
        return format!(in alloc; "no body");
    }
    match body_plan(alloc, core, journal, side, body) {
        Ok(plan) => {
            let item = plan.item;
            match item {
                Some(item) => while_held(alloc, core, journal, side, body, item),
                None => format!(in alloc; "no item"),
            }
        }
        Err(_) => format!(in alloc; "no item"),
    }
}

/// What is planned at a frame of this body while the core holds the item of its plan, and after
/// that was taken out again.
pub(crate) fn held(
    alloc: Global,
    core: &mut Core,
    journal: &Journal,
    side: Side,
    text: &str,
) -> Result<String, AllocError> {
    let body = bytes_of(alloc, &[SOH], text)?;
    held_body(alloc, core, journal, side, &body)
}
