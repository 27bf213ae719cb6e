//! Which outs of an event are sent, and which sessions stand behind it.

ghost use Rattle.std.specs.Prelude.{◌≡◌, false, true};
ghost use Rattle.std.specs.Option.{ForSome, option_map, option_map_or};
ghost use Rattle.kept_entries.specs.Numbers.{is_side};
ghost use Rattle.event_decisions.specs.Event.{side_of};
ghost use Rattle.event_decisions.specs.Decide.{session_of};
ghost use Rattle.gateway_core.specs.State.{event_of, sessions_in};
ghost use Rattle.life_laws.specs.Happens.{is_sent, standing};

use gateway_core::{Core, Event};
use order_meaning::Side;
use session_core::{LinkState, Session};
use wire_sends::is_side;

// The side of an event; none has a new day.
fn side_of(event: &Event<'_>) -> Option<Side>
    ensures { result ≡ option_map side_of (event_of event.now) }
{
    match event {
        Event::Opened(side)
        | Event::Frame(side, _)
        | Event::Closed(side)
        | Event::Tick(side)
        | Event::End(side) => Some(*side),
        Event::NewDay => None,
    }
}

// Whether an event is of a side.
fn is_of(event: &Event<'_>, side: Side) -> bool
    ensures { result ≡ option_map_or (is_side side) (option_map side_of (event_of event.now)) false }
{
    match side_of(event) {
        Some(own) => is_side(side, own),
        None => false,
    }
}

/// Whether outs to a side are sent at an event: those of its own side, and of the other side where
/// that session is active.
pub(crate) fn is_sent(side: Side, event: &Event<'_>, core: &Core) -> bool
    ensures { ForSome (event_of event.now) (λ e. result ≡ is_sent side e (sessions_in core.now)) }
{
    is_of(event, side) || matches!(core.session(side).link, LinkState::Active)
}

/// The session of a side, which is down without a connection.
pub(crate) fn standing(up: bool, side: Side, core: &Core) -> Session
    ensures { result ≡ standing up (session_of side (sessions_in core.now)) }
{
    let session = core.session(side);
    if up { *session } else { session.on_closed() }
}

/// Whether the session of a side stands or is down already, as its connection does.
pub(crate) fn stands(up: bool, side: Side, core: &Core) -> bool
    ensures { result ≡ true → standing up (session_of side (sessions_in core.now))
        ≡ session_of side (sessions_in core.now) }
{
    let session = core.session(side);
    up || matches!(
        (session.link, session.tested, session.ask),
        (LinkState::Down, None, None)
    )
}
