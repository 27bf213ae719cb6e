//! The day of a drill.

ghost use Rattle.std.specs.Prelude.{◌≡◌, ◌≤◌, ◌∷◌, ◌++◌, [], length, All, IfOk, OnOk};
ghost use Rattle.capture_text.specs.declared.capture.Event.TheVariants.{Opened};
ghost use Rattle.capture_text.specs.Capture.{IsCapture};
ghost use Rattle.drill_day.specs.Drill.{logon_event, drill_begin, life_with, drill_names};
ghost use Rattle.drill_day.specs.Drill.{drill_heart, drill_events, drill_capture, kinds_of};
ghost use Rattle.drill_day.specs.Day.{IsSmall};

use crate::Kinds;
use crate::body::logon_body;
use crate::day::{Day, Numbers};
use crate::kinds::kinds_in;
use crate::order::{Drawn, draw_orders};
use capture_text::{Event, Life};
use order_meaning::{Name, Names, Side};
use std::alloc::{AllocError, Global};

/// When the day begins: 2024-01-02 10:00:00 UTC, in milliseconds since 1970-01-01 00:00 UTC.
const MORNING: u64 = 1_704_189_600_000;

/// HeartBtInt(108) of both sessions, in seconds.
const HEART: u32 = 30;

/// The day of a drill, as the one life of a capture, and what it has.
#[derive(Debug, Drop)]
pub struct Drill {
    /// The names of both sessions.
    pub names: Names,
    /// HeartBtInt(108) of both, in seconds.
    pub heart: u32,
    /// What comes, from the Logons on.
    pub life: Life,
    /// How many orders of each kind it has.
    pub kinds: Kinds,
}

/// The names of both sessions.
fn names() -> Names
    ensures { result ≡ drill_names }
{
    Names {
        client_our: Name::new(b"GATE").unwrap(),
        client_peer: Name::new(b"CLNT").unwrap(),
        venue_our: Name::new(b"GATE").unwrap(),
        venue_peer: Name::new(b"VENU").unwrap(),
    }
}

/// Opens a side, and adds its Logon.
fn open_side(alloc: Global, life: &mut Life, side: Side) -> Result<(), AllocError>
    ensures { OnOk result (life.new ≡ life.old ++ Opened side ∷ logon_event side ∷ []) }
{
    life.push(Event::Opened(side))?;
    life.push(Event::Frame(side, logon_body(alloc, side)?))
}

/// A life in which both sides have logged on.
fn begin(alloc: Global) -> Result<Life, AllocError>
    ensures { IfOk result (λ life. life ≡ drill_begin) }
{
    let mut life = Life::new(alloc);
    life.push(Event::At(MORNING))?;
    open_side(alloc, &mut life, Side::Venue)?;
    open_side(alloc, &mut life, Side::Client)?;
    Ok(life)
}

/// The life in which these orders are played.
fn life_of(alloc: Global, orders: &[Drawn]) -> Result<Life, AllocError>
    requires few { length orders.now ≤ 10000 }
    requires small { All IsSmall orders.now }
    ensures { IfOk result (λ life. life ≡ life_with orders.now) }
{
    let mut day = Day {
        life: begin(alloc)?,
        numbers: Numbers {
            client: 2,
            venue: 2,
        },
        reports: 0,
    };
    day.play_all(alloc, orders)?;
    Ok(day.life)
}

/// A large valid day: `count` orders, from 1 to 10,000, drawn from `first` on, which
/// is from 0 to 65,536. In its one life both sides log on, and for each order the client sends a
/// New Order and the venue its reports.
///
/// # Errors
/// `AllocError` for want of memory.
pub fn drill_day(alloc: Global, first: u64, count: u32) -> Result<Drill, AllocError>
    requires first { first ≤ 65536 }
    requires count { (1 ≤ count) × (count ≤ 10000) }
    ensures names { IfOk result (λ d. d.names ≡ drill_names) }
    ensures heart { IfOk result (λ d. d.heart ≡ drill_heart) }
    ensures life { IfOk result (λ d. d.life ≡ drill_events first count) }
    ensures kinds { IfOk result (λ d. d.kinds ≡ kinds_of first count) }
    // It is the one life of a capture.
    ensures sound { OnOk result (IsCapture (drill_capture first count)) }
{
    let orders = draw_orders(alloc, first, count)?;
    Ok(Drill {
        names: names(),
        heart: HEART,
        life: life_of(alloc, &orders)?,
        kinds: kinds_in(&orders),
    })
}
