//! A day while it is made: its events, and the next number of each side.

ghost use Rattle.std.specs.Prelude.{◌≡◌, ◌<◌, ◌≤◌, ◌-◌, ◌^◌, [], ◌∷◌, ◌++◌, length, All, OnOk};
ghost use Rattle.capture_text.specs.declared.capture.Event.TheVariants.{Frame};
ghost use Rattle.drill_day.specs.Drill.{number_of, past, order_message, report_message};
ghost use Rattle.drill_day.specs.Drill.{report_messages, reports_of};
ghost use Rattle.drill_day.specs.Day.{with_orders, IsUpTo, IsSmall, Adds, Plays};

use crate::body::{Place, order_body, report_body};
use crate::order::{Drawn, OrderKind};
use crate::report::{Report, accepted, busted, corrected, filled, half_filled, rejected};
use capture_text::{Event, Life};
use order_meaning::{Bytes, Side};
use std::alloc::{AllocError, Global};

/// The next MsgSeqNum(34) of each side.
#[derive(Clone, Copy, Debug)]
pub(crate) struct Numbers {
    pub(crate) client: u32,
    pub(crate) venue: u32,
}

impl Numbers {
    /// The numbers after a message of a side.
    fn past(self, side: Side) -> Numbers
        requires { number_of side self < 2 ^ 32 - 1 }
        ensures { result ≡ past side self }
    {
        match side {
            Side::Client => Numbers {
                client: self.client + 1,
                venue: self.venue,
            },
            Side::Venue => Numbers {
                client: self.client,
                venue: self.venue + 1,
            },
        }
    }
}

/// A day while it is made.
#[derive(Debug, Drop)]
pub(crate) struct Day {
    /// What has come in it.
    pub(crate) life: Life,
    /// The next number of each side.
    pub(crate) numbers: Numbers,
    /// How many reports there are.
    pub(crate) reports: u32,
}

impl Day {
    /// Adds the frame of a side's message.
    fn send(&mut self, side: Side, body: Bytes) -> Result<(), AllocError>
        requires { number_of side self.old.numbers < 2 ^ 32 - 1 }
        ensures life { OnOk result (self.new.life ≡ self.old.life ++ Frame side body ∷ []) }
        ensures numbers { OnOk result (self.new.numbers ≡ past side self.old.numbers) }
        ensures reports { OnOk result (self.new.reports ≡ self.old.reports) }
    {
        self.life.push(Event::Frame(side, body))?;
        self.numbers = self.numbers.past(side);
        Ok(())
    }

    /// Sends the New Order of this number.
    fn send_order(&mut self, alloc: Global, number: u32, order: &Drawn) -> Result<(), AllocError>
        requires { IsUpTo (2 ^ 31) self.old }
        ensures { OnOk result (Adds (order_message number order.now ∷ []) 0 self.old self.new) }
    {
        let body = order_body(alloc, self.numbers.client, number, order)?;
        self.send(Side::Client, body)?;
        Ok(())
    }

    /// Sends a report on the order of this number.
    fn send_report(
        &mut self,
        alloc: Global,
        number: u32,
        order: &Drawn,
        report: &Report,
    ) -> Result<(), AllocError>
        requires { IsUpTo (2 ^ 31) self.old }
        ensures { OnOk result (Adds
            (report_message number self.old.reports order.now report.now ∷ []) 1
            self.old self.new) }
    {
        let place = Place {
            sequence: self.numbers.venue,
            number,
            before: self.reports,
        };
        let body = report_body(alloc, place, order, report)?;
        self.send(Side::Venue, body)?;
        self.reports += 1;
        Ok(())
    }

    /// Sends the reports on the order of this number, by its kind.
    fn send_reports(&mut self, alloc: Global, number: u32, order: &Drawn) -> Result<(), AllocError>
        requires room { IsUpTo (2 ^ 30) self.old }
        requires small { IsSmall order.now }
        ensures { OnOk result (Adds
            (report_messages number self.old.reports order.now (reports_of order.now))
            (length (reports_of order.now)) self.old self.new) }
    {
        match order.kind {
            OrderKind::Filled => {
                self.send_report(alloc, number, order, &accepted(order))?;
                self.send_report(alloc, number, order, &filled(order))?;
            }
            OrderKind::Busted => {
                self.send_report(alloc, number, order, &accepted(order))?;
                self.send_report(alloc, number, order, &half_filled(order))?;
                self.send_report(alloc, number, order, &busted(order))?;
            }
            OrderKind::Corrected => {
                self.send_report(alloc, number, order, &accepted(order))?;
                self.send_report(alloc, number, order, &half_filled(order))?;
                self.send_report(alloc, number, order, &corrected(order))?;
            }
            OrderKind::Rejected => self.send_report(alloc, number, order, &rejected())?,
        }
        Ok(())
    }

    /// Plays the order of this number: the New Order, and the reports on it.
    fn play(&mut self, alloc: Global, number: u32, order: &Drawn) -> Result<(), AllocError>
        requires room { IsUpTo (2 ^ 29) self.old }
        requires small { IsSmall order.now }
        ensures { OnOk result (Plays number order.now self.old self.new) }
    {
        self.send_order(alloc, number, order)?;
        self.send_reports(alloc, number, order)?;
        Ok(())
    }

    /// Plays these orders, numbered from 1 on.
    pub(crate) fn play_all(&mut self, alloc: Global, orders: &[Drawn]) -> Result<(), AllocError>
        requires room { IsUpTo 2 self.old }
        requires few { length orders.now ≤ 10000 }
        requires small { All IsSmall orders.now }
        ensures { OnOk result (self.new.life ≡ with_orders 1 self.old orders.now) }
    {
        let mut number = 1;
        for order in orders {
            self.play(alloc, number, order)?;
            number += 1;
        }
        Ok(())
    }
}
