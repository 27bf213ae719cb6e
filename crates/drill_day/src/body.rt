//! The bodies of a drill's messages.

ghost use Rattle.std.specs.Prelude.{◌≡◌, ◌<◌, ◌+◌, ◌-◌, ◌^◌, ◌++◌, codes, IfOk, OnOk};
ghost use Rattle.order_meaning.specs.declared.Side.TheVariants.{Client, Venue};
ghost use Rattle.drill_day.specs.declared.body.MsgType.TheVariants.{Logon, NewOrderSingle};
ghost use Rattle.drill_day.specs.declared.body.MsgType.TheVariants.{ExecutionReport};
ghost use Rattle.drill_day.specs.Drill.{text_field, number_field, type_text, sender_text, header};
ghost use Rattle.drill_day.specs.Drill.{logon, new_order, reference, reject_reason, fill_fields};
ghost use Rattle.drill_day.specs.Drill.{exec_text, status_text, report_fields};

use crate::order::Drawn;
use crate::report::{ExecType, Report};
use frame_grammar::SOH;
use itoa::Buffer;
use order_meaning::{Bytes, Side};
use std::alloc::{AllocError, Global};

/// The messages of a drill, by MsgType(35).
#[derive(Clone, Copy, Debug, PartialEq, Eq)]
pub(crate) enum MsgType {
    Logon,
    NewOrderSingle,
    ExecutionReport,
}

impl MsgType {
    /// Its field, without SOH.
    fn text(self) -> &'static [u8]
        ensures { result.now ≡ type_text self }
    {
        match self {
            MsgType::Logon => b"35=A",
            MsgType::NewOrderSingle => b"35=D",
            MsgType::ExecutionReport => b"35=8",
        }
    }
}

/// SenderCompID(49) of a side, without SOH.
fn sender_text(side: Side) -> &'static [u8]
    ensures { result.now ≡ sender_text side }
{
    match side {
        Side::Client => b"49=CLNT",
        Side::Venue => b"49=VENU",
    }
}

/// Appends a field of this text.
fn put_text(body: &mut Bytes, text: &[u8]) -> Result<(), AllocError>
    ensures { OnOk result (body.new ≡ body.old ++ text_field text.now) }
{
    body.extend_from_slice(text)?;
    body.extend_from_slice(&[SOH])
}

/// Appends a field of this text and a number.
fn put_number(body: &mut Bytes, text: &[u8], number: u32) -> Result<(), AllocError>
    ensures { OnOk result (body.new ≡ body.old ++ number_field text.now number) }
{
    body.extend_from_slice(text)?;
    body.extend_from_slice(Buffer::new().format(number).as_bytes())?;
    body.extend_from_slice(&[SOH])
}

/// The header of a side's message of this number.
fn header(alloc: Global, side: Side, msg_type: MsgType, number: u32) -> Result<Bytes, AllocError>
    ensures { IfOk result (λ body. body ≡ header side msg_type number) }
{
    let mut body = Bytes::new(alloc);
    put_text(&mut body, msg_type.text())?;
    put_text(&mut body, sender_text(side))?;
    put_text(&mut body, b"56=GATE")?;
    put_number(&mut body, b"34=", number)?;
    put_text(&mut body, b"52=20240102-10:00:00")?;
    Ok(body)
}

/// Appends the fields of a side's Logon.
fn put_logon(body: &mut Bytes, side: Side) -> Result<(), AllocError>
    ensures { OnOk result (body.new ≡ body.old ++ logon side) }
{
    put_text(body, b"98=0")?;
    put_text(body, b"108=30")?;
    match side {
        Side::Client => Ok(()),
        Side::Venue => put_text(body, b"1137=9"),
    }
}

/// Appends the fields of the New Order of this number.
fn put_order(body: &mut Bytes, number: u32, order: &Drawn) -> Result<(), AllocError>
    ensures { OnOk result (body.new ≡ body.old ++ new_order number order.now) }
{
    put_number(body, b"11=C", number)?;
    put_text(body, b"21=1")?;
    put_text(body, b"55=SYM")?;
    put_number(body, b"54=", order.side)?;
    put_text(body, b"60=20240102-10:00:00")?;
    put_number(body, b"38=", order.quantity)?;
    put_text(body, b"40=2")?;
    put_number(body, b"44=", order.price)
}

/// Appends ExecRefID(19), where a report of this type is of the one before.
fn put_reference(body: &mut Bytes, exec_type: ExecType, before: u32) -> Result<(), AllocError>
    ensures { OnOk result (body.new ≡ body.old ++ reference exec_type before) }
{
    match exec_type {
        ExecType::TradeCancel | ExecType::TradeCorrect => put_number(body, b"19=E", before),
        _ => Ok(()),
    }
}

/// Appends OrdRejReason(103), where a report of this type rejects.
fn put_reason(body: &mut Bytes, exec_type: ExecType) -> Result<(), AllocError>
    ensures { OnOk result (body.new ≡ body.old ++ reject_reason exec_type) }
{
    match exec_type {
        ExecType::Rejected => put_text(body, b"103=0"),
        _ => Ok(()),
    }
}

/// Appends LastQty(32) and LastPx(31) of a fill.
fn put_fill(body: &mut Bytes, fill: Option<u32>, price: u32) -> Result<(), AllocError>
    ensures { OnOk result (body.new ≡ body.old ++ fill_fields fill price) }
{
    match fill {
        None => Ok(()),
        Some(quantity) => {
            put_number(body, b"32=", quantity)?;
            put_number(body, b"31=", price)
        }
    }
}

/// Appends the fields of a report up to its type, where so many reports came before.
fn put_ids(
    body: &mut Bytes,
    number: u32,
    before: u32,
    exec_type: ExecType,
) -> Result<(), AllocError>
    requires { before < 2 ^ 32 - 1 }
    ensures { OnOk result (body.new ≡ body.old ++ (number_field (codes "37=O") number
        ++ number_field (codes "11=C") number ++ number_field (codes "17=E") (before + 1)
        ++ reference exec_type before)) }
{
    put_number(body, b"37=O", number)?;
    put_number(body, b"11=C", number)?;
    put_number(body, b"17=E", before + 1)?;
    put_reference(body, exec_type, before)
}

/// Appends what a report says of its order.
fn put_state(body: &mut Bytes, order: &Drawn, report: &Report) -> Result<(), AllocError>
    ensures { OnOk result (body.new ≡ body.old ++ (text_field (exec_text report.now.exec_type)
        ++ text_field (status_text report.now.status) ++ reject_reason report.now.exec_type
        ++ text_field (codes "55=SYM") ++ number_field (codes "54=") order.now.side)) }
{
    put_text(body, report.exec_type.text())?;
    put_text(body, report.status.text())?;
    put_reason(body, report.exec_type)?;
    put_text(body, b"55=SYM")?;
    put_number(body, b"54=", order.side)
}

/// Appends the fill of a report, and its sums.
fn put_sums(body: &mut Bytes, price: u32, report: &Report) -> Result<(), AllocError>
    ensures { OnOk result (body.new ≡ body.old ++ (fill_fields report.now.fill price
        ++ number_field (codes "151=") report.now.leaves
        ++ number_field (codes "14=") report.now.cum
        ++ number_field (codes "6=") report.now.average)) }
{
    put_fill(body, report.fill, price)?;
    put_number(body, b"151=", report.leaves)?;
    put_number(body, b"14=", report.cum)?;
    put_number(body, b"6=", report.average)
}

/// The body of a side's Logon, which is its message 1.
pub(crate) fn logon_body(alloc: Global, side: Side) -> Result<Bytes, AllocError>
    ensures { IfOk result (λ body. body ≡ header side Logon 1 ++ logon side) }
{
    let mut body = header(alloc, side, MsgType::Logon, 1)?;
    put_logon(&mut body, side)?;
    Ok(body)
}

/// The body of the New Order of this number, as the client's message `sequence`.
pub(crate) fn order_body(
    alloc: Global,
    sequence: u32,
    number: u32,
    order: &Drawn,
) -> Result<Bytes, AllocError>
    ensures { IfOk result (λ body. body ≡
        header Client NewOrderSingle sequence ++ new_order number order.now) }
{
    let mut body = header(alloc, Side::Client, MsgType::NewOrderSingle, sequence)?;
    put_order(&mut body, number, order)?;
    Ok(body)
}

/// Where a report stands in a drill.
#[derive(Clone, Copy, Debug)]
pub(crate) struct Place {
    /// MsgSeqNum(34).
    pub(crate) sequence: u32,
    /// The number of its order.
    pub(crate) number: u32,
    /// How many reports came before.
    pub(crate) before: u32,
}

/// The body of a report.
pub(crate) fn report_body(
    alloc: Global,
    place: Place,
    order: &Drawn,
    report: &Report,
) -> Result<Bytes, AllocError>
    requires { place.before < 2 ^ 32 - 1 }
    ensures { IfOk result (λ body. body ≡ header Venue ExecutionReport place.sequence
        ++ report_fields place.number place.before order.now report.now) }
{
    let mut body = header(alloc, Side::Venue, MsgType::ExecutionReport, place.sequence)?;
    put_ids(&mut body, place.number, place.before, report.exec_type)?;
    put_state(&mut body, order, report)?;
    put_sums(&mut body, order.price, report)?;
    Ok(body)
}
