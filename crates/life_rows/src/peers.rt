//! A peer, which takes the messages that it expects.

use row_words::{number, shown};
use std::alloc::{AllocError, Global};
use wires::MemWire;

/// What a peer reads of a message: its type, its number, NewSeqNo(36), ClOrdID(11), ExecID(17).
#[derive(Clone, Copy)]
struct Message<'a> {
    msg_type: &'a str,
    number: u32,
    new_number: u32,
    order: &'a str,
    report: &'a str,
}

impl<'a> Message<'a> {
    // No field was read.
    fn new() -> Message<'a> {
        Message {
            msg_type: "",
            number: 0,
            new_number: 0,
            order: "",
            report: "",
        }
    }

    // The message with another field.
    fn with(self, tag: &'a str, value: &'a str) -> Message<'a> {
        let mut message = self;
        match tag {
            "35" => message.msg_type = value,
            "34" => message.number = number(value).unwrap_or(0),
            "36" => message.new_number = number(value).unwrap_or(0),
            "11" => message.order = value,
            "17" => message.report = value,
            _ => {}
        }
        message
    }

    // The id of an order or of a report, and `j` for a refusal.
    fn id(&self) -> &'a str {
        match self.msg_type {
            "D" => self.order,
            "8" => self.report,
            "j" => "j",
            _ => "",
        }
    }
}

/// The number that a peer expects, and the ids of the orders and reports that it took, with `j` for
/// a refusal.
#[derive(Drop)]
pub(crate) struct Peer {
    next: u32,
    taken: String,
}

impl Peer {
    /// A peer that took nothing.
    pub(crate) fn new(alloc: Global) -> Peer {
        Peer {
            next: 1,
            taken: String::new(alloc),
        }
    }

    /// What it took.
    pub(crate) fn taken(&self) -> &str {
        self.taken.as_str()
    }

    // Takes an id, where there is one.
    fn take_id(&mut self, id: &str) -> Result<(), AllocError> {
        if id.is_empty() {
            return Ok(());
        }
        self.taken.push(' ')?;
        self.taken.push_str(id)
    }

    // Takes a message whose number it expects.
    fn take_message(&mut self, message: &Message<'_>) -> Result<(), AllocError> {
        if message.number != self.next {
            return Ok(());
        }
        if message.msg_type == "4" {
            self.next = message.new_number;
            return Ok(());
        }
        self.next = self.next.saturating_add(1);
        self.take_id(message.id())
    }

    // Takes what was written on a connection, but for a frame that was cut short.
    fn take(&mut self, written: &str) -> Result<(), AllocError> {
        let mut message = Message::new();
        for field in written.split('|') {
            let (tag, value) = field.split_once('=').unwrap_or((field, ""));
            if tag == "10" {
                self.take_message(&message)?;
                message = Message::new();
            } else {
                message = message.with(tag, value);
            }
        }
        Ok(())
    }

    /// Takes what was written on all connections of a wire.
    pub(crate) fn take_all(&mut self, alloc: Global, wire: &MemWire) -> Result<(), AllocError> {
        for connection in wire.connections() {
            let written = shown(alloc, &connection.written)?;
            self.take(&written)?;
        }
        Ok(())
    }
}
