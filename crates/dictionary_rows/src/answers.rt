//! The calls of rows.

use crate::requests::Asked::{Content, Type};
use crate::wires::SIGNS;
use crate::words::answered;
use crate::{downward, fix44, refusals, reports42, reports50, requests, upward};
use row_words::{Answers, Sign};
use std::alloc::{AllocError, Global};

/// The calls of the dictionaries, the translators and the refusals.
#[derive(Drop)]
pub struct Calls;

impl Answers for Calls {
    fn answer(&mut self, alloc: Global, call: &str, given: &str) -> Result<Vec<u8>, AllocError> {
        match call {
            "read42" => requests::of_42(alloc, Type, given),
            "write42" => requests::of_42(alloc, Content, given),
            "read50" => requests::of_50(alloc, Type, given),
            "write50" => requests::of_50(alloc, Content, given),
            "read44" => fix44::of_44(alloc, Type, given),
            "write44" => fix44::of_44(alloc, Content, given),
            "up44" => fix44::up(alloc, given),
            "down_report44" => fix44::report(alloc, given),
            "down_cancel_reject44" => fix44::cancel_reject(alloc, given),
            "report42" => reports42::content(alloc, given),
            "report50" => reports50::content(alloc, given),
            "up" => upward::frame(alloc, given),
            "down_report" => downward::report(alloc, given),
            "down_cancel_reject" => downward::cancel_reject(alloc, given),
            "down" => downward::frame(alloc, given),
            "length_down" => downward::length(alloc, given),
            "check_refusal" => refusals::check(alloc, given),
            "refusal" => refusals::of_fault(alloc, given),
            "renumber" => refusals::of_other(alloc, given),
            "used" => refusals::of_used(alloc, given),
            "away" => refusals::of_away(alloc, given),
            _ => answered(alloc, "no such call"),
        }
    }

    fn signs(&self) -> &'static [Sign] {
        &SIGNS
    }
}
