//! Translating the body of a report of FIX 5.0 SP2 to FIX 4.2.

ghost use Rattle.std.specs.Prelude.{◌≡◌, ◌++◌, ℕ, List, IfErr, OnOk, OnErr};
ghost use Rattle.field_groups.specs.Field.{Field};
ghost use Rattle.report_translate.specs.Translation.{IsKnown, IsTranslation, IsRefused};
ghost use Rattle.report_translate.specs.Translation.{IsRefusedByCheck};

use crate::checking::check_fields;
use crate::report::Down;
use field_groups::{Split, split_into};
use reports_fix50::ReportTables;
use std::alloc::Global;
use translation::{TranslateError, translate};

/// Translates bodies of reports. It keeps the memory for one body from each call to the next.
#[derive(Drop)]
pub struct ReportTranslator {
    way: Down,
    down: Vec<u8>,
}

impl ReportTranslator {
    /// A translator, which takes its memory by `alloc`, and none yet.
    pub fn new(alloc: Global) -> ReportTranslator {
        ReportTranslator {
            way: Down {
                alloc,
                tables: ReportTables::new(),
            },
            down: Vec::new(alloc),
        }
    }

    /// Appends to `out` the FIX 4.2 frame of the report that means what a body of FIX 5.0 SP2
    /// means, and changes each book alike.
    ///
    /// The body is that of an Execution Report(8) or an Order Cancel Reject(9). The frame has its
    /// MsgType(35), of its header the fields 49, 56, 34, 43, 97, 52 and 122 that it has, as they
    /// stand and in this order, and then the content that means the same, with ExecTransType(20),
    /// ExecType(150), OrdStatus(39) and ExecID(17) by the mapping. It has at most 8,218 bytes.
    ///
    /// # Errors
    ///
    /// `Faulty` for the first fault of the body; `Lacking(150)` where its ExecType(150) has no
    /// counterpart, and `Lacking(41)` where a cancel reject says no OrigClOrdID(41); `TooLong`
    /// where the content would have more than 7,936 bytes or the body more than 8,192, each
    /// exactly there; `NoMemory` for want of memory. `out` is then as it was.
    pub fn translate(&mut self, body: &[u8], out: &mut Vec<u8>) -> Result<(), TranslateError>
        ensures ok { OnOk result ((text : List ℕ)
            × IsTranslation body.now text × (out.new.items ≡ out.old.items ++ text)) }
        ensures refused { IfErr result (IsRefused body.now) }
        ensures err { OnErr result (out.new.items ≡ out.old.items) }
    {
        let alloc = self.way.alloc;
        translate(&self.way, alloc, body, &mut self.down, out)
    }

    /// Whether a body of FIX 5.0 SP2 has a translation, of whatever length. The order that a cancel
    /// reject is of counts as known.
    ///
    /// # Errors
    ///
    /// `Faulty` and `Lacking(150)` as `translate` has them; `NoMemory` for want of memory.
    pub fn check(&self, body: &[u8]) -> Result<(), TranslateError>
        ensures ok { OnOk result ((fields : List Field) × IsKnown body.now fields) }
        ensures refused { IfErr result (IsRefusedByCheck body.now) }
    {
        let mut split = Split::new(self.way.alloc);
        split_into(body, &mut split)?;
        check_fields(&self.way.tables, &split)
    }
}
