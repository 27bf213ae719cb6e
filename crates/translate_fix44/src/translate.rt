//! Translating bodies from FIX 4.4 and to it.

ghost use Rattle.std.specs.Prelude.{◌≡◌, ◌++◌, ℕ, List, IfErr, None, OnErr, OnOk};
ghost use Rattle.std.specs.Option.{option_map};
ghost use Rattle.field_groups.specs.Field.{Field};
ghost use Rattle.first_faults.specs.Gives.{IsCleanIf};
ghost use Rattle.dict_fix44.specs.Message.{refusal44, refusal_table_of};
ghost use Rattle.translation.specs.Bodies.{Goes, IsRefused, IsRefusedByCheck, IsTranslation};
ghost use Rattle.translation.specs.Going.{Appends, AreGone, StayBack};
ghost use Rattle.translation.specs.Header.{type_of};
ghost use Rattle.report_translate.specs.Refusals.{IsFaultyRefusal, IsGoodRefusal};
ghost use Rattle.translate_fix44.specs.Translation.{direction, down_by, up};

use crate::asking::good_request;
use crate::putting::{lack_up, put_down, put_up};
use dict_fix44::{RequestTables, refusal_table};
use field_groups::{Fields, Split, split, split_into};
use first_faults::good_fields;
use frame_grammar::Kind;
use order_meaning::Fault;
use reports_fix50::ReportTables;
use std::alloc::{AllocError, Global};
use translation::{
    TranslateError, Translating, faulty, lacking, msg_type, put_head_down, put_head_up, translate,
};

/// The way of a message between a client of FIX 4.4 and its venue.
#[derive(Clone, Copy, Debug)]
pub enum Way {
    /// A request goes up: a New Order - Single(D), an Order Cancel Request(F), an Order
    /// Cancel/Replace Request(G) or an Order Status Request(H).
    Up,
    /// A report goes down: an Execution Report(8) or an Order Cancel Reject(9).
    Down,
}

/// Appends the content of FIX 5.0 SP2 of the request that stands for the fields of a body.
///
/// # Errors
///
/// As [`Translator44::translate`] has them, but for the length. A part may stand behind what stood
/// in `out`.
#[tactic(auto, using(crate::proofs::Put::of_source))]
pub fn put_request(
    alloc: Global,
    tables: &RequestTables,
    split: &Split<'_>,
    out: &mut Vec<u8>,
) -> Result<(), TranslateError>
    ensures ok { OnOk result
        (Appends up split.now.fields split.now.fault out.old.items out.new.items) }
    ensures refused { IfErr result (StayBack up split.now.fields split.now.fault) }
{
    match good_request(alloc, tables, split) {
        Err(fault) => Err(faulty(fault)),
        Ok(source) => match put_up(&source, out) {
            Ok(()) => Ok(()),
            Err(lack) => Err(lacking(lack)),
        },
    }
}

/// Whether the request that stands for the fields of a body becomes one of FIX 5.0 SP2.
#[tactic(auto, using(crate::proofs::Put::of_source))]
fn check_request(
    alloc: Global,
    tables: &RequestTables,
    split: &Split<'_>,
) -> Result<(), TranslateError>
    ensures ok { OnOk result (AreGone up split.now.fields split.now.fault) }
    ensures refused { IfErr result (StayBack up split.now.fields split.now.fault) }
{
    match good_request(alloc, tables, split) {
        Err(fault) => Err(faulty(fault)),
        Ok(source) => match lack_up(&source) {
            None => Ok(()),
            Some(tag) => Err(TranslateError::Lacking(tag)),
        },
    }
}

/// Appends the content of FIX 4.4 of the report that stands for the fields of a body. A cancel reject
/// (9) that does not name its order is of the original id that is known.
///
/// # Errors
///
/// As [`put_request`] has them.
#[tactic(auto, using(crate::proofs::Put::of_report))]
pub fn put_report(
    alloc: Global,
    tables: &ReportTables,
    split: &Split<'_>,
    known: Option<&[u8]>,
    out: &mut Vec<u8>,
) -> Result<(), TranslateError>
    ensures ok { OnOk result (Appends (down_by (option_map (λ id. id.now) known.entry))
        split.now.fields split.now.fault out.old.items out.new.items) }
    ensures refused { IfErr result (StayBack (down_by (option_map (λ id. id.now) known.entry))
        split.now.fields split.now.fault) }
{
    match tables.good(msg_type(&split.fields), split) {
        Err(fault) => Err(faulty(fault)),
        Ok(fields) => match put_down(alloc, fields, known, out) {
            Ok(()) => Ok(()),
            Err(lack) => Err(lacking(lack)),
        },
    }
}

/// The tables of the messages of both ways.
#[derive(Drop)]
struct Tables {
    requests: RequestTables,
    reports: ReportTables,
}

/// What translates in one way.
#[derive(Drop)]
struct Going<'t> {
    way: Way,
    alloc: Global,
    tables: &'t Tables,
}

impl<'t> Translating for Going<'t> {
    ghost course = { λ going. direction going.way };

    fn kind(&self) -> Kind {
        match self.way {
            Way::Up => Kind::Fixt11,
            Way::Down => Kind::Fix44,
        }
    }

    fn put_head(
        &self,
        body: &[u8],
        fields: &Fields<'_>,
        out: &mut Vec<u8>,
    ) -> Result<(), AllocError> {
        match self.way {
            Way::Up => put_head_up(body, fields, out),
            Way::Down => put_head_down(body, fields, out),
        }
    }

    fn put(&self, split: &Split<'_>, out: &mut Vec<u8>) -> Result<(), TranslateError> {
        match self.way {
            Way::Up => put_request(self.alloc, &self.tables.requests, split, out),
            Way::Down => put_report(self.alloc, &self.tables.reports, split, None, out),
        }
    }

    fn laws(&self) {}
}

/// The fields of a refusal, where they are whole and at no fault beside the table of their type.
fn good_refusal<'s, 'a>(split: &'s Split<'a>) -> Result<&'s Fields<'a>, Fault>
    ensures { IsCleanIf (refusal_table_of (type_of split.now.fields)) split.now.fields
        split.now.fault result }
{
    match refusal_table(msg_type(&split.fields)) {
        None => Err(Fault::NotSupported),
        Some(table) => good_fields(table, split),
    }
}

/// Whether a body is a good Reject(3) or Business Message Reject(j) of a client of FIX 4.4.
///
/// # Errors
///
/// `Faulty` for the first fault of the body, exactly where it has one, and with
/// `Fault::NotSupported` for any other type; `NoMemory` for want of memory.
#[tactic(auto, using(crate::proofs::Put::of_refusal))]
pub fn check_refusal(alloc: Global, body: &[u8]) -> Result<(), TranslateError>
    ensures ok { OnOk result (IsGoodRefusal refusal44 body.now) }
    ensures refused { IfErr result (IsFaultyRefusal refusal44 body.now) }
{
    let split = split(alloc, body)?;
    match good_refusal(&split) {
        Ok(_) => Ok(()),
        Err(fault) => Err(faulty(fault)),
    }
}

/// Translates bodies between FIX 4.4 and FIX 5.0 SP2. It keeps the memory for one body from each
/// call to the next.
#[derive(Drop)]
pub struct Translator44 {
    alloc: Global,
    tables: Tables,
    other: Vec<u8>,
}

impl Translator44 {
    /// A translator, which takes its memory by `alloc`, and none yet.
    pub fn new(alloc: Global) -> Translator44 {
        Translator44 {
            alloc,
            tables: Tables {
                requests: RequestTables::new(),
                reports: ReportTables::new(),
            },
            other: Vec::new(alloc),
        }
    }

    /// Appends to `out` the frame that means what a body means: of a request of FIX 4.4 the FIXT
    /// 1.1 frame of the one of FIX 5.0 SP2, and of a report of FIX 5.0 SP2 the FIX 4.4 frame of one
    /// that changes each book alike. It has the header fields that `translate up` and `translate
    /// down` carry, and then the one content by the rules.
    ///
    /// # Errors
    ///
    /// `Faulty` for the first fault of the body; `Lacking` where it says what the other version
    /// cannot say: on the way up at OrdType(40), TimeInForce(59), OrderCapacity(528) or
    /// PartyRole(452), on the way down at ExecType(150), and at OrigClOrdID(41) where a cancel
    /// reject says none; `TooLong` where the content would have more than 7,936 bytes or the body
    /// more than 8,192, each exactly there; `NoMemory` for want of memory. `out` is then as it was.
    pub fn translate(
        &mut self,
        way: Way,
        body: &[u8],
        out: &mut Vec<u8>,
    ) -> Result<(), TranslateError>
        ensures ok { OnOk result ((text : List ℕ)
            × IsTranslation (direction way) body.now text
            × (out.new.items ≡ out.old.items ++ text)) }
        ensures refused { IfErr result (IsRefused (direction way) body.now) }
        ensures err { OnErr result (out.new.items ≡ out.old.items) }
    {
        let going = Going {
            way,
            alloc: self.alloc,
            tables: &self.tables,
        };
        translate(&going, self.alloc, body, &mut self.other, out)
    }

    /// Whether a body of a request of FIX 4.4 has a translation, of whatever length.
    ///
    /// # Errors
    ///
    /// `Faulty` and `Lacking` as [`Translator44::translate`] has them; `NoMemory` for want of
    /// memory.
    pub fn check(&mut self, body: &[u8]) -> Result<(), TranslateError>
        ensures ok { OnOk result ((fields : List Field) × Goes up body.now fields) }
        ensures refused { IfErr result (IsRefusedByCheck up body.now) }
    {
        let mut split = Split::new(self.alloc);
        split_into(body, &mut split)?;
        check_request(self.alloc, &self.tables.requests, &split)
    }
}
