//! A report of FIX 5.0 SP2 as one of FIX 4.4, for a caller that wants structs.

ghost use Rattle.std.specs.Prelude.{◌≡◌, None, Ok, IfErr, IfOk, IfSome};
ghost use Rattle.std.specs.Option.{option_map};
ghost use Rattle.message_tables.specs.Tables.{Message};
ghost use Rattle.reports_fix44.specs.Readable as readable44;
ghost use Rattle.reports_fix44.specs.Said as said44;
ghost use Rattle.reports_fix50.specs.Message.{cancel_reject_table, report_table};
ghost use Rattle.reports_fix50.specs.Readable.{IsReadableCancelReject, IsReadableReport};
ghost use Rattle.reports_fix50.specs.Said.{cancel_reject_says, report_says};
ghost use Rattle.report_rules.specs.Down.{IsId};
ghost use Rattle.exec_translate.specs.Down.{bare, once};
ghost use Rattle.sound_laws.specs.Complete.{IsComplete};
ghost use Rattle.translate_fix44.specs.Laws.{StandsDown};
ghost use Rattle.translate_fix44.specs.Rules.{down_message};
ghost use Rattle.translate_fix44.specs.Translation.{down};
ghost use Rattle.structs_fix44.specs.Down.{IsDown, Says, with_parties};
ghost use Rattle.structs_fix44.specs.Up.{IsLackOf};

use field_groups::{put_field, split};
use order_meaning::Lack;
use party_translate::{from_parties, to_parties};
use reports_fix44::{CancelReject44, Report44, read_cancel_reject, read_report};
use reports_fix50::{
    CancelReject50, Report50, ReportTables, write_cancel_reject, write_without_parties,
};
use std::alloc::{AllocError, Global};
use translate_fix44::put_report;
use translation::TranslateError;

/// The content of FIX 4.4 of the report of FIX 5.0 SP2 that a body says, where this id is known of
/// its order.
fn content_down(alloc: Global, body: &[u8], known: Option<&[u8]>) -> Result<Vec<u8>, Lack>
    ensures ok { IfOk result (λ content. (m : Message) → Says down body.now m
        → IsDown (option_map (λ id. id.now) known.entry) m content.items) }
    ensures lack { IfErr result (λ lack. (m : Message) → Says down body.now m
        → IsLackOf (down_message (option_map (λ id. id.now) known.entry) m) lack) }
{
    let split = split(alloc, body)?;
    let mut content = Vec::new(alloc);
    match put_report(alloc, &ReportTables::new(), &split, known, &mut content) {
        Ok(()) => Ok(content),
        Err(TranslateError::Lacking(tag)) => Err(Lack::Tag(tag)),
        // What is written is read again, so that memory alone can be wanted.
        Err(_) => Err(Lack::NoMemory),
    }
}

// ---- an execution report

/// A body that says what a report says besides its parties.
fn report_body(alloc: Global, msg: &Report50) -> Result<Vec<u8>, AllocError>
    requires sound { IsComplete report_table (report_says msg.now) }
    requires readable { IsReadableReport msg.now }
    ensures { IfOk result (λ body. Says down body.items (report_says (bare msg.now))) }
{
    let mut body = Vec::new(alloc);
    put_field(&mut body, 35, b"8")?;
    write_without_parties(alloc, msg, &mut body)?;
    Ok(body)
}

/// A report with the parties of the venue's that have a place, and repeated where that is.
fn with_parties(alloc: Global, msg: &Report50, report: Report44) -> Result<Report44, AllocError>
    requires { IsReadableReport report }
    ensures is { IfOk result (λ written. written ≡ with_parties msg.now report) }
    ensures readable { IfOk result IsReadableReport }
{
    let three = from_parties(alloc, msg.parties.as_slice())?;
    let parties = to_parties(alloc, &three)?;
    Ok(Report44 {
        resend: msg.resend,
        parties,
        ..report
    })
}

/// The execution report of FIX 4.4 that stands for a sound one of FIX 5.0 SP2: what the rules make
/// of it. Of its parties the first of role 3, 1 and 4 goes down.
///
/// # Errors
///
/// `Lack::Tag(150)` exactly where ExecType(150) has no counterpart: of those of FIX 5.0 SP2 `J` and
/// `K`; `Lack::NoMemory` for want of memory.
pub fn down_report44(alloc: Global, msg: &Report50) -> Result<Report44, Lack>
    requires sound { IsComplete report_table (report_says msg.now) }
    requires readable { IsReadableReport msg.now }
    ensures rules { IfOk result (λ written.
        down_message None (report_says msg.now) ≡ Ok (said44.report_says written)) }
    ensures stands { IfOk result (λ written.
        StandsDown None (report_says msg.now) (said44.report_says written)) }
    ensures readable { IfOk result IsReadableReport }
    ensures lack { IfErr result (IsLackOf (down_message None (report_says msg.now))) }
{
    let body = report_body(alloc, msg)?;
    let content = content_down(alloc, &body, None)?;
    let split = split(alloc, &content)?;
    match read_report(alloc, &split) {
        Ok(report) => Ok(with_parties(alloc, msg, report)?),
        // What goes down is read again, so that memory alone can be wanted.
        Err(_) => Err(Lack::NoMemory),
    }
}

// ---- a cancel reject

/// A body that says what a cancel reject says.
fn reject_body(alloc: Global, msg: &CancelReject50) -> Result<Vec<u8>, AllocError>
    requires sound { IsComplete cancel_reject_table (cancel_reject_says (once msg.now)) }
    requires readable { IsReadableCancelReject msg.now }
    ensures { IfOk result (λ body. Says down body.items (cancel_reject_says (once msg.now))) }
{
    let mut body = Vec::new(alloc);
    put_field(&mut body, 35, b"9")?;
    write_cancel_reject(msg, &mut body)?;
    Ok(body)
}

/// The cancel reject of FIX 4.4 that stands for a sound one of FIX 5.0 SP2, with the id `orig` that
/// is known of the order where the venue says none: what the rules make of it.
///
/// # Errors
///
/// `Lack::Tag(41)` exactly where the venue says no OrigClOrdID(41) and none is known;
/// `Lack::NoMemory` for want of memory.
pub fn down_cancel_reject44(
    alloc: Global,
    msg: &CancelReject50,
    orig: Option<&[u8]>,
) -> Result<CancelReject44, Lack>
    requires sound { IsComplete cancel_reject_table (cancel_reject_says msg.now) }
    requires readable { IsReadableCancelReject msg.now }
    requires orig { IfSome (option_map (λ id. id.now) orig) IsId }
    ensures rules { IfOk result (λ written. down_message (option_map (λ id. id.now) orig.entry)
        (cancel_reject_says msg.now) ≡ Ok (said44.cancel_reject_says written)) }
    ensures stands { IfOk result (λ written. StandsDown (option_map (λ id. id.now) orig.entry)
        (cancel_reject_says msg.now) (said44.cancel_reject_says written)) }
    ensures readable { IfOk result readable44.IsReadableCancelReject }
    ensures lack { IfErr result (IsLackOf
        (down_message (option_map (λ id. id.now) orig.entry) (cancel_reject_says msg.now))) }
{
    let body = reject_body(alloc, msg)?;
    let content = content_down(alloc, &body, orig)?;
    let split = split(alloc, &content)?;
    match read_cancel_reject(alloc, &split) {
        Ok(reject) => Ok(CancelReject44 {
            resend: msg.resend,
            ..reject
        }),
        // What goes down is read again, so that memory alone can be wanted.
        Err(_) => Err(Lack::NoMemory),
    }
}
