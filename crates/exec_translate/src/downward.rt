//! A report of FIX 5.0 SP2 as one of FIX 4.2.

ghost use Rattle.std.specs.Prelude.{◌≡◌, [], None, Ok, IfErr, IfOk, IfSome};
ghost use Rattle.std.specs.Option.{option_map};
ghost use Rattle.message_tables.specs.Tables.{Message};
ghost use Rattle.sound_laws.specs.Complete.{IsComplete};
ghost use Rattle.reports_fix42.specs.Readable as readable42;
ghost use Rattle.reports_fix42.specs.Said as said42;
ghost use Rattle.reports_fix50.specs.Message.{cancel_reject_table, report_table};
ghost use Rattle.reports_fix50.specs.Readable.{IsReadableCancelReject, IsReadableReport};
ghost use Rattle.reports_fix50.specs.Said.{cancel_reject_says, report_says};
ghost use Rattle.report_rules.specs.Down.{IsId, IsPut, StandsFor};
ghost use Rattle.report_rules.specs.Rules.{down_message};
ghost use Rattle.exec_translate.specs.Down.{IsGoodBody, Lacks, Says, with_parties};

use field_groups::split;
use order_meaning::Lack;
use party_translate::from_parties;
use report_rules::put_down;
use reports_fix42::{CancelReject42, Report42, read_cancel_reject, read_report};
use reports_fix50::{CancelReject50, Report50, write_cancel_reject, write_without_parties};
use std::alloc::{AllocError, Global};

/// The content of FIX 4.2 of a content of FIX 5.0 SP2, by its type, 8 or 9.
fn content_down(
    alloc: Global,
    msg_type: &[u8],
    content: &[u8],
    known: Option<&[u8]>,
) -> Result<Vec<u8>, Lack>
    requires { IsGoodBody msg_type.now content.now }
    ensures ok { IfOk result (λ down. (m : Message) → Says msg_type.now content.now m
        → IsPut (option_map (λ id. id.now) known.entry) m [] down.items) }
    ensures lack { IfErr result (λ lack. (m : Message) → Says msg_type.now content.now m
        → Lacks (option_map (λ id. id.now) known.entry) m lack) }
{
    let split = split(alloc, content)?;
    let mut down = Vec::new(alloc);
    put_down(alloc, msg_type, &split.fields, known, &mut down)?;
    Ok(down)
}

/// A report with the parties of the venue's, and repeated where that is.
fn with_parties(alloc: Global, msg: &Report50, report: Report42) -> Result<Report42, AllocError>
    requires { readable42.IsReadableReport report }
    ensures is { IfOk result (λ written. written ≡ with_parties msg.now report) }
    ensures readable { IfOk result readable42.IsReadableReport }
{
    let parties = from_parties(alloc, msg.parties.as_slice())?;
    Ok(Report42 {
        resend: msg.resend,
        client_id: parties.client,
        exec_broker: parties.broker,
        clearing_firm: parties.firm,
        ..report
    })
}

/// The execution report of FIX 4.2 that stands for a sound one of FIX 5.0 SP2: what the rules make
/// of it. Of its parties the first of role 3, 1 and 4 goes down.
///
/// # Errors
///
/// `Lack::Tag(150)` exactly where ExecType(150) has no counterpart: of those of FIX 5.0 SP2 `J` and
/// `K`; `Lack::NoMemory` for want of memory.
pub fn down_report(alloc: Global, msg: &Report50) -> Result<Report42, Lack>
    requires sound { IsComplete report_table (report_says msg.now) }
    requires readable { IsReadableReport msg.now }
    ensures rules { IfOk result (λ written.
        down_message None (report_says msg.now) ≡ Ok (said42.report_says written)) }
    ensures stands { IfOk result (λ written.
        StandsFor None (report_says msg.now) (said42.report_says written)) }
    ensures readable { IfOk result readable42.IsReadableReport }
    ensures lack { IfErr result (Lacks None (report_says msg.now)) }
{
    let mut content = Vec::new(alloc);
    write_without_parties(alloc, msg, &mut content)?;
    let down = content_down(alloc, b"8", &content, None)?;
    let split = split(alloc, &down)?;
    match read_report(alloc, &split) {
        Ok(report) => Ok(with_parties(alloc, msg, report)?),
        // What goes down is read again, so that memory alone can be wanted.
        Err(_) => Err(Lack::NoMemory),
    }
}

/// The cancel reject of FIX 4.2 that stands for a sound one of FIX 5.0 SP2, with the id `orig` that
/// is known of the order where the venue says none: what the rules make of it.
///
/// # Errors
///
/// `Lack::Tag(41)` exactly where the venue says no OrigClOrdID(41) and none is known;
/// `Lack::NoMemory` for want of memory.
pub fn down_cancel_reject(
    alloc: Global,
    msg: &CancelReject50,
    orig: Option<&[u8]>,
) -> Result<CancelReject42, Lack>
    requires sound { IsComplete cancel_reject_table (cancel_reject_says msg.now) }
    requires readable { IsReadableCancelReject msg.now }
    requires orig { IfSome (option_map (λ o. o.now) orig) IsId }
    ensures rules { IfOk result (λ written. down_message (option_map (λ o. o.now) orig.entry)
        (cancel_reject_says msg.now) ≡ Ok (said42.cancel_reject_says written)) }
    ensures stands { IfOk result (λ written. StandsFor (option_map (λ o. o.now) orig.entry)
        (cancel_reject_says msg.now) (said42.cancel_reject_says written)) }
    ensures readable { IfOk result readable42.IsReadableCancelReject }
    ensures lack { IfErr result
        (Lacks (option_map (λ o. o.now) orig.entry) (cancel_reject_says msg.now)) }
{
    let mut content = Vec::new(alloc);
    write_cancel_reject(msg, &mut content)?;
    let down = content_down(alloc, b"9", &content, orig)?;
    let split = split(alloc, &down)?;
    match read_cancel_reject(alloc, &split) {
        Ok(reject) => Ok(CancelReject42 {
            resend: msg.resend,
            ..reject
        }),
        // What goes down is read again, so that memory alone can be wanted.
        Err(_) => Err(Lack::NoMemory),
    }
}
