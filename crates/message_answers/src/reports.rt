//! The answer to a report of the venue.

ghost use Rattle.std.specs.Prelude.{◌≡◌, [], IfOk, None, false, length, unwrap_or};
ghost use Rattle.value_kinds.specs.ValueKind as kinds;
ghost use Rattle.row_values.specs.Kinds.{Value, resend_of, said};
ghost use Rattle.reports_fix50.specs.Message.{report_table_of};
ghost use Rattle.report_rules.specs.Judged.{AreGood};
ghost use Rattle.message_answers.specs.Message.{is_refusal_type};
ghost use Rattle.message_answers.specs.Seen.{IsAnswer, IsFitAnswer, IsForwarded, IsSplit, Joins};

use crate::answer::{Answer, forwarded, lacking, refused};
use crate::asking::{Asked, Known};
use field_groups::Fields;
use order_meaning::Side;
use report_rules::put_down;
use reports_fix50::good_report;
use row_values::{resend, text};
use std::alloc::{AllocError, Global};
use value_kinds::ValueKind::Id;

/// ClOrdID(11) of a report; empty where it says none.
fn order_id<'f>(fields: &'f Fields<'_>) -> &'f [u8]
    ensures { result.now ≡ unwrap_or (said fields.now 11 (Value kinds.Id)) [] }
{
    match text(fields, 11, &Id) {
        Some(id) => id,
        None => &[],
    }
}

/// A report goes on with this content of FIX 4.2.
fn goes_on(
    alloc: Global,
    asked: &Asked<'_>,
    fields: &Fields<'_>,
    content: &[u8],
) -> Result<Answer, AllocError>
    requires { length asked.now.msg_type.now ≡ 1 }
    ensures forwarded { IfOk result (IsForwarded asked.now asked.now.msg_type.now
        (resend_of fields.now) content.now None) }
    ensures fit { IfOk result IsFitAnswer }
{
    forwarded(alloc, asked, asked.msg_type, resend(fields), content, None)
}

/// A report at no fault goes on in FIX 4.2, with what is known of the original order, or has no
/// counterpart.
fn sent(
    alloc: Global,
    known: &Known<'_>,
    asked: &Asked<'_>,
    fields: &Fields<'_>,
) -> Result<Answer, AllocError>
    requires split { IsSplit asked.now }
    requires side { asked.now.side ≡ Side.Venue }
    requires other { is_refusal_type asked.now.msg_type.now ≡ false }
    requires good { AreGood (report_table_of asked.now.msg_type.now)
        asked.now.split.now.fields asked.now.split.now.fault fields.now }
    ensures answer { IfOk result (IsAnswer known.now asked.now) }
    ensures fit { IfOk result IsFitAnswer }
    ensures item { IfOk result (Joins known.now asked.now) }
{
    let original = known.chains.orig_of(order_id(fields));
    let mut content = Vec::new(alloc);
    match put_down(alloc, asked.msg_type, fields, original, &mut content) {
        Ok(()) => goes_on(alloc, asked, fields, &content),
        Err(lack) => lacking(alloc, asked, lack),
    }
}

/// The answer to what is to be a report of the venue.
///
/// # Errors
///
/// `AllocError` for want of memory.
pub(crate) fn reported(
    alloc: Global,
    known: &Known<'_>,
    asked: &Asked<'_>,
) -> Result<Answer, AllocError>
    requires split { IsSplit asked.now }
    requires side { asked.now.side ≡ Side.Venue }
    requires other { is_refusal_type asked.now.msg_type.now ≡ false }
    ensures answer { IfOk result (IsAnswer known.now asked.now) }
    ensures fit { IfOk result IsFitAnswer }
    ensures item { IfOk result (Joins known.now asked.now) }
{
    match good_report(asked.msg_type, asked.split) {
        Ok(fields) => sent(alloc, known, asked, fields),
        Err(fault) => refused(alloc, asked, &fault),
    }
}
