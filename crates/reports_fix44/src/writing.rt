//! Writing reports: each row of the table is a line of an array of parts.

ghost use Rattle.std.specs.Prelude.{◌≡◌};
ghost use Rattle.std.specs.List.{AllByRecursion, flat_map};
ghost use Rattle.message_tables.specs.Content.{content};
ghost use Rattle.row_values.specs.Writing.{IsPart, part_fields};
ghost use Rattle.reports_fix44.specs.Message.{cancel_reject_table, report_table};
ghost use Rattle.reports_fix50.specs.Readable.{IsReadableReport};
ghost use Rattle.reports_fix44.specs.Readable.{IsReadableCancelReject};
ghost use Rattle.reports_fix44.specs.Said.{cancel_reject_says, report_says};

use crate::reports::{CancelReject44, Report44};
use row_values::{Part, Value};

/// The parts of Execution Report (8).
pub(crate) fn report_parts(m: &Report44) -> [Part<'_>; 44]
    requires { IsReadableReport m.now }
    ensures parts { AllByRecursion IsPart result }
    ensures content { flat_map part_fields result ≡ content report_table (report_says m.now) }
{
    [
        Part::Row(37, Value::Text(&m.order_id)),
        Part::Row(198, Value::TextIf(&m.secondary_id)),
        Part::Row(11, Value::TextIf(&m.cl_ord_id)),
        Part::Row(41, Value::TextIf(&m.orig_id)),
        Part::Parties(&m.parties),
        Part::Contras(&m.contras),
        Part::Row(17, Value::Text(&m.exec_id)),
        Part::Row(19, Value::TextIf(&m.ref_id)),
        Part::Row(150, Value::Code(m.exec_type)),
        Part::Row(39, Value::Code(m.ord_status)),
        Part::Row(103, Value::NumberIf(m.rej_reason)),
        Part::Row(378, Value::NumberIf(m.restate_reason)),
        Part::Row(1, Value::TextIf(&m.account)),
        Part::Row(63, Value::CodeIf(m.settl_type)),
        Part::Row(64, Value::DayIf(&m.settl_date)),
        Part::Row(55, Value::Text(&m.symbol)),
        Part::Row(65, Value::TextIf(&m.symbol_sfx)),
        Part::Row(48, Value::TextIf(&m.security_id)),
        Part::Row(22, Value::CodeIf(m.id_source)),
        Part::Row(167, Value::TextIf(&m.security_type)),
        Part::Row(200, Value::Month(&m.maturity)),
        Part::Row(541, Value::Date(&m.maturity)),
        Part::Row(207, Value::TextIf(&m.security_exchange)),
        Part::Row(54, Value::Code(m.side)),
        Part::Row(38, Value::DecIf(&m.order_qty)),
        Part::Row(40, Value::CodeIf(m.ord_type)),
        Part::Row(44, Value::DecIf(&m.price)),
        Part::Row(99, Value::DecIf(&m.stop_px)),
        Part::Row(15, Value::TextIf(&m.currency)),
        Part::Row(59, Value::CodeIf(m.time_in_force)),
        Part::Row(432, Value::DayIf(&m.expire_date)),
        Part::Row(126, Value::StampIf(&m.expire_time)),
        Part::Row(528, Value::CodeIf(m.capacity)),
        Part::Row(32, Value::DecIf(&m.last_qty)),
        Part::Row(31, Value::DecIf(&m.last_px)),
        Part::Row(30, Value::TextIf(&m.last_mkt)),
        Part::Row(151, Value::Dec(&m.leaves)),
        Part::Row(14, Value::Dec(&m.cum)),
        Part::Row(6, Value::Dec(&m.avg)),
        Part::Row(75, Value::DayIf(&m.trade_date)),
        Part::Row(60, Value::StampIf(&m.transact_time)),
        Part::Row(110, Value::DecIf(&m.min_qty)),
        Part::Row(111, Value::DecIf(&m.max_floor)),
        Part::Row(58, Value::TextIf(&m.text)),
    ]
}

/// The parts of Order Cancel Reject (9).
pub(crate) fn cancel_reject_parts(m: &CancelReject44) -> [Part<'_>; 10]
    requires { IsReadableCancelReject m.now }
    ensures parts { AllByRecursion IsPart result }
    ensures content { flat_map part_fields result
        ≡ content cancel_reject_table (cancel_reject_says m.now) }
{
    [
        Part::Row(37, Value::Text(&m.order_id)),
        Part::Row(198, Value::TextIf(&m.secondary_id)),
        Part::Row(11, Value::Text(&m.cl_ord_id)),
        Part::Row(41, Value::Text(&m.orig_id)),
        Part::Row(39, Value::Code(m.ord_status)),
        Part::Row(1, Value::TextIf(&m.account)),
        Part::Row(60, Value::StampIf(&m.transact_time)),
        Part::Row(434, Value::Code(m.response_to)),
        Part::Row(102, Value::NumberIf(m.cxl_reason)),
        Part::Row(58, Value::TextIf(&m.text)),
    ]
}
