//! Writing requests: each row of the table is a line of an array of parts.

ghost use Rattle.std.specs.Prelude.{◌≡◌};
ghost use Rattle.std.specs.List.{AllByRecursion, flat_map};
ghost use Rattle.message_tables.specs.Content.{content};
ghost use Rattle.row_values.specs.Writing.{IsPart, part_fields};
ghost use Rattle.rows_fix42.specs.Header.{table};
ghost use Rattle.dict_fix44.specs.Requests.{cancel_request, new_order};
ghost use Rattle.dict_fix44.specs.Requests.{replace_request, status_request};
ghost use Rattle.dict_fix50.specs.Said.{cancel_says, status_says};
ghost use Rattle.requests_fix44.specs.Said.{new_says, replace_says};
ghost use Rattle.dict_fix50.specs.Readable.{IsReadableCancel, IsReadableNew, IsReadableReplace};
ghost use Rattle.dict_fix50.specs.Readable.{IsReadableStatus};

use crate::requests::{Cancel44, New44, Replace44, Status44};
use row_values::{Part, Value};

/// The parts of New Order - Single (D) and of Order Cancel/Replace Request (G), in the order of
/// writing; the request has the parts that are given behind ClOrdID(11).
macro_rules! order_parts {
    ($m:ident $(, $id:expr)*) => {
        [
            Part::Row(11, Value::Text(&$m.cl_ord_id)),
            $($id,)*
            Part::Parties(&$m.parties),
            Part::Row(1, Value::TextIf(&$m.account)),
            Part::Allocs(&$m.allocs),
            Part::Row(63, Value::CodeIf($m.settl_type)),
            Part::Row(64, Value::DayIf(&$m.settl_date)),
            Part::Row(21, Value::CodeIf($m.hand_inst)),
            Part::Row(18, Value::TextIf(&$m.exec_inst)),
            Part::Row(110, Value::DecIf(&$m.min_qty)),
            Part::Row(111, Value::DecIf(&$m.max_floor)),
            Part::Row(100, Value::TextIf(&$m.ex_destination)),
            Part::Sessions(&$m.sessions),
            Part::Row(55, Value::Text(&$m.symbol)),
            Part::Row(65, Value::TextIf(&$m.symbol_sfx)),
            Part::Row(48, Value::TextIf(&$m.security_id)),
            Part::Row(22, Value::CodeIf($m.id_source)),
            Part::Row(167, Value::TextIf(&$m.security_type)),
            Part::Row(200, Value::Month(&$m.maturity)),
            Part::Row(541, Value::Date(&$m.maturity)),
            Part::Row(207, Value::TextIf(&$m.security_exchange)),
            Part::Row(54, Value::Code($m.side)),
            Part::Row(114, Value::FlagIf(&$m.locate)),
            Part::Row(60, Value::Stamp(&$m.transact_time)),
            Part::Row(38, Value::Dec(&$m.order_qty)),
            Part::Row(40, Value::Code($m.ord_type)),
            Part::Row(44, Value::DecIf(&$m.price)),
            Part::Row(99, Value::DecIf(&$m.stop_px)),
            Part::Row(15, Value::TextIf(&$m.currency)),
            Part::Row(59, Value::CodeIf($m.time_in_force)),
            Part::Row(168, Value::StampIf(&$m.effective_time)),
            Part::Row(432, Value::DayIf(&$m.expire_date)),
            Part::Row(126, Value::StampIf(&$m.expire_time)),
            Part::Row(528, Value::CodeIf($m.capacity)),
            Part::Row(77, Value::CodeIf($m.open_close)),
            Part::Row(58, Value::TextIf(&$m.text)),
        ]
    };
}

/// The parts of New Order - Single (D).
pub(crate) fn new_parts(m: &New44) -> [Part<'_>; 35]
    requires { IsReadableNew m.now }
    ensures parts { AllByRecursion IsPart result }
    ensures content { flat_map part_fields result
        ≡ content (table 68 new_order) (new_says m.now) }
{
    order_parts!(m)
}

/// The parts of Order Cancel Request (F).
pub(crate) fn cancel_parts(m: &Cancel44) -> [Part<'_>; 17]
    requires { IsReadableCancel m.now }
    ensures parts { AllByRecursion IsPart result }
    ensures content { flat_map part_fields result
        ≡ content (table 70 cancel_request) (cancel_says m.now) }
{
    [
        Part::Row(11, Value::Text(&m.cl_ord_id)),
        Part::Row(41, Value::Text(&m.orig_id)),
        Part::Row(37, Value::TextIf(&m.order_id)),
        Part::Parties(&m.parties),
        Part::Row(1, Value::TextIf(&m.account)),
        Part::Row(55, Value::Text(&m.symbol)),
        Part::Row(65, Value::TextIf(&m.symbol_sfx)),
        Part::Row(48, Value::TextIf(&m.security_id)),
        Part::Row(22, Value::CodeIf(m.id_source)),
        Part::Row(167, Value::TextIf(&m.security_type)),
        Part::Row(200, Value::Month(&m.maturity)),
        Part::Row(541, Value::Date(&m.maturity)),
        Part::Row(207, Value::TextIf(&m.security_exchange)),
        Part::Row(54, Value::Code(m.side)),
        Part::Row(60, Value::Stamp(&m.transact_time)),
        Part::Row(38, Value::DecIf(&m.order_qty)),
        Part::Row(58, Value::TextIf(&m.text)),
    ]
}

/// The parts of Order Cancel/Replace Request (G).
pub(crate) fn replace_parts(m: &Replace44) -> [Part<'_>; 37]
    requires { IsReadableReplace m.now }
    ensures parts { AllByRecursion IsPart result }
    ensures content { flat_map part_fields result
        ≡ content (table 71 replace_request) (replace_says m.now) }
{
    order_parts!(
        m,
        Part::Row(41, Value::Text(&m.orig_id)),
        Part::Row(37, Value::TextIf(&m.order_id))
    )
}

/// The parts of Order Status Request (H).
pub(crate) fn status_parts(m: &Status44) -> [Part<'_>; 13]
    requires { IsReadableStatus m.now }
    ensures parts { AllByRecursion IsPart result }
    ensures content { flat_map part_fields result
        ≡ content (table 72 status_request) (status_says m.now) }
{
    [
        Part::Row(11, Value::Text(&m.cl_ord_id)),
        Part::Row(37, Value::TextIf(&m.order_id)),
        Part::Parties(&m.parties),
        Part::Row(1, Value::TextIf(&m.account)),
        Part::Row(55, Value::Text(&m.symbol)),
        Part::Row(65, Value::TextIf(&m.symbol_sfx)),
        Part::Row(48, Value::TextIf(&m.security_id)),
        Part::Row(22, Value::CodeIf(m.id_source)),
        Part::Row(167, Value::TextIf(&m.security_type)),
        Part::Row(200, Value::Month(&m.maturity)),
        Part::Row(541, Value::Date(&m.maturity)),
        Part::Row(207, Value::TextIf(&m.security_exchange)),
        Part::Row(54, Value::Code(m.side)),
    ]
}
