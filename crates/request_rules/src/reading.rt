//! Judging the fields of a request of FIX 4.2.

ghost use Rattle.std.specs.Prelude.{◌≡◌, Err, IfErr, IfOk};
ghost use Rattle.dict_fix42.specs.Message.{message42};
ghost use Rattle.request_rules.specs.Good.{IsGood, IsRead, said};

use dict_fix42::{RequestTables, request_table};
use field_groups::{Fields, Split};
use first_faults::{good_fields, good_fields_by};
use message_tables::Table;
use order_meaning::Fault;
use row_values::Kind;

/// The fields of a request that are whole and at no fault beside the table of its type.
#[derive(Drop)]
pub struct Good<'s, 'a> {
    /// The table.
    pub table: &'static Table<Kind>,
    /// The fields.
    pub fields: &'s Fields<'a>,
}

/// The fields of a body of a type, where they are whole and at no fault. It takes no memory.
///
/// # Errors
///
/// `NotSupported` for a type that is none of D, F, G and H. `Session` and `NoCounterpart` for the
/// first fault, as `read42` has it.
#[tactic(auto, using(crate::proofs::GoodFields::of_good))]
pub fn good_request<'s, 'a>(msg_type: &[u8], split: &'s Split<'a>) -> Result<Good<'s, 'a>, Fault>
    ensures good { IfOk result IsGood }
    ensures read { IfOk result (λ good.
        IsRead msg_type.now split.now.fields split.now.fault (said good)) }
    ensures fault { IfErr result (λ fault.
        message42 msg_type.now split.now.fields split.now.fault ≡ Err fault) }
{
    match request_table(msg_type) {
        None => Err(Fault::NotSupported),
        Some(table) => match good_fields(table, split) {
            Ok(fields) => Ok(Good { table, fields }),
            Err(fault) => Err(fault),
        },
    }
}

/// The same by tables whose rows are found by their tags, in less time.
///
/// # Errors
///
/// As [`good_request`] has them.
#[tactic(auto, using(crate::proofs::GoodFields::of_good))]
pub fn good_request_by<'s, 'a>(
    tables: &RequestTables,
    msg_type: &[u8],
    split: &'s Split<'a>,
) -> Result<Good<'s, 'a>, Fault>
    ensures good { IfOk result IsGood }
    ensures read { IfOk result (λ good.
        IsRead msg_type.now split.now.fields split.now.fault (said good)) }
    ensures fault { IfErr result (λ fault.
        message42 msg_type.now split.now.fields split.now.fault ≡ Err fault) }
{
    match tables.get(msg_type) {
        None => Err(Fault::NotSupported),
        Some(indexed) => match good_fields_by(indexed, split) {
            Ok(fields) => Ok(Good {
                table: indexed.table(),
                fields,
            }),
            Err(fault) => Err(fault),
        },
    }
}
