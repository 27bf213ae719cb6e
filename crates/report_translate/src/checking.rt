//! Judging the fields of a report of FIX 5.0 SP2: their first fault, and whether FIX 4.2 has a
//! counterpart of what they tell. It takes no memory.

ghost use Rattle.std.specs.Prelude.{◌≡◌, IfErr, IfOk, IsSome, None, OnOk, false};
ghost use Rattle.reports_fix50.specs.Message.{report_table_of};
ghost use Rattle.reports_fix50.specs.Reading.{exec_type_said};
ghost use Rattle.report_rules.specs.Down.{IsGoodBy};
ghost use Rattle.report_rules.specs.Judged.{AreGood};
ghost use Rattle.report_translate.specs.Writing.{IsCheckedOf, LacksAt, RefusesCheck, lacks_at};
ghost use Rattle.translation.specs.Header.{type_of};

use field_groups::{Fields, Split, is_type};
use report_rules::has_trans_type;
use reports_fix50::{ReportTables, exec_type};
use translation::{TranslateError, faulty, msg_type};

/// The fields of a body, where they are whole and a report at no fault.
#[tactic(auto, using(crate::proofs::GoodFields::judged))]
pub(crate) fn good<'s, 'a>(
    tables: &ReportTables,
    split: &'s Split<'a>,
) -> Result<&'s Fields<'a>, TranslateError>
    ensures ok { IfOk result (λ good. AreGood (report_table_of (type_of split.now.fields))
        split.now.fields split.now.fault good.now) }
    ensures refused { IfErr result (RefusesCheck split.now.fields split.now.fault) }
{
    match tables.good(msg_type(&split.fields), split) {
        Ok(fields) => Ok(fields),
        Err(fault) => Err(faulty(fault)),
    }
}

/// Whether FIX 4.2 has a counterpart of the ExecType(150) of an execution report.
#[tactic(auto, using(crate::proofs::GoodFields::of_codes))]
fn check_codes(fields: &Fields<'_>) -> Result<(), TranslateError>
    requires { IsSome (exec_type_said fields.now) }
    ensures ok { OnOk result (lacks_at fields.now ≡ false) }
    ensures lack { IfErr result (LacksAt fields.now) }
{
    if has_trans_type(exec_type(fields)) {
        Ok(())
    } else {
        Err(TranslateError::Lacking(150))
    }
}

/// Whether a report at no fault has a counterpart in FIX 4.2. Only an execution report (8) can lack
/// one.
#[tactic(auto, using(crate::proofs::GoodFields::by_type))]
fn check_good(fields: &Fields<'_>) -> Result<(), TranslateError>
    requires { IsGoodBy (report_table_of (type_of fields.now)) fields.now }
    ensures ok { OnOk result (IsCheckedOf fields.now None) }
    ensures refused { IfErr result (RefusesCheck fields.now None) }
{
    if is_type(msg_type(fields), b'8') {
        check_codes(fields)
    } else {
        Ok(())
    }
}

/// Whether the fields of a body are a report at no fault that has a counterpart in FIX 4.2.
#[tactic(auto, using(crate::proofs::GoodFields::of_judged))]
pub(crate) fn check_fields(tables: &ReportTables, split: &Split<'_>) -> Result<(), TranslateError>
    ensures ok { OnOk result (IsCheckedOf split.now.fields split.now.fault) }
    ensures refused { IfErr result (RefusesCheck split.now.fields split.now.fault) }
{
    check_good(good(tables, split)?)
}
