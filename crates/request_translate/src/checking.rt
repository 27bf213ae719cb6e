//! Judging the fields of a request of FIX 4.2: their first fault, and what FIX 5.0 SP2 cannot say.
//! It takes no memory.

ghost use Rattle.std.specs.Prelude.{IfErr, IfOk, OnOk};
ghost use Rattle.request_rules.specs.Good.{IsGood, IsRead, said};
ghost use Rattle.request_translate.specs.Translation.{up};
ghost use Rattle.translation.specs.Going.{AreGone, StayBack};
ghost use Rattle.translation.specs.Header.{type_of};

use dict_fix42::RequestTables;
use field_groups::Split;
use request_rules::{Good, good_request_by, lack_up};
use translation::{TranslateError, faulty, msg_type};

/// The fields of a body, where they are whole and at no fault beside the table of their type.
#[tactic(auto, using(crate::proofs::GoodFields::judged))]
pub(crate) fn good<'s, 'a>(
    tables: &RequestTables,
    split: &'s Split<'a>,
) -> Result<Good<'s, 'a>, TranslateError>
    ensures good { IfOk result IsGood }
    ensures read { IfOk result (λ good.
        IsRead (type_of split.now.fields) split.now.fields split.now.fault (said good)) }
    ensures refused { IfErr result (StayBack up split.now.fields split.now.fault) }
{
    match good_request_by(tables, msg_type(&split.fields), split) {
        Ok(good) => Ok(good),
        Err(fault) => Err(faulty(fault)),
    }
}

/// Whether the fields of a body are at no fault and lack nothing.
#[tactic(auto, using(crate::proofs::GoodFields::lacking))]
pub(crate) fn check_fields(tables: &RequestTables, split: &Split<'_>) -> Result<(), TranslateError>
    ensures ok { OnOk result (AreGone up split.now.fields split.now.fault) }
    ensures refused { IfErr result (StayBack up split.now.fields split.now.fault) }
{
    let good = good(tables, split)?;
    match lack_up(&good) {
        None => Ok(()),
        Some(tag) => Err(TranslateError::Lacking(tag)),
    }
}
