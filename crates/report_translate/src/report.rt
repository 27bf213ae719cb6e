//! Appending the report of FIX 4.2 that stands for the fields of a body.

ghost use Rattle.std.specs.Prelude.{IfErr, None, OnOk};
ghost use Rattle.reports_fix50.specs.Message.{report_table_of};
ghost use Rattle.report_rules.specs.Down.{IsGoodBy};
ghost use Rattle.report_translate.specs.Translation.{down};
ghost use Rattle.translation.specs.Going.{Appends, StayBack};
ghost use Rattle.translation.specs.Header.{type_of};

use crate::checking::good;
use field_groups::{Fields, Split};
use frame_grammar::Kind;
use reports_fix50::ReportTables;
use std::alloc::{AllocError, Global};
use translation::{TranslateError, Translating, lacking, msg_type, put_head_down};

/// Appends the content of the report that fields at no fault say.
#[tactic(auto, using(crate::proofs::Appended::of_put))]
fn put_good(alloc: Global, fields: &Fields<'_>, out: &mut Vec<u8>) -> Result<(), TranslateError>
    requires { IsGoodBy (report_table_of (type_of fields.now)) fields.now }
    ensures ok { OnOk result (Appends down fields.now None out.old.items out.new.items) }
    ensures refused { IfErr result (StayBack down fields.now None) }
{
    match report_rules::put_down(alloc, msg_type(fields), fields, None, out) {
        Ok(()) => Ok(()),
        Err(lack) => Err(lacking(lack)),
    }
}

/// What translates reports down.
#[derive(Drop)]
pub(crate) struct Down {
    pub(crate) alloc: Global,
    pub(crate) tables: ReportTables,
}

impl Translating for Down {
    ghost course = { λ _. down };

    fn kind(&self) -> Kind {
        Kind::Fix42
    }

    fn put_head(
        &self,
        body: &[u8],
        fields: &Fields<'_>,
        out: &mut Vec<u8>,
    ) -> Result<(), AllocError> {
        put_head_down(body, fields, out)
    }

    #[tactic(auto, using(crate::proofs::Appended::of_good_fields))]
    fn put(&self, split: &Split<'_>, out: &mut Vec<u8>) -> Result<(), TranslateError> {
        put_good(self.alloc, good(&self.tables, split)?, out)
    }

    fn laws(&self) {}
}
