//! Reading the contra brokers of an execution report.

ghost use Rattle.std.specs.Prelude.{◌≤◌, IfOk, length};
ghost use Rattle.message_tables.specs.Tables.{lines_in, tags_in};
ghost use Rattle.reports_fix42.specs.Reports.{contras};
ghost use Rattle.reports_fix42.specs.Reading.{AreContras};

use crate::tables::contra_group;
use field_groups::Fields;
use row_values::{Contras, read_group};
use std::alloc::{AllocError, Global};

/// The lines of NoContraBrokers(382).
pub(crate) fn read_contras(alloc: Global, fields: &Fields<'_>) -> Result<Contras, AllocError>
    requires { length (lines_in (tags_in contras) fields.now) ≤ 32 }
    ensures { IfOk result (AreContras fields.now) }
{
    read_group(alloc, contra_group(), fields)
}
