//! Reading the lines of a report's groups.

ghost use Rattle.std.specs.Prelude.{◌≤◌, IfOk, length};
ghost use Rattle.message_tables.specs.Tables.{lines_in, tags_in};
ghost use Rattle.row_values.specs.Contras as contras;
ghost use Rattle.row_values.specs.Groups as groups;
ghost use Rattle.reports_fix50.specs.Reading.{AreGroups};

use field_groups::Fields;
use order_meaning::Lines;
use row_values::{Contras, read_lines};
use std::alloc::{AllocError, Global};

/// The groups of an execution report.
#[derive(Drop)]
pub struct Groups {
    /// Parties(453).
    pub parties: Lines,
    /// ContraGrp(382).
    pub contras: Contras,
}

/// The lines of both groups.
///
/// # Errors
///
/// `AllocError` for want of memory.
pub fn read_groups(alloc: Global, fields: &Fields<'_>) -> Result<Groups, AllocError>
    requires parties { length (lines_in (tags_in groups.parties) fields.now) ≤ 32 }
    requires contras { length (lines_in (tags_in contras.contras) fields.now) ≤ 32 }
    ensures { IfOk result (AreGroups fields.now) }
{
    Ok(Groups {
        parties: read_lines(alloc, fields)?,
        contras: read_lines(alloc, fields)?,
    })
}
