//! Reading the lines of a request's groups.

ghost use Rattle.std.specs.Prelude.{◌≤◌, IfOk, length};
ghost use Rattle.message_tables.specs.Tables.{lines_in, tags_in};
ghost use Rattle.row_values.specs.Groups as groups;
ghost use Rattle.dict_fix50.specs.Reading.{AreGroups};

use field_groups::Fields;
use order_meaning::Lines;
use row_values::{Allocs, Sessions, read_lines};
use std::alloc::{AllocError, Global};

/// The groups of a new order or a replace request.
#[derive(Drop)]
pub struct Groups {
    /// Parties(453).
    pub parties: Lines,
    /// PreAllocGrp(78).
    pub allocs: Allocs,
    /// TrdgSesGrp(386).
    pub sessions: Sessions,
}

/// The lines of all three groups.
///
/// # Errors
///
/// `AllocError` for want of memory.
pub fn read_groups(alloc: Global, fields: &Fields<'_>) -> Result<Groups, AllocError>
    requires parties { length (lines_in (tags_in groups.parties) fields.now) ≤ 32 }
    requires allocs { length (lines_in (tags_in groups.allocs) fields.now) ≤ 32 }
    requires sessions { length (lines_in (tags_in groups.sessions) fields.now) ≤ 32 }
    ensures { IfOk result (AreGroups fields.now) }
{
    Ok(Groups {
        parties: read_lines(alloc, fields)?,
        allocs: read_lines(alloc, fields)?,
        sessions: read_lines(alloc, fields)?,
    })
}
