//! Three ids as party lines, and party lines as three ids.

ghost use Rattle.std.specs.Prelude.{◌≡◌, ◌+◌, ◌<◌, ◌≤◌, ◌++◌, length, IfOk, OnOk};
ghost use Rattle.party_translate.specs.Parties.{line_of, parties_of, id_of, three_of};

use order_meaning::{Bytes, Lines, MAX_LINES, PartyLine, Three};
use std::alloc::{AllocError, Global};

/// PartyRole(452) of the party that FIX 4.2 names in ClientID(109).
pub const CLIENT_ID: u32 = 3;

/// PartyRole(452) of the party that FIX 4.2 names in ExecBroker(76).
pub const EXECUTING_FIRM: u32 = 1;

/// PartyRole(452) of the party that FIX 4.2 names in ClearingFirm(439).
pub const CLEARING_FIRM: u32 = 4;

/// The lines of the parties that are there: at most three, in the order of the roles 3, 1, 4.
///
/// FIX 5.0 SP2, Parties component block. The order of the lines is the gateway's own.
///
/// # Errors
///
/// `AllocError` for want of memory.
pub fn to_parties(alloc: Global, three: &Three) -> Result<Lines, AllocError>
    ensures { IfOk result (λ lines. lines ≡ parties_of three.now) }
{
    let mut lines = Lines::new(alloc);
    push_party(&mut lines, CLIENT_ID, &three.client)?;
    push_party(&mut lines, EXECUTING_FIRM, &three.broker)?;
    push_party(&mut lines, CLEARING_FIRM, &three.firm)?;
    Ok(lines)
}

/// Adds the line of a role where there is an id for it.
fn push_party(lines: &mut Lines, role: u32, id: &Option<Bytes>) -> Result<(), AllocError>
    requires { length lines.old < MAX_LINES }
    ensures items { OnOk result (lines.new ≡ lines.old ++ line_of role id.now) }
    ensures bound { OnOk result (length lines.new ≤ length lines.old + 1) }
{
    if let Some(id) = id {
        let id = id.duplicate()?;
        lines.push(PartyLine { id, role })?;
    }
    Ok(())
}

/// The parties of the roles 3, 1 and 4: of each role the first line, and none where no line has it.
/// Lines of other roles are passed over.
///
/// # Errors
///
/// `AllocError` for want of memory.
pub fn from_parties(alloc: Global, lines: &[PartyLine]) -> Result<Three, AllocError>
    ensures { IfOk result (λ three. three ≡ three_of lines.now) }
{
    Ok(Three {
        client: first_id(alloc, lines, CLIENT_ID)?,
        broker: first_id(alloc, lines, EXECUTING_FIRM)?,
        firm: first_id(alloc, lines, CLEARING_FIRM)?,
    })
}

/// A copy of the id of the first line of a role.
fn first_id(alloc: Global, lines: &[PartyLine], role: u32) -> Result<Option<Bytes>, AllocError>
    ensures { IfOk result (λ id. id ≡ id_of role lines.now) }
{
    match lines.iter().find(|line| line.role == role) {
        Some(line) => Ok(Some(Bytes::copy(alloc, line.id.as_slice())?)),
        None => Ok(None),
    }
}
