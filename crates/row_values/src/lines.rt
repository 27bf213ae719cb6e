//! The lines of an order's groups, and maturities.

ghost use Rattle.std.specs.Prelude.{◌≡◌, ◌≤◌, ◌++◌, List, IfOk, IfSome, OnOk, length};
ghost use Rattle.std.specs.List.{AllZip};
ghost use Rattle.std.specs.Io.{StartsWith};
ghost use Rattle.typed_fields.specs.Dec.{IsDec};
ghost use Rattle.field_groups.specs.Field.{Field as ReadField, body_of};
ghost use Rattle.message_tables.specs.CodeTables.{own_tags, seen};
ghost use Rattle.message_tables.specs.Tables.{Cell, GroupTags, line_fields_in, lines_in, tags_in};
ghost use Rattle.message_tables.specs.Content.{line_fields};
ghost use Rattle.row_values.specs.Lines.{IsAlloc, IsParty, IsSession, alloc_cells, party_cells};
ghost use Rattle.row_values.specs.Lines.{session_cells};
ghost use Rattle.row_values.specs.Groups.{allocs, parties, sessions};

use crate::copies::owned;
use crate::kinds::Kind;
use crate::values::{number_or_zero, or_empty, qty, text};
use crate::writing::put_if;
use field_groups::{Field, Fields, put_field, put_number};
use message_tables::Need::{Fixed, Optional, Required};
use message_tables::{Line, RepeatingGroup, Row, line, line_end};
use order_meaning::{Bytes, GroupLines, PartyLine};
use std::alloc::{AllocError, Global};
use typed_fields::{Dec, MonthYear};
use value_kinds::ValueKind;
use value_kinds::ValueKind::{Id, OneByte, Qty};

/// A month, and maybe a day of it.
#[derive(Clone, Copy, Debug, PartialEq, Eq)]
pub struct Maturity {
    /// The month.
    pub month: MonthYear,
    /// The day of the month, from 1 to 31.
    pub day: Option<u8>,
}

/// One line of the accounts of an order: NoAllocs(78) of FIX 4.2, PreAllocGrp(78) of FIX 5.0 SP2.
#[derive(Debug, Drop)]
pub struct AllocLine {
    /// AllocAccount(79), 1 to 128 bytes.
    pub account: Bytes,
    /// AllocShares(80) of FIX 4.2, AllocQty(80) of FIX 5.0 SP2, not negative.
    pub qty: Option<Dec>,
}

/// One line of the sessions in which an order may trade: NoTradingSessions(386) of FIX 4.2,
/// TrdgSesGrp(386) of FIX 5.0 SP2.
#[derive(Debug, Drop)]
pub struct SessionLine {
    /// TradingSessionID(336), 1 to 128 bytes.
    pub id: Bytes,
}

/// The accounts of an order.
pub type Allocs = GroupLines<AllocLine>;

/// The sessions in which an order may trade.
pub type Sessions = GroupLines<SessionLine>;

/// A row that is judged by itself.
macro_rules! row {
    ($tag:literal, $kind:expr, $need:expr) => {
        Row {
            tag: $tag,
            kind: Kind::Value($kind),
            need: $need,
        }
    };
}

/// The rows of Parties(453).
#[rattlefmt::skip]
const PARTY_ROWS: [Row<Kind>; 3] = [
    row!(448, Id, Required), // PartyID
    row!(447, OneByte, Fixed(b"D")), // PartyIDSource
    row!(452, ValueKind::Number, Required), // PartyRole
];

/// The rows of a line of accounts.
#[rattlefmt::skip]
const ALLOC_ROWS: [Row<Kind>; 2] = [
    row!(79, Id, Required), // AllocAccount
    row!(80, Qty, Optional), // AllocShares, AllocQty
];

/// The rows of a line of sessions.
#[rattlefmt::skip]
const SESSION_ROWS: [Row<Kind>; 1] = [
    row!(336, Id, Required), // TradingSessionID
];

/// Parties(453); NoPartySubIDs(802), PartySubID(523) and PartySubIDType(803) are passed over.
pub const PARTIES: RepeatingGroup<Kind> = RepeatingGroup {
    count: 453,
    rows: &PARTY_ROWS,
    skipped: &[802, 523, 803],
};

/// NoAllocs(78), PreAllocGrp(78).
pub const ALLOCS: RepeatingGroup<Kind> = RepeatingGroup {
    count: 78,
    rows: &ALLOC_ROWS,
    skipped: &[],
};

/// NoTradingSessions(386), TrdgSesGrp(386).
pub const SESSIONS: RepeatingGroup<Kind> = RepeatingGroup {
    count: 386,
    rows: &SESSION_ROWS,
    skipped: &[],
};

static PARTIES_GROUP: RepeatingGroup<Kind> = PARTIES;

static ALLOCS_GROUP: RepeatingGroup<Kind> = ALLOCS;

static SESSIONS_GROUP: RepeatingGroup<Kind> = SESSIONS;

/// A line of a group.
pub trait GroupLine: Sized + Drop {
    /// The tags of the group.
    ghost tags: { GroupTags };

    /// The line says what its fields say.
    ghost is_line: { List ReadField → Self → Type 0 };

    /// The values of the line can be read.
    ghost is_readable: { Self → Type 0 };

    /// What the line says.
    ghost cells: { Self → List Cell };

    /// The group of these lines.
    fn group() -> &'static RepeatingGroup<Kind>
        ensures { own_tags result.now ≡ tags };

    /// The line of these fields.
    ///
    /// # Errors
    ///
    /// `AllocError` for want of memory.
    fn read(alloc: Global, fields: &[Field<'_>]) -> Result<Self, AllocError>
        ensures { IfOk result (is_line (seen fields.now)) };

    /// Appends the fields of the line.
    ///
    /// # Errors
    ///
    /// `AllocError` for want of memory; what stood in `out` stays, and a part may stand behind it.
    fn write(&self, out: &mut Vec<u8>) -> Result<(), AllocError>
        requires { is_readable self.now }
        ensures done { OnOk result (out.new.items
            ≡ out.old.items ++ body_of (line_fields (cells self.now))) }
        ensures kept { StartsWith out.new.items out.old.items };
}

impl GroupLine for PartyLine {
    ghost tags = { tags_in parties };

    ghost is_line = { IsParty };

    ghost is_readable = { λ line. line.role ≤ 1_000_000_000 };

    ghost cells = { party_cells };

    fn group() -> &'static RepeatingGroup<Kind> {
        &PARTIES_GROUP
    }

    fn read(alloc: Global, fields: &[Field<'_>]) -> Result<PartyLine, AllocError> {
        let line = Line { fields };
        let id = owned(alloc, text(&line, 448, &Id))?;
        Ok(PartyLine {
            id: or_empty(alloc, id),
            role: number_or_zero(&line, 452).value,
        })
    }

    #[tactic(auto, using(crate::proofs::Contents::still_kept))]
    fn write(&self, out: &mut Vec<u8>) -> Result<(), AllocError> {
        put_field(out, 448, self.id.as_slice())?;
        put_field(out, 447, b"D")?;
        put_number(out, 452, self.role)
    }
}

impl GroupLine for AllocLine {
    ghost tags = { tags_in allocs };

    ghost is_line = { IsAlloc };

    ghost is_readable = { λ line. IfSome line.qty IsDec };

    ghost cells = { alloc_cells };

    fn group() -> &'static RepeatingGroup<Kind> {
        &ALLOCS_GROUP
    }

    fn read(alloc: Global, fields: &[Field<'_>]) -> Result<AllocLine, AllocError> {
        let line = Line { fields };
        let account = owned(alloc, text(&line, 79, &Id))?;
        Ok(AllocLine {
            account: or_empty(alloc, account),
            qty: qty(&line, 80),
        })
    }

    #[tactic(auto, using(crate::proofs::Contents::still_kept))]
    fn write(&self, out: &mut Vec<u8>) -> Result<(), AllocError> {
        put_field(out, 79, self.account.as_slice())?;
        put_if(out, 80, &self.qty)
    }
}

impl GroupLine for SessionLine {
    ghost tags = { tags_in sessions };

    ghost is_line = { IsSession };

    ghost is_readable = { λ _. Unit {0} };

    ghost cells = { session_cells };

    fn group() -> &'static RepeatingGroup<Kind> {
        &SESSIONS_GROUP
    }

    fn read(alloc: Global, fields: &[Field<'_>]) -> Result<SessionLine, AllocError> {
        let line = Line { fields };
        let id = owned(alloc, text(&line, 336, &Id))?;
        Ok(SessionLine {
            id: or_empty(alloc, id),
        })
    }

    fn write(&self, out: &mut Vec<u8>) -> Result<(), AllocError> {
        put_field(out, 336, self.id.as_slice())
    }
}

/// The fields of the lines of a group; none where its count does not stand.
fn members<'f, 'a>(group: &RepeatingGroup<Kind>, fields: &'f Fields<'a>) -> &'f [Field<'a>]
    ensures { seen result.now ≡ line_fields_in (own_tags group.now) fields.now }
{
    match fields.find(group.count) {
        None => &[],
        Some(_) => group.lines(fields.as_slice()),
    }
}

/// The lines of a group, of at most 32. The group is given, and not the lines' own
/// ([`read_lines`]), where a version of FIX passes over other tags.
///
/// # Errors
///
/// `AllocError` for want of memory.
pub fn read_group<L: GroupLine>(
    alloc: Global,
    group: &RepeatingGroup<Kind>,
    fields: &Fields<'_>,
) -> Result<GroupLines<L>, AllocError>
    requires { length (lines_in (own_tags group.now) fields.now) ≤ 32 }
    ensures { IfOk result (AllZip L.is_line (lines_in (own_tags group.now) fields.now)) }
{
    let members = members(group, fields);
    let first = group.first();
    let mut lines = GroupLines::new(alloc);
    let mut from = 0;
    while from < members.len() {
        let end = line_end(members, from, first);
        lines.push(L::read(alloc, line(members, from, end))?)?;
        from = end;
    }
    Ok(lines)
}

/// The lines of their group, of at most 32.
///
/// # Errors
///
/// `AllocError` for want of memory.
pub fn read_lines<L: GroupLine>(
    alloc: Global,
    fields: &Fields<'_>,
) -> Result<GroupLines<L>, AllocError>
    requires { length (lines_in L.tags fields.now) ≤ 32 }
    ensures { IfOk result (AllZip L.is_line (lines_in L.tags fields.now)) }
{
    read_group(alloc, L::group(), fields)
}
