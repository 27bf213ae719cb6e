//! Writing the content of FIX 5.0 SP2 rule by rule.

ghost use Rattle.std.specs.Prelude.{◌≡◌, ◌++◌, OnOk, length};
ghost use Rattle.std.specs.Io.{StartsWith};
ghost use Rattle.std.specs.Option.{option_map};
ghost use Rattle.field_groups.specs.Field.{body_of};
ghost use Rattle.message_tables.specs.Content.{cell_fields, group_fields};
ghost use Rattle.message_tables.specs.Tables.{Tag, first_of, value_at};
ghost use Rattle.party_translate.specs.Parties.{line_of};
ghost use Rattle.rows_fix42.specs.Meaning.{is_on_close};
ghost use Rattle.request_rules.specs.CodeRules.{date, lacks, month, party_fields, writes};
ghost use Rattle.request_rules.specs.Rules.{is_late, is_unlisted, party_lines, rule_lack};
ghost use Rattle.request_rules.specs.Rules.{time_up, type_up, up_rules};

use crate::rules::Own;
use field_groups::{Fields, put_byte, put_field, put_number};
use message_tables::Lookup;
use order_meaning::Lack;
use row_values::{Part, Value, month_and_day};
use rule_rows::{OwnRule, code_of, put_count, put_one, put_text};
use std::alloc::AllocError;

/// What the rules read.
pub(crate) type Source<'f, 'a> = rule_rows::Source<'f, 'a, ()>;

/// TimeInForce(59): at the close.
const AT_CLOSE: u8 = b'7';

/// PartyIDSource(447): proprietary.
const PROPRIETARY: u8 = b'D';

/// What a call answers that appends: an error only for want of memory. What stood there stays.
type Appended = Result<(), AllocError>;

/// Whether an OrdType is on close: market (5) or limit (B).
#[inline(always)]
fn is_on_close(ord_type: Option<u8>) -> bool
    ensures { result ≡ is_on_close ord_type }
{
    match ord_type {
        None => false,
        Some(code) => code == b'5' || code == b'B',
    }
}

/// Appends OrdType(40): market and limit on close are market and limit, at the close.
#[inline(always)]
fn put_type(out: &mut Vec<u8>, ord_type: Option<&[u8]>) -> Appended
    ensures done { OnOk result (out.new.items ≡ out.old.items
        ++ body_of (cell_fields (Tag 40, type_up (option_map (λ t. t.now) ord_type.entry)))) }
    ensures kept { StartsWith out.new.items out.old.items }
{
    match code_of(ord_type) {
        Some(b'5') => put_byte(out, 40, b'1'),
        Some(b'B') => put_byte(out, 40, b'2'),
        _ => put_text(out, 40, ord_type),
    }
}

/// Appends TimeInForce(59), by which FIX 5.0 SP2 says that an order is on close.
#[inline(always)]
fn put_time(out: &mut Vec<u8>, ord_type: Option<&[u8]>, time: Option<&[u8]>) -> Appended
    ensures done { OnOk result (out.new.items ≡ out.old.items ++ body_of (cell_fields (
      Tag 59,
      time_up (option_map (λ t. t.now) ord_type.entry) (option_map (λ t. t.now) time.entry),
    ))) }
    ensures kept { StartsWith out.new.items out.old.items }
{
    if is_on_close(code_of(ord_type)) {
        put_byte(out, 59, AT_CLOSE)
    } else {
        put_text(out, 59, time)
    }
}

/// Appends the month of a maturity.
fn put_month(out: &mut Vec<u8>, fields: &Fields<'_>) -> Appended
    ensures done { OnOk result (out.new.items
        ≡ out.old.items ++ body_of (cell_fields (Tag 200, month fields.now))) }
    ensures kept { StartsWith out.new.items out.old.items }
{
    match fields.value(200) {
        None => Ok(()),
        Some(_) => {
            let maturity = month_and_day(fields);
            put_one(out, Part::Row(200, Value::Month(&maturity)))
        }
    }
}

/// Appends the date of a maturity that has a day.
#[tactic(auto, using(crate::proofs::DateWritten::date_written))]
fn put_date(out: &mut Vec<u8>, fields: &Fields<'_>) -> Appended
    ensures done { OnOk result (out.new.items
        ≡ out.old.items ++ body_of (cell_fields (Tag 541, date fields.now))) }
    ensures kept { StartsWith out.new.items out.old.items }
{
    match fields.value(200) {
        None => Ok(()),
        Some(_) => {
            let maturity = month_and_day(fields);
            put_one(out, Part::Row(541, Value::Date(&maturity)))
        }
    }
}

/// How many parties an id is.
fn count_of(id: Option<&[u8]>) -> usize
    ensures { result ≡ length (line_of 0 (option_map (λ t. t.now) id.entry)) }
{
    match id {
        None => 0,
        Some(_) => 1,
    }
}

/// Appends the line of a party of a role, where there is an id for it.
#[inline(always)]
fn put_party(out: &mut Vec<u8>, id: Option<&[u8]>, role: u32) -> Appended
    ensures done { OnOk result (out.new.items ≡ out.old.items
        ++ body_of (party_fields role (option_map (λ t. t.now) id.entry))) }
    ensures kept { StartsWith out.new.items out.old.items }
{
    let Some(id) = id else { return Ok(()) };
    put_field(out, 448, id)?;
    put_byte(out, 447, PROPRIETARY)?;
    put_number(out, 452, role)
}

/// Appends the parties of the roles 3, 1 and 4.
///
/// # Errors
///
/// `AllocError` for want of memory; what stood in `out` stays, and a part may stand behind it.
#[inline(always)]
pub fn put_parties(
    out: &mut Vec<u8>,
    client: Option<&[u8]>,
    broker: Option<&[u8]>,
    firm: Option<&[u8]>,
) -> Result<(), AllocError>
    ensures done { OnOk result (out.new.items ≡ out.old.items
        ++ body_of (group_fields 453 (party_lines (option_map (λ t. t.now) client.entry)
        (option_map (λ t. t.now) broker.entry) (option_map (λ t. t.now) firm.entry)))) }
    ensures kept { StartsWith out.new.items out.old.items }
{
    put_count(
        out,
        453,
        count_of(client) + count_of(broker) + count_of(firm),
    )?;
    put_party(out, client, 3)?;
    put_party(out, broker, 1)?;
    put_party(out, firm, 4)
}

/// Whether an order on close has another time.
fn is_late(ord_type: Option<u8>, time: Option<u8>) -> bool
    ensures { result ≡ is_late ord_type time }
{
    match time {
        None => false,
        Some(time) => is_on_close(ord_type) && time != b'0',
    }
}

/// Whether a code is not listed.
pub fn is_unlisted(listed: &[u8], code: Option<u8>) -> bool
    ensures { result ≡ is_unlisted listed.now code }
{
    match code {
        None => false,
        Some(code) => !listed.contains(&code),
    }
}

/// The tag of what FIX 5.0 SP2 cannot say of fields: 59 before 47. All else can be said.
#[tactic(auto, unfolding(message_tables::specs::Tables::first_of))]
pub(crate) fn first_lack(fields: &Fields<'_>) -> Option<u32>
    ensures { result ≡ first_of (rule_lack (λ tag. value_at tag fields.now)) up_rules }
{
    let ord_type = code_of(fields.value(40));
    if is_late(ord_type, code_of(fields.value(59))) {
        Some(59)
    } else if is_unlisted(b"AIP", code_of(fields.value(47))) {
        Some(47)
    } else {
        None
    }
}

impl OwnRule<()> for Own {
    ghost writes = { writes };

    ghost lacks = { lacks };

    fn put(&self, source: &Source<'_, '_>, out: &mut Vec<u8>) -> Result<(), Lack> {
        let fields = source.fields;
        match self {
            Own::Listed(from, to, listed) => {
                let code = fields.value(*from);
                if is_unlisted(listed, code_of(code)) {
                    Err(Lack::Tag(*from))
                } else {
                    Ok(put_text(out, *to, code)?)
                }
            }
            Own::Parties => {
                let (client, broker) = (fields.value(109), fields.value(76));
                Ok(put_parties(out, client, broker, fields.value(439))?)
            }
            Own::PartyOf(_) => Ok(()),
            Own::Month => Ok(put_month(out, fields)?),
            Own::Date => Ok(put_date(out, fields)?),
            Own::OrdType => Ok(put_type(out, fields.value(40))?),
            Own::Time => {
                let (ord_type, time) = (fields.value(40), fields.value(59));
                if is_late(code_of(ord_type), code_of(time)) {
                    Err(Lack::Tag(59))
                } else {
                    Ok(put_time(out, ord_type, time)?)
                }
            }
        }
    }
}
