//! Texts that stand in fields, read and written.

ghost use Rattle.std.specs.Prelude.{◌≡◌, ◌++◌, IfSome, OnOk, Some};
ghost use Rattle.std.specs.Io.{StartsWith};
ghost use Rattle.std.specs.Option.{option_map};
ghost use Rattle.typed_fields.specs.Number.{IsNumber};
ghost use Rattle.typed_fields.specs.Stamp.{cut_text};
ghost use Rattle.field_groups.specs.Field.{body_of};
ghost use Rattle.message_tables.specs.Content.{cell_fields};
ghost use Rattle.message_tables.specs.Tables.{Tag};
ghost use Rattle.row_values.specs.CodeKinds.{kind_of};
ghost use Rattle.rule_rows.specs.Texts.{byte_of, decimal_of, decimal_text, kept, kept_by};
ghost use Rattle.rule_rows.specs.Texts.{number_of};

use crate::group_lines::put_text;
use field_groups::{Fields, put_field};
use message_tables::{Lookup, Mark};
use row_values::{Kind, put_dec};
use std::alloc::AllocError;
use typed_fields::{Dec, FieldValue, Number, cut_text};

/// The code that a text is, if it is one byte.
#[inline(always)]
pub fn code_of(text: Option<&[u8]>) -> Option<u8>
    ensures { result ≡ byte_of (option_map (λ t. t.now) text.entry) }
{
    match text {
        Some([byte]) => Some(*byte),
        _ => None,
    }
}

/// The decimal number that a text spells, if it spells one.
pub fn decimal_of(text: Option<&[u8]>) -> Option<Dec>
    ensures { result ≡ decimal_of (option_map (λ t. t.now) text.entry) }
{
    match text {
        None => None,
        Some(text) => Dec::read(text).ok(),
    }
}

/// The number that a text spells, if it spells one.
pub fn number_of(text: Option<&[u8]>) -> Option<Number>
    ensures value { result ≡ number_of (option_map (λ t. t.now) text.entry) }
    ensures bound { IfSome result IsNumber }
{
    match text {
        None => None,
        Some(text) => Number::read(text).ok(),
    }
}

/// A text, where it is of the profile of a kind.
#[inline(never)]
fn kept_by<'f>(fields: &Fields<'_>, kind: &Kind, text: &'f [u8]) -> Option<&'f [u8]>
    ensures { option_map (λ t. t.now) result ≡ kept_by fields.now (kind_of kind.now) text.now }
{
    match kind.judge(fields, text) {
        Mark::Good => Some(text),
        _ => None,
    }
}

/// The value of a tag, where it is of the profile of a kind. Where none stands, no call is made.
#[inline(always)]
pub fn kept<'f>(fields: &'f Fields<'_>, tag: u32, kind: &Kind) -> Option<&'f [u8]>
    ensures { option_map (λ t. t.now) result ≡ kept fields.now tag (kind_of kind.now) }
{
    match fields.value(tag) {
        None => None,
        Some(text) => kept_by(fields, kind, text),
    }
}

/// Appends the field of the decimal number that a text spells, if there is one.
///
/// # Errors
///
/// As [`put_text`].
#[inline(always)]
pub fn put_decimal(out: &mut Vec<u8>, tag: u32, text: Option<&[u8]>) -> Result<(), AllocError>
    ensures done { OnOk result (out.new.items ≡ out.old.items
        ++ body_of (cell_fields (Tag tag, decimal_text (option_map (λ t. t.now) text.entry)))) }
    ensures kept { StartsWith out.new.items out.old.items }
{
    match text {
        None => Ok(()),
        Some(text) => put_dec(out, tag, text),
    }
}

/// Appends the field of a text, where it is of the profile of a kind.
#[inline(never)]
fn put_kept_by(
    out: &mut Vec<u8>,
    tag: u32,
    fields: &Fields<'_>,
    kind: &Kind,
    text: &[u8],
) -> Result<(), AllocError>
    ensures done { OnOk result (out.new.items ≡ out.old.items
        ++ body_of (cell_fields (Tag tag, kept_by fields.now (kind_of kind.now) text.now))) }
    ensures kept { StartsWith out.new.items out.old.items }
{
    match kind.judge(fields, text) {
        Mark::Good => put_field(out, tag, text),
        _ => Ok(()),
    }
}

/// Appends the field of the value of a tag, where it is of the profile of a kind. Where none
/// stands, no call is made.
#[inline(always)]
pub(crate) fn put_kept(
    out: &mut Vec<u8>,
    tag: u32,
    fields: &Fields<'_>,
    from: u32,
    kind: &Kind,
) -> Result<(), AllocError>
    ensures done { OnOk result (out.new.items ≡ out.old.items
        ++ body_of (cell_fields (Tag tag, kept fields.now from (kind_of kind.now)))) }
    ensures kept { StartsWith out.new.items out.old.items }
{
    match fields.value(from) {
        None => Ok(()),
        Some(text) => put_kept_by(out, tag, fields, kind, text),
    }
}

/// Appends the field of a moment in the fine form, to its milliseconds.
#[inline(never)]
fn put_cut(out: &mut Vec<u8>, tag: u32, text: &[u8]) -> Result<(), AllocError>
    ensures done { OnOk result (out.new.items ≡ out.old.items
        ++ body_of (cell_fields (Tag tag, Some (cut_text text.now)))) }
    ensures kept { StartsWith out.new.items out.old.items }
{
    put_field(out, tag, cut_text(text))
}

/// Appends the field of a moment in the fine form, to its milliseconds, if there is one.
///
/// # Errors
///
/// As [`put_text`].
#[inline(always)]
pub fn put_moment(out: &mut Vec<u8>, tag: u32, text: Option<&[u8]>) -> Result<(), AllocError>
    ensures done { OnOk result (out.new.items ≡ out.old.items ++ body_of
        (cell_fields (Tag tag, option_map cut_text (option_map (λ t. t.now) text.entry)))) }
    ensures kept { StartsWith out.new.items out.old.items }
{
    match text {
        None => Ok(()),
        Some(text) => put_cut(out, tag, text),
    }
}
