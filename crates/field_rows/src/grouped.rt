//! Bodies with their fields and groups.

use crate::texts::{numbered, tell, u32_in};
use field_groups::{Fields, Group, Shape, put_field, put_number, read_group, split};
use row_words::show;
use std::alloc::{AllocError, Global};

/// NoPartyIDs(453) with its PartyID(448), PartyIDSource(447), PartyRole(452) and sub-ids.
const PARTIES: Shape = Shape {
    count: 453,
    first: 448,
    members: &[447, 452],
    skip: &[802, 523, 803],
};

/// Appends a field.
pub(crate) fn show_tagged(out: &mut String, tag: u32, value: &[u8]) -> Result<(), AllocError> {
    write!(out, "[{tag}=")?;
    show(out, value)?;
    out.push(']')
}

/// Appends the field at a place; `end` where there is none.
fn show_field(out: &mut String, fields: &Fields<'_>, place: usize) -> Result<(), AllocError> {
    match fields.at(place) {
        Some((tag, value)) => show_tagged(out, tag, value),
        None => out.push_str("end"),
    }
}

/// The fields of a body, and its fault if it has one.
fn fields(out: &mut String, alloc: Global, given: &[u8]) -> Result<(), AllocError> {
    let split = split(alloc, given)?;
    for place in 0..=split.fields.len() {
        show_field(out, &split.fields, place)?;
    }
    match split.fault {
        Some(fault) => write!(out, " {fault:?}"),
        None => Ok(()),
    }
}

/// How many fields a body has.
fn count(out: &mut String, alloc: Global, given: &[u8]) -> Result<(), AllocError> {
    let split = split(alloc, given)?;
    let count = split.fields.len();
    let fault = split.fault;
    write!(out, "{count} {fault:?}")
}

/// How many fields have a tag and a value.
fn filled(fields: &Fields<'_>) -> u32 {
    let mut filled = 0u32;
    for (tag, value) in fields {
        if *tag > 0 && !value.is_empty() {
            filled = filled.saturating_add(1);
        }
    }
    filled
}

/// How many fields have a tag and a value, and how many a tag below 40; and the last field.
fn all(out: &mut String, alloc: Global, given: &[u8]) -> Result<(), AllocError> {
    let split = split(alloc, given)?;
    let low = split.fields.iter().filter(|field| field.0 < 40).count();
    tell(out, &(filled(&split.fields), low))?;
    match split.fields.as_slice().last() {
        Some((tag, value)) => show_tagged(out, *tag, value),
        None => Ok(()),
    }
}

/// The place of a tag in a body.
fn find(out: &mut String, alloc: Global, given: &[u8]) -> Result<(), AllocError> {
    let Some((tag, body)) = numbered(given) else {
        return Ok(());
    };
    let split = split(alloc, body)?;
    tell(out, &split.fields.find(tag))
}

/// A field with a value.
fn field(out: &mut String, alloc: Global, given: &[u8]) -> Result<(), AllocError> {
    let Some((tag, value)) = numbered(given) else {
        return Ok(());
    };
    let mut bytes = Vec::new(alloc);
    put_field(&mut bytes, tag, value)?;
    show(out, &bytes)
}

/// The tag and the number of a field with a number.
fn two_numbers(given: &[u8]) -> Option<(u32, u32)> {
    let (tag, digits) = numbered(given)?;
    Some((tag, u32_in(digits)?))
}

/// A field with a number.
fn field_with_number(out: &mut String, alloc: Global, given: &[u8]) -> Result<(), AllocError> {
    let Some((tag, number)) = two_numbers(given) else {
        return Ok(());
    };
    let mut bytes = Vec::new(alloc);
    put_number(&mut bytes, tag, number)?;
    show(out, &bytes)
}

/// Appends a line of a group; `end` and the group's end where there is none.
fn show_line(out: &mut String, group: &Group, index: usize) -> Result<(), AllocError> {
    match group.line(index) {
        Some(line) => write!(out, "{line:?} "),
        None => {
            let end = group.end();
            write!(out, "end {end}")
        }
    }
}

/// The lines of a group.
fn show_lines(out: &mut String, group: &Group) -> Result<(), AllocError> {
    for index in 0..=group.len() {
        show_line(out, group, index)?;
    }
    Ok(())
}

/// How many lines a group has, and whether it has none.
fn show_count(out: &mut String, group: &Group) -> Result<(), AllocError> {
    let (len, is_empty, end) = (group.len(), group.is_empty(), group.end());
    write!(out, "{len} {is_empty} {end}")
}

/// The group that a body begins with: its lines, or how many.
fn group(out: &mut String, alloc: Global, given: &[u8], lines: bool) -> Result<(), AllocError> {
    let split = split(alloc, given)?;
    if split.fields.is_empty() {
        return Ok(());
    }
    match read_group(alloc, &split.fields, 0, &PARTIES) {
        Ok(group) => {
            if lines {
                show_lines(out, &group)
            } else {
                show_count(out, &group)
            }
        }
        Err(fault) => tell(out, &fault),
    }
}

/// Appends the answer to a call of this crate.
pub(crate) fn answer(
    out: &mut String,
    alloc: Global,
    call: &str,
    given: &[u8],
) -> Result<(), AllocError> {
    match call {
        "split" => fields(out, alloc, given),
        "Fields::len" => count(out, alloc, given),
        "Fields::find" => find(out, alloc, given),
        "Fields::iter" => all(out, alloc, given),
        "put_field" => field(out, alloc, given),
        "put_number" => field_with_number(out, alloc, given),
        "read_group" => group(out, alloc, given, true),
        "Group::len" => group(out, alloc, given, false),
        _ => Ok(()),
    }
}
