//! Entries as the bytes of a payload. Numbers have the highest byte first.

ghost use Rattle.std.specs.Prelude.{◌≡◌, ◌<◌, ◌^◌, ◌++◌, length, IfSome, IfOk, OnOk};
ghost use Rattle.pair_entries.specs.Payload.{IsEntry, IsOut, AreOuts, side_byte, flags_byte};
ghost use Rattle.pair_entries.specs.Payload.{counted, payload_on};
ghost use Rattle.pair_entries.specs.Payload.{took_bytes, taken_bytes, next_bytes, out_bytes};
ghost use Rattle.std.specs.Int.{w32, to_be_bytes};
ghost use Rattle.std.specs.List.{flat_map};

use crate::{Entry, Out, Took};
use order_meaning::Side;
use std::alloc::{AllocError, Global};

/// The byte of a side.
fn side_code(side: Side) -> u8
    ensures { result ≡ side_byte side }
{
    match side {
        Side::Client => 1,
        Side::Venue => 2,
    }
}

/// The byte of the two marks of an out.
fn flags_code(admin: bool, resend: bool) -> u8
    ensures { result ≡ flags_byte admin resend }
{
    u8::from(admin) + if resend { 2 } else { 0 }
}

/// Appends a length of four bytes, and so many bytes.
fn put_counted(out: &mut Vec<u8>, bytes: &[u8]) -> Result<(), AllocError>
    requires { length bytes.now < 2 ^ 32 }
    ensures { OnOk result (out.new.items ≡ out.old.items ++ counted bytes.now) }
{
    out.extend_from_slice(&(bytes.len() as u32).to_be_bytes())?;
    out.extend_from_slice(bytes)?;
    Ok(())
}

/// Appends what was taken.
fn put_took(out: &mut Vec<u8>, took: &Option<Took>) -> Result<(), AllocError>
    requires { IfSome took.now (λ t. length t.raw < 2 ^ 32) }
    ensures { OnOk result (out.new.items ≡ out.old.items ++ took_bytes took.now) }
{
    match took {
        None => out.push(0)?,
        Some(took) => {
            out.push(side_code(took.side))?;
            out.extend_from_slice(&took.number.to_be_bytes())?;
            put_counted(out, took.raw.as_slice())?;
        }
    }
    Ok(())
}

/// Appends a new day, or what was taken.
fn put_taken(out: &mut Vec<u8>, reset: bool, took: &Option<Took>) -> Result<(), AllocError>
    requires { IfSome took.now (λ t. length t.raw < 2 ^ 32) }
    ensures { OnOk result (out.new.items ≡ out.old.items ++ taken_bytes reset took.now) }
{
    if reset {
        out.push(3)?;
        return Ok(());
    }
    put_took(out, took)
}

/// Appends a number of four bytes.
fn put_u32(out: &mut Vec<u8>, number: u32) -> Result<(), AllocError>
    ensures { OnOk result (out.new.items ≡ out.old.items ++ to_be_bytes w32 number) }
{
    out.extend_from_slice(&number.to_be_bytes())
}

/// Appends the next numbers.
fn put_next(out: &mut Vec<u8>, next: (u32, u32, u32, u32)) -> Result<(), AllocError>
    ensures { OnOk result (out.new.items ≡ out.old.items ++ next_bytes next) }
{
    put_u32(out, next.0)?;
    put_u32(out, next.1)?;
    put_u32(out, next.2)?;
    put_u32(out, next.3)?;
    Ok(())
}

/// Appends a message that was given out.
fn put_out(bytes: &mut Vec<u8>, out: &Out) -> Result<(), AllocError>
    requires { IsOut out.now }
    ensures { OnOk result (bytes.new.items ≡ bytes.old.items ++ out_bytes out.now) }
{
    bytes.push(side_code(out.side))?;
    bytes.extend_from_slice(&out.number.to_be_bytes())?;
    bytes.push(flags_code(out.admin, out.resend))?;
    bytes.push(out.msg_type.as_slice().len() as u8)?;
    bytes.extend_from_slice(out.msg_type.as_slice())?;
    put_counted(bytes, out.content.as_slice())?;
    Ok(())
}

/// Appends messages that were given out.
fn put_outs(bytes: &mut Vec<u8>, outs: &[Out]) -> Result<(), AllocError>
    requires { AreOuts outs.now }
    ensures { OnOk result (bytes.new.items ≡ bytes.old.items ++ flat_map out_bytes outs.now) }
{
    for out in outs {
        put_out(bytes, out)?;
    }
    Ok(())
}

/// The payload of an entry on this day.
pub(crate) fn write_entry(alloc: Global, day: u32, entry: &Entry) -> Result<Vec<u8>, AllocError>
    requires { IsEntry entry.now }
    ensures { IfOk result (λ v. v.items ≡ payload_on day entry.now) }
{
    let mut out = Vec::new(alloc);
    put_u32(&mut out, day)?;
    out.extend_from_slice(&entry.at.to_be_bytes())?;
    put_taken(&mut out, entry.reset, &entry.took)?;
    put_next(&mut out, entry.next)?;
    out.push(entry.outs.as_slice().len() as u8)?;
    put_outs(&mut out, entry.outs.as_slice())?;
    Ok(out)
}
