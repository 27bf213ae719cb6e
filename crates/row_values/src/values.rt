//! What the fields of a message say at single tags.

ghost use Rattle.std.specs.Prelude.{◌≡◌, [], Some, codes, is_some, unwrap_or, option_and_then};
ghost use Rattle.std.specs.Prelude.{IfOk, IfSome, IsTrue, None, nat_le, not};
ghost use Rattle.std.specs.Prelude.{if◌then◌else◌};
ghost use Rattle.std.specs.Int.{is_negative};
ghost use Rattle.std.specs.Option.{option_map};
ghost use Rattle.std.specs.Result.{result_ok};
ghost use Rattle.value_kinds.specs.ValueKind as kinds;
ghost use Rattle.value_kinds.specs.ValueKind.{most_reason, spelled, code_text};
ghost use Rattle.value_kinds.specs.CodeKinds.{is_byte_kind, is_verbatim};
ghost use Rattle.value_kinds.specs.CodeKinds.{value_kind_of};
ghost use Rattle.typed_fields.specs.Dec.{dec_text, IsDec};
ghost use Rattle.typed_fields.specs.Day.{day_text, IsDay};
ghost use Rattle.typed_fields.specs.Flag.{flag_text};
ghost use Rattle.typed_fields.specs.MonthYear.{month_year_text, IsMonthYear};
ghost use Rattle.typed_fields.specs.Number.{number_text, IsNumber};
ghost use Rattle.typed_fields.specs.Stamp.{stamp_text, IsStamp};
ghost use Rattle.message_tables.specs.Tables.{is_listed, value_at};
ghost use Rattle.row_values.specs.Kinds.{Value, month_at, resend_of, said};

use message_tables::Lookup;
use order_meaning::Bytes;
use std::alloc::{AllocError, Global};
use typed_fields::{Day, Dec, FieldValue, Flag, MonthYear, Number, Stamp};
use value_kinds::ValueKind::Code;
use value_kinds::{MAX_REASON, ValueKind};

/// TimeInForce(59): at the close.
pub const AT_CLOSE: u8 = b'7';

/// The text that the field of a tag says.
#[tactic(auto, using(crate::proofs::Texts::at_tag))]
pub fn text<'f, F: Lookup>(fields: &'f F, tag: u32, kind: &ValueKind) -> Option<&'f [u8]>
    requires { IsTrue (is_verbatim (value_kind_of kind.now)) }
    ensures { option_map (λ text. text.now) result
        ≡ said (F.fields fields.now) tag (Value (value_kind_of kind.now)) }
{
    match fields.value(tag) {
        Some(bytes) => value_kinds::text(kind, bytes),
        None => None,
    }
}

/// A text that is there, or none.
pub fn or_empty(alloc: Global, text: Option<Bytes>) -> Bytes
    ensures { result ≡ unwrap_or text [] }
{
    match text {
        Some(text) => text,
        None => Bytes::new(alloc),
    }
}

/// The code that the field of a tag says.
#[tactic(auto, using(crate::proofs::Texts::at_tag))]
pub fn code<F: Lookup>(fields: &F, tag: u32, kind: &ValueKind) -> Option<u8>
    requires { IsTrue (is_byte_kind (value_kind_of kind.now)) }
    ensures { option_map code_text result
        ≡ said (F.fields fields.now) tag (Value (value_kind_of kind.now)) }
{
    match fields.value(tag) {
        Some(bytes) => value_kinds::code(kind, bytes),
        None => None,
    }
}

/// The value of a type that the field of a tag is read as.
fn read<T: FieldValue + Drop, F: Lookup>(fields: &F, tag: u32) -> Option<T>
    ensures value { result
        ≡ option_and_then (λ bytes. result_ok (T.reading bytes))
        (value_at tag (F.fields fields.now)) }
    ensures bound { IfSome result T.can_be }
{
    match fields.value(tag) {
        None => None,
        Some(bytes) => match T::read(bytes) {
            Ok(value) => Some(value),
            Err(_) => None,
        },
    }
}

/// A decimal number that is not negative.
fn not_negative(dec: Dec) -> Option<Dec>
    ensures text { option_map dec_text result
        ≡ (if not (is_negative dec.units) then Some (dec_text dec) else None) }
    ensures bound { IsDec dec → IfSome result IsDec }
{
    if dec.units < 0 { None } else { Some(dec) }
}

/// The quantity that the field of a tag says, which is not negative.
pub fn qty<F: Lookup>(fields: &F, tag: u32) -> Option<Dec>
    ensures text { option_map dec_text result ≡ said (F.fields fields.now) tag (Value kinds.Qty) }
    ensures bound { IfSome result IsDec }
{
    match read::<Dec, F>(fields, tag) {
        Some(dec) => not_negative(dec),
        None => None,
    }
}

/// The price that the field of a tag says.
pub fn price<F: Lookup>(fields: &F, tag: u32) -> Option<Dec>
    ensures text { option_map dec_text result ≡ said (F.fields fields.now) tag (Value kinds.Price) }
    ensures bound { IfSome result IsDec }
{
    read(fields, tag)
}

/// The day that the field of a tag says.
pub fn day<F: Lookup>(fields: &F, tag: u32) -> Option<Day>
    ensures text { option_map day_text result ≡ said (F.fields fields.now) tag (Value kinds.Day) }
    ensures bound { IfSome result IsDay }
{
    read(fields, tag)
}

/// The moment that the field of a tag says.
pub fn stamp<F: Lookup>(fields: &F, tag: u32) -> Option<Stamp>
    ensures text { option_map stamp_text result
        ≡ said (F.fields fields.now) tag (Value kinds.Stamp) }
    ensures bound { IfSome result IsStamp }
{
    read(fields, tag)
}

/// The moment in the fine form that the field of a tag says, to its milliseconds.
#[tactic(auto, using(crate::proofs::Texts::at_tag))]
pub fn fine_stamp<F: Lookup>(fields: &F, tag: u32) -> Option<Stamp>
    ensures text { option_map stamp_text result
        ≡ said (F.fields fields.now) tag (Value kinds.FineStamp) }
    ensures bound { IfSome result IsStamp }
{
    match fields.value(tag) {
        Some(bytes) => value_kinds::fine_stamp(bytes),
        None => None,
    }
}

/// The yes or no that the field of a tag says.
pub fn flag<F: Lookup>(fields: &F, tag: u32) -> Option<Flag>
    ensures { option_map flag_text result ≡ said (F.fields fields.now) tag (Value kinds.Flag) }
{
    read(fields, tag)
}

/// The number that the field of a tag says.
pub fn number<F: Lookup>(fields: &F, tag: u32) -> Option<Number>
    ensures text { option_map number_text result
        ≡ said (F.fields fields.now) tag (Value kinds.Number) }
    ensures bound { IfSome result IsNumber }
{
    read(fields, tag)
}

/// A number that is not past the greatest reason.
fn not_past_reasons(number: Number) -> Option<Number>
    ensures text { option_map number_text result
        ≡ (if nat_le number.value most_reason then Some (number_text number) else None) }
    ensures bound { IsNumber number → IfSome result IsNumber }
{
    if number.value <= MAX_REASON {
        Some(number)
    } else {
        None
    }
}

/// The reason that the field of a tag says.
pub fn reason<F: Lookup>(fields: &F, tag: u32) -> Option<Number>
    ensures text { option_map number_text result
        ≡ said (F.fields fields.now) tag (Value kinds.Reason) }
    ensures bound { IfSome result IsNumber }
{
    match read::<Number, F>(fields, tag) {
        Some(number) => not_past_reasons(number),
        None => None,
    }
}

/// The price that the field of a tag says, and zero where it says none.
#[tactic(auto, using(crate::proofs::Texts::zero_is))]
pub fn price_or_zero<F: Lookup>(fields: &F, tag: u32) -> Dec
    ensures text { IfSome (said (F.fields fields.now) tag (Value kinds.Price))
        (λ text. text ≡ dec_text result) }
    ensures bound { IsDec result }
{
    match price(fields, tag) {
        Some(price) => price,
        None => Dec { units: 0 },
    }
}

/// The quantity that the field of a tag says, and zero where it says none.
#[tactic(auto, using(crate::proofs::Texts::zero_is))]
pub fn qty_or_zero<F: Lookup>(fields: &F, tag: u32) -> Dec
    ensures text { IfSome (said (F.fields fields.now) tag (Value kinds.Qty))
        (λ text. text ≡ dec_text result) }
    ensures bound { IsDec result }
{
    match qty(fields, tag) {
        Some(quantity) => quantity,
        None => Dec { units: 0 },
    }
}

/// The moment that the field of a tag says, and the first of 1970 where it says none.
pub fn stamp_or_epoch<F: Lookup>(fields: &F, tag: u32) -> Stamp
    ensures text { IfSome (said (F.fields fields.now) tag (Value kinds.Stamp))
        (λ text. text ≡ stamp_text result) }
    ensures bound { IsStamp result }
{
    match stamp(fields, tag) {
        Some(stamp) => stamp,
        None => Stamp::of_millis(0),
    }
}

/// The moment in the fine form that the field of a tag says, to its milliseconds, and the first of
/// 1970 where it says none.
pub fn fine_stamp_or_epoch<F: Lookup>(fields: &F, tag: u32) -> Stamp
    ensures text { IfSome (said (F.fields fields.now) tag (Value kinds.FineStamp))
        (λ text. text ≡ stamp_text result) }
    ensures bound { IsStamp result }
{
    match fine_stamp(fields, tag) {
        Some(stamp) => stamp,
        None => Stamp::of_millis(0),
    }
}

/// The number that the field of a tag says, and zero where it says none.
pub fn number_or_zero<F: Lookup>(fields: &F, tag: u32) -> Number
    ensures text { IfSome (said (F.fields fields.now) tag (Value kinds.Number))
        (λ text. text ≡ number_text result) }
    ensures bound { IsNumber result }
{
    match number(fields, tag) {
        Some(number) => number,
        None => Number { value: 0 },
    }
}

/// Whether the OrdType in the field of this tag is market or limit, which may be at the close.
#[tactic(auto, using(crate::proofs::Texts::listed_is_said))]
pub fn may_close<F: Lookup>(fields: &F, ord_type: u32) -> bool
    ensures { result ≡ is_listed (codes "12") (value_at ord_type (F.fields fields.now)) }
{
    code(fields, ord_type, &Code(b"12")).is_some()
}

/// PossResend(97): whether the message repeats one that was sent before.
pub fn resend<F: Lookup>(fields: &F) -> bool
    ensures { result ≡ resend_of (F.fields fields.now) }
{
    match fields.value(97) {
        None => false,
        Some(bytes) => bytes == b"Y".as_slice(),
    }
}

/// The month that the field of a tag says.
pub fn month<F: Lookup>(fields: &F, tag: u32) -> Option<MonthYear>
    ensures value { result ≡ month_at tag (F.fields fields.now) }
    ensures text { option_map month_year_text result
        ≡ said (F.fields fields.now) tag (Value kinds.MonthYear) }
    ensures bound { IfSome result IsMonthYear }
{
    read(fields, tag)
}
