//! The kinds of values of rows, and what a value is beside the profile.

ghost use Rattle.std.specs.Prelude.{◌≡◌, ◌≤◌, ◌||◌, not, codes, is_some, if◌then◌else◌};
ghost use Rattle.std.specs.Prelude.{IfSome};
ghost use Rattle.std.specs.Str.{bytes_eq};
ghost use Rattle.message_tables.specs.FirstFault.{mark_of};
ghost use Rattle.message_tables.specs.Plain.{is_good};
ghost use Rattle.message_tables.specs.Tables.{Said, Spells, Wrong};
ghost use Rattle.value_kinds.specs.ValueKind as kinds;
ghost use Rattle.value_kinds.specs.ValueKind.{is_code, spelling};
ghost use Rattle.typed_fields.specs.Day.{is_date};
ghost use Rattle.typed_fields.specs.MonthYear.{IsMonthYear};
ghost use Rattle.row_values.specs.Kinds.{counted, filled, if_spelled, is_at_close, judge};
ghost use Rattle.row_values.specs.Kinds.{in_month, month_beside, reason_of, verdict_of};
ghost use Rattle.row_values.specs.CodeKinds.{counted_mark, day_mark, judged_mark, kind_of};
ghost use Rattle.value_kinds.specs.CodeKinds.{value_kind_of};

use crate::values::{AT_CLOSE, day, may_close, month};
use field_groups::Fields;
use message_tables::Mark;
use typed_fields::{FieldFault, MonthYear};
use value_kinds::ValueKind::{Code, OneByte};
use value_kinds::{ValueKind, day_of_month, has_day};

/// SessionRejectReason(373): tag specified without a value.
const EMPTY: u8 = 4;

/// SessionRejectReason(373): value is incorrect (out of range) for this tag.
const RANGE: u8 = 5;

/// SessionRejectReason(373): incorrect data format for value.
const FORM: u8 = 6;

/// SessionRejectReason(373): invalid or unsupported application version.
const VERSION: u8 = 18;

/// ApplVerID(1128): FIX 5.0 SP2.
const FIX50SP2: &[u8] = b"9";

/// A kind of values of a row.
#[derive(Clone, Copy, Debug)]
pub enum Kind {
    /// Values that are judged by themselves.
    Value(ValueKind),
    /// One byte, which counts where it is among these.
    Byte(&'static [u8]),
    /// A day of the month in the field of this tag.
    DayOf(u32),
    /// A month, which is that of the date in the field of this tag, where it says one.
    MonthBeside(u32),
    /// TimeInForce, beside the OrdType in the field of this tag.
    TimeBeside(u32),
    /// ApplVerID.
    Version,
}

/// SessionRejectReason(373) of a fault of a value.
#[inline(always)]
fn reason_of(fault: FieldFault) -> u8
    ensures { result ≡ reason_of fault }
{
    match fault {
        FieldFault::Empty => EMPTY,
        FieldFault::Form => FORM,
        FieldFault::Range => RANGE,
    }
}

/// What a value is that was judged by itself.
#[inline(always)]
fn mark_of(judged: Result<bool, FieldFault>) -> Mark
    ensures { result ≡ judged_mark judged }
{
    match judged {
        Ok(true) => Mark::Good,
        Ok(false) => Mark::Outside,
        Err(fault) => Mark::Wrong(reason_of(fault)),
    }
}

/// What a value is to a kind whose values are judged by themselves.
#[inline(always)]
#[tactic(auto, using(crate::proofs::Marks::mark_judged))]
fn judge_value(kind: &ValueKind, value: &[u8]) -> Mark
    ensures { result ≡ mark_of (verdict_of (spelling (value_kind_of kind.now) value.now)) }
{
    mark_of(kind.judge(value))
}

/// Whether a value is good.
#[inline(always)]
fn is_good(mark: Mark) -> bool
    ensures { result ≡ is_good mark }
{
    match mark {
        Mark::Good => true,
        _ => false,
    }
}

/// What a day is that a month has or lacks.
fn mark_in(month: &MonthYear, day: u8) -> Mark
    requires month { IsMonthYear month.now }
    requires day { day ≤ 99 }
    ensures { result ≡ day_mark (is_date month.now.year month.now.month day) }
{
    if has_day(month, day) {
        Mark::Good
    } else {
        Mark::Wrong(RANGE)
    }
}

/// What a day is beside its month; where no month can be read, the month is at fault.
fn judge_day(month: Option<MonthYear>, bytes: &[u8]) -> Mark
    requires { IfSome month IsMonthYear }
    ensures { result ≡ mark_of (in_month month (verdict_of (spelling kinds.DayOfMonth bytes.now))) }
{
    match month {
        Some(month) => match day_of_month(bytes) {
            Some(day) => mark_in(&month, day),
            None => judge_value(&ValueKind::DayOfMonth, bytes),
        },
        None => judge_value(&ValueKind::DayOfMonth, bytes),
    }
}

/// What a value is that counts only in some cases.
fn counted(counts: bool, mark: Mark) -> Mark
    ensures { result ≡ counted_mark counts mark }
{
    if counts {
        return mark;
    }
    match mark {
        Mark::Good => Mark::Outside,
        Mark::Outside => Mark::Outside,
        Mark::Wrong(reason) => Mark::Wrong(reason),
    }
}

/// What a month is, beside no date.
#[tactic(auto, using(crate::proofs::Marks::of_month))]
fn month_alone(month: &[u8]) -> Mark
    ensures { result ≡ mark_of (if_spelled (spelling kinds.MonthYear month.now)) }
{
    match value_kinds::month_year(month) {
        Some(_) => Mark::Good,
        None => Mark::Outside,
    }
}

/// What a month is, beside a date or not.
#[tactic(auto, using(crate::proofs::Marks::month_marked))]
fn judge_month(beside_date: bool, month: &[u8]) -> Mark
    ensures { (date : Said) → beside_date ≡ is_some date
        → result ≡ mark_of (filled month.now (month_beside date month.now)) }
{
    if month.is_empty() {
        Mark::Wrong(EMPTY)
    } else if beside_date {
        Mark::Good
    } else {
        month_alone(month)
    }
}

/// What a TimeInForce is, where it may be at the close or not.
#[tactic(auto, using(crate::proofs::Marks::of_counted))]
fn judge_time(may_close: bool, time: &[u8]) -> Mark
    ensures { result ≡ mark_of (counted (not (is_at_close time.now) || may_close)
        (verdict_of (spelling (kinds.Code (codes "01234567")) time.now))) }
{
    counted(
        time != [AT_CLOSE].as_slice() || may_close,
        mark_of(Code(b"01234567").judge(time)),
    )
}

/// What a byte is that counts where it is among these.
fn judge_byte(listed: &'static [u8], value: &[u8]) -> Mark
    ensures { result ≡ mark_of (counted (is_code listed.now value.now)
        (verdict_of (spelling kinds.OneByte value.now))) }
{
    counted(
        value_kinds::code(&Code(listed), value).is_some(),
        mark_of(OneByte.judge(value)),
    )
}

/// What an ApplVerID is.
fn judge_version(version: &[u8]) -> Mark
    ensures { result ≡ mark_of (if bytes_eq version.now (codes "9")
        then Spells version.now else Wrong 18) }
{
    if version == FIX50SP2 {
        Mark::Good
    } else {
        Mark::Wrong(VERSION)
    }
}

impl Kind {
    /// What a value is beside the other fields of its message. Most kinds ask of no other field.
    #[inline(always)]
    #[tactic(auto, using(crate::proofs::Marks::of_kind), unfolding(crate::specs::Kinds::judge))]
    pub fn judge(&self, fields: &Fields<'_>, bytes: &[u8]) -> Mark
        ensures { result ≡ mark_of (judge fields.now (kind_of self.now) bytes.now) }
    {
        match self {
            Kind::Value(kind) => judge_value(kind, bytes),
            _ => self.judge_beside(fields, bytes),
        }
    }

    /// Whether a value is good, as `judge` marks it.
    #[inline(always)]
    #[tactic(auto, using(crate::proofs::Marks::accepted), unfolding(crate::specs::Kinds::judge))]
    pub fn accepts(&self, fields: &Fields<'_>, bytes: &[u8]) -> bool
        ensures { result ≡ is_good (mark_of (judge fields.now (kind_of self.now) bytes.now)) }
    {
        match self {
            Kind::Value(kind) => kind.accepts(bytes),
            _ => is_good(self.judge_beside(fields, bytes)),
        }
    }

    /// The same of a value of any kind.
    #[inline(never)]
    #[tactic(auto, using(crate::proofs::Marks::of_kind), unfolding(crate::specs::Kinds::judge))]
    fn judge_beside(&self, fields: &Fields<'_>, bytes: &[u8]) -> Mark
        ensures { result ≡ mark_of (judge fields.now (kind_of self.now) bytes.now) }
    {
        match self {
            Kind::Value(kind) => judge_value(kind, bytes),
            Kind::Byte(listed) => judge_byte(listed, bytes),
            Kind::DayOf(tag) => judge_day(month(fields, *tag), bytes),
            Kind::MonthBeside(date) => judge_month(day(fields, *date).is_some(), bytes),
            Kind::TimeBeside(ord_type) => judge_time(may_close(fields, *ord_type), bytes),
            Kind::Version => judge_version(bytes),
        }
    }
}
