//! The kinds of values of which the tables of messages speak.

ghost use Rattle.std.specs.Prelude.{◌≡◌, ◌==◌, ◌&&◌, ◌≤◌, ℕ, List, [], ◌∷◌, map, not, nat_le};
ghost use Rattle.std.specs.Prelude.{IsTrue, Ok, Err, Some, None, IfSome, true, false};
ghost use Rattle.std.specs.Prelude.{if◌then◌else◌};
ghost use Rattle.std.specs.Int.{is_negative};
ghost use Rattle.std.specs.Option.{option_map};
ghost use Rattle.std.specs.Result.{result_ok};
ghost use Rattle.std.specs.List.{list_any, list_all};
ghost use Rattle.std.specs.Str.{bytes_eq};
ghost use Rattle.std.specs.Char.{is_ascii_digit, is_ascii_uppercase};
ghost use Rattle.typed_fields.specs.Number.{read_number, number_text};
ghost use Rattle.typed_fields.specs.Dec.{read_dec, dec_text};
ghost use Rattle.typed_fields.specs.Stamp.{stamp_text, IsStamp, cut_text, read_fine, read_stamp};
ghost use Rattle.typed_fields.specs.Day.{day_text, is_date, read_day};
ghost use Rattle.typed_fields.specs.MonthYear.{read_month_year, month_year_text, IsMonthYear};
ghost use Rattle.typed_fields.specs.Flag.{flag_text};
ghost use Rattle.value_kinds.specs.ValueKind as kinds;
ghost use Rattle.value_kinds.specs.ValueKind.{Qty, Price, Reason, DayOfMonth, spelling, spelled};
ghost use Rattle.value_kinds.specs.ValueKind.{spelt, if_in_range, is_code, are_spaced, are_codes};
ghost use Rattle.value_kinds.specs.ValueKind.{known, listed_word};
ghost use Rattle.value_kinds.specs.ValueKind.{codes_among, two_digits, code_text, two_digit_text};
ghost use Rattle.value_kinds.specs.CodeKinds.{value_kind_of, judged, is_good, is_verbatim};
ghost use Rattle.value_kinds.specs.CodeKinds.{is_byte_kind};

use jiff::civil::Date;
use typed_fields::laws::spellings_are_plain;
use typed_fields::{Day, Dec, FieldFault, Flag, MonthYear, Number, Stamp, has_minus, plain_units};

/// The most bytes of an id.
const MAX_ID: usize = 128;

/// The most bytes of a text.
const MAX_TEXT: usize = 2048;

/// The greatest reason of a refusal.
pub const MAX_REASON: u32 = 9999;

/// A kind of values.
#[derive(Clone, Copy, Debug)]
pub enum ValueKind {
    /// Any bytes, and at least one.
    Filled,
    /// 1 to 128 bytes.
    Id,
    /// 1 to 2,048 bytes.
    Text,
    /// One byte, whichever.
    OneByte,
    /// One of these bytes; any other value is outside the profile.
    Code(&'static [u8]),
    /// One of these bytes; any other value is out of range.
    Known(&'static [u8]),
    /// Some of these bytes, with single spaces between them; any other such value is outside the
    /// profile.
    Codes(&'static [u8]),
    /// One of these words; any other value is outside the profile.
    Word(&'static [&'static [u8]]),
    /// Three capital letters.
    Currency,
    /// `Y` or `N`.
    Flag,
    /// 0 to 1,000,000,000.
    Number,
    /// A number of at most 9,999.
    Reason,
    /// A decimal number that is not negative.
    Qty,
    /// A decimal number.
    Price,
    /// A moment of universal time.
    Stamp,
    /// A moment of universal time in the fine form, which counts to its milliseconds.
    FineStamp,
    /// A day.
    Day,
    /// A month of a year.
    MonthYear,
    /// One or two digits.
    DayOfMonth,
}

/// Whether a byte is among these, which are few.
#[inline(always)]
fn is_listed(listed: &[u8], byte: u8) -> bool
    ensures { result ≡ list_any (λ code. code == byte) listed.now }
{
    listed.iter().any(|code| *code == byte)
}

/// Whether bytes are one byte, which is among these.
#[inline(always)]
fn is_code(listed: &[u8], bytes: &[u8]) -> bool
    ensures { result ≡ is_code listed.now bytes.now }
{
    match bytes {
        [byte] => is_listed(listed, *byte),
        _ => false,
    }
}

/// Whether bytes are any of these.
fn is_any_of(words: &[&[u8]], bytes: &[u8]) -> bool
    ensures { result ≡ list_any (λ word. bytes_eq bytes.now word.now) words.now }
{
    words.iter().any(|word| bytes == *word)
}

/// Whether bytes are one of these words.
#[tactic(auto, using(crate::proofs::Spelled::words_seen))]
fn is_word(words: &[&[u8]], bytes: &[u8]) -> bool
    ensures { result ≡ list_any (bytes_eq bytes.now) (map (λ word. word.now) words.now) }
{
    is_any_of(words, bytes)
}

/// Whether each part of bytes between spaces has a byte.
fn are_spaced(bytes: &[u8]) -> bool
    ensures { result ≡ are_spaced false bytes.now }
{
    let mut begun = false;
    for byte in bytes {
        if *byte == b' ' {
            if !begun {
                return false;
            }
            begun = false;
        } else {
            begun = true;
        }
    }
    begun
}

/// Whether bytes are listed codes with single spaces between them.
fn are_codes(listed: &[u8], bytes: &[u8]) -> bool
    ensures { result ≡ are_codes listed.now false bytes.now }
{
    let mut come = false;
    for byte in bytes {
        if !is_next(listed, come, *byte) {
            return false;
        }
        come = !come;
    }
    come
}

/// Whether a byte may come next: a space after a code, and else a code.
fn is_next(listed: &[u8], come: bool, byte: u8) -> bool
    ensures { result ≡ (if come then byte == 32 else list_any (λ code. code == byte) listed.now) }
{
    if come {
        byte == b' '
    } else {
        is_listed(listed, byte)
    }
}

/// Whether each byte is a capital letter.
fn are_capitals(bytes: &[u8]) -> bool
    ensures { result ≡ list_all is_ascii_uppercase bytes.now }
{
    bytes.iter().all(|byte| byte.is_ascii_uppercase())
}

/// A value of the profile where this holds, and else at fault.
#[inline(always)]
fn good_or(good: bool, fault: FieldFault) -> Result<bool, FieldFault>
    ensures { result ≡ (if good then Ok true else Err fault) }
{
    if good { Ok(true) } else { Err(fault) }
}

/// A value of the profile, where it was read.
#[inline(always)]
fn is_read<T: Drop>(read: Result<T, FieldFault>) -> Result<bool, FieldFault>
    ensures { (text : T → List ℕ) → result ≡ judged (spelt text read) }
{
    match read {
        Ok(_) => Ok(true),
        Err(fault) => Err(fault),
    }
}

/// Whether bytes are one of these codes, which are all that there are.
#[inline(always)]
fn judge_known(listed: &[u8], value: &[u8]) -> Result<bool, FieldFault>
    ensures { result ≡ judged (known (is_code listed.now value.now) value.now) }
{
    good_or(is_code(listed, value), FieldFault::Range)
}

/// Whether codes between single spaces are all among these.
#[inline(never)]
fn judge_codes(listed: &[u8], value: &[u8]) -> Result<bool, FieldFault>
    ensures { result ≡ judged (codes_among listed.now value.now) }
{
    if are_spaced(value) {
        Ok(are_codes(listed, value))
    } else {
        Err(FieldFault::Form)
    }
}

/// Whether bytes are one or two digits.
fn judge_day(value: &[u8]) -> Result<bool, FieldFault>
    ensures { result ≡ judged (two_digits value.now) }
{
    match value {
        [one] => good_or(one.is_ascii_digit(), FieldFault::Form),
        [ten, one] => good_or(
            ten.is_ascii_digit() && one.is_ascii_digit(),
            FieldFault::Form,
        ),
        _ => Err(FieldFault::Form),
    }
}

/// Whether bytes are a number of at most 9,999.
#[inline(always)]
fn judge_reason(value: &[u8]) -> Result<bool, FieldFault>
    ensures { result ≡ judged
        (spelt number_text (if_in_range (λ n. nat_le n.value 9999) (read_number value.now))) }
{
    match Number::read(value) {
        Ok(number) => good_or(number.value <= MAX_REASON, FieldFault::Range),
        Err(fault) => Err(fault),
    }
}

/// Whether bytes are a decimal number that is not negative, as each without a sign is.
#[inline(always)]
fn judge_qty(value: &[u8]) -> Result<bool, FieldFault>
    ensures { result ≡ judged
        (spelt dec_text (if_in_range (λ d. not (is_negative d.units)) (read_dec value.now))) }
{
    if has_minus(value) {
        judge_signed(value)
    } else {
        judge_price(value)
    }
}

/// The same of bytes that may begin with a sign.
#[inline(never)]
fn judge_signed(value: &[u8]) -> Result<bool, FieldFault>
    ensures { result ≡ judged
        (spelt dec_text (if_in_range (λ d. not (is_negative d.units)) (read_dec value.now))) }
{
    match Dec::read(value) {
        Ok(dec) => good_or(dec.units >= 0, FieldFault::Range),
        Err(fault) => Err(fault),
    }
}

/// Whether bytes are a decimal number.
#[inline(never)]
fn judge_price(value: &[u8]) -> Result<bool, FieldFault>
    ensures { result ≡ judged (spelt dec_text (read_dec value.now)) }
{
    match plain_units(value) {
        Some(_) => Ok(true),
        None => judge_respelled(value),
    }
}

/// The same of bytes that may have a sign, and zeros that do not count.
#[inline(never)]
fn judge_respelled(value: &[u8]) -> Result<bool, FieldFault>
    ensures { result ≡ judged (spelt dec_text (read_dec value.now)) }
{
    is_read(Dec::read(value))
}

/// Whether bytes are one of these words.
#[inline(never)]
fn judge_word(words: &[&[u8]], value: &[u8]) -> Result<bool, FieldFault>
    ensures { result ≡ judged (Ok (listed_word
        (list_any (bytes_eq value.now) (map (λ word. word.now) words.now)) value.now)) }
{
    Ok(is_word(words, value))
}

/// Whether bytes are a moment.
#[inline(never)]
fn judge_stamp(value: &[u8]) -> Result<bool, FieldFault>
    ensures { result ≡ judged (spelt (λ stamp. value.now) (read_stamp value.now)) }
{
    is_read(Stamp::read(value))
}

/// Whether bytes are a moment in the fine form.
#[inline(never)]
fn judge_fine_stamp(value: &[u8]) -> Result<bool, FieldFault>
    ensures { result ≡ judged (spelt (λ stamp. cut_text value.now) (read_fine value.now)) }
{
    is_read(Stamp::read_fine(value))
}

/// Whether bytes are a date.
#[inline(never)]
fn judge_date(value: &[u8]) -> Result<bool, FieldFault>
    ensures { result ≡ judged (spelt (λ day. value.now) (read_day value.now)) }
{
    is_read(Day::read(value))
}

/// Whether bytes are a month of a year.
#[inline(never)]
fn judge_month(value: &[u8]) -> Result<bool, FieldFault>
    ensures { result ≡ judged (spelt (λ month. value.now) (read_month_year value.now)) }
{
    is_read(MonthYear::read(value))
}

impl ValueKind {
    /// Whether a value of this kind is of the profile. The kinds of most values come first.
    ///
    /// # Errors
    ///
    /// `Empty` for no bytes, `Form` and `Range` where the bytes are no value of the kind.
    #[inline(always)]
    #[tactic(auto, unfolding(crate::specs::ValueKind::spelling))]
    pub fn judge(&self, value: &[u8]) -> Result<bool, FieldFault>
        ensures { result ≡ judged (spelling (value_kind_of self.now) value.now) }
    {
        if value.is_empty() {
            return Err(FieldFault::Empty);
        }
        match self {
            ValueKind::Filled => Ok(true),
            ValueKind::Id => good_or(value.len() <= MAX_ID, FieldFault::Range),
            ValueKind::Code(listed) => Ok(is_code(listed, value)),
            ValueKind::Known(listed) => judge_known(listed, value),
            ValueKind::Qty => judge_qty(value),
            ValueKind::Price => judge_price(value),
            _ => self.judge_any(value),
        }
    }

    /// Whether a value of this kind is of the profile, as `judge` says, where nobody asks why not.
    #[inline(always)]
    #[tactic(auto, unfolding(crate::specs::ValueKind::spelling))]
    pub fn accepts(&self, value: &[u8]) -> bool
        ensures { result ≡ is_good (judged (spelling (value_kind_of self.now) value.now)) }
    {
        if value.is_empty() {
            return false;
        }
        match self {
            ValueKind::Filled => true,
            ValueKind::Id => value.len() <= MAX_ID,
            ValueKind::Text => value.len() <= MAX_TEXT,
            ValueKind::OneByte => value.len() == 1,
            ValueKind::Code(listed) => is_code(listed, value),
            ValueKind::Known(listed) => is_code(listed, value),
            ValueKind::Qty => is_good(judge_qty(value)),
            ValueKind::Price => is_good(judge_price(value)),
            ValueKind::Stamp => is_good(judge_stamp(value)),
            ValueKind::FineStamp => is_good(judge_fine_stamp(value)),
            ValueKind::Day => is_good(judge_date(value)),
            _ => is_good(self.judge_any(value)),
        }
    }

    /// The same of a value of any kind.
    #[inline(never)]
    #[tactic(auto, unfolding(crate::specs::ValueKind::spelling))]
    fn judge_any(&self, value: &[u8]) -> Result<bool, FieldFault>
        ensures { result ≡ judged (spelling (value_kind_of self.now) value.now) }
    {
        if value.is_empty() {
            return Err(FieldFault::Empty);
        }
        match self {
            ValueKind::Filled => Ok(true),
            ValueKind::Id => good_or(value.len() <= MAX_ID, FieldFault::Range),
            ValueKind::Text => good_or(value.len() <= MAX_TEXT, FieldFault::Range),
            ValueKind::OneByte => good_or(value.len() == 1, FieldFault::Form),
            ValueKind::Code(listed) => Ok(is_code(listed, value)),
            ValueKind::Known(listed) => judge_known(listed, value),
            ValueKind::Codes(listed) => judge_codes(listed, value),
            ValueKind::Word(words) => judge_word(words, value),
            ValueKind::Currency => good_or(
                value.len() == 3 && are_capitals(value),
                FieldFault::Form,
            ),
            ValueKind::Flag => is_read(Flag::read(value)),
            ValueKind::Number => is_read(Number::read(value)),
            ValueKind::Reason => judge_reason(value),
            ValueKind::Qty => judge_qty(value),
            ValueKind::Price => judge_price(value),
            ValueKind::Stamp => judge_stamp(value),
            ValueKind::FineStamp => judge_fine_stamp(value),
            ValueKind::Day => judge_date(value),
            ValueKind::MonthYear => judge_month(value),
            ValueKind::DayOfMonth => judge_day(value),
        }
    }
}

/// Whether a value was judged to be of the profile.
#[inline(always)]
fn is_good(judged: Result<bool, FieldFault>) -> bool
    ensures { result ≡ is_good judged }
{
    match judged {
        Ok(good) => good,
        Err(_) => false,
    }
}

/// The bytes of a value of a kind whose values have one spelling each.
#[tactic(auto, using(crate::proofs::Spelled::verbatim))]
pub fn text<'a>(kind: &ValueKind, value: &'a [u8]) -> Option<&'a [u8]>
    requires { IsTrue (is_verbatim (value_kind_of kind.now)) }
    ensures { option_map (λ text. text.now) result ≡ spelled (value_kind_of kind.now) value.now }
{
    if is_good(kind.judge(value)) {
        Some(value)
    } else {
        None
    }
}

/// The byte of a code.
pub fn code(kind: &ValueKind, value: &[u8]) -> Option<u8>
    requires { IsTrue (is_byte_kind (value_kind_of kind.now)) }
    ensures { option_map code_text result ≡ spelled (value_kind_of kind.now) value.now }
{
    if is_good(kind.judge(value)) {
        value.first().copied()
    } else {
        None
    }
}

/// A moment in the fine form, to its milliseconds.
pub fn fine_stamp(value: &[u8]) -> Option<Stamp>
    ensures text { option_map stamp_text result ≡ spelled kinds.FineStamp value.now }
    ensures bound { IfSome result IsStamp }
{
    match Stamp::read_fine(value) {
        Ok(stamp) => Some(stamp.cut()),
        Err(_) => None,
    }
}

/// A day.
pub fn day(value: &[u8]) -> Option<Day>
    ensures { option_map day_text result ≡ spelled kinds.Day value.now }
{
    spellings_are_plain();
    Day::read(value).ok()
}

/// A month of a year.
pub fn month_year(value: &[u8]) -> Option<MonthYear>
    ensures value { result ≡ result_ok (read_month_year value.now) }
    ensures text { option_map month_year_text result ≡ spelled kinds.MonthYear value.now }
    ensures bound { IfSome result IsMonthYear }
{
    spellings_are_plain();
    MonthYear::read(value).ok()
}

/// A day of a month, of one or two digits.
pub fn day_of_month(value: &[u8]) -> Option<u8>
    ensures text { option_map two_digit_text result ≡ spelled DayOfMonth value.now }
    ensures bound { IfSome result (λ day. day ≤ 99) }
{
    if value.len() == 1 {
        two_digits(b'0', value[0])
    } else if value.len() == 2 {
        two_digits(value[0], value[1])
    } else {
        None
    }
}

/// The number that two digits write.
fn two_digits(ten: u8, one: u8) -> Option<u8>
    ensures text { option_map two_digit_text result
        ≡ (if is_ascii_digit ten && is_ascii_digit one then Some (ten ∷ one ∷ []) else None) }
    ensures bound { IfSome result (λ day. day ≤ 99) }
{
    if ten.is_ascii_digit() && one.is_ascii_digit() {
        Some(10 * (ten - b'0') + (one - b'0'))
    } else {
        None
    }
}

/// Whether a month has a day.
pub fn has_day(month: &MonthYear, day: u8) -> bool
    requires month { IsMonthYear month.now }
    requires day { day ≤ 99 }
    ensures { result ≡ is_date month.now.year month.now.month day }
{
    Date::new(month.year as i16, month.month as i8, day as i8).is_ok()
}
