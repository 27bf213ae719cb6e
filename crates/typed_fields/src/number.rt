//! Whole numbers.

ghost use Rattle.std.specs.Prelude.{◌≡◌, ◌++◌, ◌+◌, ◌≤◌, IfOk, vec_capacity, vec_len};
ghost use Rattle.typed_fields.specs.Number.{read_number, number_text, IsNumber};

use crate::digits::{are_digits, number};
use crate::fault::FieldFault;
use crate::value::MAX_SPELLING;
use itoa::Buffer;

/// The greatest number that a field may have.
const MAX_NUMBER: u64 = 1_000_000_000;

/// The most digits of a number.
const MAX_DIGITS: usize = 10;

/// A whole number from 0 to 1,000,000,000, as the data type int of FIX 4.2 without a sign.
///
/// Its form is 1 to 10 digits, and its canonical spelling has no leading zeros.
#[derive(Clone, Copy, Debug, PartialEq, Eq, PartialOrd, Ord, Hash)]
pub struct Number {
    /// The number.
    pub value: u32,
}

impl Number {
    /// Reads a number.
    ///
    /// # Errors
    ///
    /// `Empty` for no bytes, `Form` for anything but 1 to 10 digits, and `Range` for a number above
    /// 1,000,000,000.
    pub fn read(value: &[u8]) -> Result<Number, FieldFault>
        ensures value { result ≡ read_number value.now }
        ensures bound { IfOk result IsNumber }
    {
        if value.is_empty() {
            return Err(FieldFault::Empty);
        }
        if !are_digits(value) || value.len() > MAX_DIGITS {
            return Err(FieldFault::Form);
        }
        let value = number(value);
        if value > MAX_NUMBER {
            return Err(FieldFault::Range);
        }
        Ok(Number {
            value: value as u32,
        })
    }

    /// Appends the canonical spelling where there is room for any.
    #[inline(always)]
    pub(crate) fn push(&self, out: &mut Vec<u8>)
        requires value { IsNumber self.now }
        requires room { vec_len out.old + MAX_SPELLING ≤ vec_capacity out.old }
        ensures items { out.new.items ≡ out.old.items ++ number_text self.now }
        ensures len { vec_len out.new ≤ vec_len out.old + MAX_SPELLING }
        ensures capacity { vec_capacity out.old ≤ vec_capacity out.new }
    {
        out.extend_from_slice(Buffer::new().format(self.value).as_bytes())
            .unwrap();
    }
}
