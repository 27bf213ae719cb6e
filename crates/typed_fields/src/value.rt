//! What all types of values have in common, so that a message's code is written once for them.

ghost use Rattle.std.specs.Prelude.{◌≡◌, ◌++◌, ℕ, List, Result, IfOk, OnOk, OnErr};
ghost use Rattle.std.specs.Prelude.{◌+◌, ◌≤◌, vec_capacity, vec_len};
ghost use Rattle.typed_fields.specs.declared.fault.FieldFault.{FieldFault};
ghost use Rattle.typed_fields.specs.Laws.{ReadsBack, IsPlain, IsStable};
ghost use Rattle.typed_fields.specs.Number.{read_number, number_text, plain_number, IsNumber};
ghost use Rattle.typed_fields.specs.Flag.{read_flag, flag_text, IsFlag};
ghost use Rattle.typed_fields.specs.MonthYear.{read_month_year, month_year_text, IsMonthYear};
ghost use Rattle.typed_fields.specs.Day.{read_day, day_text, IsDay};
ghost use Rattle.typed_fields.specs.Stamp.{read_stamp, stamp_text, IsStamp};
ghost use Rattle.typed_fields.specs.Dec.{read_dec, dec_text, plain_dec, IsDec};

use crate::{Day, Dec, FieldFault, Flag, MonthYear, Number, Stamp};
use std::alloc::AllocError;

/// The most bytes of a canonical spelling.
pub const MAX_SPELLING: usize = 32;

/// A type of the values of fields.
pub trait FieldValue: Sized {
    /// What bytes are read as.
    ghost reading: { List ℕ → Result Self FieldFault };

    /// The values that can be read.
    ghost can_be: { Self → Type 0 };

    /// The one canonical spelling of a value.
    ghost spelling: { Self → List ℕ };

    /// A spelling without its needless bytes.
    ghost plain: { List ℕ → List ℕ };

    /// Reads a value. It takes no memory.
    ///
    /// # Errors
    ///
    /// `Empty` for no bytes, `Form` where the form is broken, `Range` where only the bound is.
    fn read(value: &[u8]) -> Result<Self, FieldFault>
        ensures value { result ≡ reading value.now }
        ensures bound { IfOk result can_be };

    /// Appends the canonical spelling.
    ///
    /// # Errors
    ///
    /// `AllocError` where memory is wanting; then `out` is unchanged.
    fn write(&self, out: &mut Vec<u8>) -> Result<(), AllocError>
        requires { can_be self.now }
        ensures ok { OnOk result (out.new.items ≡ out.old.items ++ spelling self.now) }
        ensures err { OnErr result (out.new.items ≡ out.old.items) }
    {
        out.reserve(MAX_SPELLING)?;
        self.push(out);
        Ok(())
    }

    /// Appends the canonical spelling where there is room for any.
    fn push(&self, out: &mut Vec<u8>)
        requires value { can_be self.now }
        requires room { vec_len out.old + MAX_SPELLING ≤ vec_capacity out.old }
        ensures items { out.new.items ≡ out.old.items ++ spelling self.now }
        ensures len { vec_len out.new ≤ vec_len out.old + MAX_SPELLING }
        ensures capacity { vec_capacity out.old ≤ vec_capacity out.new };

    /// The laws of the type, for proofs. It does nothing.
    ///
    /// What is written is read as the same value. The spelling of what bytes are read as is those
    /// bytes without the needless ones, and is read as the same value.
    fn laws()
        ensures reads_back { ReadsBack reading can_be spelling }
        ensures is_plain { IsPlain reading spelling plain }
        ensures is_stable { IsStable reading spelling };
}

impl FieldValue for Dec {
    ghost reading = { read_dec };

    ghost can_be = { IsDec };

    ghost spelling = { dec_text };

    ghost plain = { plain_dec };

    fn read(value: &[u8]) -> Result<Dec, FieldFault> {
        Dec::read(value)
    }

    fn push(&self, out: &mut Vec<u8>) {
        Dec::push(self, out)
    }

    fn laws() {}
}

impl FieldValue for Number {
    ghost reading = { read_number };

    ghost can_be = { IsNumber };

    ghost spelling = { number_text };

    ghost plain = { plain_number };

    fn read(value: &[u8]) -> Result<Number, FieldFault> {
        Number::read(value)
    }

    fn push(&self, out: &mut Vec<u8>) {
        Number::push(self, out)
    }

    fn laws() {}
}

impl FieldValue for Flag {
    ghost reading = { read_flag };

    ghost can_be = { IsFlag };

    ghost spelling = { flag_text };

    ghost plain = { λ bytes. bytes };

    fn read(value: &[u8]) -> Result<Flag, FieldFault> {
        Flag::read(value)
    }

    fn push(&self, out: &mut Vec<u8>) {
        Flag::push(self, out)
    }

    fn laws() {}
}

impl FieldValue for Day {
    ghost reading = { read_day };

    ghost can_be = { IsDay };

    ghost spelling = { day_text };

    ghost plain = { λ bytes. bytes };

    fn read(value: &[u8]) -> Result<Day, FieldFault> {
        Day::read(value)
    }

    fn push(&self, out: &mut Vec<u8>) {
        Day::push(self, out)
    }

    fn laws() {}
}

impl FieldValue for MonthYear {
    ghost reading = { read_month_year };

    ghost can_be = { IsMonthYear };

    ghost spelling = { month_year_text };

    ghost plain = { λ bytes. bytes };

    fn read(value: &[u8]) -> Result<MonthYear, FieldFault> {
        MonthYear::read(value)
    }

    fn push(&self, out: &mut Vec<u8>) {
        MonthYear::push(self, out)
    }

    fn laws() {}
}

impl FieldValue for Stamp {
    ghost reading = { read_stamp };

    ghost can_be = { IsStamp };

    ghost spelling = { stamp_text };

    ghost plain = { λ bytes. bytes };

    fn read(value: &[u8]) -> Result<Stamp, FieldFault> {
        Stamp::read(value)
    }

    fn push(&self, out: &mut Vec<u8>) {
        Stamp::push(self, out)
    }

    fn laws() {}
}
