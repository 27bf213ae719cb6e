//! Yes and no.

ghost use Rattle.std.specs.Prelude.{◌≡◌, ◌++◌, ◌+◌, ◌≤◌, vec_capacity, vec_len};
ghost use Rattle.typed_fields.specs.Flag.{read_flag, flag_text};

use crate::fault::FieldFault;
use crate::value::MAX_SPELLING;

/// Yes or no, as the data type Boolean of FIX 4.2.
///
/// Its form is `Y` or `N`, which is also its spelling.
#[derive(Clone, Copy, Debug, PartialEq, Eq, Hash)]
pub struct Flag {
    /// Whether it is yes.
    pub yes: bool,
}

impl Flag {
    /// Reads a flag.
    ///
    /// # Errors
    ///
    /// `Empty` for no bytes, `Form` for anything but `Y` or `N`.
    pub fn read(value: &[u8]) -> Result<Flag, FieldFault>
        ensures { result ≡ read_flag value.now }
    {
        match value {
            [] => Err(FieldFault::Empty),
            [b'Y'] => Ok(Flag { yes: true }),
            [b'N'] => Ok(Flag { yes: false }),
            _ => Err(FieldFault::Form),
        }
    }

    /// Appends `Y` or `N` where there is room for any spelling.
    #[inline(always)]
    pub(crate) fn push(&self, out: &mut Vec<u8>)
        requires room { vec_len out.old + MAX_SPELLING ≤ vec_capacity out.old }
        ensures items { out.new.items ≡ out.old.items ++ flag_text self.now }
        ensures len { vec_len out.new ≤ vec_len out.old + MAX_SPELLING }
        ensures capacity { vec_capacity out.old ≤ vec_capacity out.new }
    {
        out.push_reserved(if self.yes { b'Y' } else { b'N' });
    }
}
