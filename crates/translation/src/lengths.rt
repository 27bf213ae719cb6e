//! How long a translation may be.

ghost use Rattle.std.specs.Prelude.{◌≡◌, ◌+◌, IfErr, OnOk, List, length};
ghost use Rattle.translation.specs.Writing.{AreWithin, IsTooMuch};

use crate::error::TranslateError;
use frame_grammar::MAX_BODY;

/// The most bytes of a content, which is what a body has after its header.
pub const MAX_CONTENT: usize = 7936;

/// Whether a content and the whole body may have so many bytes.
///
/// # Errors
///
/// `TooLong` exactly where the content has more than 7,936 bytes or the body more than 8,192.
pub(crate) fn check_lengths(content: usize, body: usize) -> Result<(), TranslateError>
    ensures ok { OnOk result (AreWithin content body) }
    ensures long { IfErr result (IsTooMuch content body) }
{
    if content > MAX_CONTENT || body > MAX_BODY {
        return Err(TranslateError::TooLong);
    }
    Ok(())
}
