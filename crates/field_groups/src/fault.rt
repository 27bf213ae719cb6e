//! What stops a list of fields.

use thiserror::Error;

/// Why the fields of a body end before the body does. `at` is the place in the body, in bytes,
/// where the field begins that could not be read.
#[derive(Clone, Copy, Debug, PartialEq, Eq, Error)]
pub enum SplitFault {
    /// No digit stands where the tag begins, or no `=` after its digits.
    #[error("no tag at byte {at}")]
    NoTag { at: usize },
    /// The tag has a leading zero or more than nine digits.
    #[error("a tag out of form at byte {at}")]
    BadTag { at: usize },
    /// No SOH follows the value.
    #[error("a field without an end at byte {at}")]
    NoEnd { at: usize },
    /// The length field directly before this field of raw bytes is no number, or no SOH stands
    /// behind as many bytes as it says.
    #[error("raw bytes of tag {tag} are not as long as their length field says")]
    DataLength { tag: u32 },
    /// More bytes follow 256 fields.
    #[error("more than 256 fields")]
    TooMany,
}
