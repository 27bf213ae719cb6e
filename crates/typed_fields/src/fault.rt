//! Why a value could not be read.

use thiserror::Error;

/// Why the bytes of a field are no value of its type.
#[derive(Clone, Copy, Debug, PartialEq, Eq, Error)]
pub enum FieldFault {
    /// There is no byte.
    #[error("the value is empty")]
    Empty,
    /// The bytes have not the form of the type.
    #[error("the value has a wrong form")]
    Form,
    /// The form holds, and the value is out of the bound of the type.
    #[error("the value is out of range")]
    Range,
}
