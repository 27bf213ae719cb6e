//! Texts of rows as bytes of the wire.

use row_words::{SOH, Sign, bytes_of};
use std::alloc::{AllocError, Global};

/// What the bytes of a text stand for: `$` and `@` for the header and the first field of an order
/// of FIX 4.2 and of FIX 5.0 SP2, and `&` for the other fields that an order of either must have.
pub(crate) const SIGNS: [Sign; 4] = [
    SOH,
    (
        b'$',
        b"35=D\x0149=CLNT\x0156=GATE\x0134=2\x0152=20240102-10:00:00\x0111=A1\x01",
    ),
    (
        b'@',
        b"35=D\x011128=9\x0149=GATE\x0156=VENU\x0134=2\x0152=20240102-10:00:00.000\x0111=A1\x01",
    ),
    (
        b'&',
        b"21=1\x0155=IBM\x0154=1\x0160=20240102-10:00:00\x0138=100\x0140=2\x0144=10.5\x01",
    ),
];

/// The bytes of a text.
pub(crate) fn wire(alloc: Global, text: &str) -> Result<Vec<u8>, AllocError> {
    bytes_of(alloc, &SIGNS, text)
}
