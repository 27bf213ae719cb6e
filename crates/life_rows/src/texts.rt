//! What the bytes of a row's texts stand for.

use row_words::{SOH, Sign};

/// `|` stands for SOH, `!` for `|`, `~` for a new line, `;` for a carriage return, a backtick for
/// byte 127, `$` for a plain order, `@` for the same as the venue takes it, `%` for the names of a
/// configuration, and `^` for the first lines of a capture.
pub(crate) const SIGNS: [Sign; 9] = [
    SOH,
    (b'!', b"|"),
    (b'~', b"\n"),
    (b';', b"\r"),
    (b'`', b"\x7f"),
    (
        b'%',
        b"[client]\nour=\"GATE\"\npeer=\"CLNT\"\n[venue]\nour=\"GATE\"\npeer=\"VENU\"\n",
    ),
    (b'^', b"fixgate capture 1\nnames GATE CLNT GATE VENU 30\n"),
    (
        b'$',
        b"8=FIX.4.2\x019=120\x0135=D\x0149=CLNT\x0156=GATE\x0134=2\x01\
        52=20240102-10:00:00\x0111=A1\x01109=FUND\x0121=1\x0155=IBM\x0154=1\x01\
        60=20240102-10:00:00\x0138=100\x0140=2\x0144=10.5\x0110=044\x01",
    ),
    (
        b'@',
        b"8=FIXT.1.1\x019=138\x0135=D\x0149=CLNT\x0156=GATE\x0134=2\x01\
        52=20240102-10:00:00\x0111=A1\x01453=1\x01448=FUND\x01447=D\x01452=3\x0121=1\x01\
        55=IBM\x0154=1\x0160=20240102-10:00:00\x0138=100\x0140=2\x0144=10.5\x0110=195\x01",
    ),
];
