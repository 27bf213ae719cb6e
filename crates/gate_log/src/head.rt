//! What stands at a gate.

ghost use Rattle.std.specs.Prelude.{◌≡◌, ◌≤◌, ◌+◌, IfOk, IfSome, drop};
ghost use Rattle.gate_log.specs.Scan.{IsHead};

use crate::OPEN;
use crate::bytes::u32_front;

/// The most bytes of a head: a gate and a length.
pub(crate) const HEAD_LEN: usize = 5;

/// What stands at a gate.
#[derive(Clone, Copy, Debug)]
pub(crate) enum Head {
    /// A closed gate.
    Shut,
    /// An open gate and behind it this length.
    Open(u32),
    /// No byte, or an open gate and less than a length behind it.
    Cut,
}

/// What these bytes begin with.
pub(crate) fn head_of(bytes: &[u8]) -> Head
    ensures { IsHead bytes.now result }
{
    match bytes {
        [] => Head::Cut,
        [OPEN, behind @ ..] => match u32_front(behind) {
            Some((len, _)) => Head::Open(len),
            None => Head::Cut,
        },
        _ => Head::Shut,
    }
}
