//! The names of ends.

ghost use Rattle.std.specs.Prelude.{◌≡◌};
ghost use Rattle.capture_replay.specs.Replay.{end_name};

use gateway_life::LifeEnd;

/// The name of an end of a life.
pub(crate) fn end_name(end: &LifeEnd) -> &'static [u8]
    ensures { result.now ≡ end_name end.now }
{
    match end {
        LifeEnd::Done => b"Done",
        LifeEnd::DiskFault => b"DiskFault",
        LifeEnd::JournalRefused { .. } => b"JournalRefused",
        LifeEnd::NamesDiffer { .. } => b"NamesDiffer",
        LifeEnd::JournalFull => b"JournalFull",
        LifeEnd::NumbersSpent { .. } => b"NumbersSpent",
        LifeEnd::NoMemory => b"NoMemory",
    }
}
