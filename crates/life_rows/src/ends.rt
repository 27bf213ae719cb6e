//! How the program ends: what is printed of each status.

use gateway_config::ConfigKey;
use gateway_top::{End, Status, code};
use order_meaning::Side;
use std::alloc::{AllocError, Global};

/// One of each status but that of other names, which a row shows.
const STATUSES: [Status; 13] = [
    Status::Done,
    Status::Refused { at: 143 },
    Status::Usage,
    Status::ConfigRefused {
        key: ConfigKey::VenueHeart,
    },
    Status::InputFault,
    Status::OutputFault,
    Status::DiskFault,
    Status::JournalRefused { at: 161 },
    Status::JournalFull,
    Status::NumbersSpent { side: Side::Venue },
    Status::CaptureRefused { line: 5 },
    Status::NoMemory,
    Status::InputTooLong,
];

/// The code of a status, that of its end, how it is shown and what is printed at its end.
fn status_lines(alloc: Global, status: Status) -> Result<String, AllocError> {
    let number = code(&status);
    let words = format!(in alloc; "{status}")?;
    let end = End::new(status);
    let ended = end.code();
    format!(in alloc; "{number} {ended} {words}\n{end}")
}

/// The lines of one of each status but that of other names.
///
/// # Errors
///
/// `AllocError` for want of memory.
pub(crate) fn all_statuses(alloc: Global) -> Result<String, AllocError> {
    let mut text = String::new(alloc);
    for status in &STATUSES {
        let lines = status_lines(alloc, *status)?;
        text.push_str(&lines)?;
    }
    Ok(text)
}
