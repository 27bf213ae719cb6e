//! Disks in memory.

use crate::scripts::failing;
use outside::{Image, MemDisk};
use row_words::long_number;
use std::alloc::{AllocError, Global};

/// A disk of these bytes: of a word `7` the call of that number fails, of `fuse:7` all fail behind
/// so many writes and syncs.
pub(crate) fn disk(alloc: Global, image: &[u8], word: &str) -> Result<MemDisk, AllocError> {
    let content = Vec::from_slice(alloc, image)?;
    if let Some(passes) = word.strip_prefix("fuse:") {
        return Ok(MemDisk::fuse(alloc, content, long_number(passes).unwrap_or(0)));
    }
    let fail = failing(alloc, word)?;
    Ok(MemDisk::new(alloc, content, fail))
}

/// Which image a crash leaves.
pub(crate) fn pick(word: &str) -> Image {
    match word {
        "old" => Image::Old,
        "torn" => Image::Torn,
        _ => Image::New,
    }
}
