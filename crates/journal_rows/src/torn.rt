//! Numbers that look drawn, and what a crash may leave of a disk by them.

use outside::{DiskCall, Image, MemDisk};
use std::alloc::AllocError;

/// The next of numbers that look drawn, as a byte.
pub(crate) fn draw(seed: &mut u32) -> u8 {
    *seed = seed.wrapping_mul(1_664_525).wrapping_add(1_013_904_223);
    seed.to_be_bytes()[0]
}

// Where the last write begins, and how long it is.
fn last_write(calls: &[DiskCall]) -> Option<(u64, usize)> {
    match calls {
        [.., DiskCall::Write { at, len }] | [.., DiskCall::Write { at, len }, _] => {
            Some((*at, *len))
        }
        _ => None,
    }
}

// Draws the bytes of the last write.
fn tear(left: &mut [u8], (at, len): (u64, usize), seed: &mut u32) {
    for (place, byte) in left.iter_mut().enumerate() {
        let place = place as u64;
        if at <= place && place < at.saturating_add(len as u64) {
            *byte = draw(seed) % 3;
        }
    }
}

/// What a crash may leave of a disk whose last write is pending: any bytes there, any length.
pub(crate) fn torn(disk: &MemDisk, seed: &mut u32) -> Result<Vec<u8>, AllocError> {
    let shortest = disk.image(Image::Old)?.len();
    let mut left = disk.image(Image::New)?;
    if let Some(write) = last_write(disk.calls()) {
        tear(&mut left, write, seed);
    }
    left.truncate(shortest.saturating_add(usize::from(draw(seed))));
    Ok(left)
}
