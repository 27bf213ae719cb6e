//! Where a life stops, and what it leaves then.

ghost use Rattle.std.specs.Prelude.{◌≡◌, []};
ghost use Rattle.outside.specs.MemDisk.{fresh};
ghost use Rattle.capture_replay.specs.Stops.{fuse_of, image_of, may_end};

use crate::disk::LifeDisk;
use gateway_life::LifeEnd;
use outside::{Image, MemDisk};
use std::alloc::Global;

/// The disk of a life, of these bytes. With a stop it does the writes and syncs before that one,
/// and then every call fails.
pub(crate) fn disk_of(alloc: Global, stop: Option<(u64, Image)>, bytes: Vec<u8>) -> LifeDisk
    ensures { result ≡ fresh bytes.items [] (fuse_of stop) }
{
    LifeDisk::new(match stop {
        Some((call, _)) => MemDisk::fuse(alloc, bytes, call.saturating_sub(1)),
        None => MemDisk::new(alloc, bytes, Vec::new(alloc)),
    })
}

/// The image that a life leaves.
pub(crate) fn image_of(stop: Option<(u64, Image)>) -> Image
    ensures { result ≡ image_of stop }
{
    match stop {
        Some((_, image)) => image,
        None => Image::New,
    }
}

/// Whether a life may end so. A disk in memory without a stop fails for want of memory alone.
pub(crate) fn may_end(stop: Option<(u64, Image)>, end: &LifeEnd) -> bool
    ensures { result ≡ may_end stop end.now }
{
    match end {
        LifeEnd::DiskFault => stop.is_some(),
        LifeEnd::NoMemory => false,
        _ => true,
    }
}
