//! What the gateway meets outside itself, as traits with a written meaning, and their forms in
//! memory.
//!
//! Each trait says as ghost members what an object of it holds, where the object tells that, and
//! how often it has failed. A call answers [`Failed`] only where that count rose in the call, so
//! whoever made the object can see the cause of each failure that is passed up.
//!
//! The forms in memory tell all that they hold, and fail at the calls that their maker listed.
#![tactic(auto)]

mod calls;
mod disk;
mod mem_disk;
mod mem_sink;
mod mem_source;
mod stream;

pub use calls::Calls;
pub use disk::{Disk, MAX_DISK};
pub use mem_disk::{DiskCall, Image, MemDisk};
pub use mem_sink::MemSink;
pub use mem_source::{MemSource, fill};
pub use stream::{Failed, Sink, Source};
