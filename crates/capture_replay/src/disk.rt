//! The disk of a life.

ghost use Rattle.std.specs.Prelude.{◌≡◌, refl, IfOk, Some};
ghost use mathlib.Core.Logic.{inl};
ghost use Rattle.outside.specs.MemDisk.{IsImageOf, picked_image};

use outside::{Disk, Failed, Image, MemDisk};
use std::alloc::AllocError;
use std::marker::Model;

/// A disk in memory that keeps no list of its calls.
#[derive(Debug, Drop)]
pub(crate) struct LifeDisk {
    disk: MemDisk,
}

impl Model for LifeDisk {
    ghost use Rattle.outside.specs.Memory.{DiskState};

    ghost Value = { DiskState };

    ghost view = { λ d. d.disk };
}

impl LifeDisk {
    /// The same disk, of which the calls are not listed from here on.
    pub(crate) fn new(disk: MemDisk) -> LifeDisk
        ensures { result ≡ disk }
    {
        LifeDisk { disk }
    }

    /// Whether memory was refused to a call.
    pub(crate) fn refused(&self) -> bool
        ensures { result ≡ self.now.refused }
    {
        self.disk.refused()
    }

    /// What a crash leaves now.
    ///
    /// # Errors
    /// `AllocError` for want of memory.
    pub(crate) fn into_image(self, pick: Image) -> Result<Vec<u8>, AllocError>
        ensures value { IfOk result (λ v. v.items ≡ picked_image pick self) }
        ensures among { IfOk result (λ v. IsImageOf self v.items) }
    {
        self.disk.into_image(pick)
    }
}

impl Disk for LifeDisk {
    ghost bytes = { λ d. Some d.bytes };

    ghost image = { IsImageOf };

    ghost faults = { λ d. d.calls.faults };

    ghost reads = { λ d. d.reads };

    ghost as_it_reads = { λ d. inl refl };

    fn len(&mut self) -> Result<u64, Failed> {
        self.disk.forget_calls();
        self.disk.len()
    }

    fn read_at(&mut self, at: u64, buf: &mut [u8]) -> Result<usize, Failed> {
        self.disk.forget_calls();
        self.disk.read_at(at, buf)
    }

    fn write_at(&mut self, at: u64, piece: &[u8]) -> Result<(), Failed> {
        self.disk.forget_calls();
        self.disk.write_at(at, piece)
    }

    fn sync(&mut self) -> Result<(), Failed> {
        self.disk.forget_calls();
        self.disk.sync()
    }
}
