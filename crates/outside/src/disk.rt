//! Bytes that outlive the process.

ghost use Rattle.std.specs.Prelude.{◌≡◌, ◌+◌, ◌≤◌, ℕ, List, length, is_some, IfOk, IfSome, OnOk};
ghost use Rattle.std.specs.Prelude.{OnErr};
ghost use Rattle.std.specs.Option.{ForSome, option_map};
ghost use Rattle.std.specs.declared.option.Option.{Option};
ghost use Rattle.std.specs.Io.{ReadsAtMost};
ghost use Rattle.outside.specs.Causes.{HasCause, next_count};
ghost use Rattle.outside.specs.Disk.{write, Torn, Follows, AreAmong, HasOneImage, ReadsAt};

use crate::Failed;

/// The most bytes of a disk: no write ends past this place.
pub const MAX_DISK: u64 = 1_073_741_824;

/// Bytes that outlive the process, and what a crash may leave of them.
///
/// Between two syncs each written range, and the part past the old end, may hold any bytes after a
/// crash, with any length between the old and the new one; the bytes outside stay. A failed write
/// or sync leaves its ranges so too. A stop at a moment is a disk whose calls all fail from then
/// on.
pub trait Disk {
    /// The bytes as a read gives them, where the disk tells them. Whether it does never changes.
    ghost bytes: { Self → Option (List ℕ) };

    /// A crash now may leave this image.
    ghost image: { Self → List ℕ → Type 0 };

    /// How often a call has failed. It never falls, and stands still at 2^64 - 1.
    ghost faults: { Self → ℕ };

    /// How often `read_at` was called, up to 2^64 - 1, where it stands still.
    ghost reads: { Self → ℕ };

    /// A disk as it reads is one of its images.
    ghost as_it_reads: { (disk : Self) → IfSome (bytes disk) (image disk) };

    /// The number of its bytes.
    ///
    /// # Errors
    /// [`Failed`] only where the count of faults rose in this call.
    fn len(&mut self) -> Result<u64, Failed>
        ensures value { IfOk result (λ n. IfSome (bytes self.old) (λ b. n ≡ length b)) }
        ensures same { bytes self.new ≡ bytes self.old }
        ensures images { AreAmong (image self.new) (image self.old) }
        ensures kept { AreAmong (image self.old) (image self.new) }
        ensures counted { reads self.new ≡ reads self.old }
        ensures cause { HasCause (faults self.old) (faults self.new) result };

    /// Fills as many bytes of `buf` as stand from `at` on, and answers how many.
    ///
    /// # Errors
    /// [`Failed`] only where the count of faults rose in this call.
    fn read_at(&mut self, at: u64, buf: &mut [u8]) -> Result<usize, Failed>
        ensures bound { ReadsAtMost result buf.new }
        ensures value { ReadsAt (bytes self.old) at result buf.new }
        ensures same { bytes self.new ≡ bytes self.old }
        ensures images { AreAmong (image self.new) (image self.old) }
        ensures kept { AreAmong (image self.old) (image self.new) }
        ensures counted { reads self.new ≡ next_count (reads self.old) }
        ensures cause { HasCause (faults self.old) (faults self.new) result };

    /// Writes the piece over the bytes from `at` on, which may lengthen them.
    ///
    /// # Errors
    /// [`Failed`] only where the count of faults rose in this call. Some of it may be written.
    fn write_at(&mut self, at: u64, piece: &[u8]) -> Result<(), Failed>
        requires within { ForSome (bytes self.old) (λ b. at ≤ length b) }
        requires limit { at + length piece.now ≤ MAX_DISK }
        ensures written { OnOk result
            (bytes self.new ≡ option_map (write at piece.now) (bytes self.old)) }
        ensures told { is_some (bytes self.new) ≡ is_some (bytes self.old) }
        ensures images { Follows (Torn at (length piece.now)) (image self.old) (image self.new) }
        ensures kept { AreAmong (image self.old) (image self.new) }
        ensures counted { reads self.new ≡ reads self.old }
        ensures cause { HasCause (faults self.old) (faults self.new) result };

    /// Makes what was written stable: at `Ok` a crash leaves just what a read gives.
    ///
    /// # Errors
    /// [`Failed`] only where the count of faults rose in this call. What was pending stays so.
    fn sync(&mut self) -> Result<(), Failed>
        ensures durable { OnOk result (HasOneImage (bytes self.new) (image self.new)) }
        ensures same { bytes self.new ≡ bytes self.old }
        ensures images { AreAmong (image self.new) (image self.old) }
        ensures kept { OnErr result (AreAmong (image self.old) (image self.new)) }
        ensures counted { reads self.new ≡ reads self.old }
        ensures cause { HasCause (faults self.old) (faults self.new) result };
}
