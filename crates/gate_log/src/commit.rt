//! How one record becomes part of the log, or does not.

ghost use Rattle.std.specs.Prelude.{◌≡◌, ◌+◌, ◌<◌, ◌≤◌, ℕ, List, length, is_some, OnOk};
ghost use Rattle.std.specs.Option.{ForSome, option_map};
ghost use Rattle.outside.specs.Causes.{HasCause};
ghost use Rattle.outside.specs.Disk.{HasOneImage, write};
ghost use Rattle.gate_log.specs.Records.{record_of};
ghost use Rattle.gate_log.specs.Commit.{CommitsOrNot, Commits};
ghost use Rattle.gate_log.specs.Steps.{Ends, Staged, IsTorn, KeepsImages, KeepsBytes};

use crate::OPEN;
use outside::{Disk, Failed, MAX_DISK};

/// Writes a piece over the bytes from a place on, and makes it stable.
///
/// # Errors
/// `Failed` only where the disk's count of faults rose. Then a crash may leave any bytes there.
pub(crate) fn write_stable<D: Disk>(disk: &mut D, at: u64, piece: &[u8]) -> Result<(), Failed>
    requires within { ForSome (D.bytes disk.old) (λ b. at ≤ length b) }
    requires limit { at + length piece.now ≤ MAX_DISK }
    ensures written { OnOk result
        (D.bytes disk.new ≡ option_map (write at piece.now) (D.bytes disk.old)) }
    ensures durable { OnOk result (HasOneImage (D.bytes disk.new) (D.image disk.new)) }
    ensures images { IsTorn at (length piece.now) (D.image disk.old) (D.image disk.new) }
    ensures told { is_some (D.bytes disk.new) ≡ is_some (D.bytes disk.old) }
    ensures reads { D.reads disk.new ≡ D.reads disk.old }
    ensures cause { HasCause (D.faults disk.old) (D.faults disk.new) result }
{
    disk.write_at(at, piece)?;
    disk.sync()
}

/// Writes a record behind the closing gate at this place, and makes it stable.
///
/// # Errors
/// `Failed` only where the disk's count of faults rose. A crash leaves the list as it was.
#[tactic(auto, using(crate::proofs::CommitSteps::record_told))]
fn write_record<D: Disk>(
    disk: &mut D,
    end: u64,
    payload: &[u8],
    staged: &[u8],
) -> Result<(), Failed>
    requires staged { staged.now ≡ record_of payload.now }
    requires limit { end + 5 + length payload.now < MAX_DISK }
    requires ends { Ends (D.bytes disk.old) end payload.now }
    ensures staged { OnOk result (Staged (D.bytes disk.new) end payload.now) }
    ensures durable { OnOk result (HasOneImage (D.bytes disk.new) (D.image disk.new)) }
    ensures same_list { OnOk result (KeepsBytes (D.bytes disk.old) (D.bytes disk.new)) }
    ensures images { KeepsImages (D.bytes disk.old) (D.image disk.old) (D.image disk.new) }
    ensures told { is_some (D.bytes disk.new) ≡ is_some (D.bytes disk.old) }
    ensures reads { D.reads disk.new ≡ D.reads disk.old }
    ensures cause { HasCause (D.faults disk.old) (D.faults disk.new) result }
{
    write_stable(disk, end + 1, staged)
}

/// Opens the closing gate at this place, behind which a record is stable.
///
/// # Errors
/// `Failed` only where the disk's count of faults rose. A crash leaves the list with the record or
/// without.
#[tactic(auto, using(crate::proofs::CommitSteps::gate_adds))]
fn open_gate<D: Disk>(disk: &mut D, end: u64) -> Result<(), Failed>
    requires staged { (payload : List ℕ) × Staged (D.bytes disk.old) end payload }
    ensures appended { (payload : List ℕ) → Staged (D.bytes disk.old) end payload
        → OnOk result (Commits (D.bytes disk.old) (D.bytes disk.new) payload) }
    ensures durable { OnOk result (HasOneImage (D.bytes disk.new) (D.image disk.new)) }
    ensures images { (payload : List ℕ) → Staged (D.bytes disk.old) end payload
        → CommitsOrNot (D.bytes disk.old) (D.image disk.old) (D.image disk.new) payload }
    ensures told { is_some (D.bytes disk.new) ≡ is_some (D.bytes disk.old) }
    ensures reads { D.reads disk.new ≡ D.reads disk.old }
    ensures cause { HasCause (D.faults disk.old) (D.faults disk.new) result }
{
    write_stable(disk, end, &[OPEN])
}

/// Appends a record behind the closing gate, and opens the gate once the record is stable.
///
/// It makes four calls of the disk and takes no memory.
///
/// # Errors
/// `Failed` only where the disk's count of faults rose. Then a crash leaves the list as it was, or
/// with the record.
#[tactic(auto, using(crate::proofs::CommitSteps::both_steps))]
pub(crate) fn commit<D: Disk>(
    disk: &mut D,
    end: u64,
    payload: &[u8],
    staged: &[u8],
) -> Result<(), Failed>
    requires staged { staged.now ≡ record_of payload.now }
    requires limit { end + 5 + length payload.now < MAX_DISK }
    requires ends { Ends (D.bytes disk.old) end payload.now }
    ensures appended { OnOk result (Commits (D.bytes disk.old) (D.bytes disk.new) payload.now) }
    ensures durable { OnOk result (HasOneImage (D.bytes disk.new) (D.image disk.new)) }
    ensures images { CommitsOrNot (D.bytes disk.old)
        (D.image disk.old) (D.image disk.new) payload.now }
    ensures told { is_some (D.bytes disk.new) ≡ is_some (D.bytes disk.old) }
    ensures reads { D.reads disk.new ≡ D.reads disk.old }
    ensures cause { HasCause (D.faults disk.old) (D.faults disk.new) result }
{
    write_record(disk, end, payload, staged)?;
    open_gate(disk, end)
}
