//! The payload of a record, in the bytes from its gate on.

ghost use Rattle.std.specs.Prelude.{◌≡◌, ◌≢◌, ◌+◌, ◌≤◌, ℕ, List, length, take, drop, Err, OnOk};
ghost use Rattle.std.specs.Prelude.{⊤, MatchOption, vec_capacity};
ghost use Rattle.gate_log.specs.Log.{OnlyReads, HasFaultCause, ReadsPayload, HasNoPayload};
ghost use Rattle.gate_log.specs.Chunk.{BeginsWith};

use crate::chunk::{CHUNK_LEN, read_front};
use crate::head::{HEAD_LEN, Head, head_of};
use crate::{LogError, MAX_PAYLOAD};
use outside::{Disk, MAX_DISK};

/// The length of the payload of the record that these begin with.
pub(crate) fn payload_len(bytes: &[u8]) -> Option<usize>
    ensures within { MatchOption result ⊤ (λ len.
        (HEAD_LEN + len ≤ length bytes.now) × (len ≤ MAX_PAYLOAD)) }
    ensures begins { MatchOption result
        ((payload : List ℕ) → BeginsWith bytes.now payload → ⊥)
        (λ len. BeginsWith bytes.now (take len (drop HEAD_LEN bytes.now))) }
{
    let Head::Open(len) = head_of(bytes) else {
        return None;
    };
    let len = len as usize;
    if len > MAX_PAYLOAD || bytes.len() < HEAD_LEN + len {
        return None;
    }
    Some(len)
}

/// Keeps so many bytes behind a head.
fn cut_head(out: &mut Vec<u8>, len: usize)
    requires { HEAD_LEN + len ≤ length out.old.items }
    ensures items { out.new.items ≡ take len (drop HEAD_LEN out.old.items) }
    ensures capacity { vec_capacity out.old ≤ vec_capacity out.new }
{
    out.copy_within(HEAD_LEN..HEAD_LEN + len, 0);
    out.truncate(len);
}

/// Replaces `out` by a payload that stands at this place; after an error it holds anything.
pub(crate) fn read_payload<D: Disk>(
    disk: &mut D,
    place: u64,
    out: &mut Vec<u8>,
) -> Result<(), LogError>
    requires { place ≤ MAX_DISK }
    ensures payload { OnOk result (ReadsPayload (D.bytes disk.old) place out.new.items) }
    ensures sized { OnOk result (length out.new.items ≤ MAX_PAYLOAD) }
    ensures capacity { vec_capacity out.old ≤ vec_capacity out.new }
    ensures room { CHUNK_LEN ≤ vec_capacity out.old → result ≢ Err LogError.NoMemory }
    ensures only_read { OnlyReads D.bytes D.image disk.old disk.new }
    ensures reads { D.reads disk.new ≤ D.reads disk.old + 1 }
    ensures cause { HasFaultCause (D.faults disk.old) (D.faults disk.new) result }
    ensures only { (result ≡ Err LogError.Full) → ⊥ }
    ensures foreign { (at : ℕ) → result ≡ Err (LogError.Foreign at) →
        HasNoPayload (D.bytes disk.old) place }
    ensures foreign_at { (at : ℕ) → result ≡ Err (LogError.Foreign at) → at ≡ place }
{
    read_front(disk, place, CHUNK_LEN, out)?;
    match payload_len(out) {
        Some(len) => {
            cut_head(out, len);
            Ok(())
        }
        None => Err(LogError::Foreign { at: place }),
    }
}
