//! A log: where its records end, and the calls that read and lengthen it.

ghost use Rattle.std.specs.Prelude.{◌≡◌, ◌⊎◌, ◌+◌, ◌-◌, ◌≤◌, ◌<◌, ◌∷◌, ◌++◌, ℕ, [], List};
ghost use Rattle.std.specs.Prelude.{◌≢◌, Err, length, is_some, false, IfOk, IfSome, OnOk, OnErr, IsOkUnless};
ghost use Rattle.std.specs.Prelude.{vec_len, vec_capacity};
ghost use Rattle.std.specs.Option.{ForSome};
ghost use Rattle.outside.specs.Causes.{HasCause};
ghost use Rattle.outside.specs.Disk.{HasOneImage, ReadsAt};
ghost use Rattle.gate_log.specs.Records.{Stands, IsSized, IsUnborn, IsShut, record_of};
ghost use Rattle.gate_log.specs.Commit.{CommitsOrNot, Commits};
ghost use Rattle.gate_log.specs.Steps.{Ends};
ghost use Rattle.gate_log.specs.Log.{OnlyReads, HasFaultCause, Looks, Loads, BornOrNot, Appends};
ghost use Rattle.gate_log.specs.Log.{StandsOver, StaysUnborn, KeepsOneImage, ReadsPayload};
ghost use Rattle.gate_log.specs.Log.{HasNoPayload};

use crate::bytes::extend_reserved;
use crate::commit::{commit, write_stable};
use crate::payload::read_payload;
use crate::scan::{Found, scan};
use crate::{BIRTH_LEN, LogError, MAX_PAYLOAD};
use outside::{Disk, Failed, MAX_DISK};
use std::alloc::Global;
use std::marker::Model;

/// A gate byte that is written closed.
const CLOSED: u8 = 0;

/// The place behind the birth record.
const BORN_END: u64 = 5 + BIRTH_LEN as u64;

/// A list of payloads that stands on a disk. It keeps where they end, and none of them.
#[derive(Debug, Drop)]
pub struct Log {
    end: u64,
    count: u64,
    // A record as it is written; between the calls it is empty.
    staged: Vec<u8>,
    broken: bool,
    spare: bool,
}

impl Model for Log {
    ghost use Rattle.gate_log.specs.State.{LogState};

    ghost Value = { LogState };

    ghost use Rattle.gate_log.specs.Kept.{state_of, IsWhole};

    ghost view = { state_of };

    ghost invariant = { IsWhole };
}

/// Replaces an empty buffer, which has room for it, by a record with the next gate closed.
fn stage(staged: &mut Vec<u8>, payload: &[u8])
    requires empty { staged.old.items ≡ [] }
    requires room { vec_len staged.old + (5 + length payload.now) ≤ vec_capacity staged.old }
    requires sized { length payload.now ≤ MAX_PAYLOAD }
    ensures items { staged.new.items ≡ record_of payload.now }
    ensures capacity { vec_capacity staged.old ≤ vec_capacity staged.new }
{
    extend_reserved(staged, &(payload.len() as u32).to_be_bytes());
    extend_reserved(staged, payload);
    staged.push_reserved(CLOSED);
}

/// Appends a record to a disk by way of an empty buffer, which has room for it.
fn add<D: Disk>(disk: &mut D, end: u64, staged: &mut Vec<u8>, payload: &[u8]) -> Result<(), Failed>
    requires empty { staged.old.items ≡ [] }
    requires room { vec_len staged.old + (5 + MAX_PAYLOAD) ≤ vec_capacity staged.old }
    requires sized { length payload.now ≤ MAX_PAYLOAD }
    requires limit { end + 5 + length payload.now < MAX_DISK }
    requires ends { Ends (D.bytes disk.old) end payload.now }
    ensures empty { staged.new.items ≡ [] }
    ensures len { vec_len staged.new ≡ 0 }
    ensures capacity { vec_capacity staged.old ≤ vec_capacity staged.new }
    ensures appended { OnOk result (Commits (D.bytes disk.old) (D.bytes disk.new) payload.now) }
    ensures durable { OnOk result (HasOneImage (D.bytes disk.new) (D.image disk.new)) }
    ensures images { CommitsOrNot (D.bytes disk.old)
        (D.image disk.old) (D.image disk.new) payload.now }
    ensures told { is_some (D.bytes disk.new) ≡ is_some (D.bytes disk.old) }
    ensures reads { D.reads disk.new ≡ D.reads disk.old }
    ensures cause { HasCause (D.faults disk.old) (D.faults disk.new) result }
{
    stage(staged, payload);
    let answer = commit(disk, end, payload, staged);
    staged.clear();
    answer
}

/// Shuts the first gate of a disk whose image, of this length, is unborn.
fn shut_first_gate<D: Disk>(disk: &mut D, len: u64) -> Result<(), Failed>
    requires { ForSome (D.bytes disk.old) (λ b. IsUnborn b × (len ≡ length b)) }
    ensures shut { OnOk result (ForSome (D.bytes disk.new) (λ b. IsUnborn b × IsShut b)) }
    ensures images { StaysUnborn (D.bytes disk.old) (D.image disk.old) (D.image disk.new) }
    ensures durable { OnOk result (KeepsOneImage (D.bytes disk.old) (D.bytes disk.new)
        (D.image disk.old) (D.image disk.new)) }
    ensures told { is_some (D.bytes disk.new) ≡ is_some (D.bytes disk.old) }
    ensures cause { HasCause (D.faults disk.old) (D.faults disk.new) result }
{
    if len > 1 {
        return Ok(());
    }
    write_stable(disk, 0, &[CLOSED])
}

/// Makes the birth record the first of a disk whose image, of this length, is unborn.
fn write_birth<D: Disk>(disk: &mut D, len: u64, birth: &[u8], staged: &[u8]) -> Result<(), Failed>
    requires birth { length birth.now ≡ BIRTH_LEN }
    requires staged { staged.now ≡ record_of birth.now }
    requires unborn { ForSome (D.bytes disk.old) (λ b. IsUnborn b × (len ≡ length b)) }
    ensures stands { OnOk result (ForSome (D.bytes disk.new) (λ b. Stands b (birth.now ∷ []))) }
    ensures durable { OnOk result (HasOneImage (D.bytes disk.new) (D.image disk.new)) }
    ensures images { BornOrNot (D.bytes disk.old) (D.image disk.old) (D.image disk.new) birth.now }
    ensures told { is_some (D.bytes disk.new) ≡ is_some (D.bytes disk.old) }
    ensures cause { HasCause (D.faults disk.old) (D.faults disk.new) result }
{
    shut_first_gate(disk, len)?;
    commit(disk, 0, birth, staged)
}

impl Log {
    /// The log of so many records, whose closing gate stands at this place.
    pub fn of(alloc: Global, count: u64, end: u64) -> Log
        requires { (1 ≤ count) × (count ≤ end) × (end < MAX_DISK) }
        ensures { result ≡ record { end = end; count = count; broken = false; spare = 0 } }
    {
        Log {
            end,
            count,
            staged: Vec::new(alloc),
            broken: false,
            spare: false,
        }
    }

    /// The log on a disk; none where the disk is unborn. It only reads.
    ///
    /// # Errors
    /// `Foreign` exactly where the bytes are refused at that place; `DiskFault` only where the
    /// disk's count of faults rose; `NoMemory`.
    pub fn look<D: Disk>(alloc: Global, disk: &mut D) -> Result<Option<Log>, LogError>
        ensures looks { IfSome (D.bytes disk.old) (λ b. Looks b result) }
        ensures whole { IfOk result (λ found. IfSome found (λ log. log.broken ≡ false)) }
        ensures only_read { OnlyReads D.bytes D.image disk.old disk.new }
        ensures cause { HasFaultCause (D.faults disk.old) (D.faults disk.new) result }
    {
        match scan(alloc, disk)? {
            Found::Unborn => Ok(None),
            Found::Records(count, end) => Ok(Some(Log::of(alloc, count, end))),
            Found::Refused(at) => Err(LogError::Foreign { at }),
        }
    }

    /// A log of this birth record alone, on a disk that is unborn.
    ///
    /// # Errors
    /// `DiskFault` only where the disk's count of faults rose; `NoMemory`.
    pub fn begin<D: Disk>(alloc: Global, disk: &mut D, birth: &[u8]) -> Result<Log, LogError>
        requires birth { length birth.now ≡ BIRTH_LEN }
        requires unborn { ForSome (D.bytes disk.old) IsUnborn }
        ensures log { IfOk result (λ log. log ≡
            record { end = 5 + BIRTH_LEN; count = 1; broken = false; spare = 0 }) }
        ensures stands { OnOk result (ForSome (D.bytes disk.new) (λ b. Stands b (birth.now ∷ []))) }
        ensures durable { OnOk result (HasOneImage (D.bytes disk.new) (D.image disk.new)) }
        ensures images { BornOrNot (D.bytes disk.old)
            (D.image disk.old) (D.image disk.new) birth.now }
        ensures told { is_some (D.bytes disk.new) ≡ is_some (D.bytes disk.old) }
        ensures cause { HasFaultCause (D.faults disk.old) (D.faults disk.new) result }
        ensures only { (result ≡ Err LogError.Full) → ⊥ }
        ensures not_foreign { (at : ℕ) → (result ≡ Err (LogError.Foreign at)) → ⊥ }
    {
        let len = disk.len()?;
        let mut staged = Vec::with_capacity(alloc, 5 + BIRTH_LEN)?;
        stage(&mut staged, birth);
        write_birth(disk, len, birth, &staged)?;
        Ok(Log::of(alloc, 1, BORN_END))
    }

    /// How many records it has.
    pub fn count(&self) -> u64
        ensures count { result ≡ self.now.count }
        ensures born { 1 ≤ result }
    {
        self.count
    }

    /// The place of its closing gate.
    pub fn end(&self) -> u64
        ensures place { result ≡ self.now.end }
        ensures bound { result < MAX_DISK }
    {
        self.end
    }

    /// Makes room for one record.
    ///
    /// # Errors
    /// `NoMemory` alone, and then nothing changed.
    pub fn reserve(&mut self) -> Result<(), LogError>
        ensures ok { OnOk result (self.new ≡ record self.old { spare = 1 }) }
        ensures err { OnErr result (self.new ≡ self.old) }
        ensures only { IsOkUnless result LogError.NoMemory }
    {
        if self.spare {
            return Ok(());
        }
        self.staged.reserve(5 + MAX_PAYLOAD)?;
        self.spare = true;
        Ok(())
    }

    /// The log on a disk. An unborn disk gets the birth record first.
    ///
    /// # Errors
    /// `Foreign` exactly where the bytes are refused at that place; `DiskFault` only where the
    /// disk's count of faults rose; `NoMemory`. A disk that is not unborn was only read, whatever
    /// the answer. So was any disk where the answer is `Foreign`.
    pub fn load<D: Disk>(alloc: Global, disk: &mut D, birth: &[u8]) -> Result<Log, LogError>
        requires { length birth.now ≡ BIRTH_LEN }
        ensures loads { IfSome (D.bytes disk.old) (λ b. Loads birth.now b result
            (D.bytes disk.new)) }
        ensures images { BornOrNot (D.bytes disk.old)
            (D.image disk.old) (D.image disk.new) birth.now }
        ensures durable { OnOk result (HasOneImage (D.bytes disk.old) (D.image disk.old) →
            HasOneImage (D.bytes disk.new) (D.image disk.new)) }
        ensures whole { IfOk result (λ log. log.broken ≡ false) }
        ensures only_unborn_is_written { IfSome (D.bytes disk.old) (λ b.
            IsUnborn b ⊎ OnlyReads D.bytes D.image disk.old disk.new) }
        ensures foreign_only_reads { (at : ℕ) → result ≡ Err (LogError.Foreign at) →
            OnlyReads D.bytes D.image disk.old disk.new }
        ensures told { is_some (D.bytes disk.new) ≡ is_some (D.bytes disk.old) }
        ensures cause { HasFaultCause (D.faults disk.old) (D.faults disk.new) result }
    {
        match Log::look(alloc, disk)? {
            Some(log) => Ok(log),
            None => Log::begin(alloc, disk, birth),
        }
    }

    /// Appends a record, and answers its place.
    ///
    /// It makes four calls of the disk and takes no memory. A crash at any moment leaves the list
    /// as it was, or with the record.
    ///
    /// # Errors
    /// `Full` exactly where the record would end past the last byte of a disk, and then nothing was
    /// written; `DiskFault` only where the disk's count of faults rose, and then the log is broken.
    pub fn append<D: Disk>(&mut self, disk: &mut D, payload: &[u8]) -> Result<u64, LogError>
        requires spare { 1 ≤ self.old.spare }
        requires sized { IsSized payload.now }
        requires whole { self.old.broken ≡ false }
        requires stands { ForSome (D.bytes disk.old) (StandsOver self.old) }
        ensures appends { Appends payload.now self.old self.new result }
        ensures appended { OnOk result (Commits (D.bytes disk.old) (D.bytes disk.new) payload.now) }
        ensures durable { OnOk result (HasOneImage (D.bytes disk.new) (D.image disk.new)) }
        ensures images { CommitsOrNot (D.bytes disk.old)
            (D.image disk.old) (D.image disk.new) payload.now }
        ensures full { result ≡ Err LogError.Full → disk.new ≡ disk.old }
        ensures told { is_some (D.bytes disk.new) ≡ is_some (D.bytes disk.old) }
        ensures reads { D.reads disk.new ≡ D.reads disk.old }
        ensures cause { HasFaultCause (D.faults disk.old) (D.faults disk.new) result }
    {
        if self.end + 5 + payload.len() as u64 >= MAX_DISK {
            return Err(LogError::Full);
        }
        match add(disk, self.end, &mut self.staged, payload) {
            Ok(()) => Ok(self.lengthen(payload)),
            Err(_) => {
                self.broken = true;
                Err(LogError::DiskFault)
            }
        }
    }

    /// Counts a record that was appended, and answers its place.
    fn lengthen(&mut self, payload: &[u8]) -> u64
        requires { self.old.end + 5 + length payload.now < MAX_DISK }
        ensures place { result ≡ self.old.end }
        ensures log { self.new ≡ record self.old {
          end = self.old.end + 5 + length payload.now;
          count = self.old.count + 1;
          spare = 0;
        } }
    {
        let place = self.end;
        self.end += 5 + payload.len() as u64;
        self.count += 1;
        self.spare = false;
        place
    }

    /// Replaces `out` by the payload that stands at this place, in one read.
    ///
    /// # Errors
    /// `Foreign` only where no record of the disk stands there; `DiskFault` only where the disk's
    /// count of faults rose; `NoMemory` only where `out` has no room for 65,541 bytes. Then `out`
    /// is empty.
    pub fn read<D: Disk>(&self, disk: &mut D, place: u64, out: &mut Vec<u8>) -> Result<(), LogError>
        requires { place ≤ MAX_DISK }
        ensures payload { OnOk result (ReadsPayload (D.bytes disk.old) place out.new.items) }
        ensures sized { length out.new.items ≤ MAX_PAYLOAD }
        ensures refused { OnErr result (out.new.items ≡ []) }
        ensures capacity { vec_capacity out.old ≤ vec_capacity out.new }
        ensures room { 5 + MAX_PAYLOAD ≤ vec_capacity out.old → result ≢ Err LogError.NoMemory }
        ensures only_read { OnlyReads D.bytes D.image disk.old disk.new }
        ensures reads { D.reads disk.new ≤ D.reads disk.old + 1 }
        ensures cause { HasFaultCause (D.faults disk.old) (D.faults disk.new) result }
        ensures only { (result ≡ Err LogError.Full) → ⊥ }
        ensures foreign { (at : ℕ) → result ≡ Err (LogError.Foreign at) →
            HasNoPayload (D.bytes disk.old) place }
        ensures foreign_at { (at : ℕ) → result ≡ Err (LogError.Foreign at) → at ≡ place }
    {
        let answer = read_payload(disk, place, out);
        if answer.is_err() {
            out.clear();
        }
        answer
    }
}
