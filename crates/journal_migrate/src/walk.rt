//! A walk over the records of a journal of format 1.

ghost use Rattle.std.specs.Prelude.{◌≡◌, ◌≢◌, ◌+◌, ◌<◌, ◌≤◌, List, ℕ, length, Err};
ghost use Rattle.std.specs.Prelude.{IfOk, IfErr, IfSome, OnOk};
ghost use Rattle.std.specs.Option.{ForSome};
ghost use Rattle.gate_log.specs.Chunk.{IsOf, IsOfAny};
ghost use Rattle.gate_log.specs.Log.{OnlyReads, StandsOver, ReadsPayload, IsAt};
ghost use Rattle.gate_log.specs.Records.{Stands};
ghost use Rattle.kept_entries.specs.Numbers.{first_numbers};
ghost use Rattle.journal_migrate.specs.declared.migrating.MigrateError.TheVariants as errors;
ghost use Rattle.journal_migrate.specs.Migrating.{FailsBy};
ghost use Rattle.journal_migrate.specs.Walk.{IsBirth, IsNoBirth, IsNext, IsNoNext};
ghost use Rattle.journal_migrate.specs.Walk.{ReadsRecord, Unread};

use crate::MigrateError;
use crate::records::{HEAD_LEN, Next, renew_birth, renew_entry};
use gate_log::{Chunk, Log, MAX_PAYLOAD};
use outside::{Disk, MAX_DISK};
use std::alloc::{AllocError, Global};

/// The most bytes of a record of format 2.
const MAX_RECORD: usize = HEAD_LEN + MAX_PAYLOAD + 4;

/// A walk over the records of a journal of format 1, and the last of them as format 2 has it.
#[derive(Drop)]
pub(crate) struct Walk {
    chunk: Chunk,
    // The place of the next record, and the day and the next numbers before it.
    place: u64,
    day: u32,
    next: Next,
    renewed: Vec<u8>,
}

/// Finds the payload of the record at this place.
fn read_payload<D: Disk>(chunk: &mut Chunk, disk: &mut D, place: u64) -> Result<(), MigrateError>
    requires place { place ≤ MAX_DISK }
    requires of { IsOf (D.bytes disk.old) chunk.old }
    ensures of { IsOf (D.bytes disk.new) chunk.new }
    ensures payload { OnOk result (ReadsPayload (D.bytes disk.old) place chunk.new.payload) }
    ensures err { IfErr result (Unread (D.bytes disk.old) place) }
    ensures only { result ≢ Err errors.OutputFault }
    ensures only_read { OnlyReads D.bytes D.image disk.old disk.new }
    ensures cause { FailsBy errors.DiskFault (D.faults disk.old) (D.faults disk.new) result }
{
    chunk.read(disk, place)?;
    Ok(())
}

impl Walk {
    /// Before the first record of any disk.
    pub(crate) fn new(alloc: Global) -> Result<Walk, AllocError>
        ensures place { IfOk result (λ walk. walk.place ≡ 0) }
        ensures day { IfOk result (λ walk. walk.day ≡ 0) }
        ensures next { IfOk result (λ walk. walk.next ≡ first_numbers) }
        ensures of { IfOk result (λ walk. IsOfAny walk.chunk) }
    {
        Ok(Walk {
            chunk: Chunk::new(alloc)?,
            place: 0,
            day: 0,
            next: (1, 1, 1, 1),
            renewed: Vec::with_capacity(alloc, MAX_RECORD)?,
        })
    }

    /// The last record, as format 2 has it.
    pub(crate) fn renewed(&self) -> &[u8]
        ensures { result.now ≡ self.now.renewed.items }
    {
        &self.renewed
    }

    /// Reads the birth record.
    pub(crate) fn read_birth<D: Disk>(&mut self, disk: &mut D) -> Result<(), MigrateError>
        requires place { self.old.place ≡ 0 }
        requires of { IsOf (D.bytes disk.old) self.old.chunk }
        ensures of { IsOf (D.bytes disk.new) self.new.chunk }
        ensures day { self.new.day ≡ self.old.day }
        ensures next { self.new.next ≡ self.old.next }
        ensures place { OnOk result (5 ≤ self.new.place) }
        ensures read { IfSome (D.bytes disk.old) (λ b. (ps : List (List ℕ)) (p : List ℕ)
            → Stands b ps → IsAt ps 0 p → ReadsRecord
            (IsBirth p self.new.renewed.items × (self.new.place ≡ 5 + length p))
            (IsNoBirth p) 0 result) }
        ensures made { OnOk result ((p : List ℕ) × IsBirth p self.new.renewed.items) }
        ensures only { result ≢ Err errors.OutputFault }
        ensures only_read { OnlyReads D.bytes D.image disk.old disk.new }
        ensures cause { FailsBy errors.DiskFault (D.faults disk.old) (D.faults disk.new) result }
    {
        read_payload(&mut self.chunk, disk, 0)?;
        let payload = self.chunk.payload();
        if !renew_birth(payload, &mut self.renewed)? {
            return Err(MigrateError::Refused { at: 0 });
        }
        self.place = 5 + payload.len() as u64;
        Ok(())
    }

    /// Reads the record of the next entry of a log.
    pub(crate) fn read_entry<D: Disk>(
        &mut self,
        log: &Log,
        disk: &mut D,
    ) -> Result<(), MigrateError>
        requires few { self.old.day < self.old.place }
        requires of { IsOf (D.bytes disk.old) self.old.chunk }
        requires stands { ForSome (D.bytes disk.old) (StandsOver log.now) }
        ensures few { OnOk result (self.new.day < self.new.place) }
        ensures of { IsOf (D.bytes disk.new) self.new.chunk }
        ensures read { IfSome (D.bytes disk.old) (λ b. (ps : List (List ℕ)) (p : List ℕ)
            → Stands b ps → IsAt ps self.old.place p → ReadsRecord
            (IsNext self.old.day self.old.next p self.new.day self.new.next self.new.renewed.items
            × (self.new.place ≡ self.old.place + 5 + length p))
            (IsNoNext self.old.next p) self.old.place result) }
        ensures made { OnOk result ((p : List ℕ) × IsNext self.old.day self.old.next p
            self.new.day self.new.next self.new.renewed.items) }
        ensures only { result ≢ Err errors.OutputFault }
        ensures only_read { OnlyReads D.bytes D.image disk.old disk.new }
        ensures cause { FailsBy errors.DiskFault (D.faults disk.old) (D.faults disk.new) result }
    {
        if self.place >= log.end() {
            return Err(MigrateError::Refused { at: self.place });
        }
        read_payload(&mut self.chunk, disk, self.place)?;
        let payload = self.chunk.payload();
        let found = renew_entry(payload, self.day, self.next, &mut self.renewed)?;
        let Some((day, next)) = found else {
            return Err(MigrateError::Refused { at: self.place });
        };
        self.place += 5 + payload.len() as u64;
        self.day = day;
        self.next = next;
        Ok(())
    }
}
