//! The journal's file: made for its owner alone and locked for this process, or only read.

ghost use Rattle.std.specs.Prelude.{◌≡◌, None, IfOk};
ghost use Rattle.std.specs.Io.{ReadsAtMost};
ghost use Rattle.edge_system.specs.JournalFile.{TellsRefusal, is_no_journal};
ghost use Rattle.edge_system.specs.declared.journal_file.Access.TheVariants as accesses;

use edge_logic::{Denial, HEAD, Tally, fill, folder, may_be_journal};
use outside::{Disk, Failed};
use std::alloc::{AllocError, Global};
use std::fs::{File, OpenOptions, TryLockError};
use std::os::unix::fs::{FileExt, OpenOptionsExt};
use std::rt::Files;
use std::{fs, io, mem};

/// The owner may read and write, and nobody else.
const OWNER_ALONE: u32 = 0o600;

/// What the file is opened for.
#[derive(Clone, Copy, Debug, PartialEq, Eq)]
enum Access {
    /// To be read and written. It is made where it is not there.
    Write,
    /// To be read alone.
    Read,
}

// The file, opened at the first call that needs it.
#[derive(Drop)]
struct Lazy<'a, R: Files<File = File>> {
    rt: &'a R,
    path: &'a str,
    access: Access,
    file: Option<File>,
}

/// The journal's file as a disk. It tells nothing of its bytes.
#[derive(Drop)]
pub struct JournalFile<'a, R: Files<File = File>> {
    lazy: Lazy<'a, R>,
    tally: Tally,
}

// Refuses a path that is no file's, before it is opened: a pipe would be waited for, and a device
// may do what it does. Where nothing can be found out, opening tells why.
fn look<R: Files<File = File>>(rt: &R, path: &str) -> Result<(), Denial> {
    match fs::metadata(rt, path) {
        Ok(found) if !found.is_file() => Err(Denial::NoFile),
        _ => Ok(()),
    }
}

// Locks the file for this process alone, without a wait.
fn lock(file: &File) -> Result<(), Denial> {
    match file.try_lock() {
        Ok(()) => Ok(()),
        Err(TryLockError::WouldBlock) => Err(Denial::InUse),
        Err(TryLockError::Error(error)) => Err(Denial::System(error)),
    }
}

// Opens the file, or makes it; nothing in it is cut off.
fn make<R: Files<File = File>>(rt: &R, path: &str) -> io::Result<File> {
    OpenOptions::new()
        .read(true)
        .write(true)
        .create(true)
        .mode(OWNER_ALONE)
        .open(rt, path)
}

// Makes the file and its entry in the folder stable, before anything is written to it.
fn settle<R: Files<File = File>>(rt: &R, path: &str, file: &File) -> io::Result<()> {
    file.sync_all()?;
    File::open(rt, folder(path))?.sync_all()
}

// Refuses a file that can be no journal, before anything is written to it.
fn judge(file: &File) -> Result<(), Denial> {
    let mut head = [0u8; HEAD];
    let count = fill(file, 0, &mut head)?;
    if may_be_journal(&head[..count]) {
        Ok(())
    } else {
        Err(Denial::NoJournal)
    }
}

// The file as one that is written.
fn open_to_write<R: Files<File = File>>(rt: &R, path: &str) -> Result<File, Denial> {
    look(rt, path)?;
    let file = make(rt, path)?;
    lock(&file)?;
    judge(&file)?;
    settle(rt, path, &file)?;
    Ok(file)
}

// The file as one that is only read: it is not made, need not be writable, and is not locked, since
// a gateway that runs on it changes no byte in front of its closing gate.
fn open_to_read<R: Files<File = File>>(rt: &R, path: &str) -> Result<File, Denial> {
    look(rt, path)?;
    let file = File::open(rt, path)?;
    judge(&file)?;
    Ok(file)
}

impl<'a, R: Files<File = File>> Lazy<'a, R> {
    // The file, where it can be had.
    fn file(&mut self) -> Result<&File, Denial> {
        let file = match mem::replace(&mut self.file, None) {
            Some(file) => file,
            None => match self.access {
                Access::Write => open_to_write(self.rt, self.path)?,
                Access::Read => open_to_read(self.rt, self.path)?,
            },
        };
        Ok(self.file.insert(file))
    }

    fn len(&mut self) -> Result<u64, Denial> {
        Ok(self.file()?.metadata()?.len())
    }

    fn read(&mut self, at: u64, buf: &mut [u8]) -> Result<usize, Denial>
        ensures { ReadsAtMost result buf.new }
    {
        let file = self.file()?;
        Ok(fill(file, at, buf)?)
    }

    fn write(&mut self, at: u64, piece: &[u8]) -> Result<(), Denial> {
        Ok(self.file()?.write_all_at(piece, at)?)
    }

    fn sync(&mut self) -> Result<(), Denial> {
        Ok(self.file()?.sync_data()?)
    }
}

impl<'a, R: Files<File = File>> JournalFile<'a, R> {
    // The file at this path.
    fn with_access(rt: &'a R, path: &'a str, access: Access) -> JournalFile<'a, R>
        ensures path { result.lazy.path.now ≡ path.now }
        ensures access { result.lazy.access ≡ access }
        ensures tally { result.tally ≡ record { reads = 0; faults = 0; denial = None } }
    {
        JournalFile {
            lazy: Lazy {
                rt,
                path,
                access,
                file: None,
            },
            tally: Tally::new(),
        }
    }

    /// The file at this path, which is opened, or made, at the first call that needs it.
    pub fn new(rt: &'a R, path: &'a str) -> JournalFile<'a, R>
        ensures path { result.lazy.path.now ≡ path.now }
        ensures access { result.lazy.access ≡ accesses.Write }
        ensures tally { result.tally ≡ record { reads = 0; faults = 0; denial = None } }
    {
        JournalFile::with_access(rt, path, Access::Write)
    }

    /// The file at this path, to be read alone, also while a gateway has it: it is neither made nor
    /// locked, and a write fails.
    pub fn to_read(rt: &'a R, path: &'a str) -> JournalFile<'a, R>
        ensures path { result.lazy.path.now ≡ path.now }
        ensures access { result.lazy.access ≡ accesses.Read }
        ensures tally { result.tally ≡ record { reads = 0; faults = 0; denial = None } }
    {
        JournalFile::with_access(rt, path, Access::Read)
    }

    /// The line that says why the last call failed, where it did: that the journal is in use, that
    /// its path is that of another file, or its path and the system's reason.
    ///
    /// # Errors
    /// For want of memory alone.
    pub fn refusal(&self, alloc: Global) -> Result<Option<String>, AllocError>
        ensures { IfOk result (TellsRefusal self.now.lazy.path.now self.now.tally.denial) }
    {
        match self.tally.denial() {
            Some(denial) => Ok(Some(denial.line(alloc, self.lazy.path)?)),
            None => Ok(None),
        }
    }

    /// Whether the last call failed because the file is no journal.
    pub fn is_no_journal(&self) -> bool
        ensures { result ≡ is_no_journal self.now.tally.denial }
    {
        matches!(self.tally.denial(), Some(Denial::NoJournal))
    }
}

impl<'a, R: Files<File = File>> Disk for JournalFile<'a, R> {
    ghost bytes = { λ _. None };

    ghost image = { λ _ _. ⊥ };

    ghost faults = { λ disk. disk.tally.faults };

    ghost reads = { λ disk. disk.tally.reads };

    ghost as_it_reads = { λ _. tt };

    fn len(&mut self) -> Result<u64, Failed> {
        let answer = self.lazy.len();
        self.tally.end(answer)
    }

    fn read_at(&mut self, at: u64, buf: &mut [u8]) -> Result<usize, Failed> {
        self.tally.note_read();
        let answer = self.lazy.read(at, buf);
        self.tally.end(answer)
    }

    fn write_at(&mut self, at: u64, piece: &[u8]) -> Result<(), Failed> {
        let answer = self.lazy.write(at, piece);
        self.tally.end(answer)
    }

    fn sync(&mut self) -> Result<(), Failed> {
        let answer = self.lazy.sync();
        self.tally.end(answer)
    }
}
