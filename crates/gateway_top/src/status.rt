//! How a run of the program ended.

ghost use Rattle.std.specs.Prelude.{◌≡◌};
ghost use Rattle.gateway_top.specs.Status.{code_of, end_of, status_of_life, status_of_error};
ghost use Rattle.gateway_top.specs.Status.{status_of_show, status_of_replay, status_of_print};
ghost use Rattle.gateway_top.specs.Status.{status_of_migrate};
ghost use Rattle.gateway_top.specs.Status.{key_name};

use crate::serve_error::ServeError;
use capture_replay::ReplayError;
use gateway_config::ConfigKey;
use gateway_life::LifeEnd;
use journal_migrate::MigrateError;
use journal_show::ShowError;
use order_meaning::{Names, Side};
use replay_lines::PrintError;
use std::fmt;
use std::marker::Model;

/// How a run ended. Its `Display` is the line that the program prints for it.
#[derive(Clone, Copy, Debug)]
pub enum Status {
    /// The command was done.
    Done,
    /// A piece of the input was refused. `at` is the place of its first byte, counted from 0.
    Refused { at: u64 },
    /// The words are none of the forms of the command line.
    Usage,
    /// This key of the configuration is the first that is missing or wrong.
    ConfigRefused { key: ConfigKey },
    /// The input failed.
    InputFault,
    /// The output failed.
    OutputFault,
    /// The disk failed.
    DiskFault,
    /// The disk holds no journal: it is refused at this place, that of a gate byte or a record.
    JournalRefused { at: u64 },
    /// The disk holds a journal of other names: those kept, and those of the configuration.
    NamesDiffer { kept: Names, given: Names },
    /// A record would end past 1,073,741,824 bytes of the journal.
    JournalFull,
    /// A message would take a number of this side past 999,999,999.
    NumbersSpent { side: Side },
    /// This line of the capture is the first with which none goes on, counted from 1.
    CaptureRefused { line: u32 },
    /// Memory was refused.
    NoMemory,
    /// The input has more than 67,108,864 bytes.
    InputTooLong,
}

/// The name of a key, as it is printed.
fn key_name(key: ConfigKey) -> &'static str
    ensures { result.now ≡ key_name key }
{
    match key {
        ConfigKey::NotToml => "NotToml",
        ConfigKey::ClientOur => "ClientOur",
        ConfigKey::ClientPeer => "ClientPeer",
        ConfigKey::VenueOur => "VenueOur",
        ConfigKey::VenuePeer => "VenuePeer",
        ConfigKey::VenueHeart => "VenueHeart",
        ConfigKey::Window => "Window",
        ConfigKey::Reset => "Reset",
        ConfigKey::Unknown => "Unknown",
    }
}

impl fmt::Display for Status {
    ghost use Rattle.std.specs.Prelude.{Some};
    ghost use Rattle.gateway_top.specs.Status.{status_line};

    ghost output = { λ status. Some (status_line status) };

    fn fmt<W: fmt::Write>(&self, f: &mut fmt::Formatter<W>) -> fmt::Result {
        match *self {
            Status::Done => write!(f, "done"),
            Status::Refused { at } => write!(f, "refused at {at}"),
            Status::Usage => write!(f, "usage"),
            Status::ConfigRefused { key } => write!(f, "configuration {}", key_name(key)),
            Status::InputFault => write!(f, "input fault"),
            Status::OutputFault => write!(f, "output fault"),
            Status::DiskFault => write!(f, "disk fault"),
            Status::JournalRefused { at } => write!(f, "journal refused at {at}"),
            Status::NamesDiffer { .. } => write!(f, "journal has other names"),
            Status::JournalFull => write!(f, "journal full"),
            Status::NumbersSpent { side: Side::Client } => write!(f, "numbers spent client"),
            Status::NumbersSpent { side: Side::Venue } => write!(f, "numbers spent venue"),
            Status::CaptureRefused { line } => write!(f, "capture line {line}"),
            Status::NoMemory => write!(f, "out of memory"),
            Status::InputTooLong => write!(f, "input too long"),
        }
    }
}

impl From<LifeEnd> for Status {
    ghost from_gives = { λ end status. status ≡ status_of_life end };

    fn from(end: LifeEnd) -> Status {
        match end {
            LifeEnd::Done => Status::Done,
            LifeEnd::DiskFault => Status::DiskFault,
            LifeEnd::JournalRefused { at } => Status::JournalRefused { at },
            LifeEnd::NamesDiffer { kept, given } => Status::NamesDiffer { kept, given },
            LifeEnd::JournalFull => Status::JournalFull,
            LifeEnd::NumbersSpent { side } => Status::NumbersSpent { side },
            LifeEnd::NoMemory => Status::NoMemory,
        }
    }
}

impl From<ServeError> for Status {
    ghost from_gives = { λ error status. status ≡ status_of_error error };

    fn from(error: ServeError) -> Status {
        match error {
            ServeError::InputFault => Status::InputFault,
            ServeError::InputTooLong => Status::InputTooLong,
            ServeError::ConfigRefused { key } => Status::ConfigRefused { key },
            ServeError::NoMemory => Status::NoMemory,
        }
    }
}

impl From<ShowError> for Status {
    ghost from_gives = { λ error status. status ≡ status_of_show error };

    fn from(error: ShowError) -> Status {
        match error {
            ShowError::DiskFault => Status::DiskFault,
            ShowError::JournalRefused { at } => Status::JournalRefused { at },
            ShowError::OutputFault => Status::OutputFault,
            ShowError::NoMemory => Status::NoMemory,
        }
    }
}

impl From<MigrateError> for Status {
    ghost from_gives = { λ error status. status ≡ status_of_migrate error };

    fn from(error: MigrateError) -> Status {
        match error {
            MigrateError::DiskFault => Status::DiskFault,
            MigrateError::OutputFault => Status::OutputFault,
            MigrateError::Refused { at } => Status::JournalRefused { at },
            MigrateError::Full => Status::JournalFull,
            MigrateError::NoMemory => Status::NoMemory,
        }
    }
}

impl From<ReplayError> for Status {
    ghost from_gives = { λ error status. status ≡ status_of_replay error };

    fn from(error: ReplayError) -> Status {
        match error {
            ReplayError::InputFault => Status::InputFault,
            ReplayError::InputTooLong => Status::InputTooLong,
            ReplayError::CaptureRefused { line } => Status::CaptureRefused { line },
            ReplayError::OutputFault => Status::OutputFault,
            ReplayError::NoMemory => Status::NoMemory,
        }
    }
}

impl From<PrintError> for Status {
    ghost from_gives = { λ error status. status ≡ status_of_print error };

    fn from(error: PrintError) -> Status {
        match error {
            PrintError::OutputFault => Status::OutputFault,
            PrintError::NoMemory => Status::NoMemory,
        }
    }
}

/// The exit status of the program for a status of the run.
pub fn code(status: &Status) -> u8
    ensures { result ≡ code_of status.now }
{
    match status {
        Status::Done => 0,
        Status::Refused { .. } => 1,
        Status::Usage => 2,
        Status::ConfigRefused { .. } => 3,
        Status::InputFault => 4,
        Status::OutputFault => 5,
        Status::DiskFault => 6,
        Status::JournalRefused { .. } | Status::NamesDiffer { .. } => 7,
        Status::JournalFull => 8,
        Status::NumbersSpent { .. } => 9,
        Status::CaptureRefused { .. } => 10,
        Status::NoMemory => 11,
        Status::InputTooLong => 12,
    }
}

/// How the program ends: the code with which it exits, and what it prints to standard error, which
/// is its `Display`: nothing where the command was done, else a line with the status.
#[derive(Drop)]
pub struct End {
    status: Status,
}

impl Model for End {
    ghost use Rattle.gateway_top.specs.Status.{End, end_of};

    ghost Value = { End };

    ghost view = { λ end. end_of end.status };
}

impl End {
    /// How the program ends after a run with this status.
    pub fn new(status: Status) -> End
        ensures { result ≡ end_of status }
    {
        End { status }
    }

    /// The exit code.
    pub fn code(&self) -> u8
        ensures { result ≡ self.now.code }
    {
        code(&self.status)
    }
}

impl fmt::Display for End {
    ghost use Rattle.std.specs.Prelude.{Some};

    ghost output = { λ end. Some end.printed };

    fn fmt<W: fmt::Write>(&self, f: &mut fmt::Formatter<W>) -> fmt::Result {
        match self.status {
            Status::Done => Ok(()),
            status => writeln!(f, "fixgate: {status}"),
        }
    }
}
