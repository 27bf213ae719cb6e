//! Why a connection failed.

use std::alloc::AllocError;
use std::{fmt, io};

/// Why a connection failed. Its `Display` is the reason in a line.
#[derive(Debug, Drop)]
pub enum Fault {
    /// The system's reason.
    System(io::Error),
    /// The peer took nothing for 5 s of what waits for it.
    TookNothing,
    /// More than [`ROOM`](crate::ROOM) bytes would wait for it.
    NoRoom,
    /// The connect was not answered within 5 s.
    NoAnswer,
    /// There is no connection.
    NotConnected,
    /// Memory was refused.
    NoMemory,
}

impl From<io::Error> for Fault {
    ghost use Rattle.std.specs.Prelude.{◌≡◌};
    ghost use Rattle.edge_logic.specs.declared.fault.Fault.TheVariants as fault;

    ghost from_gives = { λ error made. made ≡ fault.System error };

    fn from(error: io::Error) -> Fault {
        Fault::System(error)
    }
}

impl From<AllocError> for Fault {
    ghost use Rattle.std.specs.Prelude.{◌≡◌};
    ghost use Rattle.edge_logic.specs.declared.fault.Fault.TheVariants as fault;

    ghost from_gives = { λ _ made. made ≡ fault.NoMemory };

    fn from(_error: AllocError) -> Fault {
        Fault::NoMemory
    }
}

impl fmt::Display for Fault {
    ghost use Rattle.edge_logic.specs.Notice.{fault_text};

    ghost output = { fault_text };

    fn fmt<W: fmt::Write>(&self, f: &mut fmt::Formatter<W>) -> fmt::Result {
        match self {
            Fault::System(error) => error.fmt(f),
            Fault::TookNothing => write!(f, "the peer took nothing for 5 s"),
            Fault::NoRoom => write!(f, "the peer leaves too many bytes waiting"),
            Fault::NoAnswer => write!(f, "no answer within 5 s"),
            Fault::NotConnected => write!(f, "not connected"),
            Fault::NoMemory => write!(f, "out of memory"),
        }
    }
}
