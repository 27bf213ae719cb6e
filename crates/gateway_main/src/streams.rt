//! The three standard streams, of which any may be closed when the program starts.

use std::fs::File;
use std::io;
use std::rt::Files;

/// What stands in the place of a standard stream that is closed.
const NOTHING: &str = "/dev/null";

/// Files that fill the places of the standard streams that are closed, so that no file that the
/// program writes is opened there: the system gives the lowest place that is free. They are open
/// for reading alone: an input gives its end, and a write fails, so that no output is lost in
/// silence. They are to be kept until the program ends; where the three streams are open they stand
/// elsewhere and do nothing.
#[derive(Drop)]
pub(crate) struct Filled {
    _files: (File, File, File),
}

impl Filled {
    /// Opens them. Nothing else may have been opened before.
    ///
    /// # Errors
    /// The system's error. Then none is open.
    pub(crate) fn open<R: Files<File = File>>(rt: &R) -> io::Result<Filled> {
        let first = File::open(rt, NOTHING)?;
        let second = File::open(rt, NOTHING)?;
        let third = File::open(rt, NOTHING)?;
        Ok(Filled {
            _files: (first, second, third),
        })
    }
}
