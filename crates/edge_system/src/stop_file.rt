//! The file that asks a running gateway for an orderly end.

ghost use Rattle.std.specs.Prelude.{◌≡◌, IfSome};
ghost use Rattle.edge_logic.specs.declared.journal.Refusal.TheVariants as refusals;

use edge_logic::Refusal;
use std::rt::Files;
use std::{fs, io};

/// The file whose existence asks for an orderly end.
#[derive(Clone, Copy, Debug)]
pub struct StopFile<'a> {
    path: &'a str,
}

impl<'a> StopFile<'a> {
    /// The file at this path.
    pub fn new(path: &'a str) -> StopFile<'a>
        ensures { result.path.now ≡ path.now }
    {
        StopFile { path }
    }

    /// Whether it is there. A path that cannot be looked at is not.
    pub fn is_there<R: Files>(&self, rt: &R) -> bool {
        matches!(fs::exists(rt, self.path), Ok(true))
    }

    /// Why a gateway does not start, where the file is there already.
    pub fn refusal<R: Files>(&self, rt: &R) -> Option<Refusal<'a>>
        ensures { IfSome result (λ refusal. refusal ≡ refusals.StopLies self.now.path) }
    {
        if self.is_there(rt) {
            return Some(Refusal::StopLies(self.path));
        }
        None
    }

    /// Removes it.
    ///
    /// # Errors
    /// The system's error.
    pub fn remove<R: Files>(&self, rt: &R) -> io::Result<()> {
        fs::remove_file(rt, self.path)
    }
}
