//! The files that a command line names.
ghost use Rattle.std.specs.Prelude.{◌≡◌, List, ℕ, IfSome, MatchResult};
ghost use Rattle.vp_exit_status.specs.declared.stop.Stop.TheVariants.{CannotOpen};

use std::fs;
use std::io::Read;
use std::rt::Files;
use vp_exit_status::Stop;

/// Files that are opened by their names.
pub trait Folder {
    type File: Read + Drop;

    /// A name may open this file.
    ghost names: { Self → List ℕ → Self.File → Type 0 };

    /// The file of this name, to be read.
    fn file(&self, name: &str) -> Option<Self::File>
        ensures { IfSome result (names self.now name.now) };
}

/// The files of the system, of which a contract knows nothing.
impl<R: Files> Folder for R {
    type File = R::File;

    ghost names = { λ folder name file. Unit {0} };

    fn file(&self, name: &str) -> Option<R::File> {
        fs::open(self, name).ok()
    }
}

/// Opens a file to be read.
pub fn open<'a, F: Folder>(folder: &F, name: &'a str) -> Result<F::File, Stop<'a>>
    ensures { MatchResult result (F.names folder.now name.entry.now) (λ stop. stop ≡ CannotOpen name.entry) }
{
    match folder.file(name) {
        Some(file) => Ok(file),
        None => Err(Stop::CannotOpen(name)),
    }
}
