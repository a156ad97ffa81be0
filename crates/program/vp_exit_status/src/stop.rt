//! How a run ends early: its line, and its status.
ghost use Rattle.std.specs.Prelude.{◌≡◌, ◌⊎◌};
ghost use Rattle.vp_glyph.specs.Reading.{number_of};
ghost use Rattle.vp_exit_status.specs.Ends.{end_of_join, end_of_sheet};
ghost use Rattle.vp_exit_status.specs.declared.stop.Stop.TheVariants.{Memory, Read};
ghost use Rattle.vp_exit_status.specs.Statuses.{status_of};

use std::io;
use thiserror::Error;
use vp_dots::Fault;
use vp_glyph::SheetError;
use vp_join::JoinFault;

/// Why a run ends before all is printed.
#[derive(Debug, Drop, Error)]
pub enum Stop<'a> {
    /// The stream is wrong at the last of the bytes taken.
    #[error("F{} after {after} bytes: {fault}", .fault.number())]
    Print {
        fault: Fault,
        after: u64,
    },
    #[error("cannot open {0}")]
    CannotOpen(&'a str),
    /// A file is no glyph sheet.
    #[error("{name}: S{number} {error}")]
    Sheet {
        name: &'a str,
        number: u8,
        error: SheetError,
    },
    /// What is to be joined isn't images of one width, or is too wide for a PNG file.
    #[error("join: {0:?}")]
    Join(JoinFault),
    #[error("read failed")]
    Read,
    #[error("write failed")]
    Write,
    #[error("too many turns")]
    TooManyTurns,
    #[error("out of memory")]
    Memory,
}

impl<'a> Stop<'a> {
    /// The exit status: 1 for a fault of the stream or of images, 3 for a file, a sheet, a read or a write,
    /// 4 for want of memory.
    pub fn status(&self) -> u8
        ensures { result ≡ status_of self.now }
    {
        match self {
            Stop::Print { .. } | Stop::Join(_) => 1,
            Stop::CannotOpen(_) | Stop::Sheet { .. } => 3,
            Stop::Read | Stop::Write | Stop::TooManyTurns => 3,
            Stop::Memory => 4,
        }
    }

    /// Why a whole file can't be read.
    pub fn of_read(error: &io::Error) -> Self
        ensures { (result ≡ Memory) ⊎ (result ≡ Read) }
    {
        if error.kind() == io::ErrorKind::OutOfMemory {
            Stop::Memory
        } else {
            Stop::Read
        }
    }

    /// Why the file of this name is no sheet that can be held.
    pub fn of_sheet(name: &'a str, error: SheetError) -> Self
        ensures { result ≡ end_of_sheet name.entry error (number_of error) }
    {
        match error.number() {
            Some(number) => Stop::Sheet {
                name,
                number,
                error,
            },
            None => Stop::Memory,
        }
    }

    /// Why images weren't joined.
    pub fn of_join(fault: JoinFault) -> Self
        ensures { result ≡ end_of_join fault }
    {
        match fault {
            JoinFault::Read => Stop::Read,
            JoinFault::Write => Stop::Write,
            JoinFault::TooManyTurns => Stop::TooManyTurns,
            _ => Stop::Join(fault),
        }
    }
}
