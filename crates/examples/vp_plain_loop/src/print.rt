//! Bytes in memory, printed by a loop of which it is proved that it is safe and ends.
ghost use Rattle.std.specs.Prelude.{◌≡◌, [], OnOk};

use std::alloc::AllocError;
use vp_dots::Fault;
use vp_engine::{Printer, State};

/// Puts out all that is pending.
fn drain(printer: &mut Printer, paper: &mut Vec<u8>) -> Result<(), AllocError>
    ensures { OnOk result (printer.new.pending ≡ []) }
{
    let mut output = [0; 4096];
    'rooms: while printer.pending() {
        let step = printer.step(&[], &mut output);
        paper.extend_from_slice(&output[..step.put])?;
    }
    Ok(())
}

/// Prints bytes up to their end or their first fault, and answers that fault or the one of ending there.
pub fn print(
    printer: &mut Printer,
    bytes: &[u8],
    paper: &mut Vec<u8>,
) -> Result<Option<Fault>, AllocError> {
    let mut output = [0; 4096];
    let mut left = bytes;
    'steps: loop {
        let step = printer.step(left, &mut output);
        paper.extend_from_slice(&output[..step.put])?;
        left = &left[step.taken..];
        match step.state {
            State::More => return Ok(printer.finish().err()),
            State::Room => drain(printer, paper)?,
            State::Stopped(fault) => return Ok(Some(fault)),
        }
    }
}
