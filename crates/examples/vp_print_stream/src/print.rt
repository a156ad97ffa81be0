//! A stream of any length, printed as it is read.
ghost use Rattle.std.specs.Prelude.{IfOk};
ghost use Rattle.vp_engine.specs.Setups.{setup_of};
ghost use Rattle.vp_print_stream.specs.Printed.{IsPrinted};

use std::alloc::Global;
use std::io;
use std::io::{ErrorKind, Read};
use vp_dots::Fault;
use vp_engine::laws::nothing_follows_a_fault;
use vp_engine::{Language, Printer, State};
use vp_glyph::Sheets;

/// Reads to the end, or to the stream's first fault, and gives the paper of what was read, with that fault or
/// that of ending there. It takes at most 1,000,000,000 steps; where these are too few it is `FileTooLarge`.
pub fn print<R: Read>(
    alloc: Global,
    language: Language,
    sheets: Sheets,
    reader: &mut R,
) -> io::Result<(Vec<u8>, Option<Fault>)>
    ensures { IfOk result (λ r. IsPrinted (R.remaining reader.old) (R.remaining reader.new)
        (setup_of language sheets) r.0.items r.1) }
{
    nothing_follows_a_fault();
    let mut printer = Printer::new(alloc, language, sheets)?;
    let mut paper = Vec::new(alloc);
    let mut input = [0; 512];
    let mut output = [0; 512];
    let mut from = 0;
    let mut to = 0;
    'steps: for _step in 0..1_000_000_000u32 {
        let step = printer.step(&input[from..to], &mut output);
        paper.extend_from_slice(&output[..step.put])?;
        from += step.taken;
        match step.state {
            State::Stopped(fault) => return Ok((paper, Some(fault))),
            State::Room => {}
            State::More => {
                to = reader.read(&mut input)?;
                from = 0;
                if to == 0 {
                    return Ok((paper, printer.finish().err()));
                }
            }
        }
    }
    Err(io::Error::from(ErrorKind::FileTooLarge))
}
