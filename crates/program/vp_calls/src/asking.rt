//! Printers are stepped and asked, and begun anew.
ghost use Rattle.std.specs.Prelude.{◌≡◌};
ghost use Rattle.vp_calls.specs.Printing.{IsBegunAnew, IsEnd, IsOfPending, IsOfHeld};
ghost use Rattle.vp_calls.specs.Steps.{IsStep};

use crate::answer::{OK, PENDING};
use crate::fault::{FaultOfC, NO_FAULT};
use crate::held::HeldNow;
use crate::progress::Progress;
use vp_dots::Small;
use vp_engine::Printer;

/// One step of a printer.
pub fn step<A: Small>(printer: &mut Printer<A>, input: &[u8], output: &mut [u8]) -> Progress
    ensures { IsStep printer.old printer.new input.now output.old output.new result }
{
    Progress::of(printer.step(input, output))
}

/// Begins a printer anew.
pub fn begin_anew<A: Small>(printer: &mut Printer<A>)
    ensures { IsBegunAnew printer.old printer.new }
{
    printer.begin_anew();
}

/// Whether paper is still to be put out.
pub fn pending<A: Small>(printer: &Printer<A>) -> u32
    ensures { IsOfPending printer.now result }
{
    if printer.pending() { PENDING } else { OK }
}

/// Whether paper is still to be put out, and, where none is, the fault of ending here.
pub fn ending<A: Small>(printer: &Printer<A>) -> (u32, FaultOfC)
    ensures { IsEnd printer.now result.1 result.0 }
{
    if printer.pending() {
        return (PENDING, NO_FAULT);
    }
    match printer.finish() {
        Ok(()) => (OK, NO_FAULT),
        Err(fault) => (OK, FaultOfC::of(fault)),
    }
}

/// What a printer holds.
pub fn held_now<A: Small>(printer: &Printer<A>) -> HeldNow
    ensures { IsOfHeld printer.now result }
{
    HeldNow::of(printer.held())
}
