//! Printers are stepped and asked, and begun anew.
ghost use Rattle.std.specs.Prelude.{◌≡◌};
ghost use Rattle.vp_calls.specs.Printing.{IsFinished, IsPendingAnswer, IsHeld, IsMemory, IsReset};
ghost use Rattle.vp_calls.specs.Steps.{IsStepOf};

use crate::handle::Handle;
use std::alloc::Global;
use vp_calls::{
    FaultOfC, HeldNow, NO_FAULT, NO_PRINTER, NOTHING, NOTHING_HELD, OK, Progress, ending, held_now,
    pending,
};

/// Takes input and puts out paper, until the input ends, the output is full or a fault comes.
#[unsafe(no_mangle)]
pub extern "C" fn vp_step(
    alloc: Global,
    printer: &mut Handle,
    input: &[u8],
    output: &mut [u8],
    done: &mut Progress,
) -> u32
    ensures { IsStepOf printer.old.printer printer.new.printer input.now output.old output.new done.new
        result }
{
    let Some(mut it) = printer.take(alloc) else {
        *done = NOTHING;
        return NO_PRINTER;
    };
    *done = it.step(input, output);
    *printer = Handle::of(it);
    OK
}

/// Begins a printer anew: it stands as one that was just made, with its sheets.
#[unsafe(no_mangle)]
pub extern "C" fn vp_reset(alloc: Global, printer: &mut Handle) -> u32
    ensures { IsReset printer.old.printer printer.new.printer result }
{
    let Some(mut it) = printer.take(alloc) else {
        return NO_PRINTER;
    };
    it.begin_anew();
    *printer = Handle::of(it);
    OK
}

/// Tells the fault that stopped a printer, or that of ending here, where nothing is pending.
#[unsafe(no_mangle)]
pub extern "C" fn vp_finish(alloc: Global, printer: &mut Handle, fault: &mut FaultOfC) -> u32
    ensures same { printer.new.printer ≡ printer.old.printer }
    ensures told { IsFinished printer.old.printer fault.new result }
{
    let Some(it) = printer.take(alloc) else {
        *fault = NO_FAULT;
        return NO_PRINTER;
    };
    let (answer, told) = ending(it.printer());
    *fault = told;
    *printer = Handle::of(it);
    answer
}

/// Tells whether paper is still to be put out.
#[unsafe(no_mangle)]
pub extern "C" fn vp_pending(alloc: Global, printer: &mut Handle) -> u32
    ensures same { printer.new.printer ≡ printer.old.printer }
    ensures told { IsPendingAnswer printer.old.printer result }
{
    let Some(it) = printer.take(alloc) else {
        return NO_PRINTER;
    };
    let answer = pending(it.printer());
    *printer = Handle::of(it);
    answer
}

/// Tells what a printer holds.
#[unsafe(no_mangle)]
pub extern "C" fn vp_held(alloc: Global, printer: &mut Handle, held: &mut HeldNow) -> u32
    ensures same { printer.new.printer ≡ printer.old.printer }
    ensures told { IsHeld printer.old.printer held.new result }
{
    let Some(it) = printer.take(alloc) else {
        *held = NOTHING_HELD;
        return NO_PRINTER;
    };
    *held = held_now(it.printer());
    *printer = Handle::of(it);
    OK
}

/// Tells how many bytes of memory a printer holds: its lines, pages, bands, stores and sheets.
#[unsafe(no_mangle)]
pub extern "C" fn vp_memory(alloc: Global, printer: &mut Handle, bytes: &mut usize) -> u32
    ensures same { printer.new.printer ≡ printer.old.printer }
    ensures told { IsMemory printer.old.printer bytes.new result }
{
    let Some(it) = printer.take(alloc) else {
        *bytes = 0;
        return NO_PRINTER;
    };
    *bytes = it.printer().memory();
    *printer = Handle::of(it);
    OK
}
