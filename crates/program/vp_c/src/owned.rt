//! The printer that a handle owns.
ghost use Rattle.std.specs.Prelude.{◌≡◌};
ghost use Rattle.vp_calls.specs.Printing.{IsBegunAnew};
ghost use Rattle.vp_calls.specs.Steps.{IsStep};

use std::marker::Model;
use vp_calls::{Progress, begin_anew, step};
use vp_engine::Printer;

/// A printer over the C library's heap.
pub struct Owned {
    printer: Printer,
}

/// Its memory is given back here, whoever held it.
impl Drop for Owned {
    fn drop(self) {
        let Owned { printer: _ } = self;
    }
}

impl Model for Owned {
    ghost use Rattle.vp_engine.specs.Stands.{Engine};

    ghost Value = { Engine };

    ghost view = { λ s. s.printer };
}

impl Owned {
    /// One of a printer.
    pub fn of(printer: Printer) -> Owned
        ensures { result ≡ printer }
    {
        Owned { printer }
    }

    /// The printer.
    pub fn printer(&self) -> &Printer
        ensures { result.now ≡ self.now }
    {
        &self.printer
    }

    /// Begins the printer anew.
    pub fn begin_anew(&mut self)
        ensures { IsBegunAnew self.old self.new }
    {
        begin_anew(&mut self.printer);
    }

    /// One step of the printer.
    pub fn step(&mut self, input: &[u8], output: &mut [u8]) -> Progress
        ensures { IsStep self.old self.new input.now output.old output.new result }
    {
        step(&mut self.printer, input, output)
    }
}
