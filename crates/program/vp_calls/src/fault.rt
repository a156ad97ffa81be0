//! A fault as C is told it.
ghost use Rattle.std.specs.Prelude.{◌≡◌, Option, None, Some};
ghost use Rattle.vp_calls.specs.Faults.{in_c, why_of, from_c};

use vp_dots::{Fault, Why};

/// Its number, and what else there is to say of it; all 0 where there is none.
#[repr(C)]
#[derive(Clone, Copy, Debug, PartialEq, Eq)]
pub struct FaultOfC {
    number: u8,
    why: u8,
    lead: u8,
    byte: u8,
}

/// No fault.
pub const NO_FAULT: FaultOfC = FaultOfC {
    number: 0,
    why: 0,
    lead: 0,
    byte: 0,
};

/// The number of why the data of a symbol are refused.
fn number_of_why(why: Why) -> u8
    ensures { result ≡ why_of why }
{
    match why {
        Why::Empty => 1,
        Why::Char => 2,
        Why::Length => 3,
        Why::CodeSet => 4,
        Why::Unsupported => 5,
    }
}

impl FaultOfC {
    /// A fault's.
    pub fn of(fault: Fault) -> Self
        ensures { result ≡ in_c fault }
    {
        let number = fault.number();
        match fault {
            Fault::Unknown(lead, byte) => FaultOfC {
                number,
                why: 0,
                lead,
                byte,
            },
            Fault::Symbol(why) => FaultOfC {
                number,
                why: number_of_why(why),
                lead: 0,
                byte: 0,
            },
            _ => FaultOfC {
                number,
                why: 0,
                lead: 0,
                byte: 0,
            },
        }
    }

    /// The fault that it tells of, where it tells of one.
    pub fn fault(self) -> Option<Fault>
        ensures { result ≡ from_c self }
    {
        match self.number {
            1 => Some(Fault::Unknown(self.lead, self.byte)),
            2 => match self.why {
                1 => Some(Fault::Symbol(Why::Empty)),
                2 => Some(Fault::Symbol(Why::Char)),
                3 => Some(Fault::Symbol(Why::Length)),
                4 => Some(Fault::Symbol(Why::CodeSet)),
                5 => Some(Fault::Symbol(Why::Unsupported)),
                _ => None,
            },
            3 => Some(Fault::SymbolTooLong),
            4 => Some(Fault::SymbolTooWide),
            5 => Some(Fault::FieldsFull),
            6 => Some(Fault::StoreFull),
            7 => Some(Fault::Graphic),
            8 => Some(Fault::Truncated),
            9 => Some(Fault::Unprinted),
            _ => None,
        }
    }
}
