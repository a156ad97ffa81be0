//! What a call answers, as a number.
ghost use Rattle.std.specs.Prelude.{◌≡◌, ◌≤◌, ◌+◌};
ghost use Rattle.vp_calls.specs.Answers.{number_of, number_of_sheet};

use vp_glyph::SheetError;

pub const OK: u32 = 0;

pub const NO_MEMORY: u32 = 1;

pub const NO_LANGUAGE: u32 = 2;

pub const NO_PRINTER: u32 = 3;

pub const PENDING: u32 = 4;
/// The answers of a sheet that is none: its first offence's number behind these.
pub const SHEET_A: u32 = 10;

pub const SHEET_B: u32 = 20;

/// Why a printer isn't made.
#[derive(Debug, Drop)]
pub enum Refusal {
    Memory,
    /// There is no such language.
    Language,
    /// The bytes of font A's sheet are none.
    SheetA(SheetError),
    /// The bytes of font B's sheet are none.
    SheetB(SheetError),
}

/// The number of a sheet's refusal, behind `first`.
fn number_of_sheet(first: u32, error: &SheetError) -> u32
    requires { first ≤ SHEET_B }
    ensures { result ≡ number_of_sheet first error.now }
{
    match error.number() {
        Some(number) => first + u32::from(number),
        None => NO_MEMORY,
    }
}

impl Refusal {
    /// The number that C is answered.
    pub fn number(&self) -> u32
        ensures { result ≡ number_of self.now }
    {
        match self {
            Refusal::Memory => NO_MEMORY,
            Refusal::Language => NO_LANGUAGE,
            Refusal::SheetA(error) => number_of_sheet(SHEET_A, error),
            Refusal::SheetB(error) => number_of_sheet(SHEET_B, error),
        }
    }
}
