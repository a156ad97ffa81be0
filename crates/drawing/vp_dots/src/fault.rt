//! Why a stream is refused, by number and in words.
ghost use Rattle.std.specs.Prelude.{◌≡◌};
ghost use Rattle.vp_dots.specs.Faults.{number_of};

use thiserror::Error;

/// Why the data of a symbol is refused.
#[derive(Clone, Copy, Debug, PartialEq, Eq, Error)]
pub enum Why {
    /// There are no data.
    #[error("empty")]
    Empty,
    /// The symbol has no such character.
    #[error("character")]
    Char,
    /// There are too few or too many data.
    #[error("length")]
    Length,
    /// The code set in force doesn't allow this.
    #[error("set")]
    CodeSet,
    /// The printer doesn't draw this kind of symbol.
    #[error("unsupported")]
    Unsupported,
}

/// What is wrong with a stream.
#[derive(Clone, Copy, Debug, PartialEq, Eq, Error)]
pub enum Fault {
    /// No command begins with this lead and the byte after it.
    #[error("unknown command {0:02X} {1:02X}")]
    Unknown(u8, u8),
    /// The data of a symbol can't be encoded.
    #[error("symbol: {0}")]
    Symbol(Why),
    /// The data of a symbol are more than any symbol holds.
    #[error("symbol too long")]
    SymbolTooLong,
    /// The symbol is wider than the line.
    #[error("symbol too wide")]
    SymbolTooWide,
    /// A field is closed, and the format holds as many as it can.
    #[error("too many fields")]
    FieldsFull,
    /// A byte of a field is kept, and the format holds as many as it can.
    #[error("too much field data")]
    StoreFull,
    /// The codes of a picture can't be read.
    #[error("bad graphic")]
    Graphic,
    /// The stream ends inside a command.
    #[error("input ends inside a command")]
    Truncated,
    /// The stream ends before all is printed.
    #[error("input ends before printing")]
    Unprinted,
}

impl Fault {
    /// The number by which a fault is reported, 1 to 9.
    pub fn number(self) -> u8
        ensures { result ≡ number_of self }
    {
        match self {
            Fault::Unknown(_, _) => 1,
            Fault::Symbol(_) => 2,
            Fault::SymbolTooLong => 3,
            Fault::SymbolTooWide => 4,
            Fault::FieldsFull => 5,
            Fault::StoreFull => 6,
            Fault::Graphic => 7,
            Fault::Truncated => 8,
            Fault::Unprinted => 9,
        }
    }
}
