//! The symbol of bytes, of any kind.

ghost use Rattle.std.specs.Prelude.{◌≡◌, ◌≤◌, ◌&&◌, nat_lt, OnOk, IfOk, IfErr, Some, None};
ghost use Rattle.vp_data_matrix.specs.Encoding.{dark};
ghost use Rattle.vp_pdf417.specs.Modules.{across, module_of as pdf417_module};
ghost use Rattle.vp_matrix.specs.Symbols.{columns, rows, is_dark};
ghost use Rattle.vp_matrix.specs.Encoding.{aztec_fault, pdf417_fault, matrix_refusal, IsMatrix};

use crate::code::MatrixCode;
use vp_aztec::{Aztec, Refusal as AztecRefusal};
use vp_data_matrix::DataMatrix;
use vp_dots::{Fault, Why};
use vp_pdf417::{Pdf417, Refusal as Pdf417Refusal};

/// The modules of the widest row, which PDF417 has.
pub const MOST_COLUMNS: usize = 579;

/// The modules of the highest column, which Aztec has.
pub const MOST_ROWS: usize = 151;

/// A two-dimensional symbol.
#[derive(Drop)]
pub enum Matrix {
    DataMatrix(DataMatrix),
    Aztec(Aztec),
    Pdf417(Pdf417),
}

/// Whether a module of a Data Matrix symbol is dark: none is outside.
fn data_matrix_dark(symbol: &DataMatrix, row: usize, column: usize) -> bool
    ensures { result ≡ (nat_lt row symbol.now.size.rows
        && (nat_lt column symbol.now.size.columns && dark symbol.now row column)) }
{
    let size = symbol.size();
    row < size.rows && column < size.columns && symbol.is_dark(row, column)
}

/// Whether a module of a PDF417 symbol is dark: none is outside.
fn pdf417_dark(symbol: &Pdf417, row: usize, column: usize) -> bool
    ensures { result ≡ (nat_lt row symbol.now.size.rows && (nat_lt column (across symbol.now.size)
        && pdf417_module symbol.now.size symbol.now.words row column)) }
{
    row < symbol.size().rows && column < symbol.across() && symbol.is_dark(row, column)
}

impl Matrix {
    /// Modules in a row: at most `MOST_COLUMNS`.
    #[tactic(auto, unfolding(crate::specs::Symbols::columns))]
    pub fn columns(&self) -> usize
        ensures columns { result ≡ columns self.now }
        ensures most { result ≤ MOST_COLUMNS }
    {
        match self {
            Matrix::DataMatrix(symbol) => symbol.size().columns,
            Matrix::Aztec(symbol) => symbol.side(),
            Matrix::Pdf417(symbol) => symbol.across(),
        }
    }

    /// Rows of modules: at most `MOST_ROWS`.
    #[tactic(auto, unfolding(crate::specs::Symbols::rows))]
    pub fn rows(&self) -> usize
        ensures rows { result ≡ rows self.now }
        ensures most { result ≤ MOST_ROWS }
    {
        match self {
            Matrix::DataMatrix(symbol) => symbol.size().rows,
            Matrix::Aztec(symbol) => symbol.side(),
            Matrix::Pdf417(symbol) => symbol.size().rows,
        }
    }

    /// Whether the module in a row and a column is dark: none is outside.
    pub fn is_dark(&self, row: usize, column: usize) -> bool
        ensures { result ≡ is_dark self.now row column }
    {
        match self {
            Matrix::DataMatrix(symbol) => data_matrix_dark(symbol, row, column),
            Matrix::Aztec(symbol) => symbol.is_dark(column, row),
            Matrix::Pdf417(symbol) => pdf417_dark(symbol, row, column),
        }
    }
}

/// Why bytes have no Aztec symbol, as a fault.
fn aztec_fault(why: AztecRefusal) -> Fault
    ensures { result ≡ aztec_fault why }
{
    match why {
        AztecRefusal::Empty => Fault::Symbol(Why::Empty),
        AztecRefusal::Percent | AztecRefusal::Layers => Fault::Symbol(Why::Unsupported),
        AztecRefusal::TooLong => Fault::SymbolTooLong,
    }
}

/// Why bytes have no PDF417 symbol, as a fault.
fn pdf417_fault(why: Pdf417Refusal) -> Fault
    ensures { result ≡ pdf417_fault why }
{
    match why {
        Pdf417Refusal::Empty => Fault::Symbol(Why::Empty),
        Pdf417Refusal::Level => Fault::Symbol(Why::Unsupported),
        Pdf417Refusal::TooLong | Pdf417Refusal::Shape => Fault::SymbolTooLong,
    }
}

/// The symbol of bytes: that of Data Matrix (ISO/IEC 16022, ECC 200), Aztec (ISO/IEC 24778) or PDF417
/// (ISO/IEC 15438), as it is asked for.
///
/// Bytes without a symbol are refused, in each kind's own order: none at all (`Symbol(Empty)`); of Data
/// Matrix, one that may not follow the lead (`Symbol(Char)`); where a percentage of check codewords, a number
/// of layers or a level is asked for that doesn't exist, all (`Symbol(Unsupported)`); and too many for any
/// symbol, or for the shape, the layers, or the columns and rows that are asked for (`SymbolTooLong`).
pub fn encode(code: MatrixCode, src: &[u8]) -> Result<Matrix, Fault>
    ensures accepted { OnOk result (matrix_refusal code src.now ≡ None) }
    ensures refused { IfErr result (λ fault. matrix_refusal code src.now ≡ Some fault) }
    ensures symbol { IfOk result (IsMatrix code src.now) }
{
    match code {
        MatrixCode::DataMatrix { lead, shape } => match vp_data_matrix::encode(src, lead, shape) {
            Ok(symbol) => Ok(Matrix::DataMatrix(symbol)),
            Err(fault) => Err(fault),
        },
        MatrixCode::Aztec { asked } => match vp_aztec::encode(src, asked) {
            Ok(symbol) => Ok(Matrix::Aztec(symbol)),
            Err(why) => Err(aztec_fault(why)),
        },
        MatrixCode::Pdf417 { asked } => match vp_pdf417::encode(src, asked) {
            Ok(symbol) => Ok(Matrix::Pdf417(symbol)),
            Err(why) => Err(pdf417_fault(why)),
        },
    }
}
