//! The symbol of bytes.

ghost use Rattle.std.specs.Prelude.{◌≡◌, ℕ, ◌<◌, ◌≤◌, List, [], length, slice_index_or, OnOk, IfOk, IfErr, Some, None};
ghost use Rattle.vp_dots.specs.Dots.{dot};
ghost use Rattle.vp_data_matrix.specs.Sizes.{IsSound};
ghost use Rattle.vp_data_matrix.specs.Placement.{places};
ghost use Rattle.vp_data_matrix.specs.Modules.{matrix_of, matrix_module, symbol_module};
ghost use Rattle.vp_data_matrix.specs.Grids.{IsMatrix, IsLaid};
ghost use Rattle.vp_data_matrix.specs.Encoding.{refusal, codewords_in, module_of, dark, Encodes};

use crate::block::codewords;
use crate::grid::{Grid, Matrix};
use crate::message::{Lead, data_words, message_length};
use crate::size::{Shape, Size};
use std::marker::Model;
use vp_dots::{Fault, Op, Why, dot_of, paint_dot};

/// The bytes of the longest row.
pub const ROW: usize = 18;

/// The most rows.
pub const ROWS: usize = 144;

/// A Data Matrix symbol.
#[derive(Drop)]
pub struct DataMatrix {
    size: Size,
    rows: [[u8; ROW]; ROWS],
}

impl Model for DataMatrix {
    ghost use Rattle.vp_data_matrix.specs.Sizes.{IsSound};
    ghost use Rattle.vp_data_matrix.specs.Encoding.{DataMatrixSymbol};

    ghost Value = { DataMatrixSymbol };

    ghost view = { λ s. record { size = s.size; rows = s.rows } };

    ghost inverse = { λ v. record { size = v.size; rows = v.rows } };

    ghost invariant = { λ s. IsSound s.size };
}

impl DataMatrix {
    /// The size.
    pub fn size(&self) -> Size
        ensures size { result ≡ self.now.size }
        ensures sound { IsSound result }
    {
        self.size
    }

    /// Whether the module in a row and a column is dark: none is outside.
    pub fn is_dark(&self, row: usize, column: usize) -> bool
        ensures { row < ROWS → result ≡ dark self.now row column }
    {
        row < ROWS && dot_of(&self.rows[row], column as u128)
    }

    /// The rows of modules.
    pub(crate) fn rows(&self) -> &[[u8; ROW]; ROWS]
        ensures { result.now ≡ self.now.rows }
    {
        &self.rows
    }
}

/// The matrix of a size.
fn matrix_of(size: Size) -> Matrix
    requires { IsSound size }
    ensures matrix { result ≡ matrix_of size }
    ensures sound { IsMatrix result }
{
    Matrix {
        rows: size.matrix_rows(),
        columns: size.matrix_columns(),
    }
}

/// Whether a module of the symbol is dark.
#[tactic(auto, unfolding(crate::specs::Modules::symbol_module))]
fn is_dark(size: Size, grid: &Grid, row: usize, column: usize) -> bool
    requires sound { IsSound size }
    requires matrix { grid.now.matrix ≡ matrix_of size }
    requires row { row < size.rows }
    requires column { column < size.columns }
    ensures { (all : List ℕ) → IsLaid all (places (matrix_of size)) grid.now
        → result ≡ symbol_module size (matrix_module (matrix_of size) all) row column }
{
    let y = row % (size.region_rows + 2);
    let x = column % (size.region_columns + 2);
    if x == 0 || y == size.region_rows + 1 {
        return true;
    }
    if y == 0 {
        return x % 2 == 0;
    }
    if x == size.region_columns + 1 {
        return y % 2 == 1;
    }
    grid.is_dark(
        row / (size.region_rows + 2) * size.region_rows + (y - 1),
        column / (size.region_columns + 2) * size.region_columns + (x - 1),
    )
}

/// A row of modules.
fn line(size: Size, grid: &Grid, row: usize) -> [u8; ROW]
    requires sound { IsSound size }
    requires matrix { grid.now.matrix ≡ matrix_of size }
    requires row { row < size.rows }
    ensures { (all : List ℕ) → IsLaid all (places (matrix_of size)) grid.now
        → (column : ℕ) → column < size.columns → dot result column
        ≡ symbol_module size (matrix_module (matrix_of size) all) row column }
{
    let mut line = [0; ROW];
    for column in 0..size.columns {
        if is_dark(size, grid, row, column) {
            paint_dot(Op::Black, column as u128, &mut line);
        }
    }
    line
}

/// The symbol of codewords.
#[tactic(auto, unfolding(crate::specs::Encoding::module_of))]
fn finished(size: Size, all: &[u8]) -> DataMatrix
    requires { IsSound size }
    ensures size { result.size ≡ size }
    ensures modules { (row column : ℕ) → row < size.rows → column < size.columns
        → dark result row column ≡ module_of size all.now row column }
{
    let grid = Grid::of(matrix_of(size), all);
    let mut rows = [[0; ROW]; ROWS];
    for row in 0..size.rows {
        rows[row] = line(size, &grid, row);
    }
    DataMatrix { size, rows }
}

/// The symbol of bytes behind a lead (ISO/IEC 16022, ECC 200), in the smallest size of a shape that holds
/// them: at most 3,116 digits, 2,335 capital or small letters, or 1,555 of any bytes. They are encoded as a
/// whole in the scheme that takes the fewest codewords: ASCII, C40, Text, X12, EDIFACT or base 256.
///
/// Bytes without a symbol are refused: none at all (`Symbol(Empty)`), one that may not follow the lead
/// (`Symbol(Char)`), or too many for the shape (`SymbolTooLong`).
#[tactic(auto, unfolding(crate::specs::Encoding::codewords_in))]
pub fn encode(src: &[u8], lead: Lead, shape: Shape) -> Result<DataMatrix, Fault>
    ensures accepted { OnOk result (refusal lead shape src.now ≡ None) }
    ensures refused { IfErr result (λ fault. refusal lead shape src.now ≡ Some fault) }
    ensures symbol { IfOk result (Encodes lead shape src.now) }
{
    if src.is_empty() {
        return Err(Fault::Symbol(Why::Empty));
    }
    if !lead.may_follow_all(src) {
        return Err(Fault::Symbol(Why::Char));
    }
    let Some(k) = shape.smallest(message_length(lead, src)) else {
        return Err(Fault::SymbolTooLong);
    };
    let size = Size::at(k);
    let words = data_words(lead, src, size.words);
    let all = codewords(size, words.as_slice());
    Ok(finished(size, all.as_slice()))
}
