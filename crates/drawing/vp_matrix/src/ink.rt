//! A symbol as ink: each module a box of dots.

ghost use Rattle.std.specs.Prelude.{◌≡◌, ◌*◌, ◌<◌, ◌≤◌};
ghost use Rattle.vp_matrix.specs.declared.matrix.TheConstants.{MOST_COLUMNS, MOST_ROWS};
ghost use Rattle.vp_matrix.specs.Inks.{across, down};

use crate::matrix::Matrix;
use crate::runs::{paint_modules, paint_parts};
use std::alloc::AllocError;
use vp_dots::{Ink, Op};

/// A symbol as ink, without a quiet zone.
pub struct MatrixInk<'a> {
    pub symbol: &'a Matrix,
    /// Dots in a row of a module.
    pub wide: u32,
    /// Dots in a column of a module.
    pub high: u32,
    ghost wide_some: { 0 < wide },
    ghost wide_most: { wide ≤ 64 },
    ghost high_some: { 0 < high },
    ghost high_most: { high ≤ 1000 },
}

impl Copy for MatrixInk<'_> {}

impl Clone for MatrixInk<'_> {
    fn clone(&self) -> Result<Self, AllocError> {
        Ok(*self)
    }
}

impl Matrix {
    /// The symbol with modules of `wide` dots, 1 to 64, by `high`, 1 to 1,000.
    pub fn scaled(&self, wide: u32, high: u32) -> MatrixInk<'_>
        requires wide_some { 0 < wide }
        requires wide_most { wide ≤ 64 }
        requires high_some { 0 < high }
        requires high_most { high ≤ 1000 }
        ensures symbol { result.symbol.now ≡ self.now }
        ensures wide { result.wide ≡ wide }
        ensures high { result.high ≡ high }
    {
        MatrixInk {
            symbol: self,
            wide,
            high,
        }
    }
}

impl MatrixInk<'_> {
    /// Dots in a row.
    pub fn width(&self) -> u32
        ensures width { result ≡ across self.now.symbol.now self.now.wide }
        ensures most { result ≤ 64 * MOST_COLUMNS }
    {
        self.wide * self.symbol.columns() as u32
    }

    /// Dots in a column.
    pub fn height(&self) -> u32
        ensures height { result ≡ down self.now.symbol.now self.now.high }
        ensures most { result ≤ 1000 * MOST_ROWS }
    {
        self.high * self.symbol.rows() as u32
    }
}

impl Ink for MatrixInk<'_> {
    ghost use Rattle.vp_matrix.specs.Inks.{across, down, ink_of, no_ink_outside};

    ghost width = { λ s. across s.symbol.now s.wide };

    ghost height = { λ s. down s.symbol.now s.high };

    ghost ink_at = { λ s x y. ink_of s.symbol.now s.wide s.high x y };

    ghost outside = { λ s x y h. no_ink_outside s.symbol.now s.wide s.high s.wide_some s.high_some x y h };

    fn size(&self) -> (u32, u32) {
        (self.width(), self.height())
    }

    fn ink(&self, x: u32, y: u32) -> bool {
        self.symbol
            .is_dark((y / self.high) as usize, (x / self.wide) as usize)
    }

    fn paint_row(&self, y: u32, op: Op, at: i64, row: &mut [u8]) {
        let line = (y / self.high) as usize;
        match self.symbol {
            Matrix::DataMatrix(_) | Matrix::Aztec(_) => {
                paint_modules(self.symbol, line, self.wide, op, at, row);
            }
            Matrix::Pdf417(symbol) => paint_parts(symbol, line, self.wide, op, at, row),
        }
    }

    fn alike(&self, y: u32) -> (u32, u32) {
        let first = y / self.high * self.high;
        (first, first.saturating_add(self.high - 1))
    }
}
