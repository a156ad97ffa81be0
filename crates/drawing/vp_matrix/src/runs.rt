//! Rows of modules, painted run by run of dark ones.

ghost use Rattle.std.specs.Prelude.{◌≡◌, ◌-◌, ◌/◌, ◌==◌, ◌<◌, ◌≤◌};
ghost use Rattle.std.specs.Int.{bit_at};
ghost use Rattle.vp_dots.specs.Dots.{shifted};
ghost use Rattle.vp_dots.specs.Painting.{Painted};
ghost use Rattle.vp_matrix.specs.declared.matrix.Matrix.TheVariants as symbols;
ghost use Rattle.vp_matrix.specs.Symbols.{is_dark};

use crate::matrix::Matrix;
use vp_dots::{Op, fill_moved};
use vp_pdf417::Pdf417;

/// Paints a row of modules that are `wide` dots wide, none where the symbol has no such row.
pub(crate) fn paint_modules(
    symbol: &Matrix,
    line: usize,
    wide: u32,
    op: Op,
    at: i64,
    row: &mut [u8],
)
    requires some { 0 < wide }
    requires most { wide ≤ 64 }
    ensures { Painted op (shifted at (λ x. is_dark symbol.now line (x / wide))) row.old row.new }
{
    let columns = symbol.columns() as u32;
    let mut from = 0;
    for column in 0..columns {
        if !symbol.is_dark(line, column as usize) {
            fill_moved(op, at, from * wide, column * wide, row);
            from = column + 1;
        }
    }
    fill_moved(op, at, from * wide, columns * wide, row);
}

/// Whether module `i` of a part of PDF417 is dark.
fn is_dark_in(part: u32, i: u32) -> bool
    requires { i < 17 }
    ensures { result ≡ (bit_at part (16 - i) == 1) }
{
    part >> (16 - i) & 1 == 1
}

/// Paints the same of PDF417, where the 17 modules of a codeword are found at once.
pub(crate) fn paint_parts(symbol: &Pdf417, line: usize, wide: u32, op: Op, at: i64, row: &mut [u8])
    requires some { 0 < wide }
    requires most { wide ≤ 64 }
    ensures { Painted op (shifted at (λ x. is_dark (symbols.Pdf417 symbol.now) line (x / wide)))
        row.old row.new }
{
    if line >= symbol.size().rows {
        return;
    }
    let parts = symbol.parts() as u32;
    let mut from = 0;
    for k in 0..parts {
        let part = symbol.part(line, k as usize);
        for i in 0..17u32 {
            if !is_dark_in(part, i) {
                fill_moved(op, at, from * wide, (17 * k + i) * wide, row);
                from = 17 * k + i + 1;
            }
        }
    }
    fill_moved(op, at, from * wide, (17 * parts + 1) * wide, row);
}
