//! The modules of a two-dimensional symbol as ink: each a box of dots.
ghost use Rattle.std.specs.Prelude.{◌≡◌, ◌*◌, ◌/◌, ◌<◌, ◌≤◌};
ghost use Rattle.vp_dots.specs.Dots.{shifted};
ghost use Rattle.vp_dots.specs.Painting.{Painted};
ghost use Rattle.vp_field.specs.Matrices.{is_dark, matrix_width, matrix_height};

use vp_dots::{Ink, Op, dot_of, fill_moved};
use vp_format::MatrixSymbol;

/// A symbol, and the bytes of its rows of modules, from the top.
#[derive(Drop)]
pub struct Modules<'a> {
    pub symbol: MatrixSymbol,
    pub bytes: &'a [u8],
    ghost wide_some: { 0 < symbol.wide },
    ghost high_some: { 0 < symbol.high },
}

impl Modules<'_> {
    /// Whether the module in a row and a column is dark: none is outside.
    #[tactic(auto, unfolding(crate::specs::Matrices::is_dark))]
    fn is_dark(&self, row: u32, column: u32) -> bool
        ensures { result ≡ is_dark self.now.symbol self.now.bytes.now row column }
    {
        let columns = u32::from(self.symbol.columns);
        let row_dots = 8 * ((columns + 7) / 8);
        row < u32::from(self.symbol.rows)
            && column < columns
            && dot_of(self.bytes, row_dots as u128 * row as u128 + column as u128)
    }

    /// Dots in a row.
    fn width(&self) -> u32
        ensures { result ≡ matrix_width self.now.symbol }
    {
        u32::from(self.symbol.wide) * u32::from(self.symbol.columns)
    }

    /// Dots in a column.
    fn height(&self) -> u32
        ensures { result ≡ matrix_height self.now.symbol }
    {
        u32::from(self.symbol.high) * u32::from(self.symbol.rows)
    }
}

/// Paints a row of modules run by run of dark ones, none where the symbol has no such row.
fn paint_modules(modules: &Modules<'_>, line: u32, op: Op, at: i64, row: &mut [u8])
    ensures { Painted op (shifted at (λ x. is_dark modules.now.symbol modules.now.bytes.now line
        (x / modules.now.symbol.wide))) row.old row.new }
{
    let wide = u32::from(modules.symbol.wide);
    let columns = u32::from(modules.symbol.columns);
    let mut from = 0;
    for column in 0..columns {
        if !modules.is_dark(line, column) {
            fill_moved(op, at, from * wide, column * wide, row);
            from = column + 1;
        }
    }
    fill_moved(op, at, from * wide, columns * wide, row);
}

impl Ink for Modules<'_> {
    ghost use Rattle.vp_field.specs.Matrices.{matrix_width, matrix_height, module_dot, module_inside};

    ghost width = { λ s. matrix_width s.symbol };

    ghost height = { λ s. matrix_height s.symbol };

    ghost ink_at = { λ s x y. module_dot s.symbol s.bytes.now x y };

    ghost outside = { λ s x y h. module_inside s.symbol s.bytes.now s.wide_some s.high_some x y h };

    fn size(&self) -> (u32, u32) {
        (self.width(), self.height())
    }

    fn ink(&self, x: u32, y: u32) -> bool {
        self.is_dark(
            y / u32::from(self.symbol.high),
            x / u32::from(self.symbol.wide),
        )
    }

    fn paint_row(&self, y: u32, op: Op, at: i64, row: &mut [u8]) {
        paint_modules(self, y / u32::from(self.symbol.high), op, at, row);
    }

    fn alike(&self, y: u32) -> (u32, u32) {
        let high = u32::from(self.symbol.high);
        let first = y / high * high;
        (first, first.saturating_add(high - 1))
    }
}
