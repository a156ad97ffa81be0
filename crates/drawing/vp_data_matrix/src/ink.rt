//! A symbol as ink: each module a square of dots.

ghost use Rattle.std.specs.Prelude.{◌≡◌, ◌<◌, ◌≤◌};

use crate::size::Size;
use crate::symbol::{DataMatrix, ROW, ROWS};
use std::marker::Model;
use vp_dots::{Ink, dot_of};

/// A symbol as ink, without a quiet zone: columns * scale dots in a row, rows * scale in a column.
#[derive(Clone, Copy)]
pub struct DataMatrixInk {
    size: Size,
    /// Dots in a row of a module.
    scale: u32,
    rows: [[u8; ROW]; ROWS],
}

impl Model for DataMatrixInk {
    ghost use Rattle.std.specs.Prelude.{◌<◌, ◌≤◌};
    ghost use Rattle.vp_data_matrix.specs.Sizes.{IsSound};
    ghost use Rattle.vp_data_matrix.specs.Inks.{ScaledSymbol};

    ghost Value = { ScaledSymbol };

    ghost view = { λ s. record { size = s.size; scale = s.scale; rows = s.rows } };

    ghost inverse = { λ v. record { size = v.size; scale = v.scale; rows = v.rows } };

    ghost invariant = { λ s. record { sound : IsSound s.size; some : 0 < s.scale; most : s.scale ≤ 64 } };
}

impl DataMatrix {
    /// The symbol with modules of `scale` by `scale` dots, 1 to 64.
    pub fn scaled(&self, scale: u32) -> DataMatrixInk
        requires some { 0 < scale }
        requires most { scale ≤ 64 }
        ensures size { result.size ≡ self.now.size }
        ensures scale { result.scale ≡ scale }
        ensures rows { result.rows ≡ self.now.rows }
    {
        DataMatrixInk {
            size: self.size(),
            scale,
            rows: *self.rows(),
        }
    }
}

impl Ink for DataMatrixInk {
    ghost use Rattle.vp_data_matrix.specs.Inks.{across, down, ink_of, no_ink_outside};

    ghost width = { λ s. across s };

    ghost height = { λ s. down s };

    ghost ink_at = { λ s x y. ink_of s x y };

    ghost outside = { λ s x y h. no_ink_outside s x y h };

    fn size(&self) -> (u32, u32) {
        (
            self.scale * self.size.columns as u32,
            self.scale * self.size.rows as u32,
        )
    }

    fn ink(&self, x: u32, y: u32) -> bool {
        if x >= self.scale * self.size.columns as u32 {
            return false;
        }
        if y >= self.scale * self.size.rows as u32 {
            return false;
        }
        let row = (y / self.scale) as usize;
        dot_of(&self.rows[row], u128::from(x / self.scale))
    }
}
