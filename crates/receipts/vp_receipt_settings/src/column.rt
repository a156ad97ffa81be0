//! A column of dots.
ghost use Rattle.std.specs.Prelude.{◌<◌};
ghost use Rattle.vp_receipt_settings.specs.Images.{column_dot, column_inside};

use vp_dots::{Ink, dot_of};

/// The rows of a column.
pub const COLUMN_ROWS: u32 = 24;

/// A column of dots, the top one first.
#[derive(Clone, Copy)]
pub struct Column<const N: usize> {
    pub bytes: [u8; N],
    /// How wide a dot is.
    pub wide: u8,
    /// How high it is.
    pub high: u8,
    ghost some: { 0 < high },
}

impl<const N: usize> Ink for Column<N> {
    ghost use Rattle.vp_receipt_settings.specs.declared.column.TheConstants.{COLUMN_ROWS};

    ghost width = { λ s. s.wide };

    ghost height = { λ s. COLUMN_ROWS };

    ghost ink_at = { λ s x y. column_dot s.wide s.high s.bytes x y };

    ghost outside = { λ s x y h. column_inside s.wide s.high s.bytes x y h };

    fn size(&self) -> (u32, u32) {
        (self.wide as u32, COLUMN_ROWS)
    }

    fn ink(&self, x: u32, y: u32) -> bool {
        x < self.wide as u32
            && y < COLUMN_ROWS
            && dot_of(&self.bytes, (y / self.high as u32) as u128)
    }
}
