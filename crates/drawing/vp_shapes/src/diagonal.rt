//! Lines from corner to corner.
ghost use Rattle.std.specs.Prelude.{◌≡◌, ◌<◌, ◌≤◌, ◌+◌, ◌-◌, ◌*◌, ◌/◌, ℕ};
ghost use Rattle.vp_shapes.specs.Diagonals.{begin, diagonal_dot};

use vp_dots::{Ink, Op, fill_moved};

/// Which way a line leans.
#[derive(Clone, Copy, Debug, PartialEq, Eq)]
pub enum Leaning {
    /// From the lower left corner to the upper right one.
    Right,
    /// From the upper left corner to the lower right one.
    Left,
}

/// A line from corner to corner of a box.
#[derive(Clone, Copy, Debug, PartialEq, Eq)]
pub struct Diagonal {
    /// The width of the box, in dots.
    pub width: u16,
    /// The height of the box, in dots.
    pub height: u16,
    /// How many dots it is thick along a row.
    pub thickness: u16,
    pub leaning: Leaning,
}

impl Diagonal {
    /// Where it begins in row y.
    fn begin(self, y: u32) -> u32
        requires { y < self.height }
        ensures begin { result ≡ begin self.width self.height self.thickness self.leaning y }
        ensures within { result ≤ self.width }
    {
        let way = u32::from(self.width.saturating_sub(self.thickness));
        let rows = u32::from(self.height) - 1;
        let come = (y * way).checked_div(rows).unwrap_or(0);
        match self.leaning {
            Leaning::Left => come,
            Leaning::Right => way - come,
        }
    }
}

impl Ink for Diagonal {
    ghost use Rattle.vp_shapes.specs.Diagonals.{no_ink_outside};

    ghost width = { λ s. s.width };

    ghost height = { λ s. s.height };

    ghost ink_at = { λ s x y. diagonal_dot s.width s.height s.thickness s.leaning x y };

    ghost outside = { λ s x y h. no_ink_outside s.width s.height s.thickness s.leaning x y h };

    fn size(&self) -> (u32, u32) {
        (u32::from(self.width), u32::from(self.height))
    }

    #[tactic(auto, unfolding(crate::specs::Diagonals::diagonal_dot))]
    fn ink(&self, x: u32, y: u32) -> bool {
        if x >= u32::from(self.width) || y >= u32::from(self.height) {
            return false;
        }
        let begin = self.begin(y);
        begin <= x && x < begin + u32::from(self.thickness)
    }

    #[tactic(auto, unfolding(crate::specs::Diagonals::diagonal_dot))]
    fn paint_row(&self, y: u32, op: Op, at: i64, row: &mut [u8]) {
        if y >= u32::from(self.height) {
            return;
        }
        let begin = self.begin(y);
        let end = begin + u32::from(self.thickness);
        fill_moved(op, at, begin, end.min(u32::from(self.width)), row);
    }
}
