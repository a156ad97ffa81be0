//! A pen that draws bars and spaces from the left.

ghost use Rattle.std.specs.Prelude.{◌≡◌, ℕ, ◌+◌, ◌-◌, ◌<◌, ◌^◌, ◌&&◌, ◌||◌, not, nat_le, nat_lt, [], ◌∷◌};
ghost use Rattle.vp_dots.specs.Words.{word_dot};

use vp_dots::{Op, fill_moved, first_dots};

/// Where the next bar or space begins, and which of the two it is.
#[derive(Clone, Copy)]
pub(crate) struct Pen {
    pub x: u32,
    pub bar: bool,
}

impl Pen {
    ghost use Rattle.vp_bars.specs.Drawing.{Draws};

    /// Draws a bar or leaves a space, and gives the pen behind it.
    pub fn draw(self, width: u32, op: Op, at: i64, row: &mut [u8]) -> Pen
        requires { self.x + width < 2 ^ 32 }
        ensures { Draws op at row.old row.new self result (width ∷ []) }
    {
        let x = self.x + width;
        if self.bar {
            fill_moved(op, at, self.x, x, row);
            return Pen { x, bar: false };
        }
        Pen { x, bar: true }
    }

    /// The pen behind a bar or a space.
    pub fn moved(self, width: u32) -> Pen
        requires { self.x + width < 2 ^ 32 }
        ensures x { result.x ≡ self.x + width }
        ensures bar { result.bar ≡ not self.bar }
    {
        Pen {
            x: self.x + width,
            bar: !self.bar,
        }
    }

    /// A word with a bar more, or with a space.
    pub fn marked(self, width: u32, word: u64) -> u64
        requires { self.x + width < 64 }
        ensures { (j : ℕ) → word_dot result j
            ≡ (word_dot word j || self.bar && (nat_le self.x j && nat_lt (j - self.x) width)) }
    {
        if self.bar {
            return word | first_dots(width) >> self.x;
        }
        word
    }
}
