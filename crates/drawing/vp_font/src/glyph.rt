//! A letter and its dots.

ghost use Rattle.std.specs.Prelude.{◌≡◌};

use crate::letter::Letter;
use crate::row::row_bytes;
use vp_dots::{Ink, dot_of};

/// A letter of a font, as ink: the dots of its box.
#[derive(Clone, Copy)]
pub struct Glyph<'a> {
    pub(crate) letter: Letter,
    /// The rows of its box, the first one first, and what stands behind them.
    pub(crate) rows: &'a [u8],
}

impl Glyph<'_> {
    /// Its code point.
    pub fn code(&self) -> u32
        ensures { result ≡ self.now.letter.code }
    {
        self.letter.code
    }

    /// How many dots the next letter's origin stands to the right, 0 to 2,048 (DWIDTH).
    pub fn advance(&self) -> u32
        ensures { result ≡ self.now.letter.advance }
    {
        self.letter.advance
    }

    /// The same in thousandths of the font's size, if the file tells it (SWIDTH).
    pub fn thousandths(&self) -> Option<u32>
        ensures { result ≡ self.now.letter.thousandths }
    {
        self.letter.thousandths
    }

    /// How many dots the box stands to the right of the origin (BBX).
    pub fn left(&self) -> i32
        ensures { result ≡ self.now.letter.shape.left }
    {
        self.letter.shape.left
    }

    /// How many dots the box stands above the baseline (BBX).
    pub fn bottom(&self) -> i32
        ensures { result ≡ self.now.letter.shape.bottom }
    {
        self.letter.shape.bottom
    }
}

impl Ink for Glyph<'_> {
    ghost use Rattle.vp_font.specs.Glyphs.{glyph_dot, glyph_inside};

    ghost width = { λ s. s.letter.shape.width };

    ghost height = { λ s. s.letter.shape.height };

    ghost ink_at = { λ s x y. glyph_dot s.letter.shape s.rows.now x y };

    ghost outside = { λ s x y h. glyph_inside s.letter.shape s.rows.now x y h };

    fn size(&self) -> (u32, u32) {
        (self.letter.shape.width, self.letter.shape.height)
    }

    #[tactic(auto, unfolding(crate::specs::Glyphs::glyph_dot))]
    fn ink(&self, x: u32, y: u32) -> bool {
        let shape = self.letter.shape;
        let wide = u128::from(row_bytes(shape.width));
        x < shape.width
            && y < shape.height
            && dot_of(self.rows, 8 * wide * u128::from(y) + u128::from(x))
    }
}
