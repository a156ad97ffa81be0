//! Texts.
ghost use Rattle.std.specs.Prelude.{◌≡◌, ◌*◌, ◌<◌, ◌^◌, length, slice_index};
ghost use Rattle.vp_glyph.specs.Texts.{text_dot, text_inside, seen_cells};

use crate::pieces::Pieces;
use crate::stretched::alike_rows;
use std::alloc::AllocError;
use vp_dots::{Ink, Op, Small};
use vp_glyph::{Sampled, Sheet, Stretch, paint_text};

/// The cells of a text side by side, each stretched to a width and h dots high.
pub struct Cells<'a, A: Small> {
    pub sheet: &'a Option<Sheet<A>>,
    pub text: &'a [u8],
    pub stretch: Stretch,
    pub h: u32,
    ghost some: { 0 < stretch.width },
    ghost fits: { stretch.width * length text.now < 2 ^ 32 },
}

impl<A: Small> Copy for Cells<'_, A> {}

impl<A: Small> Clone for Cells<'_, A> {
    fn clone(&self) -> Result<Self, AllocError> {
        Ok(*self)
    }
}

impl<A: Small> Cells<'_, A> {
    fn cell(&self, k: usize) -> Sampled<'_, A>
        requires { k < length self.now.text.now }
        ensures sheet { result.sheet.now ≡ self.now.sheet.now }
        ensures character { result.character ≡ slice_index self.now.text.now k }
        ensures w { result.w ≡ self.now.stretch.width }
        ensures h { result.h ≡ self.now.h }
    {
        Sampled {
            sheet: self.sheet,
            character: self.text[k],
            w: self.stretch.width,
            h: self.h,
        }
    }
}

impl<A: Small> Ink for Cells<'_, A> {
    ghost width = { λ s. s.stretch.width * length s.text.now };

    ghost height = { λ s. s.h };

    ghost ink_at = { λ s x y. text_dot s.sheet.now s.text.now s.stretch.width s.h x y };

    ghost outside = { λ s x y h. text_inside s.sheet.now s.text.now s.stretch.width s.h x y h };

    fn size(&self) -> (u32, u32) {
        (self.stretch.width * self.text.len() as u32, self.h)
    }

    #[tactic(auto, unfolding(vp_glyph::specs::Texts::text_dot))]
    fn ink(&self, x: u32, y: u32) -> bool {
        let w = self.stretch.width;
        let k = (x / w) as usize;
        k < self.text.len() && self.cell(k).ink(x % w, y)
    }

    fn paint_row(&self, y: u32, op: Op, at: i64, row: &mut [u8]) {
        self.paint_pieces(y, op, at, row);
    }

    fn alike(&self, y: u32) -> (u32, u32) {
        if y >= self.h {
            return (y, y);
        }
        alike_rows(y, self.h)
    }
}

impl<A: Small> Pieces for Cells<'_, A> {
    ghost most_pieces = { λ s d. seen_cells (length s.text.now) s.stretch.width d };

    fn paint_pieces(&self, y: u32, op: Op, at: i64, row: &mut [u8]) -> u64 {
        let cells = paint_text(self.sheet, self.text, &self.stretch, self.h, y, op, at, row);
        u64::from(cells)
    }
}
