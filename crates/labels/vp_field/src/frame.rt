//! Boxes.
ghost use Rattle.std.specs.Prelude.{◌≡◌, ℕ, ◌+◌, ◌-◌, ◌^◌, ◌<◌, ◌≤◌, ◌||◌, true, false, pos, ◌+ℤ◌, ◌<ℤ◌};
ghost use Rattle.vp_dots.specs.Dots.{shifted, span};
ghost use Rattle.vp_dots.specs.Painting.{Painted};
ghost use Rattle.vp_dots.specs.Words.{word_dot};
ghost use Rattle.vp_field.specs.declared.frame.TheConstants.{WORD};
ghost use Rattle.vp_field.specs.Frames.{frame_dot, frame_inside};

use crate::pieces::Pieces;
use vp_dots::{Ink, Op, fill_moved, first_dots, paint_word};
use vp_format::GraphicBox;

/// ^GB: a box of w by h dots whose edges are t dots thick.
#[derive(Clone, Copy, Debug, PartialEq, Eq)]
pub struct Frame {
    pub w: u32,
    pub h: u32,
    pub t: u32,
}

/// The dots of a word.
const WORD: u32 = 64;

/// Offsets from here on lie far past any row.
const FAR: i64 = 1 << 40;

/// The offset of what begins `dots` dots behind offset `at`.
fn moved(at: i64, dots: u32) -> i64
    requires near { at <ℤ pos (2 ^ 40) }
    ensures { result ≡ at +ℤ pos dots }
{
    at + i64::from(dots)
}

/// Paints `dots` dots from dot `from` on: as a word, where they are few.
fn paint_side(op: Op, at: i64, from: u32, dots: u32, row: &mut [u8])
    requires fits { from + dots < 2 ^ 32 }
    ensures { Painted op (shifted at (span from (from + dots))) row.old row.new }
{
    if dots > WORD || at >= FAR {
        fill_moved(op, at, from, from + dots, row);
        return;
    }
    paint_word(op, first_dots(dots), moved(at, from), row);
}

/// The dots of a line of w dots that lie before dot t or from dot r on.
fn side_dots(t: u32, r: u32, w: u32) -> u64
    requires apart { t < r }
    requires within { r ≤ w }
    requires few { w ≤ WORD }
    ensures { (x : ℕ) → word_dot result x ≡ (span 0 t x || span r w x) }
{
    first_dots(t) ^ first_dots(r) ^ first_dots(w)
}

impl Frame {
    /// The box of a field.
    pub fn of(shape: GraphicBox) -> Frame
        ensures { result ≡ record { w = shape.width; h = shape.height; t = shape.thickness } }
    {
        Frame {
            w: u32::from(shape.width),
            h: u32::from(shape.height),
            t: u32::from(shape.thickness),
        }
    }

    /// Whether it is wider than a word, and has lines that show its sides alone.
    pub fn is_hollow(self) -> bool {
        self.w > WORD
            && self.t < self.h.saturating_sub(self.t)
            && self.t < self.w.saturating_sub(self.t)
    }

    /// Whether line y, which is one of the box's, has ink from its first dot to its last, and not at its
    /// sides alone.
    #[tactic(auto, unfolding(crate::specs::Frames::frame_dot))]
    fn is_solid(&self, y: u32) -> bool
        requires { y < self.now.h }
        ensures solid { result ≡ true → (x : ℕ) → frame_dot self.now.w self.now.h self.now.t x y
            ≡ span 0 self.now.w x }
        ensures sides { result ≡ false → (x : ℕ) → frame_dot self.now.w self.now.h self.now.t x y
            ≡ (span 0 self.now.t x || span (self.now.w - self.now.t) self.now.w x) }
        ensures apart { result ≡ false → self.now.t < self.now.w - self.now.t }
    {
        y < self.t || y >= self.h.saturating_sub(self.t) || self.w.saturating_sub(self.t) <= self.t
    }

    /// Line y, which is one of the box's, of a box no wider than a word.
    fn narrow_line(&self, y: u32) -> u64
        requires line { y < self.now.h }
        requires narrow { self.now.w ≤ WORD }
        ensures { (x : ℕ) → word_dot result x ≡ frame_dot self.now.w self.now.h self.now.t x y }
    {
        if self.is_solid(y) {
            return first_dots(self.w);
        }
        side_dots(self.t, self.w - self.t, self.w)
    }

    /// Paints line y, which is one of the box's, of a box no wider than a word.
    // Not inlined, so that a wide line keeps no registers for it.
    #[inline(never)]
    fn paint_narrow(&self, y: u32, op: Op, at: i64, row: &mut [u8])
        requires line { y < self.now.h }
        requires narrow { self.now.w ≤ WORD }
        ensures { Painted op (shifted at (λ x. frame_dot self.now.w self.now.h self.now.t x y)) row.old
            row.new }
    {
        paint_word(op, self.narrow_line(y), at, row);
    }

    /// Paints a line that shows the sides of the box alone.
    // Not inlined, so that a line that is filled keeps no registers for it.
    #[inline(never)]
    fn paint_sides(&self, op: Op, at: i64, row: &mut [u8])
        requires { self.now.t < self.now.w - self.now.t }
        ensures { Painted op (shifted at (λ x. span 0 self.now.t x
            || span (self.now.w - self.now.t) self.now.w x)) row.old row.new }
    {
        paint_side(op, at, 0, self.t, row);
        paint_side(op, at, self.w.saturating_sub(self.t), self.t, row);
    }
}

impl Ink for Frame {
    ghost width = { λ s. s.w };

    ghost height = { λ s. s.h };

    ghost ink_at = { λ s x y. frame_dot s.w s.h s.t x y };

    ghost outside = { λ s x y h. frame_inside s.w s.h s.t x y h };

    fn size(&self) -> (u32, u32) {
        (self.w, self.h)
    }

    #[tactic(auto, unfolding(crate::specs::Frames::frame_dot))]
    fn ink(&self, x: u32, y: u32) -> bool {
        x < self.w
            && y < self.h
            && (x < self.t
                || x >= self.w.saturating_sub(self.t)
                || y < self.t
                || y >= self.h.saturating_sub(self.t))
    }

    fn paint_row(&self, y: u32, op: Op, at: i64, row: &mut [u8]) {
        if y >= self.h {
            return;
        }
        if self.w <= WORD {
            self.paint_narrow(y, op, at, row);
            return;
        }
        if self.is_solid(y) {
            fill_moved(op, at, 0, self.w, row);
            return;
        }
        self.paint_sides(op, at, row);
    }
}

impl Pieces for Frame {
    ghost most_pieces = { λ s d. 1 };

    fn paint_pieces(&self, y: u32, op: Op, at: i64, row: &mut [u8]) -> u64 {
        self.paint_row(y, op, at, row);
        1
    }
}

/// A box that isn't filled: the lines that show its sides alone are alike.
#[derive(Clone, Copy)]
pub struct Hollow {
    pub frame: Frame,
}

impl Ink for Hollow {
    ghost width = { λ s. s.frame.w };

    ghost height = { λ s. s.frame.h };

    ghost ink_at = { λ s x y. frame_dot s.frame.w s.frame.h s.frame.t x y };

    ghost outside = { λ s x y h. frame_inside s.frame.w s.frame.h s.frame.t x y h };

    fn size(&self) -> (u32, u32) {
        self.frame.size()
    }

    fn ink(&self, x: u32, y: u32) -> bool {
        self.frame.ink(x, y)
    }

    fn paint_row(&self, y: u32, op: Op, at: i64, row: &mut [u8]) {
        self.frame.paint_row(y, op, at, row);
    }

    #[tactic(auto, unfolding(crate::specs::Frames::frame_dot))]
    fn alike(&self, y: u32) -> (u32, u32) {
        let bottom = self.frame.h.saturating_sub(self.frame.t);
        if y < self.frame.t || y >= bottom {
            return (y, y);
        }
        (self.frame.t, bottom - 1)
    }
}

impl Pieces for Hollow {
    ghost most_pieces = { λ s d. 1 };

    fn paint_pieces(&self, y: u32, op: Op, at: i64, row: &mut [u8]) -> u64 {
        self.paint_row(y, op, at, row);
        1
    }
}
