//! An ink whose lines, and the pieces of these, are counted as they are handed out.
ghost use Rattle.std.specs.Prelude.{◌≡◌, ℕ, ◌+◌, ◌*◌, ◌^◌, ◌<◌, ◌≤◌, true, false, ℤ, pos, option_map, unwrap_or, length};
ghost use Rattle.vp_dots.specs.Dots.{dot};
ghost use Rattle.vp_dots.specs.Painting.{Painted};
ghost use Rattle.vp_field.specs.Places.{at_place};
ghost use Rattle.vp_field.specs.Axes.{dot_on, shown_dot, IsWithin};
ghost use Rattle.vp_field.specs.Counts.{ArePieces};
ghost use Rattle.vp_label_size.specs.declared.TheConstants.{BAND_BYTES};

use crate::axis::Axis;
use crate::line::{draw, paint_line};
use crate::pieces::Pieces;
use vp_dots::{Ink, Op};
use vp_label_size::BAND_BYTES;

/// What lies on a place: a line of the ink, if one does, and how many places from it on are known to show the
/// same.
#[derive(Clone, Copy)]
pub struct Shown {
    line: Option<u32>,
    pub places: u64,
}

/// An ink, and how many of its lines were handed out, as far as they can be seen on so many bytes, and of how
/// many pieces: they are had in no other way.
#[derive(Drop)]
pub struct Pen<'a, I: Pieces, const BYTES: usize> {
    ink: &'a I,
    lines: u64,
    pieces: u64,
}

impl<'a, I: Pieces, const BYTES: usize> Pen<'a, I, BYTES> {
    /// An ink of which no line was handed out.
    pub fn new(ink: &'a I) -> Self
        ensures ink { result.ink.now ≡ ink.now }
        ensures lines { result.lines ≡ 0 }
        ensures pieces { result.pieces ≡ 0 }
    {
        Pen {
            ink,
            lines: 0,
            pieces: 0,
        }
    }

    /// How many lines were handed out, and pieces of them.
    pub fn work(&self) -> u64
        requires count { self.now.lines < 2 ^ 23 }
        requires within { ArePieces (I.most_pieces self.now.ink.now (8 * BYTES)) self.now.lines
            self.now.pieces }
        ensures { result ≡ self.now.lines + self.now.pieces }
    {
        self.lines + self.pieces
    }

    /// The width and the height of the ink.
    pub fn size(&self) -> (u32, u32)
        ensures width { result.0 ≡ I.width self.now.ink.now }
        ensures height { result.1 ≡ I.height self.now.ink.now }
    {
        self.ink.size()
    }

    /// What lies on a place, and how many places from it on, and before another, are known to show the same.
    #[inline(always)]
    pub fn shown(&self, lines: Axis, from: u64, to: u64) -> Shown
        requires ordered { from < to }
        requires low { I.height self.now.ink.now < 2 ^ 32 }
        ensures some { 0 < result.places }
        ensures within { from + result.places ≤ to }
        ensures line { (j : ℕ) → j < result.places → (dot : ℤ)
            → at_place (λ v. at_place (λ u. I.ink_at self.now.ink.now u v) dot)
            (dot_on lines (pos (from + j)))
            ≡ unwrap_or (option_map (λ v. at_place (λ u. I.ink_at self.now.ink.now u v) dot) result.line)
            false }
    {
        let Some(v) = lines.dot_on(from) else {
            return Shown {
                line: None,
                places: 1,
            };
        };
        let (first, last) = self.ink.alike(v);
        if first == last {
            return Shown {
                line: Some(v),
                places: 1,
            };
        }
        Shown {
            line: Some(v),
            places: lines.run(v, first, last).min(to - from),
        }
    }

    /// The line that is shown, if one is: it is handed out.
    fn handed(&mut self, shown: Shown) -> Option<u32>
        requires { self.old.lines < 2 ^ 22 }
        ensures counted { self.new ≡ record self.old { lines = self.old.lines + 1 } }
        ensures line { result ≡ shown.line }
    {
        self.lines += 1;
        shown.line
    }

    /// Draws what a line that is shown has on the places from one on, on bytes that are white and stay so
    /// where there is none.
    pub fn draw_on(&mut self, shown: Shown, dots: Axis, from: u32, line: &mut [u8; BYTES])
        requires near { IsWithin (2 ^ 41) dots }
        requires few { BYTES ≤ BAND_BYTES }
        requires white { (p : ℕ) → p < 8 * BYTES → dot line.old p ≡ false }
        requires count { self.old.lines < 2 ^ 22 }
        requires within { ArePieces (I.most_pieces self.old.ink.now (8 * BYTES)) self.old.lines
            self.old.pieces }
        ensures ink { self.new.ink ≡ self.old.ink }
        ensures counted { self.new.lines ≡ self.old.lines + 1 }
        ensures within { ArePieces (I.most_pieces self.new.ink.now (8 * BYTES)) self.new.lines
            self.new.pieces }
        ensures some { (p : ℕ) → p < 8 * BYTES → dot line.new p ≡ true → self.old.pieces < self.new.pieces }
        ensures dots { (p : ℕ) → p < 8 * BYTES
            → dot line.new p ≡ shown_dot (I.ink_at self.old.ink.now) dots shown.line (from + p) }
    {
        if let Some(v) = self.handed(shown) {
            self.pieces += draw::<I, BYTES>(self.ink, v, dots, from, line);
        }
    }

    /// Applies the operation to the dots of a row of a label on which a line that is shown has ink.
    pub fn paint_on(&mut self, shown: Shown, op: Op, dots: Axis, row: &mut [u8])
        requires near { IsWithin (2 ^ 41) dots }
        requires row { length row.old ≡ BAND_BYTES }
        requires bytes { BYTES ≡ BAND_BYTES }
        requires count { self.old.lines < 2 ^ 22 }
        requires within { ArePieces (I.most_pieces self.old.ink.now (8 * BYTES)) self.old.lines
            self.old.pieces }
        ensures ink { self.new.ink ≡ self.old.ink }
        ensures counted { self.new.lines ≡ self.old.lines + 1 }
        ensures within { ArePieces (I.most_pieces self.new.ink.now (8 * BYTES)) self.new.lines
            self.new.pieces }
        ensures some { (p : ℕ) → p < 8 * BAND_BYTES
            → shown_dot (I.ink_at self.old.ink.now) dots shown.line p ≡ true
            → self.old.pieces < self.new.pieces }
        ensures painted { Painted op (shown_dot (I.ink_at self.old.ink.now) dots shown.line) row.old row.new }
    {
        if let Some(v) = self.handed(shown) {
            self.pieces += paint_line(self.ink, v, op, dots, row);
        }
    }
}
