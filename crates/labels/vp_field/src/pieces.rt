//! Inks that tell how many pieces of a line they painted.
ghost use Rattle.std.specs.Prelude.{◌≡◌, ℕ, ◌<◌, ◌≤◌, true};
ghost use Rattle.vp_bars.specs.Boxes.{box_pieces};
ghost use Rattle.vp_dots.specs.Dots.{dots, shifted};
ghost use Rattle.vp_dots.specs.Painting.{Painted};

use crate::modules::Modules;
use vp_bars::BarBox;
use vp_dots::{Ink, Op, Small};
use vp_qr::QrInk;
use vp_shapes::{Diagonal, Ring};

/// An ink whose lines are painted piece by piece, as those of a text are cell by cell.
pub trait Pieces: Ink {
    /// Of how many pieces a line is painted at most where so many dots of it can be seen.
    ghost most_pieces: { Self → ℕ → ℕ };

    /// Applies the operation as `paint_row` does: how many pieces of line y were painted.
    fn paint_pieces(&self, y: u32, op: Op, at: i64, row: &mut [u8]) -> u64
        ensures painted { Painted op (shifted at (λ x. Self.ink_at self.now x y)) row.old row.new }
        ensures most { result ≤ most_pieces self.now (dots row.old) }
        ensures some { (d : ℕ) → d < dots row.old → shifted at (λ x. Self.ink_at self.now x y) d ≡ true
            → 0 < result };
}

impl Pieces for QrInk {
    ghost most_pieces = { λ s d. 1 };

    fn paint_pieces(&self, y: u32, op: Op, at: i64, row: &mut [u8]) -> u64 {
        self.paint_row(y, op, at, row);
        1
    }
}

impl Pieces for Modules<'_> {
    ghost most_pieces = { λ s d. 1 };

    fn paint_pieces(&self, y: u32, op: Op, at: i64, row: &mut [u8]) -> u64 {
        self.paint_row(y, op, at, row);
        1
    }
}

impl Pieces for Ring {
    ghost most_pieces = { λ s d. 1 };

    fn paint_pieces(&self, y: u32, op: Op, at: i64, row: &mut [u8]) -> u64 {
        self.paint_row(y, op, at, row);
        1
    }
}

impl Pieces for Diagonal {
    ghost most_pieces = { λ s d. 1 };

    fn paint_pieces(&self, y: u32, op: Op, at: i64, row: &mut [u8]) -> u64 {
        self.paint_row(y, op, at, row);
        1
    }
}

impl<A: Small> Pieces for BarBox<'_, A> {
    ghost most_pieces = { λ s d. box_pieces d };

    fn paint_pieces(&self, y: u32, op: Op, at: i64, row: &mut [u8]) -> u64 {
        u64::from(BarBox::paint_pieces(self, y, op, at, row))
    }
}
