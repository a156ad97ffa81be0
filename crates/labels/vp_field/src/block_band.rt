//! Blocks of lines whose rows fall on rows: where lines meet, the rows of a band are drawn at once.
ghost use Rattle.std.specs.Prelude.{◌≡◌, ℕ, ◌+◌, ◌*◌, ◌<◌, ◌≤◌, slice_index_or, [], true};
ghost use Rattle.vp_dots.specs.Dots.{dot, shifted};
ghost use Rattle.vp_dots.specs.Painting.{Painted};
ghost use Rattle.vp_glyph.specs.Blocks.{block_width, block_height, block_dot, block_inside, block_pieces};
ghost use Rattle.vp_glyph.specs.Layouts.{layout_of};
ghost use Rattle.vp_glyph.specs.declared.runs.TheConstants.{ROWS, BYTES};

use crate::line::paint_over;
use crate::lines::BlockRows;
use crate::pieces::Pieces;
use vp_dots::{Ink, Op, Small};
use vp_glyph::{BYTES, DrawnRows, ROWS};

/// A block of lines, whose rows from one on were drawn at an offset.
#[derive(Drop)]
pub struct BlockBand<'a, A: Small> {
    rows: BlockRows<'a, A>,
    /// The first of the rows.
    top: u32,
    /// The offset.
    at: i64,
    drawn: DrawnRows,
    ghost drawn_are: { (k x : ℕ) → k < ROWS → x < 8 * BYTES
        → top + k < block_height rows.block.h rows.block.rows rows.block.pitch
        → dot (slice_index_or drawn.rows k []) x
        ≡ shifted at (λ x. block_dot (layout_of rows.block) rows.block.text.now x (top + k)) x },
}

/// Applies the operation to the dots of a row where a row that was drawn is black.
fn paint_drawn(op: Op, drawn: &[u8; BYTES], row: &mut [u8])
    ensures { Painted op (dot drawn.now) row.old row.new }
{
    paint_over(op, drawn, row);
}

impl<'a, A: Small> BlockBand<'a, A> {
    /// A block, its rows from `top` on drawn at the offset `at`.
    pub fn new(rows: BlockRows<'a, A>, top: u32, at: i64) -> Self
        ensures rows { result.rows ≡ rows.entry }
        ensures few { result.drawn.pieces ≤ 2 * (ROWS + 1) * block_pieces rows.entry.block.text.now }
        ensures some { (k x : ℕ) → k < ROWS → x < 8 * BYTES
            → top + k < block_height rows.entry.block.h rows.entry.block.rows rows.entry.block.pitch
            → shifted at (λ x. block_dot (layout_of rows.entry.block) rows.entry.block.text.now x (top + k)) x
            ≡ true → 0 < result.drawn.pieces }
    {
        BlockBand {
            rows,
            top,
            at,
            drawn: rows.block.drawn_rows(top, at),
        }
    }

    /// How many lines of the text and cells of these drawing the rows took.
    pub fn pieces(&self) -> u64
        ensures { result ≡ self.now.drawn.pieces }
    {
        self.drawn.pieces
    }
}

impl<A: Small> Ink for BlockBand<'_, A> {
    ghost width = { λ s. block_width s.rows.block.wide s.rows.block.w };

    ghost height = { λ s. block_height s.rows.block.h s.rows.block.rows s.rows.block.pitch };

    ghost ink_at = { λ s x y. block_dot (layout_of s.rows.block) s.rows.block.text.now x y };

    ghost outside = { λ s x y h. block_inside (layout_of s.rows.block) s.rows.block.text.now x y h };

    fn size(&self) -> (u32, u32) {
        self.rows.size()
    }

    fn ink(&self, x: u32, y: u32) -> bool {
        self.rows.ink(x, y)
    }

    fn paint_row(&self, y: u32, op: Op, at: i64, row: &mut [u8]) {
        self.paint_pieces(y, op, at, row);
    }

    fn alike(&self, y: u32) -> (u32, u32) {
        self.rows.alike(y)
    }
}

impl<A: Small> Pieces for BlockBand<'_, A> {
    ghost most_pieces = { λ s d. 2 * block_pieces s.rows.block.text.now };

    fn paint_pieces(&self, y: u32, op: Op, at: i64, row: &mut [u8]) -> u64 {
        let (_, height) = self.size();
        let place = y.saturating_sub(self.top) as usize;
        if at == self.at && y >= self.top && y < height && place < ROWS && row.len() <= BYTES {
            let drawn = self.drawn.rows[place];
            paint_drawn(op, &drawn, row);
            return 1;
        }
        self.rows.paint_pieces(y, op, at, row)
    }
}
