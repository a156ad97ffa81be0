//! Blocks of lines, and which of their rows are alike.
ghost use Rattle.std.specs.Prelude.{MatchOption, ◌*◌, ◌≤◌};
ghost use Rattle.vp_glyph.specs.Blocks.{block_width, block_height, block_dot, block_inside, block_pieces};
ghost use Rattle.vp_glyph.specs.Layouts.{layout_of};
ghost use Rattle.vp_field.specs.Alone.{IsAlone};

use crate::pieces::Pieces;
use crate::stretched::alike_rows;
use std::alloc::AllocError;
use vp_dots::{Ink, Op, Small};
use vp_glyph::Block;

/// A block of lines, some of whose rows are known to be like the one above.
pub struct BlockRows<'a, A: Small> {
    pub block: Block<'a, A>,
}

impl<A: Small> Copy for BlockRows<'_, A> {}

impl<A: Small> Clone for BlockRows<'_, A> {
    fn clone(&self) -> Result<Self, AllocError> {
        Ok(*self)
    }
}

impl<A: Small> BlockRows<'_, A> {
    /// Whether lines that don't begin together meet.
    pub fn lines_meet(&self) -> bool {
        let block = &self.block;
        block.rows > 1 && block.pitch != 0 && block.pitch < block.h
    }

    /// The first row of the line that row y falls on, where no line that begins elsewhere meets that line.
    fn top_of_line(&self, y: u32) -> Option<u32>
        ensures { MatchOption result (Unit {0}) (λ top. (top ≤ y)
            × IsAlone self.now.block.h self.now.block.rows self.now.block.pitch top) }
    {
        let last = self.block.rows.saturating_sub(1);
        if last == 0 || self.block.pitch == 0 {
            return Some(0);
        }
        if self.block.pitch < self.block.h {
            return None;
        }
        Some((y / self.block.pitch).min(last) * self.block.pitch)
    }
}

impl<A: Small> Ink for BlockRows<'_, A> {
    ghost width = { λ s. block_width s.block.wide s.block.w };

    ghost height = { λ s. block_height s.block.h s.block.rows s.block.pitch };

    ghost ink_at = { λ s x y. block_dot (layout_of s.block) s.block.text.now x y };

    ghost outside = { λ s x y h. block_inside (layout_of s.block) s.block.text.now x y h };

    fn size(&self) -> (u32, u32) {
        self.block.size()
    }

    fn ink(&self, x: u32, y: u32) -> bool {
        self.block.ink(x, y)
    }

    fn paint_row(&self, y: u32, op: Op, at: i64, row: &mut [u8]) {
        self.paint_pieces(y, op, at, row);
    }

    fn alike(&self, y: u32) -> (u32, u32) {
        let Some(top) = self.top_of_line(y) else {
            return (y, y);
        };
        let row = y - top;
        if row >= self.block.h {
            return (y, y);
        }
        let (first, last) = alike_rows(row, self.block.h);
        (top + first, top + last)
    }
}

impl<A: Small> Pieces for BlockRows<'_, A> {
    ghost most_pieces = { λ s d. 2 * block_pieces s.block.text.now };

    fn paint_pieces(&self, y: u32, op: Op, at: i64, row: &mut [u8]) -> u64 {
        self.block.paint_pieces(y, op, at, row)
    }
}
