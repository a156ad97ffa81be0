//! A text in a block of lines.
ghost use Rattle.std.specs.Prelude.{◌≡◌, ◌+◌, ◌-◌, ◌*◌, ◌/◌, ◌<◌, ◌≤◌, ◌≢◌, ◌^◌, nat_le, ◌&&◌, ℕ, true, min, length, take, drop};
ghost use Rattle.vp_dots.specs.Dots.{dots, shifted};
ghost use Rattle.vp_dots.specs.Painting.{Painted};
ghost use Rattle.vp_glyph.specs.Texts.{text_dot};
ghost use Rattle.vp_glyph.specs.Blocks.{pieces, first, indent, pitch, block_lines, line_dot, lines_dot, block_pieces, block_width, block_height, block_dot, block_inside, line_pieces};
ghost use Rattle.vp_glyph.specs.Above.{pieces_of, lines_above};

use crate::lines::{Line, behind_cells, hand_line, next_cell, next_line};
use crate::sampled::{Sampled, paint_cell, seen, source_row};
use crate::sheet::Sheet;
use crate::stretch::Stretch;
use std::alloc::{AllocError, Global};
use vp_dots::{Ink, Op, Small, xor_into};

/// Where the lines of a block stand.
#[derive(Clone, Copy, Debug, PartialEq, Eq)]
pub enum Alignment {
    Left,
    /// Half of the room beside a line, rounded down, stands on its left.
    Centre,
    Right,
}

impl Alignment {
    /// How far a line moves to the right that has `room` dots beside it.
    pub(crate) fn indent(self, room: u32) -> u32
        ensures { result ≡ indent self room }
    {
        match self {
            Alignment::Left => 0,
            Alignment::Centre => room / 2,
            Alignment::Right => room,
        }
    }
}

/// From the top of a line to that of the next, with c rows between the lines, or fewer than none.
pub fn pitch(h: u32, c: i32) -> u32
    requires { h < 2 ^ 31 }
    ensures { result ≡ pitch h c }
{
    if c >= 0 {
        h + c.unsigned_abs()
    } else {
        h.saturating_sub(c.unsigned_abs())
    }
}

/// A text in lines of cells of w by h dots, as ink: as wide as a line or a cell, and as high as the lines
/// that stand apart.
pub struct Block<'a, A: Small = Global> {
    pub sheet: &'a Option<Sheet<A>>,
    pub text: &'a [u8],
    pub w: u32,
    pub h: u32,
    /// How a row of a cell is drawn w dots wide.
    pub(crate) stretch: Stretch,
    /// The dots of a line.
    pub wide: u32,
    /// How many lines stand below each other.
    pub rows: u32,
    /// From the top of a line to that of the next.
    pub pitch: u32,
    pub alignment: Alignment,
    /// How many lines are passed: rows from their end on are found without them.
    pub(crate) passed: u32,
    /// The text from the next line on.
    pub(crate) rest: &'a [u8],
    /// How many pieces of the text were handed out to pass lines.
    pub(crate) walked: u64,
    ghost some: { 0 < w },
    ghost drawn: { stretch.width ≡ w },
    ghost narrow: { wide ≤ 32000 },
    ghost fits: { block_height h rows pitch < 2 ^ 32 },
    ghost apart: { passed ≤ rows - 1 },
    ghost behind: { drop passed (block_lines (wide / w) text.now) ≡ block_lines (wide / w) rest.now },
    ghost less: { line_pieces rest.now ≤ line_pieces text.now },
}

impl<A: Small> Copy for Block<'_, A> {}

impl<A: Small> Clone for Block<'_, A> {
    fn clone(&self) -> Result<Self, AllocError> {
        Ok(*self)
    }
}

/// A dot of a line, from its left and top.
fn dot_of_line<A: Small>(
    line: Line<'_>,
    sheet: &Option<Sheet<A>>,
    w: u32,
    h: u32,
    x: u32,
    y: u32,
) -> bool
    requires w { 0 < w }
    requires cells { line.cells ≤ length (first (pieces line.text.now)) }
    ensures { result ≡ text_dot sheet.now (take line.entry.cells (first (pieces line.entry.text.now)))
        w h x y }
{
    let place = (x / w) as usize;
    if place >= line.cells {
        return false;
    }
    let Some((character, _)) = next_cell(behind_cells(line.text, place)) else {
        unreachable!()
    };
    let cell = Sampled {
        sheet,
        character,
        w,
        h,
    };
    cell.ink(x % w, y)
}

/// Paints row y of a line, from its left and top on: the cells that can be seen on the row, and how many
/// these are.
pub(crate) fn paint_line<A: Small>(
    line: Line<'_>,
    sheet: &Option<Sheet<A>>,
    stretch: &Stretch,
    h: u32,
    y: u32,
    op: Op,
    at: i64,
    left: u32,
    row: &mut [u8],
) -> u32
    requires w { 0 < stretch.now.width }
    requires y { y < h }
    requires cells { line.cells ≤ length (first (pieces line.text.now)) }
    requires fits { left + stretch.now.width * line.cells < 2 ^ 32 }
    ensures painted { Painted op (shifted at (λ x. nat_le left x
        && text_dot sheet.now (take line.entry.cells (first (pieces line.entry.text.now)))
        stretch.now.width h (x - left) y)) row.old row.new }
    ensures most { result ≤ line.entry.cells }
    ensures some { (d : ℕ) → d < dots row.old → shifted at (λ x. nat_le left x
        && text_dot sheet.now (take line.entry.cells (first (pieces line.entry.text.now)))
        stretch.now.width h (x - left) y) d ≡ true → 0 < result }
{
    let w = stretch.width;
    let source = source_row(y, h);
    let (from, to) = seen(at, left, w, line.cells, row.len());
    let mut rest = behind_cells(line.text, from);
    let mut place = left + w * from as u32;
    let mut painted = 0;
    for _i in from..to {
        let Some((character, behind)) = next_cell(rest) else {
            unreachable!()
        };
        paint_cell(sheet, character, source, stretch, op, at, place, row);
        place += w;
        rest = behind;
        painted += 1;
    }
    painted
}

impl<A: Small> Block<'_, A> {
    ghost use Rattle.vp_glyph.specs.Layouts.{layout_of};

    /// Dot (x, y) of a line that stands `place` lines below the first.
    fn dot_of_line(&self, line: Line<'_>, place: u32, x: u32, y: u32) -> bool
        requires cells { line.cells ≤ length (first (pieces line.text.now)) }
        requires most { line.cells ≤ self.now.wide / self.now.w }
        requires place { place ≤ self.now.rows - 1 }
        ensures { result ≡ line_dot (layout_of self.now) place
            (take line.entry.cells (first (pieces line.entry.text.now))) x y }
    {
        let left = self
            .alignment
            .indent(self.wide - self.w * line.cells as u32);
        let top = place * self.pitch;
        x >= left && y >= top && dot_of_line(line, self.sheet, self.w, self.h, x - left, y - top)
    }
}

impl<'a, A: Small> Block<'a, A> {
    ghost use Rattle.vp_glyph.specs.Layouts.{layout_of};

    /// The lines that end above row y, as far as they stand apart, are passed: how many, the text behind, and
    /// how many pieces were handed out for all that are passed.
    fn passed_at(&self, y: u32) -> (u32, &'a [u8], u64)
        requires { self.now.w ≤ self.now.wide }
        ensures apart { result.0 ≤ self.now.rows - 1 }
        ensures behind { drop result.0 (block_lines (self.now.wide / self.now.w) self.now.text.now)
            ≡ block_lines (self.now.wide / self.now.w) result.1.now }
        ensures less { line_pieces result.1.now ≤ line_pieces self.now.rest.now }
        ensures walked { result.2 ≤ self.now.walked + line_pieces self.now.rest.now }
        ensures counted { result.2 ≡ min (self.now.walked + pieces_of (drop self.now.passed
            (take (lines_above (layout_of self.now) y)
            (block_lines (self.now.wide / self.now.w) self.now.text.now)))) (2 ^ 64 - 1) }
    {
        let most = (self.wide / self.w) as usize;
        let mut passed = self.passed;
        let mut rest = self.rest;
        let mut walked = self.walked;
        while passed + 1 < self.rows && y >= passed * self.pitch + self.h {
            let (_, next) = hand_line(rest, most, &mut walked);
            let Some(behind) = next else {
                return (passed, rest, walked);
            };
            passed += 1;
            rest = behind;
        }
        (passed, rest, walked)
    }

    /// This block, whose rows from y on are found without the lines that end above row y. So a painter of
    /// rows from the top to the bottom looks at each line once.
    pub fn from_row(self, y: u32) -> Self
        ensures sheet { result.sheet.now ≡ self.entry.sheet.now }
        ensures text { result.text.now ≡ self.entry.text.now }
        ensures w { result.w ≡ self.entry.w }
        ensures h { result.h ≡ self.entry.h }
        ensures wide { result.wide ≡ self.entry.wide }
        ensures rows { result.rows ≡ self.entry.rows }
        ensures pitch { result.pitch ≡ self.entry.pitch }
        ensures alignment { result.alignment ≡ self.entry.alignment }
        ensures walked { result.walked ≤ self.entry.walked + block_pieces self.entry.text.now }
        ensures counted { self.entry.w ≤ self.entry.wide
            → result.walked ≡ min (self.entry.walked + pieces_of (drop self.entry.passed
            (take (lines_above (layout_of self.entry) y)
            (block_lines (self.entry.wide / self.entry.w) self.entry.text.now)))) (2 ^ 64 - 1) }
        ensures kept { self.entry.walked ≤ result.walked }
    {
        if self.wide < self.w {
            return self;
        }
        let (passed, rest, walked) = self.passed_at(y);
        Block {
            sheet: self.sheet,
            text: self.text,
            w: self.w,
            h: self.h,
            stretch: self.stretch,
            wide: self.wide,
            rows: self.rows,
            pitch: self.pitch,
            alignment: self.alignment,
            passed,
            rest,
            walked,
        }
    }

    /// How many pieces of the text, its lines and their cells, were handed out to pass lines.
    pub fn walked(&self) -> u64
        ensures { result ≡ self.now.walked }
    {
        self.walked
    }
}

impl<A: Small> Block<'_, A> {
    ghost use Rattle.vp_glyph.specs.Layouts.{layout_of};

    /// The first line that may have a dot in row y, or in one below it: how many lines stand above, and the
    /// text from it on.
    pub(crate) fn first_line(&self, y: u32) -> (u32, &[u8])
        ensures above { result.0 ≤ self.now.rows - 1 }
        ensures lines { (x z : ℕ) → y ≤ z → lines_dot (layout_of self.now) 0
            (block_lines (self.now.wide / self.now.w) self.now.text.now) x z
            ≡ lines_dot (layout_of self.now) result.0
            (block_lines (self.now.wide / self.now.w) result.1.now) x z }
        ensures less { line_pieces result.1.now ≤ line_pieces self.now.text.now }
    {
        if y >= self.passed.saturating_sub(1) * self.pitch + self.h {
            (self.passed, self.rest)
        } else {
            (0, self.text)
        }
    }

    /// Paints row y of a line that stands `place` lines below the first: how many cells are painted.
    pub(crate) fn paint_line(
        &self,
        line: Line<'_>,
        place: u32,
        y: u32,
        op: Op,
        at: i64,
        row: &mut [u8],
    ) -> u32
        requires cells { line.cells ≤ length (first (pieces line.text.now)) }
        requires most { line.cells ≤ self.now.wide / self.now.w }
        requires place { place ≤ self.now.rows - 1 }
        requires top { place * self.now.pitch ≤ y }
        ensures painted { Painted op (shifted at (λ x. line_dot (layout_of self.now) place
            (take line.entry.cells (first (pieces line.entry.text.now))) x y)) row.old row.new }
        ensures most { result ≤ line.entry.cells }
    {
        let top = place * self.pitch;
        if y - top >= self.h {
            return 0;
        }
        let left = self
            .alignment
            .indent(self.wide - self.w * line.cells as u32);
        paint_line(
            line,
            self.sheet,
            &self.stretch,
            self.h,
            y - top,
            op,
            at,
            left,
            row,
        )
    }

    /// Paints row y black or white, line over line: how many pieces are handed out, and how many of the cells
    /// painted.
    fn paint_lines(&self, y: u32, op: Op, at: i64, row: &mut [u8]) -> u64
        requires op { op ≢ Op.Flip }
        requires y { y < block_height self.now.h self.now.rows self.now.pitch }
        requires wide { self.now.w ≤ self.now.wide }
        ensures painted { Painted op (shifted at (λ x. block_dot (layout_of self.now) self.now.text.now x y))
            row.old row.new }
        ensures most { result ≤ 2 * line_pieces self.now.text.now }
        ensures some { (d : ℕ) → d < dots row.old
            → shifted at (λ x. block_dot (layout_of self.now) self.now.text.now x y) d ≡ true → 0 < result }
    {
        let most = (self.wide / self.w) as usize;
        let (above, text) = self.first_line(y);
        let mut place = above;
        let mut left = Some(text);
        let mut counter = 0u64;
        while let Some(text) = left {
            if y < place * self.pitch {
                return counter;
            }
            let (line, rest) = hand_line(text, most, &mut counter);
            let painted = self.paint_line(line, place, y, op, at, row);
            counter = counter.saturating_add(u64::from(painted));
            place = (place + 1).min(self.rows.saturating_sub(1));
            left = rest;
        }
        counter
    }

    /// Reverses the dots of row y, each once however many lines have it.
    fn flip_lines<const N: usize>(&self, y: u32, at: i64, row: &mut [u8]) -> u64
        requires y { y < block_height self.now.h self.now.rows self.now.pitch }
        requires wide { self.now.w ≤ self.now.wide }
        requires room { self.now.wide ≤ 8 * N }
        requires few { N ≤ 4000 }
        ensures painted { Painted Op.Flip (shifted at (λ x. block_dot (layout_of self.now) self.now.text.now x
            y)) row.old row.new }
        ensures most { result ≤ 2 * line_pieces self.now.text.now }
        ensures some { (d : ℕ) → d < dots row.old
            → shifted at (λ x. block_dot (layout_of self.now) self.now.text.now x y) d ≡ true → 0 < result }
    {
        let mut dots = [0u8; N];
        let counter = self.paint_lines(y, Op::Black, 0, &mut dots);
        xor_into(&dots, at, row);
        counter
    }

    /// Paints row y, as `paint_row` does: how many pieces are handed out, lines and their cells, and how many
    /// of the cells painted.
    pub fn paint_pieces(&self, y: u32, op: Op, at: i64, row: &mut [u8]) -> u64
        ensures painted { Painted op (shifted at (λ x. block_dot (layout_of self.now) self.now.text.now x y))
            row.old row.new }
        ensures most { result ≤ 2 * block_pieces self.now.text.now }
        ensures some { (d : ℕ) → d < dots row.old
            → shifted at (λ x. block_dot (layout_of self.now) self.now.text.now x y) d ≡ true → 0 < result }
    {
        let (_, height) = self.size();
        if y >= height {
            return 0;
        }
        if self.wide < self.w {
            return 0;
        }
        match op {
            Op::Flip => self.flip_lines::<4000>(y, at, row),
            op => self.paint_lines(y, op, at, row),
        }
    }
}

impl<A: Small> Ink for Block<'_, A> {
    ghost use Rattle.vp_glyph.specs.Layouts.{layout_of};

    ghost width = { λ s. block_width s.wide s.w };

    ghost height = { λ s. block_height s.h s.rows s.pitch };

    ghost ink_at = { λ s x y. block_dot (layout_of s) s.text.now x y };

    ghost outside = { λ s x y h. block_inside (layout_of s) s.text.now x y h };

    fn size(&self) -> (u32, u32) {
        (
            self.wide.max(self.w),
            self.h + self.rows.saturating_sub(1) * self.pitch,
        )
    }

    fn ink(&self, x: u32, y: u32) -> bool {
        let (width, height) = self.size();
        if x >= width || y >= height || self.wide < self.w {
            return false;
        }
        let most = (self.wide / self.w) as usize;
        let mut place = 0;
        let mut left = Some(self.text);
        while let Some(text) = left {
            let (line, rest) = next_line(text, most);
            if self.dot_of_line(line, place, x, y) {
                return true;
            }
            place = (place + 1).min(self.rows.saturating_sub(1));
            left = rest;
        }
        false
    }

    fn paint_row(&self, y: u32, op: Op, at: i64, row: &mut [u8]) {
        self.paint_pieces(y, op, at, row);
    }
}
