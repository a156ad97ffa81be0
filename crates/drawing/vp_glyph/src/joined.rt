//! Lines over each other, as the rows of the sheet that they show.
ghost use Rattle.std.specs.Prelude.{◌≡◌, ℕ, ◌+◌, ◌-◌, ◌*◌, ◌/◌, ◌<◌, ◌≤◌, ◌^◌, nat_le, ◌&&◌, ◌||◌, true, length, take, slice_index};
ghost use Rattle.vp_dots.specs.Dots.{shifted};
ghost use Rattle.vp_glyph.specs.Texts.{text_dot};
ghost use Rattle.vp_glyph.specs.Blocks.{pieces, first, block_lines, line_dot, lines_dot, line_pieces};
ghost use Rattle.vp_glyph.specs.Halves.{half_dot};
ghost use Rattle.vp_glyph.specs.Layouts.{layout_of, sheet_rows, HaveLine};

use crate::block::Block;
use crate::lines::{Line, behind_cells, hand_line, next_cell};
use crate::sampled::seen_dots;
use crate::sheet::{Sheet, rows_in};
use crate::stretch::Stretch;
use vp_dots::Small;

/// Adds the first 32 dots of the rows of the sheet on which a line stands from place `left` on, drawn as wide
/// as it is: the cells that can be seen there, and how many these are.
#[inline(always)]
fn add_cells<A: Small>(
    line: Line<'_>,
    sheet: &Option<Sheet<A>>,
    stretch: &Stretch,
    at: i64,
    left: u32,
    rows: &mut [u32; 24],
) -> u32
    requires w { 0 < stretch.now.width }
    requires cells { line.cells ≤ length (first (pieces line.text.now)) }
    requires fits { left + stretch.now.width * line.cells < 2 ^ 32 }
    ensures added { (s x : ℕ) → s < 24 → x < 32 → half_dot (slice_index rows.new s) x
        ≡ (half_dot (slice_index rows.old s) x || shifted at (λ x. nat_le left x
        && text_dot sheet.now (take line.entry.cells (first (pieces line.entry.text.now)))
        stretch.now.width 24 (x - left) s) x) }
    ensures most { result ≤ line.entry.cells }
    ensures some { (s x : ℕ) → s < 24 → x < 32 → shifted at (λ x. nat_le left x
        && text_dot sheet.now (take line.entry.cells (first (pieces line.entry.text.now)))
        stretch.now.width 24 (x - left) s) x ≡ true → 0 < result }
{
    let w = stretch.width;
    let (from, to) = seen_dots(at, left, w * line.cells as u32, 4);
    let mut k = stretch.cells_within(from);
    let mut rest = behind_cells(line.text, k as usize);
    let mut drawn = 0;
    while w * k < to {
        let Some((character, behind)) = next_cell(rest) else {
            unreachable!()
        };
        stretch.add_rows(rows_in(sheet, character), at, left + w * k, rows);
        k += 1;
        rest = behind;
        drawn += 1;
    }
    drawn
}

impl<A: Small> Block<'_, A> {
    /// Adds the first 32 dots of the rows of the sheet on which a line stands: how many cells are drawn.
    pub(crate) fn add_rows(&self, line: Line<'_>, at: i64, rows: &mut [u32; 24]) -> u32
        requires cells { line.cells ≤ length (first (pieces line.text.now)) }
        requires most { line.cells ≤ self.now.wide / self.now.w }
        ensures added { (s x : ℕ) → s < 24 → x < 32 → half_dot (slice_index rows.new s) x
            ≡ (half_dot (slice_index rows.old s) x || shifted at (λ x. line_dot
            (sheet_rows (layout_of self.now)) 0 (take line.entry.cells (first (pieces line.entry.text.now)))
            x s) x) }
        ensures most { result ≤ line.entry.cells }
    {
        let left = self
            .alignment
            .indent(self.wide - self.w * line.cells as u32);
        add_cells(line, self.sheet, &self.stretch, at, left, rows)
    }

    /// Adds a line to rows that have another one, unless it is known to be like that: the line that they have
    /// then. The cells that are drawn are counted.
    #[inline(always)]
    fn join<'t>(
        &self,
        line: Line<'t>,
        last: Line<'t>,
        at: i64,
        rows: &mut [u32; 24],
        counter: &mut u64,
    ) -> Line<'t>
        requires cells { line.cells ≤ length (first (pieces line.text.now)) }
        requires most { line.cells ≤ self.now.wide / self.now.w }
        requires last { HaveLine (layout_of self.now) at (take last.cells (first (pieces last.text.now)))
            rows.old }
        ensures added { (s x : ℕ) → s < 24 → x < 32 → half_dot (slice_index rows.new s) x
            ≡ (half_dot (slice_index rows.old s) x || shifted at (λ x. line_dot
            (sheet_rows (layout_of self.now)) 0 (take line.entry.cells (first (pieces line.entry.text.now)))
            x s) x) }
        ensures last { HaveLine (layout_of self.now) at
            (take result.cells (first (pieces result.text.now))) rows.new }
        ensures counted { counter.old ≤ counter.new }
        ensures most { counter.new ≤ counter.old + line.entry.cells }
    {
        if line.is_like(last) {
            return last;
        }
        let drawn = self.add_rows(line, at, rows);
        *counter = counter.saturating_add(u64::from(drawn));
        line
    }

    /// The first 32 dots of the rows of the sheet on which the lines of a text stand over each other, of
    /// which those that are known to be like the one above them are drawn with it. Their pieces and the cells
    /// that are drawn are counted.
    pub(crate) fn joined(&self, text: &[u8], at: i64, counter: &mut u64) -> [u32; 24]
        requires { self.now.w ≤ self.now.wide }
        ensures rows { (s x : ℕ) → s < 24 → x < 32 → half_dot (slice_index result s) x
            ≡ shifted at (λ x. lines_dot (sheet_rows (layout_of self.now)) 0
            (block_lines (self.now.wide / self.now.w) text.now) x s) x }
        ensures some { 0 < counter.new }
        ensures most { counter.new ≤ counter.old + 2 * line_pieces text.now }
    {
        let most = (self.wide / self.w) as usize;
        let mut rows = [0u32; 24];
        let mut last = Line { text, cells: 0 };
        let mut left = Some(text);
        while let Some(text) = left {
            let (line, rest) = hand_line(text, most, counter);
            last = self.join(line, last, at, &mut rows, counter);
            left = rest;
        }
        rows
    }
}
