//! Many rows of a block, for which each of its lines is looked at once: a row of the sheet is drawn once for
//! all rows that show it.
ghost use Rattle.std.specs.Prelude.{◌≡◌, ℕ, ◌+◌, ◌-◌, ◌*◌, ◌/◌, ◌<◌, ◌≤◌, ◌^◌, ◌⊎◌, ◌&&◌, ◌||◌, [], true, false, length, take, slice_index_or};
ghost use Rattle.vp_dots.specs.Dots.{dot, shifted, span};
ghost use Rattle.vp_dots.specs.Painting.{Painted};
ghost use Rattle.vp_glyph.specs.Blocks.{pieces, first, line_dot, lines_dot, block_lines, block_pieces, block_height, block_dot, line_pieces};
ghost use Rattle.vp_glyph.specs.Layouts.{layout_of, sheet_rows};
ghost use Rattle.vp_glyph.specs.Runs.{run_dot};
ghost use Rattle.vp_glyph.specs.declared.runs.TheConstants.{ROWS, BYTES};

use crate::block::{Block, paint_line};
use crate::fronts::{first_row, rows_above};
use crate::lines::{Line, hand_line};
use crate::runs::{BYTES, ROWS, Runs};
use crate::sampled::source_row;
use vp_dots::{Op, Small};

/// Rows of dots, and how many pieces of a block's text, lines and their cells, were handed out or painted for
/// them.
#[derive(Drop)]
pub struct DrawnRows {
    pub rows: [[u8; BYTES]; ROWS],
    pub pieces: u64,
}

impl<A: Small> Block<'_, A> {
    /// Blackens a row of the sheet on which a line stands: how many cells are painted.
    fn add_sheet_row(&self, line: Line<'_>, s: u32, at: i64, row: &mut [u8]) -> u32
        requires cells { line.cells ≤ length (first (pieces line.text.now)) }
        requires most { line.cells ≤ self.now.wide / self.now.w }
        requires s { s < 24 }
        ensures painted { Painted Op.Black (shifted at (λ x. line_dot (sheet_rows (layout_of self.now)) 0
            (take line.entry.cells (first (pieces line.entry.text.now))) x s)) row.old row.new }
        ensures most { result ≤ line.entry.cells }
    {
        let left = self
            .alignment
            .indent(self.wide - self.w * line.cells as u32);
        paint_line(
            line,
            self.sheet,
            &self.stretch,
            24,
            s,
            Op::Black,
            at,
            left,
            row,
        )
    }

    /// A row of the sheet on which a line stands. The cells that are painted are counted.
    fn sheet_row<const B: usize>(
        &self,
        line: Line<'_>,
        s: u32,
        at: i64,
        counter: &mut u64,
    ) -> [u8; B]
        requires cells { line.cells ≤ length (first (pieces line.text.now)) }
        requires most { line.cells ≤ self.now.wide / self.now.w }
        requires s { s < 24 }
        ensures row { (x : ℕ) → x < 8 * B → dot result x ≡ shifted at (λ x. line_dot
            (sheet_rows (layout_of self.now)) 0 (take line.entry.cells (first (pieces line.entry.text.now)))
            x s) x }
        ensures counted { counter.old ≤ counter.new }
        ensures most { counter.new ≤ counter.old + line.entry.cells }
    {
        let mut row = [0u8; B];
        let painted = self.add_sheet_row(line, s, at, &mut row);
        *counter = counter.saturating_add(u64::from(painted));
        row
    }

    /// A row of the sheet on which the lines of a text stand over each other. Their pieces and the cells that
    /// are painted are counted.
    fn joined_row<const B: usize>(&self, text: &[u8], s: u32, at: i64, counter: &mut u64) -> [u8; B]
        requires wide { self.now.w ≤ self.now.wide }
        requires s { s < 24 }
        ensures row { (x : ℕ) → x < 8 * B → dot result x ≡ shifted at (λ x. lines_dot
            (sheet_rows (layout_of self.now)) 0 (block_lines (self.now.wide / self.now.w) text.now) x s) x }
        ensures counted { counter.old ≤ counter.new }
        ensures some { 0 < counter.new }
        ensures most { counter.new ≤ counter.old + 2 * line_pieces text.now }
    {
        let most = (self.wide / self.w) as usize;
        let mut row = [0u8; B];
        let mut left = Some(text);
        while let Some(text) = left {
            let (line, rest) = hand_line(text, most, counter);
            let painted = self.add_sheet_row(line, s, at, &mut row);
            *counter = counter.saturating_add(u64::from(painted));
            left = rest;
        }
        row
    }

    /// Makes the dots of the rows from one to another black where a row of the sheet on which a line stands
    /// is. The cells that are painted are counted.
    #[inline(always)]
    fn add_run(
        &self,
        line: Line<'_>,
        s: u32,
        at: i64,
        from: usize,
        to: usize,
        rows: &mut Runs,
        counter: &mut u64,
    )
        requires cells { line.cells ≤ length (first (pieces line.text.now)) }
        requires most { line.cells ≤ self.now.wide / self.now.w }
        requires s { s < 24 }
        requires some { from < to }
        requires to { to ≤ ROWS }
        ensures dots { (k x : ℕ) → k < ROWS → x < 8 * BYTES
            → run_dot rows.new.alone rows.new.down rows.new.up ROWS k x
            ≡ (run_dot rows.old.alone rows.old.down rows.old.up ROWS k x
            || span from to k && shifted at (λ x. line_dot (sheet_rows (layout_of self.now)) 0
            (take line.entry.cells (first (pieces line.entry.text.now))) x s) x) }
        ensures counted { counter.old ≤ counter.new }
        ensures most { counter.new ≤ counter.old + line.entry.cells }
    {
        if to == ROWS {
            let painted = self.add_sheet_row(line, s, at, &mut rows.down[from]);
            *counter = counter.saturating_add(u64::from(painted));
            return;
        }
        if from == 0 {
            let painted = self.add_sheet_row(line, s, at, &mut rows.up[ROWS - to]);
            *counter = counter.saturating_add(u64::from(painted));
            return;
        }
        rows.blacken(&self.sheet_row(line, s, at, counter), from, to);
    }

    /// Adds a line that stands `place` lines below the first to rows, the first of which is row `top`:
    /// whether it stands on one of them. The cells that are painted are counted.
    fn draw_line(
        &self,
        line: Line<'_>,
        place: u32,
        top: u32,
        at: i64,
        rows: &mut Runs,
        counter: &mut u64,
    ) -> bool
        requires cells { line.cells ≤ length (first (pieces line.text.now)) }
        requires most { line.cells ≤ self.now.wide / self.now.w }
        requires place { place ≤ self.now.rows - 1 }
        ensures dots { (k x : ℕ) → k < ROWS → x < 8 * BYTES
            → run_dot rows.new.alone rows.new.down rows.new.up ROWS k x
            ≡ (run_dot rows.old.alone rows.old.down rows.old.up ROWS k x
            || shifted at (λ x. line_dot (layout_of self.now) place
            (take line.entry.cells (first (pieces line.entry.text.now))) x (top + k)) x) }
        ensures none { result ≡ false → rows.new ≡ rows.old }
        ensures counted { counter.old ≤ counter.new }
        ensures most { counter.new ≤ counter.old + ROWS * line.entry.cells }
    {
        let above = place * self.pitch;
        let end = rows_above(above + self.h, top, ROWS);
        let mut k = rows_above(above, top, ROWS);
        if k >= end {
            return false;
        }
        while k < end {
            let s = source_row(top + k as u32 - above, self.h) as u32;
            let to = rows_above(above + first_row(s + 1, self.h), top, ROWS);
            self.add_run(line, s, at, k, to, rows, counter);
            k = to;
        }
        true
    }

    /// Adds the lines of a text, which stand over each other `place` lines below the first, to rows, the
    /// first of which is row `top`. Their pieces and the cells that are painted are counted, for each row of
    /// the sheet that they show.
    fn draw_joined(
        &self,
        text: &[u8],
        place: u32,
        top: u32,
        at: i64,
        rows: &mut Runs,
        counter: &mut u64,
    )
        requires wide { self.now.w ≤ self.now.wide }
        requires place { place ≤ self.now.rows - 1 }
        requires joined { (self.now.pitch ≡ 0) ⊎ (place ≡ self.now.rows - 1) }
        ensures dots { (k x : ℕ) → k < ROWS → x < 8 * BYTES
            → run_dot rows.new.alone rows.new.down rows.new.up ROWS k x
            ≡ (run_dot rows.old.alone rows.old.down rows.old.up ROWS k x
            || shifted at (λ x. lines_dot (layout_of self.now) place
            (block_lines (self.now.wide / self.now.w) text.now) x (top + k)) x) }
        ensures counted { counter.old ≤ counter.new }
        ensures none { counter.new ≡ 0 → rows.new ≡ rows.old }
        ensures most { counter.new ≤ counter.old + ROWS * (2 * line_pieces text.now) }
    {
        let above = place * self.pitch;
        let end = rows_above(above + self.h, top, ROWS);
        let mut k = rows_above(above, top, ROWS);
        while k < end {
            let s = source_row(top + k as u32 - above, self.h) as u32;
            let to = rows_above(above + first_row(s + 1, self.h), top, ROWS);
            rows.blacken(&self.joined_row(text, s, at, counter), k, to);
            k = to;
        }
    }

    /// Adds the lines to rows, the first of which is row `top`: whether one stands on one of them. Their
    /// pieces and the cells that are painted are counted.
    fn draw_lines(&self, top: u32, at: i64, rows: &mut Runs, counter: &mut u64) -> bool
        requires wide { self.now.w ≤ self.now.wide }
        requires white { (k x : ℕ) → run_dot rows.old.alone rows.old.down rows.old.up ROWS k x ≡ false }
        requires none { counter.old ≡ 0 }
        ensures dots { (k x : ℕ) → k < ROWS → x < 8 * BYTES
            → top + k < block_height self.now.h self.now.rows self.now.pitch
            → run_dot rows.new.alone rows.new.down rows.new.up ROWS k x
            ≡ shifted at (λ x. block_dot (layout_of self.now) self.now.text.now x (top + k)) x }
        ensures white { result ≡ false
            → (k x : ℕ) → run_dot rows.new.alone rows.new.down rows.new.up ROWS k x ≡ false }
        ensures none { counter.new ≡ 0
            → (k x : ℕ) → run_dot rows.new.alone rows.new.down rows.new.up ROWS k x ≡ false }
        ensures most { counter.new ≤ 2 * (ROWS + 1) * line_pieces self.now.text.now }
    {
        let most = (self.wide / self.w) as usize;
        let (above, text) = self.first_line(top);
        let mut place = above;
        let mut left = Some(text);
        let mut drawn = false;
        while let Some(text) = left {
            if u64::from(top) + ROWS as u64 <= u64::from(place * self.pitch) {
                return drawn;
            }
            if self.pitch == 0 || place + 1 >= self.rows {
                self.draw_joined(text, place, top, at, rows, counter);
                return true;
            }
            let (line, rest) = hand_line(text, most, counter);
            if self.draw_line(line, place, top, at, rows, counter) {
                drawn = true;
            }
            place = (place + 1).min(self.rows.saturating_sub(1));
            left = rest;
        }
        drawn
    }

    /// A row below all lines of the text: each line but the last takes a byte of it at least.
    fn row_below_lines(&self) -> u64
        ensures { (x y : ℕ) → result ≤ y → y < 2 ^ 33
            → block_dot (layout_of self.now) self.now.text.now x y ≡ false }
    {
        (self.text.len() as u64)
            .saturating_mul(u64::from(self.pitch))
            .saturating_add(u64::from(self.h))
    }

    /// Rows of dots, each moved by an offset and black where row top, top + 1, .. has ink, and how many
    /// pieces were handed out and painted for them.
    pub fn drawn_rows(&self, top: u32, at: i64) -> DrawnRows
        ensures drawn { (k x : ℕ) → k < ROWS → x < 8 * BYTES
            → top + k < block_height self.now.h self.now.rows self.now.pitch
            → dot (slice_index_or result.rows k []) x
            ≡ shifted at (λ x. block_dot (layout_of self.now) self.now.text.now x (top + k)) x }
        ensures most { result.pieces ≤ 2 * (ROWS + 1) * block_pieces self.now.text.now }
        ensures some { (k x : ℕ) → k < ROWS → x < 8 * BYTES
            → dot (slice_index_or result.rows k []) x ≡ true → 0 < result.pieces }
    {
        if u64::from(top) >= self.row_below_lines() {
            return DrawnRows {
                rows: [[0; BYTES]; ROWS],
                pieces: 0,
            };
        }
        let mut rows = Runs::new();
        if self.wide < self.w {
            return DrawnRows {
                rows: rows.rows(false),
                pieces: 0,
            };
        }
        let mut pieces = 0u64;
        let drawn = self.draw_lines(top, at, &mut rows, &mut pieces);
        DrawnRows {
            rows: rows.rows(drawn),
            pieces,
        }
    }
}
