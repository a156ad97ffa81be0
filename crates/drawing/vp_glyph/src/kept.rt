//! Two lines of a block that were drawn, so that a line like one of them isn't drawn again.
ghost use Rattle.std.specs.Prelude.{◌≡◌, ◌+◌, ◌/◌, ◌≤◌, ◌⊎◌, true, length, take, replicate};
ghost use Rattle.vp_glyph.specs.Blocks.{pieces, first};
ghost use Rattle.vp_glyph.specs.Kept.{IsDrawn, latest_of};
ghost use Rattle.vp_glyph.specs.Layouts.{layout_of, AreRowsOf};

use crate::block::Block;
use crate::fronts::SheetRows;
use crate::lines::Line;
use vp_dots::Small;

/// A line, and the rows of the sheet on which it stands.
#[derive(Clone, Copy)]
pub struct DrawnLine<'a> {
    pub line: Line<'a>,
    pub shown: SheetRows,
}

/// Which of two lines was shown last.
#[derive(Clone, Copy)]
pub enum Latest {
    First,
    Second,
}

/// Two lines that were drawn, each in its place, and which of them was shown last.
#[derive(Drop)]
pub struct KeptLines<'a> {
    pub first: DrawnLine<'a>,
    pub second: DrawnLine<'a>,
    pub latest: Latest,
}

impl<'a> KeptLines<'a> {
    /// Two lines of a text without a cell.
    pub fn new(text: &'a [u8]) -> Self
        ensures first { result.first.shown.rows ≡ replicate 24 0 }
        ensures first_cells { result.first.line.cells ≡ 0 }
        ensures second { result.second ≡ result.first }
    {
        let white = DrawnLine {
            line: Line { text, cells: 0 },
            shown: SheetRows::of([0; 24]),
        };
        KeptLines {
            first: white,
            second: white,
            latest: Latest::Second,
        }
    }

    /// The rows of the line that was shown last.
    #[inline(always)]
    pub fn latest(&self) -> &SheetRows
        ensures { result.now ≡ (latest_of self.now.latest self.now.first self.now.second).shown }
    {
        match self.latest {
            Latest::First => &self.first.shown,
            Latest::Second => &self.second.shown,
        }
    }

    /// Whether a line is known to be like one of the two: that one then is shown.
    #[inline(always)]
    fn has(&mut self, line: Line<'a>) -> bool
        ensures found { result ≡ true → let found = latest_of self.new.latest self.new.first self.new.second
            in take line.entry.cells (first (pieces line.entry.text.now))
            ≡ take found.line.cells (first (pieces found.line.text.now)) }
        ensures first { self.new.first ≡ self.old.first }
        ensures second { self.new.second ≡ self.old.second }
    {
        if line.is_like(self.first.line) {
            self.latest = Latest::First;
            return true;
        }
        if line.is_like(self.second.line) {
            self.latest = Latest::Second;
            return true;
        }
        false
    }

    /// Shows a line and its rows, in the place of the line that wasn't shown last.
    #[inline(always)]
    fn put(&mut self, line: Line<'a>, rows: [u32; 24])
        ensures latest { let put = latest_of self.new.latest self.new.first self.new.second
            in (put.line ≡ line.entry) × (put.shown.rows ≡ rows) }
        ensures first { (self.new.first ≡ self.old.first)
            ⊎ ((self.new.first.line ≡ line.entry) × (self.new.first.shown.rows ≡ rows)) }
        ensures second { (self.new.second ≡ self.old.second)
            ⊎ ((self.new.second.line ≡ line.entry) × (self.new.second.shown.rows ≡ rows)) }
    {
        let drawn = DrawnLine {
            line,
            shown: SheetRows::of(rows),
        };
        match self.latest {
            Latest::First => {
                self.second = drawn;
                self.latest = Latest::Second;
            }
            Latest::Second => {
                self.first = drawn;
                self.latest = Latest::First;
            }
        }
    }
}

impl<A: Small> Block<'_, A> {
    /// Keeps a line and the rows of the sheet on which it stands: it is drawn only if it is like neither of
    /// the two that are kept. The cells that are drawn are counted.
    pub fn keep<'t>(&self, line: Line<'t>, at: i64, kept: &mut KeptLines<'t>, counter: &mut u64)
        requires cells { line.cells ≤ length (first (pieces line.text.now)) }
        requires most { line.cells ≤ self.now.wide / self.now.w }
        requires first { IsDrawn (layout_of self.now) at kept.old.first }
        requires second { IsDrawn (layout_of self.now) at kept.old.second }
        ensures line { AreRowsOf (layout_of self.now) at (take line.entry.cells
            (first (pieces line.entry.text.now)))
            (latest_of kept.new.latest kept.new.first kept.new.second).shown.rows }
        ensures first { IsDrawn (layout_of self.now) at kept.new.first }
        ensures second { IsDrawn (layout_of self.now) at kept.new.second }
        ensures counted { counter.old ≤ counter.new }
        ensures most { counter.new ≤ counter.old + line.entry.cells }
    {
        if kept.has(line) {
            return;
        }
        let mut rows = [0; 24];
        let drawn = self.add_rows(line, at, &mut rows);
        *counter = counter.saturating_add(u64::from(drawn));
        kept.put(line, rows);
    }
}
