//! The page.
ghost use Rattle.std.specs.Prelude.{◌≡◌, ℕ, ◌+◌, ◌*◌, ◌^◌, ◌<◌, ◌≤◌, true, false, List, [], ◌∷◌, IfOk, length, slice_index_or, take};
ghost use Rattle.vp_dots.specs.Dots.{dot};
ghost use Rattle.vp_dots.specs.Images.{row_of};
ghost use Rattle.vp_page.specs.Areas.{is_level, turned};
ghost use Rattle.vp_page.specs.Halves.{IsOnWords};
ghost use Rattle.vp_page.specs.Layers.{row_mark, rows_mark, times_mark};
ghost use Rattle.vp_page.specs.declared.line.TheConstants.{LINE_BYTES, LINE_DOTS};
ghost use Rattle.vp_page.specs.declared.page.TheConstants.{PAPER_BYTES, PAPER_DOTS, PAGE_ROWS};

use crate::along::stands_on_words;
use crate::area::{Area, Direction};
use crate::half::Half;
use crate::line::{LINE_BYTES, drawn, run_from};
use crate::turning::turn;
use std::alloc::{AllocError, Global};
use std::marker::Model;
use vp_dots::{Ink, Small, dots_decide};

/// The dots of a row of the page, and of the wide paper.
pub const PAPER_DOTS: u16 = 576;

/// The bytes of such a row.
pub const PAPER_BYTES: usize = 72;

/// The rows of the page.
pub const PAGE_ROWS: usize = 1664;

/// Its columns.
pub(crate) const PAGE_COLUMNS: usize = PAPER_DOTS as usize;

/// Rows of the page.
pub(crate) type Upright<A> = Half<PAPER_BYTES, PAGE_ROWS, A>;

/// Columns of the page, each a row of dots as long as the longest line.
pub(crate) type Turned<A> = Half<LINE_BYTES, PAGE_COLUMNS, A>;

/// All of the page.
pub(crate) const WHOLE: Area = Area {
    x: 0,
    y: 0,
    dx: PAPER_DOTS,
    dy: PAGE_ROWS as u16,
};

/// Whether rows of so many bytes stand on whole words of the half along which they are laid.
fn stand_on_words(area: Area, direction: Direction, wide: usize) -> bool
    requires { wide ≤ LINE_BYTES }
    ensures level { result ≡ true → is_level direction ≡ true →
        IsOnWords PAPER_BYTES area direction wide }
    ensures turned { result ≡ true → is_level direction ≡ false →
        IsOnWords LINE_BYTES (turned area) direction wide }
{
    if direction.is_level() {
        stands_on_words::<PAPER_BYTES>(area, direction, wide)
    } else {
        stands_on_words::<LINE_BYTES>(area.turned(), direction, wide)
    }
}

/// The dots of a page.
#[derive(Drop)]
pub struct Page<A: Small = Global> {
    /// What was laid along the rows of the page.
    upright: Upright<A>,
    /// What was laid along its columns, and isn't turned into its rows yet.
    turned: Turned<A>,
    /// How many rows were laid, and made white, since they were last counted anew.
    rows_laid: u64,
    rows_wiped: u64,
}

impl<A: Small> Model for Page<A> {
    ghost use Rattle.vp_page.specs.Pages.{Paged};

    ghost Value = { Paged };

    ghost view = { λ s. record {
      rows = s.upright;
      columns = s.turned;
      laid = s.rows_laid;
      wiped = s.rows_wiped;
    } };
}

impl<A: Small + Copy> Page<A> {
    ghost use Rattle.vp_page.specs.Pages.{HasPage};

    /// A white page.
    pub fn new(alloc: A) -> Result<Self, AllocError>
        ensures { IfOk result (λ page. HasPage [] page) }
    {
        let upright = Half::new(alloc, WHOLE)?;
        let turned = Half::new(alloc, WHOLE.turned())?;
        Ok(Page {
            upright,
            turned,
            rows_laid: 0,
            rows_wiped: 0,
        })
    }
}

impl<A: Small> Page<A> {
    ghost use Rattle.vp_page.specs.Layers.{Layer, Laid, Wiped, CountedAnew, lines_mark, page_dot};
    ghost use Rattle.vp_page.specs.Lines.{shown_lines};
    ghost use Rattle.vp_page.specs.Pages.{HasPage, IsShown};

    /// ESC L: makes the page white.
    pub fn clear(&mut self)
        ensures { HasPage [] self.new }
    {
        let rows = self.upright.wipe(WHOLE).count();
        let columns = self.turned.wipe(WHOLE.turned()).count();
        self.rows_laid = 0;
        self.rows_wiped = rows + columns;
    }

    /// From here on the rows that are laid, and made white, are counted anew.
    pub fn count_anew(&mut self)
        ensures { (layers : List Layer) → HasPage layers self.old →
            HasPage (CountedAnew ∷ layers) self.new }
    {
        let Page {
            rows_laid,
            rows_wiped,
            ..
        } = self;
        *rows_laid = 0;
        *rows_wiped = 0;
    }

    /// Lays a row of dots at the depth v of an area. Dots past the line length, and a row past the
    /// depth, are dropped, and what falls off the page.
    pub fn lay_row(&mut self, area: Area, direction: Direction, v: u32, row: &[u8])
        requires { length row.now ≤ LINE_BYTES }
        ensures { (layers : List Layer) → HasPage layers self.old →
            HasPage (Laid (row_mark area direction v (dot row.now)) ∷ layers) self.new }
    {
        if v >= u32::from(area.depth(direction)) {
            return;
        }
        self.rows_laid = self.rows_laid.saturating_add(1);
        if direction.is_level() {
            self.upright.lay_row(area, direction, v as usize, row);
        } else {
            self.turned
                .lay_row(area.turned(), direction, v as usize, row);
        }
    }

    /// Lays a row `times` times, one below the other, the first at the depth v of an area, as `lay_row` lays
    /// it.
    fn lay_times(
        &mut self,
        area: Area,
        direction: Direction,
        v: u32,
        times: u32,
        row: &[u8; LINE_BYTES],
    )
        ensures { (layers : List Layer) → HasPage layers self.old →
            HasPage (Laid (times_mark area direction v times (dot row.now)) ∷ layers) self.new }
    {
        let depth = u32::from(area.depth(direction));
        if v >= depth {
            return;
        }
        let shown = times.min(depth - v) as usize;
        self.rows_laid = self.rows_laid.saturating_add(shown as u64);
        if direction.is_level() {
            self.upright
                .lay_times(area, direction, v as usize, shown, row);
        } else {
            self.turned
                .lay_times(area.turned(), direction, v as usize, shown, row);
        }
    }

    /// Lays rows as `lay_rows` does, all at once, that stand on whole words of the half along which they are
    /// laid.
    fn lay_whole(
        &mut self,
        area: Area,
        direction: Direction,
        v: u32,
        wide: usize,
        rows: usize,
        bytes: &[u8],
    )
        requires level { is_level direction ≡ true → IsOnWords PAPER_BYTES area direction wide }
        requires turned { is_level direction ≡ false → IsOnWords LINE_BYTES (turned area) direction wide }
        requires long { rows * wide ≤ length bytes.now }
        ensures { (layers : List Layer) → HasPage layers self.old →
            HasPage (Laid (rows_mark area direction v wide rows bytes.now) ∷ layers) self.new }
    {
        let depth = u32::from(area.depth(direction));
        if v >= depth {
            return;
        }
        let high = rows.min((depth - v) as usize);
        self.rows_laid = self.rows_laid.saturating_add(high as u64);
        if direction.is_level() {
            self.upright
                .lay_rows(area, direction, v as usize, wide, high, bytes);
        } else {
            self.turned
                .lay_rows(area.turned(), direction, v as usize, wide, high, bytes);
        }
    }

    /// Lays rows of `wide` bytes, one behind the other in bytes, as `lay_row` lays each: the first at the
    /// depth v of an area.
    pub fn lay_rows(
        &mut self,
        area: Area,
        direction: Direction,
        v: u32,
        wide: usize,
        rows: usize,
        bytes: &[u8],
    )
        requires short { wide ≤ LINE_BYTES }
        requires near { v + rows < 2 ^ 32 }
        requires long { rows * wide ≤ length bytes.now }
        ensures { (layers : List Layer) → HasPage layers self.old →
            HasPage (Laid (rows_mark area direction v wide rows bytes.now) ∷ layers) self.new }
    {
        if stand_on_words(area, direction, wide) {
            self.lay_whole(area, direction, v, wide, rows, bytes);
            return;
        }
        for k in 0..rows {
            let at = k * wide;
            self.lay_row(area, direction, v + k as u32, &bytes[at..at + wide]);
        }
    }

    /// Lays rows of dots, one below the other, the first at the depth v of an area, as `lay_row` lays each. A
    /// row of which `same` tells that it is the same as the one above shows what that one does, whatever its
    /// bytes are; where nothing is told, rows are compared.
    pub fn lay_lines(
        &mut self,
        area: Area,
        direction: Direction,
        v: u32,
        lines: &[[u8; LINE_BYTES]],
        same: &[bool],
    )
        ensures { (layers : List Layer) → HasPage layers self.old →
            HasPage (Laid (lines_mark area direction v (shown_lines same.now lines.now)) ∷ layers)
            self.new }
    {
        let depth = u32::from(area.depth(direction));
        let shown = lines.len().min(depth.saturating_sub(v) as usize);
        let mut i = 0;
        while i < shown {
            let times = run_from(lines, same, i).min(shown - i);
            self.lay_times(area, direction, v + i as u32, times as u32, &lines[i]);
            i += times;
        }
    }

    /// Lays an image no wider than the longest line, with its top at a depth of an area, line by line: those
    /// that are known to be alike at once. Dots past the line length and the depth are dropped, and what
    /// falls off the page.
    pub fn lay<I: Ink>(&mut self, ink: &I, area: Area, direction: Direction, top: u32)
        requires { I.width ink.now ≤ LINE_DOTS }
        ensures { (layers : List Layer) → HasPage layers self.old →
            HasPage (Laid (record {
              area = area;
              direction = direction;
              top = top;
              high = I.height ink.now;
              dot = I.ink_at ink.now;
            }) ∷ layers) self.new }
    {
        let (_, height) = ink.size();
        let high = height.min(u32::from(area.depth(direction)).saturating_sub(top));
        let mut line = 0;
        while line < high {
            let (_, last) = ink.alike(line);
            let behind = last.min(high - 1) + 1;
            let row = drawn(ink, line);
            self.lay_times(area, direction, top + line, behind - line, &row);
            line = behind;
        }
    }

    /// CAN: makes an area white.
    pub fn wipe(&mut self, area: Area)
        ensures { (layers : List Layer) → HasPage layers self.old →
            HasPage (Wiped area ∷ layers) self.new }
    {
        let rows = self.upright.wipe(area).count();
        let columns = self.turned.wipe(area.turned()).count();
        self.rows_wiped = self.rows_wiped.saturating_add(rows + columns);
    }

    /// Turns what was laid up or down into the rows of the page, so that these show all. It counts nothing.
    pub fn turn_in(&mut self)
        ensures page { (layers : List Layer) → HasPage layers self.old → HasPage layers self.new }
        ensures shown { IsShown self.new }
    {
        turn(&self.turned, &mut self.upright);
        self.turned.wipe(WHOLE.turned());
    }

    /// How many rows were laid since they were last counted anew.
    pub fn rows_laid(&self) -> u64
        ensures value { result ≡ self.now.laid }
    {
        self.rows_laid
    }

    /// How many rows and columns were made white since then, by ESC L too where that began the count.
    pub fn rows_wiped(&self) -> u64
        ensures value { result ≡ self.now.wiped }
    {
        self.rows_wiped
    }

    /// The bytes of a row: all that is laid on it, once that is turned in.
    pub fn row(&self, y: usize) -> &[u8]
        requires { y < PAGE_ROWS }
        ensures value { result.now ≡ slice_index_or self.now.rows y [] }
        ensures len { length result.now ≡ PAPER_BYTES }
        ensures bytes { (layers : List Layer) → HasPage layers self.now → IsShown self.now →
            result.now ≡ row_of PAPER_BYTES (λ x. page_dot layers x y) }
        ensures left { (layers : List Layer) (n : ℕ) → HasPage layers self.now → IsShown self.now →
            n ≤ PAPER_BYTES → take n result.now ≡ row_of n (λ x. page_dot layers x y) }
    {
        let row = self.upright.row(y);
        dots_decide(row);
        row
    }

    /// The bytes of memory that it holds, on the heap.
    pub fn memory(&self) -> usize
        ensures { result ≡ PAGE_ROWS * PAPER_BYTES + PAPER_DOTS * LINE_BYTES }
    {
        self.upright.memory() + self.turned.memory()
    }
}
