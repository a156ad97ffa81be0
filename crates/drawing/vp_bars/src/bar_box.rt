//! A symbol with its text above or below, which can be painted.

ghost use Rattle.std.specs.Prelude.{◌≡◌, ℕ, ◌+◌, ◌-◌, ◌*◌, ◌<◌, ◌≤◌, ◌^◌, ◌&&◌, ◌+ℤ◌, pos, nat_le, true, length, FitsSigned};
ghost use Rattle.std.specs.Int.{w64};
ghost use Rattle.vp_dots.specs.Dots.{dots, shifted};
ghost use Rattle.vp_dots.specs.Painting.{Painted};
ghost use Rattle.vp_glyph.specs.Cells.{font_width, font_height, cell_dot, cell_width};
ghost use Rattle.vp_bars.specs.Boxes.{Boxed, texts_above, texts_below, text_at as text_of_place, line_dot, line_width, text_width as width_of_text, box_width, box_height, text_row, bars_row, box_dot, box_inside, line_pieces, box_pieces};
ghost use Rattle.vp_bars.specs.declared.bar_box.TheConstants.{PLAIN};
ghost use Rattle.vp_bars.specs.Symbologies.{text_of};
ghost use Rattle.vp_bars.specs.Widths.{bars_width as width_of_bars};

use crate::Bars;
use crate::pen::Pen;
use std::alloc::Global;
use vp_bar_code::HriPosition;
use vp_dots::{Ink, Op, Small, dot_of, fill_moved, paint_word};
use vp_glyph::{Cell, Font, Sheets, Style, seen};

/// The texts above the bars.
fn above(place: HriPosition) -> u32
    ensures texts { result ≡ texts_above place }
    ensures small { result ≤ 1 }
{
    match place {
        HriPosition::None | HriPosition::Below => 0,
        HriPosition::Above | HriPosition::Both => 1,
    }
}

/// The texts below the bars.
fn below(place: HriPosition) -> u32
    ensures texts { result ≡ texts_below place }
    ensures small { result ≤ 1 }
{
    match place {
        HriPosition::None | HriPosition::Above => 0,
        HriPosition::Below | HriPosition::Both => 1,
    }
}

/// How text is drawn.
const PLAIN: Style = Style {
    wm: 1,
    hm: 1,
    spacing: 0,
    bold: false,
    underline: 0,
    inverse: false,
};

/// Paints row y of a cell that stands `left` dots to the right, dot by dot.
fn paint_cell_dots<A: Small>(cell: &Cell<'_, A>, y: u32, left: u32, op: Op, at: i64, row: &mut [u8])
    requires { left + cell_width cell.now.font cell.now.style < 2 ^ 32 }
    ensures { Painted op (shifted at (λ i. nat_le left i
        && cell_dot cell.now.sheets.now cell.now.font cell.now.style cell.now.character (i - left) y))
        row.old row.new }
{
    let (width, _) = cell.size();
    for x in 0..width {
        if cell.ink(x, y) {
            fill_moved(op, at, left + x, left + x + 1, row);
        }
    }
}

/// Paints row y of a cell of the text that stands `left` dots to the right.
#[inline(always)]
fn paint_cell<A: Small>(cell: &Cell<'_, A>, y: u32, left: u32, op: Op, at: i64, row: &mut [u8])
    requires plain { cell.now.style ≡ PLAIN }
    requires left { left + cell_width cell.now.font cell.now.style < 2 ^ 32 }
    ensures { Painted op (shifted at (λ i. nat_le left i
        && cell_dot cell.now.sheets.now cell.now.font cell.now.style
        cell.now.character (i - left) y)) row.old row.new }
{
    match at.checked_add(i64::from(left)) {
        Some(place) => paint_word(op, cell.plain_row(y), place, row),
        None => paint_cell_dots(cell, y, left, op, at, row),
    }
}

/// Paints row y of a text that stands `left` dots to the right: the cells that can be seen on the row. It
/// gives their number.
fn paint_line<A: Small>(
    sheets: &Sheets<A>,
    font: Font,
    text: &[u8],
    y: u32,
    left: u32,
    op: Op,
    at: i64,
    row: &mut [u8],
) -> usize
    requires { left + line_width font text.now < 2 ^ 32 }
    ensures painted { Painted op (shifted at (λ i. nat_le left i
        && line_dot sheets.now font text.now (i - left) y)) row.old row.new }
    ensures most { result ≤ line_pieces font text.now (dots row.old) }
    ensures some { (d : ℕ) → d < dots row.old → shifted at (λ i. nat_le left i
        && line_dot sheets.now font text.now (i - left) y) d ≡ true → 0 < result }
{
    let width = font.width();
    let (from, to) = seen(at, left, width, text.len(), row.len());
    let mut cells = 0;
    for k in from..to {
        let cell = sheets.cell(text[k], font, PLAIN);
        paint_cell(&cell, y, left + width * k as u32, op, at, row);
        cells += 1;
    }
    cells
}

/// The offset by which dot x comes to the left edge.
fn back(x: u32) -> i64
    ensures back { result +ℤ pos x ≡ pos 0 }
    ensures fits { FitsSigned w64 result }
{
    -i64::from(x)
}

/// A symbol with its text above or below.
#[derive(Drop)]
pub struct BarBox<'a, A: Small = Global> {
    /// The symbol, which has the text too.
    pub bars: &'a Bars,
    /// The dots of a narrow element, or of a module.
    pub narrow: u16,
    /// The dots of a wide element, where there are such.
    pub wide: u16,
    /// The rows of the bars.
    pub height: u16,
    /// What the text is drawn from.
    pub sheets: &'a Sheets<A>,
    pub font: Font,
    pub place: HriPosition,
    /// The dots of a row of the bars.
    pub bars_width: u32,
    /// The text, where one stands.
    pub text: &'a [u8],
    ghost bars_are: { bars_width ≡ width_of_bars bars.now narrow wide },
    ghost bars_fit: { bars_width < 2 ^ 30 },
    ghost text_is: { text.now ≡ text_of_place place (text_of bars.now) },
    ghost text_fits: { length text.now ≤ 512 },
}

/// The text of a symbol, where one stands.
fn text_at(bars: &Bars, place: HriPosition) -> &[u8]
    ensures text { result.now ≡ text_of_place place (text_of bars.now) }
    ensures few { length result.now ≤ 512 }
{
    match place {
        HriPosition::None => &[],
        HriPosition::Above | HriPosition::Below | HriPosition::Both => bars.shown(),
    }
}

impl Bars {
    /// The symbol as it is painted: its bars, and its text in unmagnified characters of a font, where that
    /// is asked for.
    ///
    /// A narrow element, or a module, is `narrow` dots wide, a wide element `wide`, which symbols of modules
    /// don't look at, and the bars are `height` dots high. The box is as wide as
    /// the wider of bars and text, each in the middle of it (the odd dot on the right), and as high as the
    /// bars and the rows of the text above and below.
    pub fn boxed<'a, A: Small>(
        &'a self,
        narrow: u16,
        wide: u16,
        height: u16,
        sheets: &'a Sheets<A>,
        font: Font,
        place: HriPosition,
    ) -> BarBox<'a, A>
        ensures bars { result.bars.now ≡ self.now }
        ensures narrow { result.narrow ≡ narrow }
        ensures wide { result.wide ≡ wide }
        ensures height { result.height ≡ height }
        ensures sheets { result.sheets.now ≡ sheets.now }
        ensures font { result.font ≡ font }
        ensures place { result.place ≡ place }
    {
        let bars_width = self.width(narrow, wide);
        let text = text_at(self, place);
        BarBox {
            bars: self,
            narrow,
            wide,
            height,
            sheets,
            font,
            place,
            bars_width,
            text,
        }
    }
}

/// The first and the last of the rows around row y of a box that are known to have its dots, as the rows of
/// bars have: of any symbol whose text stands at `place` in `font`, and whose bars are `height` dots high.
pub fn alike_rows(place: HriPosition, font: Font, height: u16, y: u32) -> (u32, u32)
    ensures first { result.0 ≤ y }
    ensures last { y ≤ result.1 }
    ensures same { (b : Boxed) → b.place ≡ place → b.font ≡ font → b.height ≡ height
        → (x v : ℕ) → result.0 ≤ v → v ≤ result.1 → box_dot b x v ≡ box_dot b x y }
{
    let top = above(place) * font.height();
    let bottom = top + u32::from(height);
    if y < top || y >= bottom {
        return (y, y);
    }
    (top, bottom - 1)
}

impl<A: Small> BarBox<'_, A> {
    ghost use Rattle.vp_bars.specs.InBox.{boxed};

    /// The dots of a row of the text, where one stands.
    fn text_width(&self) -> u32
        ensures width { result ≡ width_of_text self.now.font self.now.place (text_of self.now.bars.now) }
        ensures small { result < 2 ^ 30 }
    {
        self.font.width() * self.text.len() as u32
    }

    /// The dots of a row of the box.
    fn width(&self) -> u32
        ensures width { result ≡ box_width (boxed self.now) }
        ensures small { result < 2 ^ 30 }
        ensures bars { self.now.bars_width ≤ result }
    {
        self.bars_width.max(self.text_width())
    }

    /// The rows above the bars.
    fn top(&self) -> u32
        ensures rows { result ≡ texts_above self.now.place * font_height self.now.font }
        ensures small { result ≤ 24 }
    {
        above(self.place) * self.font.height()
    }

    /// Paints a row of the bars: how many characters it handed out.
    #[tactic(auto, using(crate::proofs::Bounds::width_is))]
    fn paint_bars(&self, op: Op, at: i64, row: &mut [u8]) -> usize
        ensures painted { Painted op (shifted at (bars_row (boxed self.now))) row.old row.new }
        ensures most { result ≤ dots row.old }
        ensures few { result ≤ 512 }
        ensures some { (d : ℕ) → d < dots row.old → shifted at (bars_row (boxed self.now)) d ≡ true
            → 0 < result }
    {
        let x = (self.width() - self.bars_width) / 2;
        let strokes = self.bars.strokes(self.narrow, self.wide);
        let (_, characters) = strokes.draw_bars(Pen { x, bar: true }, op, at, row);
        characters
    }

    /// Paints a row of the text: how many cells it handed out.
    fn paint_text(&self, y: u32, op: Op, at: i64, row: &mut [u8]) -> usize
        requires { 0 < texts_above self.now.place + texts_below self.now.place }
        ensures painted { Painted op (shifted at (text_row (boxed self.now) y)) row.old row.new }
        ensures most { result ≤ dots row.old + 2 }
        ensures few { result ≤ 512 }
        ensures some { (d : ℕ) → d < dots row.old → shifted at (text_row (boxed self.now) y) d ≡ true
            → 0 < result }
    {
        let left = self.width().saturating_sub(self.text_width()) / 2;
        paint_line(self.sheets, self.font, self.text, y, left, op, at, row)
    }

    /// Paints a row of the box: how many characters of the bars, or cells of the text, it handed out.
    pub fn paint_pieces(&self, y: u32, op: Op, at: i64, row: &mut [u8]) -> u32
        ensures painted { Painted op (shifted at (λ x. box_dot (boxed self.now) x y)) row.old row.new }
        ensures most { result ≤ box_pieces (dots row.old) }
        ensures some { (d : ℕ) → d < dots row.old
            → shifted at (λ x. box_dot (boxed self.now) x y) d ≡ true → 0 < result }
    {
        let top = self.top();
        let bottom = top + u32::from(self.height);
        if y < top {
            return self.paint_text(y, op, at, row) as u32;
        }
        if y < bottom {
            return self.paint_bars(op, at, row) as u32;
        }
        if y - bottom < below(self.place) * self.font.height() {
            return self.paint_text(y - bottom, op, at, row) as u32;
        }
        0
    }
}

impl<A: Small> Ink for BarBox<'_, A> {
    ghost use Rattle.vp_bars.specs.InBox.{boxed};

    ghost width = { λ s. box_width (boxed s) };

    ghost height = { λ s. box_height (boxed s) };

    ghost ink_at = { λ s x y. box_dot (boxed s) x y };

    ghost outside = { λ s x y h. box_inside (boxed s) x y h };

    fn size(&self) -> (u32, u32) {
        let height = self.top() + u32::from(self.height) + below(self.place) * self.font.height();
        (self.width(), height)
    }

    fn ink(&self, x: u32, y: u32) -> bool {
        let mut row = [0u8];
        self.paint_pieces(y, Op::Black, back(x), &mut row);
        dot_of(&row, 0)
    }

    fn paint_row(&self, y: u32, op: Op, at: i64, row: &mut [u8]) {
        self.paint_pieces(y, op, at, row);
    }

    fn alike(&self, y: u32) -> (u32, u32) {
        alike_rows(self.place, self.font, self.height, y)
    }
}
