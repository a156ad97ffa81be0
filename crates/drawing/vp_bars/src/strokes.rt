//! The bars of a symbol, drawn on a row.

ghost use Rattle.std.specs.Prelude.{◌≡◌, ℕ, ◌+◌, ◌<◌, ◌≤◌, ◌^◌, ◌++◌, min, nat_lt, Bool, true, false, List, length, take, flat_map};
ghost use Rattle.vp_bars.specs.Symbologies.{pattern_of as pattern_for, size_of as size_for};
ghost use Rattle.vp_bars.specs.Widths.{sized, next_widths, widths_of, framed_widths, bar_widths, width_of, total, in_bar};
ghost use Rattle.std.specs.List.{All};
ghost use Rattle.vp_bars.specs.Regular.{IsRegular, AreRegular, step_of, regular_width as width_of_regular};
ghost use Rattle.vp_bars.specs.Elements.{left_elements, ean13_elements};
ghost use Rattle.vp_bars.specs.declared.symbology.Symbology.TheVariants.{Ean13};
ghost use Rattle.vp_bars.specs.Drawing.{Draws, turned, reach, HandedOut};
ghost use Rattle.vp_dots.specs.Dots.{dots};
ghost use Rattle.vp_dots.specs.Words.{word_dot};

use crate::patterns::{left_digit, parity};
use crate::pen::Pen;
use crate::symbology::{Symbology, gap_of, is_regular, pattern_of, size_of, start_of, stop_of};
use vp_dots::{Op, paint_word};
use vp_glyph::seen;

/// The guards of EAN-13, in modules.
static GUARD: [u8; 3] = [1, 1, 1];

/// The bars between its halves.
static CENTRE: [u8; 5] = [1, 1, 1, 1, 1];

/// Values in a symbology, and how wide its narrow and wide elements are.
#[derive(Drop)]
pub(crate) struct Strokes<'a> {
    pub symbology: Symbology,
    pub values: &'a [u8],
    /// How many of them are regular, from the first on.
    pub regular: usize,
    pub narrow: u16,
    pub wide: u16,
    /// How wide each regular one is.
    pub alike_width: u32,
    ghost regular_are: { AreRegular symbology regular values.now },
    ghost alike: { alike_width ≡ width_of_regular symbology narrow wide },
    ghost small: { alike_width < 2 ^ 20 },
    ghost few: { length values.now ≤ 258 },
}

/// Whether a row has one of the dots first <= d < behind.
fn has_dot(first: u64, behind: u64, row: &[u8]) -> bool
    ensures { result ≡ nat_lt (min (dots row.now) first) (min (dots row.now) behind) }
{
    first < behind && first / 8 < row.len() as u64
}

/// Whether a row has one of the dots from <= x < to, moved by an offset.
fn is_shown(at: i64, from: u32, to: u32, row: &[u8]) -> bool
    ensures { result ≡ nat_lt (reach at (dots row.now) from) (reach at (dots row.now) to) }
{
    let far = at.unsigned_abs();
    let from = u64::from(from);
    let to = u64::from(to);
    if at >= 0 {
        return has_dot(from + far, to + far, row);
    }
    has_dot(from.saturating_sub(far), to.saturating_sub(far), row)
}

impl Strokes<'_> {
    /// How wide an element is.
    fn size(&self, element: u8) -> u32
        ensures { result ≡ size_for self.now.symbology self.now.narrow self.now.wide element }
    {
        size_of(self.symbology, self.narrow, self.wide, element)
    }

    /// How wide elements are together.
    fn width(&self, elements: &[u8]) -> u32
        requires { total (sized self.now.symbology self.now.narrow self.now.wide elements.now) < 2 ^ 32 }
        ensures { result ≡ total (sized self.now.symbology self.now.narrow self.now.wide elements.now) }
    {
        let mut width = 0;
        for e in elements {
            width += self.size(*e);
        }
        width
    }

    /// How wide a regular character is with the gap before it.
    fn step(&self) -> u32
        ensures step { result ≡ step_of self.now.symbology self.now.narrow self.now.wide }
        ensures small { result < 2 ^ 21 }
    {
        let gap = match self.symbology {
            Symbology::Code39 | Symbology::Codabar | Symbology::Code11 => u32::from(self.narrow),
            _ => 0,
        };
        gap + self.alike_width
    }

    /// How wide a character is.
    #[inline(always)]
    fn character_width(&self, v: u8) -> u32
        requires { total (sized self.now.symbology self.now.narrow self.now.wide
            (pattern_for self.now.symbology v)) < 2 ^ 32 }
        ensures { result ≡ total (sized self.now.symbology self.now.narrow self.now.wide
            (pattern_for self.now.symbology v)) }
    {
        if is_regular(self.symbology, v) {
            return self.alike_width;
        }
        self.width(pattern_of(self.symbology, v))
    }

    /// How wide characters are, each behind another.
    fn next_width(&self, values: &[u8]) -> u32
        requires { total (flat_map (next_widths self.now.symbology self.now.narrow self.now.wide)
            values.now) < 2 ^ 32 }
        ensures { result ≡ total (flat_map (next_widths self.now.symbology self.now.narrow self.now.wide)
            values.now) }
    {
        let gap = self.width(gap_of(self.symbology));
        let mut width = 0;
        for v in values {
            width += gap + self.character_width(*v);
        }
        width
    }

    /// How wide the values are, one after the other.
    pub fn characters_width(&self) -> u32
        requires { total (widths_of self.now.symbology self.now.narrow self.now.wide self.now.values.now)
            < 2 ^ 32 }
        ensures { result ≡ total (widths_of self.now.symbology self.now.narrow self.now.wide
            self.now.values.now) }
    {
        let Some((first, others)) = self.values.split_first() else {
            return 0;
        };
        let (regular, last) = others.split_at(self.regular.saturating_sub(1));
        self.character_width(*first) + self.step() * regular.len() as u32 + self.next_width(last)
    }

    /// The pen behind elements that are so wide together.
    fn behind(&self, elements: &[u8], width: u32, pen: Pen) -> Pen
        requires width { width ≡ total (sized self.now.symbology self.now.narrow self.now.wide
            elements.now) }
        requires room { pen.x + width < 2 ^ 32 }
        ensures x { result.x ≡ pen.x + total (sized self.now.symbology self.now.narrow self.now.wide
            elements.now) }
        ensures bar { result.bar ≡ turned pen.bar (sized self.now.symbology self.now.narrow self.now.wide
            elements.now) }
    {
        Pen {
            x: pen.x + width,
            bar: pen.bar != (elements.len() % 2 == 1),
        }
    }

    /// The dots of elements as a word.
    fn word(&self, elements: &[u8], bar: bool) -> u64
        requires { total (sized self.now.symbology self.now.narrow self.now.wide elements.now) < 64 }
        ensures { (x : ℕ) → word_dot result x
            ≡ in_bar bar (sized self.now.symbology self.now.narrow self.now.wide elements.now) x }
    {
        let mut word = 0;
        let mut pen = Pen { x: 0, bar };
        for e in elements {
            let width = self.size(*e);
            word = pen.marked(width, word);
            pen = pen.moved(width);
        }
        word
    }

    /// Draws elements one by one, and gives the pen behind them.
    fn draw_each(&self, elements: &[u8], pen: Pen, op: Op, at: i64, row: &mut [u8]) -> Pen
        requires { pen.x + total (sized self.now.symbology self.now.narrow self.now.wide elements.now) < 2 ^
            32 }
        ensures { Draws op at row.old row.new pen result
            (sized self.now.symbology self.now.narrow self.now.wide elements.now) }
    {
        let mut pen = pen;
        for e in elements {
            pen = pen.draw(self.size(*e), op, at, row);
        }
        pen
    }

    /// Draws elements that are so wide together where the row has a dot of them, at once where a word has
    /// room for them, and gives the pen behind them. Beside it stands how many it handed out: one, or none
    /// where the row has no dot.
    fn draw_some(
        &self,
        elements: &[u8],
        width: u32,
        pen: Pen,
        op: Op,
        at: i64,
        row: &mut [u8],
    ) -> (Pen, usize)
        requires width { width ≡ total (sized self.now.symbology self.now.narrow self.now.wide
            elements.now) }
        requires room { pen.x + width < 2 ^ 32 }
        ensures strokes { Draws op at row.old row.new pen result.0
            (sized self.now.symbology self.now.narrow self.now.wide elements.now) }
        ensures pieces { HandedOut at (dots row.old) pen.x result.0.x result.1 }
        ensures few { result.1 ≤ 1 }
    {
        let next = self.behind(elements, width, pen);
        if !is_shown(at, pen.x, next.x, row) {
            return (next, 0);
        }
        let Some(place) = at.checked_add(i64::from(pen.x)) else {
            return (self.draw_each(elements, pen, op, at, row), 1);
        };
        if width >= 64 {
            return (self.draw_each(elements, pen, op, at, row), 1);
        }
        paint_word(op, self.word(elements, pen.bar), place, row);
        (next, 1)
    }

    /// Draws elements, and gives the pen behind them, where there may be none, as between two characters of
    /// Code 128.
    #[inline(always)]
    fn draw(&self, elements: &[u8], pen: Pen, op: Op, at: i64, row: &mut [u8]) -> (Pen, usize)
        requires { pen.x + total (sized self.now.symbology self.now.narrow self.now.wide elements.now) < 2 ^
            32 }
        ensures strokes { Draws op at row.old row.new pen result.0
            (sized self.now.symbology self.now.narrow self.now.wide elements.now) }
        ensures pieces { HandedOut at (dots row.old) pen.x result.0.x result.1 }
        ensures few { result.1 ≤ 1 }
    {
        if elements.is_empty() {
            return (pen, 0);
        }
        self.draw_some(elements, self.width(elements), pen, op, at, row)
    }

    /// Draws characters, each behind another, and gives the pen behind them and how many it handed out.
    // Inlined, so that the pen stays in registers.
    #[inline(always)]
    fn draw_next(&self, values: &[u8], pen: Pen, op: Op, at: i64, row: &mut [u8]) -> (Pen, usize)
        requires { pen.x + total (flat_map (next_widths self.now.symbology self.now.narrow self.now.wide)
            values.now) < 2 ^ 32 }
        ensures strokes { Draws op at row.old row.new pen result.0
            (flat_map (next_widths self.now.symbology self.now.narrow self.now.wide) values.now) }
        ensures pieces { HandedOut at (dots row.old) pen.x result.0.x result.1 }
        ensures few { result.1 ≤ length values.now }
    {
        let mut pen = pen;
        let mut pieces = 0;
        for v in values {
            let (start, gap) = self.draw(gap_of(self.symbology), pen, op, at, row);
            let width = self.character_width(*v);
            let elements = pattern_of(self.symbology, *v);
            let (end, character) = self.draw_some(elements, width, start, op, at, row);
            pen = end;
            pieces += gap.max(character);
        }
        (pen, pieces)
    }

    /// Draws regular characters, each behind another: those that can be seen on the row. It gives the pen
    /// behind them all, and how many it handed out.
    #[inline(always)]
    fn draw_regular(&self, values: &[u8], pen: Pen, op: Op, at: i64, row: &mut [u8]) -> (Pen, usize)
        requires regular { All (IsRegular self.now.symbology) values.now }
        requires room { pen.x + total (flat_map
            (next_widths self.now.symbology self.now.narrow self.now.wide) values.now) < 2 ^ 32 }
        ensures strokes { Draws op at row.old row.new pen result.0
            (flat_map (next_widths self.now.symbology self.now.narrow self.now.wide) values.now) }
        ensures pieces { HandedOut at (dots row.old) pen.x result.0.x result.1 }
        ensures few { result.1 ≤ length values.now }
    {
        let step = self.step();
        if step == 0 {
            return (pen, 0);
        }
        let (from, to) = seen(at, pen.x, step, values.len(), row.len());
        let to = to.max(from);
        let first = Pen {
            x: pen.x + step * from as u32,
            bar: pen.bar,
        };
        let (last, pieces) = self.draw_next(&values[from..to], first, op, at, row);
        let end = Pen {
            x: pen.x + step * values.len() as u32,
            bar: last.bar,
        };
        (end, pieces)
    }

    /// Draws the values one after the other, and gives the pen behind them and how many it handed out.
    fn draw_characters(&self, pen: Pen, op: Op, at: i64, row: &mut [u8]) -> (Pen, usize)
        requires { pen.x + total (widths_of self.now.symbology self.now.narrow self.now.wide
            self.now.values.now) < 2 ^ 32 }
        ensures strokes { Draws op at row.old row.new pen result.0
            (widths_of self.now.symbology self.now.narrow self.now.wide self.now.values.now) }
        ensures pieces { HandedOut at (dots row.old) pen.x result.0.x result.1 }
        ensures few { result.1 ≤ length self.now.values.now }
    {
        let Some((first, others)) = self.values.split_first() else {
            return (pen, 0);
        };
        let (regular, last) = others.split_at(self.regular.saturating_sub(1));
        let (first, one) = self.draw(pattern_of(self.symbology, *first), pen, op, at, row);
        let (next, more) = self.draw_regular(regular, first, op, at, row);
        let (end, rest) = self.draw_next(last, next, op, at, row);
        (end, one + more + rest)
    }

    /// Draws start, values and stop, and gives the pen behind them and how many of them all it handed out.
    #[inline(never)]
    fn draw_framed(&self, pen: Pen, op: Op, at: i64, row: &mut [u8]) -> (Pen, usize)
        requires { pen.x + total (framed_widths self.now.symbology self.now.narrow self.now.wide
            self.now.values.now) < 2 ^ 32 }
        ensures strokes { Draws op at row.old row.new pen result.0
            (framed_widths self.now.symbology self.now.narrow self.now.wide self.now.values.now) }
        ensures pieces { HandedOut at (dots row.old) pen.x result.0.x result.1 }
        ensures few { result.1 ≤ length self.now.values.now + 2 }
    {
        let (regular, last) = self.values.split_at(self.regular);
        let (first, one) = self.draw(start_of(self.symbology), pen, op, at, row);
        let (next, more) = self.draw_regular(regular, first, op, at, row);
        let (end, rest) = self.draw_next(last, next, op, at, row);
        let (stop, two) = self.draw(stop_of(self.symbology), end, op, at, row);
        (stop, one + more + rest + two)
    }

    /// Draws the left digits of EAN-13 in their sets, and gives the pen behind them and how many it handed
    /// out.
    fn draw_left(
        &self,
        sets: &[u8],
        digits: &[u8],
        pen: Pen,
        op: Op,
        at: i64,
        row: &mut [u8],
    ) -> (Pen, usize)
        requires { pen.x + total (sized self.now.symbology self.now.narrow self.now.wide
            (left_elements sets.now digits.now)) < 2 ^ 32 }
        ensures strokes { Draws op at row.old row.new pen result.0
            (sized self.now.symbology self.now.narrow self.now.wide (left_elements sets.now digits.now)) }
        ensures pieces { HandedOut at (dots row.old) pen.x result.0.x result.1 }
        ensures few { result.1 ≤ length digits.now }
    {
        let mut pen = pen;
        let mut pieces = 0;
        for i in 0..sets.len().min(digits.len()) {
            let (end, digit) = self.draw(left_digit(sets[i], digits[i]), pen, op, at, row);
            pen = end;
            pieces += digit;
        }
        (pen, pieces)
    }

    /// Draws the digits of EAN-13 between its guards, and gives the pen behind them and how many of both it
    /// handed out.
    fn draw_digits(&self, pen: Pen, op: Op, at: i64, row: &mut [u8]) -> (Pen, usize)
        requires room { pen.x + total (sized self.now.symbology self.now.narrow self.now.wide
            (ean13_elements self.now.values.now)) < 2 ^ 32 }
        requires digits { self.now.symbology ≡ Ean13 }
        ensures strokes { Draws op at row.old row.new pen result.0
            (sized self.now.symbology self.now.narrow self.now.wide (ean13_elements self.now.values.now)) }
        ensures pieces { HandedOut at (dots row.old) pen.x result.0.x result.1 }
        ensures few { result.1 ≤ length self.now.values.now + 3 }
    {
        let Some((first, digits)) = self.values.split_first() else {
            return (pen, 0);
        };
        let (left, right) = digits.split_at(digits.len().min(6));
        let (guard, one) = self.draw(&GUARD, pen, op, at, row);
        let (half, lefts) = self.draw_left(parity(*first), left, guard, op, at, row);
        let (centre, two) = self.draw(&CENTRE, half, op, at, row);
        let (last, rights) = self.draw_next(right, centre, op, at, row);
        let (end, three) = self.draw(&GUARD, last, op, at, row);
        (end, one + lefts + two + rights + three)
    }

    /// Draws all bars, and gives the pen behind them and how many characters and guards it handed out: those
    /// of which the row has a dot.
    pub fn draw_bars(&self, pen: Pen, op: Op, at: i64, row: &mut [u8]) -> (Pen, usize)
        requires { pen.x + total (bar_widths self.now.symbology self.now.narrow self.now.wide
            self.now.values.now) < 2 ^ 32 }
        ensures strokes { Draws op at row.old row.new pen result.0
            (bar_widths self.now.symbology self.now.narrow self.now.wide self.now.values.now) }
        ensures pieces { HandedOut at (dots row.old) pen.x result.0.x result.1 }
        ensures few { result.1 ≤ length self.now.values.now + 3 }
    {
        match self.symbology {
            Symbology::Ean13 => self.draw_digits(pen, op, at, row),
            Symbology::Code39 | Symbology::Code128 | Symbology::Codabar => {
                self.draw_characters(pen, op, at, row)
            }
            _ => self.draw_framed(pen, op, at, row),
        }
    }
}
