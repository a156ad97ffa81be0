//! The cells of a text side by side.
ghost use Rattle.std.specs.Prelude.{◌≡◌, ℕ, ◌*◌, ◌<◌, ◌≤◌, ◌^◌, ◌<ℤ◌, true, pos, length};
ghost use Rattle.vp_dots.specs.Dots.{dots, shifted};
ghost use Rattle.vp_dots.specs.Painting.{Painted};
ghost use Rattle.vp_glyph.specs.Texts.{text_dot, seen_cells};

use crate::sampled::{cell_front, paint_cell, seen, seen_dots, source_row, whole_cells};
use crate::sheet::Sheet;
use crate::stretch::{Stretch, Widened};
use vp_dots::{Op, Small, paint_word};

/// Paints line y of the cells of a text: those that can be seen on the row, and how many these are.
// Inlined, so that each caller's loop knows its operation.
#[inline(always)]
fn paint_cells<A: Small>(
    sheet: &Option<Sheet<A>>,
    text: &[u8],
    stretch: &Stretch,
    h: u32,
    y: u32,
    op: Op,
    at: i64,
    row: &mut [u8],
) -> u32
    requires some { 0 < stretch.now.width }
    requires fits { stretch.now.width * length text.now < 2 ^ 32 }
    ensures painted { Painted op (shifted at (λ x. text_dot sheet.now text.now stretch.now.width h x y))
        row.old row.new }
    ensures most { result ≤ seen_cells (length text.now) stretch.now.width (dots row.old) }
    ensures some { (d : ℕ) → d < dots row.old
        → shifted at (λ x. text_dot sheet.now text.now stretch.now.width h x y) d ≡ true → 0 < result }
{
    if y >= h {
        return 0;
    }
    let w = stretch.width;
    let source = source_row(y, h);
    let (from, to) = seen(at, 0, w, text.len(), row.len());
    let mut painted = 0;
    for k in from..to {
        paint_cell(sheet, text[k], source, stretch, op, at, w * k as u32, row);
        painted += 1;
    }
    painted
}

/// Paints line y of the cells of a text on a row that is no longer than a word: how many cells are painted.
// Inlined, so that each caller's loop knows how dots are widened.
#[inline(always)]
fn paint_short<A: Small>(
    sheet: &Option<Sheet<A>>,
    text: &[u8],
    stretch: &Stretch,
    widened: Widened,
    h: u32,
    y: u32,
    op: Op,
    at: i64,
    row: &mut [u8],
) -> u32
    requires some { 0 < stretch.now.width }
    requires fits { stretch.now.width * length text.now < 2 ^ 32 }
    requires short { length row.old ≤ 8 }
    requires twice { widened ≡ Widened.Twice → (stretch.now.width ≡ 24) × (at <ℤ pos (2 ^ 40)) }
    ensures painted { Painted op (shifted at (λ x. text_dot sheet.now text.now stretch.now.width h x y))
        row.old row.new }
    ensures most { result ≤ seen_cells (length text.now) stretch.now.width (dots row.old) }
    ensures some { (d : ℕ) → d < dots row.old
        → shifted at (λ x. text_dot sheet.now text.now stretch.now.width h x y) d ≡ true → 0 < result }
{
    if y >= h {
        return 0;
    }
    let w = stretch.width;
    let source = source_row(y, h);
    let (from, to) = seen_dots(at, 0, w * text.len() as u32, row.len());
    let first = whole_cells(from, w);
    let mut k = first as usize;
    let mut front = 0u64;
    while k < text.len() && w * (k as u32) < to {
        front |= cell_front(sheet, text[k], source, stretch, widened, at, w * k as u32);
        k += 1;
    }
    paint_word(op, front, 0, row);
    k as u32 - first
}

/// Paints line y of the cells of a text, each stretched to a width and drawn h dots high, from a sheet with
/// cells of 12 by 24: those that can be seen on the row, and how many these are.
pub fn paint_text<A: Small>(
    sheet: &Option<Sheet<A>>,
    text: &[u8],
    stretch: &Stretch,
    h: u32,
    y: u32,
    op: Op,
    at: i64,
    row: &mut [u8],
) -> u32
    requires some { 0 < stretch.now.width }
    requires fits { stretch.now.width * length text.now < 2 ^ 32 }
    ensures painted { Painted op (shifted at (λ x. text_dot sheet.now text.now stretch.now.width h x y))
        row.old row.new }
    ensures most { result ≤ seen_cells (length text.now) stretch.now.width (dots row.old) }
    ensures some { (d : ℕ) → d < dots row.old
        → shifted at (λ x. text_dot sheet.now text.now stretch.now.width h x y) d ≡ true → 0 < result }
{
    if row.len() <= 8 {
        return match stretch.widened(at) {
            Widened::Twice => paint_short(sheet, text, stretch, Widened::Twice, h, y, op, at, row),
            Widened::ByMasks => {
                paint_short(sheet, text, stretch, Widened::ByMasks, h, y, op, at, row)
            }
        };
    }
    match op {
        Op::Black => paint_cells(sheet, text, stretch, h, y, Op::Black, at, row),
        Op::White => paint_cells(sheet, text, stretch, h, y, Op::White, at, row),
        Op::Flip => paint_cells(sheet, text, stretch, h, y, Op::Flip, at, row),
    }
}
