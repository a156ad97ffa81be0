//! Ink painted at a place of a band.
ghost use Rattle.std.specs.Prelude.{◌≡◌, ℕ, ◌<◌, ◌≤◌, ◌^◌, Bool, true, false, ◌+◌, option_map, unwrap_or, length};
ghost use Rattle.vp_dots.specs.Dots.{shifted};
ghost use Rattle.vp_dots.specs.Places.{placed, words_dot, RowsPainted};

use crate::word::paint_word;
use crate::{Band, Ink, Op};
use std::alloc::Allocator;

/// The first row that ink with its top at this row may meet.
fn first_row(top: i64) -> u64
    ensures { (line : ℕ → Bool) → (y : ℕ) → y < result → shifted top line y ≡ false }
{
    if top >= 0 { top.unsigned_abs() } else { 0 }
}

/// The row below the last one that ink of h lines, with its top at this row, may meet.
fn row_below(top: i64, h: u32) -> u64
    ensures { (line : ℕ → Bool) → ((v : ℕ) → line v ≡ true → v < h) → (y : ℕ) → result ≤ y →
        shifted top line y ≡ false }
{
    let far = top.unsigned_abs();
    let h = u64::from(h);
    if top >= 0 {
        far + h
    } else {
        h.saturating_sub(far)
    }
}

/// The line of ink with its top at this row that falls on row y, if there is one.
fn line_on(top: i64, y: u64) -> Option<u32>
    ensures { (line : ℕ → Bool) → ((v : ℕ) → line v ≡ true → v < 2 ^ 32) →
        shifted top line y ≡ unwrap_or (option_map line result) false }
{
    let far = top.unsigned_abs();
    let line = if top >= 0 {
        y.checked_sub(far)?
    } else {
        y.checked_add(far)?
    };
    u32::try_from(line).ok()
}

/// Paints the first `h` words, one on each row from `top` on.
#[inline(always)]
fn paint_words_by<const B: usize, const H: usize, A: Allocator>(
    op: Op,
    words: &[u64],
    h: usize,
    left: i64,
    top: usize,
    band: &mut Band<B, H, A>,
)
    requires few { h ≤ length words.now }
    requires room { top + h ≤ H }
    ensures { RowsPainted H op (words_dot words.now left top h) band.old band.new }
{
    for i in 0..h {
        paint_word(op, words[i], left, band.row_mut(top + i));
    }
}

/// Paints the first h words, each as a row of a band, from a row on and moved by an offset.
pub fn paint_words<const B: usize, const H: usize, A: Allocator>(
    op: Op,
    words: &[u64],
    h: usize,
    left: i64,
    top: usize,
    band: &mut Band<B, H, A>,
)
    requires few { h ≤ length words.now }
    requires room { top + h ≤ H }
    ensures { RowsPainted H op (words_dot words.now left top h) band.old band.new }
{
    match op {
        Op::Black => paint_words_by(Op::Black, words, h, left, top, band),
        Op::White => paint_words_by(Op::White, words, h, left, top, band),
        Op::Flip => paint_words_by(Op::Flip, words, h, left, top, band),
    }
}

/// Applies the operation to the dots of the band where the ink, with its top left place at column `left` of
/// row `top`, has ink.
pub fn paint_at<I: Ink, const B: usize, const H: usize, A: Allocator>(
    ink: &I,
    op: Op,
    left: i64,
    top: i64,
    band: &mut Band<B, H, A>,
)
    ensures { RowsPainted H op (placed left top (I.ink_at ink.now)) band.old band.new }
{
    let (_, h) = ink.size();
    for y in first_row(top)..row_below(top, h).min(H as u64) {
        if let Some(line) = line_on(top, y) {
            ink.paint_row(line, op, left, band.row_mut(y as usize));
        }
    }
}
