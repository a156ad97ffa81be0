//! The bitmap of a line: how many of its lowest rows are in use, and so have to be cleared for the next line,
//! and which of them are painted: of rows that are known to be alike the first.
ghost use Rattle.std.specs.Prelude.{◌≡◌, ℕ, ◌+◌, ◌-◌, ◌*◌, ◌<◌, ◌≤◌, ◌^◌, ◌∷◌, [], List, ◌/◌, ◌%◌, min, nat_le, pos, ℤ, IfOk, length, false, slice_index, slice_index_or, nat_lt, not, max, ◌&&◌};
ghost use Rattle.vp_dots.specs.Dots.{dot, shifted, span};
ghost use Rattle.vp_glyph.specs.Cells.{cell_width, cell_height, cell_dot};
ghost use Rattle.vp_dots.specs.Words.{word_dot};
ghost use Rattle.vp_dots.specs.Painting.{Painted};
ghost use Rattle.vp_dots.specs.Places.{placed, words_dot, RowsPainted};
ghost use Rattle.vp_dots.specs.declared.Op.TheVariants.{Black};
ghost use Rattle.vp_page.specs.declared.line.TheConstants.{LINE_BYTES, LINE_DOTS};
ghost use Rattle.vp_receipt_settings.specs.declared.text.TheConstants.{LINE_ROWS};
ghost use Rattle.vp_dots.specs.declared.word.TheConstants.{NARROW};
ghost use Rattle.vp_receipt_settings.specs.Line.{Placed};
ghost use Rattle.vp_page.specs.Lines.{shown_lines};
ghost use Rattle.vp_strips.specs.LineDots.{HasDots, IsClear, ink_placed};

use crate::same::{LineBand, Same, clear, own_row, part_row, part_rows, part_told, told_from};
use std::alloc::{AllocError, Global};
use std::marker::Model;
use std::simd::Simd;
use vp_dots::{
    Band, Ink, NARROW, Op, Ready, Small, WORDS, fill_dots, first_dots, paint_at, paint_narrow,
};
use vp_glyph::{Cell, doubled_rows, widened_rows};
use vp_page::{Area, Direction, LINE_BYTES, LINE_DOTS, Page};
use vp_receipt_settings::LINE_ROWS;

/// The rows of a line, as long as the longest one of a page, of which the lowest are in use.
#[derive(Drop)]
pub struct Bitmap<A: Small = Global> {
    band: LineBand<A>,
    /// How many of the lowest rows may have a black dot.
    used: usize,
    /// Which rows show what the one above does.
    same: Same,
    /// Whether there may be such rows: while all characters are magnified upward.
    told: bool,
}

impl<A: Small> Model for Bitmap<A> {
    ghost use Rattle.std.specs.Prelude.{◌≡◌, ℕ, List, false, slice_index_or};
    ghost use Rattle.vp_page.specs.Lines.{shown_lines};
    ghost use Rattle.vp_strips.specs.LineDots.{IsClear};

    ghost Value = { List (List ℕ) };

    ghost view = { λ s. shown_lines s.same s.band };

    ghost invariant = { λ s. IsClear s.used s.same s.band
        × (s.told ≡ false → (y : ℕ) → slice_index_or s.same y false ≡ false) };
}

/// Paints the first `high` words, each of few dots, one on each row from `top` on.
#[inline(always)]
fn paint_words<A: Small>(words: &[u64], high: usize, at: usize, top: usize, band: &mut LineBand<A>)
    requires few { high ≤ length words.now }
    requires room { top + high ≤ LINE_ROWS }
    requires at { at < 2 ^ 63 }
    requires narrow { (x y : ℕ) → NARROW ≤ x → word_dot (slice_index words.now y) x ≡ false }
    ensures { RowsPainted LINE_ROWS Black (words_dot words.now (pos at) top high) band.old band.new }
{
    for y in 0..high {
        paint_narrow(Op::Black, words[y], at, band.row_mut(top + y));
    }
}

/// Paints a word of few dots on those of `times` rows, from `top` on, that have their own bytes.
fn paint_alike<A: Small>(
    word: u64,
    times: usize,
    at: usize,
    top: usize,
    same: &Same,
    band: &mut LineBand<A>,
)
    requires room { top + times ≤ LINE_ROWS }
    requires at { at < 2 ^ 63 }
    requires narrow { (x : ℕ) → NARROW ≤ x → word_dot word x ≡ false }
    ensures { RowsPainted LINE_ROWS Black (λ x k. not (slice_index_or same.now k false)
        && (span top (top + times) k && shifted (pos at) (word_dot word) x)) band.old band.new }
{
    if word == 0 {
        return;
    }
    for i in 0..times {
        if !same[top + i] {
            paint_narrow(Op::Black, word, at, band.row_mut(top + i));
        }
    }
}

/// Paints the first `high` words, each of few dots, each on those of `times` rows, from `top` on, that have
/// their own bytes.
fn paint_lines<A: Small>(
    words: &[u64; WORDS],
    high: usize,
    times: usize,
    at: usize,
    top: usize,
    same: &Same,
    band: &mut LineBand<A>,
)
    requires few { high ≤ WORDS }
    requires some { 0 < times }
    requires once { times ≡ 1 → (k : ℕ) → slice_index_or same.now k false ≡ false }
    requires room { top + high * times ≤ LINE_ROWS }
    requires at { at < 2 ^ 63 }
    requires narrow { (x y : ℕ) → NARROW ≤ x → word_dot (slice_index words.now y) x ≡ false }
    ensures { RowsPainted LINE_ROWS Black (λ x k. not (slice_index_or same.now k false)
        && (nat_le top k && (nat_lt ((k - top) / times) high
        && shifted (pos at) (word_dot (slice_index words.now ((k - top) / times))) x))) band.old band.new }
{
    if times == 1 {
        paint_words(words, high, at, top, band);
        return;
    }
    for v in 0..high {
        paint_alike(words[v], times, at, top + v * times, same, band);
    }
}

/// Paints `N` dots of each of the first `high` words, from dot `first` on: each `wm` dots wide and on those
/// of `times` rows, from `top` on, that have their own bytes.
#[inline(always)]
fn paint_part<const N: u32, A: Small>(
    words: &[u64; WORDS],
    first: u32,
    wm: u32,
    high: usize,
    times: usize,
    at: usize,
    top: usize,
    same: &Same,
    band: &mut LineBand<A>,
)
    requires dots { N ≤ 12 }
    requires narrow { N * wm ≤ NARROW }
    requires wm { wm ≤ 9 }
    requires first { first ≤ 12 }
    requires few { high ≤ WORDS }
    requires some { 0 < times }
    requires once { times ≡ 1 → (k : ℕ) → slice_index_or same.now k false ≡ false }
    requires room { top + high * times ≤ LINE_ROWS }
    requires at { at < 2 ^ 63 }
    ensures { RowsPainted LINE_ROWS Black (λ x k. not (slice_index_or same.now k false)
        && (nat_le top k && (nat_lt ((k - top) / times) high && shifted (pos at) (λ u. nat_lt u (N * wm)
        && word_dot (slice_index words.now ((k - top) / times)) (first + u / wm)) x))) band.old band.new }
{
    let wide = widened_rows::<N>(words, first, wm);
    paint_lines(&wide, high, times, at, top, same, band);
}

/// Paints twelve dots of each of the first `high` words, each `wm` dots wide and on those of `times` rows,
/// from `top` on, that have their own bytes.
fn paint_dots<A: Small>(
    words: &[u64; WORDS],
    wm: u32,
    high: usize,
    times: usize,
    at: usize,
    top: usize,
    same: &Same,
    band: &mut LineBand<A>,
)
    requires narrow { 6 * wm ≤ NARROW }
    requires few { high ≤ WORDS }
    requires some { 0 < times }
    requires once { times ≡ 1 → (k : ℕ) → slice_index_or same.now k false ≡ false }
    requires room { top + high * times ≤ LINE_ROWS }
    requires at { at < 2 ^ 62 }
    requires dots { (x y : ℕ) → 12 ≤ x → word_dot (slice_index words.now y) x ≡ false }
    ensures { RowsPainted LINE_ROWS Black (λ x k. not (slice_index_or same.now k false)
        && (nat_le top k && (nat_lt ((k - top) / times) high && shifted (pos at) (λ u. nat_lt u (12 * wm)
        && word_dot (slice_index words.now ((k - top) / times)) (u / wm)) x))) band.old band.new }
{
    if wm == 1 {
        paint_lines(words, high, times, at, top, same, band);
        return;
    }
    if wm == 2 {
        paint_lines(&doubled_rows(words), high, times, at, top, same, band);
        return;
    }
    if 12 * wm <= NARROW {
        paint_part::<12, A>(words, 0, wm, high, times, at, top, same, band);
        return;
    }
    let behind = at + 6 * wm as usize;
    paint_part::<6, A>(words, 0, wm, high, times, at, top, same, band);
    paint_part::<6, A>(words, 6, wm, high, times, behind, top, same, band);
}

/// Blackens `M` bytes of a row, from byte i on.
#[inline(always)]
fn blacken_block<const M: usize>(i: usize, row: &mut [u8])
    requires lanes { M ≤ 64 }
    requires room { i + M ≤ length row.old }
    ensures { Painted Black (λ d. span i (i + M) (d / 8)) row.old row.new }
{
    Simd::<u8, M>::splat(255).copy_to_slice(&mut row[i..]);
}

/// Blackens the bytes of a row from one on and before another, as many as `N` blocks have and fewer than one
/// more: the last sixteen may lie over some before.
#[inline(always)]
fn blacken_bytes<const N: usize>(from: usize, to: usize, row: &mut [u8])
    requires blocks { N ≤ 3 }
    requires some { 0 < N }
    requires many { from + 64 * N ≤ to }
    requires room { to ≤ LINE_BYTES }
    requires row { length row.old ≡ LINE_BYTES }
    ensures { Painted Black (λ d. span from to (d / 8)) row.old row.new }
{
    for k in 0..N {
        blacken_block::<64>(from + 64 * k, row);
    }
    let rest = from + 64 * N;
    for k in 0..(to - rest).div_ceil(16) {
        blacken_block::<16>((rest + 16 * k).min(to - 16), row);
    }
}

/// Blackens the dots before `end` of those of `high` rows, from byte `first` and row `top` on, that have
/// their own bytes, where they are whole bytes, and many: of `N` blocks or more.
#[inline(always)]
fn blacken_blocks<const N: usize, A: Small>(
    first: usize,
    end: usize,
    high: usize,
    top: usize,
    same: &Same,
    band: &mut LineBand<A>,
)
    requires room { top + high ≤ LINE_ROWS }
    requires whole { min end LINE_DOTS % 8 ≡ 0 }
    requires blocks { N ≤ 3 }
    requires some { 0 < N }
    requires many { first + 64 * N ≤ min end LINE_DOTS / 8 }
    ensures { RowsPainted LINE_ROWS Black (λ x k. not (slice_index_or same.now k false)
        && (span top (top + high) k && span (8 * first) end x)) band.old band.new }
{
    let last = end.min(LINE_DOTS) / 8;
    for i in 0..high {
        if !same[top + i] {
            blacken_bytes::<N>(first, last, band.row_mut(top + i));
        }
    }
}

/// Blackens the dots before `end` of those of `high` rows, from byte `first` and row `top` on, that have
/// their own bytes, where they are whole bytes, and many.
fn blacken_whole<A: Small>(
    first: usize,
    end: usize,
    high: usize,
    top: usize,
    same: &Same,
    band: &mut LineBand<A>,
)
    requires room { top + high ≤ LINE_ROWS }
    requires whole { min end LINE_DOTS % 8 ≡ 0 }
    requires many { first + 64 ≤ min end LINE_DOTS / 8 }
    ensures { RowsPainted LINE_ROWS Black (λ x k. not (slice_index_or same.now k false)
        && (span top (top + high) k && span (8 * first) end x)) band.old band.new }
{
    let last = end.min(LINE_DOTS) / 8;
    match (last - first) / 64 {
        1 => blacken_blocks::<1, A>(first, end, high, top, same, band),
        2 => blacken_blocks::<2, A>(first, end, high, top, same, band),
        _ => blacken_blocks::<3, A>(first, end, high, top, same, band),
    }
}

/// Blackens the dots from one on and before another of those of `high` rows, from row `top` on, that have
/// their own bytes.
fn blacken_each<A: Small>(
    from: u64,
    to: u64,
    high: usize,
    top: usize,
    same: &Same,
    band: &mut LineBand<A>,
)
    requires room { top + high ≤ LINE_ROWS }
    ensures { RowsPainted LINE_ROWS Black (λ x k. not (slice_index_or same.now k false)
        && (span top (top + high) k && span from to x)) band.old band.new }
{
    for i in 0..high {
        if !same[top + i] {
            fill_dots(Op::Black, from, to, band.row_mut(top + i));
        }
    }
}

/// Blackens `wide` dots of those of `high` rows, from column `at` and row `top` on, that have their own
/// bytes: of many, all whole bytes and then the few dots before and behind them.
fn blacken<A: Small>(
    wide: u32,
    high: usize,
    at: usize,
    top: usize,
    same: &Same,
    band: &mut LineBand<A>,
)
    requires room { top + high ≤ LINE_ROWS }
    requires at { at < 2 ^ 62 }
    ensures { RowsPainted LINE_ROWS Black (λ x k. not (slice_index_or same.now k false)
        && (span top (top + high) k && span at (at + wide) x)) band.old band.new }
{
    if wide <= NARROW {
        paint_alike(first_dots(wide), high, at, top, same, band);
        return;
    }
    let to = at + wide as usize;
    let first = at.div_ceil(8);
    let end = if to < LINE_DOTS { to / 8 * 8 } else { to };
    if first + 64 > end.min(LINE_DOTS) / 8 {
        blacken_each(at as u64, to as u64, high, top, same, band);
        return;
    }
    blacken_whole(first, end, high, top, same, band);
    paint_alike(
        first_dots((8 * first - at) as u32),
        high,
        at,
        top,
        same,
        band,
    );
    paint_alike(first_dots((to - end) as u32), high, end, top, same, band);
}

/// Paints ink at a place.
#[inline(always)]
fn paint_ink<I: Ink, A: Small>(ink: &I, at: u16, top: usize, band: &mut LineBand<A>)
    requires { top ≤ LINE_ROWS }
    ensures { RowsPainted LINE_ROWS Black (placed (pos at) (pos top) (I.ink_at ink.now)) band.old band.new }
{
    paint_at(ink, Op::Black, i64::from(at), top as i64, band);
}

/// Paints a character at a place, on those rows that have their own bytes: its rows, each drawn once however
/// often it is printed, and what is black whatever they show.
#[inline(never)]
fn paint_styled<A: Small>(
    cell: &Cell<'_, A>,
    at: u16,
    top: usize,
    same: &Same,
    band: &mut LineBand<A>,
)
    requires some { 0 < cell.now.style.hm }
    requires narrow { 6 * cell.now.style.wm ≤ NARROW }
    requires once { cell.now.style.hm ≡ 1 → (k : ℕ) → slice_index_or same.now k false ≡ false }
    requires room { top + cell_height cell.now.font cell.now.style ≤ LINE_ROWS }
    ensures { RowsPainted LINE_ROWS Black (λ x k. not (slice_index_or same.now k false)
        && placed (pos at) (pos top)
        (cell_dot cell.now.sheets.now cell.now.font cell.now.style cell.now.character) x k)
        band.old band.new }
{
    let style = cell.style;
    let (wm, hm) = (u32::from(style.wm), usize::from(style.hm));
    let at = usize::from(at);
    let high = cell.font.height() as usize;
    paint_dots(&cell.rows(), wm, high, hm, at, top, same, band);
    let filled = cell.filled();
    let (left, first) = (at + filled.left as usize, top + filled.top as usize);
    blacken(filled.wide, filled.high as usize, left, first, same, band);
}

/// Paints a character at a place where each row has its own bytes: as it stands in its sheet, where it is
/// printed so.
// Inlined, so that a run of characters looks once at how they are printed.
#[inline(always)]
fn paint_cell<A: Small>(
    cell: &Cell<'_, A>,
    at: u16,
    top: usize,
    same: &Same,
    band: &mut LineBand<A>,
)
    requires each { (k : ℕ) → slice_index_or same.now k false ≡ false }
    requires room { top + cell_height cell.now.font cell.now.style ≤ LINE_ROWS }
    ensures { RowsPainted LINE_ROWS Black (placed (pos at) (pos top)
        (cell_dot cell.now.sheets.now cell.now.font cell.now.style cell.now.character)) band.old band.new }
{
    if let Some(Ready { above, words }) = cell.ready() {
        paint_words(words, words.len(), usize::from(at), top + above, band);
    } else if cell.style.hm == 0 || u32::from(cell.style.wm) > NARROW / 6 {
        paint_at(cell, Op::Black, i64::from(at), top as i64, band);
    } else {
        paint_styled(cell, at, top, same, band);
    }
}

/// Paints a character at a place, on all rows from `top` on: where it is magnified upward, those alone that
/// may differ from the one above.
#[inline(always)]
fn paint_character<A: Small>(
    cell: &Cell<'_, A>,
    at: u16,
    top: usize,
    used: usize,
    told: &mut bool,
    band: &mut LineBand<A>,
    same: &mut Same,
)
    requires clear { IsClear used same.old band.old }
    requires none { told.old ≡ false → (y : ℕ) → slice_index_or same.old y false ≡ false }
    requires room { top + cell_height cell.now.font cell.now.style ≡ LINE_ROWS }
    ensures clear { IsClear (max used (LINE_ROWS - top)) same.new band.new }
    ensures none { told.new ≡ false → (y : ℕ) → slice_index_or same.new y false ≡ false }
    ensures painted { RowsPainted LINE_ROWS Black (placed (pos at) (pos top)
        (cell_dot cell.now.sheets.now cell.now.font cell.now.style cell.now.character))
        (shown_lines same.old band.old) (shown_lines same.new band.new) }
{
    if cell.style.hm > 1 && u32::from(cell.style.wm) <= NARROW / 6 {
        part_rows(cell.font, cell.style, top, band, same);
        paint_styled(cell, at, top, same, band);
        return;
    }
    part_told(used, told, band, same);
    paint_cell(cell, at, top, same, band);
}

impl<A: Small> Bitmap<A> {
    ghost use Rattle.vp_page.specs.Layers.{Layer, Laid, lines_mark};
    ghost use Rattle.vp_page.specs.Pages.{HasPage};

    /// One with no line.
    pub fn new(alloc: A) -> Result<Self, AllocError>
        ensures { IfOk result (λ bitmap. HasDots [] bitmap) }
    {
        let band = Band::new(alloc)?;
        Ok(Bitmap {
            band,
            used: 0,
            same: [true; LINE_ROWS],
            told: true,
        })
    }

    /// Begins a line.
    pub fn begin_line(&mut self)
        ensures { HasDots [] self.new }
    {
        clear(self.used, self.told, &mut self.band, &self.same);
        self.used = 0;
        self.same = [true; LINE_ROWS];
        self.told = true;
    }

    /// Puts ink into the line at a position, on its lowest rows.
    pub fn put_ink<I: Ink>(&mut self, ink: &I, at: u16)
        requires { I.height ink.now ≤ LINE_ROWS }
        ensures { (line : List Placed) → HasDots line self.old →
            HasDots (ink_placed at (I.width ink.now) (I.height ink.now) (I.ink_at ink.now) ∷ line) self.new }
    {
        let (_, high) = ink.size();
        let top = LINE_ROWS - high as usize;
        part_told(self.used, &mut self.told, &mut self.band, &mut self.same);
        paint_ink(ink, at, top, &mut self.band);
        self.used = self.used.max(high as usize);
    }

    /// Puts a character into the line at a position, on its lowest rows.
    #[inline(always)]
    pub fn put_cell(&mut self, cell: &Cell<'_, A>, at: u16)
        requires { cell_height cell.now.font cell.now.style ≤ LINE_ROWS }
        ensures { (line : List Placed) → HasDots line self.old →
            HasDots (ink_placed at (cell_width cell.now.font cell.now.style)
            (cell_height cell.now.font cell.now.style)
            (cell_dot cell.now.sheets.now cell.now.font cell.now.style cell.now.character) ∷ line) self.new }
    {
        let (_, high) = cell.size();
        let high = high as usize;
        let top = LINE_ROWS - high;
        paint_character(
            cell,
            at,
            top,
            self.used,
            &mut self.told,
            &mut self.band,
            &mut self.same,
        );
        self.used = self.used.max(high);
    }

    /// The bytes of a row.
    pub fn row(&self, y: usize) -> &[u8]
        requires { y < LINE_ROWS }
        ensures value { result.now ≡ slice_index_or self.now y [] }
        ensures len { length result.now ≡ LINE_BYTES }
    {
        self.band.row(own_row(y, &self.same))
    }

    /// Lays the lowest rows on a page, the first at a depth of an area.
    pub fn lay(&mut self, high: usize, area: Area, direction: Direction, v: u32, page: &mut Page<A>)
        requires { high ≤ LINE_ROWS }
        ensures kept { self.new ≡ self.old }
        ensures rows { LINE_ROWS ≤ length self.old }
        ensures laid { (lines : List (List ℕ)) → length lines ≡ high → ((i : ℕ) → i < high →
            slice_index_or lines i [] ≡ slice_index_or self.old (LINE_ROWS - high + i) []) →
            (layers : List Layer) → HasPage layers page.old →
            HasPage (Laid (lines_mark area direction v lines) ∷ layers) page.new }
    {
        let top = LINE_ROWS - high;
        part_row(top, &mut self.band, &mut self.same);
        let told = told_from(self.told, &self.same, top);
        page.lay_lines(area, direction, v, self.band.rows(top, LINE_ROWS), told);
    }

    /// The bytes of memory that it holds, on the heap.
    pub fn memory(&self) -> usize
        ensures { result ≡ LINE_ROWS * LINE_BYTES }
    {
        self.band.memory()
    }
}
