//! Ink whose lines lie across the rows of a band: 128 columns are turned at once, and a run of one line is
//! painted row by row.
ghost use Rattle.std.specs.Prelude.{◌≡◌, ℕ, ◌+◌, ◌-◌, ◌*◌, ◌<◌, ◌≤◌, ◌^◌, ◌&&◌, min, nat_lt, pos, slice_index};
ghost use Rattle.vp_dots.specs.Dots.{dot, span};
ghost use Rattle.vp_dots.specs.Painting.{Painted};
ghost use Rattle.vp_dots.specs.Places.{RowsPainted};
ghost use Rattle.vp_dots.specs.declared.square.TheConstants.{SIDE};
ghost use Rattle.vp_glyph.specs.Halves.{half_dot};
ghost use Rattle.vp_field.specs.Axes.{IsWithin, laid};
ghost use Rattle.vp_field.specs.Bands.{ShownPainted};
ghost use Rattle.vp_field.specs.Counts.{ArePieces};
ghost use Rattle.vp_field.specs.Contents.{lines_cost};
ghost use Rattle.vp_field.specs.declared.axis.Lines.TheVariants.{Across};
ghost use Rattle.vp_label_size.specs.declared.TheConstants.{WIDEST, BAND_ROWS};

use crate::axis::Axis;
use crate::pen::Pen;
use crate::pieces::Pieces;
use crate::square::{paint_narrow, paint_square};
use vp_dots::{Op, SIDE, Small, dot_of, fill_dots};
use vp_label_size::{BAND_ROWS, LabelBand};

/// The columns of a square.
const COLUMNS: u64 = SIDE as u64;

/// As many columns that are known to be alike are painted row by row.
const RUN: u64 = 32;

/// Four bytes as half a word.
fn half_of(line: &[u8; 4]) -> u32
    ensures { (x : ℕ) → x < 32 → half_dot result x ≡ dot line.now x }
{
    u32::from_be_bytes(*line)
}

/// Sets the halves of words from one to another.
fn set_run(half: u32, from: usize, to: usize, halves: &mut [u32; SIDE])
    requires ordered { from ≤ to }
    requires to { to ≤ SIDE }
    ensures before { (i : ℕ) → i < from → slice_index halves.new i ≡ slice_index halves.old i }
    ensures inside { (i : ℕ) → from ≤ i → i < to → slice_index halves.new i ≡ half }
    ensures behind { (i : ℕ) → to ≤ i → slice_index halves.new i ≡ slice_index halves.old i }
{
    for i in from..to {
        halves[i] = half;
    }
}

/// The ink on as many columns of the label as a square has, the first of which is x, white from another
/// column on: what is known to be alike is drawn once.
fn halves_of<I: Pieces>(
    pen: &mut Pen<'_, I, 4>,
    columns: Axis,
    rows: Axis,
    x: u64,
    end: u64,
    first: u32,
) -> [u32; SIDE]
    requires low { I.height pen.old.ink.now < 2 ^ 32 }
    requires near { IsWithin (2 ^ 41) rows }
    requires x { x < 2 ^ 62 }
    requires count { pen.old.lines < 2 ^ 21 }
    requires within { ArePieces (I.most_pieces pen.old.ink.now BAND_ROWS) pen.old.lines pen.old.pieces }
    ensures dots { (i k : ℕ) → i < SIDE → k < BAND_ROWS → half_dot (slice_index result i) k
        ≡ (nat_lt (x + i) end && laid Across columns rows (I.ink_at pen.old.ink.now) (pos (x + i))
        (pos (first + k))) }
    ensures ink { pen.new.ink ≡ pen.old.ink }
    ensures within { ArePieces (I.most_pieces pen.new.ink.now BAND_ROWS) pen.new.lines pen.new.pieces }
    ensures few { pen.new.lines ≤ pen.old.lines + SIDE }
    ensures lines { pen.new.lines ≤ pen.old.lines + (end - x) }
    ensures more { pen.old.lines ≤ pen.new.lines }
    ensures some { x < end → pen.old.lines < pen.new.lines }
{
    let many = end.saturating_sub(x).min(COLUMNS);
    let mut halves = [0u32; SIDE];
    let mut i = 0;
    while i < many {
        let shown = pen.shown(columns, x + i, x + many);
        let mut line = [0u8; 4];
        pen.draw_on(shown, rows, first, &mut line);
        let behind = i + shown.places;
        set_run(half_of(&line), i as usize, behind as usize, &mut halves);
        i = behind;
    }
    halves
}

/// Paints the dots of a row of the band from one to another, where they have ink.
fn paint_dots(op: Op, ink: bool, from: u64, to: u64, row: &mut [u8])
    ensures { Painted op (λ d. span from to d && ink) row.old row.new }
{
    if ink {
        fill_dots(op, from, to, row);
    }
}

/// Paints columns of the band from one to another, each of which shows the same line.
fn paint_run<A: Small>(op: Op, line: [u8; 4], from: u64, to: u64, band: &mut LabelBand<A>)
    ensures { RowsPainted BAND_ROWS op (λ d k. span from to d && dot line k) band.old band.new }
{
    for k in 0..32usize {
        paint_dots(op, dot_of(&line, k as u128), from, to, band.row_mut(k));
    }
}

/// Paints columns of the band from x on, and before another: how many. A long run that is known to be alike
/// is painted row by row.
fn paint_columns<I: Pieces, A: Small>(
    pen: &mut Pen<'_, I, 4>,
    op: Op,
    columns: Axis,
    rows: Axis,
    x: u64,
    end: u64,
    first: u32,
    band: &mut LabelBand<A>,
) -> u64
    requires low { I.height pen.old.ink.now < 2 ^ 32 }
    requires near { IsWithin (2 ^ 41) rows }
    requires x { x < end }
    requires end { end < 2 ^ 61 }
    requires count { pen.old.lines < 2 ^ 20 }
    requires within { ArePieces (I.most_pieces pen.old.ink.now BAND_ROWS) pen.old.lines pen.old.pieces }
    ensures some { 0 < result }
    ensures most { result ≤ 2 ^ 61 }
    ensures painted { RowsPainted BAND_ROWS op (λ d k. span x (x + result) d
        && (nat_lt d end && laid Across columns rows (I.ink_at pen.old.ink.now) (pos d) (pos (first + k))))
        band.old band.new }
    ensures ink { pen.new.ink ≡ pen.old.ink }
    ensures within { ArePieces (I.most_pieces pen.new.ink.now BAND_ROWS) pen.new.lines pen.new.pieces }
    ensures counted { pen.old.lines < pen.new.lines }
    ensures lines { pen.new.lines ≤ pen.old.lines + min result (end - x) }
{
    let shown = pen.shown(columns, x, end);
    if shown.places >= RUN {
        let mut line = [0u8; 4];
        pen.draw_on(shown, rows, first, &mut line);
        paint_run(op, line, x, x + shown.places, band);
        return shown.places;
    }
    let left = halves_of(pen, columns, rows, x, end, first);
    if end - x <= COLUMNS {
        paint_narrow(op, &left, Axis::Forward(0), x, band);
        return COLUMNS;
    }
    let right = halves_of(pen, columns, rows, x + COLUMNS, end, first);
    paint_square(op, &left, &right, Axis::Forward(0), x, band);
    2 * COLUMNS
}

/// Paints ink whose lines lie across the rows, on so many columns of the label: how many lines it drew, and
/// pieces of them. The first is drawn wherever it falls.
pub fn paint_across<I: Pieces, A: Small>(
    ink: Pen<'_, I, 4>,
    op: Op,
    columns: Axis,
    rows: Axis,
    seen: u32,
    first: u32,
    band: &mut LabelBand<A>,
) -> u64
    requires fresh { ink.lines ≡ 0 }
    requires whole { ink.pieces ≡ 0 }
    requires few { I.most_pieces ink.ink.now BAND_ROWS ≤ 2 ^ 40 }
    requires columns { IsWithin (2 ^ 41) columns }
    requires rows { IsWithin (2 ^ 41) rows }
    requires seen { seen ≤ WIDEST }
    ensures dots { ShownPainted seen op (λ x k. laid Across columns rows (I.ink_at ink.entry.ink.now) (pos x)
        (pos (first + k))) band.old band.new }
    ensures lines { result ≤ lines_cost Across (I.most_pieces ink.entry.ink.now) }
    ensures counted { 0 < result }
{
    let mut pen = ink;
    let (_, h) = pen.size();
    let (from, to) = columns.span(h);
    let end = to.min(u64::from(seen)).max(from + 1);
    let mut x = from;
    while x < end {
        x += paint_columns(&mut pen, op, columns, rows, x, end, first, band);
    }
    pen.work()
}
