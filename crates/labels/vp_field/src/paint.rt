//! Ink painted on a band of a label: along its rows here.
ghost use Rattle.std.specs.Prelude.{◌≡◌, ℕ, ◌+◌, ◌*◌, ◌^◌, ◌<◌, ◌≤◌, ◌&&◌, [], Bool, true, false, pos, length, slice_index_or};
ghost use Rattle.vp_dots.specs.Dots.{span};
ghost use Rattle.vp_field.specs.Places.{at_place};
ghost use Rattle.vp_field.specs.Axes.{dot_on, laid, shown_dot, AreWhiteBeside, IsWithin};
ghost use Rattle.vp_field.specs.Bands.{ShownPainted, IsCounted};
ghost use Rattle.vp_field.specs.Counts.{ArePieces};
ghost use Rattle.vp_field.specs.Contents.{lines_cost};
ghost use Rattle.vp_field.specs.declared.axis.Lines.TheVariants.{Along, Across};
ghost use Rattle.vp_label_size.specs.declared.TheConstants.{WIDEST, BAND_BYTES, BAND_ROWS};

use crate::across::paint_across;
use crate::axis::{Axis, Lines};
use crate::line::paint_bytes;
use crate::pen::{Pen, Shown};
use crate::pieces::Pieces;
use vp_dots::{Op, Small};
use vp_label_size::{BAND_BYTES, BAND_ROWS, LabelBand};

/// Each row of a band has `BAND_BYTES` bytes.
pub fn row_lengths<A: Small>(band: &LabelBand<A>)
    ensures { (k : ℕ) → k < BAND_ROWS → length (slice_index_or band.now k []) ≡ BAND_BYTES }
{
    for k in 0..32usize {
        let _row = band.row(k);
    }
}

/// As many bytes are painted at once where a row is.
const BLOCK: u64 = 32;

/// The dots of as many bytes.
const BLOCK_DOTS: u64 = 8 * BLOCK;

/// Which bytes of a row of a band lines may reach: those from one to another.
#[derive(Clone, Copy)]
struct Reach {
    from: usize,
    to: usize,
    ghost order: { from ≤ to },
    ghost within: { to ≤ BAND_BYTES },
}

/// The bytes that lines of so many dots may reach on so many columns of the label, in whole blocks.
fn reached(columns: Axis, width: u32, seen: u32) -> Reach
    requires { seen ≤ WIDEST }
    ensures { (line : ℕ → Bool) → ((u : ℕ) → line u ≡ true → u < width) → (p : ℕ) → p < seen
        → span (8 * result.from) (8 * result.to) p ≡ false → at_place line (dot_on columns (pos p)) ≡ false }
{
    let (left, right) = columns.span(width);
    let edge = right.min(u64::from(seen));
    let to = (edge.div_ceil(BLOCK_DOTS) * BLOCK).min(BAND_BYTES as u64) as usize;
    let from = (left / BLOCK_DOTS * BLOCK).min(to as u64) as usize;
    Reach { from, to }
}

/// Paints rows of the band, from row k on, each of which shows the same line, which is drawn once. On columns
/// beside the bytes that it is laid on the line is white.
// Apart, so that a single row makes no room for a line.
fn paint_drawn<I: Pieces, A: Small>(
    pen: &mut Pen<'_, I, BAND_BYTES>,
    shown: Shown,
    op: Op,
    columns: Axis,
    reach: Reach,
    k: usize,
    band: &mut LabelBand<A>,
)
    requires columns { IsWithin (2 ^ 41) columns }
    requires inside { k + shown.places ≤ BAND_ROWS }
    requires count { pen.old.lines < 2 ^ 22 }
    requires within { ArePieces (I.most_pieces pen.old.ink.now (8 * BAND_BYTES)) pen.old.lines
        pen.old.pieces }
    ensures ink { pen.new.ink ≡ pen.old.ink }
    ensures counted { pen.new.lines ≡ pen.old.lines + 1 }
    ensures within { ArePieces (I.most_pieces pen.new.ink.now (8 * BAND_BYTES)) pen.new.lines
        pen.new.pieces }
    ensures painted { (seen : ℕ)
        → AreWhiteBeside (I.ink_at pen.old.ink.now) columns seen reach.from reach.to
        → ShownPainted seen op (λ x r. span k (k + shown.places) r
        && shown_dot (I.ink_at pen.old.ink.now) columns shown.line x) band.old band.new }
{
    let mut line = [0u8; BAND_BYTES];
    pen.draw_on(shown, columns, 0, &mut line);
    for i in 0..shown.places as usize {
        paint_bytes(op, &line, reach.from, reach.to, band.row_mut(k + i));
    }
}

/// Paints rows of the band, from row k on, each of which shows the same line: a single one at once.
fn paint_alike<I: Pieces, A: Small>(
    pen: &mut Pen<'_, I, BAND_BYTES>,
    shown: Shown,
    op: Op,
    columns: Axis,
    reach: Reach,
    k: usize,
    band: &mut LabelBand<A>,
)
    requires columns { IsWithin (2 ^ 41) columns }
    requires inside { k + shown.places ≤ BAND_ROWS }
    requires count { pen.old.lines < 2 ^ 22 }
    requires within { ArePieces (I.most_pieces pen.old.ink.now (8 * BAND_BYTES)) pen.old.lines
        pen.old.pieces }
    ensures ink { pen.new.ink ≡ pen.old.ink }
    ensures counted { pen.new.lines ≡ pen.old.lines + 1 }
    ensures within { ArePieces (I.most_pieces pen.new.ink.now (8 * BAND_BYTES)) pen.new.lines
        pen.new.pieces }
    ensures painted { (seen : ℕ)
        → AreWhiteBeside (I.ink_at pen.old.ink.now) columns seen reach.from reach.to
        → ShownPainted seen op (λ x r. span k (k + shown.places) r
        && shown_dot (I.ink_at pen.old.ink.now) columns shown.line x) band.old band.new }
{
    if shown.places == 1 {
        pen.paint_on(shown, op, columns, band.row_mut(k));
        return;
    }
    paint_drawn(pen, shown, op, columns, reach, k, band);
}

/// Paints ink whose lines lie along the rows, on so many columns of the label: how many lines it drew, and
/// pieces of them.
fn paint_along<I: Pieces, A: Small>(
    ink: Pen<'_, I, BAND_BYTES>,
    op: Op,
    columns: Axis,
    rows: Axis,
    seen: u32,
    first: u32,
    band: &mut LabelBand<A>,
) -> u64
    requires fresh { ink.lines ≡ 0 }
    requires whole { ink.pieces ≡ 0 }
    requires few { I.most_pieces ink.ink.now (8 * BAND_BYTES) ≤ 2 ^ 40 }
    requires near { IsWithin (2 ^ 41) columns }
    requires seen { seen ≤ WIDEST }
    ensures dots { ShownPainted seen op (λ x k. laid Along columns rows (I.ink_at ink.entry.ink.now) (pos x)
        (pos (first + k))) band.old band.new }
    ensures lines { result ≤ lines_cost Along (I.most_pieces ink.entry.ink.now) }
    ensures counted { IsCounted (λ x k. laid Along columns rows (I.ink_at ink.entry.ink.now) (pos x)
        (pos (first + k))) result }
{
    let mut pen = ink;
    let (w, h) = pen.size();
    let reach = reached(columns, w, seen);
    let (from, to) = rows.span(h);
    let first = u64::from(first);
    let mut k = from.saturating_sub(first);
    let end = to.saturating_sub(first).min(BAND_ROWS as u64);
    while k < end {
        let shown = pen.shown(rows, first + k, first + end);
        paint_alike(&mut pen, shown, op, columns, reach, k as usize, band);
        k += shown.places;
    }
    pen.work()
}

/// Applies the operation to the dots of a band that are on so many columns of the label, where ink that lies
/// so on the label has ink. The band's first row is row `first` of the label. How many lines were drawn, and
/// pieces of them, comes back.
pub fn paint_laid<I: Pieces, A: Small>(
    ink: &I,
    op: Op,
    lines: Lines,
    columns: Axis,
    rows: Axis,
    seen: u32,
    first: u32,
    band: &mut LabelBand<A>,
) -> u64
    requires columns { IsWithin (2 ^ 41) columns }
    requires rows { IsWithin (2 ^ 41) rows }
    requires few { (d : ℕ) → I.most_pieces ink.now d ≤ 2 ^ 40 }
    requires seen { seen ≤ WIDEST }
    ensures dots { ShownPainted seen op (λ x k. laid lines columns rows (I.ink_at ink.now) (pos x)
        (pos (first + k))) band.old band.new }
    ensures lines { result ≤ lines_cost lines (I.most_pieces ink.now) }
    ensures counted { IsCounted (λ x k. laid lines columns rows (I.ink_at ink.now) (pos x) (pos (first + k)))
        result }
{
    match lines {
        Lines::Along => paint_along(Pen::new(ink), op, columns, rows, seen, first, band),
        Lines::Across => paint_across(Pen::new(ink), op, columns, rows, seen, first, band),
    }
}
