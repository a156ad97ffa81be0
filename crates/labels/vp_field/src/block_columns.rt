//! Blocks of lines whose rows fall on columns: many of them drawn at once, and laid 64 by 64.
ghost use Rattle.std.specs.Prelude.{◌≡◌, ℕ, ◌+◌, ◌-◌, ◌*◌, ◌<◌, ◌≤◌, ◌^◌, nat_le, ◌&&◌, true, false, pos, slice_index, slice_index_or, length, drop, [], ◌++◌, ◌⊎◌, MatchOption};
ghost use Rattle.vp_dots.specs.Dots.{dot, span};
ghost use Rattle.vp_dots.specs.declared.square.TheConstants.{SIDE};
ghost use Rattle.vp_dots.specs.Painting.{Painted};
ghost use Rattle.vp_dots.specs.Places.{RowsPainted};
ghost use Rattle.vp_dots.specs.Words.{word_dot};
ghost use Rattle.vp_dots.specs.declared.Op.TheVariants.{Black};
ghost use Rattle.vp_glyph.specs.Blocks.{block_dot, block_pieces};
ghost use Rattle.vp_glyph.specs.Halves.{half_dot};
ghost use Rattle.vp_glyph.specs.Layouts.{layout_of};
ghost use Rattle.vp_field.specs.Axes.{laid, read_at, IsWithin};
ghost use Rattle.vp_field.specs.Bands.{ShownPainted};
ghost use Rattle.vp_field.specs.declared.axis.Lines.TheVariants.{Across};
ghost use Rattle.vp_field.specs.declared.counted_columns.TheConstants.{COLUMNS};
ghost use Rattle.vp_label_size.specs.declared.TheConstants.{WIDEST, BAND_ROWS};

use crate::axis::{Axis, Window};
use crate::counted_columns::{COLUMNS, CountedColumns, Handed, ROW_WORDS};
use crate::laid::Laid;
use crate::line::drawn_at;
use crate::plain::{mixed_halves, word_of_plain};
use crate::square::{are_white, paint_square};
use vp_dots::{Ink, Op, SIDE, Small, paint_into, paint_word};
use vp_glyph::Block;
use vp_label_size::{BAND_ROWS, LabelBand};

/// The bytes of the columns of a label, and some more.
const ROW_BYTES: usize = 8 * ROW_WORDS;

/// Blackens the dots of a word from a dot of a row on.
fn add_word(word: u64, at: u64, row: &mut [u8])
    requires { at < 2 ^ 63 }
    ensures { Painted Black (λ d. nat_le at d && word_dot word (d - at)) row.old row.new }
{
    paint_word(Op::Black, word, at as i64, row);
}

/// Paints dots from dot x of a row on.
fn paint_from(op: Op, dots: &[u8], x: u64, row: &mut [u8])
    requires { x < 2 ^ 63 }
    ensures { Painted op (λ d. nat_le x d && dot dots.now (d - x)) row.old row.new }
{
    paint_into(op, dots, x as i64, row);
}

/// Paints the same dots from dot x on, on each row of a band.
fn paint_rows_alike<A: Small>(op: Op, dots: &[u8], x: u64, band: &mut LabelBand<A>)
    requires { x < 2 ^ 63 }
    ensures { RowsPainted BAND_ROWS op (λ d k. nat_le x d && dot dots.now (d - x)) band.old band.new }
{
    for k in 0..BAND_ROWS {
        paint_from(op, dots, x, band.row_mut(k));
    }
}

/// Makes fronts white from one on.
fn whiten_from(from: usize, fronts: &mut [u32; COLUMNS])
    requires { from ≤ COLUMNS }
    ensures before { (i : ℕ) → i < from → slice_index fronts.new i ≡ slice_index fronts.old i }
    ensures behind { (i : ℕ) → from ≤ i → slice_index fronts.new i ≡ 0 }
{
    fronts[from..].fill(0);
}

/// Lets so many fronts stand the other way round.
fn turn_round(many: usize, fronts: &mut [u32; COLUMNS])
    requires { many ≤ COLUMNS }
    ensures turned { (i : ℕ) → i < many
        → slice_index fronts.new i ≡ slice_index fronts.old (many - 1 - i) }
    ensures behind { (i : ℕ) → many ≤ i → slice_index fronts.new i ≡ slice_index fronts.old i }
{
    fronts[..many].reverse();
}

/// Lets so many fronts stand in the order of the columns on which they fall along an axis, and white ones
/// behind them.
fn in_order(axis: Axis, many: usize, fronts: &mut [u32; COLUMNS])
    requires { many ≤ COLUMNS }
    ensures order { (i : ℕ) → i < many
        → slice_index fronts.new i ≡ slice_index fronts.old (read_at axis many i) }
    ensures white { (i : ℕ) → many ≤ i → slice_index fronts.new i ≡ 0 }
{
    whiten_from(many, fronts);
    if let Axis::Back(_) = axis {
        turn_round(many, fronts);
    }
}

/// The next columns as a row of dots, word by word as long as each of a word's columns is black or white as a
/// whole: how many words they are, and the first columns that aren't so, if any are left.
fn plain_row<'a>(
    columns: &mut CountedColumns<'a>,
    row: &mut [u8; ROW_BYTES],
) -> (usize, Option<Handed<'a>>)
    requires white { (i : ℕ) → dot row.old i ≡ false }
    ensures plain { SIDE * result.0 ≤ length columns.old.left.now }
    ensures row { (i k : ℕ) → i < SIDE * result.0 → k < BAND_ROWS
        → dot row.new i ≡ half_dot (slice_index columns.old.left.now i) k }
    ensures mixed { let plain = SIDE * result.0
        in MatchOption result.1 ((columns.new.left.now ≡ []) × (length columns.old.left.now ≡ plain))
        (λ m. (m.x ≡ columns.old.x + plain) × (length m.columns.now ≡ SIDE)
        × (drop plain columns.old.left.now ≡ m.columns.now ++ columns.new.left.now)
        × (columns.new.x ≡ m.x + SIDE)) }
    ensures from { columns.new.from ≡ columns.old.from }
    ensures end { columns.new.end ≡ columns.old.end }
{
    let mut words = 0;
    while let Some(next) = columns.next() {
        if mixed_halves(next.columns) > 0 {
            return (words, Some(next));
        }
        add_word(word_of_plain(next.columns), (SIDE * words) as u64, row);
        words += 1;
    }
    (words, None)
}

/// Paints columns, and those that come next, at once.
fn paint_two<A: Small>(
    left: Handed<'_>,
    rest: &mut CountedColumns<'_>,
    op: Op,
    rows: Axis,
    band: &mut LabelBand<A>,
)
    requires place { left.x ≤ 2 ^ 33 }
    requires whole { length left.columns.now ≡ SIDE }
    ensures painted { RowsPainted BAND_ROWS op (λ d k. span left.entry.x (left.entry.x + 2 * SIDE) d
        && half_dot (slice_index (left.entry.columns.now ++ rest.old.left.now)
        (d - left.entry.x))
        (read_at rows BAND_ROWS k)) band.old band.new }
    ensures rest { ((rest.new ≡ rest.old) × (rest.old.left.now ≡ [])) ⊎ ((rest.new.x ≡ rest.old.x + SIDE)
        × (SIDE ≤ length rest.old.left.now) × (rest.new.left.now ≡ drop SIDE rest.old.left.now)) }
    ensures from { rest.new.from ≡ rest.old.from }
    ensures end { rest.new.end ≡ rest.old.end }
{
    match rest.next() {
        Some(right) => paint_square(op, left.columns, right.columns, rows, left.x, band),
        None => paint_square(op, left.columns, &[0; SIDE], rows, left.x, band),
    }
}

/// Paints columns, whose dots are read along an axis: how many.
fn paint_columns<A: Small>(
    columns: CountedColumns<'_>,
    op: Op,
    rows: Axis,
    band: &mut LabelBand<A>,
) -> u64
    ensures dots { RowsPainted BAND_ROWS op (λ d k.
        span columns.entry.x (columns.entry.x + length columns.entry.left.now) d
        && half_dot (slice_index columns.entry.left.now (d - columns.entry.x)) (read_at rows BAND_ROWS k))
        band.old band.new }
    ensures counted { result ≡ columns.entry.end - columns.entry.from }
{
    let mut rest = columns;
    let x = rest.place();
    let mut row = [0u8; ROW_BYTES];
    let (words, mut mixed) = plain_row(&mut rest, &mut row);
    paint_rows_alike(op, &row[..8 * words], x, band);
    while let Some(left) = mixed {
        paint_two(left, &mut rest, op, rows, band);
        mixed = rest.next();
    }
    rest.counted()
}

/// Draws the fronts of the rows of a block that fall on columns of the label: on which they do, and how many
/// lines of the text, and cells of these, were handed out and drawn.
fn draw_columns<A: Small>(
    block: &Block<'_, A>,
    lying: Laid,
    columns: u32,
    first: u32,
    fronts: &mut [u32; COLUMNS],
) -> (Window, u64)
    requires columns { IsWithin (2 ^ 41) lying.columns }
    requires rows { IsWithin (2 ^ 41) lying.rows }
    requires most { columns ≤ WIDEST }
    requires white { (i : ℕ) → slice_index fronts.old i ≡ 0 }
    ensures order { result.0.from ≤ result.0.to }
    ensures to { result.0.to ≤ columns }
    ensures only { (x k : ℕ) → x < columns → laid Across lying.columns lying.rows
        (λ u v. block_dot (layout_of block.now) block.now.text.now u v) (pos x) (pos (first + k)) ≡ true
        → (result.0.from ≤ x) × (x < result.0.to) }
    ensures drawn { (x k : ℕ) → result.0.from ≤ x → x < result.0.to → k < BAND_ROWS
        → laid Across lying.columns lying.rows
        (λ u v. block_dot (layout_of block.now) block.now.text.now u v) (pos x) (pos (first + k))
        ≡ half_dot (slice_index fronts.new
        (read_at lying.columns (result.0.to - result.0.from) (x - result.0.from)))
        (read_at lying.rows BAND_ROWS k) }
    ensures pieces { result.1 ≤ 2 * block_pieces block.now.text.now }
    ensures some { (i x : ℕ) → i < COLUMNS → x < 32 → half_dot (slice_index fronts.new i) x ≡ true
        → 0 < result.1 }
{
    let (_, height) = block.size();
    let window = lying.columns.window(height, columns);
    let many = (window.to - window.from) as usize;
    let at = drawn_at(lying.rows, first, 4);
    let pieces = block.draw_fronts(window.first, at, many, fronts);
    (window, pieces)
}

/// Paints a block of lines that lies across a band, whose first row is row `first` of the label, on the
/// columns of the label: how many lines of the text and cells of these it drew, and how many columns. It
/// counts, also on a label that has none.
pub fn paint_block_across<A: Small>(
    block: &Block<'_, A>,
    op: Op,
    lying: Laid,
    columns: u32,
    first: u32,
    band: &mut LabelBand<A>,
) -> u64
    requires lines { lying.lines ≡ Across }
    requires columns { IsWithin (2 ^ 41) lying.columns }
    requires rows { IsWithin (2 ^ 41) lying.rows }
    requires few { length block.now.text.now < 2 ^ 32 }
    requires most { columns ≤ WIDEST }
    ensures dots { ShownPainted columns op (λ x k. laid Across lying.columns lying.rows
        (λ u v. block_dot (layout_of block.now) block.now.text.now u v) (pos x) (pos (first + k))) band.old
        band.new }
    ensures lines { result ≤ 2 * block_pieces block.now.text.now + (2 * columns + 1) }
    ensures counted { 0 < result }
    ensures least { (x k : ℕ) → x < columns → k < BAND_ROWS → laid Across lying.columns lying.rows
        (λ u v. block_dot (layout_of block.now) block.now.text.now u v) (pos x) (pos (first + k)) ≡ true
        → columns + 2 ≤ result }
{
    let mut fronts = [0u32; COLUMNS];
    let (window, walked) = draw_columns(block, lying, columns, first, &mut fronts);
    let drew = u64::from(columns.max(1)) + walked;
    if are_white(&fronts) {
        return drew;
    }
    in_order(
        lying.columns,
        (window.to - window.from) as usize,
        &mut fronts,
    );
    let drawn = CountedColumns::new(&fronts, window.from, window.to);
    drew + paint_columns(drawn, op, lying.rows, band)
}
