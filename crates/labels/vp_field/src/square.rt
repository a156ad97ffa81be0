//! Halves of words as columns of a band: turned at once, and painted.
ghost use Rattle.std.specs.Prelude.{◌≡◌, ℕ, ◌+◌, ◌*◌, ◌<◌, ◌≤◌, ◌^◌, ◌&&◌, Bool, true, false, [], slice_index, slice_index_or};
ghost use Rattle.vp_dots.specs.Dots.{dots, span};
ghost use Rattle.vp_dots.specs.Places.{RowsPainted};
ghost use Rattle.vp_dots.specs.Words.{word_dot};
ghost use Rattle.vp_dots.specs.declared.square.TheConstants.{SIDE};
ghost use Rattle.vp_glyph.specs.Halves.{half_dot};
ghost use Rattle.vp_field.specs.Axes.{read_at};
ghost use Rattle.vp_label_size.specs.declared.TheConstants.{BAND_ROWS};

use crate::axis::Axis;
use crate::plain::turned_halves;
use vp_dots::{Op, SIDE, Small, inked, paint_words, turned_square};
use vp_label_size::{BAND_ROWS, LabelBand};

/// So many halves of words are looked at at once.
const AT_ONCE: usize = 16;

/// Whether all halves of words are white.
#[inline(always)]
pub fn are_white<const N: usize>(halves: &[u32; N]) -> bool
    ensures { result ≡ true → (i x : ℕ) → i < N → half_dot (slice_index halves.now i) x ≡ false }
{
    let mut i = 0;
    while N - i >= AT_ONCE {
        if inked::<AT_ONCE>(halves, i) != 0 {
            return false;
        }
        i += AT_ONCE;
    }
    while i < N {
        if halves[i] != 0 {
            return false;
        }
        i += 1;
    }
    true
}

/// A word of two halves.
#[inline(always)]
pub fn of_halves(left: u32, right: u32) -> u64
    ensures left { (x : ℕ) → x < 32 → word_dot result x ≡ half_dot left x }
    ensures right { (x : ℕ) → x < 32 → word_dot result (32 + x) ≡ half_dot right x }
{
    u64::from(left) * 0x1_0000_0000 + u64::from(right)
}

/// A square of which each row has two halves.
pub fn square_of(left: &[u32; SIDE], right: &[u32; SIDE]) -> [u64; SIDE]
    ensures left { (i x : ℕ) → i < SIDE → x < 32
        → word_dot (slice_index result i) x ≡ half_dot (slice_index left.now i) x }
    ensures right { (i x : ℕ) → i < SIDE → x < 32
        → word_dot (slice_index result i) (32 + x) ≡ half_dot (slice_index right.now i) x }
{
    let mut square = [0u64; SIDE];
    for i in 0..SIDE {
        square[i] = of_halves(left[i], right[i]);
    }
    square
}

/// As many rows of a square as a band has, from one on, read along an axis.
fn rows_along(square: &[u64; SIDE], from: usize, axis: Axis) -> [u64; BAND_ROWS]
    requires { from + BAND_ROWS ≤ SIDE }
    ensures { (k : ℕ) → k < BAND_ROWS
        → slice_index result k ≡ slice_index square.now (from + read_at axis BAND_ROWS k) }
{
    let mut along = [0u64; BAND_ROWS];
    for k in 0..BAND_ROWS {
        along[k] = square[from + axis.read_at(BAND_ROWS, k)];
    }
    along
}

/// Paints as many columns as a square has, the first of which is x: their dots are on rows of the square from
/// one on, read along an axis.
fn paint_rows<A: Small>(
    op: Op,
    square: &[u64; SIDE],
    from: usize,
    rows: Axis,
    x: u64,
    band: &mut LabelBand<A>,
)
    requires from { from + BAND_ROWS ≤ SIDE }
    requires x { x < 2 ^ 63 }
    ensures { (ink : ℕ → ℕ → Bool)
        → ((i k : ℕ) → i < SIDE → k < BAND_ROWS → x + i < dots (slice_index_or band.old k [])
        → word_dot (slice_index square.now (from + read_at rows BAND_ROWS k)) i ≡ ink (x + i) k)
        → RowsPainted BAND_ROWS op (λ d k. span x (x + SIDE) d && ink d k) band.old band.new }
{
    let along = rows_along(square, from, rows);
    paint_words(op, &along, BAND_ROWS, x as i64, 0, band);
}

/// Paints as many columns as a square has, the first of which is x, from halves of words whose dots are read
/// along an axis.
pub fn paint_narrow<A: Small>(
    op: Op,
    halves: &[u32; SIDE],
    rows: Axis,
    x: u64,
    band: &mut LabelBand<A>,
)
    requires x { x < 2 ^ 62 }
    ensures { (ink : ℕ → ℕ → Bool)
        → ((i k : ℕ) → i < SIDE → k < BAND_ROWS → x + i < dots (slice_index_or band.old k [])
        → half_dot (slice_index halves.now i) (read_at rows BAND_ROWS k) ≡ ink (x + i) k)
        → RowsPainted BAND_ROWS op (λ d k. span x (x + SIDE) d && ink d k) band.old band.new }
{
    if are_white(halves) {
        return;
    }
    let square = square_of(halves, &[0; SIDE]);
    paint_rows(op, &turned_square(&square), 0, rows, x, band);
}

/// Paints twice as many columns, the first of which is x: they are turned at once.
pub fn paint_square<A: Small>(
    op: Op,
    left: &[u32; SIDE],
    right: &[u32; SIDE],
    rows: Axis,
    x: u64,
    band: &mut LabelBand<A>,
)
    requires x { x < 2 ^ 62 }
    ensures { (ink : ℕ → ℕ → Bool)
        → ((i k : ℕ) → i < SIDE → k < BAND_ROWS → x + i < dots (slice_index_or band.old k [])
        → half_dot (slice_index left.now i) (read_at rows BAND_ROWS k) ≡ ink (x + i) k)
        → ((i k : ℕ) → i < SIDE → k < BAND_ROWS → x + SIDE + i < dots (slice_index_or band.old k [])
        → half_dot (slice_index right.now i) (read_at rows BAND_ROWS k) ≡ ink (x + SIDE + i) k)
        → RowsPainted BAND_ROWS op (λ d k. span x (x + 2 * SIDE) d && ink d k) band.old band.new }
{
    if are_white(left) && are_white(right) {
        return;
    }
    let square = turned_halves(left, right);
    paint_rows(op, &square, 0, rows, x, band);
    paint_rows(op, &square, BAND_ROWS, rows, x + SIDE as u64, band);
}
