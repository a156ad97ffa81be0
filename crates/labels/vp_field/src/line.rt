//! One line of ink, drawn along the places of a row or a column, and painted on a row.
ghost use Rattle.std.specs.Prelude.{◌≡◌, ℕ, ◌+◌, ◌-◌, ◌*◌, ◌^◌, ◌<◌, ◌≤◌, ◌&&◌, Bool, true, ℤ, pos, ◌-ℤ◌, neg_ℤ, ◌≤ℤ◌, false, length};
ghost use Rattle.vp_dots.specs.Dots.{dot, shifted, span};
ghost use Rattle.vp_dots.specs.Painting.{Painted};
ghost use Rattle.vp_field.specs.Places.{at_place};
ghost use Rattle.vp_field.specs.Axes.{dot_on, read_at, IsWithin};
ghost use Rattle.vp_label_size.specs.declared.TheConstants.{BAND_BYTES};

use crate::axis::Axis;
use crate::pieces::Pieces;
use vp_dots::{Op, copy_reversed, paint_into};
use vp_label_size::BAND_BYTES;

/// The offset of a line that begins at a place, on a row that begins at another.
fn offset(at: i64, from: u32) -> i64
    requires low { neg_ℤ (pos (2 ^ 41)) ≤ℤ at }
    requires high { at ≤ℤ pos (2 ^ 41) }
    ensures { result ≡ at -ℤ pos from }
{
    at - i64::from(from)
}

/// The offset of a line that begins at a place, on a row of `bytes` bytes that begins at another and is read
/// from its end.
fn offset_from_end(at: i64, from: u32, bytes: usize) -> i64
    requires low { neg_ℤ (pos (2 ^ 41)) ≤ℤ at }
    requires high { at ≤ℤ pos (2 ^ 41) }
    requires few { bytes ≤ BAND_BYTES }
    ensures { result ≡ pos from -ℤ pos 1 -ℤ at -ℤ (neg_ℤ (pos (8 * bytes))) }
{
    i64::from(from) - 1 - at + 8 * bytes as i64
}

/// The offset at which a line on `axis` is drawn on the places of `bytes` bytes from place `from` on.
pub fn drawn_at(axis: Axis, from: u32, bytes: usize) -> i64
    requires near { IsWithin (2 ^ 41) axis }
    requires few { bytes ≤ BAND_BYTES }
    ensures low { neg_ℤ (pos (2 ^ 42)) ≤ℤ result }
    ensures high { result ≤ℤ pos (2 ^ 42) }
    ensures dots { (line dots : ℕ → Bool) → ((d : ℕ) → d < 8 * bytes → dots d ≡ shifted result line d)
        → (p : ℕ) → p < 8 * bytes
        → at_place line (dot_on axis (pos (from + p))) ≡ dots (read_at axis (8 * bytes) p) }
{
    match axis {
        Axis::Forward(at) => offset(at, from),
        Axis::Back(at) => offset_from_end(at, from, bytes),
    }
}

/// Draws line v of the ink at an offset, read from its end: of how many pieces.
// Inlined, and apart, so that a line that is read forwards makes no room for another.
#[inline(always)]
fn draw_reversed<I: Pieces, const N: usize>(ink: &I, v: u32, at: i64, line: &mut [u8; N]) -> u64
    ensures dots { (p : ℕ) → p < 8 * N → dot line.new p ≡ shifted at (λ u. I.ink_at ink.now u v)
        (8 * N - 1 - p) }
    ensures most { result ≤ I.most_pieces ink.now (8 * N) }
    ensures some { (p : ℕ) → p < 8 * N → dot line.new p ≡ true → 0 < result }
{
    let mut drawn = [0u8; N];
    let pieces = ink.paint_pieces(v, Op::Black, at, &mut drawn);
    copy_reversed(&drawn, line);
    pieces
}

/// Draws line v of the ink on N white bytes, the first place of which is `from`: of how many pieces.
pub fn draw<I: Pieces, const N: usize>(
    ink: &I,
    v: u32,
    axis: Axis,
    from: u32,
    line: &mut [u8; N],
) -> u64
    requires near { IsWithin (2 ^ 41) axis }
    requires few { N ≤ BAND_BYTES }
    requires white { (p : ℕ) → p < 8 * N → dot line.old p ≡ false }
    ensures dots { (p : ℕ) → p < 8 * N → dot line.new p ≡ at_place (λ u. I.ink_at ink.now u v)
        (dot_on axis (pos (from + p))) }
    ensures most { result ≤ I.most_pieces ink.now (8 * N) }
    ensures some { (p : ℕ) → p < 8 * N → dot line.new p ≡ true → 0 < result }
{
    let at = drawn_at(axis, from, N);
    match axis {
        Axis::Forward(_) => ink.paint_pieces(v, Op::Black, at, line),
        Axis::Back(_) => draw_reversed(ink, v, at, line),
    }
}

/// Applies the operation to the dots of the row where the line is black.
pub fn paint_over(op: Op, line: &[u8], row: &mut [u8])
    ensures { Painted op (dot line.now) row.old row.new }
{
    paint_into(op, line, 0, row);
}

/// The offset of a byte's first dot.
fn byte_offset(byte: usize) -> i64
    requires { byte ≤ BAND_BYTES }
    ensures { result ≡ pos (8 * byte) }
{
    8 * byte as i64
}

/// Applies the operation to the dots of the row where the line is black, on the bytes from one to another.
pub fn paint_bytes(op: Op, line: &[u8], from: usize, to: usize, row: &mut [u8])
    requires order { from ≤ to }
    requires to { to ≤ length line.now }
    requires few { from ≤ BAND_BYTES }
    ensures { Painted op (λ d. span (8 * from) (8 * to) d && dot line.now d) row.old row.new }
{
    paint_into(op, &line[from..to], byte_offset(from), row);
}

/// Applies the operation to the dots of a row of a label on which line v of the ink has ink. The line is
/// drawn first: of how many pieces comes back.
fn paint_drawn<I: Pieces>(ink: &I, v: u32, op: Op, axis: Axis, row: &mut [u8]) -> u64
    requires near { IsWithin (2 ^ 41) axis }
    requires row { length row.old ≡ BAND_BYTES }
    ensures painted { Painted op (λ p. at_place (λ u. I.ink_at ink.now u v) (dot_on axis (pos p))) row.old
        row.new }
    ensures most { result ≤ I.most_pieces ink.now (8 * BAND_BYTES) }
    ensures some { (p : ℕ) → p < 8 * BAND_BYTES
        → at_place (λ u. I.ink_at ink.now u v) (dot_on axis (pos p)) ≡ true → 0 < result }
{
    let mut line = [0u8; BAND_BYTES];
    let pieces = draw::<I, BAND_BYTES>(ink, v, axis, 0, &mut line);
    paint_over(op, &line, row);
    pieces
}

/// Applies the operation to the dots of a row of a label on which line v of the ink has ink: of how many
/// pieces the line was painted.
pub fn paint_line<I: Pieces>(ink: &I, v: u32, op: Op, axis: Axis, row: &mut [u8]) -> u64
    requires near { IsWithin (2 ^ 41) axis }
    requires row { length row.old ≡ BAND_BYTES }
    ensures painted { Painted op (λ p. at_place (λ u. I.ink_at ink.now u v) (dot_on axis (pos p))) row.old
        row.new }
    ensures most { result ≤ I.most_pieces ink.now (8 * BAND_BYTES) }
    ensures some { (p : ℕ) → p < 8 * BAND_BYTES
        → at_place (λ u. I.ink_at ink.now u v) (dot_on axis (pos p)) ≡ true → 0 < result }
{
    match axis {
        Axis::Forward(at) => ink.paint_pieces(v, op, at, row),
        Axis::Back(_) => paint_drawn(ink, v, op, axis, row),
    }
}
