//! Single dots, and rows painted dot by dot: the slow reference of the kernels.
ghost use Rattle.std.specs.Prelude.{◌≡◌, ℕ, ◌^◌, ◌<◌, ◌==◌};
ghost use Rattle.vp_dots.specs.Dots.{bit, dot, shifted};
ghost use Rattle.vp_dots.specs.Painting.{paint, Painted};

use crate::Op;

/// Dot d of a row, false outside.
#[tactic(auto, using(crate::proofs::Rows::dot_read, crate::proofs::Rows::dot_past))]
pub fn dot_of(row: &[u8], d: u128) -> bool
    ensures { result ≡ dot row.now d }
{
    d / 8 < row.len() as u128 && row[(d / 8) as usize] >> (7 - d % 8) & 1 == 1
}

/// The byte with the operation applied at the bits of the mask.
#[inline(always)]
pub(crate) fn painted_byte(op: Op, byte: u8, mask: u8) -> u8
    ensures { (k : ℕ) → k < 8 → bit result k ≡ paint op (bit mask k) (bit byte k) }
{
    match op {
        Op::Black => byte | mask,
        Op::White => byte & !mask,
        Op::Flip => byte ^ mask,
    }
}

/// Applies the operation to one dot, where the row has it.
pub fn paint_dot(op: Op, at: u128, row: &mut [u8])
    ensures { Painted op (λ d. d == at) row.old row.new }
{
    if at / 8 < row.len() as u128 {
        let i = (at / 8) as usize;
        row[i] = painted_byte(op, row[i], 0x80 >> (at % 8));
    }
}

/// Applies the operation to dot x, moved by an offset.
pub(crate) fn paint_moved_dot(op: Op, at: i64, x: u128, row: &mut [u8])
    requires { x < 2 ^ 127 }
    ensures { Painted op (shifted at (λ i. i == x)) row.old row.new }
{
    let far = u128::from(at.unsigned_abs());
    if at >= 0 {
        paint_dot(op, x + far, row);
    } else if x >= far {
        paint_dot(op, x - far, row);
    }
}

/// Applies the operation to the dots d of the row where dot d - at of the source is set.
pub fn paint_bits(op: Op, source: &[u8], at: i64, row: &mut [u8])
    ensures { Painted op (shifted at (dot source.now)) row.old row.new }
{
    for x in 0..8 * source.len() as u128 {
        if dot_of(source, x) {
            paint_moved_dot(op, at, x, row);
        }
    }
}
