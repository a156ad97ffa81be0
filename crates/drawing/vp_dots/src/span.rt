//! Spans of dots.
ghost use Rattle.std.specs.Prelude.{◌≡◌, ℕ, ◌-◌, ◌/◌, ◌%◌, ◌<◌, ◌≤◌, ◌==◌, nat_lt, nat_le, ◌&&◌, length};
ghost use Rattle.vp_dots.specs.Dots.{bit, shifted, span};
ghost use Rattle.vp_dots.specs.Painting.{Painted};

use crate::Op;
use crate::single::painted_byte;

/// A byte with its bits from this one on, counted from the left.
fn bits_from(from: u8) -> u8
    requires { from < 8 }
    ensures { (k : ℕ) → k < 8 → bit result k ≡ nat_le from (7 - k) }
{
    0xff >> from
}

/// A byte with its bits before this one, counted from the left.
fn bits_before(to: u8) -> u8
    requires { to < 8 }
    ensures { (k : ℕ) → k < 8 → bit result k ≡ nat_lt (7 - k) to }
{
    !(0xff >> to)
}

/// Applies the operation to byte i of the row, if it has one, at the bits of the mask.
#[inline(always)]
pub(crate) fn paint_masked(op: Op, mask: u8, i: u64, row: &mut [u8])
    ensures { Painted op (λ d. d / 8 == i && bit mask (7 - d % 8)) row.old row.new }
{
    if i < row.len() as u64 {
        row[i as usize] = painted_byte(op, row[i as usize], mask);
    }
}

/// Applies the operation to all dots of the bytes from <= i < to.
// Inlined, so that each caller's loop knows its operation.
#[inline(always)]
fn paint_bytes(op: Op, from: usize, to: usize, row: &mut [u8])
    requires { to ≤ length row.old }
    ensures { Painted op (λ d. span from to (d / 8)) row.old row.new }
{
    for i in from..to {
        row[i] = painted_byte(op, row[i], 0xff);
    }
}

/// Applies the operation to all dots of the bytes from <= i < to, with a loop for each operation.
fn fill_bytes(op: Op, from: usize, to: usize, row: &mut [u8])
    requires { to ≤ length row.old }
    ensures { Painted op (λ d. span from to (d / 8)) row.old row.new }
{
    match op {
        Op::Black => paint_bytes(Op::Black, from, to, row),
        Op::White => paint_bytes(Op::White, from, to, row),
        Op::Flip => paint_bytes(Op::Flip, from, to, row),
    }
}

/// Applies the operation to the row's dots d with from <= d < to.
pub fn fill_dots(op: Op, from: u64, to: u64, row: &mut [u8])
    ensures { Painted op (span from to) row.old row.new }
{
    if from >= to {
        return;
    }
    let first = from / 8;
    let last = to / 8;
    let head = bits_from((from % 8) as u8);
    let tail = bits_before((to % 8) as u8);
    if first == last {
        paint_masked(op, head & tail, first, row);
        return;
    }
    paint_masked(op, head, first, row);
    let whole = last.min(row.len() as u64);
    fill_bytes(op, (first + 1) as usize, whole as usize, row);
    paint_masked(op, tail, last, row);
}

/// Applies the operation to the dots from <= x < to, moved by an offset.
pub fn fill_moved(op: Op, at: i64, from: u32, to: u32, row: &mut [u8])
    ensures { Painted op (shifted at (span from to)) row.old row.new }
{
    let far = at.unsigned_abs();
    let from = u64::from(from);
    let to = u64::from(to);
    if at >= 0 {
        fill_dots(op, from + far, to + far, row);
    } else {
        fill_dots(op, from.saturating_sub(far), to.saturating_sub(far), row);
    }
}
