//! Rows painted a byte at a time.
ghost use Rattle.std.specs.Prelude.{◌≡◌, ℕ, ◌+◌, ◌-◌, ◌/◌, ◌<◌, ◌≤◌, ◌==◌, ◌≢◌, Bool, false, ℤ, pos, ◌+ℤ◌, List, nat_le, nat_lt, ◌&&◌, if◌then◌else◌, length, slice_index};
ghost use Rattle.vp_dots.specs.Dots.{bit, dot, shifted, span};
ghost use Rattle.vp_dots.specs.Painting.{Painted};
ghost use Rattle.vp_dots.specs.declared.Op.{Op};
ghost use Rattle.vp_dots.specs.declared.Op.TheVariants.{Black, White, Flip};

use crate::Op;
use crate::single::painted_byte;
use std::simd::u8x32;

/// Eight bits out of two bytes, s from the right.
#[tactic(auto, using(crate::proofs::Windows::window_bit))]
#[inline(always)]
fn window(hi: u8, lo: u8, s: u32) -> u8
    requires { s ≤ 8 }
    ensures { (k : ℕ) → k < 8 →
        bit result k ≡ (if nat_lt (k + s) 8 then bit lo (k + s) else bit hi (k + s - 8)) }
{
    (((hi as u16 * 256 + lo as u16) >> s) & 255) as u8
}

/// The byte before byte i, or 0 where there is none.
fn byte_before(source: &[u8], i: usize) -> u8
    ensures { result ≡ (if nat_lt 0 i then slice_index source.now (i - 1) else 0) }
{
    if i > 0 && i - 1 < source.len() {
        source[i - 1]
    } else {
        0
    }
}

/// Byte i, or 0 past the end.
fn byte_at(source: &[u8], i: usize) -> u8
    ensures { result ≡ slice_index source.now i }
{
    if i < source.len() { source[i] } else { 0 }
}

/// Applies the operation to byte i of the row, if it has one, by the source moved s dots to the right.
fn paint_byte_right(op: Op, source: &[u8], s: u32, i: usize, row: &mut [u8])
    requires { s < 8 }
    ensures { Painted op (λ d. d / 8 == i && (nat_le s d && dot source.now (d - s))) row.old row.new }
{
    if i < row.len() {
        let ink = window(byte_before(source, i), byte_at(source, i), s);
        row[i] = painted_byte(op, row[i], ink);
    }
}

/// Applies the operation to byte i of the row, if it has one, by the source moved s dots to the left.
fn paint_byte_left(op: Op, source: &[u8], s: u32, i: usize, row: &mut [u8])
    requires { s < 8 }
    ensures { Painted op (λ d. d / 8 == i && dot source.now (d + s)) row.old row.new }
{
    if i < row.len() {
        let ink = window(byte_at(source, i), byte_at(source, i + 1), 8 - s);
        row[i] = painted_byte(op, row[i], ink);
    }
}

/// Applies the operation to 32 bytes of the row, where the same bytes of the source are set.
#[inline(always)]
fn paint_block(op: Op, source: &[u8], i: usize, row: &mut [u8])
    requires source { i + 32 ≤ length source.now }
    requires row { i + 32 ≤ length row.old }
    ensures { Painted op (λ d. span i (i + 32) (d / 8) && dot source.now d) row.old row.new }
{
    let ink = u8x32::from_slice(&source[i..]);
    let old = u8x32::from_slice(&row[i..]);
    let new = match op {
        Op::Black => old | ink,
        Op::White => old & !ink,
        Op::Flip => old ^ ink,
    };
    new.copy_to_slice(&mut row[i..]);
}

/// Applies the operation to the dots d of the row where dot d of the source is set.
#[inline(always)]
fn paint_straight(op: Op, source: &[u8], row: &mut [u8])
    ensures { Painted op (dot source.now) row.old row.new }
{
    let n = source.len().min(row.len());
    let mut i = 0;
    while n - i >= 32 {
        paint_block(op, source, i, row);
        i += 32;
    }
    while i < n {
        row[i] = painted_byte(op, row[i], source[i]);
        i += 1;
    }
}

/// The source moved s dots to the right, a byte at a time.
#[inline(always)]
fn paint_skewed_right(op: Op, source: &[u8], s: u32, row: &mut [u8])
    requires { s < 8 }
    ensures { Painted op (λ d. nat_le s d && dot source.now (d - s)) row.old row.new }
{
    let n = source.len().min(row.len());
    if n == 0 {
        return;
    }
    paint_byte_right(op, source, s, 0, row);
    for i in 1..n {
        row[i] = painted_byte(op, row[i], window(source[i - 1], source[i], s));
    }
    paint_byte_right(op, source, s, n, row);
}

/// The source moved s dots to the left, a byte at a time.
#[inline(always)]
fn paint_skewed_left(op: Op, source: &[u8], s: u32, row: &mut [u8])
    requires { s < 8 }
    ensures { Painted op (λ d. dot source.now (d + s)) row.old row.new }
{
    let n = source.len().min(row.len());
    if n == 0 {
        return;
    }
    for i in 0..n - 1 {
        row[i] = painted_byte(op, row[i], window(source[i], source[i + 1], 8 - s));
    }
    paint_byte_left(op, source, s, n - 1, row);
}

/// The source moved less than a byte to the right.
#[inline(always)]
fn paint_right(op: Op, source: &[u8], s: u32, row: &mut [u8])
    requires { s < 8 }
    ensures { Painted op (λ d. nat_le s d && dot source.now (d - s)) row.old row.new }
{
    if s == 0 {
        paint_straight(op, source, row);
    } else {
        paint_skewed_right(op, source, s, row);
    }
}

/// The source moved less than a byte to the left.
#[inline(always)]
fn paint_left(op: Op, source: &[u8], s: u32, row: &mut [u8])
    requires { s < 8 }
    ensures { Painted op (λ d. dot source.now (d + s)) row.old row.new }
{
    if s == 0 {
        paint_straight(op, source, row);
    } else {
        paint_skewed_left(op, source, s, row);
    }
}

/// The source moved to the right, by whole bytes and then by less than one.
#[inline(always)]
fn paint_far_right(op: Op, source: &[u8], far: u64, row: &mut [u8])
    ensures { Painted op (λ d. nat_le far d && dot source.now (d - far)) row.old row.new }
{
    let q = (far / 8) as usize;
    if q < row.len() {
        paint_right(op, source, (far % 8) as u32, &mut row[q..]);
    }
}

/// The source moved to the left, by whole bytes and then by less than one.
#[inline(always)]
fn paint_far_left(op: Op, source: &[u8], far: u64, row: &mut [u8])
    ensures { Painted op (λ d. dot source.now (d + far)) row.old row.new }
{
    let q = (far / 8) as usize;
    if q < source.len() {
        paint_left(op, &source[q..], (far % 8) as u32, row);
    }
}

/// Applies the operation to the dots d of the row where dot d - at of the source is set.
// Inlined, so that each caller's loops know their operation.
#[inline(always)]
fn paint_moved(op: Op, source: &[u8], at: i64, row: &mut [u8])
    ensures { Painted op (shifted at (dot source.now)) row.old row.new }
{
    if at >= 0 {
        paint_far_right(op, source, at.unsigned_abs(), row);
    } else {
        paint_far_left(op, source, at.unsigned_abs(), row);
    }
}

/// Blackens the dots d of the row where dot d - at of the source is black.
pub fn or_into(source: &[u8], at: i64, row: &mut [u8])
    ensures { Painted Black (shifted at (dot source.now)) row.old row.new }
{
    paint_moved(Op::Black, source, at, row);
}

/// Reverses the dots d of the row where dot d - at of the source is black.
pub fn xor_into(source: &[u8], at: i64, row: &mut [u8])
    ensures { Painted Flip (shifted at (dot source.now)) row.old row.new }
{
    paint_moved(Op::Flip, source, at, row);
}

/// Whitens the dots d of the row where dot d - at of the source is black.
pub fn clear_into(source: &[u8], at: i64, row: &mut [u8])
    ensures { Painted White (shifted at (dot source.now)) row.old row.new }
{
    paint_moved(Op::White, source, at, row);
}

/// Applies the operation to the dots d of the row where dot d - at of the source is black.
pub fn paint_into(op: Op, source: &[u8], at: i64, row: &mut [u8])
    ensures { Painted op (shifted at (dot source.now)) row.old row.new }
{
    match op {
        Op::Black => or_into(source, at, row),
        Op::White => clear_into(source, at, row),
        Op::Flip => xor_into(source, at, row),
    }
}

/// A law: what is moved by an offset has at place d what it had at the place that meets d, and
/// nothing where none does.
pub fn shift_law()
    ensures meets { (at : ℤ) (f : ℕ → Bool) (d x : ℕ) → pos d ≡ at +ℤ pos x → shifted at f d ≡ f x }
    ensures outside { (at : ℤ) (f : ℕ → Bool) (d : ℕ) → ((x : ℕ) → pos d ≢ at +ℤ pos x) →
        shifted at f d ≡ false }
{}

/// A law: no two rows are what painting makes of a row.
pub fn painted_law(one: &[u8], other: &[u8])
    ensures { (op : Op) (ink : ℕ → Bool) (row : List ℕ) → Painted op ink row one.now →
        Painted op ink row other.now → one.now ≡ other.now }
{}
