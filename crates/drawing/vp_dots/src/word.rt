//! Words of 64 dots, the leftmost in the highest bit: cut out of rows of bytes, and painted on them.
ghost use Rattle.std.specs.Prelude.{◌≡◌, ℕ, ◌+◌, ◌-◌, ◌*◌, ◌/◌, ◌<◌, ◌≤◌, ◌^◌, nat_lt, nat_le, ◌&&◌, false, length};
ghost use Rattle.vp_dots.specs.Dots.{bit, dot, shifted};
ghost use Rattle.vp_dots.specs.Painting.{paint, Painted};
ghost use Rattle.vp_dots.specs.declared.word.TheConstants.{NARROW};
ghost use Rattle.vp_dots.specs.Words.{word_dot};

use crate::Op;
use crate::kernel::{or_into, paint_into};
use crate::span::paint_masked;
use std::simd::u8x8;

/// The most dots of a row for which eight bytes have room wherever it begins.
pub const NARROW: u32 = 57;

/// The word with the operation applied where the ink is black.
#[inline(always)]
fn painted_word(op: Op, word: u64, ink: u64) -> u64
    ensures { (k : ℕ) → k < 64 → bit result k ≡ paint op (bit ink k) (bit word k) }
{
    match op {
        Op::Black => word | ink,
        Op::White => word & !ink,
        Op::Flip => word ^ ink,
    }
}

/// Applies the operation to eight bytes of the row, from byte i on, where the word is black.
// The compiler joins the eight bytes that are written to one word.
#[inline(always)]
fn paint_eight(op: Op, word: u64, i: usize, row: &mut [u8])
    requires { i + 8 ≤ length row.old }
    ensures { Painted op (λ d. nat_le (8 * i) d && word_dot word (d - 8 * i)) row.old row.new }
{
    let new = painted_word(op, eight_at(row, i), word);
    for j in 0..8usize {
        row[i + j] = (new >> (56 - 8 * j) & 255) as u8;
    }
}

/// The dots that a word loses when it moves s dots to the right.
#[inline(always)]
fn lost(word: u64, s: u32) -> u8
    requires { s < 8 }
    ensures { (k : ℕ) → k < 8 → bit result k ≡ (nat_le (8 - s) k && bit word (k - (8 - s))) }
{
    (((word & 255) * 256) >> s & 255) as u8
}

/// Applies the operation to the dots d of the row where dot d - far of the word
/// is black: the row has room for nine bytes.
#[inline(always)]
fn paint_inside(op: Op, word: u64, far: u64, row: &mut [u8])
    requires { far / 8 + 9 ≤ length row.old }
    ensures { Painted op (λ d. nat_le far d && word_dot word (d - far)) row.old row.new }
{
    let s = (far % 8) as u32;
    paint_eight(op, word >> s, (far / 8) as usize, row);
    paint_masked(op, lost(word, s), far / 8 + 8, row);
}

/// Applies the operation to the dots d of the row where dot d - at of the word is black.
#[inline(always)]
pub fn paint_word(op: Op, word: u64, at: i64, row: &mut [u8])
    ensures { Painted op (shifted at (word_dot word)) row.old row.new }
{
    if at >= 0 && at.unsigned_abs() / 8 + 9 <= row.len() as u64 {
        paint_inside(op, word, at.unsigned_abs(), row);
    } else {
        paint_into(op, &word.to_be_bytes(), at, row);
    }
}

/// Applies the operation to the dots d of the row where dot d - at of the word is black: of a word of so few
/// dots that eight bytes have room for them wherever the first one falls.
#[inline(always)]
pub fn paint_narrow(op: Op, word: u64, at: usize, row: &mut [u8])
    requires narrow { (x : ℕ) → NARROW ≤ x → word_dot word x ≡ false }
    requires at { at < 2 ^ 63 }
    ensures { Painted op (λ d. nat_le at d && word_dot word (d - at)) row.old row.new }
{
    let i = at / 8;
    if i + 8 <= row.len() {
        paint_eight(op, word >> (at % 8), i, row);
    } else {
        paint_into(op, &word.to_be_bytes(), at as i64, row);
    }
}

/// Eight bytes as a word.
#[inline(always)]
pub fn word_of(bytes: &[u8; 8]) -> u64
    ensures { (x : ℕ) → word_dot result x ≡ dot bytes.now x }
{
    u64::from_be_bytes(*bytes)
}

/// Eight bytes of the row, from byte i on.
#[inline(always)]
pub fn eight_at(row: &[u8], i: usize) -> u64
    requires { i + 8 ≤ length row.now }
    ensures { (x : ℕ) → x < 64 → word_dot result x ≡ dot row.now (8 * i + x) }
{
    word_of(&u8x8::from_slice(&row[i..]).to_array())
}

/// The 64 dots from one of the row's dots on, near the row's end.
#[inline(never)]
fn word_at_end(row: &[u8], from: usize) -> u64
    requires { from < 2 ^ 63 }
    ensures { (x : ℕ) → x < 64 → word_dot result x ≡ dot row.now (from + x) }
{
    let mut bytes = [0; 8];
    or_into(row, -(from as i64), &mut bytes);
    word_of(&bytes)
}

/// The 64 dots from one of the row's dots on, white past its end.
#[inline(always)]
pub fn word_at(row: &[u8], from: usize) -> u64
    requires { from < 2 ^ 63 }
    ensures { (x : ℕ) → x < 64 → word_dot result x ≡ dot row.now (from + x) }
{
    let i = from / 8;
    let s = from % 8;
    if i + 9 <= row.len() {
        (eight_at(row, i) << s) | (u64::from(row[i + 8]) >> (8 - s))
    } else {
        word_at_end(row, from)
    }
}

/// A word with its first n dots black.
#[inline(always)]
pub fn first_dots(n: u32) -> u64
    requires { n ≤ 64 }
    ensures { (x : ℕ) → word_dot result x ≡ nat_lt x n }
{
    if n == 64 { u64::MAX } else { !(u64::MAX >> n) }
}
