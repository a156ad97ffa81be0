//! Rows of dots blackened by eight and sixteen bytes at once, which stand on whole bytes of them: as they
//! are, or turned end for end.
ghost use Rattle.std.specs.Prelude.{◌≡◌, ℕ, ◌+◌, ◌-◌, ◌*◌, ◌/◌, ◌%◌, ◌<◌, ◌≤◌, ◌&&◌, ◌^◌, nat_lt, nat_le, length, slice_index, bit_and, bit_or};
ghost use Rattle.vp_dots.specs.Dots.{bit, dot, dots, span};
ghost use Rattle.vp_dots.specs.Words.{word_dot};
ghost use Rattle.vp_dots.specs.Painting.{Painted};
ghost use Rattle.vp_dots.specs.declared.Op.TheVariants.{Black};

use std::simd::{u8x8, u8x16};
use vp_dots::reversed_at;

/// Blackens eight bytes of the row, from byte i on, where eight bytes of the line, from byte j on, are black.
#[inline(always)]
pub(crate) fn or_bytes(line: &[u8], j: usize, i: usize, row: &mut [u8])
    requires line { j + 8 ≤ length line.now }
    requires row { i + 8 ≤ length row.old }
    ensures { Painted Black (λ d. nat_le (8 * i) d && (nat_lt (d - 8 * i) 64
        && dot line.now (8 * j + (d - 8 * i)))) row.old row.new }
{
    let new = u8x8::from_slice(&row[i..]) | u8x8::from_slice(&line[j..]);
    new.copy_to_slice(&mut row[i..]);
}

/// Blackens eight bytes of the row, from byte i on, where the word is black.
#[inline(always)]
pub(crate) fn or_eight(word: u64, i: usize, row: &mut [u8])
    requires { i + 8 ≤ length row.old }
    ensures { Painted Black (λ d. nat_le (8 * i) d && word_dot word (d - 8 * i)) row.old row.new }
{
    or_bytes(&word.to_be_bytes(), 0, i, row);
}

/// Blackens sixteen bytes of the row, from byte i on, where other bytes are black.
#[inline(always)]
fn or_sixteen(bytes: &[u8], i: usize, row: &mut [u8])
    requires bytes { i + 16 ≤ length bytes.now }
    requires row { i + 16 ≤ length row.old }
    ensures { Painted Black (λ d. span i (i + 16) (d / 8) && dot bytes.now d) row.old row.new }
{
    let new = u8x16::from_slice(&row[i..]) | u8x16::from_slice(&bytes[i..]);
    new.copy_to_slice(&mut row[i..]);
}

/// Blackens `n` times sixteen bytes of the row, from byte i on, where other bytes are black.
#[inline(always)]
pub(crate) fn or_sixteens(bytes: &[u8], i: usize, n: usize, row: &mut [u8])
    requires bytes { i + 16 * n ≤ length bytes.now }
    requires row { i + 16 * n ≤ length row.old }
    ensures { Painted Black (λ d. span i (i + 16 * n) (d / 8) && dot bytes.now d) row.old row.new }
{
    for k in 0..n {
        or_sixteen(bytes, i + 16 * k, row);
    }
}

/// Blackens the row where the line, its first byte on byte q, is black.
#[inline(always)]
pub(crate) fn or_words(line: &[u8], q: usize, row: &mut [u8])
    requires whole { length line.now % 8 ≡ 0 }
    requires room { q + length line.now ≤ length row.old }
    ensures { Painted Black (λ d. nat_le (8 * q) d && dot line.now (d - 8 * q)) row.old row.new }
{
    for k in 0..line.len() / 8 {
        or_bytes(line, 8 * k, q + 8 * k, row);
    }
}

/// Sixteen bytes, in each of which the bits of the mask change places with those s above them.
#[inline(always)]
fn exchanged(bytes: u8x16, s: u8, mask: u8) -> u8x16
    requires { s < 8 }
    ensures len { length result ≡ 16 }
    ensures lanes { (i : ℕ) → i < 16 → slice_index result i ≡ bit_or
        (bit_and (slice_index bytes i) mask * 2 ^ s % 256) (bit_and (slice_index bytes i / 2 ^ s) mask) }
{
    let far = u8x16::splat(s);
    let these = u8x16::splat(mask);
    ((bytes & these) << far) | ((bytes >> far) & these)
}

/// Sixteen bytes of the line, from byte j on, turned end for end.
#[inline(always)]
fn sixteen_reversed(line: &[u8], j: usize) -> u8x16
    requires { j + 16 ≤ length line.now }
    ensures len { length result ≡ 16 }
    ensures turned { (i k : ℕ) → i < 16 → k < 8 →
        bit (slice_index result i) k ≡ bit (slice_index line.now (j + (15 - i))) (7 - k) }
{
    let bytes = u8x16::from_slice(&line[j..]).reverse();
    let halves = exchanged(bytes, 4, 0x0f);
    let pairs = exchanged(halves, 2, 0x33);
    exchanged(pairs, 1, 0x55)
}

/// Blackens sixteen bytes of the row, from byte i on, where sixteen bytes of the line, from byte j on and
/// turned end for end, are black.
#[inline(always)]
fn or_sixteen_reversed(line: &[u8], j: usize, i: usize, row: &mut [u8])
    requires line { j + 16 ≤ length line.now }
    requires row { i + 16 ≤ length row.old }
    ensures { Painted Black (λ d. nat_le (8 * i) d && (nat_lt (d - 8 * i) 128
        && dot line.now (8 * j + (127 - (d - 8 * i))))) row.old row.new }
{
    let new = u8x16::from_slice(&row[i..]) | sixteen_reversed(line, j);
    new.copy_to_slice(&mut row[i..]);
}

/// Blackens the row where the line, turned end for end and its last byte on byte q, is black.
#[inline(always)]
pub(crate) fn or_reversed(line: &[u8], q: usize, row: &mut [u8])
    requires whole { length line.now % 8 ≡ 0 }
    requires room { q + length line.now ≤ length row.old }
    ensures { Painted Black (λ d. nat_le (8 * q) d && (nat_lt (d - 8 * q) (dots line.now)
        && dot line.now (dots line.now - 1 - (d - 8 * q)))) row.old row.new }
{
    let bytes = line.len();
    for k in 0..bytes / 16 {
        or_sixteen_reversed(line, bytes - 16 * (k + 1), q + 16 * k, row);
    }
    if bytes % 16 != 0 {
        or_eight(reversed_at(line, 0), q + bytes - 8, row);
    }
}
