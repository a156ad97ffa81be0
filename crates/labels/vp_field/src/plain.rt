//! Halves of words that are black or white as a whole: a square of them isn't turned dot by dot.
ghost use Rattle.std.specs.Prelude.{◌≡◌, ℕ, ◌+◌, ◌-◌, ◌<◌, ◌≤◌, ◌^◌, ◌⊎◌, slice_index};
ghost use Rattle.vp_dots.specs.Words.{word_dot};
ghost use Rattle.vp_dots.specs.declared.square.TheConstants.{SIDE};
ghost use Rattle.vp_glyph.specs.Halves.{half_dot};

use crate::square::{of_halves, square_of};
use vp_dots::{SIDE, turned_square};

/// 0 where half a word is white or black as a whole, 1 where it isn't.
#[inline(always)]
fn mixed(half: u32) -> u32
    ensures plain { result ≡ 0 → (half ≡ 0) ⊎ (half ≡ 2 ^ 32 - 1) }
    ensures one { result ≤ 1 }
{
    if half == 0 || half == u32::MAX { 0 } else { 1 }
}

/// How many halves of words are neither white nor black as a whole.
pub fn mixed_halves(halves: &[u32; SIDE]) -> u32
    ensures plain { result ≡ 0 → (i : ℕ) → i < SIDE
        → (slice_index halves.now i ≡ 0) ⊎ (slice_index halves.now i ≡ 2 ^ 32 - 1) }
    ensures few { result ≤ SIDE }
{
    let mut many = 0;
    for i in 0..SIDE {
        many += mixed(halves[i]);
    }
    many
}

/// Half a word of which each dot is as one of 32 halves is, from one on.
fn half_of_plain(halves: &[u32; SIDE], from: usize) -> u32
    requires from { from + 32 ≤ SIDE }
    requires plain { (i : ℕ) → i < SIDE
        → (slice_index halves.now i ≡ 0) ⊎ (slice_index halves.now i ≡ 2 ^ 32 - 1) }
    ensures { (i x : ℕ) → i < 32 → x < 32
        → half_dot result i ≡ half_dot (slice_index halves.now (from + i)) x }
{
    let mut half = 0u32;
    for i in 0..32u32 {
        if halves[from + i as usize] != 0 {
            half |= 1 << (31 - i);
        }
    }
    half
}

/// A word of which each dot is as the half is that stands in its place.
pub fn word_of_plain(halves: &[u32; SIDE]) -> u64
    requires { (i : ℕ) → i < SIDE
        → (slice_index halves.now i ≡ 0) ⊎ (slice_index halves.now i ≡ 2 ^ 32 - 1) }
    ensures { (i x : ℕ) → i < SIDE → x < 32 → word_dot result i ≡ half_dot (slice_index halves.now i) x }
{
    of_halves(half_of_plain(halves, 0), half_of_plain(halves, 32))
}

/// A square whose upper rows are one word, and its lower rows another.
fn of_two_rows(upper: u64, lower: u64) -> [u64; SIDE]
    ensures upper { (y : ℕ) → y < 32 → slice_index result y ≡ upper }
    ensures lower { (y : ℕ) → y < 32 → slice_index result (32 + y) ≡ lower }
{
    let mut square = [upper; SIDE];
    for y in SIDE / 2..SIDE {
        square[y] = lower;
    }
    square
}

/// Twice 64 halves of words as the columns of a square, the second 64 below the first.
pub fn turned_halves(left: &[u32; SIDE], right: &[u32; SIDE]) -> [u64; SIDE]
    ensures upper { (x y : ℕ) → x < SIDE → y < 32
        → word_dot (slice_index result y) x ≡ half_dot (slice_index left.now x) y }
    ensures lower { (x y : ℕ) → x < SIDE → y < 32
        → word_dot (slice_index result (32 + y)) x ≡ half_dot (slice_index right.now x) y }
{
    if mixed_halves(left) + mixed_halves(right) > 0 {
        return turned_square(&square_of(left, right));
    }
    of_two_rows(word_of_plain(left), word_of_plain(right))
}
