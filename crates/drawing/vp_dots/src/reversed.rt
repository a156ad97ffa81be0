//! A row of dots turned end for end, and eight bytes of one.
ghost use Rattle.std.specs.Prelude.{◌≡◌, ℕ, ◌+◌, ◌-◌, ◌*◌, ◌<◌, ◌≤◌, ◌&&◌, nat_lt, nat_le, false, length, slice_index};
ghost use Rattle.vp_dots.specs.Dots.{bit, dot, dots};
ghost use Rattle.vp_dots.specs.Swaps.{swap_place};
ghost use Rattle.vp_dots.specs.Words.{word_dot};

use crate::word::word_of;
use std::simd::u8x8;

/// A byte with its dots in the other order: its halves change places, then their halves, then theirs.
#[inline(always)]
fn mirrored(byte: u8) -> u8
    ensures { (k : ℕ) → k < 8 → bit result k ≡ bit byte (7 - k) }
{
    let halves = (byte << 4) | (byte >> 4);
    let pairs = ((halves & 0x33) << 2) | ((halves & 0xcc) >> 2);
    ((pairs & 0x55) << 1) | ((pairs & 0xaa) >> 1)
}

/// Exchanges the bits of the mask with those s places above them.
#[inline(always)]
fn swapped(word: u64, s: u32, mask: u64) -> u64
    requires s { s < 64 }
    requires apart { (i : ℕ) → i < 64 → (bit mask i && (nat_le s i && bit mask (i - s))) ≡ false }
    ensures { (i : ℕ) → i < 64 → bit result i ≡ bit word (swap_place mask s i) }
{
    let differ = (word ^ (word >> s)) & mask;
    word ^ differ ^ (differ << s)
}

/// Eight bytes of the row, from byte i on, turned end for end.
#[inline(always)]
pub fn reversed_at(row: &[u8], i: usize) -> u64
    requires { i + 8 ≤ length row.now }
    ensures { (x : ℕ) → x < 64 → word_dot result x ≡ dot row.now (8 * i + (63 - x)) }
{
    let bytes = word_of(&u8x8::from_slice(&row[i..]).reverse().to_array());
    let halves = swapped(bytes, 4, 0x0f0f_0f0f_0f0f_0f0f);
    let pairs = swapped(halves, 2, 0x3333_3333_3333_3333);
    swapped(pairs, 1, 0x5555_5555_5555_5555)
}

/// Copies a row of dots turned end for end: its last dot becomes the first of the line.
// Byte for byte, so that the compiler takes sixteen of them at once.
#[inline(never)]
pub fn copy_reversed(row: &[u8], line: &mut [u8])
    requires { length line.old ≡ length row.now }
    ensures len { length line.new ≡ length row.now }
    ensures turned { (d : ℕ) → dot line.new d ≡
        (nat_lt d (dots row.now) && dot row.now (dots row.now - 1 - d)) }
{
    let bytes = row.len();
    for j in 0..bytes {
        line[bytes - 1 - j] = mirrored(row[j]);
    }
}
