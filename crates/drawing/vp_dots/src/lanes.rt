//! Many numbers looked at at once: which have a bit that is 1, and which aren't like the next one.
ghost use Rattle.std.specs.Prelude.{◌≡◌, ℕ, ◌+◌, ◌<◌, ◌≤◌, ◌^◌, false, length, slice_index};
ghost use Rattle.vp_dots.specs.Dots.{bit};

use std::simd::Simd;
use std::simd::prelude::*;

/// Which of N numbers from number `from` on, the first by the lowest bit, have a bit that is 1.
#[inline(always)]
pub fn inked<const N: usize>(numbers: &[u32], from: usize) -> u64
    requires lanes { N ≤ 64 }
    requires within { from + N ≤ length numbers.now }
    ensures few { result < 2 ^ N }
    ensures white { (i : ℕ) → i < N → bit result i ≡ false → slice_index numbers.now (from + i) ≡ 0 }
{
    Simd::<u32, N>::from_slice(&numbers[from..])
        .simd_ne(Simd::splat(0))
        .to_bitmask()
}

/// Which of N numbers from number `from` on, the first by the lowest bit, aren't like the one behind it.
#[inline(always)]
pub fn edges<const N: usize>(numbers: &[u32], from: usize) -> u64
    requires lanes { N ≤ 64 }
    requires within { from + N < length numbers.now }
    ensures few { result < 2 ^ N }
    ensures alike { (i : ℕ) → i < N → bit result i ≡ false
        → slice_index numbers.now (from + i + 1) ≡ slice_index numbers.now (from + i) }
{
    let next = Simd::<u32, N>::from_slice(&numbers[from + 1..]);
    Simd::<u32, N>::from_slice(&numbers[from..])
        .simd_ne(next)
        .to_bitmask()
}
