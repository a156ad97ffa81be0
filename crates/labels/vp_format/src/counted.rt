//! Digits of which some stand behind a count, sixteen codes at a time.
ghost use Rattle.std.specs.Prelude.{◌≡◌, ℕ, ◌+◌, ◌<◌, ◌≤◌, true, List, length, slice_index};
ghost use Rattle.vp_format.specs.Codes.{Spelled, code_of};
ghost use Rattle.vp_format.specs.Cursors.{added, digit_value, places_of, symbols_from, HasRoom, IsRun, PassesOn, Put, ReadsOn, Reached};

use crate::codes::digit_value;
use crate::digits::LANES;
use crate::packing::{SHORT, fill_short};
use std::simd::prelude::*;

/// Whether each of sixteen codes is a digit, or a count up to 19 with a digit behind it.
#[inline(always)]
fn are_runs(bytes: &[u8], at: usize) -> bool
    requires { at + LANES < length bytes.now }
    ensures { result ≡ true → (k : ℕ) → k < LANES → IsRun (code_of (slice_index bytes.now (at + k)))
        (code_of (slice_index bytes.now (at + 1 + k))) }
{
    let codes = u8x16::from_slice(&bytes[at..]);
    let from_0 = codes - u8x16::splat(b'0');
    let from_a = (codes | u8x16::splat(0x20)) - u8x16::splat(b'a');
    let others = from_0.simd_ge(u8x16::splat(10)) & from_a.simd_ge(u8x16::splat(6));
    let next = u8x16::from_slice(&bytes[at + 1..]);
    let from_0 = next - u8x16::splat(b'0');
    let from_a = (next | u8x16::splat(0x20)) - u8x16::splat(b'a');
    let no_digits = from_0.simd_ge(u8x16::splat(10)) & from_a.simd_ge(u8x16::splat(6));
    let no_counts = (codes - u8x16::splat(b'G')).simd_ge(u8x16::splat(19));
    (others & (no_counts | no_digits)).to_bitmask() == 0
}

/// How many places sixteen codes add: a digit one, and a count one less than it says.
#[inline(always)]
fn places_added(bytes: &[u8], at: usize) -> u32
    requires { at + LANES ≤ length bytes.now }
    ensures few { result ≤ 4080 }
    ensures added { ((k : ℕ) → k < LANES → IsRun (code_of (slice_index bytes.now (at + k)))
        (code_of (slice_index bytes.now (at + 1 + k)))) → result ≡ added bytes.now at LANES }
{
    let codes = u8x16::from_slice(&bytes[at..]);
    let ones = u8x16::splat(1);
    let from_g = codes - u8x16::splat(b'G');
    let places = from_g.simd_ge(u8x16::splat(19)).select(ones, from_g);
    places.dot4(ones).strict_reduce_sum()
}

/// How many places sixteen codes from a byte on take, with the digit behind the last of them where that is a
/// count, and the byte behind; none where one isn't a digit, or a count up to 19 with a digit behind it, and
/// where none comes behind the sixteen.
pub fn counted(bytes: &[u8], at: usize) -> (usize, usize)
    requires { at ≤ length bytes.now }
    ensures few { result.0 ≤ 4081 }
    ensures passed { (x : ℕ) → PassesOn bytes.now x at (x + result.0) result.1 }
{
    if bytes.len() - at <= LANES {
        return (0, at);
    }
    if !are_runs(bytes, at) {
        return (0, at);
    }
    // of digits and counts, these are the counts
    let more = usize::from(bytes[at + (LANES - 1)] | 0x20 > b'f');
    (places_added(bytes, at) as usize + more, at + LANES + more)
}

/// The places that each of sixteen such codes adds.
#[inline(always)]
fn steps(bytes: &[u8], at: usize) -> [u8; LANES]
    requires { at + LANES ≤ length bytes.now }
    ensures { (k : ℕ) → k < LANES → IsRun (code_of (slice_index bytes.now (at + k)))
        (code_of (slice_index bytes.now (at + 1 + k)))
        → slice_index result k ≡ places_of (code_of (slice_index bytes.now (at + k))) }
{
    let codes = u8x16::from_slice(&bytes[at..]);
    let from_g = codes - u8x16::splat(b'G');
    let places = from_g
        .simd_ge(u8x16::splat(19))
        .select(u8x16::splat(1), from_g);
    places.to_array()
}

/// The values that each of them gives its places: a digit its own, a count that of the digit behind it.
#[inline(always)]
fn values(bytes: &[u8], at: usize) -> [u8; LANES]
    requires { at + LANES < length bytes.now }
    ensures digits { (k : ℕ) → k < LANES →
        digit_value (code_of (slice_index bytes.now (at + k))) < 16 →
        slice_index result k ≡ digit_value (code_of (slice_index bytes.now (at + k))) }
    ensures counts { (k : ℕ) → k < LANES → IsRun (code_of (slice_index bytes.now (at + k)))
        (code_of (slice_index bytes.now (at + 1 + k))) →
        16 ≤ digit_value (code_of (slice_index bytes.now (at + k))) →
        slice_index result k ≡ digit_value (code_of (slice_index bytes.now (at + 1 + k))) }
{
    let codes = u8x16::from_slice(&bytes[at..]);
    let next = u8x16::from_slice(&bytes[at + 1..]);
    let from_g = codes - u8x16::splat(b'G');
    let shown = from_g.simd_ge(u8x16::splat(19)).select(codes, next);
    let letters = shown >> u8x16::splat(6);
    ((shown & u8x16::splat(15)) + letters * u8x16::splat(9)).to_array()
}

/// Fills places from one on by sixteen such codes, and gives the place behind them, behind a count that of
/// its digit.
// Each code fills as many places, so that nothing hangs on how long a run is.
#[inline(always)]
fn fill_sixteen(bytes: &[u8], at: usize, from: usize, places: &mut [u8]) -> usize
    requires bytes { at + LANES < length bytes.now }
    requires runs { (k : ℕ) → k < LANES → IsRun (code_of (slice_index bytes.now (at + k)))
        (code_of (slice_index bytes.now (at + 1 + k))) }
    requires short { from + added bytes.now at LANES ≤ 2048 }
    requires room { from + added bytes.now at LANES + SHORT ≤ length places.old }
    ensures len { length places.new ≡ length places.old }
    ensures place { result ≡ from + added bytes.now at LANES }
    ensures put { (width : ℕ) (all : List Spelled) (start : ℕ) →
        Reached width all start places.old from (symbols_from bytes.now at) at →
        Put width all start places.new from bytes.now at LANES }
{
    let steps = steps(bytes, at);
    let values = values(bytes, at);
    let mut x = from;
    let mut k = 0;
    while k < LANES {
        fill_short(x, values[k], places);
        x += usize::from(steps[k]);
        k += 1;
    }
    x
}

/// Reads sixteen codes, and the digit behind the last of them where that is a count, from place `from` of a
/// row of `width` places on, if each is a digit, or a count up to 19 with a digit behind it, and they end
/// within the row: gives the place behind them and that of the next code.
pub fn put_counted(
    bytes: &[u8],
    at: usize,
    from: usize,
    width: usize,
    places: &mut [u8],
) -> (usize, usize)
    requires at { at ≤ length bytes.now }
    requires room { HasRoom width places.old from }
    ensures { ReadsOn width bytes.now places.old from at places.new result.0 result.1 }
{
    if bytes.len() - at <= LANES {
        return (from, at);
    }
    if !are_runs(bytes, at) {
        return (from, at);
    }
    // of digits and counts, these are the counts
    let more = usize::from(bytes[at + (LANES - 1)] | 0x20 > b'f');
    if places_added(bytes, at) as usize + more > width - from {
        return (from, at);
    }
    let x = fill_sixteen(bytes, at, from, places);
    fill_short(x, digit_value(bytes[at + LANES]), places);
    (x + more, at + LANES + more)
}
