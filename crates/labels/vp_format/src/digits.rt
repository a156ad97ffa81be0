//! Plain digits, sixteen at a time, or 64.
ghost use Rattle.std.specs.Prelude.{◌≡◌, ℕ, ◌+◌, ◌*◌, ◌<◌, ◌≤◌, ◌⊎◌, true, false, List, length, slice_index};
ghost use Rattle.vp_format.specs.Codes.{code_of};
ghost use Rattle.vp_format.specs.Pictures.{nibble};
ghost use Rattle.vp_format.specs.Cursors.{digit_value, first_set, HasRoom, ReadsOn};

use std::simd::prelude::*;

/// How many bytes are looked at at once.
pub const LANES: usize = 16;

/// How many bytes are asked at once whether all of them are digits.
pub const WIDE: usize = 64;

/// Whether `WIDE` bytes from a place on are digits.
#[inline(always)]
pub fn are_digits(bytes: &[u8], at: usize) -> bool
    requires { at + WIDE ≤ length bytes.now }
    ensures { result ≡ true → (k : ℕ) → k < WIDE →
        digit_value (code_of (slice_index bytes.now (at + k))) < 16 }
{
    let codes = u8x64::from_slice(&bytes[at..]);
    let from_0 = codes - u8x64::splat(b'0');
    let from_a = (codes | u8x64::splat(0x20)) - u8x64::splat(b'a');
    let least = from_0.saturating_sub(u8x64::splat(4)).simd_min(from_a);
    least.simd_ge(u8x64::splat(6)).to_bitmask() == 0
}

/// How many of the bytes from a place on are digits, of the next sixteen.
#[inline(always)]
pub fn digits_in(bytes: &[u8], at: usize) -> usize
    requires { at + LANES ≤ length bytes.now }
    ensures few { result ≤ LANES }
    ensures digits { (k : ℕ) → k < result → digit_value (code_of (slice_index bytes.now (at + k))) < 16 }
{
    let codes = u8x16::from_slice(&bytes[at..]);
    let from_0 = codes - u8x16::splat(b'0');
    let from_a = (codes | u8x16::splat(0x20)) - u8x16::splat(b'a');
    let others = from_0.simd_ge(u8x16::splat(10)) & from_a.simd_ge(u8x16::splat(6));
    first_set(others.to_bitmask())
}

/// The place of the first bit that is set, and 16 where none is.
#[inline(always)]
fn first_set(mask: u64) -> usize
    ensures { result ≡ first_set mask }
{
    if mask == 0 {
        LANES
    } else {
        mask.trailing_zeros() as usize
    }
}

/// Gives sixteen places the values of bytes that are digits.
#[inline(always)]
fn put_values(bytes: &[u8], at: usize, x: usize, places: &mut [u8])
    requires bytes { at + LANES ≤ length bytes.now }
    requires room { x + LANES ≤ length places.old }
    ensures len { length places.new ≡ length places.old }
    ensures kept { (j : ℕ) → j < x → slice_index places.new j ≡ slice_index places.old j }
    ensures put { (k : ℕ) → k < LANES → digit_value (code_of (slice_index bytes.now (at + k))) < 16 →
        slice_index places.new (x + k) ≡ digit_value (code_of (slice_index bytes.now (at + k))) }
{
    let codes = u8x16::from_slice(&bytes[at..]);
    let letters = codes >> u8x16::splat(6);
    ((codes & u8x16::splat(15)) + letters * u8x16::splat(9)).copy_to_slice(&mut places[x..]);
}

/// Reads digits from place `from` of a row of `width` places on, as far as they go, and gives the place
/// behind them and that of the next code. Of the codes' last bytes none may be read.
pub fn digits(
    bytes: &[u8],
    first: usize,
    from: usize,
    width: usize,
    places: &mut [u8],
) -> (usize, usize)
    requires first { first ≤ length bytes.now }
    requires room { HasRoom width places.old from }
    ensures { ReadsOn width bytes.now places.old from first places.new result.0 result.1 }
{
    let mut x = from;
    let mut at = first;
    while x < width && bytes.len() - at >= LANES {
        let count = digits_in(bytes, at).min(width - x);
        put_values(bytes, at, x, places);
        x += count;
        at += count;
        if count < LANES {
            return (x, at);
        }
    }
    (x, at)
}

/// Puts sixteen digits into eight bytes of a row, from byte i on, if all are digits: whether they are.
#[inline(always)]
fn pack_digits(bytes: &[u8], at: usize, i: usize, row: &mut [u8]) -> bool
    requires bytes { at + LANES ≤ length bytes.now }
    requires room { i + 8 ≤ length row.old }
    ensures len { length row.new ≡ length row.old }
    ensures kept { (k : ℕ) → k < i → slice_index row.new k ≡ slice_index row.old k }
    ensures digits { result ≡ true → (k : ℕ) → k < LANES →
        digit_value (code_of (slice_index bytes.now (at + k))) < 16 }
    ensures packed { result ≡ true → (k : ℕ) → k < 8 → slice_index row.new (i + k)
        ≡ digit_value (code_of (slice_index bytes.now (at + 2 * k))) * 16
        + digit_value (code_of (slice_index bytes.now (at + (2 * k + 1)))) }
    ensures same { result ≡ false → row.new ≡ row.old }
{
    let codes = u8x16::from_slice(&bytes[at..]);
    let from_0 = codes - u8x16::splat(b'0');
    let from_a = (codes | u8x16::splat(0x20)) - u8x16::splat(b'a');
    let least = from_0.saturating_sub(u8x16::splat(4)).simd_min(from_a);
    if least.simd_ge(u8x16::splat(6)).to_bitmask() != 0 {
        return false;
    }
    let values = from_0.simd_min(from_a + u8x16::splat(10));
    let (high, low) = values.deinterleave(values);
    (high * u8x16::splat(16) + low)
        .extract::<0, 8>()
        .copy_to_slice(&mut row[i..]);
    true
}

/// Puts `WIDE` digits into 32 bytes of a row in the same way.
#[inline(always)]
fn pack_wide(bytes: &[u8], at: usize, i: usize, row: &mut [u8]) -> bool
    requires bytes { at + WIDE ≤ length bytes.now }
    requires room { i + 32 ≤ length row.old }
    ensures len { length row.new ≡ length row.old }
    ensures kept { (k : ℕ) → k < i → slice_index row.new k ≡ slice_index row.old k }
    ensures digits { result ≡ true → (k : ℕ) → k < WIDE →
        digit_value (code_of (slice_index bytes.now (at + k))) < 16 }
    ensures packed { result ≡ true → (k : ℕ) → k < 32 → slice_index row.new (i + k)
        ≡ digit_value (code_of (slice_index bytes.now (at + 2 * k))) * 16
        + digit_value (code_of (slice_index bytes.now (at + (2 * k + 1)))) }
    ensures same { result ≡ false → row.new ≡ row.old }
{
    let codes = u8x64::from_slice(&bytes[at..]);
    let from_0 = codes - u8x64::splat(b'0');
    let from_a = (codes | u8x64::splat(0x20)) - u8x64::splat(b'a');
    let least = from_0.saturating_sub(u8x64::splat(4)).simd_min(from_a);
    if least.simd_ge(u8x64::splat(6)).to_bitmask() != 0 {
        return false;
    }
    let values = from_0.simd_min(from_a + u8x64::splat(10));
    let (high, low) = values.deinterleave(values);
    (high * u8x64::splat(16) + low)
        .extract::<0, 32>()
        .copy_to_slice(&mut row[i..]);
    true
}

/// Reads a row from a place of the codes on, if digits alone spell it: whether they do. Where a digit comes
/// first, a row that isn't read may be written all the same.
pub fn plain_row(bytes: &[u8], at: usize, row: &mut [u8]) -> bool
    requires at { at ≤ length bytes.now }
    requires short { length row.old ≤ 1024 }
    ensures len { length row.new ≡ length row.old }
    ensures inside { result ≡ true → at + 2 * length row.old ≤ length bytes.now }
    ensures digits { result ≡ true → (k : ℕ) → k < 2 * length row.old →
        digit_value (code_of (slice_index bytes.now (at + k))) < 16 }
    ensures packed { result ≡ true → (j : ℕ) → j < 2 * length row.old →
        nibble row.new j ≡ digit_value (code_of (slice_index bytes.now (at + j))) }
    ensures kept { result ≡ false → (row.new ≡ row.old)
        ⊎ ((at < length bytes.now) × (digit_value (code_of (slice_index bytes.now at)) < 16)) }
{
    let n = row.len();
    if n < 8 || bytes.len() - at < 2 * n {
        return false;
    }
    let mut i = 0;
    while n - i >= 32 {
        if !pack_wide(bytes, at + 2 * i, i, row) {
            return false;
        }
        i += 32;
    }
    while n - i >= 8 {
        if !pack_digits(bytes, at + 2 * i, i, row) {
            return false;
        }
        i += 8;
    }
    if i == n {
        return true;
    }
    pack_digits(bytes, at + 2 * (n - 8), n - 8, row)
}
