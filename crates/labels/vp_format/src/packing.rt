//! The places of a row, one to a byte, before they are put into bytes two by two.
ghost use Rattle.std.specs.Prelude.{◌≡◌, ℕ, ◌+◌, ◌*◌, ◌<◌, ◌≤◌, length, slice_index};
ghost use Rattle.vp_format.specs.Pictures.{nibble};
ghost use Rattle.vp_format.specs.Cursors.{AreSmall, Filled};

use std::simd::{u8x16, u8x32};

/// How many places are filled at once, and the room for them behind a row.
pub const SHORT: usize = 32;

/// Gives a value to places.
pub fn fill(from: usize, to: usize, v: u8, places: &mut [u8])
    requires from { from ≤ to }
    requires to { to ≤ length places.old }
    ensures filled { Filled from to v places.old places.new }
    ensures len { length places.new ≡ length places.old }
{
    places[from..to].fill(v);
}

/// Gives a value to `SHORT` places.
#[inline(always)]
pub fn fill_short(from: usize, v: u8, places: &mut [u8])
    requires { from + SHORT ≤ length places.old }
    ensures filled { Filled from (from + SHORT) v places.old places.new }
    ensures len { length places.new ≡ length places.old }
{
    u8x32::splat(v).copy_to_slice(&mut places[from..]);
}

/// Puts sixteen places into eight bytes, from byte i on.
#[inline(always)]
fn pack_eight(places: &[u8], i: usize, row: &mut [u8])
    requires places { 2 * i + 16 ≤ length places.now }
    requires room { i + 8 ≤ length row.old }
    ensures len { length row.new ≡ length row.old }
    ensures kept { (k : ℕ) → k < i → slice_index row.new k ≡ slice_index row.old k }
    ensures packed { AreSmall (2 * (i + 8)) places.now → (k : ℕ) → i ≤ k → k < i + 8 →
        slice_index row.new k ≡ slice_index places.now (2 * k) * 16 + slice_index places.now (2 * k + 1) }
{
    let these = u8x16::from_slice(&places[2 * i..]);
    let (high, low) = these.deinterleave(these);
    (high * u8x16::splat(16) + low)
        .extract::<0, 8>()
        .copy_to_slice(&mut row[i..]);
}

/// Puts the places of a row into its bytes, two to a byte.
fn pack(places: &[u8], row: &mut [u8])
    requires short { length row.old ≤ 1024 }
    requires places { 2 * length row.old ≤ length places.now }
    ensures len { length row.new ≡ length row.old }
    ensures packed { AreSmall (2 * length row.old) places.now → (j : ℕ) → j < 2 * length row.old →
        nibble row.new j ≡ slice_index places.now j }
{
    let mut i = 0;
    while row.len() - i >= 8 {
        pack_eight(places, i, row);
        i += 8;
    }
    while i < row.len() {
        row[i] = places[2 * i]
            .wrapping_mul(16)
            .wrapping_add(places[2 * i + 1]);
        i += 1;
    }
}

/// Puts the places of a row into its bytes, of which those from place x on all have one value.
pub fn pack_filled(x: usize, v: u8, places: &[u8], row: &mut [u8])
    requires short { length row.old ≤ 1024 }
    requires inside { x ≤ 2 * length row.old }
    requires small { v < 16 }
    requires places { 2 * length row.old ≤ length places.now }
    requires filled { (j : ℕ) → x ≤ j → j < 2 * length row.old → slice_index places.now j ≡ v }
    ensures len { length row.new ≡ length row.old }
    ensures packed { AreSmall (2 * length row.old) places.now → (j : ℕ) → j < 2 * length row.old →
        nibble row.new j ≡ slice_index places.now j }
{
    let n = (x + 1) / 2;
    pack(places, &mut row[..n]);
    row[n..].fill(v * 16 + v);
}
