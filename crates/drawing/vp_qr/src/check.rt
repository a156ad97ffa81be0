//! The check codewords of a block.

ghost use Rattle.std.specs.Prelude.{◌≡◌, ℕ, ◌+◌, ◌<◌, ◌≤◌, ◌++◌, [], ◌∷◌, length, take, slice_index, slice_index_or, bit_xor};
ghost use Rattle.arrayvec.specs.ArrayVec.{array_vec_len};
ghost use Rattle.vp_qr.specs.Field.{doubled, times, power};
ghost use Rattle.vp_qr.specs.Polynomial.{value_at, scaled, check_of};
ghost use Rattle.vp_qr.specs.Divisors.{low_row, AreMultiples};

use crate::field::{doubled_byte, product};
use arrayvec::ArrayVec;

/// The check codewords of a block (ISO/IEC 18004, error correction): the remainder of its data, 1 to 116
/// codewords, by the generator of `n`, 1 to 30 codewords. Both have the coefficient of the highest power
/// first.
pub fn rs(src: &[u8], n: usize) -> ArrayVec<u8, 30>
    requires some { 0 < length src.now }
    requires longest { length src.now ≤ 116 }
    requires check { 0 < n }
    requires most { n ≤ 30 }
    ensures remainder { result.items ≡ check_of src.now n }
    ensures count { array_vec_len result ≡ n }
{
    let mut rows = [[0; 32]; 256];
    multiples(n, &mut rows);
    check_by(&rows, src, n)
}

/// A law: a block's data followed by its check, as a polynomial, is zero at each root of the generator.
pub fn check_is_zero_at_roots(src: &[u8], n: usize)
    ensures { (i : ℕ) → i < n → value_at (power i) (src.now ++ check_of src.now n) ≡ 0 }
{}

/// The `n` check codewords of a block, by the multiples of the generator.
pub fn check_by(rows: &[[u8; 32]; 256], src: &[u8], n: usize) -> ArrayVec<u8, 30>
    requires rows { AreMultiples n rows.now }
    requires most { n ≤ 30 }
    ensures remainder { result.items ≡ check_of src.now n }
    ensures count { array_vec_len result ≡ n }
{
    let mut register = [0; 32];
    for byte in src {
        register = shifted(&register, row_of(rows, *byte ^ register[0]));
    }
    first(&register, n)
}

/// The row of an element.
fn row_of(rows: &[[u8; 32]; 256], element: u8) -> &[u8; 32]
    ensures row { result.now ≡ slice_index_or rows.now element [] }
    ensures element { element < 256 }
{
    &rows[usize::from(element)]
}

/// The multiples of the generator, a row for each element: its coefficients below the highest, which is 1,
/// times the element.
// They are written where they are kept: 8 KB that are handed back would be cleared and copied twice.
pub fn multiples(n: usize, rows: &mut [[u8; 32]; 256])
    requires { n ≤ 30 }
    ensures { AreMultiples n rows.new }
{
    let low = generator_low(n);
    rows[0] = [0; 32];
    for half in 0..128usize {
        let even = doubled_row(&rows[half]);
        rows[2 * half] = even;
        rows[2 * half + 1] = sum(&even, &low);
    }
}

/// Each coefficient of a row times x.
fn doubled_row(row: &[u8; 32]) -> [u8; 32]
    ensures len { length result ≡ 32 }
    ensures terms { (k : ℕ) → k < 32 → slice_index result k ≡ doubled (slice_index row.now k) }
{
    let mut next = [0; 32];
    for k in 0..32usize {
        next[k] = doubled_byte(row[k]);
    }
    next
}

/// The sum of two rows.
fn sum(one: &[u8; 32], other: &[u8; 32]) -> [u8; 32]
    ensures len { length result ≡ 32 }
    ensures terms { (k : ℕ) → k < 32 → slice_index result k
        ≡ bit_xor (slice_index one.now k) (slice_index other.now k) }
{
    let mut next = [0; 32];
    for k in 0..32usize {
        next[k] = one[k] ^ other[k];
    }
    next
}

/// The coefficients of the generator below its highest.
fn generator_low(n: usize) -> [u8; 32]
    requires { n ≤ 30 }
    ensures { result ≡ low_row n }
{
    let mut low = [0; 32];
    let mut root = 1;
    for _ in 0..n {
        low = with_root(&low, root);
        root = doubled_byte(root);
    }
    low
}

/// A row moved back by a coefficient, a 1 before it.
fn behind_one(low: &[u8; 32]) -> [u8; 32]
    ensures len { length result ≡ 32 }
    ensures terms { (k : ℕ) → k < 32 → slice_index result k ≡ slice_index (1 ∷ low.now) k }
{
    let mut row = [1; 32];
    for k in 1..32usize {
        row[k] = low[k - 1];
    }
    row
}

/// The product with one more factor, whose zero is `root`.
fn with_root(low: &[u8; 32], root: u8) -> [u8; 32]
    ensures len { length result ≡ 32 }
    ensures terms { (k : ℕ) → k < 32 → slice_index result k
        ≡ bit_xor (slice_index low.now k) (times root (slice_index (1 ∷ low.now) k)) }
{
    let above = behind_one(low);
    let mut next = [0; 32];
    for k in 0..32usize {
        next[k] = low[k] ^ product(above[k], root);
    }
    next
}

/// The register after one more byte: moved by a coefficient, and a multiple of the generator taken off.
fn shifted(register: &[u8; 32], row: &[u8; 32]) -> [u8; 32]
    ensures len { length result ≡ 32 }
    ensures terms { (k : ℕ) → k < 32 → slice_index result k
        ≡ bit_xor (slice_index register.now (k + 1)) (slice_index row.now k) }
{
    let mut next = *row;
    for k in 0..31usize {
        next[k] = register[k + 1] ^ row[k];
    }
    next
}

/// The first coefficients of a row.
fn first(row: &[u8; 32], n: usize) -> ArrayVec<u8, 30>
    requires { n ≤ 30 }
    ensures { result.items ≡ take n row.now }
{
    let mut items = ArrayVec::new();
    let _ = items.try_extend_from_slice(&row[..n]);
    items
}
