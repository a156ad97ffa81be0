//! The data codewords of bits.

ghost use Rattle.std.specs.Prelude.{◌≡◌, ℕ, ◌+◌, ◌<◌, ◌≤◌, ◌^◌, length, slice_index, slice_index_or, true, if◌then◌else◌};
ghost use Rattle.arrayvec.specs.ArrayVec.{array_vec_len};
ghost use Rattle.vp_aztec.specs.Stuffing.{value, word, taken, words_from, stuffed};

use arrayvec::ArrayVec;

/// As many codewords as a symbol holds.
pub type Words = ArrayVec<u16, 1664>;

/// Bit number `k`, or a one behind the last.
fn bit(bits: &[bool], k: usize) -> u16
    ensures bit { result ≡ (if slice_index_or bits.now k true then 1 else 0) }
    ensures small { result ≤ 1 }
{
    if k >= bits.len() || bits[k] { 1 } else { 0 }
}

/// The number that `n` bits from place `i` on make; ones stand behind the last bit.
fn value(bits: &[bool], i: usize, n: usize) -> u16
    requires few { n ≤ 12 }
    requires place { i ≤ 19968 }
    ensures value { result ≡ value bits.now i n }
    ensures small { result < 2 ^ n }
{
    let mut value = 0;
    for k in 0..n {
        value = 2 * value + bit(bits, i + k);
    }
    value
}

/// The codeword of `w` bits from place `i` on, and how many bits it takes.
#[tactic(auto, unfolding(crate::specs::Stuffing::word, crate::specs::Stuffing::taken))]
fn word(w: usize, bits: &[bool], i: usize) -> (u16, usize)
    requires least { 6 ≤ w }
    requires most { w ≤ 12 }
    requires place { i ≤ 19968 }
    ensures word { result.0 ≡ word w bits.now i }
    ensures taken { result.1 ≡ taken w bits.now i }
    ensures small { result.0 < 2 ^ w }
    ensures some { 1 ≤ result.1 }
    ensures few { result.1 ≤ w }
{
    let front = value(bits, i, w - 1);
    if front == 0 {
        return (1, w - 1);
    }
    if front == (1 << (w - 1)) - 1 {
        return ((1 << w) - 2, w - 1);
    }
    (value(bits, i, w), w)
}

/// How many codewords of `w` bits there are.
#[tactic(auto, unfolding(crate::specs::Stuffing::stuffed))]
pub fn count(w: usize, bits: &[bool]) -> usize
    requires least { 6 ≤ w }
    requires most { w ≤ 12 }
    requires few { length bits.now ≤ 19968 }
    ensures count { result ≡ length (stuffed w bits.now) }
    ensures few { result ≤ 19968 }
{
    let mut i = 0;
    let mut count = 0;
    for _ in 0..bits.len() {
        if i >= bits.len() {
            return count;
        }
        let (_, taken) = word(w, bits, i);
        count += 1;
        i += taken;
    }
    count
}

/// The codewords of `w` bits.
#[tactic(auto, unfolding(crate::specs::Stuffing::stuffed))]
pub fn stuffed(w: usize, bits: &[bool]) -> Words
    requires least { 6 ≤ w }
    requires most { w ≤ 12 }
    requires few { length bits.now ≤ 19968 }
    requires room { length (stuffed w bits.now) ≤ 1664 }
    ensures words { result.items ≡ stuffed w bits.now }
    ensures small { (k : ℕ) → slice_index result.items k < 2 ^ w }
{
    let mut i = 0;
    let mut words = Words::new();
    for _ in 0..bits.len() {
        if i >= bits.len() {
            return words;
        }
        let (next, taken) = word(w, bits, i);
        words.push(next);
        i += taken;
    }
    words
}
