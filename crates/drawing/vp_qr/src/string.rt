//! Strings of bits.

ghost use Rattle.std.specs.Prelude.{◌≡◌, ◌+◌, ◌*◌, ◌/◌, ◌^◌, ◌<◌, ◌≤◌, ◌++◌, length, false, replicate, if◌then◌else◌};
ghost use Rattle.arrayvec.specs.ArrayVec.{array_vec_len};
ghost use Rattle.vp_qr.specs.Strings.{bits, number_behind, bytes_of, filled, terminated, pad, pads, padded};

use arrayvec::ArrayVec;

/// A string of at most as many bits as the data codewords of the largest symbol have.
pub type BitString = ArrayVec<bool, 2192>;

/// The data codewords of a symbol.
pub type Words = ArrayVec<u8, 274>;

/// Appends the `n` lowest bits of a value, the highest of them first.
pub fn push_bits(string: &mut BitString, n: u32, value: u32)
    requires few { n ≤ 16 }
    requires room { array_vec_len string.old + n ≤ 2192 }
    ensures bits { string.new.items ≡ string.old.items ++ bits n value }
    ensures count { array_vec_len string.new ≡ array_vec_len string.old + n }
{
    for k in 0..n {
        string.push(value >> (n - 1 - k) & 1 == 1);
    }
}

/// Appends zeros.
fn push_zeros(string: &mut BitString, n: usize)
    requires { array_vec_len string.old + n ≤ 2192 }
    ensures { string.new.items ≡ string.old.items ++ replicate n false }
{
    for _ in 0..n {
        string.push(false);
    }
}

/// 1 for a bit that is set, else 0.
fn one(bit: bool) -> u8
    ensures { result ≡ (if bit then 1 else 0) }
{
    if bit { 1 } else { 0 }
}

/// The byte of eight bits.
fn byte_of(eight: &[bool]) -> u8
    requires { length eight.now ≡ 8 }
    ensures { result ≡ number_behind 0 eight.now }
{
    let mut number = 0;
    for bit in eight {
        number = 2 * number + one(*bit);
    }
    number
}

/// The bytes of a string, eight bits to each.
fn bytes_of(string: &[bool]) -> Words
    requires { length string.now ≤ 2192 }
    ensures bytes { result.items ≡ bytes_of string.now }
    ensures count { array_vec_len result ≡ length string.now / 8 }
{
    let mut words = ArrayVec::new();
    let mut left = string;
    while left.len() >= 8 {
        let (eight, rest) = left.split_at(8);
        words.push(byte_of(eight));
        left = rest;
    }
    words
}

/// Ends the message in a symbol of this capacity, and fills its last byte.
#[tactic(auto, unfolding(crate::specs::Strings::filled, crate::specs::Strings::terminated))]
fn end(message: &mut BitString, capacity: usize)
    requires most { capacity ≤ 274 }
    requires room { array_vec_len message.old ≤ 8 * capacity }
    ensures string { message.new.items ≡ filled (terminated (8 * capacity) message.old.items) }
    ensures room { array_vec_len message.new ≤ 8 * capacity }
{
    let zeros = (8 * capacity - message.len()).min(4);
    push_zeros(message, zeros);
    let zeros = (8 - message.len() % 8) % 8;
    push_zeros(message, zeros);
}

/// Pad codeword number `k`.
fn pad(k: usize) -> u8
    ensures { result ≡ pad k }
{
    if k % 2 == 0 { 0xec } else { 0x11 }
}

/// Appends pad codewords.
fn push_pads(words: &mut Words, n: usize)
    requires { array_vec_len words.old + n ≤ 274 }
    ensures pads { words.new.items ≡ words.old.items ++ pads n }
    ensures count { array_vec_len words.new ≡ array_vec_len words.old + n }
{
    for k in 0..n {
        words.push(pad(k));
    }
}

/// The data codewords of a message, in a symbol of this capacity.
#[tactic(auto, unfolding(crate::specs::Strings::padded))]
pub fn padded(message: &mut BitString, capacity: usize) -> Words
    requires most { capacity ≤ 274 }
    requires room { array_vec_len message.old ≤ 8 * capacity }
    ensures words { result.items ≡ padded capacity message.old.items }
    ensures count { array_vec_len result ≡ capacity }
{
    end(message, capacity);
    let mut words = bytes_of(message.as_slice());
    let missing = capacity - words.len();
    push_pads(&mut words, missing);
    words
}
