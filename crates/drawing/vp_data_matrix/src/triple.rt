//! C40, Text and X12 encodation: three values in two codewords.

ghost use Rattle.std.specs.Prelude.{◌≡◌, ℕ, true, ◌+◌, ◌*◌, ◌%◌, ◌<◌, ◌≤◌, ◌++◌, [], ◌∷◌, length, take, slice_index};
ghost use Rattle.std.specs.List.{list_all};
ghost use Rattle.arrayvec.specs.ArrayVec.{array_vec_len};
ghost use Rattle.vp_data_matrix.specs.Triples.{latch, c40_values, exchanged, x12_values, low_values, byte_values, values, x12_has, has, pair, pairs, front, unlatch, triples};

use crate::ascii::{ascii_length, push_ascii};
use crate::pad::Words;
use arrayvec::ArrayVec;

/// The values of one byte.
type ByteValues = ArrayVec<u8, 4>;

/// The values of as many bytes as a symbol holds.
type Values = ArrayVec<u8, 2337>;

/// A set of characters that stand as values.
#[derive(Clone, Copy)]
pub enum Charset {
    C40,
    Text,
    X12,
}

/// The longest front of bytes whose values are whole triples.
#[derive(Clone, Copy)]
struct Front {
    bytes: usize,
    values: u128,
}

/// Appends a value behind a shift.
fn push_shifted(values: &mut ByteValues, shift: u8, value: u8)
    requires { array_vec_len values.old ≤ 2 }
    ensures { values.new.items ≡ values.old.items ++ shift ∷ value ∷ [] }
{
    values.push(shift);
    values.push(value);
}

/// Appends C40's values of a byte below 128.
fn push_c40(values: &mut ByteValues, byte: u8)
    requires room { array_vec_len values.old ≤ 2 }
    requires low { byte < 128 }
    ensures { values.new.items ≡ values.old.items ++ c40_values byte }
{
    match byte {
        0..=31 => push_shifted(values, 0, byte),
        32 => values.push(3),
        33..=47 => push_shifted(values, 1, byte - 33),
        48..=57 => values.push(byte - 44),
        58..=64 => push_shifted(values, 1, byte - 43),
        65..=90 => values.push(byte - 51),
        91..=95 => push_shifted(values, 1, byte - 69),
        _ => push_shifted(values, 2, byte - 96),
    }
}

/// A letter as its capital or small one, and another byte as it is.
fn exchanged(byte: u8) -> u8
    ensures { result ≡ exchanged byte }
{
    match byte {
        b'A'..=b'Z' => byte + 32,
        b'a'..=b'z' => byte - 32,
        _ => byte,
    }
}

/// Appends X12's values of a byte below 128.
fn push_x12(values: &mut ByteValues, byte: u8)
    requires room { array_vec_len values.old ≤ 2 }
    requires low { byte < 128 }
    ensures { values.new.items ≡ values.old.items ++ x12_values byte }
{
    match byte {
        b'\r' => values.push(0),
        b'*' => values.push(1),
        b'>' => values.push(2),
        _ => push_c40(values, byte),
    }
}

/// Whether X12 has a byte.
fn x12_has(byte: u8) -> bool
    ensures { result ≡ x12_has byte }
{
    matches!(byte, b'\r' | b'*' | b'>' | b' ' | b'0'..=b'9' | b'A'..=b'Z')
}

impl Charset {
    /// The codeword that latches to it.
    fn latch(self) -> u8
        ensures { result ≡ latch self }
    {
        match self {
            Charset::C40 => 230,
            Charset::Text => 239,
            Charset::X12 => 238,
        }
    }

    /// Whether it has a byte.
    fn has(self, byte: u8) -> bool
        ensures { result ≡ has self byte }
    {
        match self {
            Charset::C40 | Charset::Text => true,
            Charset::X12 => x12_has(byte),
        }
    }

    /// Whether it has all these bytes.
    pub fn has_all(self, src: &[u8]) -> bool
        ensures { result ≡ list_all (has self) src.now }
    {
        src.iter().all(|byte| self.has(*byte))
    }

    /// Appends the values of a byte below 128.
    fn push_low(self, values: &mut ByteValues, byte: u8)
        requires room { array_vec_len values.old ≤ 2 }
        requires low { byte < 128 }
        ensures { values.new.items ≡ values.old.items ++ low_values self byte }
    {
        match self {
            Charset::C40 => push_c40(values, byte),
            Charset::Text => push_c40(values, exchanged(byte)),
            Charset::X12 => push_x12(values, byte),
        }
    }

    /// The values of a byte.
    fn byte_values(self, byte: u8) -> ByteValues
        ensures values { result.items ≡ byte_values self byte }
        ensures small { (k : ℕ) → slice_index result.items k < 40 }
    {
        let mut values = ArrayVec::new();
        if byte < 128 {
            self.push_low(&mut values, byte);
        } else {
            push_shifted(&mut values, 1, 30);
            self.push_low(&mut values, byte - 128);
        }
        values
    }

    /// The longest front of bytes whose values are whole triples.
    fn front(self, src: &[u8]) -> Front
        ensures bytes { result.bytes ≡ front self src.now }
        ensures within { result.bytes ≤ length src.now }
        ensures values { result.values ≡ length (values self (take (front self src.now) src.now)) }
        ensures most { result.values ≤ 4 * length src.now }
    {
        let mut front = Front {
            bytes: 0,
            values: 0,
        };
        let mut count = 0;
        for at in 0..src.len() {
            count += self.byte_values(src[at]).len() as u128;
            if count % 3 == 0 {
                front = Front {
                    bytes: at + 1,
                    values: count,
                };
            }
        }
        front
    }

    /// How many codewords bytes take that fill a symbol.
    pub fn length(self, src: &[u8]) -> u128
        ensures length { result ≡ length (triples true self src.now) }
        ensures most { result ≤ 6 + 6 * length src.now }
    {
        let front = self.front(src);
        let left = ascii_length(&src[front.bytes..]);
        1 + 2 * (front.values / 3) + unlatch_length(left) + left
    }

    /// The values of bytes.
    fn values(self, src: &[u8]) -> Values
        requires { length (values self src.now) ≤ 2337 }
        ensures values { result.items ≡ values self src.now }
        ensures small { (k : ℕ) → slice_index result.items k < 40 }
    {
        let mut values = ArrayVec::new();
        for byte in src {
            let _ = values.try_extend_from_slice(self.byte_values(*byte).as_slice());
        }
        values
    }

    /// Appends bytes that fill the symbol or don't.
    pub fn push(self, words: &mut Words, src: &[u8], full: bool)
        requires { array_vec_len words.old + length (triples full self src.now) ≤ 1558 }
        ensures { words.new.items ≡ words.old.items ++ triples full self src.now }
    {
        let front = self.front(src).bytes;
        let left = &src[front..];
        words.push(self.latch());
        push_pairs(words, self.values(&src[..front]).as_slice());
        push_unlatch(words, ascii_length(left), full);
        push_ascii(words, left);
    }
}

/// How many codewords the unlatch takes in front of so many, where these fill a symbol.
fn unlatch_length(left: u128) -> u128
    ensures length { result ≡ length (unlatch true left) }
    ensures most { result ≤ 1 }
{
    if left <= 1 { 0 } else { 1 }
}

/// Appends the unlatch, unless the codewords fill the symbol and at most one is left.
fn push_unlatch(words: &mut Words, left: u128, full: bool)
    requires { array_vec_len words.old + length (unlatch full left) ≤ 1558 }
    ensures { words.new.items ≡ words.old.items ++ unlatch full left }
{
    if !(full && left <= 1) {
        words.push(254);
    }
}

/// Appends three values in two codewords.
fn push_pair(words: &mut Words, a: u8, b: u8, c: u8)
    requires room { array_vec_len words.old + 2 ≤ 1558 }
    requires a { a < 40 }
    requires b { b < 40 }
    requires c { c < 40 }
    ensures { words.new.items ≡ words.old.items ++ pair a b c }
{
    let value = 1600 * u16::from(a) + 40 * u16::from(b) + u16::from(c) + 1;
    words.push((value / 256) as u8);
    words.push((value % 256) as u8);
}

/// Appends the whole triples of values.
fn push_pairs(words: &mut Words, values: &[u8])
    requires room { array_vec_len words.old + length (pairs values.now) ≤ 1558 }
    requires small { (k : ℕ) → slice_index values.now k < 40 }
    ensures { words.new.items ≡ words.old.items ++ pairs values.now }
{
    let mut left = values;
    while let [a, b, c, rest @ ..] = left {
        push_pair(words, *a, *b, *c);
        left = rest;
    }
}
