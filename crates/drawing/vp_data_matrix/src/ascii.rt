//! ASCII encodation.

ghost use Rattle.std.specs.Prelude.{◌≡◌, true, ◌+◌, ◌*◌, ◌&&◌, ◌≤◌, ◌++◌, length};
ghost use Rattle.arrayvec.specs.ArrayVec.{array_vec_len};
ghost use Rattle.vp_data_matrix.specs.Ascii.{digit, single, digit_pair, ascii};

use crate::pad::Words;

/// Whether both bytes are digits.
fn are_digits(a: u8, b: u8) -> bool
    ensures { result ≡ (digit a && digit b) }
{
    a.is_ascii_digit() && b.is_ascii_digit()
}

/// The codeword of two digits.
fn digit_pair(a: u8, b: u8) -> u8
    requires a { digit a ≡ true }
    requires b { digit b ≡ true }
    ensures { result ≡ digit_pair a b }
{
    130 + 10 * (a - b'0') + (b - b'0')
}

/// How many codewords a byte by itself takes.
fn single_length(byte: u8) -> u128
    ensures length { result ≡ length (single byte) }
    ensures most { result ≤ 2 }
{
    if byte.is_ascii() { 1 } else { 2 }
}

/// How many codewords bytes take in ASCII encodation.
pub fn ascii_length(src: &[u8]) -> u128
    ensures length { result ≡ length (ascii src.now) }
    ensures most { result ≤ 2 * length src.now }
{
    let mut count = 0;
    let mut left = src;
    while let [a, b, rest @ ..] = left {
        if are_digits(*a, *b) {
            count += 1;
            left = rest;
        } else {
            count += single_length(*a);
            left = &left[1..];
        }
    }
    if let [a, ..] = left {
        count += single_length(*a);
    }
    count
}

/// Appends the codewords of a byte by itself.
fn push_single(words: &mut Words, byte: u8)
    requires { array_vec_len words.old + length (single byte) ≤ 1558 }
    ensures { words.new.items ≡ words.old.items ++ single byte }
{
    if byte.is_ascii() {
        words.push(byte + 1);
    } else {
        words.push(235);
        words.push(byte - 127);
    }
}

/// Appends bytes in ASCII encodation.
pub fn push_ascii(words: &mut Words, src: &[u8])
    requires { array_vec_len words.old + length (ascii src.now) ≤ 1558 }
    ensures { words.new.items ≡ words.old.items ++ ascii src.now }
{
    let mut left = src;
    while let [a, b, rest @ ..] = left {
        if are_digits(*a, *b) {
            words.push(digit_pair(*a, *b));
            left = rest;
        } else {
            push_single(words, *a);
            left = &left[1..];
        }
    }
    if let [a, ..] = left {
        push_single(words, *a);
    }
}
