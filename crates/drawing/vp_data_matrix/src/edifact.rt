//! EDIFACT encodation: four values in three codewords.

ghost use Rattle.std.specs.Prelude.{◌≡◌, ◌+◌, ◌*◌, ◌<◌, ◌≤◌, ◌++◌, length};
ghost use Rattle.std.specs.List.{list_all};
ghost use Rattle.arrayvec.specs.ArrayVec.{array_vec_len};
ghost use Rattle.vp_data_matrix.specs.Edifact.{edifact_has, six, four, fours, edifact};

use crate::ascii::{ascii_length, push_ascii};
use crate::pad::Words;

/// The unlatch.
const UNLATCH: u8 = 31;

/// Whether EDIFACT has all these bytes.
pub fn edifact_has_all(src: &[u8]) -> bool
    ensures { result ≡ list_all edifact_has src.now }
{
    src.iter().all(|byte| matches!(*byte, 32..=94))
}

/// The value of a character.
fn six(byte: u8) -> u8
    ensures value { result ≡ six byte }
    ensures most { result < 64 }
{
    byte % 64
}

/// How many codewords bytes take.
pub fn edifact_length(src: &[u8]) -> u128
    ensures length { result ≡ length (edifact src.now) }
    ensures most { result ≤ 6 + 6 * length src.now }
{
    let mut count = 1;
    let mut left = src;
    while let [_, _, _, _, _, _, ..] = left {
        count += 3;
        left = &left[4..];
    }
    match left {
        [_, _, _, rest @ ..] => count + 3 + ascii_length(rest),
        [_, _] => count + 3,
        _ => count + ascii_length(left),
    }
}

/// Appends the values of four characters.
fn push_four(words: &mut Words, a: u8, b: u8, c: u8, d: u8)
    requires { array_vec_len words.old + 3 ≤ 1558 }
    ensures { words.new.items ≡ words.old.items ++ four a b c d }
{
    words.push(4 * six(a) + six(b) / 16);
    words.push(six(b) % 16 * 16 + six(c) / 4);
    words.push(six(c) % 4 * 64 + six(d));
}

/// Appends bytes.
pub fn push_edifact(words: &mut Words, src: &[u8])
    requires { array_vec_len words.old + length (edifact src.now) ≤ 1558 }
    ensures { words.new.items ≡ words.old.items ++ edifact src.now }
{
    words.push(240);
    let mut left = src;
    while let [a, b, c, d, _, _, ..] = left {
        push_four(words, *a, *b, *c, *d);
        left = &left[4..];
    }
    match left {
        [a, b, c, rest @ ..] => {
            push_four(words, *a, *b, *c, UNLATCH);
            push_ascii(words, rest);
        }
        [a, b] => push_four(words, *a, *b, UNLATCH, 0),
        _ => push_ascii(words, left),
    }
}
