//! Base 256 encodation.

ghost use Rattle.std.specs.Prelude.{◌≡◌, ℕ, ◌+◌, ◌≤◌, ◌++◌, length};
ghost use Rattle.arrayvec.specs.ArrayVec.{array_vec_len};
ghost use Rattle.vp_data_matrix.specs.Base256.{randomised, randomised_from, length_field, base_256};

use crate::pad::Words;

/// How many codewords bytes take in base 256 encodation.
pub fn base_256_length(src: &[u8]) -> u128
    ensures length { (before : ℕ) → result ≡ length (base_256 before src.now) }
    ensures most { result ≤ 3 + length src.now }
{
    let n = src.len() as u128;
    if n < 250 { 2 + n } else { 3 + n }
}

/// A byte as the codeword at a position, the first codeword's being 1.
fn randomised(position: usize, byte: u8) -> u8
    requires { position ≤ 2000 }
    ensures { result ≡ randomised position byte }
{
    ((usize::from(byte) + (149 * position % 255 + 1)) % 256) as u8
}

/// Appends bytes as codewords of base 256.
fn push_randomised(words: &mut Words, bytes: &[u8])
    requires { array_vec_len words.old + length bytes.now ≤ 1558 }
    ensures { words.new.items ≡ words.old.items ++ randomised_from (array_vec_len words.old + 1) bytes.now }
{
    for byte in bytes {
        words.push(randomised(words.len() + 1, *byte));
    }
}

/// Appends how many bytes follow.
fn push_length(words: &mut Words, n: usize)
    requires most { n ≤ 1555 }
    requires room { array_vec_len words.old + length (length_field n) ≤ 1558 }
    ensures { words.new.items ≡ words.old.items
        ++ randomised_from (array_vec_len words.old + 1) (length_field n) }
{
    if n < 250 {
        push_randomised(words, &[n as u8]);
    } else {
        push_randomised(words, &[(249 + n / 250) as u8, (n % 250) as u8]);
    }
}

/// Appends bytes in base 256 encodation.
pub fn push_base_256(words: &mut Words, src: &[u8])
    requires { array_vec_len words.old + length (base_256 (array_vec_len words.old) src.now) ≤ 1558 }
    ensures { words.new.items ≡ words.old.items ++ base_256 (array_vec_len words.old) src.now }
{
    words.push(231);
    push_length(words, src.len());
    push_randomised(words, src);
}
