//! Byte compaction.

ghost use Rattle.std.specs.Prelude.{◌≡◌, ◌*◌, ◌+◌, ◌<◌};
ghost use Rattle.vp_pdf417.specs.Places.{base_900};
ghost use Rattle.vp_pdf417.specs.Bytes.{six, byte_latch, by_six, bytes};
ghost use Rattle.vp_pdf417.specs.Written.{written};

use crate::words::Words;

/// Writes a number as five codewords.
fn push_five(words: &mut Words, value: u64)
    ensures { words.new ≡ written words.old (base_900 5 value) }
{
    words.push((value / 900 / 900 / 900 / 900 % 900) as u16);
    words.push((value / 900 / 900 / 900 % 900) as u16);
    words.push((value / 900 / 900 % 900) as u16);
    words.push((value / 900 % 900) as u16);
    words.push((value % 900) as u16);
}

/// Six bytes as one number.
fn six(a: u8, b: u8, c: u8, d: u8, e: u8, f: u8) -> u64
    ensures { result ≡ six a b c d e f }
{
    let high = 256 * (256 * u64::from(a) + u64::from(b)) + u64::from(c);
    256 * (256 * (256 * high + u64::from(d)) + u64::from(e)) + u64::from(f)
}

/// The latch of bytes.
fn byte_latch(src: &[u8]) -> u16
    ensures latch { result ≡ byte_latch src.now }
    ensures word { result < 929 }
{
    if src.len() % 6 == 0 { 924 } else { 901 }
}

/// Writes bytes.
#[tactic(auto, unfolding(crate::specs::Bytes::bytes))]
pub fn push_bytes(words: &mut Words, src: &[u8])
    ensures { words.new ≡ written words.old (bytes src.now) }
{
    words.push(byte_latch(src));
    let mut left = src;
    while let [a, b, c, d, e, f, rest @ ..] = left {
        push_five(words, six(*a, *b, *c, *d, *e, *f));
        left = rest;
    }
    for byte in left {
        words.push(u16::from(*byte));
    }
}
