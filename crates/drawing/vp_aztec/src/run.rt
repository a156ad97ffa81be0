//! Runs of bytes behind a binary shift.

ghost use Rattle.std.specs.Prelude.{◌≡◌, ◌≤◌, length, take};
ghost use Rattle.std.specs.List.{list_all};
ghost use Rattle.vp_aztec.specs.Characters.{is_text};
ghost use Rattle.vp_aztec.specs.Runs.{run, longest, count, byte_codes};
ghost use Rattle.vp_aztec.specs.Written.{written};

use crate::bits::Bits;
use crate::mode::{Code, is_text};

/// The most bytes whose number can be said.
const LONGEST: usize = 2078;

/// Whether the first five bytes, or all where there are fewer, are characters.
fn begins_text(src: &[u8]) -> bool
    ensures { result ≡ list_all is_text (take 5 src.now) }
{
    if src.len() < 5 {
        src.iter().all(|byte| is_text(*byte))
    } else {
        src[..5].iter().all(|byte| is_text(*byte))
    }
}

/// How long the run is that bytes begin with.
pub fn run(src: &[u8]) -> usize
    ensures run { result ≡ run longest src.now }
    ensures within { result ≤ length src.now }
    ensures most { result ≤ longest }
{
    for k in 0..LONGEST {
        if k >= src.len() || begins_text(&src[k..]) {
            return k;
        }
    }
    LONGEST
}

/// The number of bytes, as it is said.
pub fn count(n: usize) -> Code
    requires { n ≤ longest }
    ensures count { result ≡ count n }
    ensures most { result.0 ≤ 16 }
{
    if n <= 31 {
        (5, n as u16)
    } else {
        (16, (n - 31) as u16)
    }
}

/// Writes bytes as they are.
pub fn push_bytes(bits: &mut Bits, src: &[u8])
    ensures { bits.new ≡ written bits.old (byte_codes src.now) }
{
    for byte in src {
        bits.push((8, u16::from(*byte)));
    }
}
