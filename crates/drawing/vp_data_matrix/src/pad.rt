//! The data codewords of a symbol, and the pads that fill it.

ghost use Rattle.std.specs.Prelude.{◌≡◌, ◌+◌, ◌≤◌};
ghost use Rattle.arrayvec.specs.ArrayVec.{array_vec_len};
ghost use Rattle.vp_data_matrix.specs.Pads.{pad, pads_from, padded};

use arrayvec::ArrayVec;

/// The data codewords of a symbol.
pub type Words = ArrayVec<u8, 1558>;

/// A pad at a position, but the first.
fn pad(position: usize) -> u8
    requires { position ≤ 2000 }
    ensures { result ≡ pad position }
{
    let value = 130 + 149 * position % 253;
    if value <= 254 {
        value as u8
    } else {
        (value - 254) as u8
    }
}

/// Appends pads up to so many codewords.
pub fn push_pads(words: &mut Words, capacity: usize)
    requires room { array_vec_len words.old ≤ capacity }
    requires most { capacity ≤ 1558 }
    ensures pads { words.new.items ≡ padded capacity words.old.items }
    ensures count { array_vec_len words.new ≡ capacity }
{
    if words.len() == capacity {
        return;
    }
    words.push(129);
    for position in words.len() + 1..capacity + 1 {
        words.push(pad(position));
    }
}
