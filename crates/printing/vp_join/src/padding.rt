//! Clears the bits of rows that are no dots.
ghost use Rattle.std.specs.Prelude.{◌≡◌, ◌<◌, ◌+◌, ◌*◌, ℕ, []};
ghost use Rattle.vp_dots.specs.Dots.{bit};
ghost use Rattle.vp_dots.specs.Painting.{paint, Painted};
ghost use Rattle.vp_join.specs.Strips.{is_padding};

use crate::reading::bytes_of_row;
use vp_dots::Op;

/// A byte with the bits of the mask cleared.
#[tactic(auto, using(vp_dots::proofs::Bits::bit_of_and_not))]
fn cleared(byte: u8, mask: u8) -> u8
    ensures { (k : ℕ) → k < 8 → bit result k ≡ paint Op.White (bit mask k) (bit byte k) }
{
    byte & !mask
}

/// Clears the padding in bytes of rows of `width` dots, before which `given` bytes were given.
pub fn clear_padding(width: u32, given: u64, rows: &mut [u8])
    requires { width ≡ 0 → rows.old ≡ [] }
    ensures { Painted Op.White (λ d. is_padding width (8 * given + d)) rows.old rows.new }
{
    let dots = width % 8;
    if dots == 0 {
        return;
    }
    let bytes = bytes_of_row(width);
    let mask = 0xffu8 >> dots;
    let mut last = bytes - 1 - given % bytes;
    'rows: while last < rows.len() as u64 {
        let i = last as usize;
        rows[i] = cleared(rows[i], mask);
        last += bytes;
    }
}
