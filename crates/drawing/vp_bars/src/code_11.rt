//! Code 11.

ghost use Rattle.std.specs.Prelude.{◌≡◌, ◌+◌, ◌≤◌, length};
ghost use Rattle.vp_bars.specs.Code11.{code11_pattern as pattern_for, with_c, with_k, code11_checked, code11_of};

use crate::bars::{Bars, check_length};
use crate::checks::weighed;
use crate::patterns::row;
use crate::signs::values_of_signs;
use crate::symbology::Symbology;
use arrayvec::ArrayVec;
use vp_bar_code::Code11Checks;
use vp_dots::{Fault, Why};

/// The characters in the order of their values.
pub(crate) const CODE11_SIGNS: &[u8; 11] = b"0123456789-";

/// The elements of the characters, 1 for a wide one.
static CODE11: [[u8; 5]; 11] = [
    [0, 0, 0, 0, 1],
    [1, 0, 0, 0, 1],
    [0, 1, 0, 0, 1],
    [1, 1, 0, 0, 0],
    [0, 0, 1, 0, 1],
    [1, 0, 1, 0, 0],
    [0, 1, 1, 0, 0],
    [0, 0, 0, 1, 1],
    [1, 0, 0, 1, 0],
    [1, 0, 0, 0, 0],
    [0, 0, 1, 0, 0],
];

/// The elements of a character.
pub(crate) fn code11_pattern(v: u8) -> &'static [u8]
    ensures { result.now ≡ pattern_for v }
{
    row(&CODE11, v)
}

/// Appends the check character C.
fn push_c(values: &mut ArrayVec<u8, 258>)
    requires { length values.old.items ≤ 257 }
    ensures items { values.new.items ≡ with_c values.old.items }
    ensures len { length values.new.items ≡ length values.old.items + 1 }
{
    let c = weighed(values.as_slice(), 1, 10) % 11;
    values.push(c as u8);
}

/// Appends the check character K.
fn push_k(values: &mut ArrayVec<u8, 258>)
    requires { length values.old.items ≤ 257 }
    ensures items { values.new.items ≡ with_k values.old.items }
    ensures len { length values.new.items ≡ length values.old.items + 1 }
{
    let k = weighed(values.as_slice(), 1, 9) % 11;
    values.push(k as u8);
}

/// The symbol of these bytes with so many check characters.
///
/// Refused are, in this order: no bytes; more than 255 bytes (`SymbolTooLong`); a byte that is neither a
/// digit nor `-`.
pub fn code11(src: &[u8], checks: Code11Checks) -> Result<Bars, Fault>
    ensures { result ≡ code11_of src.now checks }
{
    check_length(src)?;
    let Some(mut values) = values_of_signs(CODE11_SIGNS, src) else {
        return Err(Fault::Symbol(Why::Char));
    };
    push_c(&mut values);
    match checks {
        Code11Checks::One => {}
        Code11Checks::Two => push_k(&mut values),
    }
    Ok(Bars::new(Symbology::Code11, values))
}
