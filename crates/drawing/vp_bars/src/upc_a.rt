//! UPC-A.

ghost use Rattle.std.specs.Prelude.{◌≡◌};
ghost use Rattle.vp_bars.specs.UpcA.{upca_of};

use crate::bars::{Bars, check_length};
use crate::signs::{DIGITS, values_of_signs};
use crate::symbology::Symbology;
use crate::upc::{checked, halves, is_count, padded};
use vp_dots::{Fault, Why};

/// The symbol of these digits.
///
/// Of 12 digits the last isn't looked at: the check digit is computed. With `pad`, fewer than 11 digits get
/// zeros on the left, and of more the first 11 stand. Refused are, in this order: no bytes; more than 255
/// bytes (`SymbolTooLong`); a byte that isn't a digit; without `pad` any count but 11 and 12.
pub fn upca(src: &[u8], pad: bool) -> Result<Bars, Fault>
    ensures { result ≡ upca_of src.now pad }
{
    check_length(src)?;
    let Some(digits) = values_of_signs(DIGITS, src) else {
        return Err(Fault::Symbol(Why::Char));
    };
    let digits = padded(pad, 11, digits.as_slice());
    if !is_count(11, digits.len()) {
        return Err(Fault::Symbol(Why::Length));
    }
    let all = checked(11, digits.as_slice());
    Ok(Bars::new(Symbology::UpcA, halves(6, all.as_slice())))
}
