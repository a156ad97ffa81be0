//! EAN-8.

ghost use Rattle.std.specs.Prelude.{◌≡◌};
ghost use Rattle.vp_bars.specs.Ean8.{ean8_of};

use crate::bars::{Bars, check_length};
use crate::signs::{DIGITS, values_of_signs};
use crate::symbology::Symbology;
use crate::upc::{checked, halves, is_count, padded};
use vp_dots::{Fault, Why};

/// The symbol of these digits.
///
/// Of 8 digits the last isn't looked at: the check digit is computed. With `pad`, fewer than 7 digits get
/// zeros on the left, and of more the first 7 stand. Refused are, in this order: no bytes; more than 255
/// bytes (`SymbolTooLong`); a byte that isn't a digit; without `pad` any count but 7 and 8.
pub fn ean8(src: &[u8], pad: bool) -> Result<Bars, Fault>
    ensures { result ≡ ean8_of src.now pad }
{
    check_length(src)?;
    let Some(digits) = values_of_signs(DIGITS, src) else {
        return Err(Fault::Symbol(Why::Char));
    };
    let digits = padded(pad, 7, digits.as_slice());
    if !is_count(7, digits.len()) {
        return Err(Fault::Symbol(Why::Length));
    }
    let all = checked(7, digits.as_slice());
    Ok(Bars::new(Symbology::Ean8, halves(4, all.as_slice())))
}
