//! EAN-13.

ghost use Rattle.std.specs.Prelude.{◌≡◌, ℕ, ◌≤◌, ◌∷◌, ◌++◌, List, length, true, IsTrue, Ok, Err};
ghost use Rattle.std.specs.Char.{is_ascii_digit};
ghost use Rattle.std.specs.List.{list_all};
ghost use Rattle.vp_bars.specs.Ean13.{ean13_check, is_count as has_count, padded, digits_of, ean13_of};

use crate::bars::{Bars, check_length};
use crate::symbology::Symbology;
use arrayvec::ArrayVec;
use vp_dots::{Fault, Why};

/// The check digit of these digits.
#[tactic(auto, using(crate::proofs::Digits::weighted_more))]
fn check_digit(digits: &[u8]) -> u8
    requires { length digits.now ≤ 258 }
    ensures { result ≡ ean13_check digits.now }
{
    let mut sum = 0u32;
    let mut weight = 1;
    for d in digits {
        sum += weight * u32::from(*d);
        weight = 4 - weight;
    }
    ((10 - sum % 10) % 10) as u8
}

/// The first 12 of the digits, with zeros on the left where there are fewer.
fn twelve_digits(src: &[u8]) -> ArrayVec<u8, 258>
    requires { IsTrue (list_all is_ascii_digit src.now) }
    ensures { result.items ≡ padded true (digits_of src.now) }
{
    let front = &src[..src.len().min(12)];
    let mut digits = ArrayVec::new();
    for _ in 0..12 - front.len() {
        digits.push(0);
    }
    for c in front {
        digits.push(*c - b'0');
    }
    digits
}

/// Whether all bytes are digits.
fn are_digits(src: &[u8]) -> bool
    ensures { result ≡ list_all is_ascii_digit src.now }
{
    src.iter().all(|c| c.is_ascii_digit())
}

/// Whether a symbol is made of `count` digits: of any number with `pad`, else of 12 or 13.
fn is_count(count: usize, pad: bool) -> bool
    ensures { result ≡ has_count count pad }
{
    pad || count == 12 || count == 13
}

/// The symbol of these digits.
///
/// Of 13 digits the last isn't looked at: the check digit is computed. With `pad`, fewer than 12 digits
/// get zeros on the left, and of more the first 12 stand. Refused are, in this order: no bytes; more than
/// 255 bytes (`SymbolTooLong`); a byte that isn't a digit; without `pad` any count but 12 and 13.
pub fn ean13(src: &[u8], pad: bool) -> Result<Bars, Fault>
    ensures { result ≡ ean13_of src.now pad }
{
    check_length(src)?;
    if !are_digits(src) {
        return Err(Fault::Symbol(Why::Char));
    }
    if !is_count(src.len(), pad) {
        return Err(Fault::Symbol(Why::Length));
    }
    let mut values = twelve_digits(src);
    let check = check_digit(values.as_slice());
    values.push(check);
    Ok(Bars::new(Symbology::Ean13, values))
}
