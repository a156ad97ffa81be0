//! UPC-E.

ghost use Rattle.std.specs.Prelude.{◌≡◌, ◌≤◌, ◌<◌, ◌==◌, ◌∷◌, length, Ok, Some, IfSome};
ghost use Rattle.std.specs.List.{All, list_all};
ghost use Rattle.vp_bar_code.specs.declared.UpcEData.TheVariants.{MakerArticle};
ghost use Rattle.vp_bars.specs.UpcE.{long_form as long_form_of, short_form as short_form_of, upce_short, behind_system, six_of_digits, six_of, upce_of};

use crate::bars::{Bars, check_length, extend};
use crate::checks::mod10_check;
use crate::patterns::row;
use crate::signs::{DIGITS, values_of_signs};
use crate::symbology::Symbology;
use crate::upc::{END, GUARD, TOLD, push_in_sets};
use arrayvec::ArrayVec;
use vp_bar_code::UpcEData;
use vp_dots::{Fault, Why};

/// The sets of the six digits by the check digit: 0 for A.
static SETS: [[u8; 6]; 10] = [
    [1, 1, 1, 0, 0, 0],
    [1, 1, 0, 1, 0, 0],
    [1, 1, 0, 0, 1, 0],
    [1, 1, 0, 0, 0, 1],
    [1, 0, 1, 1, 0, 0],
    [1, 0, 0, 1, 1, 0],
    [1, 0, 0, 0, 1, 1],
    [1, 0, 1, 0, 1, 0],
    [1, 0, 1, 0, 0, 1],
    [1, 0, 0, 1, 0, 1],
];

/// The eleven digits that six stand for.
fn long_form(ds: &[u8]) -> [u8; 11]
    requires { length ds.now ≡ 6 }
    ensures { result ≡ long_form_of ds.now }
{
    let [a, b, c, d, e, f] = [ds[0], ds[1], ds[2], ds[3], ds[4], ds[5]];
    match f {
        0..=2 => [0, a, b, f, 0, 0, 0, 0, c, d, e],
        3 => [0, a, b, c, 0, 0, 0, 0, 0, d, e],
        4 => [0, a, b, c, d, 0, 0, 0, 0, 0, e],
        _ => [0, a, b, c, d, e, 0, 0, 0, 0, f],
    }
}

/// Whether all digits are zeros.
fn are_zeros(digits: &[u8]) -> bool
    ensures { result ≡ list_all (λ d. d == 0) digits.now }
{
    digits.iter().all(|d| *d == 0)
}

/// The six digits that stand for eleven, if they have a short form.
fn short_form(ds: &[u8]) -> Option<[u8; 6]>
    requires eleven { length ds.now ≡ 11 }
    requires digits { All (λ d. d < 10) ds.now }
    ensures short { result ≡ short_form_of ds.now }
    ensures digits { IfSome result (λ six. All (λ d. d < 10) six) }
{
    if ds[0] >= 1 {
        return None;
    }
    if ds[3] < 3 && are_zeros(&ds[4..8]) {
        return Some([ds[1], ds[2], ds[8], ds[9], ds[10], ds[3]]);
    }
    if are_zeros(&ds[4..9]) {
        return Some([ds[1], ds[2], ds[3], ds[9], ds[10], 3]);
    }
    if are_zeros(&ds[5..10]) {
        return Some([ds[1], ds[2], ds[3], ds[4], ds[10], 4]);
    }
    if ds[10] >= 5 && are_zeros(&ds[6..10]) {
        return Some([ds[1], ds[2], ds[3], ds[4], ds[5], ds[10]]);
    }
    None
}

/// The symbol of six digits.
fn symbol_of(six: &[u8]) -> Bars
    requires digits { All (λ d. d < 10) six.now }
    requires count { length six.now ≡ 6 }
    ensures { Ok result ≡ upce_short (Some six.now) }
{
    let check = mod10_check(&long_form(six));
    let mut values = ArrayVec::new();
    values.push(TOLD);
    values.push(GUARD);
    push_in_sets(row(&SETS, check), six, &mut values);
    values.push(END);
    values.push(TOLD + check);
    Bars::new(Symbology::UpcE, values)
}

/// The symbol of the short form of eleven digits, or that they have none.
fn short_symbol(eleven: &[u8]) -> Result<Bars, Fault>
    requires count { length eleven.now ≡ 11 }
    requires digits { All (λ d. d < 10) eleven.now }
    ensures { result ≡ upce_short (short_form_of eleven.now) }
{
    match short_form(eleven) {
        Some(six) => Ok(symbol_of(&six)),
        None => Err(Fault::Symbol(Why::Length)),
    }
}

/// Digits behind the 0 of their number system.
fn behind_zero(digits: &[u8]) -> ArrayVec<u8, 258>
    requires digits { All (λ d. d < 10) digits.now }
    requires few { length digits.now ≤ 255 }
    ensures items { result.items ≡ 0 ∷ digits.now }
    ensures digits { All (λ d. d < 10) result.items }
{
    let mut all = ArrayVec::new();
    all.push(0);
    extend(&mut all, digits);
    all
}

/// The symbol of six digits behind the 0 of their number system, whatever comes after them.
fn system_symbol(digits: &[u8]) -> Result<Bars, Fault>
    requires count { 7 ≤ length digits.now }
    requires digits { All (λ d. d < 10) digits.now }
    ensures { result ≡ upce_short (behind_system digits.now) }
{
    if digits[0] != 0 {
        return Err(Fault::Symbol(Why::Length));
    }
    Ok(symbol_of(&digits[1..7]))
}

/// The symbol of six digits, of these behind a 0, or of the short form of a UPC-A.
fn digits_symbol(digits: &[u8]) -> Result<Bars, Fault>
    requires { All (λ d. d < 10) digits.now }
    ensures { result ≡ upce_short (six_of_digits digits.now) }
{
    match digits.len() {
        6 => Ok(symbol_of(digits)),
        7 | 8 => system_symbol(digits),
        11 | 12 => short_symbol(&digits[..11]),
        _ => Err(Fault::Symbol(Why::Length)),
    }
}

/// The symbol of these, or of a maker's five digits and an article's.
fn article_symbol(digits: &[u8]) -> Result<Bars, Fault>
    requires digits { All (λ d. d < 10) digits.now }
    requires few { length digits.now ≤ 255 }
    ensures { result ≡ upce_short (six_of MakerArticle digits.now) }
{
    if digits.len() == 10 {
        return short_symbol(behind_zero(digits).as_slice());
    }
    digits_symbol(digits)
}

/// The symbol of these digits: of six, of six behind a 0 with a check digit or without, or of the short form
/// of a UPC-A with its check digit or without. As a maker's and an article's, ten digits are a UPC-A's too.
///
/// A check digit isn't looked at: it is computed. Refused are, in this order: no bytes; more than 255 bytes
/// (`SymbolTooLong`); a byte that isn't a digit; any count but 6, 7, 8, 11, 12 and 10, another number system
/// than 0, and a number that has no short form (`Length`).
pub fn upce(src: &[u8], kind: UpcEData) -> Result<Bars, Fault>
    ensures { result ≡ upce_of src.now kind }
{
    check_length(src)?;
    let Some(digits) = values_of_signs(DIGITS, src) else {
        return Err(Fault::Symbol(Why::Char));
    };
    match kind {
        UpcEData::Digits => digits_symbol(digits.as_slice()),
        UpcEData::MakerArticle => article_symbol(digits.as_slice()),
    }
}
