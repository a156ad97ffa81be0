//! Code 39.

ghost use Rattle.std.specs.Prelude.{◌≡◌, ℕ, ◌<◌, ◌≤◌, ◌∷◌, ◌++◌, List, Option, length, IfSome};
ghost use Rattle.vp_bars.specs.declared.bars.TheConstants.{DATA_BYTES};
ghost use Rattle.std.specs.Option.{option_map};
ghost use Rattle.vp_bars.specs.Code39.{value_of, values_of, code39_check, unstarred, code39_of};

use crate::bars::{Bars, check_length, extend};
use crate::symbology::Symbology;
use arrayvec::ArrayVec;
use vp_dots::{Fault, Why};

/// The characters in the order of their values.
pub(crate) const ALPHABET: &[u8; 43] = b"0123456789ABCDEFGHIJKLMNOPQRSTUVWXYZ-. $/+%";

/// The value of `*`, which starts and stops a symbol.
const STAR: u8 = 43;

/// The place of a character among them.
fn place_of_char(c: u8) -> Option<usize>
    ensures value { result ≡ value_of c }
    ensures small { IfSome result (λ v. v < 43) }
{
    ALPHABET.iter().position(|a| *a == c)
}

/// The value of a character.
fn value_of_char(c: u8) -> Option<u8>
    ensures { result ≡ value_of c }
{
    match place_of_char(c) {
        Some(value) => Some(value as u8),
        None => None,
    }
}

/// The data without a `*` at each end.
#[tactic(auto, unfolding(crate::specs::Code39::unstarred))]
fn without_stars(src: &[u8]) -> &[u8]
    ensures between { result.now ≡ unstarred src.now }
    ensures len { length result.now ≤ length src.now }
{
    let len = src.len();
    if len >= 2 && src[0] == b'*' && src[len - 1] == b'*' {
        return &src[1..len - 1];
    }
    src
}

/// The values of all characters, none where a byte is no character.
#[tactic(auto, using(crate::proofs::Characters::values_more, crate::proofs::Characters::values_stop))]
fn values_of_chars(chars: &[u8]) -> Option<ArrayVec<u8, 258>>
    requires { length chars.now ≤ DATA_BYTES }
    ensures values { option_map (λ vs. vs.items) result ≡ values_of chars.now }
    ensures len { IfSome result (λ vs. length vs.items ≡ length chars.now) }
{
    let mut values = ArrayVec::new();
    for c in chars {
        match value_of_char(*c) {
            Some(value) => values.push(value),
            None => return None,
        }
    }
    Some(values)
}

/// The check character of these values.
fn check_character(values: &[u8]) -> u8
    requires { length values.now ≤ 258 }
    ensures { result ≡ code39_check values.now }
{
    let mut sum = 0u32;
    for v in values {
        sum += u32::from(*v);
    }
    (sum % 43) as u8
}

/// The symbol of these bytes, with a check character if that is asked for.
///
/// `*` at both ends is taken as the start and the stop. Refused are, in this order: no bytes; more
/// than 255 bytes (`SymbolTooLong`); nothing between the stars; a byte that isn't one of the 43 characters.
pub fn code39(src: &[u8], check: bool) -> Result<Bars, Fault>
    ensures { result ≡ code39_of src.now check }
{
    check_length(src)?;
    let data = without_stars(src);
    if data.is_empty() {
        return Err(Fault::Symbol(Why::Empty));
    }
    let Some(data) = values_of_chars(data) else {
        return Err(Fault::Symbol(Why::Char));
    };
    let mut values = ArrayVec::new();
    values.push(STAR);
    extend(&mut values, data.as_slice());
    if check {
        values.push(check_character(data.as_slice()));
    }
    values.push(STAR);
    Ok(Bars::new(Symbology::Code39, values))
}
