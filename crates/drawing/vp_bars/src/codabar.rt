//! Codabar.

ghost use Rattle.std.specs.Prelude.{◌≡◌, ◌≤◌, not, length, map, IfSome};
ghost use Rattle.std.specs.List.{list_all};
ghost use Rattle.std.specs.Option.{option_map};
ghost use Rattle.vp_bar_code.specs.declared.CodabarEnds.TheVariants.{Around};
ghost use Rattle.vp_bars.specs.Signs.{values_among};
ghost use Rattle.vp_bars.specs.Codabar.{codabar_signs, codabar_pattern as pattern_for, is_end as is_end_value, between as between_ends, has_ends as has_both_ends, end_value as value_of_end, capital as capital_of, written, ended, codabar_of};

use crate::bars::{Bars, check_length, extend};
use crate::patterns::row;
use crate::signs::values_of_signs;
use crate::symbology::Symbology;
use arrayvec::ArrayVec;
use vp_bar_code::{CodabarEnd, CodabarEnds};
use vp_dots::{Fault, Why};

/// The characters in the order of their values.
pub(crate) const CODABAR_SIGNS: &[u8; 20] = b"0123456789-$:/.+ABCD";

/// The elements of the characters, 1 for a wide one.
static CODABAR: [[u8; 7]; 20] = [
    [0, 0, 0, 0, 0, 1, 1],
    [0, 0, 0, 0, 1, 1, 0],
    [0, 0, 0, 1, 0, 0, 1],
    [1, 1, 0, 0, 0, 0, 0],
    [0, 0, 1, 0, 0, 1, 0],
    [1, 0, 0, 0, 0, 1, 0],
    [0, 1, 0, 0, 0, 0, 1],
    [0, 1, 0, 0, 1, 0, 0],
    [0, 1, 1, 0, 0, 0, 0],
    [1, 0, 0, 1, 0, 0, 0],
    [0, 0, 0, 1, 1, 0, 0],
    [0, 0, 1, 1, 0, 0, 0],
    [1, 0, 0, 0, 1, 0, 1],
    [1, 0, 1, 0, 0, 0, 1],
    [1, 0, 1, 0, 1, 0, 0],
    [0, 0, 1, 0, 1, 0, 1],
    [0, 0, 1, 1, 0, 1, 0],
    [0, 1, 0, 1, 0, 0, 1],
    [0, 0, 0, 1, 0, 1, 1],
    [0, 0, 0, 1, 1, 1, 0],
];

/// The elements of a character.
pub(crate) fn codabar_pattern(v: u8) -> &'static [u8]
    ensures { result.now ≡ pattern_for v }
{
    row(&CODABAR, v)
}

/// Whether a value starts or stops a symbol.
fn is_end(v: u8) -> bool
    ensures { result ≡ is_end_value v }
{
    v >= 16
}

/// The values between the first and the last.
fn between(values: &[u8]) -> &[u8]
    ensures { result.now ≡ between_ends values.now }
{
    if values.len() < 2 {
        return &[];
    }
    &values[1..values.len() - 1]
}

/// Whether none of them starts or stops a symbol.
fn has_no_end(values: &[u8]) -> bool
    ensures { result ≡ list_all (λ v. not (is_end_value v)) values.now }
{
    values.iter().all(|v| !is_end(*v))
}

/// Whether a start comes first and a stop last, and neither between them.
fn has_ends(values: &[u8]) -> bool
    requires { 1 ≤ length values.now }
    ensures { result ≡ has_both_ends values.now }
{
    is_end(values[0]) && is_end(values[values.len() - 1]) && has_no_end(between(values))
}

/// The value of a start or a stop.
fn end_value(letter: CodabarEnd) -> u8
    ensures { result ≡ value_of_end letter }
{
    match letter {
        CodabarEnd::A => 16,
        CodabarEnd::B => 17,
        CodabarEnd::C => 18,
        CodabarEnd::D => 19,
    }
}

/// The capital of a small letter that starts or stops a symbol.
fn capital(c: u8) -> u8
    ensures { result ≡ capital_of c }
{
    match c {
        b'a'..=b'd' => c - 32,
        _ => c,
    }
}

/// Data with capitals for these small letters.
fn capitals(src: &[u8]) -> ArrayVec<u8, 258>
    requires { length src.now ≤ 255 }
    ensures { result.items ≡ map capital_of src.now }
{
    let mut signs = ArrayVec::new();
    for c in src {
        signs.push(capital(*c));
    }
    signs
}

/// The values of the data's signs.
fn values_of(src: &[u8], ends: CodabarEnds) -> Option<ArrayVec<u8, 258>>
    requires { length src.now ≤ 255 }
    ensures values { option_map (λ vs. vs.items) result ≡ values_among codabar_signs (written ends src.now) }
    ensures len { IfSome result (λ vs. length vs.items ≡ length src.now) }
{
    match ends {
        CodabarEnds::Data => values_of_signs(CODABAR_SIGNS, capitals(src).as_slice()),
        CodabarEnds::Around { .. } => values_of_signs(CODABAR_SIGNS, src),
    }
}

/// Values between a start and a stop, unless they have their own.
fn put_around(values: &[u8], start: CodabarEnd, stop: CodabarEnd) -> ArrayVec<u8, 258>
    requires some { 1 ≤ length values.now }
    requires few { length values.now ≤ 255 }
    ensures items { result.items ≡ ended (Around start stop) values.now }
    ensures some { 1 ≤ length result.items }
{
    let mut all = ArrayVec::new();
    if has_ends(values) {
        extend(&mut all, values);
        return all;
    }
    all.push(end_value(start));
    extend(&mut all, values);
    all.push(end_value(stop));
    all
}

/// Values with their ends.
fn with_ends(values: ArrayVec<u8, 258>, ends: CodabarEnds) -> ArrayVec<u8, 258>
    requires some { 1 ≤ length values.items }
    requires few { length values.items ≤ 255 }
    ensures items { result.items ≡ ended ends values.items }
    ensures some { 1 ≤ length result.items }
{
    match ends {
        CodabarEnds::Data => values,
        CodabarEnds::Around { start, stop } => put_around(values.as_slice(), start, stop),
    }
}

/// The symbol of these bytes. The first and the last of them are its start and its stop, A, B, C or D or
/// their small letters; or others are put around them, unless they have both, as capitals.
///
/// Refused are, in this order: no bytes; more than 255 bytes (`SymbolTooLong`); a byte that isn't one of the
/// 20 characters, and start and stop missing or elsewhere than at the ends; nothing between them.
pub fn codabar_symbol(src: &[u8], ends: CodabarEnds) -> Result<Bars, Fault>
    ensures { result ≡ codabar_of src.now ends }
{
    check_length(src)?;
    let Some(values) = values_of(src, ends) else {
        return Err(Fault::Symbol(Why::Char));
    };
    let values = with_ends(values, ends);
    if !has_ends(values.as_slice()) {
        return Err(Fault::Symbol(Why::Char));
    }
    if values.len() < 3 {
        return Err(Fault::Symbol(Why::Length));
    }
    Ok(Bars::new(Symbology::Codabar, values))
}
