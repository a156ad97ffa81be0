//! Interleaved 2 of 5.

ghost use Rattle.std.specs.Prelude.{◌≡◌, ℕ, ◌+◌, ◌*◌, ◌≤◌, ◌<◌, ◌++◌, List, length};
ghost use Rattle.std.specs.List.{All};
ghost use Rattle.vp_bars.specs.declared.bars.TheConstants.{DATA_BYTES};
ghost use Rattle.vp_bars.specs.Interleaved.{pair_pattern, with_digit, zero_before as zero_of, whole_pairs, pairs_of, interleaved_of, pair_shown, pairs_shown};

use crate::bars::{Bars, check_length, extend};
use crate::checks::mod10_check;
use crate::patterns::row;
use crate::signs::{DIGITS, values_of_signs};
use crate::symbology::Symbology;
use arrayvec::ArrayVec;
use vp_dots::{Fault, Why};

/// The elements of the hundred pairs of digits, 1 for a wide one: bars of the first, spaces of the second.
static PAIRS: [[u8; 10]; 100] = [
    [0, 0, 0, 0, 1, 1, 1, 1, 0, 0],
    [0, 1, 0, 0, 1, 0, 1, 0, 0, 1],
    [0, 0, 0, 1, 1, 0, 1, 0, 0, 1],
    [0, 1, 0, 1, 1, 0, 1, 0, 0, 0],
    [0, 0, 0, 0, 1, 1, 1, 0, 0, 1],
    [0, 1, 0, 0, 1, 1, 1, 0, 0, 0],
    [0, 0, 0, 1, 1, 1, 1, 0, 0, 0],
    [0, 0, 0, 0, 1, 0, 1, 1, 0, 1],
    [0, 1, 0, 0, 1, 0, 1, 1, 0, 0],
    [0, 0, 0, 1, 1, 0, 1, 1, 0, 0],
    [1, 0, 0, 0, 0, 1, 0, 1, 1, 0],
    [1, 1, 0, 0, 0, 0, 0, 0, 1, 1],
    [1, 0, 0, 1, 0, 0, 0, 0, 1, 1],
    [1, 1, 0, 1, 0, 0, 0, 0, 1, 0],
    [1, 0, 0, 0, 0, 1, 0, 0, 1, 1],
    [1, 1, 0, 0, 0, 1, 0, 0, 1, 0],
    [1, 0, 0, 1, 0, 1, 0, 0, 1, 0],
    [1, 0, 0, 0, 0, 0, 0, 1, 1, 1],
    [1, 1, 0, 0, 0, 0, 0, 1, 1, 0],
    [1, 0, 0, 1, 0, 0, 0, 1, 1, 0],
    [0, 0, 1, 0, 0, 1, 0, 1, 1, 0],
    [0, 1, 1, 0, 0, 0, 0, 0, 1, 1],
    [0, 0, 1, 1, 0, 0, 0, 0, 1, 1],
    [0, 1, 1, 1, 0, 0, 0, 0, 1, 0],
    [0, 0, 1, 0, 0, 1, 0, 0, 1, 1],
    [0, 1, 1, 0, 0, 1, 0, 0, 1, 0],
    [0, 0, 1, 1, 0, 1, 0, 0, 1, 0],
    [0, 0, 1, 0, 0, 0, 0, 1, 1, 1],
    [0, 1, 1, 0, 0, 0, 0, 1, 1, 0],
    [0, 0, 1, 1, 0, 0, 0, 1, 1, 0],
    [1, 0, 1, 0, 0, 1, 0, 1, 0, 0],
    [1, 1, 1, 0, 0, 0, 0, 0, 0, 1],
    [1, 0, 1, 1, 0, 0, 0, 0, 0, 1],
    [1, 1, 1, 1, 0, 0, 0, 0, 0, 0],
    [1, 0, 1, 0, 0, 1, 0, 0, 0, 1],
    [1, 1, 1, 0, 0, 1, 0, 0, 0, 0],
    [1, 0, 1, 1, 0, 1, 0, 0, 0, 0],
    [1, 0, 1, 0, 0, 0, 0, 1, 0, 1],
    [1, 1, 1, 0, 0, 0, 0, 1, 0, 0],
    [1, 0, 1, 1, 0, 0, 0, 1, 0, 0],
    [0, 0, 0, 0, 1, 1, 0, 1, 1, 0],
    [0, 1, 0, 0, 1, 0, 0, 0, 1, 1],
    [0, 0, 0, 1, 1, 0, 0, 0, 1, 1],
    [0, 1, 0, 1, 1, 0, 0, 0, 1, 0],
    [0, 0, 0, 0, 1, 1, 0, 0, 1, 1],
    [0, 1, 0, 0, 1, 1, 0, 0, 1, 0],
    [0, 0, 0, 1, 1, 1, 0, 0, 1, 0],
    [0, 0, 0, 0, 1, 0, 0, 1, 1, 1],
    [0, 1, 0, 0, 1, 0, 0, 1, 1, 0],
    [0, 0, 0, 1, 1, 0, 0, 1, 1, 0],
    [1, 0, 0, 0, 1, 1, 0, 1, 0, 0],
    [1, 1, 0, 0, 1, 0, 0, 0, 0, 1],
    [1, 0, 0, 1, 1, 0, 0, 0, 0, 1],
    [1, 1, 0, 1, 1, 0, 0, 0, 0, 0],
    [1, 0, 0, 0, 1, 1, 0, 0, 0, 1],
    [1, 1, 0, 0, 1, 1, 0, 0, 0, 0],
    [1, 0, 0, 1, 1, 1, 0, 0, 0, 0],
    [1, 0, 0, 0, 1, 0, 0, 1, 0, 1],
    [1, 1, 0, 0, 1, 0, 0, 1, 0, 0],
    [1, 0, 0, 1, 1, 0, 0, 1, 0, 0],
    [0, 0, 1, 0, 1, 1, 0, 1, 0, 0],
    [0, 1, 1, 0, 1, 0, 0, 0, 0, 1],
    [0, 0, 1, 1, 1, 0, 0, 0, 0, 1],
    [0, 1, 1, 1, 1, 0, 0, 0, 0, 0],
    [0, 0, 1, 0, 1, 1, 0, 0, 0, 1],
    [0, 1, 1, 0, 1, 1, 0, 0, 0, 0],
    [0, 0, 1, 1, 1, 1, 0, 0, 0, 0],
    [0, 0, 1, 0, 1, 0, 0, 1, 0, 1],
    [0, 1, 1, 0, 1, 0, 0, 1, 0, 0],
    [0, 0, 1, 1, 1, 0, 0, 1, 0, 0],
    [0, 0, 0, 0, 0, 1, 1, 1, 1, 0],
    [0, 1, 0, 0, 0, 0, 1, 0, 1, 1],
    [0, 0, 0, 1, 0, 0, 1, 0, 1, 1],
    [0, 1, 0, 1, 0, 0, 1, 0, 1, 0],
    [0, 0, 0, 0, 0, 1, 1, 0, 1, 1],
    [0, 1, 0, 0, 0, 1, 1, 0, 1, 0],
    [0, 0, 0, 1, 0, 1, 1, 0, 1, 0],
    [0, 0, 0, 0, 0, 0, 1, 1, 1, 1],
    [0, 1, 0, 0, 0, 0, 1, 1, 1, 0],
    [0, 0, 0, 1, 0, 0, 1, 1, 1, 0],
    [1, 0, 0, 0, 0, 1, 1, 1, 0, 0],
    [1, 1, 0, 0, 0, 0, 1, 0, 0, 1],
    [1, 0, 0, 1, 0, 0, 1, 0, 0, 1],
    [1, 1, 0, 1, 0, 0, 1, 0, 0, 0],
    [1, 0, 0, 0, 0, 1, 1, 0, 0, 1],
    [1, 1, 0, 0, 0, 1, 1, 0, 0, 0],
    [1, 0, 0, 1, 0, 1, 1, 0, 0, 0],
    [1, 0, 0, 0, 0, 0, 1, 1, 0, 1],
    [1, 1, 0, 0, 0, 0, 1, 1, 0, 0],
    [1, 0, 0, 1, 0, 0, 1, 1, 0, 0],
    [0, 0, 1, 0, 0, 1, 1, 1, 0, 0],
    [0, 1, 1, 0, 0, 0, 1, 0, 0, 1],
    [0, 0, 1, 1, 0, 0, 1, 0, 0, 1],
    [0, 1, 1, 1, 0, 0, 1, 0, 0, 0],
    [0, 0, 1, 0, 0, 1, 1, 0, 0, 1],
    [0, 1, 1, 0, 0, 1, 1, 0, 0, 0],
    [0, 0, 1, 1, 0, 1, 1, 0, 0, 0],
    [0, 0, 1, 0, 0, 0, 1, 1, 0, 1],
    [0, 1, 1, 0, 0, 0, 1, 1, 0, 0],
    [0, 0, 1, 1, 0, 0, 1, 1, 0, 0],
];

/// The elements of a pair of digits.
pub(crate) fn pair_elements(v: u8) -> &'static [u8]
    ensures { result.now ≡ pair_pattern v }
{
    row(&PAIRS, v)
}

/// A 0 where it stands before an odd number of digits.
fn zero_before(count: usize) -> ArrayVec<u8, 258>
    ensures zero { result.items ≡ zero_of count }
    ensures digits { All (λ d. d < 10) result.items }
    ensures few { length result.items ≤ 1 }
{
    let mut digits = ArrayVec::new();
    if count % 2 == 1 {
        digits.push(0);
    }
    digits
}

/// Digits with their check digit, if that is asked for, and a 0 before an odd number.
fn even_digits(digits: &[u8], check: bool) -> ArrayVec<u8, 258>
    requires few { length digits.now ≤ DATA_BYTES }
    requires digits { All (λ d. d < 10) digits.now }
    ensures all { result.items ≡ whole_pairs (with_digit check digits.now) }
    ensures digits { All (λ d. d < 10) result.items }
    ensures few { length result.items ≤ 257 }
{
    let mut all = zero_before(digits.len() + usize::from(check));
    extend(&mut all, digits);
    if check {
        all.push(mod10_check(digits));
    }
    all
}

/// The values of pairs of digits.
#[tactic(auto, using(crate::proofs::PairsOfDigits::pairs_more))]
fn pairs(digits: &[u8]) -> ArrayVec<u8, 258>
    requires few { length digits.now ≤ 257 }
    requires digits { All (λ d. d < 10) digits.now }
    ensures pairs { result.items ≡ pairs_of digits.now }
    ensures few { length result.items ≤ 128 }
{
    let mut values = ArrayVec::new();
    for k in 0..digits.len() / 2 {
        values.push(10 * digits[2 * k] + digits[2 * k + 1]);
    }
    values
}

/// The symbol of these digits, with a check digit if that is asked for, and with a 0 before them where they
/// are odd in number.
///
/// Refused are, in this order: no bytes; more than 255 bytes (`SymbolTooLong`); a byte that isn't a digit.
pub fn interleaved_symbol(src: &[u8], check: bool) -> Result<Bars, Fault>
    ensures { result ≡ interleaved_of src.now check }
{
    check_length(src)?;
    let Some(digits) = values_of_signs(DIGITS, src) else {
        return Err(Fault::Symbol(Why::Char));
    };
    let all = even_digits(digits.as_slice(), check);
    Ok(Bars::new(Symbology::Interleaved, pairs(all.as_slice())))
}

/// Appends the two digits of a value.
fn push_pair(v: u8, text: &mut ArrayVec<u8, 512>)
    requires { length text.old.items ≤ 510 }
    ensures items { text.new.items ≡ text.old.items ++ pair_shown v }
    ensures len { length text.new.items ≤ length text.old.items + 2 }
{
    if v < 100 {
        text.push(v / 10 + b'0');
        text.push(v % 10 + b'0');
    }
}

/// The digits of values.
#[tactic(auto, using(crate::proofs::Shown::pairs_more))]
pub(crate) fn shown_pairs(values: &[u8]) -> ArrayVec<u8, 512>
    requires { length values.now ≤ 256 }
    ensures { result.items ≡ pairs_shown values.now }
{
    let mut text = ArrayVec::new();
    for v in values {
        push_pair(*v, &mut text);
    }
    text
}
