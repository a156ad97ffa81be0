//! The characters of EAN-8, UPC-A, UPC-E and their add-ons.

ghost use Rattle.std.specs.Prelude.{◌≡◌, ◌+◌, ◌≤◌, ◌<◌, ◌++◌, length};
ghost use Rattle.std.specs.List.{All};
ghost use Rattle.vp_bars.specs.Upc.{upc_pattern as pattern_for, digit_shown, digits_shown, in_set as value_in_set, in_sets, padded as padded_digits, checked as checked_digits, is_count as has_count, halves as halves_of};

use crate::bars::extend;
use crate::checks::mod10_check;
use crate::patterns::left_digit;
use arrayvec::ArrayVec;

/// The guard at each end.
pub(crate) const GUARD: u8 = 20;

/// The bars between the halves.
const CENTRE: u8 = 21;

/// The right guard of UPC-E.
pub(crate) const END: u8 = 22;

/// The guard before an add-on.
pub(crate) const ADD_ON_GUARD: u8 = 23;

/// What separates the digits of an add-on.
pub(crate) const SEPARATOR: u8 = 24;

/// What a digit that has no elements is counted from.
pub(crate) const TOLD: u8 = 30;

/// The elements of a character, in modules.
pub(crate) fn upc_pattern(v: u8) -> &'static [u8]
    ensures { result.now ≡ pattern_for v }
{
    match v {
        0..=9 => left_digit(0, v),
        10..=19 => left_digit(1, v - 10),
        GUARD => &[1, 1, 1],
        CENTRE => &[1, 1, 1, 1, 1],
        END => &[1, 1, 1, 1, 1, 1],
        ADD_ON_GUARD => &[1, 1, 2],
        SEPARATOR => &[1, 1],
        _ => &[],
    }
}

/// Appends the digit of a value, if it has one.
fn push_digit(v: u8, text: &mut ArrayVec<u8, 512>)
    requires { length text.old.items ≤ 511 }
    ensures items { text.new.items ≡ text.old.items ++ digit_shown v }
    ensures len { length text.new.items ≤ length text.old.items + 1 }
{
    if v < 20 {
        text.push(v % 10 + b'0');
        return;
    }
    if v >= TOLD && v < 40 {
        text.push(v + 18);
    }
}

/// The digits of values.
#[tactic(auto, using(crate::proofs::Shown::digits_more))]
pub(crate) fn shown_digits(values: &[u8]) -> ArrayVec<u8, 512>
    requires { length values.now ≤ 258 }
    ensures { result.items ≡ digits_shown values.now }
{
    let mut text = ArrayVec::new();
    for v in values {
        push_digit(*v, &mut text);
    }
    text
}

/// The value of a digit in its set: 0 for A.
fn in_set(set: u8, digit: u8) -> u8
    requires { digit ≤ 9 }
    ensures { result ≡ value_in_set set digit }
{
    if set == 0 { digit } else { digit + 10 }
}

/// Appends digits in their sets.
#[tactic(auto, using(crate::proofs::InSets::sets_more))]
pub(crate) fn push_in_sets(sets: &[u8], digits: &[u8], values: &mut ArrayVec<u8, 258>)
    requires room { length values.old.items + length digits.now ≤ 258 }
    requires digits { All (λ d. d < 10) digits.now }
    ensures items { values.new.items ≡ values.old.items ++ in_sets sets.now digits.now }
    ensures len { length values.new.items ≤ length values.old.items + length digits.now }
{
    for i in 0..sets.len().min(digits.len()) {
        values.push(in_set(sets[i], digits[i]));
    }
}

/// The digits, or, where they are to be padded, so many: fewer with zeros on the left, and of more the first.
#[tactic(auto, using(crate::proofs::Padded::padded_is))]
pub(crate) fn padded(pad: bool, count: usize, digits: &[u8]) -> ArrayVec<u8, 258>
    requires count { count ≤ 12 }
    requires few { length digits.now ≤ 255 }
    requires digits { All (λ d. d < 10) digits.now }
    ensures items { result.items ≡ padded_digits pad count digits.now }
    ensures digits { All (λ d. d < 10) result.items }
    ensures few { length result.items ≤ 255 }
{
    let mut all = ArrayVec::new();
    if !pad {
        extend(&mut all, digits);
        return all;
    }
    let front = &digits[..digits.len().min(count)];
    for _ in 0..count - front.len() {
        all.push(0);
    }
    extend(&mut all, front);
    all
}

/// The first digits, so many, and their check digit.
pub(crate) fn checked(count: usize, digits: &[u8]) -> ArrayVec<u8, 258>
    requires count { count ≤ length digits.now }
    requires few { count ≤ 255 }
    ensures all { result.items ≡ checked_digits count digits.now }
    ensures len { length result.items ≡ count + 1 }
{
    let first = &digits[..count];
    let mut all = ArrayVec::new();
    extend(&mut all, first);
    all.push(mod10_check(first));
    all
}

/// Whether there are so many digits, or one more.
pub(crate) fn is_count(count: usize, digits: usize) -> bool
    requires { count ≤ 255 }
    ensures { result ≡ has_count count digits }
{
    digits == count || digits == count + 1
}

/// The first digits, so many, and the others, between guards.
pub(crate) fn halves(half: usize, digits: &[u8]) -> ArrayVec<u8, 258>
    requires half { half ≤ length digits.now }
    requires few { length digits.now ≤ 255 }
    ensures { result.items ≡ halves_of half digits.now }
{
    let (left, right) = digits.split_at(half);
    let mut values = ArrayVec::new();
    values.push(GUARD);
    extend(&mut values, left);
    values.push(CENTRE);
    extend(&mut values, right);
    values.push(GUARD);
    values
}
