//! Numeric compaction.

ghost use Rattle.std.specs.Prelude.{◌≡◌, ℕ, ◌+◌, ◌*◌, ◌/◌, ◌%◌, ◌<◌, ◌≤◌, length, slice_index};
ghost use Rattle.vp_pdf417.specs.Places.{cut};
ghost use Rattle.vp_pdf417.specs.Numeric.{number, group, numeric};
ghost use Rattle.vp_pdf417.specs.Written.{written, IsNumber, AreSmall};

use crate::words::Words;

/// The places of a number in base 900, the lowest first.
type Places = [u16; 15];

/// Puts a digit behind a number.
fn push_digit(places: &mut Places, digit: u16)
    requires small { AreSmall places.old }
    requires digit { digit < 16 }
    ensures number { (t : ℕ) → IsNumber t places.old → IsNumber (10 * t + digit) places.new }
    ensures small { AreSmall places.new }
{
    let mut carry = digit;
    for k in 0..15usize {
        let here = 10 * places[k] + carry;
        places[k] = here % 900;
        carry = here / 900;
    }
}

/// The number that digits make behind a 1.
fn number(digits: &[u8]) -> Places
    ensures number { IsNumber (number 1 digits.now) result }
    ensures small { AreSmall result }
{
    let mut places = [0; 15];
    push_digit(&mut places, 1);
    for digit in digits {
        push_digit(&mut places, u16::from(*digit % 16));
    }
    places
}

/// Writes a group of digits.
fn push_group(words: &mut Words, digits: &[u8])
    requires { length digits.now ≤ 44 }
    ensures { words.new ≡ written words.old (group digits.now) }
{
    let places = number(digits);
    let n = digits.len() / 3 + 1;
    for k in 0..n {
        words.push(places[n - 1 - k]);
    }
}

/// Writes digits.
#[tactic(auto, unfolding(crate::specs::Numeric::numeric))]
pub fn push_numeric(words: &mut Words, src: &[u8])
    ensures { words.new ≡ written words.old (numeric src.now) }
{
    words.push(902);
    let mut left = src;
    while left.len() > 44 {
        let (front, rest) = left.split_at(44);
        push_group(words, front);
        left = rest;
    }
    if !left.is_empty() {
        push_group(words, left);
    }
}
