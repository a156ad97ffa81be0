//! The add-ons of two and five digits.

ghost use Rattle.std.specs.Prelude.{◌≡◌, ◌+◌, ◌*◌, ◌≤◌, ◌<◌, ◌∷◌, ◌++◌, length};
ghost use Rattle.std.specs.List.{All};
ghost use Rattle.vp_bars.specs.Upc.{add_on_guard, in_sets};
ghost use Rattle.vp_bars.specs.AddOn.{five_sum as sum_of_five, add_on_count as count_for, add_on_sets, separated as separated_values, add_on_of};

use crate::bars::{Bars, check_length};
use crate::patterns::row;
use crate::signs::{DIGITS, values_of_signs};
use crate::symbology::Symbology;
use crate::upc::{ADD_ON_GUARD, SEPARATOR, padded, push_in_sets};
use arrayvec::ArrayVec;
use vp_dots::{Fault, Why};

/// The sets of two digits by their number modulo 4: 0 for A.
static TWO_SETS: [[u8; 2]; 4] = [[0, 0], [0, 1], [1, 0], [1, 1]];

/// The sets of five digits by their weighted sum modulo 10: 0 for A.
static FIVE_SETS: [[u8; 5]; 10] = [
    [1, 1, 0, 0, 0],
    [1, 0, 1, 0, 0],
    [1, 0, 0, 1, 0],
    [1, 0, 0, 0, 1],
    [0, 1, 1, 0, 0],
    [0, 0, 1, 1, 0],
    [0, 0, 0, 1, 1],
    [0, 1, 0, 1, 0],
    [0, 1, 0, 0, 1],
    [0, 0, 1, 0, 1],
];

/// The sum of five digits, weighted 3 and 9 in turn.
fn five_sum(ds: &[u8]) -> u32
    requires { length ds.now ≡ 5 }
    ensures { result ≡ sum_of_five ds.now }
{
    let threes = u32::from(ds[0]) + u32::from(ds[2]) + u32::from(ds[4]);
    let nines = u32::from(ds[1]) + u32::from(ds[3]);
    3 * threes + 9 * nines
}

/// The sets of two digits.
fn sets_of_two(ds: &[u8]) -> &'static [u8]
    requires { length ds.now ≡ 2 }
    ensures { result.now ≡ add_on_sets ds.now }
{
    let number = 10 * u32::from(ds[0]) + u32::from(ds[1]);
    row(&TWO_SETS, (number % 4) as u8)
}

/// The sets of five digits.
fn sets_of_five(ds: &[u8]) -> &'static [u8]
    requires { length ds.now ≡ 5 }
    ensures { result.now ≡ add_on_sets ds.now }
{
    row(&FIVE_SETS, (five_sum(ds) % 10) as u8)
}

/// Appends values, each but the first behind a separator.
#[tactic(auto, using(crate::proofs::InSets::separated_more))]
fn push_separated(from: &[u8], values: &mut ArrayVec<u8, 258>)
    requires { length values.old.items + 2 * length from.now ≤ 258 }
    ensures { values.new.items ≡ values.old.items ++ separated_values from.now }
{
    let Some((first, others)) = from.split_first() else {
        return;
    };
    values.push(*first);
    for v in others {
        values.push(SEPARATOR);
        values.push(*v);
    }
}

/// The values of an add-on.
fn values_of(sets: &[u8], digits: &[u8]) -> ArrayVec<u8, 258>
    requires digits { All (λ d. d < 10) digits.now }
    requires few { length digits.now ≤ 5 }
    ensures { result.items ≡ add_on_guard ∷ separated_values (in_sets sets.now digits.now) }
{
    let mut characters = ArrayVec::new();
    push_in_sets(sets, digits, &mut characters);
    let mut values = ArrayVec::new();
    values.push(ADD_ON_GUARD);
    push_separated(characters.as_slice(), &mut values);
    values
}

/// How many digits so many are padded to.
fn add_on_count(digits: usize) -> usize
    ensures { result ≡ count_for digits }
{
    if digits <= 2 { 2 } else { 5 }
}

/// The add-on of these digits.
///
/// With `pad`, one digit gets a zero before it, three and four get zeros to be five, and of more the first
/// five stand. Refused are, in this order: no bytes; more than 255 bytes (`SymbolTooLong`); a byte that isn't
/// a digit; without `pad` any count but 2 and 5.
pub fn addon(src: &[u8], pad: bool) -> Result<Bars, Fault>
    ensures { result ≡ add_on_of src.now pad }
{
    check_length(src)?;
    let Some(digits) = values_of_signs(DIGITS, src) else {
        return Err(Fault::Symbol(Why::Char));
    };
    let digits = padded(pad, add_on_count(digits.len()), digits.as_slice());
    let digits = digits.as_slice();
    let sets = match digits.len() {
        2 => sets_of_two(digits),
        5 => sets_of_five(digits),
        _ => return Err(Fault::Symbol(Why::Length)),
    };
    Ok(Bars::new(Symbology::AddOn, values_of(sets, digits)))
}
