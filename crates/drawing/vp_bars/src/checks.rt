//! Check digits of values that are weighted from the last one on.

ghost use Rattle.std.specs.Prelude.{◌≡◌, ◌≤◌, ◌<◌, length};
ghost use Rattle.vp_bars.specs.Checks.{mod10_check as mod10_check_of, next_weight as weight_behind, weighed as weighed_sum};

/// The check digit of these digits modulo 10: the last one weighs 3, the one before it 1, and so on in turn.
#[tactic(auto, using(crate::proofs::Sums::weighted_less))]
pub(crate) fn mod10_check(digits: &[u8]) -> u8
    requires { length digits.now ≤ 258 }
    ensures check { result ≡ mod10_check_of digits.now }
    ensures digit { result < 10 }
{
    let mut sum = 0u32;
    let mut weight = 3;
    for i in (0..digits.len()).rev() {
        sum += weight * u32::from(digits[i]);
        weight = 4 - weight;
    }
    ((10 - sum % 10) % 10) as u8
}

/// The weight behind another: those from one to another come in turn.
fn next_weight(weight: u32, first: u32, last: u32) -> u32
    requires order { first ≤ last }
    requires within { weight ≤ last }
    ensures next { result ≡ weight_behind first last weight }
    ensures within { result ≤ last }
{
    if weight == last { first } else { weight + 1 }
}

/// The sum of values of which the last one weighs `first`, the one before it one more, and so on up to `last`
/// in turn.
#[tactic(auto, using(crate::proofs::Sums::in_turn_less))]
pub(crate) fn weighed(values: &[u8], first: u32, last: u32) -> u32
    requires few { length values.now ≤ 258 }
    requires order { first ≤ last }
    requires small { last ≤ 20 }
    ensures { result ≡ weighed_sum first last values.now }
{
    let mut sum = 0;
    let mut weight = first;
    for i in (0..values.len()).rev() {
        sum += weight * u32::from(values[i]);
        weight = next_weight(weight, first, last);
    }
    sum
}
