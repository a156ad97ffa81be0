//! Signs of an alphabet and their values.

ghost use Rattle.std.specs.Prelude.{◌≡◌, ℕ, ◌+◌, ◌≤◌, ◌<◌, ◌++◌, length, IfSome};
ghost use Rattle.std.specs.List.{All};
ghost use Rattle.std.specs.Option.{option_map};
ghost use Rattle.vp_bars.specs.declared.bars.TheConstants.{DATA_BYTES};
ghost use Rattle.vp_bars.specs.Signs.{value_among, values_among, sign_of, signs_of as signs_of_values};

use arrayvec::ArrayVec;

/// The digits in the order of their values.
pub(crate) const DIGITS: &[u8; 10] = b"0123456789";

/// The place of a sign in an alphabet.
fn place_of_sign(alphabet: &[u8], c: u8) -> Option<usize>
    ensures value { result ≡ value_among alphabet.now c }
    ensures small { IfSome result (λ v. v < length alphabet.now) }
{
    alphabet.iter().position(|a| *a == c)
}

/// The value of a sign.
fn value_of_sign(alphabet: &[u8], c: u8) -> Option<u8>
    requires { length alphabet.now ≤ 256 }
    ensures value { result ≡ value_among alphabet.now c }
    ensures small { IfSome result (λ v. v < length alphabet.now) }
{
    match place_of_sign(alphabet, c) {
        Some(value) => Some(value as u8),
        None => None,
    }
}

/// The values of all signs, none where one isn't of the alphabet.
pub(crate) fn values_of_signs(alphabet: &[u8], signs: &[u8]) -> Option<ArrayVec<u8, 258>>
    requires alphabet { length alphabet.now ≤ 256 }
    requires few { length signs.now ≤ DATA_BYTES }
    ensures values { option_map (λ vs. vs.items) result ≡ values_among alphabet.now signs.now }
    ensures len { IfSome result (λ vs. length vs.items ≡ length signs.now) }
    ensures small { IfSome result (λ vs. All (λ v. v < length alphabet.now) vs.items) }
{
    let mut values = ArrayVec::new();
    for c in signs {
        match value_of_sign(alphabet, *c) {
            Some(value) => values.push(value),
            None => return None,
        }
    }
    Some(values)
}

/// Appends the sign of a value, if it has one.
fn push_sign(alphabet: &[u8], v: u8, text: &mut ArrayVec<u8, 512>)
    requires { length text.old.items ≤ 511 }
    ensures items { text.new.items ≡ text.old.items ++ sign_of alphabet.now v }
    ensures len { length text.new.items ≤ length text.old.items + 1 }
{
    if usize::from(v) < alphabet.len() {
        text.push(alphabet[usize::from(v)]);
    }
}

/// The signs of values.
#[tactic(auto, using(crate::proofs::Shown::signs_more))]
pub(crate) fn signs_of(alphabet: &[u8], values: &[u8]) -> ArrayVec<u8, 512>
    requires { length values.now ≤ 258 }
    ensures { result.items ≡ signs_of_values alphabet.now values.now }
{
    let mut text = ArrayVec::new();
    for v in values {
        push_sign(alphabet, *v, &mut text);
    }
    text
}
