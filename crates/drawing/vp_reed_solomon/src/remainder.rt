//! The generator and the remainder by it.

ghost use Rattle.std.specs.Prelude.{◌≡◌, ℕ, ◌+◌, ◌<◌, ◌≤◌, [], ◌∷◌, length, map, slice_index};
ghost use Rattle.vp_reed_solomon.specs.Fields.{order, sum, difference, times, AreElements};
ghost use Rattle.vp_reed_solomon.specs.Polynomials.{generator, check_of};

use crate::field::Field;

/// The coefficients of the generator below its highest, which is 1, the highest power's first: the product of
/// x - a^i for as many powers of the primitive element a as `low` has room for, from power number `first` on.
pub fn generator(field: Field, first: u32, low: &mut [u16])
    ensures generator { 1 ∷ low.new ≡ generator field first (length low.old) }
    ensures elements { AreElements field low.new }
{
    let mut root = 1;
    for _ in 0..first {
        root = field.product(field.primitive(), root);
    }
    for n in 0..low.len() {
        low[n] = 0;
        with_root(field, &mut low[..n + 1], root);
        root = field.product(field.primitive(), root);
    }
}

/// One more factor, whose zero is `root`, into a polynomial whose last coefficient is followed by a zero.
fn with_root(field: Field, low: &mut [u16], root: u16)
    requires root { root < order field }
    requires elements { AreElements field low.old }
    ensures terms { (k : ℕ) → k < length low.old → slice_index low.new k
        ≡ difference field (slice_index low.old k) (times field root (slice_index (1 ∷ low.old) k)) }
    ensures elements { AreElements field low.new }
{
    let mut above = 1;
    for k in 0..low.len() {
        let here = low[k];
        low[k] = field.difference(here, field.product(root, above));
        above = here;
    }
}

/// The check codewords of data, the first one first, by the coefficients of a generator below its highest.
pub fn check(field: Field, low: &[u16], words: &[u16], check: &mut [u16])
    requires some { 0 < length low.now }
    requires room { length check.old ≡ length low.now }
    requires low { AreElements field low.now }
    requires words { AreElements field words.now }
    ensures check { check.new ≡ check_of field (1 ∷ low.now) (length low.now) words.now }
    ensures elements { AreElements field check.new }
{
    check.fill(0);
    for word in words {
        take(field, low, *word, check);
    }
    for left in check.iter_mut() {
        *left = field.difference(0, *left);
    }
}

/// The register after one more codeword: moved by one, and a multiple of the generator taken off.
fn take(field: Field, low: &[u16], word: u16, register: &mut [u16])
    requires some { 0 < length low.now }
    requires room { length register.old ≡ length low.now }
    requires low { AreElements field low.now }
    requires register { AreElements field register.old }
    requires word { word < order field }
    ensures terms { (k : ℕ) → k < length register.old → slice_index register.new k
        ≡ difference field (slice_index register.old (k + 1))
        (times field (sum field word (slice_index register.old 0)) (slice_index low.now k)) }
    ensures elements { AreElements field register.new }
{
    let factor = field.sum(word, register[0]);
    let last = register.len() - 1;
    for k in 0..last {
        register[k] = field.difference(register[k + 1], field.product(factor, low[k]));
    }
    register[last] = field.difference(0, field.product(factor, low[last]));
}
