//! Check codewords, and the mode message.

ghost use Rattle.std.specs.Prelude.{◌≡◌, ℕ, ◌+◌, ◌<◌, ◌≤◌, ◌*◌, ◌^◌, length, slice_index, true};
ghost use Rattle.arrayvec.specs.ArrayVec.{array_vec_len};
ghost use Rattle.vp_reed_solomon.specs.declared.field.Field.TheVariants.{Gf16};
ghost use Rattle.vp_reed_solomon.specs.Fields.{AreElements};
ghost use Rattle.vp_aztec.specs.Sizes.{field_of, total, IsSound};
ghost use Rattle.vp_aztec.specs.Codewords.{check_words, codewords, two, four, said, mode_words, mode_message, rune_message};

use crate::size::Size;
use crate::stuffing::Words;
use arrayvec::ArrayVec;
use vp_reed_solomon::{Field, check, generator};

/// The mode message, four bits each.
pub type Said = ArrayVec<u16, 10>;

/// The check codewords of data, as many as there is room for.
#[tactic(auto, unfolding(crate::specs::Codewords::check_words))]
fn check_words(field: Field, words: &[u16], checks: &mut [u16])
    requires some { 0 < length checks.old }
    requires most { length checks.old ≤ 1664 }
    requires elements { AreElements field words.now }
    ensures check { checks.new ≡ check_words field (length checks.old) words.now }
    ensures elements { AreElements field checks.new }
{
    let mut low = [0; 1664];
    let n = checks.len();
    generator(field, 1, &mut low[..n]);
    check(field, &low[..n], words, checks);
}

/// The codewords of a size: data and check.
#[tactic(auto, unfolding(crate::specs::Codewords::codewords))]
pub fn codewords(size: Size, stuffed: Words) -> Words
    requires sound { IsSound size }
    requires room { array_vec_len stuffed < total size }
    requires elements { AreElements (field_of size.layers) stuffed.items }
    ensures { result.items ≡ codewords size stuffed.items }
{
    let mut words = stuffed;
    let mut checks = [0; 1664];
    let n = size.total() - words.len();
    check_words(size.field(), words.as_slice(), &mut checks[..n]);
    let _ = words.try_extend_from_slice(&checks[..n]);
    words
}

/// Two numbers of four bits.
fn two(n: usize) -> [u16; 2]
    requires { n < 256 }
    ensures two { result ≡ two n }
    ensures elements { AreElements Gf16 result }
{
    [(n / 16) as u16, (n % 16) as u16]
}

/// Four numbers of four bits.
fn four(n: usize) -> [u16; 4]
    requires { n < 65536 }
    ensures four { result ≡ four n }
    ensures elements { AreElements Gf16 result }
{
    [
        (n / 4096) as u16,
        (n / 256 % 16) as u16,
        (n / 16 % 16) as u16,
        (n % 16) as u16,
    ]
}

/// Numbers of four bits with so many check codewords.
#[tactic(auto, unfolding(crate::specs::Codewords::mode_words))]
fn mode_words(n: usize, said: &[u16]) -> Said
    requires some { 0 < n }
    requires most { n ≤ 6 }
    requires room { length said.now ≤ 4 }
    requires elements { AreElements Gf16 said.now }
    ensures words { result.items ≡ mode_words n said.now }
{
    let mut checks = [0; 6];
    check_words(Field::Gf16, said, &mut checks[..n]);
    let mut words = Said::new();
    let _ = words.try_extend_from_slice(said);
    let _ = words.try_extend_from_slice(&checks[..n]);
    words
}

/// The mode message of a size with so many data codewords.
#[tactic(auto, unfolding(crate::specs::Codewords::mode_message))]
pub fn mode_message(size: Size, count: usize) -> Said
    requires sound { IsSound size }
    requires count { count ≤ 1664 }
    requires compact { size.compact ≡ true → count ≤ 64 }
    ensures { result.items ≡ mode_message size count }
{
    let layers = size.layers.saturating_sub(1);
    let data = count.saturating_sub(1);
    if size.compact {
        mode_words(5, &two(64 * layers + data))
    } else {
        mode_words(6, &four(2048 * layers + data))
    }
}

/// The mode message of a rune.
#[tactic(auto, unfolding(crate::specs::Codewords::rune_message))]
pub fn rune_message(n: u8) -> Said
    ensures { result.items ≡ rune_message n }
{
    let mut said = Said::new();
    let words = mode_words(5, &two(usize::from(n)));
    for word in words.as_slice() {
        said.push(*word ^ 10);
    }
    said
}
