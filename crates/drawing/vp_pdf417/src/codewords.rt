//! All codewords of a symbol.

ghost use Rattle.std.specs.Prelude.{◌≡◌, ℕ, ◌+◌, ◌<◌, ◌≤◌, ◌++◌, ◌∷◌, [], length, take, slice_index};
ghost use Rattle.arrayvec.specs.ArrayVec.{array_vec_len};
ghost use Rattle.vp_reed_solomon.specs.declared.field.Field.TheVariants.{Gf929};
ghost use Rattle.vp_reed_solomon.specs.Fields.{AreElements};
ghost use Rattle.vp_pdf417.specs.Sizes.{check_count, total, data_count, IsSound};
ghost use Rattle.vp_pdf417.specs.Codewords.{padded, check_words, codewords};

use crate::size::{Size, check_count};
use crate::words::Held;
use vp_reed_solomon::{Field, check, generator};

/// The data codewords: how many there are, the message, and pads.
#[tactic(auto, unfolding(crate::specs::Codewords::padded))]
fn padded(size: Size, message: &[u16]) -> Held
    requires sound { IsSound size }
    requires room { length message.now + 1 ≤ data_count size }
    requires elements { AreElements Gf929 message.now }
    ensures padded { result.items ≡ padded size message.now }
    ensures count { array_vec_len result ≡ data_count size }
    ensures elements { AreElements Gf929 result.items }
{
    let count = size.data_count();
    let mut words = Held::new();
    words.push(count as u16);
    let _ = words.try_extend_from_slice(message);
    for _ in message.len() + 1..count {
        words.push(900);
    }
    words
}

/// The check codewords of a level.
#[tactic(auto, unfolding(crate::specs::Codewords::check_words))]
fn check_words(level: usize, words: &[u16], checks: &mut [u16; 512])
    requires level { level ≤ 8 }
    requires elements { AreElements Gf929 words.now }
    ensures check { take (check_count level) checks.new ≡ check_words level words.now }
    ensures elements { AreElements Gf929 (take (check_count level) checks.new) }
{
    let n = check_count(level);
    let mut low = [0; 512];
    generator(Field::Gf929, 1, &mut low[..n]);
    check(Field::Gf929, &low[..n], words, &mut checks[..n]);
}

/// The codewords of a message: data and check.
#[tactic(auto, unfolding(crate::specs::Codewords::codewords))]
pub fn codewords(size: Size, message: &[u16]) -> Held
    requires sound { IsSound size }
    requires room { length message.now + 1 ≤ data_count size }
    requires elements { AreElements Gf929 message.now }
    ensures codewords { result.items ≡ codewords size message.now }
    ensures count { array_vec_len result ≡ total size }
    ensures elements { AreElements Gf929 result.items }
{
    let mut words = padded(size, message);
    let mut checks = [0; 512];
    check_words(size.level, words.as_slice(), &mut checks);
    let _ = words.try_extend_from_slice(&checks[..check_count(size.level)]);
    words
}
