//! Pads, check codewords, and the blocks.

ghost use Rattle.std.specs.Prelude.{◌≡◌, ◌<◌, ◌≤◌, ◌+◌, ◌-◌, ◌*◌, length};
ghost use Rattle.arrayvec.specs.ArrayVec.{array_vec_len};
ghost use Rattle.vp_reed_solomon.specs.declared.field.Field.TheVariants.{Gf64};
ghost use Rattle.vp_reed_solomon.specs.Fields.{AreElements};
ghost use Rattle.vp_maxicode.specs.Codewords.{has_pad, filled, padded, checked, every_second};

use crate::set::CodeSet;
use crate::words::Held;
use arrayvec::ArrayVec;
use vp_reed_solomon::{Field, check, generator};

/// The codewords of a block: 20 of the primary message, and 62 of the secondary one.
pub type Block = ArrayVec<u16, 62>;

/// Whether a set has a pad.
fn has_pad(set: CodeSet) -> bool
    ensures { result ≡ has_pad set }
{
    matches!(set, CodeSet::A | CodeSet::B)
}

/// A message with pads in all the room that is left.
#[tactic(auto, unfolding(crate::specs::Codewords::padded))]
pub fn padded(room: usize, set: CodeSet, message: &[u16]) -> Held
    requires room { room ≤ 93 }
    requires fits { length message.now ≤ room }
    requires elements { AreElements Gf64 message.now }
    ensures words { result.items ≡ padded room set message.now }
    ensures count { array_vec_len result ≡ room }
    ensures elements { AreElements Gf64 result.items }
{
    let mut words = Held::new();
    let _ = words.try_extend_from_slice(message);
    if !has_pad(set) && words.len() < room {
        words.push(58);
    }
    for _ in words.len()..room {
        words.push(33);
    }
    words
}

/// Data with so many check codewords behind them.
#[tactic(auto, unfolding(crate::specs::Codewords::checked))]
pub fn checked(n: usize, words: &[u16]) -> Block
    requires some { 0 < n }
    requires most { n ≤ 28 }
    requires room { length words.now + n ≤ 62 }
    requires elements { AreElements Gf64 words.now }
    ensures words { result.items ≡ checked n words.now }
{
    let mut low = [0; 28];
    let mut checks = [0; 28];
    generator(Field::Gf64, 1, &mut low[..n]);
    check(Field::Gf64, &low[..n], words, &mut checks[..n]);
    let mut block = Block::new();
    let _ = block.try_extend_from_slice(words);
    let _ = block.try_extend_from_slice(&checks[..n]);
    block
}

/// So many codewords from one on, each second one.
pub fn every_second(n: usize, from: usize, words: &[u16]) -> Block
    requires few { n ≤ 42 }
    requires within { from + 2 * n ≤ length words.now + 1 }
    requires elements { AreElements Gf64 words.now }
    ensures words { result.items ≡ every_second n from words.now }
    ensures count { array_vec_len result ≡ n }
    ensures elements { AreElements Gf64 result.items }
{
    let mut half = Block::new();
    for k in 0..n {
        half.push(words[from + 2 * k]);
    }
    half
}
