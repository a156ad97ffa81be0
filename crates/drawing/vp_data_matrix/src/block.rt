//! The codewords of a symbol, block by block.

ghost use Rattle.std.specs.Prelude.{◌≡◌, ℕ, ◌+◌, ◌*◌, ◌<◌, ◌≤◌, [], ◌∷◌, length, take, slice_index_or};
ghost use Rattle.arrayvec.specs.ArrayVec.{array_vec_len};
ghost use Rattle.vp_reed_solomon.specs.declared.field.Field.TheVariants.{Gf256};
ghost use Rattle.vp_reed_solomon.specs.Fields.{AreElements};
ghost use Rattle.vp_reed_solomon.specs.Polynomials.{generator};
ghost use Rattle.vp_data_matrix.specs.Sizes.{IsSound, total};
ghost use Rattle.vp_data_matrix.specs.Blocks.{every, block_length, block_of, block_check, codewords};

use crate::size::Size;
use arrayvec::ArrayVec;
use vp_reed_solomon::{Field, check, generator};

/// All codewords of a symbol.
pub type Codewords = ArrayVec<u8, 2178>;

/// The codewords of the longest block.
type Block = ArrayVec<u16, 175>;

/// The check codewords of the most blocks.
type Checks = [[u16; 68]; 10];

/// How many data codewords block number `b` has.
fn block_length(words: usize, blocks: usize, b: usize) -> usize
    requires b { b < blocks }
    requires most { words + blocks ≤ 2000 }
    ensures { result ≡ block_length words blocks b }
{
    (words + blocks - 1 - b) / blocks
}

/// The data codewords of block number `b`.
fn block_of(size: Size, words: &[u8], b: usize) -> Block
    requires sound { IsSound size }
    requires words { length words.now ≡ size.words }
    requires b { b < size.blocks }
    ensures block { result.items ≡ block_of size words.now b }
    ensures elements { AreElements Gf256 result.items }
{
    let mut block = ArrayVec::new();
    for k in 0..block_length(words.len(), size.blocks, b) {
        block.push(u16::from(words[b + k * size.blocks]));
    }
    block
}

/// The check codewords of block number `b`, by the generator's coefficients.
fn block_check(size: Size, low: &[u16], words: &[u8], b: usize, row: &mut [u16; 68])
    requires sound { IsSound size }
    requires low { 1 ∷ low.now ≡ generator Gf256 1 size.check }
    requires room { length low.now ≡ size.check }
    requires elements { AreElements Gf256 low.now }
    requires words { length words.now ≡ size.words }
    requires b { b < size.blocks }
    ensures check { take size.check row.new ≡ block_check size words.now b }
    ensures elements { AreElements Gf256 (take size.check row.new) }
{
    let block = block_of(size, words, b);
    check(Field::Gf256, low, block.as_slice(), &mut row[..size.check]);
}

/// The check codewords of all blocks.
fn checks(size: Size, words: &[u8], rows: &mut Checks)
    requires sound { IsSound size }
    requires words { length words.now ≡ size.words }
    ensures checks { (b : ℕ) → b < size.blocks
        → take size.check (slice_index_or rows.new b []) ≡ block_check size words.now b }
    ensures elements { (b : ℕ) → b < size.blocks
        → AreElements Gf256 (take size.check (slice_index_or rows.new b [])) }
{
    let mut low = [0; 68];
    generator(Field::Gf256, 1, &mut low[..size.check]);
    for b in 0..size.blocks {
        block_check(size, &low[..size.check], words, b, &mut rows[b]);
    }
}

/// The codewords of a size: the data, and the check of each block.
pub fn codewords(size: Size, words: &[u8]) -> Codewords
    requires sound { IsSound size }
    requires words { length words.now ≡ size.words }
    ensures codewords { result.items ≡ codewords size words.now }
    ensures count { array_vec_len result ≡ total size }
{
    let mut rows = [[0; 68]; 10];
    checks(size, words, &mut rows);
    let mut all = ArrayVec::new();
    let _ = all.try_extend_from_slice(words);
    for k in 0..size.check * size.blocks {
        let row = &rows[(size.words + k) % size.blocks];
        all.push(row[k / size.blocks] as u8);
    }
    all
}
