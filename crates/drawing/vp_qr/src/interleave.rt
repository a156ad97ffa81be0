//! The codewords of a symbol, block by block.

ghost use Rattle.std.specs.Prelude.{◌≡◌, ◌+◌, ◌*◌, ◌<◌, ◌≤◌, ◌++◌, [], length, slice_index_or};
ghost use Rattle.std.specs.List.{flat_map};
ghost use Rattle.arrayvec.specs.ArrayVec.{array_vec_len};
ghost use Rattle.vp_qr.specs.Polynomial.{check_of};
ghost use Rattle.vp_qr.specs.Divisors.{AreMultiples};
ghost use Rattle.vp_qr.specs.Blocks.{blocks_of, words_of, IsSound, total, data_blocks, column, columns, interleaved, block_start, block_length};

use crate::check::{check_by, multiples};
use crate::level::{Blocks, Level};
use arrayvec::ArrayVec;

/// The codewords of a symbol.
pub type Codewords = ArrayVec<u8, 346>;

impl Blocks {
    /// Where the data codewords of a block begin among those of all.
    fn start(self, block: usize) -> usize
        requires block { block < self.short + self.long }
        requires small { words_of self ≤ 274 }
        ensures { result ≡ block_start self block }
    {
        block * self.words + block.saturating_sub(self.short)
    }

    /// How many data codewords a block has.
    fn length(self, block: usize) -> usize
        requires { self.words ≤ 116 }
        ensures { result ≡ block_length self block }
    {
        if block < self.short {
            self.words
        } else {
            self.words + 1
        }
    }

    /// Where they end.
    #[tactic(auto, using(crate::proofs::Interleaving::block_ends))]
    fn end(self, block: usize) -> usize
        requires block { block < self.short + self.long }
        requires sound { IsSound self }
        ensures end { result ≡ block_start self block + block_length self block }
        ensures within { result ≤ words_of self }
        ensures some { block_start self block < result }
        ensures most { result ≤ block_start self block + 116 }
    {
        self.start(block) + self.length(block)
    }
}

/// The check codewords of a block.
fn check_block(
    rows: &[[u8; 32]; 256],
    words: &[u8],
    blocks: Blocks,
    block: usize,
) -> ArrayVec<u8, 30>
    requires rows { AreMultiples blocks.check rows.now }
    requires words { length words.now ≡ words_of blocks }
    requires sound { IsSound blocks }
    requires block { block < blocks.short + blocks.long }
    ensures check { result.items ≡ check_of (slice_index_or (data_blocks blocks words.now) block [])
        blocks.check }
    ensures count { array_vec_len result ≡ blocks.check }
{
    let start = blocks.start(block);
    let end = blocks.end(block);
    check_by(rows, &words[start..end], blocks.check)
}

/// Appends codeword number `at` of each block that has one.
fn push_column(out: &mut Codewords, words: &[u8], blocks: Blocks, at: usize)
    requires words { length words.now ≡ words_of blocks }
    requires small { words_of blocks ≤ 274 }
    requires count { blocks.short + blocks.long ≤ 8 }
    requires most { blocks.words ≤ 116 }
    requires at { at ≤ blocks.words }
    requires room { array_vec_len out.old + length (column at (data_blocks blocks words.now)) ≤ 346 }
    ensures { out.new.items ≡ out.old.items ++ column at (data_blocks blocks words.now) }
{
    for block in 0..blocks.short + blocks.long {
        if at >= blocks.length(block) {
            continue;
        }
        out.push(words[blocks.start(block) + at]);
    }
}

/// Appends the first codeword of each block, the second of each, and so on, `n` times.
fn push_columns(out: &mut Codewords, words: &[u8], blocks: Blocks, n: usize)
    requires words { length words.now ≡ words_of blocks }
    requires small { words_of blocks ≤ 274 }
    requires count { blocks.short + blocks.long ≤ 8 }
    requires most { blocks.words ≤ 116 }
    requires n { n ≤ blocks.words + 1 }
    requires room { array_vec_len out.old + length (columns 0 n (data_blocks blocks words.now)) ≤ 346 }
    ensures { out.new.items ≡ out.old.items ++ columns 0 n (data_blocks blocks words.now) }
{
    for at in 0..n {
        push_column(out, words, blocks, at);
    }
}

/// The check codewords of the blocks, one block's after another's.
fn check_words(words: &[u8], blocks: Blocks) -> ArrayVec<u8, 240>
    requires words { length words.now ≡ words_of blocks }
    requires sound { IsSound blocks }
    ensures checks { result.items ≡ flat_map (λ block. check_of block blocks.check)
        (data_blocks blocks words.now) }
    ensures count { array_vec_len result ≡ (blocks.short + blocks.long) * blocks.check }
{
    let mut rows = [[0; 32]; 256];
    multiples(blocks.check, &mut rows);
    let mut checks = ArrayVec::new();
    for block in 0..blocks.short + blocks.long {
        let check = check_block(&rows, words, blocks, block);
        push_all(&mut checks, check.as_slice());
    }
    checks
}

/// Appends bytes.
fn push_all(out: &mut ArrayVec<u8, 240>, bytes: &[u8])
    requires { array_vec_len out.old + length bytes.now ≤ 240 }
    ensures { out.new.items ≡ out.old.items ++ bytes.now }
{
    let _ = out.try_extend_from_slice(bytes);
}

/// The codewords of a version and level: those of the data and their check, block by block.
pub fn interleaved(level: Level, version: usize, words: &[u8]) -> Codewords
    requires low { 1 ≤ version }
    requires high { version ≤ 10 }
    requires words { length words.now ≡ words_of (blocks_of level version) }
    ensures codewords { result.items ≡ interleaved (blocks_of level version) words.now }
    ensures count { array_vec_len result ≡ total version }
{
    let blocks = level.blocks(version);
    let checks = check_words(words, blocks);
    let mut out = ArrayVec::new();
    push_columns(&mut out, words, blocks, blocks.words + 1);
    let behind = Blocks {
        check: blocks.check,
        short: blocks.short + blocks.long,
        words: blocks.check,
        long: 0,
    };
    push_columns(&mut out, checks.as_slice(), behind, blocks.check);
    out
}
