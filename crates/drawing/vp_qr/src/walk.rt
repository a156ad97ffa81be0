//! The walk over the modules of a symbol, and the data bits that it places.

ghost use Rattle.std.specs.Prelude.{◌≡◌, ◌<◌, ◌≤◌, ◌*◌, ◌/◌, ◌+◌, ◌-◌, ◌==◌, ◌&&◌, ◌||◌, not, ℕ, length, ◌^◌, if◌then◌else◌};
ghost use Rattle.vp_dots.specs.Words.{word_dot};
ghost use Rattle.vp_qr.specs.Places.{size, reserved};
ghost use Rattle.vp_qr.specs.Blocks.{total, remainder_bits};
ghost use Rattle.vp_qr.specs.Penalty.{is_set};
ghost use Rattle.vp_qr.specs.Walk.{right_column, place, free_places, dark, data_bit, number_of};

use crate::lines::free_line;
use vp_dots::word_at;

/// A module by its row and column.
#[derive(Clone, Copy)]
pub struct Place {
    pub row: usize,
    pub column: usize,
}

/// The modules that hold data.
pub fn free_rows(version: usize) -> [u64; 57]
    requires low { 1 ≤ version }
    requires high { version ≤ 10 }
    ensures { (i j : ℕ) → i < size version → j < size version → dark result i j ≡ not (reserved version i j) }
{
    let mut rows = [0; 57];
    for i in 0..17 + 4 * version {
        rows[i] = free_line(version, i);
    }
    rows
}

/// The right column of a pair, the pairs being counted from the left.
fn right_column(pair: usize) -> usize
    requires { pair < 100 }
    ensures column { result ≡ right_column pair }
    ensures some { 0 < result }
    ensures within { result ≤ 2 * pair + 2 }
{
    if pair < 3 { 2 * pair + 1 } else { 2 * pair + 2 }
}

/// The right one of the two modules in row number `half` of a pair of columns, the pairs being counted from
/// the right and the rows from where the walk comes in.
fn place_at(version: usize, pair: usize, half: usize) -> Place
    requires low { 1 ≤ version }
    requires high { version ≤ 10 }
    requires pair { pair < (size version - 1) / 2 }
    requires half { half < size version }
    ensures right { result ≡ place (size version) (2 * size version * pair + 2 * half) }
    ensures left { record { row = result.row; column = result.column - 1 }
        ≡ place (size version) (2 * size version * pair + 2 * half + 1) }
    ensures row { result.row < size version }
    ensures some { 0 < result.column }
    ensures column { result.column < size version }
{
    let size = 17 + 4 * version;
    let pair = (size - 1) / 2 - 1 - pair;
    let column = right_column(pair);
    if pair % 2 == 1 {
        return Place {
            row: size - 1 - half,
            column,
        };
    }
    Place { row: half, column }
}

/// Data bits that are still to be placed: some of them, from the left of a word on.
#[derive(Clone, Copy)]
pub struct Ahead {
    pub word: u64,
    pub left: u32,
}

/// The bits of codewords from number `k` on, two at least, where a word has none or some of them.
fn refilled(codewords: &[u8], k: usize, ahead: Ahead) -> Ahead
    requires few { k < 2 ^ 32 }
    requires most { ahead.left ≤ 64 }
    requires bits { (x : ℕ) → x < ahead.left → word_dot ahead.word x ≡ data_bit codewords.now (k + x) }
    ensures two { 2 ≤ result.left }
    ensures most { result.left ≤ 64 }
    ensures bits { (x : ℕ) → x < result.left → word_dot result.word x ≡ data_bit codewords.now (k + x) }
{
    if ahead.left >= 2 {
        return ahead;
    }
    Ahead {
        word: word_at(codewords, k),
        left: 64,
    }
}

/// The bits behind the first `n`, two at most.
fn behind(ahead: Ahead, n: u32) -> Ahead
    requires n { n ≤ 2 }
    requires two { 2 ≤ ahead.left }
    requires most { ahead.left ≤ 64 }
    ensures left { result.left ≡ ahead.left - n }
    ensures bits { (x : ℕ) → x < result.left → word_dot result.word x ≡ word_dot ahead.word (n + x) }
{
    Ahead {
        word: ahead.word << n,
        left: ahead.left - n,
    }
}

/// The next bits on the two modules of a row in a pair of columns, as bits 1 and 0, where bits of `free` say
/// that they hold data: the right module, bit 1, comes first.
fn bits_for(free: u64, word: u64) -> u64
    requires { free < 4 }
    ensures { (j : ℕ) → j < 64 → is_set result j ≡ (j == 1 && (is_set free 1 && word_dot word 0)
        || j == 0 && (is_set free 0 && word_dot word (if is_set free 1 then 1 else 0))) }
{
    if free == 3 {
        return word >> 62;
    }
    (word >> 63) * free
}

/// Places the next bits on those of the two modules of a row in a pair of columns that hold data: how many.
#[tactic(auto, unfolding(crate::specs::Walk::dark))]
fn place_row(rows: &mut [u64; 57], free: &[u64; 57], right: Place, word: u64) -> u32
    requires row { right.row < 57 }
    requires some { 0 < right.column }
    requires column { right.column < 57 }
    ensures count { result ≡ (if dark free.now right.row right.column then 1 else 0)
        + (if dark free.now right.row (right.column - 1) then 1 else 0) }
    ensures placed { (i j : ℕ) → j < 64 → dark rows.new i j ≡ (dark rows.old i j || (i == right.row
        && (j == right.column && (dark free.now right.row right.column && word_dot word 0)
        || j == right.column - 1 && (dark free.now right.row (right.column - 1)
        && word_dot word (if dark free.now right.row right.column then 1 else 0))))) }
{
    let left = right.column - 1;
    let two = free[right.row] >> left & 3;
    rows[right.row] |= bits_for(two, word) << left;
    two.count_ones()
}

/// Places the data bits of the codewords on the free modules.
pub fn fill(rows: &mut [u64; 57], free: &[u64; 57], version: usize, codewords: &[u8])
    requires low { 1 ≤ version }
    requires high { version ≤ 10 }
    requires free { (i j : ℕ) → i < size version → j < size version
        → dark free.now i j ≡ not (reserved version i j) }
    ensures { (i j : ℕ) → i < size version → j < size version
        → dark rows.new i j ≡ (dark rows.old i j || (not (reserved version i j)
        && data_bit codewords.now (number_of version i j))) }
{
    let size = 17 + 4 * version;
    let mut k = 0;
    let mut ahead = Ahead { word: 0, left: 0 };
    for pair in 0..(size - 1) / 2 {
        for half in 0..size {
            ahead = refilled(codewords, k, ahead);
            let right = place_at(version, pair, half);
            let n = place_row(rows, free, right, ahead.word);
            ahead = behind(ahead, n);
            k += n as usize;
        }
    }
}

/// A law: the free modules of a version, 1 to 10, are as many as the bits of its codewords and the remainder.
pub fn free_modules_hold_the_codewords(version: usize)
    requires low { 1 ≤ version }
    requires high { version ≤ 10 }
    ensures { length (free_places version) ≡ 8 * total version + remainder_bits version }
{}
