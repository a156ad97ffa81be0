//! The modules of a finished symbol: patterns, format and version by their places, and data under a mask.

ghost use Rattle.std.specs.Prelude.{◌≡◌, ◌==◌, ◌<◌, ◌≤◌, ◌-◌, ◌&&◌, ℕ, List, true};
ghost use Rattle.vp_qr.specs.Places.{size, corner};
ghost use Rattle.vp_qr.specs.Penalty.{is_set};
ghost use Rattle.vp_qr.specs.Symbol.{
  format_bit,
  formula,
  module_at,
  format_here,
  pattern_dark,
};
ghost use Rattle.std.specs.Int.{bit_at};
ghost use Rattle.vp_qr.specs.Walk.{dark};
ghost use Rattle.vp_qr.specs.Codes.{version_code};
ghost use Rattle.vp_qr.specs.Encoding.{masked};
ghost use Rattle.vp_qr.specs.Grids.{IsGrid, IsGridOf};

use crate::code::{format_code, version_code};
use crate::level::Level;
use crate::lines::{format_line, only, span};
use crate::mask::is_dark;
use crate::shapes::{chosen, pattern_line};
use crate::walk::{fill, free_rows};

/// Which bit of the format stands on a module.
fn format_bit(size: usize, row: usize, column: usize) -> usize
    requires size { 21 ≤ size }
    requires high { size ≤ 57 }
    requires row { row < size }
    requires column { column < size }
    requires corner { corner size row column ≡ true }
    ensures value { result ≡ format_bit size row column }
    ensures below { result < 64 }
{
    if row == 8 {
        if column < 6 {
            return 14 - column;
        }
        if column == 7 {
            return 8;
        }
        if column == 8 {
            return 7;
        }
        return size - 1 - column;
    }
    if row < 6 {
        return row;
    }
    if row == 7 {
        return 6;
    }
    (row + 15).saturating_sub(size)
}

/// The fifteen bits of the format, the highest of them first.
fn highest_first(format: u64) -> u64
    ensures { (j : ℕ) → j < 15 → is_set result j ≡ is_set format (14 - j) }
{
    let mut bits = 0;
    for at in 0..15usize {
        bits |= (format >> (14 - at) & 1) << at;
    }
    bits
}

/// The bits of the format across row 8: six at its left end, two behind the timing pattern, and the rest at
/// its right end.
fn format_across(size: usize, format: u64) -> u64
    requires low { 21 ≤ size }
    requires high { size ≤ 57 }
    ensures { (j : ℕ) → j < size → corner size 8 j ≡ true → (j ≡ 6 → ⊥)
        → is_set result j ≡ (bit_at format (format_bit size 8 j) == 1) }
{
    let bits = highest_first(format);
    let right_end = bits << (size - 15);
    chosen(span(0, 6), bits, chosen(span(0, 9), bits << 1, right_end))
}

/// Bit `at` of a code, 0 behind its highest.
#[tactic(auto, using(crate::proofs::Bits::no_bit))]
fn bit(code: u64, at: usize) -> bool
    ensures { result ≡ (bit_at code at == 1) }
{
    at < 64 && is_dark(code, at)
}

/// A module of rows of bits.
#[tactic(auto, unfolding(crate::specs::Walk::dark))]
pub fn is_dark_at(grid: &[u64; 57], row: usize, column: usize) -> bool
    requires row { row < 57 }
    requires column { column < 57 }
    ensures { result ≡ dark grid.now row column }
{
    is_dark(grid[row], column)
}

/// The columns, bit by bit, in which each mask flips data modules: the first six of its first twelve rows,
/// for they repeat.
const FLIPS: [[u64; 12]; 8] = [
    [
        0x15, 0x2a, 0x15, 0x2a, 0x15, 0x2a, 0x15, 0x2a, 0x15, 0x2a, 0x15, 0x2a,
    ],
    [
        0x3f, 0x00, 0x3f, 0x00, 0x3f, 0x00, 0x3f, 0x00, 0x3f, 0x00, 0x3f, 0x00,
    ],
    [
        0x09, 0x09, 0x09, 0x09, 0x09, 0x09, 0x09, 0x09, 0x09, 0x09, 0x09, 0x09,
    ],
    [
        0x09, 0x24, 0x12, 0x09, 0x24, 0x12, 0x09, 0x24, 0x12, 0x09, 0x24, 0x12,
    ],
    [
        0x07, 0x07, 0x38, 0x38, 0x07, 0x07, 0x38, 0x38, 0x07, 0x07, 0x38, 0x38,
    ],
    [
        0x3f, 0x01, 0x09, 0x15, 0x09, 0x01, 0x3f, 0x01, 0x09, 0x15, 0x09, 0x01,
    ],
    [
        0x3f, 0x07, 0x1b, 0x15, 0x2d, 0x31, 0x3f, 0x07, 0x1b, 0x15, 0x2d, 0x31,
    ],
    [
        0x15, 0x38, 0x31, 0x2a, 0x07, 0x0e, 0x15, 0x38, 0x31, 0x2a, 0x07, 0x0e,
    ],
];

/// The columns in which a mask flips a row's data modules.
fn flips(mask: usize, row: usize) -> u64
    requires { mask < 8 }
    ensures { (j : ℕ) → j < 57 → is_set result j ≡ (formula mask row j == 0) }
{
    FLIPS[mask][row % 12] * 0x0041_0410_4104_1041
}

/// The dark modules where neither data nor format stand.
fn pattern_rows(version: usize) -> [u64; 57]
    requires low { 1 ≤ version }
    requires version { version ≤ 10 }
    ensures { (i j : ℕ) → i < size version → j < size version
        → dark result i j ≡ pattern_dark version (version_code version) i j }
{
    let code = version_code(version);
    let mut rows = [0; 57];
    for row in 0..17 + 4 * version {
        rows[row] = pattern_line(version, code, row);
    }
    rows
}

/// The modules on which a bit of the format stands.
fn format_rows(version: usize) -> [u64; 57]
    requires low { 1 ≤ version }
    requires version { version ≤ 10 }
    ensures { (i j : ℕ) → i < size version → j < size version
        → dark result i j ≡ format_here version i j }
{
    let mut rows = [0; 57];
    for row in 0..17 + 4 * version {
        rows[row] = format_line(version, row);
    }
    rows
}

/// A symbol before its mask is chosen: its data modules and its patterns, which are made once.
#[derive(Drop)]
pub struct Grid {
    pub version: usize,
    /// The data modules without a mask.
    pub unmasked: [u64; 57],
    /// Which modules hold data.
    pub free: [u64; 57],
    /// The dark modules where neither data nor format stand.
    pub patterns: [u64; 57],
    /// Where the format stands.
    pub format: [u64; 57],
}

impl Grid {
    /// The modules of codewords.
    pub fn of(version: usize, codewords: &[u8]) -> Grid
        requires low { 1 ≤ version }
        requires high { version ≤ 10 }
        ensures version { result.version ≡ version }
        ensures grid { IsGridOf codewords.now result }
    {
        let free = free_rows(version);
        let mut unmasked = [0; 57];
        fill(&mut unmasked, &free, version, codewords);
        let patterns = pattern_rows(version);
        let format = format_rows(version);
        Grid {
            version,
            unmasked,
            free,
            patterns,
            format,
        }
    }

    /// The module in column 8 of a row is a dark one of the format.
    #[tactic(auto, unfolding(crate::specs::Walk::dark))]
    fn is_format_dark(&self, format: u64, row: usize) -> bool
        requires grid { IsGrid self.now }
        requires row { row < size self.now.version }
        ensures { result ≡ (format_here self.now.version row 8
            && bit_at format (format_bit (size self.now.version) row 8) == 1) }
    {
        is_dark(self.format[row], 8) && bit(format, format_bit(17 + 4 * self.version, row, 8))
    }

    /// The dark modules of a row among those of the format: but for row 8 it has one of them at most, in
    /// column 8.
    fn format_bits(&self, format: u64, row: usize) -> u64
        requires grid { IsGrid self.now }
        requires row { row < size self.now.version }
        ensures { (j : ℕ) → j < size self.now.version → is_set result j
            ≡ (format_here self.now.version row j
            && bit_at format (format_bit (size self.now.version) row j) == 1) }
    {
        let places = self.format[row];
        if places == 0 {
            return 0;
        }
        if row != 8 {
            return only(self.is_format_dark(format, row), places);
        }
        places & format_across(17 + 4 * self.version, format)
    }

    /// A row of the finished symbol: the data under the mask, the patterns and the format.
    fn line(&self, format: u64, mask: usize, row: usize) -> u64
        requires grid { IsGrid self.now }
        requires mask { mask < 8 }
        requires row { row < size self.now.version }
        ensures { (j : ℕ) → j < size self.now.version → is_set result j
            ≡ module_at self.now.version format (version_code self.now.version) mask
            (dark self.now.unmasked) row j }
    {
        let flipped = (self.unmasked[row] ^ flips(mask, row)) & self.free[row];
        flipped | self.patterns[row] | self.format_bits(format, row)
    }

    /// The finished symbol with a mask.
    pub fn masked(&self, level: Level, mask: usize) -> [u64; 57]
        requires grid { IsGrid self.now }
        requires mask { mask < 8 }
        ensures { (codewords : List ℕ) → IsGridOf codewords self.now → (i j : ℕ) → i < size self.now.version
            → j < size self.now.version → dark result i j ≡ masked level self.now.version codewords mask i j }
    {
        let format = format_code(level, mask);
        let mut rows = [0; 57];
        for row in 0..17 + 4 * self.version {
            rows[row] = self.line(format, mask, row);
        }
        rows
    }
}
