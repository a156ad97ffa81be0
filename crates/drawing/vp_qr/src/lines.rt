//! Where the parts of a symbol stand on a row, as words: bit j of a word is the module in column j.

ghost use Rattle.std.specs.Prelude.{◌≡◌, ◌<◌, ◌≤◌, ◌+◌, ◌*◌, ◌==◌, ◌&&◌, ◌||◌, ◌-◌, not, nat_le, nat_lt, ℕ};
ghost use Rattle.vp_qr.specs.Places.{size, near, corner, alignment, version_area, reserved};
ghost use Rattle.vp_qr.specs.Penalty.{is_set};
ghost use Rattle.vp_qr.specs.Symbol.{finder, format_here};

use crate::mask::is_dark;

/// The columns from one up to another.
pub fn span(from: usize, to: usize) -> u64
    requires from { from ≤ to }
    requires to { to < 64 }
    ensures { (j : ℕ) → is_set result j ≡ (nat_le from j && nat_lt j to) }
{
    (1 << to) - (1 << from)
}

/// Columns that a row has or not.
pub fn only(row_has: bool, line: u64) -> u64
    ensures { (j : ℕ) → is_set result j ≡ (row_has && is_set line j) }
{
    if row_has { line } else { 0 }
}

/// The columns near a centre.
fn near_line(centre: usize) -> u64
    requires low { 2 ≤ centre }
    requires high { centre < 60 }
    ensures { (j : ℕ) → is_set result j ≡ near centre j }
{
    span(centre - 2, centre + 3)
}

/// Row `row` of the finders with their separators, `wide` 8, or with the format beside them too, `wide` 9.
pub fn corners(size: usize, wide: usize, row: usize) -> u64
    requires low { 21 ≤ size }
    requires high { size ≤ 57 }
    requires wide { wide < 64 }
    ensures { (j : ℕ) → j < 63 → is_set result j
        ≡ (nat_lt row wide && (nat_lt j wide || nat_le (size - 8) j)
        || nat_le (size - 8) row && nat_lt j wide) }
{
    let left = span(0, wide);
    let right = span(size - 8, 63);
    only(row < wide, left | right) | only(size - 8 <= row, left)
}

/// The timing patterns.
fn timing(row: usize) -> u64
    ensures { (j : ℕ) → j < 63 → is_set result j ≡ (row == 6 || j == 6) }
{
    only(row == 6, span(0, 63)) | span(6, 7)
}

/// The alignment patterns.
pub fn alignments(version: usize, row: usize) -> u64
    requires version { version ≤ 10 }
    requires row { row < 57 }
    ensures { (j : ℕ) → j < 63 → is_set result j ≡ alignment version row j }
{
    if version < 2 {
        return 0;
    }
    let last = near_line(10 + 4 * version);
    let outer = only(is_dark(last, row), last);
    if version < 7 {
        return outer;
    }
    let first = near_line(6);
    let middle = near_line(8 + 2 * version);
    let across = only(is_dark(middle, row), first | middle | last);
    outer | across | only(is_dark(first | last, row), middle)
}

/// The version, from version 7 on.
pub fn versions(version: usize, row: usize) -> u64
    requires low { 1 ≤ version }
    requires version { version ≤ 10 }
    requires row { row < 57 }
    ensures { (j : ℕ) → j < 63 → is_set result j ≡ version_area version row j }
{
    if version < 7 {
        return 0;
    }
    let size = 17 + 4 * version;
    let beside = span(size - 11, size - 8);
    only(row < 6, beside) | only(is_dark(beside, row), span(0, 6))
}

/// The modules of a row that hold data.
pub fn free_line(version: usize, row: usize) -> u64
    requires low { 1 ≤ version }
    requires high { version ≤ 10 }
    requires row { row < size version }
    ensures { (j : ℕ) → j < size version → is_set result j ≡ not (reserved version row j) }
{
    let size = 17 + 4 * version;
    !(corners(size, 9, row) | timing(row) | alignments(version, row) | versions(version, row))
}

/// The modules of a row on which a bit of the format stands.
pub fn format_line(version: usize, row: usize) -> u64
    requires low { 1 ≤ version }
    requires version { version ≤ 10 }
    requires row { row < size version }
    ensures { (j : ℕ) → j < size version → is_set result j ≡ format_here version row j }
{
    let size = 17 + 4 * version;
    let patterns = corners(size, 8, row)
        | timing(row)
        | alignments(version, row)
        | versions(version, row);
    corners(size, 9, row) & !(patterns | only(row == size - 8, span(8, 9)))
}
