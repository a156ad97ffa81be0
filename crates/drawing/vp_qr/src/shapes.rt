//! The dark modules of the finders, the timing and alignment patterns and the version, row by row, as words.

ghost use Rattle.std.specs.Prelude.{◌≡◌, ◌==◌, ◌<◌, ◌≤◌, ◌*◌, ◌&&◌, ◌||◌, not, nat_lt, max, ℕ, true, if◌then◌else◌};
ghost use Rattle.std.specs.Int.{bit_at};
ghost use Rattle.vp_qr.specs.Places.{size, near, alignment, version_area};
ghost use Rattle.vp_qr.specs.Penalty.{is_set};
ghost use Rattle.vp_qr.specs.Symbol.{apart, finder, finder_centre, finder_dark, alignment_centre, alignment_dark, version_bit, pattern_dark};

use crate::lines::{alignments, corners, only, span, versions};

/// The modules of one word where a shape stands, and of another elsewhere.
pub fn chosen(shape: u64, inside: u64, outside: u64) -> u64
    ensures { (j : ℕ) → j < 64 → is_set result j
        ≡ (if is_set shape j then is_set inside j else is_set outside j) }
{
    inside & shape | outside & !shape
}

/// The finder's centre on this side.
fn finder_centre(size: usize, at: usize) -> usize
    requires { 8 ≤ size }
    ensures { result ≡ finder_centre size at }
{
    if at < 8 { 3 } else { size - 4 }
}

/// A row of a finder `away` rows from its centre: a square of three modules, and the third ring round it.
fn finder_row(away: usize) -> u64
    ensures { (j : ℕ) → j < 64 → is_set result j
        ≡ (nat_lt (max away (apart 3 j)) 2 || max away (apart 3 j) == 3) }
{
    match away {
        0 => 0x5d,
        1 => 0x5d,
        2 => 0x41,
        3 => 0x7f,
        _ => 0,
    }
}

/// The dark modules of the finders.
fn finder_line(size: usize, row: usize) -> u64
    requires low { 21 ≤ size }
    requires high { size ≤ 57 }
    requires row { row < size }
    ensures { (j : ℕ) → j < size → finder size row j ≡ true → is_set result j ≡ finder_dark size row j }
{
    let one = finder_row(finder_centre(size, row).abs_diff(row));
    one | one << (size - 7)
}

/// A centre is at most two away.
fn is_near(centre: usize, at: usize) -> bool
    requires centre { centre < 100 }
    requires at { at < 100 }
    ensures { result ≡ near centre at }
{
    centre <= at + 2 && at <= centre + 2
}

/// The centre of an alignment pattern near this row or column.
fn alignment_centre(version: usize, at: usize) -> usize
    requires version { version ≤ 10 }
    requires at { at < 57 }
    ensures { result ≡ alignment_centre version at }
{
    if is_near(6, at) {
        return 6;
    }
    if is_near(8 + 2 * version, at) && version >= 7 {
        return 8 + 2 * version;
    }
    10 + 4 * version
}

/// A row of an alignment pattern `away` rows from its centre: all but the first ring.
fn alignment_row(away: usize) -> u64
    ensures { (j : ℕ) → j < 64 → is_set result j ≡ (nat_lt j 5 && not (max away (apart 2 j) == 1)) }
{
    match away {
        0 => 0x15,
        1 => 0x11,
        _ => 0x1f,
    }
}

/// The dark modules of the alignment patterns.
fn alignment_line(version: usize, row: usize) -> u64
    requires version { version ≤ 10 }
    requires row { row < 57 }
    ensures { (j : ℕ) → j < 57 → alignment version row j ≡ true
        → is_set result j ≡ alignment_dark version row j }
{
    let one = alignment_row(alignment_centre(version, row).abs_diff(row));
    one << 4 | one << (6 + 2 * version) | one << (8 + 4 * version)
}

/// Every third bit of a number, six of them.
fn thirds(bits: u64) -> u64
    ensures { (j : ℕ) → j < 6 → is_set result j ≡ is_set bits (3 * j) }
{
    1 & bits | 2 & bits >> 2 | 4 & bits >> 4 | 8 & bits >> 6 | 16 & bits >> 8 | 32 & bits >> 10
}

/// The dark modules of the version.
fn version_line(version: usize, code: u64, row: usize) -> u64
    requires low { 1 ≤ version }
    requires version { version ≤ 10 }
    requires row { row < size version }
    ensures { (j : ℕ) → j < size version → version_area version row j ≡ true
        → is_set result j ≡ (bit_at code (version_bit (size version) row j) == 1) }
{
    let size = 17 + 4 * version;
    if row < 6 {
        return code >> (3 * row) << (size - 11);
    }
    thirds(code >> row.saturating_sub(size - 11))
}

/// The dark modules of a row where neither data nor format stand.
pub fn pattern_line(version: usize, code: u64, row: usize) -> u64
    requires low { 1 ≤ version }
    requires version { version ≤ 10 }
    requires row { row < size version }
    ensures { (j : ℕ) → j < size version → is_set result j ≡ pattern_dark version code row j }
{
    let size = 17 + 4 * version;
    let dark_module = only(row == size - 8, span(8, 9));
    let version_too = chosen(
        versions(version, row),
        version_line(version, code, row),
        dark_module,
    );
    let alignment_too = chosen(
        alignments(version, row),
        alignment_line(version, row),
        version_too,
    );
    let column_six = chosen(span(6, 7), only(row % 2 == 0, span(6, 7)), alignment_too);
    let row_six = chosen(
        only(row == 6, span(0, 63)),
        0x5555_5555_5555_5555,
        column_six,
    );
    chosen(corners(size, 8, row), finder_line(size, row), row_six)
}
