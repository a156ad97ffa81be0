//! Squares of 64 by 64 dots, a word for each row: their rows exchanged with their columns.
ghost use Rattle.std.specs.Prelude.{◌≡◌, ℕ, ◌+◌, ◌-◌, ◌<◌, not, nat_le, ◌&&◌, slice_index, if◌then◌else◌};
ghost use Rattle.vp_dots.specs.Words.{word_dot};
ghost use Rattle.vp_dots.specs.Squares.{row_from, column_from};

/// The rows of a square, and its columns.
pub const SIDE: usize = 64;

/// The left parts of two rows, `wide` dots wide: those of the lower row on the right of the upper one's.
#[inline(always)]
fn left_parts(upper: u64, lower: u64, wide: u32, left: u64) -> u64
    requires wide { wide < 64 }
    requires parts { (x : ℕ) → x < 64 →
        (nat_le wide x && word_dot left (x - wide)) ≡ not (word_dot left x) }
    ensures { (x : ℕ) → x < 64 → word_dot result x ≡
        (if word_dot left x then word_dot upper x else word_dot lower (x - wide)) }
{
    (upper & left) | ((lower & left) >> wide)
}

/// The right parts of two rows: those of the upper row on the left of the lower one's.
#[inline(always)]
fn right_parts(upper: u64, lower: u64, wide: u32, left: u64) -> u64
    requires wide { wide < 64 }
    requires parts { (x : ℕ) → x < 64 →
        (nat_le wide x && word_dot left (x - wide)) ≡ not (word_dot left x) }
    ensures { (x : ℕ) → x < 64 → word_dot result x ≡
        (if word_dot left x then word_dot upper (x + wide) else word_dot lower x) }
{
    ((upper & !left) << wide) | (lower & !left)
}

/// One of the six steps of a turn: each row of the upper half meets one of the lower half, and they become
/// two, of their left parts and of their right ones.
#[inline(always)]
fn step(rows: &[u64; SIDE], wide: u32, left: u64) -> [u64; SIDE]
    requires wide { wide < 64 }
    requires parts { (x : ℕ) → x < 64 →
        (nat_le wide x && word_dot left (x - wide)) ≡ not (word_dot left x) }
    ensures { (x y : ℕ) → x < 64 → y < 64 → word_dot (slice_index result y) x ≡
        word_dot (slice_index rows.now (row_from (word_dot left x) y))
        (column_from (word_dot left x) wide x y) }
{
    let mut new = [0; SIDE];
    for i in 0..SIDE / 2 {
        new[2 * i] = left_parts(rows[i], rows[i + SIDE / 2], wide, left);
        new[2 * i + 1] = right_parts(rows[i], rows[i + SIDE / 2], wide, left);
    }
    new
}

/// A square, its rows exchanged with its columns.
pub fn turned_square(rows: &[u64; SIDE]) -> [u64; SIDE]
    ensures { (x y : ℕ) → x < 64 → y < 64 →
        word_dot (slice_index result y) x ≡ word_dot (slice_index rows.now x) y }
{
    let halves = step(rows, 32, 0xffff_ffff_0000_0000);
    let quarters = step(&halves, 16, 0xffff_0000_ffff_0000);
    let bytes = step(&quarters, 8, 0xff00_ff00_ff00_ff00);
    let fours = step(&bytes, 4, 0xf0f0_f0f0_f0f0_f0f0);
    let pairs = step(&fours, 2, 0xcccc_cccc_cccc_cccc);
    step(&pairs, 1, 0xaaaa_aaaa_aaaa_aaaa)
}
