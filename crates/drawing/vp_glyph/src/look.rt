//! How a row of a character looks: its dots in a word, emphasized, inverted, or drawn at another width.
ghost use Rattle.std.specs.Prelude.{◌≡◌, ℕ, ◌+◌, ◌-◌, ◌*◌, ◌/◌, ◌<◌, ◌≤◌, ◌^◌, nat_lt, nat_le, not, ◌&&◌, ◌||◌, pos, ◌+ℤ◌, ◌<ℤ◌, slice_index};
ghost use Rattle.vp_dots.specs.Dots.{shifted};
ghost use Rattle.vp_dots.specs.Painting.{Painted};
ghost use Rattle.vp_dots.specs.Words.{word_dot};
ghost use Rattle.vp_glyph.specs.Halves.{half_dot};

use vp_dots::{Op, WORDS, fill_moved, first_dots};

/// Offsets from here on lie far past any row.
pub const FAR: i64 = 1 << 40;

/// The offset of what begins `dots` dots behind offset `at`.
pub fn moved(at: i64, dots: u32) -> i64
    requires near { at <ℤ pos (2 ^ 40) }
    ensures { result ≡ at +ℤ pos dots }
{
    at + i64::from(dots)
}

/// Where dot s begins, of twelve dots that are drawn `width` dots wide in all.
#[tactic(auto, using(crate::proofs::Spread::edge_within))]
pub fn edge(s: u32, width: u32) -> u32
    requires { s ≤ 12 }
    ensures edge { result ≡ (s * width + 11) / 12 }
    ensures within { result ≤ width }
{
    ((u64::from(s) * u64::from(width) + 11) / 12) as u32
}

/// Dot x of a word.
pub fn dot_in_word(word: u64, x: u32) -> bool
    requires { x < 64 }
    ensures { result ≡ word_dot word x }
{
    word >> (63 - x) & 1 == 1
}

/// Paints the first twelve dots of a word, drawn `width` dots wide in all, from place `left` on.
pub fn paint_scaled(op: Op, at: i64, word: u64, left: u32, width: u32, row: &mut [u8])
    requires { left + width < 2 ^ 32 }
    ensures { Painted op (shifted at (λ x. nat_le left x && nat_lt (x - left) width
        && word_dot word ((x - left) * 12 / width))) row.old row.new }
{
    let mut from = left;
    let mut to = left;
    for s in 0..12u32 {
        let next = left + edge(s + 1, width);
        if !dot_in_word(word, s) {
            fill_moved(op, at, from, to, row);
            from = next;
        }
        to = next;
    }
    fill_moved(op, at, from, to, row);
}

/// The dots that both words have.
#[inline(always)]
pub fn shared(one: u64, other: u64) -> u64
    ensures { (x : ℕ) → word_dot result x ≡ (word_dot one x && word_dot other x) }
{
    one & other
}

/// Emphasized: black where a dot or its left neighbour is.
#[inline(always)]
pub fn emphasized(word: u64) -> u64
    ensures { (x : ℕ) → x < 64 → word_dot result x
        ≡ (word_dot word x || nat_lt 0 x && word_dot word (x - 1)) }
{
    word | (word >> 1)
}

/// Inverted.
#[inline(always)]
pub fn inverted(word: u64) -> u64
    ensures { (x : ℕ) → x < 64 → word_dot result x ≡ not (word_dot word x) }
{
    !word
}

/// The dots of a mask, where a word has dot s.
pub fn picked(word: u64, s: u32, mask: u64) -> u64
    requires { s < 64 }
    ensures { (x : ℕ) → word_dot result x ≡ (word_dot word s && word_dot mask x) }
{
    if dot_in_word(word, s) { mask } else { 0 }
}

/// The left half of a word.
#[inline(always)]
pub fn left_half(word: u64) -> u32
    ensures { (x : ℕ) → x < 32 → half_dot result x ≡ word_dot word x }
{
    (word >> 32) as u32
}

/// Dot x of half a word.
#[inline(always)]
pub fn dot_in_half(half: u32, x: u32) -> bool
    requires { x < 32 }
    ensures { result ≡ half_dot half x }
{
    half >> (31 - x) & 1 == 1
}

/// The dots of a mask, where half a word has dot s.
#[inline(always)]
pub fn picked_half(half: u32, s: u32, mask: u32) -> u32
    requires { s < 32 }
    ensures { (x : ℕ) → half_dot result x ≡ (half_dot half s && half_dot mask x) }
{
    if dot_in_half(half, s) { mask } else { 0 }
}

/// The dots of a mask that a word has there or `far` dots to the left.
#[inline(always)]
fn spread(word: u64, far: u32, mask: u64) -> u64
    requires { far < 64 }
    ensures { (x : ℕ) → x < 64 → word_dot result x
        ≡ ((word_dot word x || nat_le far x && word_dot word (x - far)) && word_dot mask x) }
{
    (word | (word >> far)) & mask
}

/// The first twelve dots of a word, each drawn two dots wide.
#[inline(always)]
pub fn doubled(word: u64) -> u64
    ensures { (x : ℕ) → word_dot result x ≡ (nat_lt x 24 && word_dot word (x / 2)) }
{
    let twelve = shared(word, 0xfff0_0000_0000_0000);
    let eights = spread(twelve, 8, 0xff00_ff00_0000_0000);
    let fours = spread(eights, 4, 0xf0f0_f0f0_0000_0000);
    let twos = spread(fours, 2, 0xcccc_cccc_0000_0000);
    let ones = spread(twos, 1, 0xaaaa_aaaa_0000_0000);
    spread(ones, 1, u64::MAX)
}

/// The first `N` dots of a word, each drawn `wm` dots wide.
#[inline(always)]
fn widened<const N: u32>(word: u64, wm: u32) -> u64
    requires few { N ≤ 12 }
    requires narrow { N * wm ≤ 64 }
    requires wm { wm ≤ 10 }
    ensures { (x : ℕ) → word_dot result x ≡ (nat_lt x (N * wm) && word_dot word (x / wm)) }
{
    let mut wide = 0u64;
    let mut dots = first_dots(wm);
    for s in 0..N {
        wide |= picked(word, s, dots);
        dots >>= wm;
    }
    wide
}

/// The first twelve dots of each row, each drawn two dots wide.
pub fn doubled_rows(rows: &[u64; WORDS]) -> [u64; WORDS]
    ensures { (x y : ℕ) → word_dot (slice_index result y) x
        ≡ (nat_lt x 24 && word_dot (slice_index rows.now y) (x / 2)) }
{
    let mut wide = [0; WORDS];
    for y in 0..WORDS {
        wide[y] = doubled(rows[y]);
    }
    wide
}

/// `N` dots of each row, from dot `first` on, each drawn `wm` dots wide.
pub fn widened_rows<const N: u32>(rows: &[u64; WORDS], first: u32, wm: u32) -> [u64; WORDS]
    requires few { N ≤ 12 }
    requires narrow { N * wm ≤ 64 }
    requires wm { wm ≤ 10 }
    requires first { first ≤ 12 }
    ensures { (x y : ℕ) → word_dot (slice_index result y) x
        ≡ (nat_lt x (N * wm) && word_dot (slice_index rows.now y) (first + x / wm)) }
{
    let mut wide = [0; WORDS];
    for y in 0..WORDS {
        wide[y] = widened::<N>(rows[y] << first, wm);
    }
    wide
}

/// Nine dots out of twelve.
pub fn nine_of(word: u64) -> u64
    ensures { (x : ℕ) → word_dot result x ≡ (nat_lt x 9 && word_dot word (x * 12 / 9)) }
{
    let mut nine = 0u64;
    for x in 0..9u32 {
        if dot_in_word(word, x * 12 / 9) {
            nine |= 1 << (63 - x);
        }
    }
    nine
}
