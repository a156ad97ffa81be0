//! The dots of a row of a character, each drawn at another width.
ghost use Rattle.std.specs.Prelude.{◌≡◌, ℕ, ◌+◌, ◌-◌, ◌*◌, ◌/◌, ◌<◌, ◌≤◌, ◌^◌, nat_lt, nat_le, ◌&&◌, ◌||◌, pos, ◌+ℤ◌, ◌<ℤ◌, ◌≤ℤ◌, ◌⊎◌, length, slice_index};
ghost use Rattle.vp_dots.specs.Dots.{shifted, span};
ghost use Rattle.vp_dots.specs.Painting.{Painted};
ghost use Rattle.vp_dots.specs.Words.{word_dot};
ghost use Rattle.vp_glyph.specs.Halves.{half_dot};
ghost use Rattle.vp_glyph.specs.Stretches.{StretchedBy};

use crate::look::{
    FAR, doubled, edge, inverted, left_half, moved, paint_scaled, picked, picked_half, shared,
};
use crate::sampled::whole_cells;
use crate::sheet::row_at;
use vp_dots::{Op, first_dots, paint_word, word_of};

/// The dots of a row of a cell.
const CELL: u32 = 12;

/// The dots of a word.
const WORD: u32 = 64;

/// The dots of half a word.
const HALF: u32 = 32;

/// How the dots of a cell's row are widened.
#[derive(Clone, Copy)]
pub enum Widened {
    /// Each to two dots.
    Twice,
    /// By the dots that each falls on.
    ByMasks,
}

/// Twelve dots drawn `width` dots wide in all.
#[derive(Clone, Copy)]
pub struct Stretch {
    pub width: u32,
    /// The dots of a word on which each of the twelve falls, where all fall on one.
    masks: [u64; 12],
    /// How many of the twelve fall on a dot, in parts of 2^28, where they don't fall on one word.
    share: u32,
    ghost masks_are: { width ≤ 64 → StretchedBy width masks },
}

/// A word that is black from one dot to another.
fn mask(from: u32, to: u32) -> u64
    requires from { from ≤ 64 }
    requires to { to ≤ 64 }
    ensures { (x : ℕ) → word_dot result x ≡ span from to x }
{
    if to <= from {
        return 0;
    }
    shared(inverted(first_dots(from)), first_dots(to))
}

/// On which dots of a word each of twelve dots falls that are drawn `width` dots wide in all.
fn masks(width: u32) -> [u64; 12]
    requires { width ≤ 64 }
    ensures { StretchedBy width result }
{
    let mut masks = [0u64; 12];
    for s in 0..CELL {
        masks[s as usize] = mask(edge(s, width), edge(s + 1, width));
    }
    masks
}

/// A word moved `far` dots to the right.
fn moved_right(word: u64, far: u64) -> u64
    ensures { (x : ℕ) → x < 64 → word_dot result x ≡ (nat_le far x && word_dot word (x - far)) }
{
    if far >= 64 {
        return 0;
    }
    word >> far
}

/// A word moved `far` dots to the left.
fn moved_left(word: u64, far: u64) -> u64
    ensures { (x : ℕ) → x < 64 → word_dot result x ≡ word_dot word (x + far) }
{
    if far >= 64 {
        return 0;
    }
    word << far
}

/// The first 64 dots of a row on which a word begins at an offset.
fn moved_word(word: u64, at: i64) -> u64
    ensures { (x : ℕ) → x < 64 → word_dot result x ≡ shifted at (word_dot word) x }
{
    if at >= 0 {
        moved_right(word, at.unsigned_abs())
    } else {
        moved_left(word, at.unsigned_abs())
    }
}

/// Paints a word on a row, which may be shorter than the word.
fn paint_moved(op: Op, word: u64, at: i64, row: &mut [u8])
    ensures { Painted op (shifted at (word_dot word)) row.old row.new }
{
    if row.len() <= 8 {
        paint_word(op, moved_word(word, at), 0, row);
    } else {
        paint_word(op, word, at, row);
    }
}

/// Where a place of what stands at an offset falls on the first 32 dots of a row, or the end of them that is
/// nearer.
fn in_half(at: i64, place: u32) -> u32
    ensures within { result ≤ 32 }
    ensures below { (d : ℕ) → d < 32 → pos d <ℤ (at +ℤ pos place) → d < result }
    ensures above { (d : ℕ) → d < 32 → (at +ℤ pos place) ≤ℤ pos d → result ≤ d }
{
    if at >= 32 {
        return 32;
    }
    (at + i64::from(place)).clamp(0, 32) as u32
}

/// Adds the left halves of the first rows of a cell to as many halves.
#[inline(always)]
fn add_halves(cell: &[u64], high: usize, halves: &mut [u32; 24])
    requires high { high ≤ 24 }
    requires cell { high ≤ length cell.now }
    ensures { (r d : ℕ) → r < 24 → d < 32 → half_dot (slice_index halves.new r) d
        ≡ (half_dot (slice_index halves.old r) d || nat_lt r high && word_dot (slice_index cell.now r) d) }
{
    for r in 0..high {
        halves[r] |= left_half(cell[r]);
    }
}

/// The left halves of the first 24 rows of a cell, white below it.
// Where the compiler knows how many rows there are, it takes four of them at once.
#[inline(always)]
fn halves_of(cell: &[u64]) -> [u32; 24]
    ensures { (r d : ℕ) → r < 24 → d < 32
        → half_dot (slice_index result r) d ≡ word_dot (slice_index cell.now r) d }
{
    let mut halves = [0; 24];
    if cell.len() >= 24 {
        add_halves(cell, 24, &mut halves);
        return halves;
    }
    add_halves(cell, cell.len(), &mut halves);
    halves
}

/// Adds the dots of a mask to the rows where those of a cell have dot s.
#[inline(always)]
fn add_dot(cell: &[u32; 24], s: u32, mask: u32, rows: &mut [u32; 24])
    requires { s < 32 }
    ensures { (r d : ℕ) → r < 24 → d < 32 → half_dot (slice_index rows.new r) d
        ≡ (half_dot (slice_index rows.old r) d || half_dot (slice_index cell.now r) s && half_dot mask d) }
{
    for r in 0..24usize {
        rows[r] |= picked_half(cell[r], s, mask);
    }
}

/// The first 64 dots of a row on which the first twelve dots of a word, drawn `width` dots wide in all, stand
/// from place `left` on.
#[inline(never)]
fn scaled_front(word: u64, at: i64, left: u32, width: u32) -> u64
    requires fits { left + width < 2 ^ 32 }
    ensures { (d : ℕ) → d < 64 → word_dot result d ≡ shifted at (λ x. nat_le left x
        && nat_lt (x - left) width && word_dot word ((x - left) * 12 / width)) d }
{
    let mut bytes = [0u8; 8];
    paint_scaled(Op::Black, at, word, left, width, &mut bytes);
    word_of(&bytes)
}

impl Stretch {
    /// Twelve dots drawn `width` dots wide in all.
    pub fn new(width: u32) -> Stretch
        ensures { result.width ≡ width }
    {
        if width > WORD {
            return Stretch {
                width,
                masks: [0; 12],
                share: (12 << 28) / width,
            };
        }
        Stretch {
            width,
            masks: masks(width),
            share: 0,
        }
    }

    /// The first twelve dots of a word, drawn `width` dots wide in all.
    fn of(&self, word: u64) -> u64
        requires { self.now.width ≤ 64 }
        ensures { (x : ℕ) → word_dot result x ≡ (nat_lt x self.now.width
            && word_dot word (x * 12 / self.now.width)) }
    {
        let mut wide = 0u64;
        for s in 0..CELL {
            wide |= picked(word, s, self.masks[s as usize]);
        }
        wide
    }

    /// The first twelve dots of a word, drawn twice as wide.
    #[inline(always)]
    fn twice(&self, word: u64) -> u64
        requires { self.now.width ≡ 24 }
        ensures { (x : ℕ) → word_dot result x ≡ (nat_lt x self.now.width
            && word_dot word (x * 12 / self.now.width)) }
    {
        doubled(word)
    }

    /// What `front` gives, by the masks where all dots fall on a word.
    // A call leaves the masks where they are; inlined, a loop over cells would first move all to the stack.
    #[inline(never)]
    fn front_by_masks(&self, word: u64, at: i64, left: u32) -> u64
        requires fits { left + self.now.width < 2 ^ 32 }
        ensures { (d : ℕ) → d < 64 → word_dot result d ≡ shifted at (λ x. nat_le left x
            && nat_lt (x - left) self.now.width && word_dot word ((x - left) * 12 / self.now.width)) d }
    {
        if self.width > WORD || at >= FAR {
            return scaled_front(word, at, left, self.width);
        }
        moved_word(self.of(word), moved(at, left))
    }

    /// How dots are widened at an offset.
    #[inline(always)]
    pub fn widened(&self, at: i64) -> Widened
        ensures { result ≡ Widened.Twice → (self.now.width ≡ 24) × (at <ℤ pos (2 ^ 40)) }
    {
        if self.width == 2 * CELL && at < FAR {
            Widened::Twice
        } else {
            Widened::ByMasks
        }
    }

    /// The first 64 dots of a row on which the first twelve dots of a word stand, from a place on.
    // How they are widened comes from the caller, which asks it once for many words.
    #[inline(always)]
    pub fn front(&self, widened: Widened, word: u64, at: i64, left: u32) -> u64
        requires twice { widened ≡ Widened.Twice → (self.now.width ≡ 24) × (at <ℤ pos (2 ^ 40)) }
        requires fits { left + self.now.width < 2 ^ 32 }
        ensures { (d : ℕ) → d < 64 → word_dot result d ≡ shifted at (λ x. nat_le left x
            && nat_lt (x - left) self.now.width && word_dot word ((x - left) * 12 / self.now.width)) d }
    {
        match widened {
            Widened::Twice => moved_word(self.twice(word), moved(at, left)),
            Widened::ByMasks => self.front_by_masks(word, at, left),
        }
    }

    /// About how many of the dots of the sheet end within `dots` dots of cells side by side.
    fn dots_within(&self, dots: u32) -> u64 {
        u64::from(dots).wrapping_mul(u64::from(self.share)) >> 28
    }

    /// How many cells side by side end within `dots` dots, or fewer: multiplying may find one too few.
    pub(crate) fn cells_within(&self, dots: u32) -> u32
        requires { 0 < self.now.width }
        ensures { self.now.width * result ≤ dots }
    {
        if self.width <= WORD {
            return whole_cells(dots, self.width);
        }
        let cells = (self.dots_within(dots) / 12).min(u64::from(dots)) as u32;
        if u64::from(self.width) * u64::from(cells) <= u64::from(dots) {
            cells
        } else {
            0
        }
    }

    /// Of twelve dots that stand from place `left` on, one before which none falls on a row, and where it
    /// begins on the first 32 dots of the row.
    fn first_seen(&self, at: i64, left: u32) -> (u32, u32)
        requires fits { left + self.now.width < 2 ^ 32 }
        ensures begun { result.0 ≤ 12 }
        ensures within { result.1 ≤ 32 }
        ensures below { (d : ℕ) → d < 32 → pos d <ℤ (at +ℤ pos (left + (result.0 * self.now.width + 11) / 12))
            → d < result.1 }
        ensures above { (d : ℕ) → d < 32 → (at +ℤ pos (left + (result.0 * self.now.width + 11) / 12)) ≤ℤ pos d
            → result.1 ≤ d }
        ensures first { (result.0 ≡ 0) ⊎ (result.1 ≡ 0) }
    {
        let hidden = at.saturating_add(i64::from(left)).min(0).unsigned_abs();
        let s = self
            .dots_within(hidden.min(u64::from(self.width)) as u32)
            .min(11) as u32;
        let from = in_half(at, left + edge(s, self.width));
        if from == 0 {
            return (s, 0);
        }
        (0, in_half(at, left + edge(0, self.width)))
    }

    /// What `add_rows` adds, dot by dot of the cell.
    fn add_wide(&self, cell: &[u64], at: i64, left: u32, rows: &mut [u32; 24])
        requires fits { left + self.now.width < 2 ^ 32 }
        ensures { (s d : ℕ) → s < 24 → d < 32 → half_dot (slice_index rows.new s) d
            ≡ (half_dot (slice_index rows.old s) d || shifted at (λ x. nat_le left x
            && nat_lt (x - left) self.now.width
            && word_dot (slice_index cell.now s) ((x - left) * 12 / self.now.width)) d) }
    {
        let halves = halves_of(cell);
        let (mut s, mut from) = self.first_seen(at, left);
        while s < CELL && from < HALF {
            let to = in_half(at, left + edge(s + 1, self.width));
            add_dot(&halves, s, left_half(mask(from, to)), rows);
            from = to;
            s += 1;
        }
    }

    /// Adds to the first 32 dots of 24 rows what `front` gives of them for each row of a cell.
    pub(crate) fn add_rows(&self, cell: &[u64], at: i64, left: u32, rows: &mut [u32; 24])
        requires fits { left + self.now.width < 2 ^ 32 }
        ensures { (s d : ℕ) → s < 24 → d < 32 → half_dot (slice_index rows.new s) d
            ≡ (half_dot (slice_index rows.old s) d || shifted at (λ x. nat_le left x
            && nat_lt (x - left) self.now.width
            && word_dot (slice_index cell.now s) ((x - left) * 12 / self.now.width)) d) }
    {
        if self.width > WORD {
            self.add_wide(cell, at, left, rows);
            return;
        }
        let widened = self.widened(at);
        for s in 0..24usize {
            rows[s] |= left_half(self.front(widened, row_at(cell, s), at, left));
        }
    }

    /// What `paint` paints, by the masks where all dots fall on a word.
    #[inline(never)]
    fn paint_by_masks(&self, word: u64, op: Op, at: i64, left: u32, row: &mut [u8])
        requires fits { left + self.now.width < 2 ^ 32 }
        ensures { Painted op (shifted at (λ x. nat_le left x && nat_lt (x - left) self.now.width
            && word_dot word ((x - left) * 12 / self.now.width))) row.old row.new }
    {
        if self.width > WORD || at >= FAR {
            paint_scaled(op, at, word, left, self.width, row);
            return;
        }
        paint_moved(op, self.of(word), moved(at, left), row);
    }

    /// Paints the first twelve dots of a word from a place on.
    #[inline(always)]
    pub fn paint(&self, word: u64, op: Op, at: i64, left: u32, row: &mut [u8])
        requires fits { left + self.now.width < 2 ^ 32 }
        ensures { Painted op (shifted at (λ x. nat_le left x && nat_lt (x - left) self.now.width
            && word_dot word ((x - left) * 12 / self.now.width))) row.old row.new }
    {
        if word == 0 {
            return;
        }
        match self.widened(at) {
            Widened::Twice => paint_moved(op, self.twice(word), moved(at, left), row),
            Widened::ByMasks => self.paint_by_masks(word, op, at, left, row),
        }
    }
}
