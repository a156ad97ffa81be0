//! Characters of sheet A at any size.
ghost use Rattle.std.specs.Prelude.{◌≡◌, ℕ, ◌+◌, ◌-◌, ◌*◌, ◌/◌, ◌<◌, ◌≤◌, ◌^◌, nat_le, min, ◌&&◌, pos, ◌+ℤ◌, ◌<ℤ◌};
ghost use Rattle.std.specs.Int.{div_ceil};
ghost use Rattle.vp_dots.specs.Dots.{shifted};
ghost use Rattle.vp_dots.specs.Painting.{Painted};
ghost use Rattle.vp_dots.specs.Words.{word_dot};
ghost use Rattle.vp_glyph.specs.Sheets.{scaled_dot};
ghost use Rattle.vp_glyph.specs.Texts.{sampled_dot, sampled_inside};

use crate::look::paint_scaled;
use crate::sheet::{Sheet, dot_in, row_at, rows_in};
use crate::stretch::{Stretch, Widened};
use std::alloc::Global;
use vp_dots::{Ink, Op, Small};

/// A character of a sheet with cells of 12 by 24, drawn w by h dots.
#[derive_where(Clone, Copy)]
pub struct Sampled<'a, A: Small = Global> {
    pub sheet: &'a Option<Sheet<A>>,
    /// The byte, which is the number of its cell.
    pub character: u8,
    pub w: u32,
    pub h: u32,
}

/// Which of `cell` dots is shown at place `place`, where they are drawn as `size` dots.
fn sampled_place(place: u32, cell: u32, size: u32) -> u32
    requires place { place < size }
    requires cell { cell < 2 ^ 8 }
    ensures { result ≡ place * cell / size }
{
    (u64::from(place) * u64::from(cell) / u64::from(size)) as u32
}

/// Paints one row of a character from a place on, stretched to a width: row `source` of its cell.
#[inline(always)]
pub fn paint_cell<A: Small>(
    sheet: &Option<Sheet<A>>,
    character: u8,
    source: usize,
    stretch: &Stretch,
    op: Op,
    at: i64,
    left: u32,
    row: &mut [u8],
)
    requires { left + stretch.now.width < 2 ^ 32 }
    ensures { (h y : ℕ) → y < h → source ≡ y * 24 / h → Painted op (shifted at (λ x. nat_le left x
        && sampled_dot sheet.now character stretch.now.width h (x - left) y)) row.old row.new }
{
    let word = row_at(rows_in(sheet, character), source);
    stretch.paint(word, op, at, left, row);
}

/// The first 64 dots of a row on which one row of a character stands from a place on, stretched to a width:
/// row `source` of its cell.
#[inline(always)]
pub fn cell_front<A: Small>(
    sheet: &Option<Sheet<A>>,
    character: u8,
    source: usize,
    stretch: &Stretch,
    widened: Widened,
    at: i64,
    left: u32,
) -> u64
    requires twice { widened ≡ Widened.Twice → (stretch.now.width ≡ 24) × (at <ℤ pos (2 ^ 40)) }
    requires fits { left + stretch.now.width < 2 ^ 32 }
    ensures { (h y : ℕ) → y < h → source ≡ y * 24 / h → (d : ℕ) → d < 64 → word_dot result d
        ≡ shifted at (λ x. nat_le left x
        && sampled_dot sheet.now character stretch.now.width h (x - left) y) d }
{
    let word = row_at(rows_in(sheet, character), source);
    stretch.front(widened, word, at, left)
}

/// Which row of a cell is shown in row y of a character that is drawn `high` rows high.
pub fn source_row(y: u32, high: u32) -> usize
    requires { y < high }
    ensures { result ≡ y * 24 / high }
{
    sampled_place(y, 24, high) as usize
}

/// How far `place` lies behind `left`: 0 before it, and `places` at most.
fn within(place: u64, left: u32, places: u32) -> u32
    ensures { result ≡ min (place - left) places }
{
    place.saturating_sub(u64::from(left)).min(u64::from(places)) as u32
}

/// How many cells of `w` dots end within `dots` dots.
pub fn whole_cells(dots: u32, w: u32) -> u32
    requires some { 0 < w }
    ensures { result ≡ dots / w }
{
    if dots < w { 0 } else { dots / w }
}

/// How many of `cells` cells of `w` dots begin within `dots` dots.
fn begun_cells(dots: u32, w: u32, cells: usize) -> usize
    requires some { 0 < w }
    requires within { dots ≤ w * cells }
    requires fits { w * cells < 2 ^ 32 }
    ensures { result ≡ div_ceil dots w }
{
    if dots == w * cells as u32 {
        return cells;
    }
    dots.div_ceil(w) as usize
}

/// Of `dots` dots from place `left` on, the first that can be seen on a row of `bytes` bytes, and the one
/// behind the last.
pub fn seen_dots(at: i64, left: u32, dots: u32, bytes: usize) -> (u32, u32)
    requires fits { left + dots < 2 ^ 32 }
    ensures before { (x d : ℕ) → left ≤ x → x < left + result.0 → pos d ≡ at +ℤ pos x → d < 0 }
    ensures behind { (x d : ℕ) → left + result.1 ≤ x → x < left + dots → pos d ≡ at +ℤ pos x
        → 8 * bytes ≤ d }
    ensures first { result.0 ≤ dots }
    ensures last { result.1 ≤ dots }
    ensures few { result.1 ≤ result.0 + 8 * bytes }
{
    let far = at.unsigned_abs();
    let room = (bytes as u64).saturating_mul(8);
    let (from, to) = if at >= 0 {
        (0, room.saturating_sub(far))
    } else {
        (far, room.saturating_add(far))
    };
    (within(from, left, dots), within(to, left, dots))
}

/// Of `cells` cells of `w` dots side by side from place `left` on, the first that can be seen on a row of
/// `bytes` bytes, and the one behind the last.
pub fn seen(at: i64, left: u32, w: u32, cells: usize, bytes: usize) -> (usize, usize)
    requires some { 0 < w }
    requires fits { left + w * cells < 2 ^ 32 }
    ensures before { (x d : ℕ) → left ≤ x → x < left + w * result.0 → pos d ≡ at +ℤ pos x → d < 0 }
    ensures behind { (x d : ℕ) → left + w * result.1 ≤ x → x < left + w * cells → pos d ≡ at +ℤ pos x
        → 8 * bytes ≤ d }
    ensures first { result.0 ≤ cells }
    ensures last { result.1 ≤ cells }
    ensures few { result.1 ≤ result.0 + (8 * bytes / w + 2) }
{
    let (from, to) = seen_dots(at, left, w * cells as u32, bytes);
    (whole_cells(from, w) as usize, begun_cells(to, w, cells))
}

impl<A: Small> Sampled<'_, A> {
    /// Paints line y from a place on.
    pub(crate) fn paint_from(&self, y: u32, op: Op, at: i64, left: u32, row: &mut [u8])
        requires { left + self.now.w < 2 ^ 32 }
        ensures { Painted op (shifted at (λ x. nat_le left x
            && sampled_dot self.now.sheet.now self.now.character self.now.w self.now.h (x - left) y))
            row.old row.new }
    {
        if y >= self.h {
            return;
        }
        let place = sampled_place(y, 24, self.h);
        let word = row_at(rows_in(self.sheet, self.character), place as usize);
        paint_scaled(op, at, word, left, self.w, row);
    }
}

impl<A: Small> Ink for Sampled<'_, A> {
    ghost width = { λ s. s.w };

    ghost height = { λ s. s.h };

    ghost ink_at = { λ s x y. sampled_dot s.sheet.now s.character s.w s.h x y };

    ghost outside = { λ s x y h. sampled_inside s.sheet.now s.character s.w s.h x y h };

    fn size(&self) -> (u32, u32) {
        (self.w, self.h)
    }

    #[tactic(auto, unfolding(crate::specs::Texts::sampled_dot))]
    fn ink(&self, x: u32, y: u32) -> bool {
        x < self.w
            && y < self.h
            && dot_in(
                self.sheet,
                self.character,
                sampled_place(x, 12, self.w),
                sampled_place(y, 24, self.h),
            )
    }

    fn paint_row(&self, y: u32, op: Op, at: i64, row: &mut [u8]) {
        if self.w == 0 {
            return;
        }
        self.paint_from(y, op, at, 0, row);
    }
}
