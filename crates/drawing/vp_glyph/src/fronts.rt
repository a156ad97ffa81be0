//! The first dots of many rows of a block, for which each of its lines is looked at once.
ghost use Rattle.std.specs.Prelude.{◌≡◌, ℕ, ◌+◌, ◌-◌, ◌*◌, ◌/◌, ◌<◌, ◌≤◌, ◌^◌, ◌||◌, ◌&&◌, nat_le, nat_lt, true, false, min, length, take, slice_index};
ghost use Rattle.vp_dots.specs.Dots.{bit, shifted, span};
ghost use Rattle.vp_glyph.specs.Blocks.{pieces, first, block_pieces, line_dot, block_height, block_dot, line_pieces};
ghost use Rattle.vp_glyph.specs.Halves.{half_dot, front_dot, AreEdges, AreInked};
ghost use Rattle.vp_glyph.specs.Layouts.{layout_of};

use crate::block::Block;
use crate::kept::KeptLines;
use crate::lines::hand_line;
use vp_dots::{Small, edges, inked};

/// Of so many fronts side by side the dots that all have are kept once.
const GROUP: usize = 16;

/// So many groups are kept: those of the rows that may fall on a label's columns, and some more.
const GROUPS: usize = 80;

/// So many groups are blackened at a time.
const FOUR: usize = 4;

/// From so many fronts on their groups are blackened in place of each.
const MANY: usize = 48;

/// The first of the rows of a cell, drawn `high` rows high, that show row s of 24.
pub fn first_row(s: u32, high: u32) -> u32
    requires { s ≤ 24 }
    ensures row { result ≡ (s * high + 23) / 24 }
    ensures within { result ≤ high }
{
    ((u64::from(s) * u64::from(high) + 23) / 24) as u32
}

/// How many of so many rows from one on stand above another.
#[inline(always)]
pub fn rows_above(row: u32, first: u32, rows: usize) -> usize
    ensures { result ≡ min (row - first) rows }
{
    (row.saturating_sub(first) as usize).min(rows)
}

/// Makes the dots of the halves from one to another black where a half is.
#[inline(always)]
fn blacken<const N: usize>(ink: u32, from: usize, to: usize, halves: &mut [u32; N])
    requires order { from ≤ to }
    requires to { to ≤ N }
    ensures inside { (i x : ℕ) → from ≤ i → i < to → half_dot (slice_index halves.new i) x
        ≡ (half_dot (slice_index halves.old i) x || half_dot ink x) }
    ensures outside { (i : ℕ) → span from to i ≡ false
        → slice_index halves.new i ≡ slice_index halves.old i }
{
    for i in from..to {
        halves[i] |= ink;
    }
}

/// Makes the dots of M halves, from one on, black where a half is.
#[inline(always)]
fn blacken_next<const M: usize, const N: usize>(ink: u32, from: usize, halves: &mut [u32; N])
    requires { from + M ≤ N }
    ensures inside { (i x : ℕ) → from ≤ i → i < from + M → half_dot (slice_index halves.new i) x
        ≡ (half_dot (slice_index halves.old i) x || half_dot ink x) }
    ensures outside { (i : ℕ) → span from (from + M) i ≡ false
        → slice_index halves.new i ≡ slice_index halves.old i }
{
    for i in 0..M {
        halves[from + i] |= ink;
    }
}

/// What `blacken` does, four halves at a time where there are as many: the last four at once, whether some of
/// them are black already or not.
#[inline(always)]
fn blacken_fours<const N: usize>(ink: u32, from: usize, to: usize, halves: &mut [u32; N])
    requires order { from ≤ to }
    requires to { to ≤ N }
    ensures inside { (i x : ℕ) → from ≤ i → i < to → half_dot (slice_index halves.new i) x
        ≡ (half_dot (slice_index halves.old i) x || half_dot ink x) }
    ensures outside { (i : ℕ) → span from to i ≡ false
        → slice_index halves.new i ≡ slice_index halves.old i }
{
    if to - from < FOUR {
        blacken(ink, from, to, halves);
        return;
    }
    for k in 0..(to - from) / FOUR {
        blacken_next::<FOUR, N>(ink, from + FOUR * k, halves);
    }
    blacken_next::<FOUR, N>(ink, to - FOUR, halves);
}

/// Makes the dots of the fronts from one to another black where a half is: of groups that are among them as
/// a whole at once. As many fronts as a group has, at each end, are blackened one by one: the rest of a group
/// there, and what is black anyhow.
fn blacken_run<const N: usize>(
    ink: u32,
    from: usize,
    to: usize,
    groups: &mut [u32; GROUPS],
    fronts: &mut [u32; N],
)
    requires order { from ≤ to }
    requires to { to ≤ N }
    ensures { (i x : ℕ) → i < N → x < 32 → front_dot GROUP groups.new fronts.new i x
        ≡ (front_dot GROUP groups.old fronts.old i x || span from to i && half_dot ink x) }
{
    if to - from < MANY || to > GROUP * GROUPS {
        blacken(ink, from, to, fronts);
        return;
    }
    let first = from / GROUP + 1;
    let last = to / GROUP;
    blacken_next::<GROUP, N>(ink, from, fronts);
    blacken_fours(ink, first, last, groups);
    blacken_next::<GROUP, N>(ink, to - GROUP, fronts);
}

/// Gives each front the dots that its group has.
fn settle<const N: usize>(groups: &[u32; GROUPS], fronts: &mut [u32; N])
    ensures { (i x : ℕ) → i < N → x < 32 → half_dot (slice_index fronts.new i) x
        ≡ front_dot GROUP groups.now fronts.old i x }
{
    for k in 0..GROUPS {
        if groups[k] == 0 {
            continue;
        }
        let from = (GROUP * k).min(N);
        if from + GROUP <= N {
            blacken_next::<GROUP, N>(groups[k], from, fronts);
        } else {
            blacken(groups[k], from, N, fronts);
        }
    }
}

/// Which of 24 rows, the first by the lowest bit, isn't like the row below it.
#[inline(always)]
fn edges_of(rows: &[u32; 24]) -> u64
    ensures { AreEdges rows.now 23 result }
{
    edges::<8>(rows, 0) | edges::<8>(rows, 8) << 8 | edges::<8>(rows, 15) << 15
}

/// Which of 24 rows, the first by the lowest bit, has a black dot.
#[inline(always)]
fn inked_of(rows: &[u32; 24]) -> u64
    ensures { AreInked rows.now 24 result }
{
    inked::<8>(rows, 0) | inked::<8>(rows, 8) << 8 | inked::<8>(rows, 16) << 16
}

/// How many bits of a number from bit s on are 0 before the first that is 1.
#[inline(always)]
fn zeros_from(bits: u64, s: u32) -> u32
    requires { s ≤ 24 }
    ensures few { result ≤ 64 }
    ensures zeros { (r : ℕ) → s ≤ r → r < s + result → bit bits r ≡ false }
{
    (bits >> s).trailing_zeros()
}

/// The first dots of the rows of the sheet on which a line stands, and which of them are to be looked at.
#[derive(Clone, Copy)]
pub struct SheetRows {
    pub rows: [u32; 24],
    edges: u64,
    inked: u64,
    ghost edges_are: { AreEdges rows 23 edges },
    ghost inked_are: { AreInked rows 24 inked },
}

impl SheetRows {
    /// These rows.
    #[inline(always)]
    pub fn of(rows: [u32; 24]) -> SheetRows
        ensures { result.rows ≡ rows }
    {
        SheetRows {
            rows,
            edges: edges_of(&rows),
            inked: inked_of(&rows),
        }
    }

    /// The first row from row s on that has a black dot, or 24.
    #[inline(always)]
    fn next_inked(&self, s: u32) -> u32
        requires { s ≤ 24 }
        ensures from { s ≤ result }
        ensures within { result ≤ 24 }
        ensures white { (r : ℕ) → s ≤ r → r < result → slice_index self.now.rows r ≡ 0 }
    {
        (s + zeros_from(self.inked, s)).min(24)
    }

    /// The row behind row s and those below it that are like it.
    #[inline(always)]
    fn end_of(&self, s: u32) -> u32
        requires { s < 24 }
        ensures some { s < result }
        ensures within { result ≤ 24 }
        ensures alike { (r : ℕ) → s ≤ r → r < result
            → slice_index self.now.rows r ≡ slice_index self.now.rows s }
    {
        (s + 1 + zeros_from(self.edges, s)).min(24)
    }
}

/// On which rows of a cell those of the sheet are shown.
#[derive(Drop)]
struct Starts {
    /// How many rows high the cell is drawn in all.
    high: u32,
    /// The first row that shows row s of 24, and behind them all the end.
    rows: [u32; 25],
    ghost are: { (s : ℕ) → s ≤ 24 → slice_index rows s ≡ (s * high + 23) / 24 },
}

impl Starts {
    /// Those of a cell that is drawn `high` rows high.
    fn of(high: u32) -> Starts
        ensures { result.high ≡ high }
    {
        let mut rows = [0; 25];
        for s in 0..25u32 {
            rows[s as usize] = first_row(s, high);
        }
        Starts { high, rows }
    }

    /// The first row that shows row s of 24, or the end.
    #[inline(always)]
    fn first(&self, s: u32) -> u32
        requires { s ≤ 24 }
        ensures row { result ≡ (s * self.now.high + 23) / 24 }
        ensures within { result ≤ self.now.high }
    {
        self.rows[s as usize]
    }
}

/// Adds to the fronts of the first `seen` of N rows, the first of which is row `top`, the rows of the sheet
/// that are drawn as high as a cell from row `above` on: those that are alike at once.
fn spread<const N: usize>(
    shown: &SheetRows,
    above: u32,
    starts: &Starts,
    top: u32,
    seen: usize,
    groups: &mut [u32; GROUPS],
    fronts: &mut [u32; N],
)
    requires high { above + starts.now.high < 2 ^ 32 }
    requires seen { seen ≤ N }
    ensures { (i x : ℕ) → i < seen → x < 32 → front_dot GROUP groups.new fronts.new i x
        ≡ (front_dot GROUP groups.old fronts.old i x || nat_le above (top + i)
        && nat_lt (top + i - above) starts.now.high
        && half_dot (slice_index shown.now.rows ((top + i - above) * 24 / starts.now.high)) x) }
{
    let mut s = shown.next_inked(0);
    while s < 24 {
        let behind = shown.end_of(s);
        let from = rows_above(above + starts.first(s), top, seen);
        let to = rows_above(above + starts.first(behind), top, seen);
        blacken_run(shown.rows[s as usize], from, to, groups, fronts);
        s = shown.next_inked(behind);
    }
}

impl<A: Small> Block<'_, A> {
    /// Adds the lines to the fronts of the first `seen` of N rows, the first of which is row `top`, and to
    /// those of their groups: how many pieces are handed out, and how many of the cells drawn.
    fn add_lines<const N: usize>(
        &self,
        top: u32,
        at: i64,
        seen: usize,
        groups: &mut [u32; GROUPS],
        fronts: &mut [u32; N],
    ) -> u64
        requires wide { self.now.w ≤ self.now.wide }
        requires few { N < 2 ^ 32 }
        requires seen { seen ≤ N }
        requires white { (i x : ℕ) → front_dot GROUP groups.old fronts.old i x ≡ false }
        ensures added { (i x : ℕ) → i < seen → x < 32
            → top + i < block_height self.now.h self.now.rows self.now.pitch
            → front_dot GROUP groups.new fronts.new i x
            ≡ shifted at (λ x. block_dot (layout_of self.now) self.now.text.now x (top + i)) x }
        ensures most { result ≤ 2 * line_pieces self.now.text.now }
        ensures none { result ≡ 0 → (i x : ℕ) → front_dot GROUP groups.new fronts.new i x ≡ false }
    {
        let most = (self.wide / self.w) as usize;
        let starts = Starts::of(self.h);
        let (above, text) = self.first_line(top);
        let mut place = above;
        let mut left = Some(text);
        let mut kept = KeptLines::new(text);
        let mut counter = 0u64;
        while let Some(text) = left {
            if u64::from(top) + seen as u64 <= u64::from(place * self.pitch) {
                return counter;
            }
            if self.pitch == 0 || place + 1 >= self.rows {
                let shown = SheetRows::of(self.joined(text, at, &mut counter));
                spread(
                    &shown,
                    place * self.pitch,
                    &starts,
                    top,
                    seen,
                    groups,
                    fronts,
                );
                return counter;
            }
            let (line, rest) = hand_line(text, most, &mut counter);
            self.keep(line, at, &mut kept, &mut counter);
            spread(
                kept.latest(),
                place * self.pitch,
                &starts,
                top,
                seen,
                groups,
                fronts,
            );
            place = (place + 1).min(self.rows.saturating_sub(1));
            left = rest;
        }
        counter
    }

    /// Draws the first 32 dots of the first `seen` of N rows, each moved by an offset and black where row
    /// top, top + 1, .. has ink, on halves of words that are white: how many pieces are handed out, lines and
    /// their cells, and how many of the cells drawn.
    pub fn draw_fronts<const N: usize>(
        &self,
        top: u32,
        at: i64,
        seen: usize,
        fronts: &mut [u32; N],
    ) -> u64
        requires few { N < 2 ^ 32 }
        requires seen { seen ≤ N }
        requires white { (i : ℕ) → slice_index fronts.old i ≡ 0 }
        ensures drawn { (i x : ℕ) → i < seen → x < 32
            → top + i < block_height self.now.h self.now.rows self.now.pitch
            → half_dot (slice_index fronts.new i) x
            ≡ shifted at (λ x. block_dot (layout_of self.now) self.now.text.now x (top + i)) x }
        ensures most { result ≤ 2 * block_pieces self.now.text.now }
        ensures some { (i x : ℕ) → i < N → x < 32 → half_dot (slice_index fronts.new i) x ≡ true
            → 0 < result }
    {
        if self.wide < self.w {
            return 0;
        }
        let mut groups = [0u32; GROUPS];
        let counter = self.add_lines(top, at, seen, &mut groups, fronts);
        settle(&groups, fronts);
        counter
    }
}
