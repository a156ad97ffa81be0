//! A half of the page: rows of dots, along which lines of every direction are laid.
ghost use Rattle.std.specs.Prelude.{◌≡◌, ℕ, ◌+◌, ◌-◌, ◌*◌, ◌%◌, ◌^◌, ◌<◌, ◌≤◌, ◌&&◌, true, false, min, nat_eq, nat_le, nat_lt, List, [], IfOk, length, replicate, slice_index, slice_index_or};
ghost use Rattle.vp_dots.specs.Dots.{dot, span};
ghost use Rattle.vp_dots.specs.Places.{RowsPainted};
ghost use Rattle.vp_dots.specs.Words.{word_dot};
ghost use Rattle.vp_dots.specs.declared.Op.TheVariants.{Black, White};
ghost use Rattle.vp_dots.specs.declared.square.TheConstants.{SIDE};
ghost use Rattle.vp_page.specs.Areas.{holds};
ghost use Rattle.vp_page.specs.Halves.{IsOnWords, half_dot};
ghost use Rattle.vp_page.specs.Lines.{row_in};
ghost use Rattle.vp_page.specs.declared.line.TheConstants.{LINE_BYTES};

use crate::along::{lay_times, lay_whole, row_along, stands_on_words, top_of};
use crate::area::{Area, Direction};
use crate::line::{LINE_BYTES, lengthened};
use crate::white::Rows;
use crate::whiten::whiten;
use crate::words::or_eight;
use std::alloc::AllocError;
use std::marker::Model;
use vp_dots::{Band, SIDE, Small, eight_at};

/// H rows of B bytes.
#[derive(Drop)]
pub(crate) struct Half<const B: usize, const H: usize, A: Small> {
    band: Band<B, H, A>,
    /// What is white, but for the rows that were laid on since: so what is white already isn't wiped again.
    white: Area,
    laid: Rows,
}

impl<const B: usize, const H: usize, A: Small> Model for Half<B, H, A> {
    ghost use Rattle.std.specs.Prelude.{ℕ, List, ◌≡◌, ◌≤◌, ◌%◌};
    ghost use Rattle.vp_page.specs.Halves.{IsWhiteBut};
    ghost use Rattle.vp_page.specs.declared.line.TheConstants.{LINE_BYTES};

    ghost Value = { List (List ℕ) };

    ghost view = { λ s. s.band };

    ghost invariant = { λ s. record {
      words : B % 8 ≡ 0;
      few : B ≤ LINE_BYTES;
      white : IsWhiteBut B H s.white s.laid s.band;
    } };
}

/// The dots of 64 rows of a band, from one on, that stand in eight bytes, from one on.
fn square_at<const B: usize, const H: usize, A: Small>(
    band: &Band<B, H, A>,
    y: usize,
    i: usize,
) -> [u64; SIDE]
    requires rows { y + SIDE ≤ H }
    requires bytes { i + 8 ≤ B }
    ensures { (k x : ℕ) → k < SIDE → x < 64 →
        word_dot (slice_index result k) x ≡ dot (slice_index_or band.now (y + k) []) (8 * i + x) }
{
    let mut square = [0; SIDE];
    for k in 0..SIDE {
        square[k] = eight_at(band.row(y + k), i);
    }
    square
}

/// Blackens these dots where those of a square are black.
fn lay_square<const B: usize, const H: usize, A: Small>(
    square: &[u64; SIDE],
    y: usize,
    i: usize,
    band: &mut Band<B, H, A>,
)
    requires rows { y + SIDE ≤ H }
    requires bytes { i + 8 ≤ B }
    ensures { RowsPainted H Black (λ x k. span y (y + SIDE) k && (nat_le (8 * i) x
        && word_dot (slice_index square.now (k - y)) (x - 8 * i))) band.old band.new }
{
    for k in 0..SIDE {
        or_eight(square[k], i, band.row_mut(y + k));
    }
}

impl<const B: usize, const H: usize, A: Small> Half<B, H, A> {
    /// A white half.
    pub fn new(alloc: A, whole: Area) -> Result<Self, AllocError>
        requires words { B % 8 ≡ 0 }
        requires few { B ≤ LINE_BYTES }
        requires small { B * H ≤ 2 ^ 28 }
        ensures { IfOk result (λ half. half ≡ replicate H (replicate B 0)) }
    {
        let band = Band::new(alloc)?;
        Ok(Half {
            band,
            white: whole,
            laid: Rows::none(),
        })
    }

    /// Rows outside of which an area is known to be white.
    pub fn unknown_in(&self, area: Area) -> Rows
        ensures within { result.to ≤ H }
        ensures white { (x y : ℕ) → x < 8 * B → y < H → holds area x y ≡ true →
            span result.from result.to y ≡ false → dot (slice_index_or self.now y []) x ≡ false }
    {
        if self.white.covers(area) {
            return self.laid;
        }
        Rows::all(H)
    }

    /// Lays a line `times` times, one below the other, the first at the depth v of an area.
    pub fn lay_times(
        &mut self,
        area: Area,
        direction: Direction,
        v: usize,
        times: usize,
        line: &[u8; LINE_BYTES],
    )
        requires deep { v + times ≤ area.dy }
        ensures { RowsPainted H Black (half_dot area direction v (λ u w. nat_lt w times && dot line.now u))
            self.old self.new }
    {
        let top = top_of(area, direction, v, times);
        let these = Rows {
            from: top,
            to: top + times,
        };
        self.laid = self.laid.with(these, H);
        let row = row_along(line, area, direction);
        lay_times(&row, times, top, &mut self.band);
    }

    /// Lays rows of `wide` bytes, one behind the other in bytes, that stand on whole words of the half: one
    /// below the other, the first at the depth v of an area.
    pub fn lay_rows(
        &mut self,
        area: Area,
        direction: Direction,
        v: usize,
        wide: usize,
        rows: usize,
        bytes: &[u8],
    )
        requires words { IsOnWords B area direction wide }
        requires deep { v + rows ≤ area.dy }
        requires long { rows * wide ≤ length bytes.now }
        ensures { RowsPainted H Black (half_dot area direction v
            (λ u w. nat_lt w rows && dot (row_in bytes.now wide w) u)) self.old self.new }
    {
        let top = top_of(area, direction, v, rows);
        let these = Rows {
            from: top,
            to: top + rows,
        };
        self.laid = self.laid.with(these, H);
        lay_whole(bytes, wide, rows, area, direction, top, &mut self.band);
    }

    /// Lays a row of dots at the depth v of an area.
    pub fn lay_row(&mut self, area: Area, direction: Direction, v: usize, row: &[u8])
        requires short { length row.now ≤ LINE_BYTES }
        requires deep { v < area.dy }
        ensures { RowsPainted H Black (half_dot area direction v (λ u w. nat_eq w 0 && dot row.now u))
            self.old self.new }
    {
        if stands_on_words::<B>(area, direction, row.len()) {
            self.lay_rows(area, direction, v, row.len(), 1, row);
        } else {
            self.lay_times(area, direction, v, 1, &lengthened(row));
        }
    }

    /// Makes an area white, and tells which of its rows were not known to be.
    pub fn wipe(&mut self, area: Area) -> Rows
        ensures rows { (y : ℕ) → y < H → length (slice_index_or self.new y []) ≡ B }
        ensures white { RowsPainted H White (holds area) self.old self.new }
        ensures most { result.to - result.from ≤ min (area.y + area.dy) H - area.y }
        ensures black { (x y : ℕ) → x < 8 * B → y < H → holds area x y ≡ true →
            dot (slice_index_or self.old y []) x ≡ true → span result.from result.to y ≡ true }
    {
        let rows = self.unknown_in(area).inside(area);
        whiten(area, rows, &mut self.band);
        self.white = area;
        self.laid = Rows::none();
        rows
    }

    /// The dots of 64 rows, from one on, that stand in eight bytes, from one on.
    pub fn square(&self, y: usize, i: usize) -> [u64; SIDE]
        requires rows { y + SIDE ≤ H }
        requires bytes { i + 8 ≤ B }
        ensures { (k x : ℕ) → k < SIDE → x < 64 →
            word_dot (slice_index result k) x ≡ dot (slice_index_or self.now (y + k) []) (8 * i + x) }
    {
        square_at(&self.band, y, i)
    }

    /// Blackens these dots where those of a square are black.
    pub fn lay_square(&mut self, square: &[u64; SIDE], y: usize, i: usize)
        requires rows { y + SIDE ≤ H }
        requires bytes { i + 8 ≤ B }
        ensures { RowsPainted H Black (λ x k. span y (y + SIDE) k && (nat_le (8 * i) x
            && word_dot (slice_index square.now (k - y)) (x - 8 * i))) self.old self.new }
    {
        let these = Rows {
            from: y,
            to: y + SIDE,
        };
        self.laid = self.laid.with(these, H);
        lay_square(square, y, i, &mut self.band);
    }

    /// The bytes of a row.
    pub fn row(&self, y: usize) -> &[u8]
        requires { y < H }
        ensures value { result.now ≡ slice_index_or self.now y [] }
        ensures len { length result.now ≡ B }
    {
        self.band.row(y)
    }

    /// The bytes of memory that it holds, on the heap.
    pub fn memory(&self) -> usize
        ensures { result ≡ H * B }
    {
        self.band.memory()
    }
}
