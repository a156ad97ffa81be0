//! What stands in the turned half of a page, turned into the upright one: by squares, of which most are
//! white.
ghost use Rattle.std.specs.Prelude.{◌≡◌, ℕ, ◌+◌, ◌*◌, ◌/◌, ◌<◌, ◌&&◌, nat_lt, false, true, [], slice_index, slice_index_or};
ghost use Rattle.vp_dots.specs.Dots.{dot, span};
ghost use Rattle.vp_dots.specs.Places.{RowsPainted};
ghost use Rattle.vp_dots.specs.Words.{word_dot};
ghost use Rattle.vp_dots.specs.declared.Op.TheVariants.{Black};
ghost use Rattle.vp_dots.specs.declared.square.TheConstants.{SIDE};
ghost use Rattle.vp_page.specs.declared.page.TheConstants.{PAGE_ROWS, PAPER_DOTS};

use crate::page::{PAGE_COLUMNS, PAGE_ROWS, Turned, Upright, WHOLE};
use vp_dots::{SIDE, Small, turned_square};

/// Whether a square is white.
#[inline(always)]
fn is_white(square: &[u64; SIDE]) -> bool
    ensures { result ≡ true → (k x : ℕ) → k < SIDE → x < 64 → word_dot (slice_index square.now k) x ≡ false }
{
    let mut black = 0;
    for k in 0..SIDE {
        black |= square[k];
    }
    black == 0
}

/// Turns one square: of 64 columns of the page the dots on 64 of its rows.
fn turn_square<A: Small>(turned: &Turned<A>, column: usize, row: usize, upright: &mut Upright<A>)
    requires columns { column < PAPER_DOTS / SIDE }
    requires rows { row < PAGE_ROWS / SIDE }
    ensures { RowsPainted PAGE_ROWS Black (λ x y. span (SIDE * column) (SIDE * (column + 1)) x
        && (span (SIDE * row) (SIDE * (row + 1)) y && dot (slice_index_or turned.now x []) y))
        upright.old upright.new }
{
    let square = turned.square(SIDE * column, 8 * row);
    if is_white(&square) {
        return;
    }
    upright.lay_square(&turned_square(&square), SIDE * row, 8 * column);
}

/// Turns the squares of 64 columns of the page.
fn turn_columns<A: Small>(turned: &Turned<A>, column: usize, upright: &mut Upright<A>)
    requires { column < PAPER_DOTS / SIDE }
    ensures { RowsPainted PAGE_ROWS Black (λ x y. span (SIDE * column) (SIDE * (column + 1)) x
        && dot (slice_index_or turned.now x []) y) upright.old upright.new }
{
    for row in 0..PAGE_ROWS / SIDE {
        turn_square(turned, column, row, upright);
    }
}

/// Blackens the upright half where a column of the turned one is black.
pub(crate) fn turn<A: Small>(turned: &Turned<A>, upright: &mut Upright<A>)
    ensures { RowsPainted PAGE_ROWS Black
        (λ x y. nat_lt x PAPER_DOTS && dot (slice_index_or turned.now x []) y) upright.old upright.new }
{
    let columns = turned.unknown_in(WHOLE.turned());
    let first = columns.from / SIDE;
    for i in 0..columns.to.div_ceil(SIDE).saturating_sub(first) {
        turn_columns(turned, first + i, upright);
    }
}
