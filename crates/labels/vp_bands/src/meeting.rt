//! Which bands of a label a box meets.
ghost use Rattle.std.specs.Prelude.{◌≡◌, ℕ, ◌*◌, ◌^◌, ◌<◌, ◌≤◌, ◌&&◌, nat_le, nat_lt, ℤ, pos, neg_ℤ, ◌-ℤ◌, ◌≤ℤ◌, int_le, int_lt};
ghost use Rattle.vp_field.specs.Views.{seen_y};
ghost use Rattle.vp_bands.specs.Meeting.{is_among, shows_row, box_meets};
ghost use Rattle.vp_label_size.specs.declared.TheConstants.{BAND_ROWS};

use vp_field::View;
use vp_label_size::BAND_ROWS;

/// The rows of a band.
const BAND: u32 = BAND_ROWS as u32;

/// The most bands of a label, each of `BAND_ROWS` rows.
pub const BANDS: usize = 250;

/// Where a box of `rows` rows from `top` on begins in a label of `height` rows, counted from its last.
fn from_end(height: u32, top: i64, rows: u32) -> i64
    requires low { neg_ℤ (pos (2 ^ 32)) ≤ℤ top }
    requires high { top ≤ℤ pos (2 ^ 32) }
    ensures is { result ≡ pos height -ℤ top -ℤ pos rows }
    ensures low { neg_ℤ (pos (2 ^ 40)) ≤ℤ result }
    ensures high { result ≤ℤ pos (2 ^ 40) }
{
    i64::from(height) - top - i64::from(rows)
}

/// The first row, in the label as it is put out, of a box of `rows` rows from row `top` of the label on.
fn seen_top(view: View, top: i64, rows: u32) -> i64
    requires low { neg_ℤ (pos (2 ^ 32)) ≤ℤ top }
    requires high { top ≤ℤ pos (2 ^ 32) }
    ensures rows { (y : ℕ) → is_among result rows (pos y) ≡ is_among top rows (seen_y view (pos y)) }
    ensures low { neg_ℤ (pos (2 ^ 40)) ≤ℤ result }
    ensures high { result ≤ℤ pos (2 ^ 40) }
{
    if view.inverted {
        from_end(view.height, top, rows)
    } else {
        top
    }
}

/// The row behind `rows` rows from `top` on.
fn behind(top: i64, rows: u32) -> i64
    requires low { neg_ℤ (pos (2 ^ 40)) ≤ℤ top }
    requires high { top ≤ℤ pos (2 ^ 40) }
    ensures { (y : ℕ) → (int_le top (pos y) && int_lt (pos y) result) ≡ is_among top rows (pos y) }
{
    top + i64::from(rows)
}

/// The place of 0 to `size` that is nearest to a place.
fn clamped(place: i64, size: u32) -> u32
    ensures within { result ≤ size }
    ensures from_on { (d : ℕ) → d < size → nat_le result d ≡ int_le place (pos d) }
    ensures up_to { (d : ℕ) → d < size → nat_lt d result ≡ int_lt (pos d) place }
{
    if place < 0 {
        0
    } else if place < i64::from(size) {
        place as u32
    } else {
        size
    }
}

/// The rows of the label as it is put out that show one of a box's `rows` rows from `top` on: from the first
/// result on, to before the second.
fn rows_shown(view: View, top: i64, rows: u32) -> (u32, u32)
    requires low { neg_ℤ (pos (2 ^ 32)) ≤ℤ top }
    requires high { top ≤ℤ pos (2 ^ 32) }
    ensures within { result.1 ≤ view.height }
    ensures rows { (y : ℕ) → shows_row view top rows y ≡ (nat_le result.0 y && nat_lt y result.1) }
{
    let top = seen_top(view, top, rows);
    (
        clamped(top, view.height),
        clamped(behind(top, rows), view.height),
    )
}

/// The first and the last band that a box of `rows` rows meets, the topmost of which is row `top` of its
/// label; the last comes before the first where it meets none.
pub fn span(view: View, top: i64, rows: u32) -> (usize, usize)
    requires low { neg_ℤ (pos (2 ^ 32)) ≤ℤ top }
    requires high { top ≤ℤ pos (2 ^ 32) }
    ensures bands { (b : ℕ) → (nat_le result.0 b && nat_le b result.1) ≡ box_meets view top rows b }
    ensures placed { view.height ≤ BAND_ROWS * BANDS → result.0 ≤ result.1 → result.0 < BANDS }
{
    let (from, to) = rows_shown(view, top, rows);
    if from < to {
        ((from / BAND) as usize, ((to - 1) / BAND) as usize)
    } else {
        (1, 0)
    }
}
