//! Where a field stands.
ghost use Rattle.std.specs.Prelude.{◌≡◌, ◌+◌, ◌^◌, ℤ, pos, neg_ℤ, ◌-ℤ◌, ◌≤ℤ◌};
ghost use Rattle.vp_closing.specs.Positions.{left_of, top_of};

use vp_label_settings::{Home, Origin};
use vp_zpl::item::Orientation;

/// The place `dots` before a coordinate that is counted from the home's.
fn before(home: u16, coordinate: u16, dots: u32) -> i64
    ensures is { result ≡ pos (home + coordinate) -ℤ pos dots }
    ensures low { neg_ℤ (pos (2 ^ 32)) ≤ℤ result }
    ensures high { result ≤ℤ pos (2 ^ 32) }
{
    i64::from(u32::from(home) + u32::from(coordinate)) - i64::from(dots)
}

/// A coordinate that is counted from the home's.
fn from_home(home: u16, coordinate: u16) -> i64
    ensures is { result ≡ pos (home + coordinate) }
    ensures low { neg_ℤ (pos (2 ^ 32)) ≤ℤ result }
    ensures high { result ≤ℤ pos (2 ^ 32) }
{
    i64::from(u32::from(home) + u32::from(coordinate))
}

/// The leftmost column of the turned box of a field, which is w by h before it is turned.
pub fn left_of(home: Home, origin: Origin, orientation: Orientation, w: u32, h: u32) -> i64
    ensures left { result ≡ left_of home origin orientation w h }
    ensures low { neg_ℤ (pos (2 ^ 32)) ≤ℤ result }
    ensures high { result ≤ℤ pos (2 ^ 32) }
{
    match (origin, orientation) {
        (Origin::LowerLeft { x, .. }, Orientation::Inverted) => before(home.x, x, w),
        (Origin::LowerLeft { x, .. }, Orientation::BottomUp) => before(home.x, x, h),
        (Origin::UpperLeft { x, .. } | Origin::LowerLeft { x, .. }, _) => from_home(home.x, x),
    }
}

/// Its topmost row.
pub fn top_of(home: Home, origin: Origin, orientation: Orientation, w: u32, h: u32) -> i64
    ensures top { result ≡ top_of home origin orientation w h }
    ensures low { neg_ℤ (pos (2 ^ 32)) ≤ℤ result }
    ensures high { result ≤ℤ pos (2 ^ 32) }
{
    match (origin, orientation) {
        (Origin::LowerLeft { y, .. }, Orientation::Normal) => before(home.y, y, h),
        (Origin::LowerLeft { y, .. }, Orientation::BottomUp) => before(home.y, y, w),
        (Origin::UpperLeft { y, .. } | Origin::LowerLeft { y, .. }, _) => from_home(home.y, y),
    }
}
