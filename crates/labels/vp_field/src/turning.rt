//! Which way a field is turned.
ghost use Rattle.std.specs.Prelude.{◌≡◌};
ghost use Rattle.vp_field.specs.Turning.{turned_height, DotsFall};

use vp_zpl::item::Orientation;

/// How many rows a box of w by h has that is turned.
pub fn turned_rows(orientation: Orientation, w: u32, h: u32) -> u32
    ensures { result ≡ turned_height orientation w h }
{
    match orientation {
        Orientation::Rotated | Orientation::BottomUp => w,
        Orientation::Normal | Orientation::Inverted => h,
    }
}

/// A law: a place of a turned box has ink exactly where a dot with ink falls on it.
pub fn dots_fall()
    ensures { DotsFall }
{}
