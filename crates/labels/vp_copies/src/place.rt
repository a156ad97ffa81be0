//! What has to be ready for the next byte, and where it is behind bytes of a copy.
ghost use Rattle.std.specs.Prelude.{◌≡◌, ◌<◌};
ghost use Rattle.vp_copies.specs.Copies.{ahead, at, painted_for, place_after};

use vp_label_size::BAND_ROWS;
use vp_output::{Line, Place};

/// What has to be ready before the next byte is put out.
#[derive(Clone, Copy, Debug, PartialEq, Eq)]
pub enum Ahead {
    /// Nothing that isn't.
    Nothing,
    /// A copy, which begins behind one of more than one band.
    Copy,
    /// The band that begins, by its number from 0.
    Band(usize),
}

/// What has to be ready before a byte of a line is put out, where `painted` bands were painted.
pub fn wanted(painted: usize, line: Line) -> Ahead
    ensures { result ≡ ahead painted line }
{
    match line {
        Line::Head => {
            if painted > 1 {
                Ahead::Copy
            } else {
                Ahead::Nothing
            }
        }
        Line::Row(y) => {
            let band = y as usize / BAND_ROWS;
            if painted > band {
                Ahead::Nothing
            } else {
                Ahead::Band(band)
            }
        }
    }
}

/// How many bands of the line's copy are painted once that is ready.
pub fn painted_then(painted: usize, line: Line) -> usize
    ensures { result ≡ painted_for painted line }
{
    match line {
        Line::Head => { if painted > 1 { 0 } else { painted } }
        Line::Row(y) => y as usize / BAND_ROWS + 1,
    }
}

/// How many copies are left behind bytes of one, and the place in the first of them.
pub fn behind(copies: u32, next: Option<Place>) -> (u32, Place)
    requires { 0 < copies }
    ensures { at result.0 result.1 ≡ place_after copies next }
{
    match next {
        Some(place) => (copies, place),
        None => (copies - 1, Place::start()),
    }
}
