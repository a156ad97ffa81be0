//! A row that is the same from both ends: ink from its edges inwards.
ghost use Rattle.std.specs.Prelude.{◌≡◌, ◌<◌, ◌≤◌, ◌+◌, ◌-◌, ◌*◌, nat_le};
ghost use Rattle.vp_dots.specs.Dots.{shifted};
ghost use Rattle.vp_dots.specs.Painting.{Painted};
ghost use Rattle.vp_shapes.specs.Sides.{sides_dot, mirrored};

use vp_dots::{Op, fill_moved};

/// The ink of a row of `width` dots: all but the first and the last `outer` dots, and but those that have
/// `inner` dots or more on both sides.
#[derive(Clone, Copy)]
pub(crate) struct Sides {
    pub width: u32,
    pub outer: u32,
    pub inner: u32,
}

impl Sides {
    /// A row without ink.
    pub fn none(width: u32) -> Sides
        ensures { result ≡ record { width = width; outer = width; inner = width } }
    {
        Sides {
            width,
            outer: width,
            inner: width,
        }
    }

    /// Whether dot x has ink.
    pub fn ink(self, x: u32) -> bool
        ensures { result ≡ sides_dot self x }
    {
        let near = |edge: u32| edge <= x && x < self.width.saturating_sub(edge);
        near(self.outer) && !near(self.inner)
    }

    /// Applies the operation to the dots with ink, moved by an offset.
    pub fn paint(self, op: Op, at: i64, row: &mut [u8])
        ensures { Painted op (shifted at (sides_dot self)) row.old row.new }
    {
        let right = self.width.saturating_sub(self.outer);
        let hole = self.width.saturating_sub(self.inner);
        if hole <= self.inner {
            fill_moved(op, at, self.outer, right, row);
            return;
        }
        fill_moved(op, at, self.outer, self.inner, row);
        fill_moved(op, at, hole, right, row);
    }
}

/// How far place x, of so many, is from the nearer end.
pub(crate) fn from_end(x: u32, length: u32) -> u32
    requires { x < length }
    ensures { result ≡ mirrored length x }
{
    x.min(length - 1 - x)
}
