//! Ellipses and circles.
ghost use Rattle.std.specs.Prelude.{◌≡◌, ◌<◌, ◌≤◌, ◌+◌, ◌-◌, ◌*◌, ℕ, ◌&&◌, ◌^◌, nat_le, nat_lt};
ghost use Rattle.vp_shapes.specs.Ellipses.{from_middle, in_ellipse, in_hole, ring_dot, square};
ghost use Rattle.vp_shapes.specs.Sides.{amid, sides_dot};

use crate::sides::Sides;
use vp_dots::{Ink, Op};

/// An ellipse in a box, or a circle where its sides are equal, whose line is so many dots thick.
#[derive(Clone, Copy, Debug, PartialEq, Eq)]
pub struct Ring {
    /// The width of the box, in dots.
    pub width: u16,
    /// The height of the box, in dots.
    pub height: u16,
    /// How many dots the inner ellipse lies within the outer one, on each side: where it is half a side or
    /// more the ellipse is filled.
    pub thickness: u16,
}

/// How far the centre of place y is from the middle of so many, in halves.
fn from_middle(y: u32, length: u32) -> u32
    requires small { length ≤ 65535 }
    requires within { y < length }
    ensures middle { result ≡ from_middle length y }
    ensures within { result ≤ length }
{
    (2 * y + 1).abs_diff(length)
}

/// How many dots at each end of a row of `width` dots lie farther from its middle than so many half dots.
#[tactic(auto, using(crate::proofs::Edges::near_middle))]
fn beyond(width: u32, reach: u32) -> u32
    ensures { (x : ℕ) → x < width → nat_le (from_middle width x) reach ≡ amid width result x }
{
    width.saturating_sub(reach) / 2
}

/// The farthest that d may be for (d * h)^2 to be within the room.
#[tactic(auto, using(crate::proofs::Edges::reached))]
fn reach(room: u64, h: u64) -> u32
    requires { 0 < h }
    ensures { (d : ℕ) → nat_le (square (d * h)) room ≡ nat_le d result }
{
    (room.isqrt() / h) as u32
}

impl Ring {
    /// The edges of the outer ellipse in row y.
    fn outer(self, y: u32) -> u32
        requires { y < self.height }
        ensures { (x : ℕ) → x < self.width
            → in_ellipse self.width self.height x y ≡ amid self.width result x }
    {
        let (w, h) = (u64::from(self.width), u64::from(self.height));
        let down = u64::from(from_middle(y, u32::from(self.height))) * w;
        beyond(
            u32::from(self.width),
            reach(w * h * (w * h) - down * down, h),
        )
    }

    /// The edges of the inner ellipse in row y: the width where it has none.
    fn inner(self, y: u32) -> u32
        requires { y < self.height }
        ensures { (x : ℕ) → x < self.width
            → in_hole self.width self.height self.thickness x y ≡ amid self.width result x }
    {
        let width = u32::from(self.width);
        let both = 2 * u64::from(self.thickness);
        let w = u64::from(self.width).saturating_sub(both);
        let h = u64::from(self.height).saturating_sub(both);
        let down = u64::from(from_middle(y, u32::from(self.height))) * w;
        if down >= w * h {
            return width;
        }
        beyond(width, reach(w * h * (w * h) - down * down - 1, h))
    }

    /// Row y.
    #[tactic(auto, unfolding(crate::specs::Ellipses::ring_dot))]
    fn sides(self, y: u32) -> Sides
        ensures { (x : ℕ) → sides_dot result x ≡ ring_dot self.width self.height self.thickness x y }
    {
        let width = u32::from(self.width);
        if y >= u32::from(self.height) {
            return Sides::none(width);
        }
        Sides {
            width,
            outer: self.outer(y),
            inner: self.inner(y),
        }
    }
}

impl Ink for Ring {
    ghost use Rattle.vp_shapes.specs.Ellipses.{no_ink_outside};

    ghost width = { λ s. s.width };

    ghost height = { λ s. s.height };

    ghost ink_at = { λ s x y. ring_dot s.width s.height s.thickness x y };

    ghost outside = { λ s x y h. no_ink_outside s.width s.height s.thickness x y h };

    fn size(&self) -> (u32, u32) {
        (u32::from(self.width), u32::from(self.height))
    }

    fn ink(&self, x: u32, y: u32) -> bool {
        self.sides(y).ink(x)
    }

    fn paint_row(&self, y: u32, op: Op, at: i64, row: &mut [u8]) {
        self.sides(y).paint(op, at, row);
    }
}
