//! Boxes with round corners.
ghost use Rattle.std.specs.Prelude.{◌≡◌, ◌<◌, ◌≤◌, ◌+◌, ◌-◌, ◌*◌, ◌^◌, ◌&&◌, ℕ, nat_le, nat_lt};
ghost use Rattle.vp_shapes.specs.Ellipses.{ring_dot, square};
ghost use Rattle.vp_shapes.specs.RoundCorners.{radius, beyond, distance, in_hollow, rounded_dot};
ghost use Rattle.vp_shapes.specs.Sides.{amid, mirrored, sides_dot};

use crate::sides::{Sides, from_end};
use vp_dots::{Ink, Op};

/// A box whose corners are arcs, and whose line is so many dots thick.
#[derive(Clone, Copy, Debug, PartialEq, Eq)]
pub struct Rounded {
    /// The width, in dots.
    pub width: u16,
    /// The height, in dots.
    pub height: u16,
    /// How thick the line is, in dots: where it is half a side or more the box is filled.
    pub thickness: u16,
    /// The radius of the corners, in eighths of half the shorter side: 0 to 8.
    pub rounding: u8,
}

/// How many dots at each end of a row lie more than `room` sixteenths outside of the arc's centre.
#[tactic(auto, using(crate::proofs::Edges::cut_off, crate::proofs::Edges::far_enough))]
fn cut(radius: u32, room: u32) -> u32
    requires { radius < 2 ^ 24 }
    ensures { (length x : ℕ) → x < length → nat_le (beyond radius length x) room ≡ amid length result x }
{
    (radius.saturating_sub(room) + 7) / 16
}

/// The outer edges of a row whose dots lie `down` sixteenths outside of the arc's centre.
#[tactic(auto, using(crate::proofs::Edges::sum_within, crate::proofs::Edges::below_root))]
fn outer_edge(radius: u32, down: u32) -> u32
    requires most { radius < 2 ^ 24 }
    requires down { down ≤ radius }
    ensures { (length x : ℕ) → x < length
        → nat_le (square (beyond radius length x) + square down) (square radius) ≡ amid length result x }
{
    let (r, v) = (u64::from(radius), u64::from(down));
    cut(radius, (r * r - v * v).isqrt() as u32)
}

impl Rounded {
    /// The radius of the corners, in sixteenths of a dot.
    fn radius(self) -> u32
        ensures radius { result ≡ radius self.width self.height self.rounding }
        ensures most { result < 2 ^ 24 }
    {
        u32::from(self.rounding) * u32::from(self.width.min(self.height))
    }

    /// The inner edges of a row that is `near` rows from the nearer end, and whose dots lie `down` sixteenths
    /// outside of the arc's centre: the width where it has none.
    fn inner_edge(self, near: u32, down: u32) -> u32
        requires { down < 2 ^ 24 }
        ensures { (x : ℕ) → x < self.width → (nat_le self.thickness (mirrored self.width x)
            && (nat_le self.thickness near
            && nat_le (square (beyond (radius self.width self.height self.rounding) self.width x) + square down)
            (square (radius self.width self.height self.rounding - 16 * self.thickness) - 1)))
            ≡ amid self.width result x }
    {
        let thickness = u32::from(self.thickness);
        let radius = self.radius();
        let r = u64::from(radius.saturating_sub(16 * thickness));
        let most = (r * r).saturating_sub(1);
        let v = u64::from(down);
        if near < thickness || v * v > most {
            return u32::from(self.width);
        }
        cut(radius, (most - v * v).isqrt() as u32).max(thickness)
    }

    /// Row y.
    #[tactic(auto, unfolding(crate::specs::RoundCorners::rounded_dot))]
    fn sides(self, y: u32) -> Sides
        ensures { (x : ℕ) → sides_dot result x
            ≡ rounded_dot self.width self.height self.thickness self.rounding x y }
    {
        let width = u32::from(self.width);
        let height = u32::from(self.height);
        if y >= height {
            return Sides::none(width);
        }
        let near = from_end(y, height);
        let radius = self.radius();
        let down = radius.saturating_sub(16 * near + 8);
        Sides {
            width,
            outer: outer_edge(radius, down),
            inner: self.inner_edge(near, down),
        }
    }
}

impl Ink for Rounded {
    ghost use Rattle.vp_shapes.specs.RoundCorners.{no_ink_outside};

    ghost width = { λ s. s.width };

    ghost height = { λ s. s.height };

    ghost ink_at = { λ s x y. rounded_dot s.width s.height s.thickness s.rounding x y };

    ghost outside = { λ s x y h. no_ink_outside s.width s.height s.thickness s.rounding x y h };

    fn size(&self) -> (u32, u32) {
        (u32::from(self.width), u32::from(self.height))
    }

    fn ink(&self, x: u32, y: u32) -> bool {
        self.sides(y).ink(x)
    }

    fn paint_row(&self, y: u32, op: Op, at: i64, row: &mut [u8]) {
        self.sides(y).paint(op, at, row);
    }
}

/// A box with equal sides and a rounding of 8 is a circle, dot for dot.
pub fn circle_law(side: u16, thickness: u16)
    ensures { (x y : ℕ) → rounded_dot side side thickness 8 x y ≡ ring_dot side side thickness x y }
{}
