//! Where modules lie, with x from the left and y from the top.

ghost use Rattle.std.specs.Prelude.{◌≡◌, ◌+◌, ◌-◌, ◌*◌, ◌/◌, ◌%◌, ◌<◌, ◌≤◌};
ghost use Rattle.vp_aztec.specs.Sizes.{IsSound};
ghost use Rattle.vp_aztec.specs.Places.{core, base, side, centre, far, on_grid, along, ring_place, in_layer, bit_place, HaveBits};

use crate::size::Size;

/// How far two columns or two rows are from each other.
pub fn far(a: usize, b: usize) -> usize
    ensures { result ≡ far a b }
{
    if a < b { b - a } else { a - b }
}

impl Size {
    /// How far the ring with the mode message is from the centre.
    pub(crate) fn core(self) -> usize
        ensures { result ≡ core self }
    {
        if self.compact { 5 } else { 7 }
    }

    /// The modules of a side without those of the reference grid.
    pub(crate) fn base(self) -> usize
        requires { IsSound self }
        ensures base { result ≡ base self }
        ensures most { result ≤ 142 }
    {
        4 * self.layers + if self.compact { 11 } else { 14 }
    }

    /// The modules of a side.
    pub fn side(self) -> usize
        requires { IsSound self }
        ensures side { result ≡ side self }
        ensures most { result ≤ 151 }
    {
        let base = self.base();
        if self.compact {
            base
        } else {
            base + 1 + 2 * ((base / 2 - 1) / 15)
        }
    }

    /// The middle column and row.
    pub(crate) fn centre(self) -> usize
        requires { IsSound self }
        ensures centre { result ≡ centre self }
        ensures most { result ≤ 75 }
    {
        self.side() / 2
    }

    /// Whether a module lies on the reference grid.
    pub(crate) fn on_grid(self, x: usize, y: usize) -> bool
        requires { IsSound self }
        ensures { result ≡ on_grid self x y }
    {
        let centre = self.centre();
        !self.compact && (far(x, centre) % 16 == 0 || far(y, centre) % 16 == 0)
    }

    /// A column or row where those of the grid are left out.
    #[tactic(auto, unfolding(crate::specs::Places::along))]
    pub(crate) fn along(self, x: usize) -> usize
        requires sound { IsSound self }
        requires inside { x < side self }
        ensures along { result ≡ along self x }
        ensures most { result < base self }
    {
        if self.compact {
            return x;
        }
        let centre = self.centre();
        let d = far(x, centre);
        if x < centre {
            self.base() / 2 - (d - d / 16)
        } else {
            (self.base() / 2 + (d - d / 16)).saturating_sub(1)
        }
    }
}

/// The number of a module of a ring so far from the centre, clockwise from the upper left corner.
#[tactic(auto, unfolding(crate::specs::Places::ring_place))]
pub fn ring_place(c: usize, r: usize, x: usize, y: usize) -> usize
    requires c { c ≤ 100 }
    requires r { r ≤ 10 }
    requires x { x ≤ 200 }
    requires y { y ≤ 200 }
    ensures place { result ≡ ring_place c r x y }
    ensures most { result ≤ 400 }
{
    if y + r == c && x < c + r {
        (x + r).saturating_sub(c)
    } else if x == c + r && y < c + r {
        2 * r + (y + r).saturating_sub(c)
    } else if y == c + r && c < x + r {
        4 * r + (c + r).saturating_sub(x)
    } else {
        6 * r + (c + r).saturating_sub(y)
    }
}

/// The number of a bit in a layer whose sides take `n` bits twice.
#[tactic(auto, unfolding(crate::specs::Places::in_layer))]
fn in_layer(n: usize, a: usize, b: usize) -> usize
    requires n { n ≤ 200 }
    requires a { a < n + 2 }
    requires b { b < n + 2 }
    ensures place { result ≡ in_layer n a b }
    ensures most { result ≤ 4000 }
{
    if a < 2 && b < n {
        2 * b + a
    } else if a < n && n <= b {
        2 * n + 2 * a + (n + 1 - b)
    } else if n <= a && 2 <= b {
        4 * n + 2 * (n + 1 - b) + (n + 1 - a)
    } else {
        6 * n + 2 * (n + 1 - a) + b
    }
}

/// The number of a module's bit, the outermost layer's first.
#[tactic(auto, unfolding(crate::specs::Places::bit_place))]
pub fn bit_place(base: usize, u: usize, v: usize) -> usize
    requires base { base ≤ 142 }
    requires u { u < base }
    requires v { v < base }
    ensures { result ≡ bit_place base u v }
{
    let layer = u.min(v).min((base - 1 - u).min(base - 1 - v)) / 2;
    8 * layer * (base - 2 * layer)
        + in_layer(
            (base - 4 * layer).saturating_sub(2),
            u - 2 * layer,
            v - 2 * layer,
        )
}

/// Each module of the layers has a bit of its own, of as many as the layers hold.
pub fn bits_law(size: Size)
    ensures { HaveBits size }
{}
