//! A symbol as ink: hexagons and rings in dots.

ghost use Rattle.std.specs.Prelude.{◌≡◌, ◌+◌, ◌*◌, ◌<◌, ◌≤◌};
ghost use Rattle.vp_maxicode.specs.Inks.{far, in_hexagon, in_module, in_modules, square, between, in_rings};

use crate::symbol::MaxiCode;
use std::alloc::AllocError;
use vp_dots::Ink;

/// A symbol as ink at 8 dots a millimetre, 210 by 199 dots, without a quiet zone.
pub struct MaxiCodeInk<'a> {
    symbol: &'a MaxiCode,
}

impl Copy for MaxiCodeInk<'_> {}

impl Clone for MaxiCodeInk<'_> {
    fn clone(&self) -> Result<Self, AllocError> {
        Ok(*self)
    }
}

/// How far two numbers are from each other.
fn far(a: u32, b: u32) -> u32
    ensures far { result ≡ far a b }
    ensures most { result ≤ a + b }
{
    if a < b { b - a } else { a - b }
}

/// Whether a dot of a box of six by seven dots lies in its hexagon.
fn in_hexagon(x: u32, y: u32) -> bool
    requires x { x < 1000 }
    requires y { y < 1000 }
    ensures { result ≡ in_hexagon x y }
{
    let u = far(2 * x + 1, 6);
    let v = far(2 * y + 1, 7);
    7 * u <= 40 && 7 * u + 12 * v <= 80
}

/// The square of a number.
fn squared(n: u32) -> u32
    requires { n ≤ 1000 }
    ensures square { result ≡ n * n }
    ensures most { result ≤ 1000000 }
{
    n * n
}

/// Whether a diameter's circle and a smaller one have a dot between them.
fn between(inner: u32, outer: u32, q: u32) -> bool
    requires inner { inner ≤ 100 }
    requires outer { outer ≤ 100 }
    ensures { result ≡ between inner outer q }
{
    inner * inner < q && q <= outer * outer
}

/// Whether a dot lies in the finder's rings.
#[tactic(auto, unfolding(crate::specs::Inks::in_rings))]
fn in_rings(x: u32, y: u32) -> bool
    requires x { x < 800 }
    requires y { y < 800 }
    ensures { result ≡ in_rings x y }
{
    let q = 4 * (squared(far(x, 104)) + squared(far(y, 99)));
    between(8, 19, q) || between(30, 41, q) || between(52, 63, q)
}

impl MaxiCode {
    /// The symbol as ink at 8 dots a millimetre.
    pub fn inked(&self) -> MaxiCodeInk<'_>
        ensures { result.symbol.now ≡ self.now }
    {
        MaxiCodeInk { symbol: self }
    }

    /// Whether a dot lies in a dark module of a row.
    #[tactic(auto, unfolding(crate::specs::Inks::in_module))]
    fn in_module(&self, row: u32, x: u32, y: u32) -> bool
        requires row { row < 100 }
        requires x { x < 1000 }
        requires y { y < 1000 }
        ensures { result ≡ in_module self.now row x y }
    {
        let left = 3 * (row % 2);
        left <= x
            && in_hexagon((x - left) % 7, y.saturating_sub(6 * row))
            && self.is_dark(row as usize, ((x - left) / 7) as usize)
    }

    /// Whether a dot lies in a dark module.
    #[tactic(auto, unfolding(crate::specs::Inks::in_modules))]
    fn in_modules(&self, x: u32, y: u32) -> bool
        requires x { x < 210 }
        requires y { y < 199 }
        ensures { result ≡ in_modules self.now x y }
    {
        self.in_module(y / 6, x, y) || y % 6 == 0 && y >= 6 && self.in_module(y / 6 - 1, x, y)
    }
}

impl Ink for MaxiCodeInk<'_> {
    ghost use Rattle.vp_maxicode.specs.Inks.{wide, high, ink_of, no_ink_outside};

    ghost width = { λ s. wide };

    ghost height = { λ s. high };

    ghost ink_at = { λ s x y. ink_of s.symbol.now x y };

    ghost outside = { λ s x y h. no_ink_outside s.symbol.now x y h };

    fn size(&self) -> (u32, u32) {
        (210, 199)
    }

    fn ink(&self, x: u32, y: u32) -> bool {
        x < 210 && y < 199 && (in_rings(x, y) || self.symbol.in_modules(x, y))
    }
}
