//! A symbol as ink: each module a square of dots.

ghost use Rattle.std.specs.Prelude.{◌≡◌, ◌<◌, ◌≤◌};

use crate::symbol::Aztec;
use std::alloc::AllocError;
use vp_dots::Ink;

/// A symbol as ink, without a quiet zone.
pub struct AztecInk<'a> {
    symbol: &'a Aztec,
    /// Dots in a row of a module, and in a column.
    scale: u32,
    ghost some: { 0 < scale },
    ghost most: { scale ≤ 64 },
}

impl Copy for AztecInk<'_> {}

impl Clone for AztecInk<'_> {
    fn clone(&self) -> Result<Self, AllocError> {
        Ok(*self)
    }
}

impl Aztec {
    /// The symbol with modules of `scale` by `scale` dots, 1 to 64.
    pub fn scaled(&self, scale: u32) -> AztecInk<'_>
        requires some { 0 < scale }
        requires most { scale ≤ 64 }
        ensures symbol { result.symbol.now ≡ self.now }
        ensures scale { result.scale ≡ scale }
    {
        AztecInk {
            symbol: self,
            scale,
        }
    }
}

impl Ink for AztecInk<'_> {
    ghost use Rattle.vp_aztec.specs.Inks.{wide, ink_of, no_ink_outside};

    ghost width = { λ s. wide s.symbol.now s.scale };

    ghost height = { λ s. wide s.symbol.now s.scale };

    ghost ink_at = { λ s x y. ink_of s.symbol.now s.scale x y };

    ghost outside = { λ s x y h. no_ink_outside s.symbol.now s.scale x y h };

    fn size(&self) -> (u32, u32) {
        let side = self.scale * self.symbol.side() as u32;
        (side, side)
    }

    fn ink(&self, x: u32, y: u32) -> bool {
        let (width, height) = self.size();
        if x >= width || y >= height {
            return false;
        }
        self.symbol
            .module((x / self.scale) as usize, (y / self.scale) as usize)
    }

    fn alike(&self, y: u32) -> (u32, u32) {
        if y >= self.scale * self.symbol.side() as u32 {
            return (y, y);
        }
        let first = y / self.scale * self.scale;
        (first, first + self.scale - 1)
    }
}
