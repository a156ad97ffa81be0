//! A symbol as ink.

ghost use Rattle.std.specs.Prelude.{◌≡◌, ◌<◌, ◌≤◌};

use crate::symbol::Pdf417;
use std::alloc::AllocError;
use vp_dots::Ink;

/// A symbol as ink, without a quiet zone.
pub struct Pdf417Ink<'a> {
    symbol: &'a Pdf417,
    /// Dots in a row of a module.
    scale: u32,
    /// Dots in a column of a row of modules.
    high: u32,
    ghost some: { 0 < scale },
    ghost most: { scale ≤ 64 },
    ghost high_some: { 0 < high },
    ghost high_most: { high ≤ 1000 },
}

impl Copy for Pdf417Ink<'_> {}

impl Clone for Pdf417Ink<'_> {
    fn clone(&self) -> Result<Self, AllocError> {
        Ok(*self)
    }
}

impl Pdf417 {
    /// The symbol with modules of `scale` by `high` dots.
    pub fn scaled(&self, scale: u32, high: u32) -> Pdf417Ink<'_>
        requires some { 0 < scale }
        requires most { scale ≤ 64 }
        requires high_some { 0 < high }
        requires high_most { high ≤ 1000 }
        ensures symbol { result.symbol.now ≡ self.now }
        ensures scale { result.scale ≡ scale }
        ensures high { result.high ≡ high }
    {
        Pdf417Ink {
            symbol: self,
            scale,
            high,
        }
    }
}

impl Ink for Pdf417Ink<'_> {
    ghost use Rattle.vp_pdf417.specs.Inks.{wide, tall, ink_of, no_ink_outside};

    ghost width = { λ s. wide s.symbol.now s.scale };

    ghost height = { λ s. tall s.symbol.now s.high };

    ghost ink_at = { λ s x y. ink_of s.symbol.now s.scale s.high x y };

    ghost outside = { λ s x y h. no_ink_outside s.symbol.now s.scale s.high x y h };

    fn size(&self) -> (u32, u32) {
        (
            self.scale * self.symbol.across() as u32,
            self.high * self.symbol.size().rows as u32,
        )
    }

    fn ink(&self, x: u32, y: u32) -> bool {
        let (width, height) = self.size();
        if x >= width || y >= height {
            return false;
        }
        let row = (y / self.high) as usize;
        self.symbol.is_dark(row, (x / self.scale) as usize)
    }

    fn alike(&self, y: u32) -> (u32, u32) {
        if y >= self.high * self.symbol.size().rows as u32 {
            return (y, y);
        }
        let first = y / self.high * self.high;
        (first, first + self.high - 1)
    }
}
