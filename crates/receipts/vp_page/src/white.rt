//! Rows of a half that were laid on since an area was white: all else of that area is white still.
ghost use Rattle.std.specs.Prelude.{◌≡◌, ℕ, ◌+◌, ◌-◌, max, min, ◌<◌, ◌≤◌, true, false};
ghost use Rattle.vp_dots.specs.Dots.{span};

use crate::Area;

/// Rows from one on and before another.
#[derive(Clone, Copy)]
pub(crate) struct Rows {
    pub from: usize,
    pub to: usize,
}

impl Rows {
    /// No row.
    pub fn none() -> Rows
        ensures none { (y : ℕ) → span result.from result.to y ≡ false }
        ensures within { result.to ≡ 0 }
    {
        Rows { from: 0, to: 0 }
    }

    /// The first rows, so many.
    pub fn all(high: usize) -> Rows
        ensures { result ≡ record { from = 0; to = high } }
    {
        Rows { from: 0, to: high }
    }

    /// The rows among these that an area has.
    pub fn inside(self, area: Area) -> Rows
        ensures { result ≡ record { from = max self.from area.y; to = min self.to (area.y + area.dy) } }
    {
        Rows {
            from: self.from.max(area.y as usize),
            to: self.to.min(area.y as usize + area.dy as usize),
        }
    }

    /// How many they are.
    pub fn count(self) -> u64
        ensures { result ≡ self.to - self.from }
    {
        self.to.saturating_sub(self.from) as u64
    }

    /// These rows, those of `other` among the first `high`, and what stands between them.
    pub fn with(self, other: Rows, high: usize) -> Rows
        requires { self.to ≤ high }
        ensures within { result.to ≤ high }
        ensures these { (y : ℕ) → span self.from self.to y ≡ true → span result.from result.to y ≡ true }
        ensures others { (y : ℕ) → y < high → span other.from other.to y ≡ true →
            span result.from result.to y ≡ true }
    {
        let other = Rows {
            from: other.from,
            to: other.to.min(high),
        };
        if self.from >= self.to {
            return other;
        }
        Rows {
            from: self.from.min(other.from),
            to: self.to.max(other.to),
        }
    }
}
