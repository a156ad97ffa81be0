//! The sizes of symbols, and which one is taken.

ghost use Rattle.std.specs.Prelude.{◌≡◌, ◌+◌, ◌<◌, ◌≤◌, length, true, IfSome};
ghost use Rattle.vp_aztec.specs.Stuffing.{stuffed};
ghost use Rattle.vp_aztec.specs.Sizes.{word_bits, field_of, capacity, total, size_at, percent, least_check, is_asked, exist, fits, smallest, IsSound};

use crate::stuffing::count;
use vp_reed_solomon::Field;

/// The layers that are asked for.
#[derive(Clone, Copy, Debug, PartialEq, Eq)]
pub enum Layers {
    /// As few as have room, compact ones first.
    Any,
    /// So many of a compact symbol, 1 to 4.
    Compact(usize),
    /// So many of a full symbol, 1 to 32.
    Full(usize),
}

/// What is asked for.
#[derive(Clone, Copy, Debug, PartialEq, Eq)]
pub struct Asked {
    /// How many percent of the codewords, 5 to 95, are to be check codewords, beside three more at least: 23
    /// where it isn't said.
    pub percent: Option<usize>,
    pub layers: Layers,
}

/// A size of symbols.
#[derive(Clone, Copy, Debug, PartialEq, Eq)]
pub struct Size {
    /// With a smaller core, and without a reference grid.
    pub compact: bool,
    /// The layers around the core: 0 for a rune.
    pub layers: usize,
}

impl Layers {
    /// Whether a size is asked for.
    fn has(self, size: Size) -> bool
        ensures { result ≡ is_asked self size }
    {
        match self {
            Layers::Any => true,
            Layers::Compact(n) => size.compact && size.layers == n,
            Layers::Full(n) => !size.compact && size.layers == n,
        }
    }

    /// Whether there is such a size.
    pub(crate) fn exist(self) -> bool
        ensures { result ≡ exist self }
    {
        match self {
            Layers::Any => true,
            Layers::Compact(n) => n >= 1 && n <= 4,
            Layers::Full(n) => n >= 1 && n <= 32,
        }
    }
}

impl Size {
    /// Size number `k`, the compact ones first.
    pub(crate) fn at(k: usize) -> Size
        requires { k < 36 }
        ensures size { result ≡ size_at k }
        ensures sound { IsSound result }
    {
        if k < 4 {
            Size {
                compact: true,
                layers: k + 1,
            }
        } else {
            Size {
                compact: false,
                layers: k - 3,
            }
        }
    }

    /// The bits of a codeword.
    pub(crate) fn word_bits(self) -> usize
        ensures bits { result ≡ word_bits self.layers }
        ensures least { 6 ≤ result }
        ensures most { result ≤ 12 }
    {
        match self.layers {
            0..=2 => 6,
            3..=8 => 8,
            9..=22 => 10,
            _ => 12,
        }
    }

    /// Their field.
    pub(crate) fn field(self) -> Field
        ensures { result ≡ field_of self.layers }
    {
        match self.layers {
            0..=2 => Field::Gf64,
            3..=8 => Field::Gf256,
            9..=22 => Field::Gf1024,
            _ => Field::Gf4096,
        }
    }

    /// How many bits the layers hold.
    pub(crate) fn capacity(self) -> usize
        requires { IsSound self }
        ensures capacity { result ≡ capacity self }
        ensures most { result ≤ 19968 }
    {
        self.layers * (if self.compact { 88 } else { 112 } + 16 * self.layers)
    }

    /// How many codewords there are.
    pub(crate) fn total(self) -> usize
        requires { IsSound self }
        ensures total { result ≡ total self }
        ensures most { result ≤ 1664 }
    {
        self.capacity() / self.word_bits()
    }
}

impl Asked {
    /// The percentage.
    pub(crate) fn percent(self) -> usize
        ensures { result ≡ percent self }
    {
        self.percent.unwrap_or(23)
    }

    /// The fewest check codewords of a size.
    fn least_check(self, size: Size) -> usize
        requires sound { IsSound size }
        requires percent { percent self ≤ 95 }
        ensures check { result ≡ least_check self size }
        ensures most { result ≤ 2000 }
    {
        size.total() * self.percent() / 100 + 3
    }

    /// Whether size number `k` is asked for and has room for bits.
    #[tactic(auto, unfolding(crate::specs::Sizes::fits))]
    fn fits(self, bits: &[bool], k: usize) -> bool
        requires k { k < 36 }
        requires few { length bits.now ≤ 19968 }
        requires percent { percent self ≤ 95 }
        ensures { result ≡ fits self bits.now k }
    {
        let size = Size::at(k);
        if !self.layers.has(size) {
            return false;
        }
        let n = count(size.word_bits(), bits);
        n + self.least_check(size) <= size.total() && (!size.compact || n <= 64)
    }

    /// The number of the first size that does.
    #[tactic(auto, unfolding(crate::specs::Sizes::smallest))]
    pub(crate) fn smallest(self, bits: &[bool]) -> Option<usize>
        requires few { length bits.now ≤ 19968 }
        requires percent { percent self ≤ 95 }
        ensures number { result ≡ smallest self bits.now }
        ensures fits { IfSome result (λ k. (k < 36) × (fits self bits.now k ≡ true)) }
    {
        for k in 0..36usize {
            if self.fits(bits, k) {
                return Some(k);
            }
        }
        None
    }
}
