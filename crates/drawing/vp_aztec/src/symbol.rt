//! The symbol of bytes.

ghost use Rattle.std.specs.Prelude.{◌≡◌, ◌+◌, ◌-◌, ◌*◌, ◌/◌, ◌%◌, ◌<◌, ◌≤◌, length, slice_index, true, OnOk, IfOk, IfErr, Some, None};
ghost use Rattle.vp_aztec.specs.Sizes.{word_bits, total, IsSound};
ghost use Rattle.vp_aztec.specs.Stuffing.{stuffed};
ghost use Rattle.vp_aztec.specs.Places.{side};
ghost use Rattle.vp_aztec.specs.Modules.{bit_of, data_bit, said_place, ring_module, module_of, dark};
ghost use Rattle.vp_aztec.specs.Encoding.{refusal, symbol_in, symbol_of, rune_of};

use crate::codewords::{Said, codewords, mode_message, rune_message};
use crate::message::message;
use crate::place::{bit_place, far, ring_place};
use crate::size::{Asked, Size};
use crate::stuffing::{Words, stuffed};
use std::marker::Model;

/// Why bytes have no symbol.
#[derive(Clone, Copy, Debug, PartialEq, Eq)]
pub enum Refusal {
    /// There are none.
    Empty,
    /// There is no such percentage of check codewords.
    Percent,
    /// There is no such number of layers.
    Layers,
    /// They and the check codewords are more than any symbol, or those that are asked for, hold.
    TooLong,
}

/// An Aztec symbol.
#[derive(Drop)]
pub struct Aztec {
    size: Size,
    words: Words,
    mode: Said,
}

impl Model for Aztec {
    ghost use Rattle.vp_aztec.specs.Sizes.{IsSound};
    ghost use Rattle.vp_aztec.specs.Encoding.{AztecSymbol};

    ghost Value = { AztecSymbol };

    ghost view = { λ s. record { size = s.size; words = s.words.items; mode = s.mode.items } };

    ghost invariant = { λ s. IsSound s.size };
}

/// Bit `k` of words of `w` bits each, the highest bit of each first.
#[tactic(auto, unfolding(crate::specs::Modules::bit_of))]
fn bit_of(w: usize, words: &[u16], k: usize) -> bool
    requires least { 4 ≤ w }
    requires most { w ≤ 12 }
    ensures { result ≡ bit_of w words.now k }
{
    if k / w >= words.len() {
        return false;
    }
    words[k / w] >> (w - 1 - k % w) & 1 == 1
}

/// Bit `k` of the layers.
#[tactic(auto, unfolding(crate::specs::Modules::data_bit))]
fn data_bit(size: Size, words: &[u16], k: usize) -> bool
    requires { IsSound size }
    ensures { result ≡ data_bit size words.now k }
{
    let w = size.word_bits();
    let lead = size.capacity() % w;
    k >= lead && bit_of(w, words, k - lead)
}

/// Bit `p` of side `k` of the mode message.
fn said_place(size: Size, k: usize, p: usize) -> usize
    requires k { k ≤ 400 }
    requires p { 2 ≤ p }
    requires p_most { p ≤ 100 }
    ensures { result ≡ said_place size k p }
{
    if size.compact {
        7 * k + (p - 2)
    } else {
        10 * k + (p - 2 - (p - 2) / 6)
    }
}

/// Module `p` of side `k` of the ring around the finder.
#[tactic(auto, unfolding(crate::specs::Modules::ring_module))]
fn ring_module(size: Size, mode: &[u16], k: usize, p: usize) -> bool
    requires k { k ≤ 400 }
    requires p { p ≤ 100 }
    ensures { result ≡ ring_module size mode.now k p }
{
    if p <= 1 {
        return k < 2;
    }
    if p == 2 * size.core() - 1 {
        return k % 2 == 1;
    }
    bit_of(4, mode, said_place(size, k, p))
}

impl Aztec {
    /// The size.
    pub fn size(&self) -> Size
        ensures size { result ≡ self.now.size }
        ensures sound { IsSound result }
    {
        self.size
    }

    /// The modules of a side: 11, 15 to 27 for a compact symbol, and 19 to 151 for a full one.
    pub fn side(&self) -> usize
        ensures side { result ≡ side self.now.size }
        ensures most { result ≤ 151 }
    {
        self.size.side()
    }

    /// Whether a module inside is dark.
    #[tactic(auto, unfolding(crate::specs::Modules::module_of))]
    pub(crate) fn module(&self, x: usize, y: usize) -> bool
        requires x { x < side self.now.size }
        requires y { y < side self.now.size }
        ensures { result ≡ module_of self.now.size self.now.words self.now.mode x y }
    {
        let size = self.size;
        let (c, core) = (size.centre(), size.core());
        let ring = far(x, c).max(far(y, c));
        if ring < core {
            return ring % 2 == 0;
        }
        if size.on_grid(x, y) {
            return (far(x, c) + far(y, c)) % 2 == 0;
        }
        if ring == core {
            let place = ring_place(c, core, x, y);
            return ring_module(
                size,
                self.mode.as_slice(),
                place / (2 * core),
                place % (2 * core),
            );
        }
        let place = bit_place(size.base(), size.along(x), size.along(y));
        data_bit(size, self.words.as_slice(), place)
    }

    /// Whether the module in column `x` and row `y` is dark: none is outside.
    pub fn is_dark(&self, x: usize, y: usize) -> bool
        ensures { result ≡ dark self.now.size self.now.words self.now.mode x y }
    {
        x < self.side() && y < self.side() && self.module(x, y)
    }
}

/// The symbol of bits in a size that has room for them.
#[tactic(auto, unfolding(crate::specs::Encoding::symbol_in))]
fn symbol_in(size: Size, bits: &[bool]) -> Aztec
    requires sound { IsSound size }
    requires few { length bits.now ≤ 19968 }
    requires room { length (stuffed (word_bits size.layers) bits.now) < total size }
    requires compact { size.compact ≡ true → length (stuffed (word_bits size.layers) bits.now) ≤ 64 }
    ensures { result ≡ symbol_in size bits.now }
{
    let data = stuffed(size.word_bits(), bits);
    let mode = mode_message(size, data.len());
    Aztec {
        size,
        words: codewords(size, data),
        mode,
    }
}

/// The symbol of bytes (ISO/IEC 24778), in the layers and with the error correction that are asked for: the
/// smallest one that has room, compact where that is enough. All room that the data leave has check
/// codewords.
///
/// Bytes without a symbol are refused: none at all, those for which there is no such percentage or no such
/// number of layers, or too many for any symbol or the layers, in this order.
pub fn encode(src: &[u8], asked: Asked) -> Result<Aztec, Refusal>
    ensures accepted { OnOk result (refusal asked src.now ≡ None) }
    ensures refused { IfErr result (λ why. refusal asked src.now ≡ Some why) }
    ensures symbol { IfOk result (λ symbol. symbol ≡ symbol_of asked src.now) }
{
    if src.is_empty() {
        return Err(Refusal::Empty);
    }
    if asked.percent() < 5 || asked.percent() > 95 {
        return Err(Refusal::Percent);
    }
    if !asked.layers.exist() {
        return Err(Refusal::Layers);
    }
    let bits = message(src);
    let Some(all) = bits.all() else {
        return Err(Refusal::TooLong);
    };
    let Some(k) = asked.smallest(all) else {
        return Err(Refusal::TooLong);
    };
    Ok(symbol_in(Size::at(k), all))
}

/// The symbol of a number (annex A): the core alone.
pub fn rune(number: u8) -> Aztec
    ensures { result ≡ rune_of number }
{
    Aztec {
        size: Size {
            compact: true,
            layers: 0,
        },
        words: Words::new(),
        mode: rune_message(number),
    }
}
